// Copies of what a network takes over from its hierarchy.
ghost use Rattle.std.specs.Prelude.{◌≡◌, map, replicate, None, IfOk};
ghost use Rattle.std.specs.Option.{option_map};
ghost use Rattle.ij_text.specs.Numbers.{tern_bits};
ghost use Rattle.icl_references.specs.Roles.{seen_word};
ghost use Rattle.icl_signals.specs.Connecting.{resets};
ghost use Rattle.icl_signals.specs.OpenNumbers.{tern_of, word_of};

use icl_elab::Part;
use ij_bits::{BitBox, Bits, List, OutOfMemory, Tern};
use ij_text::{Name, name_of};
use std::alloc::Global;

/// This many bits, all of them open.
fn all_open(alloc: Global, width: u32) -> Result<Tern, OutOfMemory>
    ensures { IfOk result (λ t. t ≡ tern_of (replicate width None)) }
{
    let value = Bits::zeros(alloc, width)?;
    let care = Bits::zeros(alloc, width)?;
    Ok(Tern {
        value: BitBox::from(value),
        care: BitBox::from(care),
    })
}

/// The reset values of a register: all open where there are none.
pub(crate) fn resets(alloc: Global, width: u32, reset: &Option<Tern>) -> Result<Tern, OutOfMemory>
    ensures { IfOk result (λ t. t ≡ tern_of (resets width (option_map tern_bits reset.now))) }
{
    match reset {
        Some(bits) => bits.copy(alloc),
        None => all_open(alloc, width),
    }
}

/// The same values.
pub(crate) fn values_copy(alloc: Global, values: &[Tern]) -> Result<List<Tern>, OutOfMemory>
    ensures { IfOk result (λ all. all.items ≡ map tern_of (map tern_bits values.now)) }
{
    let mut all = List::new(alloc);
    for value in values {
        all.push(value.copy(alloc)?)?;
    }
    Ok(all)
}

/// A word of an enumeration, with its value.
fn word_copy(alloc: Global, word: &(Name, Tern)) -> Result<(Name, Tern), OutOfMemory>
    ensures { IfOk result (λ w. w ≡ word.now) }
{
    let name = name_of(alloc, word.0.as_slice())?;
    let value = word.1.copy(alloc)?;
    Ok((name, value))
}

/// The words of a part's enumeration, with their values.
pub(crate) fn words_copy(alloc: Global, part: &Part) -> Result<List<(Name, Tern)>, OutOfMemory>
    ensures { IfOk result (λ words. words.items ≡ map word_of (map seen_word part.now.words.items)) }
{
    let mut words = List::new(alloc);
    for word in part.words.as_slice() {
        words.push(word_copy(alloc, word)?)?;
    }
    Ok(words)
}
