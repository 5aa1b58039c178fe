// The bits of a value.
ghost use Rattle.std.specs.Prelude.{◌≡◌, ◌<◌, length, get_or, Some, false, IfOk};
ghost use Rattle.std.specs.Option.{option_map};
ghost use Rattle.ij_text.specs.Numbers.{InBits, seen, tern_bits};
ghost use Rattle.pdl_parser.specs.Views.{seen_value};
ghost use Rattle.pdl_targets.specs.Seen.{Finds};
ghost use Rattle.pdl_targets.specs.Targets.{fitted, found_then, number_at, valued, word_value};

use crate::fault::TargetFault;
use ij_bits::{OutOfMemory, Tern};
use ij_text::{FitFault, Name, Number, Place, fit};
use net_graph::Thing;
use pdl_parser::Value;
use std::alloc::Global;

/// The value of a word of an enumeration.
fn word_value<'a>(words: &'a [(Name, Tern)], name: &[u8]) -> Option<&'a Tern>
    ensures { option_map (λ t. InBits (tern_bits t.now)) result ≡ word_value words.now name.now }
{
    for word in words {
        if word.0.as_slice() == name {
            return Some(&word.1);
        }
    }
    None
}

/// A bit of a value, or `None` where it is open.
pub(crate) fn value_at(values: &Tern, i: u32) -> Option<bool>
    requires { i < length values.now.value.items }
    ensures { result ≡ get_or (tern_bits values.now) i (Some false) }
{
    values.get(i)
}

/// A copy of bits as a number.
fn copied(alloc: Global, t: &Tern) -> Result<Number, OutOfMemory>
    ensures { IfOk result (λ n. seen n ≡ InBits (tern_bits t.now)) }
{
    Ok(Number::Digits(t.copy(alloc)?))
}

/// The bits of a number in a width.
fn fitted(alloc: Global, at: Place, number: &Number, width: u32) -> Result<Tern, TargetFault>
    ensures { Finds tern_bits (fitted at width (seen number.now)) result }
{
    match fit(alloc, number, width) {
        Ok(bits) => Ok(bits),
        Err(FitFault::Wide) => Err(TargetFault::ValueWide { at }),
        Err(FitFault::OutOfMemory) => Err(TargetFault::OutOfMemory),
    }
}

/// The bits of a word that was looked up, in a width.
fn fitted_word(
    alloc: Global,
    at: Place,
    word: Option<&Tern>,
    width: u32,
) -> Result<Tern, TargetFault>
    ensures { Finds tern_bits (found_then
        (valued at (option_map (λ t. InBits (tern_bits t.now)) word.entry)) (fitted at width)) result }
{
    match word {
        Some(bits) => fitted(alloc, at, &copied(alloc, bits)?, width),
        None => Err(TargetFault::NoValue { at }),
    }
}

/// The bits of a value for a thing, in a width.
pub(crate) fn value_bits(
    alloc: Global,
    at: Place,
    thing: &Thing,
    value: &Value,
    width: u32,
) -> Result<Tern, TargetFault>
    ensures { Finds tern_bits
        (found_then (number_at at thing.now (seen_value value.now)) (fitted at width)) result }
{
    match value {
        Value::Number(number) => fitted(alloc, at, number, width),
        Value::Word(name) => {
            let word = word_value(thing.words.as_slice(), name.as_slice());
            fitted_word(alloc, at, word, width)
        }
        Value::Arg(_) => Err(TargetFault::NoValue { at }),
    }
}
