// Names that differ.
ghost use Rattle.std.specs.Prelude.{ℕ, List, ◌||◌, ◌≡◌, OnOk, map};
ghost use Rattle.std.specs.Str.{bytes_eq};
ghost use Rattle.ij_text.specs.Options.{same};
ghost use Rattle.icl_lexer.specs.Values.{SeenItem};
ghost use Rattle.icl_lexer.specs.Views.{seen_item, seen_what};
ghost use Rattle.icl_declarations.specs.Faults.{DoubleName, Gives, refuse_if};
ghost use Rattle.icl_declarations.specs.Parts.{inner_names};
ghost use Rattle.icl_declarations.specs.Naming.{distinct, check_item_names};
ghost use Rattle.icl_declarations.specs.Taken.{AreTaken, has_entry};

use crate::fault::ElabFault;
use crate::scope::Scope;
use crate::taken::Taken;
use icl_lexer::{EnumWord, Item, LinkInstr, What};
use ij_text::{Place, name_of};
use std::alloc::Global;

/// Adds a name, which none of those before is.
fn add_name(alloc: Global, at: Place, seen: &mut Scope, name: &[u8]) -> Result<(), ElabFault>
    ensures answer { Gives same result (refuse_if (has_entry seen.old name.now) (DoubleName at name.now)) }
    ensures seen { OnOk result ((n : List ℕ)
        → has_entry seen.new n ≡ (has_entry seen.old n || bytes_eq n name.now)) }
{
    if seen.has(name) {
        let name = name_of(alloc, name)?;
        return Err(ElabFault::DoubleName { at, name });
    }
    seen.note(alloc, name)?;
    Ok(())
}

/// Checks that the words of an enumeration differ among themselves.
fn check_words_differ(alloc: Global, at: Place, words: &[EnumWord]) -> Result<(), ElabFault>
    ensures { Gives same result (distinct at (map (λ w. w.name.items) words.now)) }
{
    let mut seen = Scope::new(alloc);
    for word in words {
        add_name(alloc, at, &mut seen, word.name.as_slice())?;
    }
    Ok(())
}

/// Checks that the instructions of a link differ among themselves.
fn check_instrs_differ(alloc: Global, at: Place, instrs: &[LinkInstr]) -> Result<(), ElabFault>
    ensures { Gives same result (distinct at (map (λ i. i.name.items) instrs.now)) }
{
    let mut seen = Scope::new(alloc);
    for instr in instrs {
        add_name(alloc, at, &mut seen, instr.name.as_slice())?;
    }
    Ok(())
}

/// Checks that the names in an item differ among themselves.
fn check_inner_names(alloc: Global, item: &Item) -> Result<(), ElabFault>
    ensures { Gives same result (distinct item.now.at (inner_names (seen_what item.now.what))) }
{
    match &item.what {
        What::Words { words } => check_words_differ(alloc, item.at, words.as_slice()),
        What::Link { instrs, .. } => check_instrs_differ(alloc, item.at, instrs.as_slice()),
        _ => Ok(()),
    }
}

/// The name of an item, which isn't taken, and those in it.
pub fn check_item_names(alloc: Global, taken: &Taken, item: &Item) -> Result<(), ElabFault>
    ensures { (items : List SeenItem) → AreTaken taken.now items
        → Gives same result (check_item_names items (seen_item item.now)) }
{
    if taken.has(item) {
        let name = name_of(alloc, item.name.as_slice())?;
        return Err(ElabFault::DoubleName { at: item.at, name });
    }
    check_inner_names(alloc, item)
}
