// The words of enumerations.
ghost use Rattle.std.specs.Prelude.{◌≡◌, ◌&&◌, map, find};
ghost use Rattle.std.specs.Option.{option_map};
ghost use Rattle.std.specs.Str.{bytes_eq};
ghost use Rattle.icl_lexer.specs.Views.{seen_enum_word, seen_item, seen_what};
ghost use Rattle.icl_declarations.specs.Parts.{is_enum, words_in};
ghost use Rattle.icl_frames.specs.SeenFrames.{seen_frame};
ghost use Rattle.icl_declarations.specs.Faults.{Gives, each};
ghost use Rattle.icl_declarations.specs.Tables.{seen_table};
ghost use Rattle.icl_references.specs.Roles.{seen_word};
ghost use Rattle.icl_elab.specs.SeenParts.{seen_words};
ghost use Rattle.icl_elab.specs.FoundParts.{known_enum, word_of, words_named};
ghost use Rattle.icl_references.specs.Tables.{seen_member};

use icl_declarations::{ElabFault, ParamTable, value_in};
use icl_frames::{Frame, is_enum};
use icl_lexer::{EnumWord, Item, SmallText, What};
use icl_references::{Member, width_of};
use ij_bits::{List, Tern};
use ij_text::{Name, Place, name_of};
use std::alloc::Global;

/// The enumeration of this name. It is searched for once for each reference.
fn enum_named<'a>(items: &'a [Item], name: &[u8]) -> Option<&'a Item>
    ensures { option_map (λ item. seen_item item.now) result
        ≡ find (λ item. is_enum item.what && bytes_eq name.now item.name) (map seen_item items.now) }
{
    for item in items {
        if is_enum(&item.what) && name == item.name.as_slice() {
            return Some(item);
        }
    }
    None
}

/// The words of an enumeration.
fn words_in(what: &What) -> &[EnumWord]
    ensures { map seen_enum_word result.now ≡ words_in (seen_what what.now) }
{
    match what {
        What::Words { words } => words.as_slice(),
        _ => &[],
    }
}

/// The words of an enumeration that is there.
fn known_enum<'a>(
    alloc: Global,
    at: Place,
    name: &SmallText,
    item: Option<&'a Item>,
) -> Result<&'a [EnumWord], ElabFault>
    ensures { Gives (λ words. map seen_enum_word words.now) result
        (known_enum at name.now.items (option_map (λ item. seen_item item.now) item.entry)) }
{
    match item {
        Some(item) => Ok(words_in(&item.what)),
        None => {
            let name = name_of(alloc, name.as_slice())?;
            Err(ElabFault::NoName { at, name })
        }
    }
}

/// A word in a width.
fn word_of(
    alloc: Global,
    params: &ParamTable,
    at: Place,
    wide: u32,
    word: &EnumWord,
) -> Result<(Name, Tern), ElabFault>
    ensures { Gives seen_word result (word_of (seen_table params.now) at wide (seen_enum_word word.now)) }
{
    let value = value_in(alloc, params, word.value.as_slice(), wide, at)?;
    let name = name_of(alloc, word.name.as_slice())?;
    Ok((name, value))
}

/// Words in a width.
fn words_of(
    alloc: Global,
    params: &ParamTable,
    at: Place,
    wide: u32,
    words: &[EnumWord],
) -> Result<List<(Name, Tern)>, ElabFault>
    ensures { Gives seen_words result
        (each (word_of (seen_table params.now) at wide) (map seen_enum_word words.now)) }
{
    let mut all = List::new(alloc);
    for word in words {
        let word = word_of(alloc, params, at, wide, word)?;
        all.push(word)?;
    }
    Ok(all)
}

/// The words of the enumeration that a part refers to (IEEE 1687-2014, ICL: `RefEnum`), each in the width of
/// the part.
#[tactic(auto, unfolding(crate::specs::FoundParts::words_named))]
pub(crate) fn words_named(
    alloc: Global,
    frame: &Frame,
    m: &Member,
    name: &SmallText,
) -> Result<List<(Name, Tern)>, ElabFault>
    ensures { Gives seen_words result
        (words_named (seen_frame frame.now) (seen_member m.now) name.now.items) }
{
    let item = enum_named(frame.block.items.as_slice(), name.as_slice());
    let words = known_enum(alloc, m.item.at, name, item)?;
    let wide = width_of(m.bounds)?;
    words_of(alloc, &frame.params, m.item.at, wide, words)
}
