// Items, modules and designs.
ghost use Rattle.std.specs.Prelude.{◌<◌, IfOk, length};
ghost use Rattle.ij_bits.specs.Room.{seen_list};
ghost use Rattle.icl_lexer.specs.Values.{SeenItem, SeenModule};
ghost use Rattle.icl_lexer.specs.Views.{seen_item, seen_module, seen_what};
ghost use Rattle.icl_expressions.specs.Seen.{seen_read, Gives};
ghost use Rattle.icl_parser.specs.SeenParts.{seen_item_begin};
ghost use Rattle.icl_parser.specs.Reading.{read_item_begin, read_meaning_after, read_item, read_module};
ghost use Rattle.icl_parser.specs.Reading.{whole_design};

use crate::entries::{Entry, read_braced, read_next_entry};
use crate::items::{
    read_alias, read_attribute, read_child, read_mux, read_parameter, read_port, read_register,
};
use crate::links::{read_enum, read_interface, read_link};
use crate::words::item_word;
use icl_expressions::{Parsed, ReadStop, read_name, read_word};
use icl_lexer::{Cursor, Item, ItemKeyword, Module, What};
use ij_bits::{List, pair_if_ok};
use ij_text::Place;
use std::alloc::Global;

/// The word of an item at its place.
#[derive(Clone, Copy, Debug, Drop)]
pub(crate) struct ItemBegin {
    pub at: Place,
    pub word: ItemKeyword,
}

fn read_item_begin<'a>(tokens: Cursor<'a>) -> Result<Parsed<'a, ItemBegin>, ReadStop>
    ensures shorter { IfOk result (λ r. length r.rest < length tokens.entry) }
    ensures gives { Gives (seen_read seen_item_begin) result (read_item_begin tokens.entry) }
{
    let left = tokens.len();
    match tokens.next() {
        Some((t, rest)) => match item_word(&t) {
            Some(word) => Ok(Parsed {
                value: ItemBegin { at: t.at, word },
                rest,
            }),
            None => Err(ReadStop::At(left, None)),
        },
        None => Err(ReadStop::At(0, None)),
    }
}

/// What comes after the word and the name of an item.
#[tactic(auto, unfolding(crate::specs::Reading::read_meaning_after))]
fn read_meaning_after<'a>(
    alloc: Global,
    word: ItemKeyword,
    tokens: Cursor<'a>,
) -> Result<Parsed<'a, What>, ReadStop>
    ensures shorter { IfOk result (λ r. length r.rest < length tokens.entry) }
    ensures gives { Gives (seen_read seen_what) result (read_meaning_after word tokens.entry) }
{
    match word {
        ItemKeyword::OfPort(kind) => read_port(alloc, kind, tokens),
        ItemKeyword::OfRegister => read_register(alloc, tokens),
        ItemKeyword::OfMux => read_mux(alloc, tokens),
        ItemKeyword::OfChild => read_child(alloc, tokens),
        ItemKeyword::OfAlias => read_alias(alloc, tokens),
        ItemKeyword::OfEnum => read_enum(alloc, tokens),
        ItemKeyword::OfParameter(local) => read_parameter(alloc, local, tokens),
        ItemKeyword::OfAttribute => read_attribute(alloc, tokens),
        ItemKeyword::OfInterface => read_interface(alloc, tokens),
        ItemKeyword::OfLink => read_link(alloc, tokens),
    }
}

/// An item.
#[tactic(auto, unfolding(crate::specs::Reading::read_item))]
impl Entry for Item {
    ghost Plain = { SeenItem };

    ghost view = { seen_item };

    ghost reader = { read_item };

    fn read<'a>(alloc: Global, tokens: Cursor<'a>) -> Result<Parsed<'a, Item>, ReadStop> {
        let begin = read_item_begin(tokens)?;
        let name = read_name(alloc, begin.rest)?;
        let (name, what) = pair_if_ok(
            name.value,
            read_meaning_after(alloc, begin.value.word, name.rest),
        )?;
        Ok(Parsed {
            value: Item {
                at: begin.value.at,
                name,
                what: what.value,
            },
            rest: what.rest,
        })
    }
}

/// A module.
#[tactic(auto, using(crate::proofs::DesignLaws::item_shrinks), unfolding(crate::specs::Reading::read_module, crate::specs::Reading::read_items))]
impl Entry for Module {
    ghost Plain = { SeenModule };

    ghost view = { seen_module };

    ghost reader = { read_module };

    fn read<'a>(alloc: Global, tokens: Cursor<'a>) -> Result<Parsed<'a, Module>, ReadStop> {
        let word = read_word(tokens, b"Module")?;
        let name = read_name(alloc, word.rest)?;
        let (name, items) = pair_if_ok(name.value, read_braced(alloc, name.rest))?;
        Ok(Parsed {
            value: Module {
                name,
                at: word.value,
                items: items.value,
            },
            rest: items.rest,
        })
    }
}

/// Modules up to the end.
#[tactic(auto, unfolding(crate::specs::Reading::read_design))]
pub(crate) fn read_design<'a>(alloc: Global, tokens: Cursor<'a>) -> Result<List<Module>, ReadStop>
    ensures { Gives (seen_list seen_module) result (whole_design tokens.entry) }
{
    let mut modules = Parsed {
        value: List::new(alloc),
        rest: tokens,
    };
    while !modules.rest.is_empty() {
        modules = read_next_entry(alloc, modules)?;
    }
    Ok(modules.value)
}
