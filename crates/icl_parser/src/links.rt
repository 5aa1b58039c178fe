// Items of names: enumerations, scan interfaces and access links.
ghost use Rattle.std.specs.Prelude.{◌≡◌, ◌<◌, ◌≤◌, IfOk, length};
ghost use Rattle.std.specs.Option.{option_map};
ghost use Rattle.ij_text.specs.Options.{same};
ghost use Rattle.ij_bits.specs.Room.{seen_list};
ghost use Rattle.icl_lexer.specs.Values.{SeenEnumWord, SeenLinkInstr};
ghost use Rattle.icl_lexer.specs.Views.{bytes_of, seen_instr, seen_enum_word, seen_what};
ghost use Rattle.icl_lexer.specs.Modules.{with_member};
ghost use Rattle.icl_expressions.specs.Seen.{seen_read, Gives};
ghost use Rattle.icl_parser.specs.SeenParts.{seen_selected};
ghost use Rattle.icl_expressions.specs.Reading.{read_put};
ghost use Rattle.icl_parser.specs.Reading.{read_enum_word, read_enum, read_member_word, read_member_after};
ghost use Rattle.icl_parser.specs.Reading.{read_member, read_members, read_interface, read_selected};
ghost use Rattle.icl_parser.specs.Reading.{read_selecting, read_instruction, read_entity, read_link_kind};
ghost use Rattle.icl_parser.specs.Reading.{read_link};

use crate::bodies::read_attribute_said;
use crate::entries::{Entry, read_braced, read_many};
use crate::words::{link_kind, member_word};
use icl_expressions::{
    Parsed, ReadStop, is_next_not_close, push_parsed, read_mark, read_name, read_value, read_word,
};
use icl_lexer::{Cursor, EnumWord, LinkInstr, LinkKind, MemberKeyword, SmallText, What};
use ij_bits::{List, OutOfMemory, pair_if_ok};
use std::alloc::Global;

// ---- enumerations

/// A word of an enumeration up to its `;`.
#[tactic(auto, unfolding(crate::specs::Reading::read_enum_word))]
impl Entry for EnumWord {
    ghost Plain = { SeenEnumWord };

    ghost view = { seen_enum_word };

    ghost reader = { read_enum_word };

    fn read<'a>(alloc: Global, tokens: Cursor<'a>) -> Result<Parsed<'a, EnumWord>, ReadStop> {
        let name = read_name(alloc, tokens)?;
        let (name, equals) = pair_if_ok(name.value, read_mark(name.rest, b'='))?;
        let (name, value) = pair_if_ok(name, read_value(alloc, equals.rest))?;
        let word = EnumWord {
            name,
            value: value.value,
        };
        let (word, end) = pair_if_ok(word, read_mark(value.rest, b';'))?;
        Ok(Parsed {
            value: word,
            rest: end.rest,
        })
    }
}

/// An enumeration after its name.
#[tactic(auto, using(crate::proofs::DesignLaws::enum_word_shrinks), unfolding(crate::specs::Reading::read_enum, crate::specs::Reading::read_many_words))]
pub(crate) fn read_enum<'a>(alloc: Global, tokens: Cursor<'a>) -> Result<Parsed<'a, What>, ReadStop>
    ensures shorter { IfOk result (λ r. length r.rest < length tokens.entry) }
    ensures gives { Gives (seen_read seen_what) result (read_enum tokens.entry) }
{
    let words = read_braced(alloc, tokens)?;
    Ok(Parsed {
        value: What::Words { words: words.value },
        rest: words.rest,
    })
}

// ---- interfaces

fn read_member_word<'a>(tokens: Cursor<'a>) -> Result<Parsed<'a, MemberKeyword>, ReadStop>
    ensures shorter { IfOk result (λ r. length r.rest < length tokens.entry) }
    ensures gives { Gives (seen_read same) result (read_member_word tokens.entry) }
{
    let left = tokens.len();
    match tokens.next() {
        Some((t, rest)) => match member_word(&t) {
            Some(value) => Ok(Parsed { value, rest }),
            None => Err(ReadStop::At(left, None)),
        },
        None => Err(ReadStop::At(0, None)),
    }
}

/// What comes after the word of a member. An attribute isn't kept.
fn read_member_after<'a>(
    alloc: Global,
    word: MemberKeyword,
    tokens: Cursor<'a>,
) -> Result<Parsed<'a, Option<SmallText>>, ReadStop>
    ensures shorter { IfOk result (λ r. length r.rest < length tokens.entry) }
    ensures gives { Gives (seen_read (option_map bytes_of)) result (read_member_after word tokens.entry) }
{
    match word {
        MemberKeyword::MemberPort => {
            let name = read_name(alloc, tokens)?;
            Ok(Parsed {
                value: Some(name.value),
                rest: name.rest,
            })
        }
        MemberKeyword::MemberAttribute => {
            let said = read_attribute_said(alloc, tokens)?;
            Ok(Parsed {
                value: None,
                rest: said.rest,
            })
        }
    }
}

/// A member of an interface up to its `;`.
#[tactic(auto, unfolding(crate::specs::Reading::read_member))]
fn read_member<'a>(
    alloc: Global,
    tokens: Cursor<'a>,
) -> Result<Parsed<'a, Option<SmallText>>, ReadStop>
    ensures shorter { IfOk result (λ r. length r.rest < length tokens.entry) }
    ensures gives { Gives (seen_read (option_map bytes_of)) result (read_member tokens.entry) }
{
    let word = read_member_word(tokens)?;
    let name = read_member_after(alloc, word.value, word.rest)?;
    let (name, end) = pair_if_ok(name.value, read_mark(name.rest, b';'))?;
    Ok(Parsed {
        value: name,
        rest: end.rest,
    })
}

/// Names with the next one after them, if it is kept.
fn with<'a>(
    names: List<SmallText>,
    next: Parsed<'a, Option<SmallText>>,
) -> Result<Parsed<'a, List<SmallText>>, OutOfMemory>
    ensures value { IfOk result (λ r. seen_list bytes_of r.value
        ≡ with_member (seen_list bytes_of names) (option_map bytes_of next.entry.value)) }
    ensures rest { IfOk result (λ r. r.rest ≡ next.entry.rest) }
{
    let rest = next.rest;
    match next.value {
        Some(value) => push_parsed(names, Parsed { value, rest }),
        None => Ok(Parsed { value: names, rest }),
    }
}

/// Members of an interface with the next one.
fn with_next_member<'a>(
    alloc: Global,
    names: Parsed<'a, List<SmallText>>,
) -> Result<Parsed<'a, List<SmallText>>, ReadStop>
    ensures shorter { IfOk result (λ r. length r.rest < length names.entry.rest) }
    ensures gives { Gives (seen_read (seen_list bytes_of)) result
        (read_put read_member with_member (seen_list bytes_of names.entry.value) names.entry.rest) }
{
    let (names, next) = pair_if_ok(names.value, read_member(alloc, names.rest))?;
    Ok(with(names, next)?)
}

/// Members of an interface up to a `}` or the end of the tokens.
#[tactic(auto, unfolding(crate::specs::Reading::read_members))]
fn read_members<'a>(
    alloc: Global,
    tokens: Cursor<'a>,
) -> Result<Parsed<'a, List<SmallText>>, ReadStop>
    ensures shorter { IfOk result (λ r. length r.rest ≤ length tokens.entry) }
    ensures gives { Gives (seen_read (seen_list bytes_of)) result (read_members tokens.entry) }
{
    let mut names = Parsed {
        value: List::new(alloc),
        rest: tokens,
    };
    while is_next_not_close(&names.rest) {
        names = with_next_member(alloc, names)?;
    }
    Ok(names)
}

/// A scan interface after its name.
#[tactic(auto, unfolding(crate::specs::Reading::read_interface))]
pub(crate) fn read_interface<'a>(
    alloc: Global,
    tokens: Cursor<'a>,
) -> Result<Parsed<'a, What>, ReadStop>
    ensures shorter { IfOk result (λ r. length r.rest < length tokens.entry) }
    ensures gives { Gives (seen_read seen_what) result (read_interface tokens.entry) }
{
    let open = read_mark(tokens, b'{')?;
    let ports = read_members(alloc, open.rest)?;
    let (ports, close) = pair_if_ok(ports.value, read_mark(ports.rest, b'}'))?;
    Ok(Parsed {
        value: What::Interface { ports },
        rest: close.rest,
    })
}

// ---- access links

/// The instance and the interface that an instruction selects.
#[derive(Drop)]
pub(crate) struct Selected {
    pub cell: SmallText,
    pub interface: SmallText,
}

#[tactic(auto, unfolding(crate::specs::Reading::read_selected))]
fn read_selected<'a>(alloc: Global, tokens: Cursor<'a>) -> Result<Parsed<'a, Selected>, ReadStop>
    ensures shorter { IfOk result (λ r. length r.rest < length tokens.entry) }
    ensures gives { Gives (seen_read seen_selected) result (read_selected tokens.entry) }
{
    let cell = read_name(alloc, tokens)?;
    let (cell, dot) = pair_if_ok(cell.value, read_mark(cell.rest, b'.'))?;
    let (cell, interface) = pair_if_ok(cell, read_name(alloc, dot.rest))?;
    let selected = Selected {
        cell,
        interface: interface.value,
    };
    let (selected, end) = pair_if_ok(selected, read_mark(interface.rest, b';'))?;
    Ok(Parsed {
        value: selected,
        rest: end.rest,
    })
}

/// The `ScanInterface` of an instruction.
#[tactic(auto, unfolding(crate::specs::Reading::read_selecting))]
fn read_selecting<'a>(alloc: Global, tokens: Cursor<'a>) -> Result<Parsed<'a, Selected>, ReadStop>
    ensures shorter { IfOk result (λ r. length r.rest < length tokens.entry) }
    ensures gives { Gives (seen_read seen_selected) result (read_selecting tokens.entry) }
{
    let word = read_word(tokens, b"ScanInterface")?;
    let open = read_mark(word.rest, b'{')?;
    let selected = read_selected(alloc, open.rest)?;
    let (selected, close) = pair_if_ok(selected.value, read_mark(selected.rest, b'}'))?;
    Ok(Parsed {
        value: selected,
        rest: close.rest,
    })
}

/// An instruction of an access link.
#[tactic(auto, unfolding(crate::specs::Reading::read_instruction))]
impl Entry for LinkInstr {
    ghost Plain = { SeenLinkInstr };

    ghost view = { seen_instr };

    ghost reader = { read_instruction };

    fn read<'a>(alloc: Global, tokens: Cursor<'a>) -> Result<Parsed<'a, LinkInstr>, ReadStop> {
        let name = read_name(alloc, tokens)?;
        let (name, open) = pair_if_ok(name.value, read_mark(name.rest, b'{'))?;
        let (name, selected) = pair_if_ok(name, read_selecting(alloc, open.rest))?;
        let instr = LinkInstr {
            name,
            cell: selected.value.cell,
            interface: selected.value.interface,
        };
        let (instr, close) = pair_if_ok(instr, read_mark(selected.rest, b'}'))?;
        Ok(Parsed {
            value: instr,
            rest: close.rest,
        })
    }
}

/// The entity of an access link.
#[tactic(auto, unfolding(crate::specs::Reading::read_entity))]
fn read_entity<'a>(alloc: Global, tokens: Cursor<'a>) -> Result<Parsed<'a, SmallText>, ReadStop>
    ensures shorter { IfOk result (λ r. length r.rest < length tokens.entry) }
    ensures gives { Gives (seen_read bytes_of) result (read_entity tokens.entry) }
{
    let word = read_word(tokens, b"BSDLEntity")?;
    let name = read_name(alloc, word.rest)?;
    let (name, end) = pair_if_ok(name.value, read_mark(name.rest, b';'))?;
    Ok(Parsed {
        value: name,
        rest: end.rest,
    })
}

fn read_link_kind<'a>(tokens: Cursor<'a>) -> Result<Parsed<'a, LinkKind>, ReadStop>
    ensures shorter { IfOk result (λ r. length r.rest < length tokens.entry) }
    ensures gives { Gives (seen_read same) result (read_link_kind tokens.entry) }
{
    let left = tokens.len();
    match tokens.next() {
        Some((t, rest)) => match link_kind(&t) {
            Some(value) => Ok(Parsed { value, rest }),
            None => Err(ReadStop::At(left, None)),
        },
        None => Err(ReadStop::At(0, None)),
    }
}

/// An access link after its name.
#[tactic(auto, using(crate::proofs::DesignLaws::instruction_shrinks), unfolding(crate::specs::Reading::read_link, crate::specs::Reading::read_instructions))]
pub(crate) fn read_link<'a>(alloc: Global, tokens: Cursor<'a>) -> Result<Parsed<'a, What>, ReadStop>
    ensures shorter { IfOk result (λ r. length r.rest < length tokens.entry) }
    ensures gives { Gives (seen_read seen_what) result (read_link tokens.entry) }
{
    let of = read_word(tokens, b"Of")?;
    let kind = read_link_kind(of.rest)?;
    let open = read_mark(kind.rest, b'{')?;
    let entity = read_entity(alloc, open.rest)?;
    let (entity, instrs) = pair_if_ok(entity.value, read_many(alloc, entity.rest))?;
    let close = pair_if_ok(instrs.value, read_mark(instrs.rest, b'}'));
    let (entity, (instrs, close)) = pair_if_ok(entity, close)?;
    Ok(Parsed {
        value: What::Link {
            kind: kind.value,
            entity,
            instrs,
        },
        rest: close.rest,
    })
}
