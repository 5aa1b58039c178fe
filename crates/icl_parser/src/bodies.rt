// Properties and bodies.
ghost use Rattle.std.specs.Prelude.{◌≡◌, ◌<◌, ◌≤◌, Some, IfOk, length, map};
ghost use Rattle.std.specs.Option.{option_map};
ghost use Rattle.ij_text.specs.Options.{same};
ghost use Rattle.ij_bits.specs.Room.{seen_list};
ghost use Rattle.icl_lexer.specs.Lexemes.{tok};
ghost use Rattle.icl_lexer.specs.Views.{seen_prop, seen_sig};
ghost use Rattle.icl_lexer.specs.Grammar.{is_prop, stands, takes, lacks, with_property, free_prop_at};
ghost use Rattle.icl_expressions.specs.Seen.{seen_read, Gives};
ghost use Rattle.icl_parser.specs.SeenParts.{seen_said};
ghost use Rattle.icl_expressions.specs.Reading.{read_put};
ghost use Rattle.icl_parser.specs.Reading.{read_free_prop, read_attribute_said, read_one_sig, read_sources};
ghost use Rattle.icl_parser.specs.Reading.{read_prop_after, read_property, read_properties, read_body_end};
ghost use Rattle.icl_parser.specs.Reading.{read_braced_body, read_body};

use crate::words::prop_word;
use icl_expressions::{
    Parsed, ReadStop, begins_mark, is_next_not_close, maybe_expr_after, push_parsed, read_decimal,
    read_mark, read_name, read_sig, read_sigs, read_value,
};
use icl_lexer::{BodyKind, Cursor, Expr, Lexeme, Prop, PropKeyword, Sig, SmallText};
use ij_bits::{List, OutOfMemory, pair_if_ok};
use std::alloc::Global;

// ---- which properties may stand

/// Whether a property has this word.
fn is_prop(word: PropKeyword, prop: &Prop) -> bool
    ensures { result ≡ is_prop word (seen_prop prop.now) }
{
    match prop {
        Prop::Source(_) => word == PropKeyword::Source,
        Prop::LaunchEdge(_) => word == PropKeyword::LaunchEdge,
        Prop::DefaultLoadValue(_) => word == PropKeyword::DefaultLoadValue,
        Prop::RefEnum(_) => word == PropKeyword::RefEnum,
        Prop::ActivePolarity(_) => word == PropKeyword::ActivePolarity,
        Prop::ScanInSource(_) => word == PropKeyword::ScanInSource,
        Prop::CaptureSource(_) => word == PropKeyword::CaptureSource,
        Prop::ResetValue(_) => word == PropKeyword::ResetValue,
        Prop::AccessTogether => word == PropKeyword::AccessTogether,
    }
}

/// Whether a property with this word is among some others.
fn stands(word: PropKeyword, props: &[Prop]) -> bool
    ensures { result ≡ stands word (map seen_prop props.now) }
{
    for prop in props {
        if is_prop(word, prop) {
            return true;
        }
    }
    false
}

/// Whether a body takes a property.
fn takes(owner: BodyKind, word: PropKeyword) -> bool
    ensures { result ≡ takes owner word }
{
    match owner {
        BodyKind::ScanIn => matches!(word, PropKeyword::Attribute),
        BodyKind::ScanOut => matches!(
            word,
            PropKeyword::Source | PropKeyword::LaunchEdge | PropKeyword::Attribute
        ),
        BodyKind::DataIn => matches!(
            word,
            PropKeyword::DefaultLoadValue | PropKeyword::RefEnum | PropKeyword::Attribute
        ),
        BodyKind::DataOut => matches!(
            word,
            PropKeyword::Source | PropKeyword::RefEnum | PropKeyword::Attribute
        ),
        BodyKind::Control => matches!(
            word,
            PropKeyword::Source | PropKeyword::ActivePolarity | PropKeyword::Attribute
        ),
        BodyKind::Register => matches!(
            word,
            PropKeyword::ScanInSource
                | PropKeyword::CaptureSource
                | PropKeyword::ResetValue
                | PropKeyword::DefaultLoadValue
                | PropKeyword::RefEnum
                | PropKeyword::Attribute
        ),
        BodyKind::Alias => matches!(
            word,
            PropKeyword::RefEnum | PropKeyword::AccessTogether | PropKeyword::Attribute
        ),
    }
}

/// Whether the need of a body isn't met: a register has a `ScanInSource`.
fn lacks(owner: BodyKind, props: &[Prop]) -> bool
    ensures { result ≡ lacks owner (map seen_prop props.now) }
{
    match owner {
        BodyKind::Register => !stands(PropKeyword::ScanInSource, props),
        _ => false,
    }
}

/// The word of a property at a token, if such a property may stand there.
fn free_prop(owner: BodyKind, props: &[Prop], t: &Lexeme) -> Option<PropKeyword>
    ensures { result ≡ free_prop_at owner (map seen_prop props.now) (tok t.now) }
{
    match prop_word(t) {
        Some(word) if takes(owner, word) && !stands(word, props) => Some(word),
        _ => None,
    }
}

// ---- properties

/// An attribute after its word.
#[derive(Drop)]
pub(crate) struct Said {
    pub name: SmallText,
    pub value: Option<Expr>,
}

/// An attribute after its word.
#[tactic(auto, unfolding(crate::specs::Reading::read_attribute_said))]
pub(crate) fn read_attribute_said<'a>(
    alloc: Global,
    tokens: Cursor<'a>,
) -> Result<Parsed<'a, Said>, ReadStop>
    ensures shorter { IfOk result (λ r. length r.rest < length tokens.entry) }
    ensures gives { Gives (seen_read seen_said) result (read_attribute_said tokens.entry) }
{
    let name = read_name(alloc, tokens)?;
    let (name, value) = pair_if_ok(name.value, maybe_expr_after(alloc, name.rest, b'='))?;
    Ok(Parsed {
        value: Said {
            name,
            value: value.value,
        },
        rest: value.rest,
    })
}

/// A signal alone, as a list.
fn one_sig<'a>(alloc: Global, tokens: Cursor<'a>) -> Result<Parsed<'a, List<Sig>>, ReadStop>
    ensures shorter { IfOk result (λ r. length r.rest < length tokens.entry) }
    ensures gives { Gives (seen_read (seen_list seen_sig)) result (read_one_sig tokens.entry) }
{
    let sig = read_sig(alloc, tokens)?;
    Ok(push_parsed(List::new(alloc), sig)?)
}

/// The source of a port: one signal of a `ScanOutPort`.
fn read_sources<'a>(
    alloc: Global,
    owner: BodyKind,
    tokens: Cursor<'a>,
) -> Result<Parsed<'a, List<Sig>>, ReadStop>
    ensures shorter { IfOk result (λ r. length r.rest < length tokens.entry) }
    ensures gives { Gives (seen_read (seen_list seen_sig)) result (read_sources owner tokens.entry) }
{
    match owner {
        BodyKind::ScanOut => one_sig(alloc, tokens),
        _ => read_sigs(alloc, tokens),
    }
}

/// A property before the rest.
fn some<'a>(prop: Prop, rest: Cursor<'a>) -> Parsed<'a, Option<Prop>>
    ensures value { option_map seen_prop result.value ≡ Some (seen_prop prop) }
    ensures rest { result.rest ≡ rest.entry }
{
    Parsed {
        value: Some(prop),
        rest,
    }
}

/// What comes after the word of a property. An attribute isn't kept.
#[tactic(auto, unfolding(crate::specs::Reading::read_prop_after))]
fn read_prop_after<'a>(
    alloc: Global,
    owner: BodyKind,
    word: PropKeyword,
    tokens: Cursor<'a>,
) -> Result<Parsed<'a, Option<Prop>>, ReadStop>
    ensures shorter { IfOk result (λ r. length r.rest ≤ length tokens.entry) }
    ensures gives { Gives (seen_read (option_map seen_prop)) result
        (read_prop_after owner word tokens.entry) }
{
    match word {
        PropKeyword::Source => {
            let sigs = read_sources(alloc, owner, tokens)?;
            Ok(some(Prop::Source(sigs.value), sigs.rest))
        }
        PropKeyword::LaunchEdge => {
            let edge = read_name(alloc, tokens)?;
            Ok(some(Prop::LaunchEdge(edge.value), edge.rest))
        }
        PropKeyword::DefaultLoadValue => {
            let value = read_value(alloc, tokens)?;
            Ok(some(Prop::DefaultLoadValue(value.value), value.rest))
        }
        PropKeyword::RefEnum => {
            let name = read_name(alloc, tokens)?;
            Ok(some(Prop::RefEnum(name.value), name.rest))
        }
        PropKeyword::ActivePolarity => {
            let n = read_decimal(tokens)?;
            Ok(some(Prop::ActivePolarity(n.value), n.rest))
        }
        PropKeyword::ScanInSource => {
            let sig = read_sig(alloc, tokens)?;
            Ok(some(Prop::ScanInSource(sig.value), sig.rest))
        }
        PropKeyword::CaptureSource => {
            let sigs = read_sigs(alloc, tokens)?;
            Ok(some(Prop::CaptureSource(sigs.value), sigs.rest))
        }
        PropKeyword::ResetValue => {
            let value = read_value(alloc, tokens)?;
            Ok(some(Prop::ResetValue(value.value), value.rest))
        }
        PropKeyword::AccessTogether => Ok(some(Prop::AccessTogether, tokens)),
        PropKeyword::Attribute => {
            let said = read_attribute_said(alloc, tokens)?;
            Ok(Parsed {
                value: None,
                rest: said.rest,
            })
        }
    }
}

/// The word of a property that may stand there.
fn read_free_prop<'a>(
    owner: BodyKind,
    props: &[Prop],
    tokens: Cursor<'a>,
) -> Result<Parsed<'a, PropKeyword>, ReadStop>
    ensures shorter { IfOk result (λ r. length r.rest < length tokens.entry) }
    ensures gives { Gives (seen_read same) result
        (read_free_prop owner (map seen_prop props.now) tokens.entry) }
{
    let left = tokens.len();
    match tokens.next() {
        Some((t, rest)) => match free_prop(owner, props, &t) {
            Some(value) => Ok(Parsed { value, rest }),
            None => Err(ReadStop::At(left, None)),
        },
        None => Err(ReadStop::At(0, None)),
    }
}

/// A property up to its `;`.
#[tactic(auto, unfolding(crate::specs::Reading::read_property))]
fn read_property<'a>(
    alloc: Global,
    owner: BodyKind,
    props: &[Prop],
    tokens: Cursor<'a>,
) -> Result<Parsed<'a, Option<Prop>>, ReadStop>
    ensures shorter { IfOk result (λ r. length r.rest < length tokens.entry) }
    ensures gives { Gives (seen_read (option_map seen_prop)) result
        (read_property owner (map seen_prop props.now) tokens.entry) }
{
    let word = read_free_prop(owner, props, tokens)?;
    let prop = read_prop_after(alloc, owner, word.value, word.rest)?;
    let (prop, end) = pair_if_ok(prop.value, read_mark(prop.rest, b';'))?;
    Ok(Parsed {
        value: prop,
        rest: end.rest,
    })
}

// ---- bodies

/// Properties with the next one after them, if it is kept.
fn with<'a>(
    props: List<Prop>,
    next: Parsed<'a, Option<Prop>>,
) -> Result<Parsed<'a, List<Prop>>, OutOfMemory>
    ensures value { IfOk result (λ r. seen_list seen_prop r.value
        ≡ with_property (seen_list seen_prop props) (option_map seen_prop next.entry.value)) }
    ensures rest { IfOk result (λ r. r.rest ≡ next.entry.rest) }
{
    let rest = next.rest;
    match next.value {
        Some(value) => push_parsed(props, Parsed { value, rest }),
        None => Ok(Parsed { value: props, rest }),
    }
}

/// Properties with the next one.
fn with_property<'a>(
    alloc: Global,
    owner: BodyKind,
    props: Parsed<'a, List<Prop>>,
) -> Result<Parsed<'a, List<Prop>>, ReadStop>
    ensures shorter { IfOk result (λ r. length r.rest < length props.entry.rest) }
    ensures gives { Gives (seen_read (seen_list seen_prop)) result
        (read_put (read_property owner (seen_list seen_prop props.entry.value)) with_property
        (seen_list seen_prop props.entry.value) props.entry.rest) }
{
    let rest = props.rest;
    let props = props.value;
    let next = read_property(alloc, owner, props.as_slice(), rest);
    let (props, next) = pair_if_ok(props, next)?;
    Ok(with(props, next)?)
}

/// Properties up to a `}` or the end of the tokens.
#[tactic(auto, unfolding(crate::specs::Reading::read_properties))]
fn read_properties<'a>(
    alloc: Global,
    owner: BodyKind,
    tokens: Cursor<'a>,
) -> Result<Parsed<'a, List<Prop>>, ReadStop>
    ensures shorter { IfOk result (λ r. length r.rest ≤ length tokens.entry) }
    ensures gives { Gives (seen_read (seen_list seen_prop)) result (read_properties owner tokens.entry) }
{
    let mut props = Parsed {
        value: List::new(alloc),
        rest: tokens,
    };
    while is_next_not_close(&props.rest) {
        props = with_property(alloc, owner, props)?;
    }
    Ok(props)
}

/// The end of a body: a mark, if the body lacks nothing.
#[tactic(auto, unfolding(crate::specs::Reading::read_body_end))]
fn read_body_end<'a>(
    owner: BodyKind,
    props: List<Prop>,
    tokens: Cursor<'a>,
    mark: u8,
) -> Result<Parsed<'a, List<Prop>>, ReadStop>
    ensures shorter { IfOk result (λ r. length r.rest < length tokens.entry) }
    ensures gives { Gives (seen_read (seen_list seen_prop)) result
        (read_body_end owner (seen_list seen_prop props) mark tokens.entry) }
{
    if lacks(owner, props.as_slice()) {
        return Err(ReadStop::At(tokens.len(), None));
    }
    let end = read_mark(tokens, mark)?;
    Ok(Parsed {
        value: props,
        rest: end.rest,
    })
}

/// Properties in braces.
#[tactic(auto, unfolding(crate::specs::Reading::read_braced_body))]
fn read_braced<'a>(
    alloc: Global,
    owner: BodyKind,
    tokens: Cursor<'a>,
) -> Result<Parsed<'a, List<Prop>>, ReadStop>
    ensures shorter { IfOk result (λ r. length r.rest < length tokens.entry) }
    ensures gives { Gives (seen_read (seen_list seen_prop)) result (read_braced_body owner tokens.entry) }
{
    let open = read_mark(tokens, b'{')?;
    let props = read_properties(alloc, owner, open.rest)?;
    read_body_end(owner, props.value, props.rest, b'}')
}

/// A body: a `;`, or properties in braces.
#[tactic(auto, unfolding(crate::specs::Reading::read_body))]
pub(crate) fn read_body<'a>(
    alloc: Global,
    owner: BodyKind,
    tokens: Cursor<'a>,
) -> Result<Parsed<'a, List<Prop>>, ReadStop>
    ensures shorter { IfOk result (λ r. length r.rest < length tokens.entry) }
    ensures gives { Gives (seen_read (seen_list seen_prop)) result (read_body owner tokens.entry) }
{
    if begins_mark(&tokens, b';') {
        read_body_end(owner, List::new(alloc), tokens, b';')
    } else {
        read_braced(alloc, owner, tokens)
    }
}
