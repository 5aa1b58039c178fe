// Items that declare or bind: ports, registers, aliases, parameters, attributes, multiplexers, instances.
ghost use Rattle.std.specs.Prelude.{◌≡◌, ◌<◌, ◌≤◌, IfOk, length};
ghost use Rattle.std.specs.Option.{option_map};
ghost use Rattle.ij_bits.specs.Room.{seen_list};
ghost use Rattle.icl_lexer.specs.Values.{SeenRow, SeenBind};
ghost use Rattle.icl_lexer.specs.Views.{seen_range, seen_row, seen_bind, seen_what};
ghost use Rattle.icl_lexer.specs.Modules.{owner_of};
ghost use Rattle.icl_expressions.specs.Seen.{seen_read, Gives};
ghost use Rattle.icl_parser.specs.SeenParts.{seen_bind_begin};
ghost use Rattle.icl_parser.specs.Reading.{read_port_range, read_port, read_register, read_alias};
ghost use Rattle.icl_parser.specs.Reading.{read_parameter, read_attribute, read_row, read_rows, read_mux};
ghost use Rattle.icl_parser.specs.Reading.{read_bound_port, read_bound_parameter, read_bound_attribute};
ghost use Rattle.icl_parser.specs.Reading.{read_bind_after, read_bind_begin, read_bind, read_binds};
ghost use Rattle.icl_parser.specs.Reading.{read_child};

use crate::bodies::{read_attribute_said, read_body};
use crate::entries::{Entry, read_braced, read_more_entries};
use crate::words::bind_word;
use icl_expressions::{
    Parsed, ReadStop, begins_mark, maybe_expr_after, maybe_range, push_parsed, read_expr_after,
    read_mark, read_name, read_parted, read_sig, read_sigs, read_word,
};
use icl_lexer::{Bind, BindKeyword, BodyKind, Cursor, MuxRow, PortKind, Range, What};
use ij_bits::{List, pair_if_ok};
use ij_text::Place;
use std::alloc::Global;

// ---- ports, registers, aliases, parameters and attributes

/// What has the body of a port.
fn owner_of(kind: PortKind) -> BodyKind
    ensures { result ≡ owner_of kind }
{
    match kind {
        PortKind::ScanInPort => BodyKind::ScanIn,
        PortKind::ScanOutPort => BodyKind::ScanOut,
        PortKind::DataInPort => BodyKind::DataIn,
        PortKind::DataOutPort => BodyKind::DataOut,
        _ => BodyKind::Control,
    }
}

/// The range of a port, which a scan port hasn't.
fn read_port_range<'a>(
    alloc: Global,
    owner: BodyKind,
    tokens: Cursor<'a>,
) -> Result<Parsed<'a, Option<Range>>, ReadStop>
    ensures shorter { IfOk result (λ r. length r.rest ≤ length tokens.entry) }
    ensures gives { Gives (seen_read (option_map seen_range)) result (read_port_range owner tokens.entry) }
{
    match owner {
        BodyKind::ScanIn | BodyKind::ScanOut => Ok(Parsed {
            value: None,
            rest: tokens,
        }),
        _ => maybe_range(alloc, tokens),
    }
}

/// A port after its name.
#[tactic(auto, unfolding(crate::specs::Reading::read_port))]
pub(crate) fn read_port<'a>(
    alloc: Global,
    kind: PortKind,
    tokens: Cursor<'a>,
) -> Result<Parsed<'a, What>, ReadStop>
    ensures shorter { IfOk result (λ r. length r.rest < length tokens.entry) }
    ensures gives { Gives (seen_read seen_what) result (read_port kind tokens.entry) }
{
    let owner = owner_of(kind);
    let range = read_port_range(alloc, owner, tokens)?;
    let (range, props) = pair_if_ok(range.value, read_body(alloc, owner, range.rest))?;
    Ok(Parsed {
        value: What::Port {
            kind,
            range,
            props: props.value,
        },
        rest: props.rest,
    })
}

/// A scan register after its name.
#[tactic(auto, unfolding(crate::specs::Reading::read_register))]
pub(crate) fn read_register<'a>(
    alloc: Global,
    tokens: Cursor<'a>,
) -> Result<Parsed<'a, What>, ReadStop>
    ensures shorter { IfOk result (λ r. length r.rest < length tokens.entry) }
    ensures gives { Gives (seen_read seen_what) result (read_register tokens.entry) }
{
    let range = maybe_range(alloc, tokens)?;
    let (range, props) = pair_if_ok(
        range.value,
        read_body(alloc, BodyKind::Register, range.rest),
    )?;
    Ok(Parsed {
        value: What::Register {
            range,
            props: props.value,
        },
        rest: props.rest,
    })
}

/// An alias after its name.
#[tactic(auto, unfolding(crate::specs::Reading::read_alias))]
pub(crate) fn read_alias<'a>(
    alloc: Global,
    tokens: Cursor<'a>,
) -> Result<Parsed<'a, What>, ReadStop>
    ensures shorter { IfOk result (λ r. length r.rest < length tokens.entry) }
    ensures gives { Gives (seen_read seen_what) result (read_alias tokens.entry) }
{
    let range = maybe_range(alloc, tokens)?;
    let (range, equals) = pair_if_ok(range.value, read_mark(range.rest, b'='))?;
    let (range, sigs) = pair_if_ok(range, read_sigs(alloc, equals.rest))?;
    let props = pair_if_ok(sigs.value, read_body(alloc, BodyKind::Alias, sigs.rest));
    let (range, (sigs, props)) = pair_if_ok(range, props)?;
    Ok(Parsed {
        value: What::Alias {
            range,
            sigs,
            props: props.value,
        },
        rest: props.rest,
    })
}

/// A parameter after its name.
#[tactic(auto, unfolding(crate::specs::Reading::read_parameter))]
pub(crate) fn read_parameter<'a>(
    alloc: Global,
    local: bool,
    tokens: Cursor<'a>,
) -> Result<Parsed<'a, What>, ReadStop>
    ensures shorter { IfOk result (λ r. length r.rest < length tokens.entry) }
    ensures gives { Gives (seen_read seen_what) result (read_parameter local tokens.entry) }
{
    let value = read_expr_after(alloc, tokens, b'=')?;
    let (value, end) = pair_if_ok(value.value, read_mark(value.rest, b';'))?;
    Ok(Parsed {
        value: What::Parameter { local, value },
        rest: end.rest,
    })
}

/// An attribute of a module after its name.
#[tactic(auto, unfolding(crate::specs::Reading::read_attribute))]
pub(crate) fn read_attribute<'a>(
    alloc: Global,
    tokens: Cursor<'a>,
) -> Result<Parsed<'a, What>, ReadStop>
    ensures shorter { IfOk result (λ r. length r.rest < length tokens.entry) }
    ensures gives { Gives (seen_read seen_what) result (read_attribute tokens.entry) }
{
    let value = maybe_expr_after(alloc, tokens, b'=')?;
    let (value, end) = pair_if_ok(value.value, read_mark(value.rest, b';'))?;
    Ok(Parsed {
        value: What::Attribute { value },
        rest: end.rest,
    })
}

// ---- multiplexers

/// A row of a multiplexer.
#[tactic(auto, using(icl_expressions::proofs::SignalLaws::value_shrinks), unfolding(crate::specs::Reading::read_values, crate::specs::Reading::read_row))]
impl Entry for MuxRow {
    ghost Plain = { SeenRow };

    ghost view = { seen_row };

    ghost reader = { read_row };

    fn read<'a>(alloc: Global, tokens: Cursor<'a>) -> Result<Parsed<'a, MuxRow>, ReadStop> {
        let values = read_parted(alloc, tokens, b'|')?;
        let (values, colon) = pair_if_ok(values.value, read_mark(values.rest, b':'))?;
        let (values, source) = pair_if_ok(values, read_sig(alloc, colon.rest))?;
        let row = MuxRow {
            values,
            source: source.value,
        };
        let (row, end) = pair_if_ok(row, read_mark(source.rest, b';'))?;
        Ok(Parsed {
            value: row,
            rest: end.rest,
        })
    }
}

/// One row or more, up to a `}` or the end of the tokens.
#[tactic(auto, using(crate::proofs::ItemLaws::row_shrinks), unfolding(crate::specs::Reading::read_rows))]
fn read_rows<'a>(alloc: Global, tokens: Cursor<'a>) -> Result<Parsed<'a, List<MuxRow>>, ReadStop>
    ensures shorter { IfOk result (λ r. length r.rest < length tokens.entry) }
    ensures gives { Gives (seen_read (seen_list seen_row)) result (read_rows tokens.entry) }
{
    let first = MuxRow::read(alloc, tokens)?;
    let rows = push_parsed(List::new(alloc), first)?;
    read_more_entries(alloc, rows)
}

/// A multiplexer after its name.
#[tactic(auto, unfolding(crate::specs::Reading::read_mux))]
pub(crate) fn read_mux<'a>(alloc: Global, tokens: Cursor<'a>) -> Result<Parsed<'a, What>, ReadStop>
    ensures shorter { IfOk result (λ r. length r.rest < length tokens.entry) }
    ensures gives { Gives (seen_read seen_what) result (read_mux tokens.entry) }
{
    let by = read_word(tokens, b"SelectedBy")?;
    let select = read_sigs(alloc, by.rest)?;
    let (select, open) = pair_if_ok(select.value, read_mark(select.rest, b'{'))?;
    let (select, rows) = pair_if_ok(select, read_rows(alloc, open.rest))?;
    let close = pair_if_ok(rows.value, read_mark(rows.rest, b'}'));
    let (select, (rows, close)) = pair_if_ok(select, close)?;
    Ok(Parsed {
        value: What::Mux { select, rows },
        rest: close.rest,
    })
}

// ---- instances

/// A binding of a port after its word.
#[tactic(auto, unfolding(crate::specs::Reading::read_bound_port))]
fn read_bound_port<'a>(
    alloc: Global,
    at: Place,
    tokens: Cursor<'a>,
) -> Result<Parsed<'a, Bind>, ReadStop>
    ensures shorter { IfOk result (λ r. length r.rest < length tokens.entry) }
    ensures gives { Gives (seen_read seen_bind) result (read_bound_port at tokens.entry) }
{
    let name = read_name(alloc, tokens)?;
    let (name, range) = pair_if_ok(name.value, maybe_range(alloc, name.rest))?;
    let equals = pair_if_ok(range.value, read_mark(range.rest, b'='));
    let (name, (range, equals)) = pair_if_ok(name, equals)?;
    let sigs = pair_if_ok(range, read_sigs(alloc, equals.rest));
    let (name, (range, sigs)) = pair_if_ok(name, sigs)?;
    Ok(Parsed {
        value: Bind::Port {
            at,
            name,
            range,
            sigs: sigs.value,
        },
        rest: sigs.rest,
    })
}

/// A binding of a parameter after its word.
#[tactic(auto, unfolding(crate::specs::Reading::read_bound_parameter))]
fn read_bound_parameter<'a>(
    alloc: Global,
    at: Place,
    tokens: Cursor<'a>,
) -> Result<Parsed<'a, Bind>, ReadStop>
    ensures shorter { IfOk result (λ r. length r.rest < length tokens.entry) }
    ensures gives { Gives (seen_read seen_bind) result (read_bound_parameter at tokens.entry) }
{
    let name = read_name(alloc, tokens)?;
    let (name, value) = pair_if_ok(name.value, read_expr_after(alloc, name.rest, b'='))?;
    Ok(Parsed {
        value: Bind::Parameter {
            at,
            name,
            value: value.value,
        },
        rest: value.rest,
    })
}

/// An attribute of an instance after its word.
#[tactic(auto, unfolding(crate::specs::Reading::read_bound_attribute))]
fn read_bound_attribute<'a>(alloc: Global, tokens: Cursor<'a>) -> Result<Parsed<'a, Bind>, ReadStop>
    ensures shorter { IfOk result (λ r. length r.rest < length tokens.entry) }
    ensures gives { Gives (seen_read seen_bind) result (read_bound_attribute tokens.entry) }
{
    let said = read_attribute_said(alloc, tokens)?;
    Ok(Parsed {
        value: Bind::Attribute {
            name: said.value.name,
            value: said.value.value,
        },
        rest: said.rest,
    })
}

/// What comes after the word of a binding.
fn read_bind_after<'a>(
    alloc: Global,
    at: Place,
    word: BindKeyword,
    tokens: Cursor<'a>,
) -> Result<Parsed<'a, Bind>, ReadStop>
    ensures shorter { IfOk result (λ r. length r.rest < length tokens.entry) }
    ensures gives { Gives (seen_read seen_bind) result (read_bind_after at word tokens.entry) }
{
    match word {
        BindKeyword::BindsPort => read_bound_port(alloc, at, tokens),
        BindKeyword::BindsParameter => read_bound_parameter(alloc, at, tokens),
        BindKeyword::BindsAttribute => read_bound_attribute(alloc, tokens),
    }
}

/// The word of a binding at its place.
#[derive(Clone, Copy, Debug, Drop)]
pub(crate) struct BindBegin {
    pub at: Place,
    pub word: BindKeyword,
}

fn read_bind_begin<'a>(tokens: Cursor<'a>) -> Result<Parsed<'a, BindBegin>, ReadStop>
    ensures shorter { IfOk result (λ r. length r.rest < length tokens.entry) }
    ensures gives { Gives (seen_read seen_bind_begin) result (read_bind_begin tokens.entry) }
{
    let left = tokens.len();
    match tokens.next() {
        Some((t, rest)) => match bind_word(&t) {
            Some(word) => Ok(Parsed {
                value: BindBegin { at: t.at, word },
                rest,
            }),
            None => Err(ReadStop::At(left, None)),
        },
        None => Err(ReadStop::At(0, None)),
    }
}

/// A binding up to its `;`.
#[tactic(auto, unfolding(crate::specs::Reading::read_bind))]
impl Entry for Bind {
    ghost Plain = { SeenBind };

    ghost view = { seen_bind };

    ghost reader = { read_bind };

    fn read<'a>(alloc: Global, tokens: Cursor<'a>) -> Result<Parsed<'a, Bind>, ReadStop> {
        let begin = read_bind_begin(tokens)?;
        let bind = read_bind_after(alloc, begin.value.at, begin.value.word, begin.rest)?;
        let (bind, end) = pair_if_ok(bind.value, read_mark(bind.rest, b';'))?;
        Ok(Parsed {
            value: bind,
            rest: end.rest,
        })
    }
}

/// A `;`, or bindings in braces.
#[tactic(auto, using(crate::proofs::ItemLaws::bind_shrinks), unfolding(crate::specs::Reading::read_binds, crate::specs::Reading::read_braced_binds, crate::specs::Reading::read_many_binds))]
fn read_binds<'a>(alloc: Global, tokens: Cursor<'a>) -> Result<Parsed<'a, List<Bind>>, ReadStop>
    ensures shorter { IfOk result (λ r. length r.rest < length tokens.entry) }
    ensures gives { Gives (seen_read (seen_list seen_bind)) result (read_binds tokens.entry) }
{
    if !begins_mark(&tokens, b';') {
        return read_braced(alloc, tokens);
    }
    let end = read_mark(tokens, b';')?;
    Ok(Parsed {
        value: List::new(alloc),
        rest: end.rest,
    })
}

/// An instance after its name.
#[tactic(auto, unfolding(crate::specs::Reading::read_child))]
pub(crate) fn read_child<'a>(
    alloc: Global,
    tokens: Cursor<'a>,
) -> Result<Parsed<'a, What>, ReadStop>
    ensures shorter { IfOk result (λ r. length r.rest < length tokens.entry) }
    ensures gives { Gives (seen_read seen_what) result (read_child tokens.entry) }
{
    let of = read_word(tokens, b"Of")?;
    let module = read_name(alloc, of.rest)?;
    let (module, binds) = pair_if_ok(module.value, read_binds(alloc, module.rest))?;
    Ok(Parsed {
        value: What::Child {
            module,
            binds: binds.value,
        },
        rest: binds.rest,
    })
}
