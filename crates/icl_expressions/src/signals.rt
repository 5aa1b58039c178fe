// Values, ranges and signals.
ghost use Rattle.std.specs.Prelude.{◌<◌, ◌≤◌, IfOk, length};
ghost use Rattle.std.specs.Option.{option_map};
ghost use Rattle.ij_bits.specs.Room.{seen_list};
ghost use Rattle.icl_lexer.specs.Views.{bytes_of, seen_expr, seen_few, seen_range, seen_sig};
ghost use Rattle.icl_expressions.specs.Seen.{seen_read, Gives};
ghost use Rattle.icl_expressions.specs.SeenParts.{seen_located};
ghost use Rattle.icl_expressions.specs.Reading.{read_value, read_expr_after, read_maybe, read_range};
ghost use Rattle.icl_expressions.specs.Reading.{read_number, read_path_after, read_named_after};
ghost use Rattle.icl_expressions.specs.Reading.{read_named_sig, read_plain_sig, read_inverted, read_sig};
ghost use Rattle.icl_expressions.specs.Reading.{read_sigs};

use crate::leaves::number_value;
use crate::parts::{Parted, read_following, read_parted};
use crate::reading::{Parsed, begins_mark, begins_name, read_mark};
use crate::stop::ReadStop;
use icl_lexer::{Cursor, Ends, Expr, Lexeme, OneOrMore, Range, Sig, SigWhat, SmallText};
use ij_bits::{List, pair_if_ok};
use ij_text::Place;
use std::alloc::Global;

// ---- values

/// Expressions with `,` between them.
#[tactic(auto, using(crate::proofs::SignalLaws::expr_shrinks), unfolding(crate::specs::Reading::read_value))]
pub fn read_value<'a>(
    alloc: Global,
    tokens: Cursor<'a>,
) -> Result<Parsed<'a, OneOrMore<Expr>>, ReadStop>
    ensures shorter { IfOk result (λ r. length r.rest < length tokens.entry) }
    ensures gives { Gives (seen_read (seen_few seen_expr)) result (read_value tokens.entry) }
{
    read_parted(alloc, tokens, b',')
}

// ---- ranges

/// An expression after a mark.
#[tactic(auto, unfolding(crate::specs::Reading::read_expr_after))]
pub fn read_expr_after<'a>(
    alloc: Global,
    tokens: Cursor<'a>,
    mark: u8,
) -> Result<Parsed<'a, Expr>, ReadStop>
    ensures shorter { IfOk result (λ r. length r.rest < length tokens.entry) }
    ensures gives { Gives (seen_read seen_expr) result (read_expr_after mark tokens.entry) }
{
    let mark = read_mark(tokens, mark)?;
    Expr::read(alloc, mark.rest)
}

/// The same, where the mark is the next token.
pub fn maybe_expr_after<'a>(
    alloc: Global,
    tokens: Cursor<'a>,
    mark: u8,
) -> Result<Parsed<'a, Option<Expr>>, ReadStop>
    ensures shorter { IfOk result (λ r. length r.rest ≤ length tokens.entry) }
    ensures gives { Gives (seen_read (option_map seen_expr)) result
        (read_maybe mark (read_expr_after mark) tokens.entry) }
{
    if !begins_mark(&tokens, mark) {
        return Ok(Parsed {
            value: None,
            rest: tokens,
        });
    }
    let expr = read_expr_after(alloc, tokens, mark)?;
    Ok(Parsed {
        value: Some(expr.value),
        rest: expr.rest,
    })
}

/// `[left]` or `[left:right]`.
#[tactic(auto, unfolding(crate::specs::Reading::read_range))]
fn read_range<'a>(alloc: Global, tokens: Cursor<'a>) -> Result<Parsed<'a, Range>, ReadStop>
    ensures shorter { IfOk result (λ r. length r.rest < length tokens.entry) }
    ensures gives { Gives (seen_read seen_range) result (read_range tokens.entry) }
{
    let open = read_mark(tokens, b'[')?;
    let left = Expr::read(alloc, open.rest)?;
    let (left, right) = pair_if_ok(left.value, maybe_expr_after(alloc, left.rest, b':'))?;
    let ends = Ends {
        left,
        right: right.value,
    };
    let (ends, close) = pair_if_ok(ends, read_mark(right.rest, b']'))?;
    Ok(Parsed {
        value: Range {
            at: open.value,
            ends: Box::new(alloc, ends)?,
        },
        rest: close.rest,
    })
}

/// A range, if a `[` is the next token.
pub fn maybe_range<'a>(
    alloc: Global,
    tokens: Cursor<'a>,
) -> Result<Parsed<'a, Option<Range>>, ReadStop>
    ensures shorter { IfOk result (λ r. length r.rest ≤ length tokens.entry) }
    ensures gives { Gives (seen_read (option_map seen_range)) result (read_maybe 91 read_range tokens.entry) }
{
    if !begins_mark(&tokens, b'[') {
        return Ok(Parsed {
            value: None,
            rest: tokens,
        });
    }
    let range = read_range(alloc, tokens)?;
    Ok(Parsed {
        value: Some(range.value),
        rest: range.rest,
    })
}

// ---- signals

/// What a signal is, and the place of its first token.
#[derive(Drop)]
pub(crate) struct Located {
    pub at: Place,
    pub what: SigWhat,
}

/// A number.
fn read_number<'a>(alloc: Global, tokens: Cursor<'a>) -> Result<Parsed<'a, Located>, ReadStop>
    ensures shorter { IfOk result (λ r. length r.rest < length tokens.entry) }
    ensures gives { Gives (seen_read seen_located) result (read_number tokens.entry) }
{
    let left = tokens.len();
    match tokens.next() {
        Some((t, rest)) => match number_value(alloc, &t)? {
            Some(expr) => Ok(Parsed {
                value: Located {
                    at: t.at,
                    what: SigWhat::Value(expr),
                },
                rest,
            }),
            None => Err(ReadStop::At(left, None)),
        },
        None => Err(ReadStop::At(0, None)),
    }
}

/// The names after a first one, with `.` before each.
#[tactic(auto, unfolding(crate::specs::Reading::read_path_after))]
fn read_path<'a>(
    alloc: Global,
    first: SmallText,
    tokens: Cursor<'a>,
) -> Result<Parsed<'a, OneOrMore<SmallText>>, ReadStop>
    ensures shorter { IfOk result (λ r. length r.rest ≤ length tokens.entry) }
    ensures gives { Gives (seen_read (seen_few bytes_of)) result (read_path_after first.items tokens.entry) }
{
    let first = Parsed {
        value: first,
        rest: tokens,
    };
    read_following(alloc, first, b'.')
}

/// Names with `.` between them, and maybe a range, after the first token.
#[tactic(auto, unfolding(crate::specs::Reading::read_named_after))]
fn read_name_and_range<'a>(
    alloc: Global,
    first: &Lexeme<'a>,
    tokens: Cursor<'a>,
) -> Result<Parsed<'a, Located>, ReadStop>
    ensures shorter { IfOk result (λ r. length r.rest ≤ length tokens.entry) }
    ensures gives { Gives (seen_read seen_located) result
        (read_named_after (record { at = first.now.at; name = first.now.text.now }) tokens.entry) }
{
    let path = read_path(alloc, SmallText::of(alloc, first.text)?, tokens)?;
    let range = maybe_range(alloc, path.rest)?;
    Ok(Parsed {
        value: Located {
            at: first.at,
            what: SigWhat::Named {
                path: path.value,
                range: range.value,
            },
        },
        rest: range.rest,
    })
}

/// Names with `.` between them, and maybe a range.
#[tactic(auto, unfolding(crate::specs::Reading::read_named_sig))]
fn read_named_sig<'a>(alloc: Global, tokens: Cursor<'a>) -> Result<Parsed<'a, Located>, ReadStop>
    ensures shorter { IfOk result (λ r. length r.rest < length tokens.entry) }
    ensures gives { Gives (seen_read seen_located) result (read_named_sig tokens.entry) }
{
    let left = tokens.len();
    match tokens.next() {
        Some((first, rest)) if first.is_name() => read_name_and_range(alloc, &first, rest),
        _ => Err(ReadStop::At(left, None)),
    }
}

/// A signal without `~`.
fn read_plain_sig<'a>(alloc: Global, tokens: Cursor<'a>) -> Result<Parsed<'a, Located>, ReadStop>
    ensures shorter { IfOk result (λ r. length r.rest < length tokens.entry) }
    ensures gives { Gives (seen_read seen_located) result (read_plain_sig tokens.entry) }
{
    if begins_name(&tokens) {
        read_named_sig(alloc, tokens)
    } else {
        read_number(alloc, tokens)
    }
}

/// A signal after a `~`.
#[tactic(auto, unfolding(crate::specs::Reading::read_inverted))]
fn read_inverted<'a>(alloc: Global, tokens: Cursor<'a>) -> Result<Parsed<'a, Sig>, ReadStop>
    ensures shorter { IfOk result (λ r. length r.rest < length tokens.entry) }
    ensures gives { Gives (seen_read seen_sig) result (read_inverted tokens.entry) }
{
    let tilde = read_mark(tokens, b'~')?;
    let sig = read_plain_sig(alloc, tilde.rest)?;
    Ok(Parsed {
        value: Sig {
            at: tilde.value,
            inverted: true,
            what: sig.value.what,
        },
        rest: sig.rest,
    })
}

/// A signal.
#[tactic(auto, unfolding(crate::specs::Reading::read_sig, crate::specs::Reading::read_straight))]
pub fn read_sig<'a>(alloc: Global, tokens: Cursor<'a>) -> Result<Parsed<'a, Sig>, ReadStop>
    ensures shorter { IfOk result (λ r. length r.rest < length tokens.entry) }
    ensures gives { Gives (seen_read seen_sig) result (read_sig tokens.entry) }
{
    if begins_mark(&tokens, b'~') {
        return read_inverted(alloc, tokens);
    }
    let sig = read_plain_sig(alloc, tokens)?;
    Ok(Parsed {
        value: Sig {
            at: sig.value.at,
            inverted: false,
            what: sig.value.what,
        },
        rest: sig.rest,
    })
}

/// Signals with `,` between them.
#[tactic(auto, using(crate::proofs::SignalLaws::sig_shrinks), unfolding(crate::specs::Reading::read_sigs))]
pub fn read_sigs<'a>(alloc: Global, tokens: Cursor<'a>) -> Result<Parsed<'a, List<Sig>>, ReadStop>
    ensures shorter { IfOk result (λ r. length r.rest < length tokens.entry) }
    ensures gives { Gives (seen_read (seen_list seen_sig)) result (read_sigs tokens.entry) }
{
    let sigs = read_parted(alloc, tokens, b',')?;
    Ok(Parsed {
        value: sigs.value.into_list(alloc)?,
        rest: sigs.rest,
    })
}
