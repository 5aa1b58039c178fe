// The tokens that are expressions by themselves.
ghost use Rattle.std.specs.Prelude.{◌≡◌, ◌-◌, ◌<◌, ◌≤◌, ◌+◌, ◌*◌, ◌==◌, cond, length, slice_range, IfErr};
ghost use Rattle.std.specs.Prelude.{IfOk, Option, true, Some, None};
ghost use Rattle.std.specs.Option.{option_map};
ghost use Rattle.ij_text.specs.Options.{same};
ghost use Rattle.icl_lexer.specs.Lexemes.{tok};
ghost use Rattle.icl_lexer.specs.Tokens.{decimal_of, decimal_at};
ghost use Rattle.icl_lexer.specs.Values.{ASized};
ghost use Rattle.icl_lexer.specs.Grammar.{number_of, leaf_at, with_count};
ghost use Rattle.icl_lexer.specs.Views.{seen_expr};
ghost use Rattle.icl_expressions.specs.Seen.{seen_read, seen_counting, Gives, IsAtToken};
ghost use Rattle.icl_expressions.specs.Reading.{read_leaf, read_decimal};

use crate::expressions::Counting;
use crate::reading::Parsed;
use crate::stop::ReadStop;
use icl_lexer::{Cursor, Expr, Lexeme, SmallText, TokenKind};
use ij_bits::OutOfMemory;
use ij_text::after_first;
use std::alloc::Global;

/// The value of a decimal with one more byte.
fn with_digit(n: u64, b: u8) -> u64
    requires { n ≤ 4294967295 }
    ensures value { result ≡ cond (b == 95) n (10 * n + (b - 48)) }
    ensures bounded { result ≤ 42949673205 }
{
    if b == b'_' {
        n
    } else {
        10 * n + u64::from(b.saturating_sub(b'0'))
    }
}

/// The value of a decimal, of at most 4,294,967,295.
pub(crate) fn decimal(text: &[u8]) -> Option<u32>
    ensures { result ≡ decimal_of text.now }
{
    let mut n = 0;
    for b in text {
        n = with_digit(n, *b);
        if n > 4_294_967_295 {
            return None;
        }
    }
    Some(n as u32)
}

/// All bytes but the first one and the last one.
fn between_ends(text: &[u8]) -> &[u8]
    ensures { result.now ≡ slice_range text.now 1 (length text.now - 1) }
{
    match text {
        [_, inner @ .., _] => inner,
        _ => &text[..0],
    }
}

/// The number that a token is.
pub(crate) fn number_value(alloc: Global, t: &Lexeme) -> Result<Option<Expr>, OutOfMemory>
    ensures { IfOk result (λ o. option_map seen_expr o ≡ number_of t.now.kind t.now.at t.now.text.now) }
{
    match t.kind {
        TokenKind::Decimal => Ok(decimal(t.text).map(Expr::Decimal)),
        TokenKind::Sized => Ok(Some(Expr::Sized(SmallText::of(alloc, t.text)?))),
        TokenKind::Param => Ok(Some(Expr::Param(t.at, SmallText::of(alloc, after_first(t.text))?))),
        TokenKind::Word | TokenKind::Quoted | TokenKind::Mark => Ok(None),
    }
}

/// A sized number, where it may stand.
fn sized_value(
    alloc: Global,
    text: &[u8],
    alone: bool,
    used: u32,
) -> Result<Option<Counting>, OutOfMemory>
    ensures { IfOk result (λ o. option_map seen_counting o
        ≡ cond alone (Some (record { formula = ASized text.now; used = used; lone = true })) None) }
{
    if !alone {
        return Ok(None);
    }
    Ok(Some(Counting {
        expr: Expr::Sized(SmallText::of(alloc, text)?),
        used,
        lone: true,
    }))
}

/// An expression that no sized number is.
fn unsized_expr(expr: Expr, used: u32) -> Option<Counting>
    ensures { option_map seen_counting result ≡ with_count used (Some (seen_expr expr)) }
{
    Some(Counting {
        expr,
        used,
        lone: false,
    })
}

/// The expression that a token is: a sized number only where it is alone.
fn leaf_value(
    alloc: Global,
    t: &Lexeme,
    alone: bool,
    used: u32,
) -> Result<Option<Counting>, OutOfMemory>
    ensures { IfOk result (λ o. option_map seen_counting o ≡ leaf_at alone used (tok t.now)) }
{
    match t.kind {
        TokenKind::Decimal => match decimal(t.text) {
            Some(n) => Ok(unsized_expr(Expr::Decimal(n), used)),
            None => Ok(None),
        },
        TokenKind::Param => {
            let name = SmallText::of(alloc, after_first(t.text))?;
            Ok(unsized_expr(Expr::Param(t.at, name), used))
        }
        TokenKind::Quoted => {
            let text = SmallText::of(alloc, between_ends(t.text))?;
            Ok(unsized_expr(Expr::Quoted(text), used))
        }
        TokenKind::Sized => sized_value(alloc, t.text, alone, used),
        TokenKind::Word | TokenKind::Mark => Ok(None),
    }
}

/// An expression of one token.
pub(crate) fn read_leaf<'a>(
    alloc: Global,
    tokens: Cursor<'a>,
    alone: bool,
    used: u32,
) -> Result<Parsed<'a, Counting>, ReadStop>
    ensures counted { IfOk result (λ r. r.value.used ≡ used) }
    ensures shorter { IfOk result (λ r. length r.rest < length tokens.entry) }
    ensures gives { Gives (seen_read seen_counting) result (read_leaf alone used tokens.entry) }
{
    let left = tokens.len();
    match tokens.next() {
        Some((t, rest)) => match leaf_value(alloc, &t, alone, used)? {
            Some(value) => Ok(Parsed { value, rest }),
            None => Err(ReadStop::At(left, None)),
        },
        None => Err(ReadStop::At(0, None)),
    }
}

/// A decimal. Takes no memory, and says so.
pub fn read_decimal<'a>(tokens: Cursor<'a>) -> Result<Parsed<'a, u32>, ReadStop>
    ensures shorter { IfOk result (λ r. length r.rest < length tokens.entry) }
    ensures gives { Gives (seen_read same) result (read_decimal tokens.entry) }
    ensures sure { IfErr result IsAtToken }
{
    let left = tokens.len();
    match tokens.next() {
        Some((t, rest)) => match decimal_value(&t) {
            Some(value) => Ok(Parsed { value, rest }),
            None => Err(ReadStop::At(left, None)),
        },
        None => Err(ReadStop::At(0, None)),
    }
}

/// The value of a token that is a decimal.
fn decimal_value(t: &Lexeme) -> Option<u32>
    ensures { result ≡ decimal_at t.now.kind t.now.text.now }
{
    match t.kind {
        TokenKind::Decimal => decimal(t.text),
        _ => None,
    }
}
