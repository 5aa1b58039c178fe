// Operators, and the limits of an expression.
ghost use Rattle.std.specs.Prelude.{◌≡◌, ◌-◌, ◌<◌, length, IfOk, Option};
ghost use Rattle.std.specs.Option.{option_map};
ghost use Rattle.icl_lexer.specs.Lexemes.{tok};
ghost use Rattle.icl_lexer.specs.Grammar.{sum_sign, product_sign};
ghost use Rattle.icl_expressions.specs.Seen.{seen_read, seen_sign, Gives};
ghost use Rattle.icl_expressions.specs.Reading.{begins, is_sign, operator_of, read_operator};

use crate::reading::Parsed;
use crate::stop::ReadStop;
use icl_lexer::{Cursor, Lexeme, Limit, Sign};
use ij_text::Place;

/// An operator at its place.
#[derive(Clone, Copy, Debug, Drop)]
pub(crate) struct SignAt {
    pub sign: Sign,
    pub at: Place,
}

fn sum_sign(t: &Lexeme) -> Option<SignAt>
    ensures { option_map seen_sign result ≡ sum_sign (tok t.now) }
{
    let at = t.at;
    if t.is_mark(b'+') {
        Some(SignAt {
            sign: Sign::Plus,
            at,
        })
    } else if t.is_mark(b'-') {
        Some(SignAt {
            sign: Sign::Minus,
            at,
        })
    } else {
        None
    }
}

fn product_sign(t: &Lexeme) -> Option<SignAt>
    ensures { option_map seen_sign result ≡ product_sign (tok t.now) }
{
    let at = t.at;
    if t.is_mark(b'*') {
        Some(SignAt {
            sign: Sign::Times,
            at,
        })
    } else if t.is_mark(b'/') {
        Some(SignAt {
            sign: Sign::Over,
            at,
        })
    } else if t.is_mark(b'%') {
        Some(SignAt {
            sign: Sign::Rest,
            at,
        })
    } else {
        None
    }
}

/// Whether `+` or `-` is the next token.
pub(crate) fn begins_sum_sign(tokens: &Cursor) -> bool
    ensures { result ≡ begins (is_sign sum_sign) tokens.now }
{
    match tokens.first() {
        Some(t) => sum_sign(&t).is_some(),
        None => false,
    }
}

/// Whether `*`, `/` or `%` is the next token.
pub(crate) fn begins_product_sign(tokens: &Cursor) -> bool
    ensures { result ≡ begins (is_sign product_sign) tokens.now }
{
    match tokens.first() {
        Some(t) => product_sign(&t).is_some(),
        None => false,
    }
}

/// The operator that is the next token, if there is one. An expression has at most 256, and none after a
/// sized number.
#[tactic(auto, using(crate::proofs::Operators::operator_steps))]
fn operator<'a>(
    sign: Option<SignAt>,
    left: usize,
    rest: Cursor<'a>,
    used: u32,
    lone: bool,
) -> Result<Parsed<'a, SignAt>, ReadStop>
    ensures shorter { IfOk result (λ r. length r.rest ≡ length rest.entry) }
    ensures bounded { IfOk result (λ r. used < 256) }
    ensures gives { Gives (seen_read seen_sign) result
        (operator_of (256 - used) lone (option_map seen_sign sign) left rest.entry) }
{
    match sign {
        None => Err(ReadStop::At(left, None)),
        Some(_) if used >= 256 => Err(ReadStop::At(left, Some(Limit::OfExpression))),
        Some(_) if lone => Err(ReadStop::At(left, None)),
        Some(value) => Ok(Parsed { value, rest }),
    }
}

/// `+` or `-`.
#[tactic(auto, unfolding(crate::specs::Reading::read_operator))]
pub(crate) fn read_sum_sign<'a>(
    tokens: Cursor<'a>,
    used: u32,
    lone: bool,
) -> Result<Parsed<'a, SignAt>, ReadStop>
    ensures shorter { IfOk result (λ r. length r.rest < length tokens.entry) }
    ensures bounded { IfOk result (λ r. used < 256) }
    ensures gives { Gives (seen_read seen_sign) result
        (read_operator (256 - used) lone sum_sign tokens.entry) }
{
    let left = tokens.len();
    match tokens.next() {
        Some((t, rest)) => operator(sum_sign(&t), left, rest, used, lone),
        None => Err(ReadStop::At(0, None)),
    }
}

/// `*`, `/` or `%`.
#[tactic(auto, unfolding(crate::specs::Reading::read_operator))]
pub(crate) fn read_product_sign<'a>(
    tokens: Cursor<'a>,
    used: u32,
    lone: bool,
) -> Result<Parsed<'a, SignAt>, ReadStop>
    ensures shorter { IfOk result (λ r. length r.rest < length tokens.entry) }
    ensures bounded { IfOk result (λ r. used < 256) }
    ensures gives { Gives (seen_read seen_sign) result
        (read_operator (256 - used) lone product_sign tokens.entry) }
{
    let left = tokens.len();
    match tokens.next() {
        Some((t, rest)) => operator(product_sign(&t), left, rest, used, lone),
        None => Err(ReadStop::At(0, None)),
    }
}
