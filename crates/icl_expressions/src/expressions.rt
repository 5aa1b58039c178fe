// Expressions.
ghost use Rattle.std.specs.Prelude.{◌≡◌, ◌≤◌, ◌<◌, ◌+◌, true, false, IfOk, length};
ghost use Rattle.ij_text.specs.Reading.{read_barred};
ghost use Rattle.icl_lexer.specs.Values.{SeenExpr};
ghost use Rattle.icl_lexer.specs.Grammar.{too_deep, sum_sign, product_sign, with_operand};
ghost use Rattle.icl_lexer.specs.Views.{seen_expr};
ghost use Rattle.icl_expressions.specs.Seen.{seen_read, seen_counting, seen_sign, Gives};
ghost use Rattle.icl_expressions.specs.Reading.{read_put, read_operand, read_factor, read_term, read_sum};
ghost use Rattle.icl_expressions.specs.Reading.{read_parentheses, read_expr, joined};

use crate::leaves::read_leaf;
use crate::parts::Parted;
use crate::reading::{Parsed, begins_mark, read_mark};
use crate::signs::{
    SignAt, begins_product_sign, begins_sum_sign, read_product_sign, read_sum_sign,
};
use crate::stop::ReadStop;
use icl_lexer::{Cursor, Expr, Limit};
use ij_bits::pair_if_ok;
use std::alloc::Global;

/// An expression; how many operators its outermost expression has up to here; and whether it is a sized
/// number, after which no operator may stand.
#[derive(Drop)]
pub(crate) struct Counting {
    pub expr: Expr,
    pub used: u32,
    pub lone: bool,
}

/// No further level of parentheses.
fn too_deep<'a>(tokens: Cursor<'a>) -> Result<Parsed<'a, Counting>, ReadStop>
    ensures bounded { IfOk result (λ r. r.value.used ≤ 256) }
    ensures shorter { IfOk result (λ r. length r.rest < length tokens.entry) }
    ensures gives { Gives (seen_read seen_counting) result (read_barred too_deep tokens.entry) }
{
    let left = tokens.len();
    match tokens.first() {
        Some(t) if t.is_mark(b'(') => Err(ReadStop::At(left, Some(Limit::OfExpression))),
        _ => Err(ReadStop::At(left, None)),
    }
}

/// A token, or an expression in at most `depth` levels of parentheses.
#[cycle(expressions)]
#[tactic(auto, using(crate::proofs::Factors::factor_steps))]
fn factor<'a>(
    alloc: Global,
    tokens: Cursor<'a>,
    depth: u32,
    alone: bool,
    used: u32,
) -> Result<Parsed<'a, Counting>, ReadStop>
    requires { used ≤ 256 }
    ensures bounded { IfOk result (λ r. r.value.used ≤ 256) }
    ensures shorter { IfOk result (λ r. length r.rest < length tokens.entry) }
    ensures gives { Gives (seen_read seen_counting) result (read_factor depth alone used tokens.entry) }
{
    if !begins_mark(&tokens, b'(') {
        read_leaf(alloc, tokens, alone, used)
    } else if depth == 0 {
        too_deep(tokens)
    } else {
        in_parentheses(alloc, tokens, depth - 1, used)
    }
}

#[cycle(expressions)]
#[tactic(auto, unfolding(crate::specs::Reading::read_parentheses))]
fn in_parentheses<'a>(
    alloc: Global,
    tokens: Cursor<'a>,
    depth: u32,
    used: u32,
) -> Result<Parsed<'a, Counting>, ReadStop>
    requires { used ≤ 256 }
    ensures bounded { IfOk result (λ r. r.value.used ≤ 256) }
    ensures shorter { IfOk result (λ r. length r.rest < length tokens.entry) }
    ensures gives { Gives (seen_read seen_counting) result
        (read_parentheses (read_sum depth) used tokens.entry) }
{
    let open = read_mark(tokens, b'(')?;
    let inner = sum(alloc, open.rest, depth, used)?;
    let (inner, close) = pair_if_ok(inner.value, read_mark(inner.rest, b')'))?;
    Ok(Parsed {
        value: Counting {
            expr: inner.expr,
            used: inner.used,
            lone: false,
        },
        rest: close.rest,
    })
}

/// Factors with `*`, `/` and `%` between them.
#[cycle(expressions)]
fn product<'a>(
    alloc: Global,
    tokens: Cursor<'a>,
    depth: u32,
    alone: bool,
    used: u32,
) -> Result<Parsed<'a, Counting>, ReadStop>
    requires { used ≤ 256 }
    ensures bounded { IfOk result (λ r. r.value.used ≤ 256) }
    ensures shorter { IfOk result (λ r. length r.rest < length tokens.entry) }
    ensures gives { Gives (seen_read seen_counting) result (read_term depth alone used tokens.entry) }
{
    let mut left = factor(alloc, tokens, depth, alone, used)?;
    while begins_product_sign(&left.rest) {
        left = with_factor(alloc, left, depth)?;
    }
    Ok(left)
}

/// What is on the left, with the next operator and factor.
#[cycle(expressions)]
#[tactic(auto, unfolding(crate::specs::Reading::read_operand))]
fn with_factor<'a>(
    alloc: Global,
    left: Parsed<'a, Counting>,
    depth: u32,
) -> Result<Parsed<'a, Counting>, ReadStop>
    requires { left.value.used ≤ 256 }
    ensures bounded { IfOk result (λ r. r.value.used ≤ 256) }
    ensures shorter { IfOk result (λ r. length r.rest < length left.entry.rest) }
    ensures gives { Gives (seen_read seen_counting) result
        (read_put (read_operand (read_factor depth false) product_sign (seen_counting left.entry.value))
        with_operand (seen_counting left.entry.value) left.entry.rest) }
{
    let sign = read_product_sign(left.rest, left.value.used, left.value.lone);
    let (left, sign) = pair_if_ok(left.value, sign)?;
    let right = factor(alloc, sign.rest, depth, false, left.used + 1);
    let (left, right) = pair_if_ok(left, right)?;
    joined(alloc, left, sign.value, right)
}

/// Products with `+` and `-` between them.
#[cycle(expressions)]
fn sum<'a>(
    alloc: Global,
    tokens: Cursor<'a>,
    depth: u32,
    used: u32,
) -> Result<Parsed<'a, Counting>, ReadStop>
    requires { used ≤ 256 }
    ensures bounded { IfOk result (λ r. r.value.used ≤ 256) }
    ensures shorter { IfOk result (λ r. length r.rest < length tokens.entry) }
    ensures gives { Gives (seen_read seen_counting) result (read_sum depth used tokens.entry) }
{
    let mut left = product(alloc, tokens, depth, true, used)?;
    while begins_sum_sign(&left.rest) {
        left = with_product(alloc, left, depth)?;
    }
    Ok(left)
}

/// What is on the left, with the next operator and product.
#[cycle(expressions)]
#[tactic(auto, unfolding(crate::specs::Reading::read_operand))]
fn with_product<'a>(
    alloc: Global,
    left: Parsed<'a, Counting>,
    depth: u32,
) -> Result<Parsed<'a, Counting>, ReadStop>
    requires { left.value.used ≤ 256 }
    ensures bounded { IfOk result (λ r. r.value.used ≤ 256) }
    ensures shorter { IfOk result (λ r. length r.rest < length left.entry.rest) }
    ensures gives { Gives (seen_read seen_counting) result
        (read_put (read_operand (read_term depth false) sum_sign (seen_counting left.entry.value))
        with_operand (seen_counting left.entry.value) left.entry.rest) }
{
    let sign = read_sum_sign(left.rest, left.value.used, left.value.lone);
    let (left, sign) = pair_if_ok(left.value, sign)?;
    let right = product(alloc, sign.rest, depth, false, left.used + 1);
    let (left, right) = pair_if_ok(left, right)?;
    joined(alloc, left, sign.value, right)
}

/// An operator with its two operands.
fn joined<'a>(
    alloc: Global,
    left: Counting,
    sign: SignAt,
    right: Parsed<'a, Counting>,
) -> Result<Parsed<'a, Counting>, ReadStop>
    ensures counted { IfOk result (λ r. r.value.used ≡ right.entry.value.used) }
    ensures rest { IfOk result (λ r. length r.rest ≡ length right.entry.rest) }
    ensures gives { Gives (seen_read seen_counting) result
        (joined (seen_counting left) (seen_sign sign) (seen_counting right.entry.value) right.entry.rest) }
{
    let rest = right.rest;
    let right = right.value;
    let a = Box::new(alloc, left.expr)?;
    let b = Box::new(alloc, right.expr)?;
    Ok(Parsed {
        value: Counting {
            expr: Expr::Op(sign.at, sign.sign, a, b),
            used: right.used,
            lone: false,
        },
        rest,
    })
}

/// An expression: at most 64 levels of parentheses and 256 operators.
#[tactic(auto, unfolding(crate::specs::Reading::read_expr))]
impl Parted for Expr {
    ghost Plain = { SeenExpr };

    ghost view = { seen_expr };

    ghost reader = { read_expr };

    fn read<'a>(alloc: Global, tokens: Cursor<'a>) -> Result<Parsed<'a, Expr>, ReadStop> {
        let read = sum(alloc, tokens, 64, 0)?;
        Ok(Parsed {
            value: read.value.expr,
            rest: read.rest,
        })
    }
}
