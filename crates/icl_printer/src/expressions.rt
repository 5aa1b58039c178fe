// Expressions.
ghost use Rattle.std.specs.Prelude.{◌≡◌, nat_lt, OnOk, OnErr};
ghost use Rattle.ij_io.specs.Bytes.{Adds, AddsPart};
ghost use Rattle.ij_io.specs.Causes.{HasCause};
ghost use Rattle.icl_printer.specs.Layout.{layout};
ghost use Rattle.icl_printer.specs.Canonical.{sign_mark, binding_of, binding, formula_tokens};
ghost use Rattle.icl_lexer.specs.Views.{seen_expr};

use crate::put::{Put, put_if_there_after, put_mark_if, put_separated};
use crate::token::{Piece, put_tokens};
use icl_lexer::{Expr, OneOrMore, Range, Sign};
use ij_io::{Sink, StoreFault};

/// The mark of an operator.
fn mark_of(sign: Sign) -> u8
    ensures { result ≡ sign_mark sign }
{
    match sign {
        Sign::Plus => b'+',
        Sign::Minus => b'-',
        Sign::Times => b'*',
        Sign::Over => b'/',
        Sign::Rest => b'%',
    }
}

/// How tightly an operator binds, from 1.
fn precedence(sign: Sign) -> u8
    ensures { result ≡ binding_of sign }
{
    match sign {
        Sign::Plus | Sign::Minus => 1,
        Sign::Times | Sign::Over | Sign::Rest => 2,
    }
}

/// How tightly an expression holds together as an operand. A sized number, which is alone in its
/// expression, is the loosest.
fn tightness(expr: &Expr) -> u8
    ensures { result ≡ binding (seen_expr expr.now) }
{
    match expr {
        Expr::Sized(_) => 0,
        Expr::Op(_, sign, _, _) => precedence(*sign),
        Expr::Decimal(_) | Expr::Quoted(_) | Expr::Param(_, _) => 3,
    }
}

/// Whether an operand is in parentheses, where it has to bind at least so tightly.
fn needs_parentheses(operand: &Expr, least: u8) -> bool
    ensures { result ≡ nat_lt (binding (seen_expr operand.now)) least }
{
    tightness(operand) < least
}

/// Writes an expression, with parentheses round each operand that the tree couldn't otherwise have.
fn put_expr<K: Sink>(expr: &Expr, k: &mut K) -> Result<(), StoreFault>
    ensures whole { OnOk result
        (Adds (K.taken k.old) (K.taken k.new) (layout (formula_tokens (seen_expr expr.now)))) }
    ensures part { OnErr result
        (AddsPart (K.taken k.old) (K.taken k.new) (layout (formula_tokens (seen_expr expr.now)))) }
    ensures cause { HasCause (K.faults k.old) (K.faults k.new) result StoreFault.Failed }
{
    match expr {
        Expr::Decimal(n) => put_tokens(&[Piece::Decimal(*n)], k)?,
        Expr::Sized(text) => put_tokens(&[Piece::Sized(text)], k)?,
        Expr::Quoted(text) => put_tokens(&[Piece::Quoted(text)], k)?,
        Expr::Param(_, name) => put_tokens(&[Piece::Param(name)], k)?,
        Expr::Op(_, sign, left, right) => {
            let around_left = needs_parentheses(left, precedence(*sign));
            let around_right = needs_parentheses(right, precedence(*sign) + 1);
            put_mark_if(around_left, b'(', k)?;
            put_expr(left, k)?;
            put_mark_if(around_left, b')', k)?;
            put_tokens(&[Piece::Mark(mark_of(*sign))], k)?;
            put_mark_if(around_right, b'(', k)?;
            put_expr(right, k)?;
            put_mark_if(around_right, b')', k)?;
        }
    }
    Ok(())
}

/// An expression.
impl Put for Expr {
    ghost use Rattle.icl_lexer.specs.Values.{SeenExpr};
    ghost use Rattle.icl_lexer.specs.Views.{seen_expr};
    ghost use Rattle.icl_printer.specs.Canonical.{formula_tokens};

    ghost Plain = { SeenExpr };

    ghost view = { seen_expr };

    ghost tokens = { formula_tokens };

    fn put<K: Sink>(&self, k: &mut K) -> Result<(), StoreFault> {
        put_expr(self, k)?;
        Ok(())
    }
}

/// The numbers of a concatenation.
impl Put for OneOrMore<Expr> {
    ghost use Rattle.std.specs.Prelude.{List};
    ghost use Rattle.icl_lexer.specs.Values.{SeenExpr};
    ghost use Rattle.icl_lexer.specs.Views.{seen_expr, seen_few};
    ghost use Rattle.icl_printer.specs.Canonical.{value_tokens};

    ghost Plain = { List SeenExpr };

    ghost view = { seen_few seen_expr };

    ghost tokens = { value_tokens };

    fn put<K: Sink>(&self, k: &mut K) -> Result<(), StoreFault> {
        put_separated(b',', self.as_slice(), k)?;
        Ok(())
    }
}

/// A range.
impl Put for Range {
    ghost use Rattle.icl_lexer.specs.Values.{SeenRange};
    ghost use Rattle.icl_lexer.specs.Views.{seen_range};
    ghost use Rattle.icl_printer.specs.Canonical.{range_tokens};

    ghost Plain = { SeenRange };

    ghost view = { seen_range };

    ghost tokens = { range_tokens };

    fn put<K: Sink>(&self, k: &mut K) -> Result<(), StoreFault> {
        let ends = &*self.ends;
        put_tokens(&[Piece::Mark(b'[')], k)?;
        ends.left.put(k)?;
        put_if_there_after(b':', &ends.right, k)?;
        put_tokens(&[Piece::Mark(b']')], k)?;
        Ok(())
    }
}
