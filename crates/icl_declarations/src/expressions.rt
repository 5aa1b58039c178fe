// Expressions.
ghost use Rattle.std.specs.Prelude.{◌≡◌};
ghost use Rattle.ij_text.specs.Options.{same};
ghost use Rattle.icl_lexer.specs.Views.{seen_expr};
ghost use Rattle.icl_declarations.specs.Faults.{Gives};
ghost use Rattle.icl_declarations.specs.Values.{seen_value};
ghost use Rattle.icl_declarations.specs.Tables.{seen_table};
ghost use Rattle.icl_declarations.specs.Expressions.{operate, fault_place, evaluate, integer};

use crate::fault::ElabFault;
use crate::integers::as_integer;
use crate::params::ParamTable;
use crate::sized::{parameter, sized_number};
use crate::value::Value;
use icl_lexer::{Expr, Sign};
use ij_text::{Place, name_of};
use std::alloc::Global;

/// What an operator gives.
#[tactic(auto, unfolding(crate::specs::Expressions::operate))]
fn operate(at: Place, sign: Sign, a: u32, b: u32) -> Result<u32, ElabFault>
    ensures { Gives same result (operate at sign a b) }
{
    match sign {
        Sign::Plus => a.checked_add(b).ok_or(ElabFault::BadNumber { at }),
        Sign::Minus => a.checked_sub(b).ok_or(ElabFault::BadNumber { at }),
        Sign::Times => a.checked_mul(b).ok_or(ElabFault::BadNumber { at }),
        Sign::Over => a.checked_div(b).ok_or(ElabFault::DivideByZero { at }),
        Sign::Rest => a.checked_rem(b).ok_or(ElabFault::DivideByZero { at }),
    }
}

/// Where a fault of an expression's own value is: at a parameter, and otherwise at what holds the
/// expression.
pub fn fault_place(e: &Expr, holder: Place) -> Place
    ensures { result ≡ fault_place holder (seen_expr e.now) }
{
    match e {
        Expr::Param(at, _) => *at,
        _ => holder,
    }
}

/// The value of an expression, which is in `holder`.
#[tactic(auto, unfolding(crate::specs::Expressions::evaluate))]
pub fn evaluate(
    alloc: Global,
    params: &ParamTable,
    e: &Expr,
    holder: Place,
) -> Result<Value, ElabFault>
    ensures { Gives seen_value result (evaluate (seen_table params.now) holder (seen_expr e.now)) }
{
    match e {
        Expr::Decimal(n) => Ok(Value::Integer(*n)),
        Expr::Sized(text) => sized_number(alloc, params, holder, text.as_slice()),
        Expr::Quoted(text) => {
            let text = name_of(alloc, text.as_slice())?;
            Ok(Value::Text(text))
        }
        Expr::Param(at, name) => {
            let value = parameter(alloc, params, *at, name.as_slice())?;
            let value = value.copy(alloc)?;
            Ok(value)
        }
        Expr::Op(at, sign, a, b) => {
            let left = evaluate(alloc, params, a, holder)?;
            let left = as_integer(&left, fault_place(a, holder))?;
            let right = evaluate(alloc, params, b, holder)?;
            let right = as_integer(&right, fault_place(b, holder))?;
            let n = operate(*at, *sign, left, right)?;
            Ok(Value::Integer(n))
        }
    }
}

/// An expression where an integer is wanted.
pub fn integer(
    alloc: Global,
    params: &ParamTable,
    e: &Expr,
    holder: Place,
) -> Result<u32, ElabFault>
    ensures { Gives same result (integer (seen_table params.now) holder (seen_expr e.now)) }
{
    let value = evaluate(alloc, params, e, holder)?;
    as_integer(&value, fault_place(e, holder))
}
