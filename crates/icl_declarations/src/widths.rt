// Values in a width.
ghost use Rattle.std.specs.Prelude.{◌≡◌, nat_lt, ◌+◌, ◌^◌, ◌<◌, ◌++◌, map, length, Some, None, IfOk, OnOk};
ghost use Rattle.ij_text.specs.Numbers.{tern_bits};
ghost use Rattle.icl_lexer.specs.Views.{seen_expr};
ghost use Rattle.icl_declarations.specs.Faults.{Gives, each};
ghost use Rattle.icl_declarations.specs.Values.{seen_value, number_bits};
ghost use Rattle.icl_declarations.specs.Tables.{seen_table};
ghost use Rattle.icl_declarations.specs.Expressions.{evaluate, fault_place};
ghost use Rattle.icl_declarations.specs.Widths.{fit_unsized, fit_sized, fit_number, sized_bits, one_part};
ghost use Rattle.icl_declarations.specs.Widths.{joined};
ghost use Rattle.icl_declarations.specs.Widths.{lone_value, parts_value, value_in};

use crate::digits::number_bits;
use crate::expressions::{evaluate, fault_place};
use crate::fault::ElabFault;
use crate::fitting::fitted;
use crate::params::ParamTable;
use crate::value::Value;
use icl_lexer::Expr;
use ij_bits::{OutOfMemory, Tern};
use ij_text::{OpenBits, Place, bit_at};
use std::alloc::Global;

/// A number without a size in a width: zeros are added or dropped on the left. `WidthDiffers` at the holder
/// where a 1 or an x would be dropped.
pub fn fit_unsized(alloc: Global, bits: Tern, width: u32, holder: Place) -> Result<Tern, ElabFault>
    ensures { Gives tern_bits result (fit_unsized holder width (tern_bits bits)) }
{
    match fitted(alloc, bits, width)? {
        Some(bits) => Ok(bits),
        None => Err(ElabFault::WidthDiffers { at: holder }),
    }
}

/// Bits with a size in a width: zeros are added on the left. `WidthDiffers` at the holder where there are
/// more bits.
pub fn fit_sized(alloc: Global, bits: Tern, width: u32, holder: Place) -> Result<Tern, ElabFault>
    ensures { Gives tern_bits result (fit_sized holder width (tern_bits bits)) }
{
    if bits.len() > width {
        return Err(ElabFault::WidthDiffers { at: holder });
    }
    match fitted(alloc, bits, width)? {
        Some(bits) => Ok(bits),
        // It fits.
        None => Err(ElabFault::WidthDiffers { at: holder }),
    }
}

/// The 32 bits of an integer, position 0 the lowest.
pub fn integer_bits(alloc: Global, n: u32) -> Result<Tern, OutOfMemory>
    ensures { IfOk result (λ bits. tern_bits bits ≡ number_bits 32 n) }
{
    let bits = number_bits(alloc, u128::from(n), 32)?;
    Ok(bits.into_tern())
}

/// A number alone, in a width. A text is one that is at `at`.
fn fit_number(
    alloc: Global,
    value: Value,
    width: u32,
    holder: Place,
    at: Place,
) -> Result<Tern, ElabFault>
    ensures { Gives tern_bits result (fit_number holder at width (seen_value value)) }
{
    match value {
        Value::Integer(n) => {
            let bits = integer_bits(alloc, n)?;
            fit_unsized(alloc, bits, width, holder)
        }
        Value::Bits { sized, bits } => {
            if sized {
                fit_sized(alloc, bits, width, holder)
            } else {
                fit_unsized(alloc, bits, width, holder)
            }
        }
        Value::Text(_) => Err(ElabFault::WrongKind { at }),
    }
}

/// A number of a concatenation.
fn sized_bits(value: Value, at: Place) -> Result<Tern, ElabFault>
    ensures { Gives tern_bits result (sized_bits at (seen_value value)) }
{
    match value {
        Value::Bits { sized, bits } => {
            if sized {
                Ok(bits)
            } else {
                Err(ElabFault::WrongKind { at })
            }
        }
        _ => Err(ElabFault::WrongKind { at }),
    }
}

/// One part of a concatenation.
fn one_part(alloc: Global, params: &ParamTable, e: &Expr, holder: Place) -> Result<Tern, ElabFault>
    ensures { Gives tern_bits result (one_part (seen_table params.now) holder (seen_expr e.now)) }
{
    let value = evaluate(alloc, params, e, holder)?;
    sized_bits(value, fault_place(e, holder))
}

/// The parts of a concatenation, the leftmost first.
fn parts(
    alloc: Global,
    params: &ParamTable,
    es: &[Expr],
    holder: Place,
) -> Result<Vec<Tern>, ElabFault>
    ensures { Gives (λ parts. map tern_bits parts.items) result
        (each (one_part (seen_table params.now) holder) (map seen_expr es.now)) }
{
    let mut parts = Vec::new(alloc);
    for e in es {
        let part = one_part(alloc, params, e, holder)?;
        parts.push(part)?;
    }
    Ok(parts)
}

/// Whether a concatenation is longer than a width.
fn is_longer(parts: &[Tern], width: u32) -> bool
    ensures { result ≡ nat_lt width (length (joined (map tern_bits parts.now))) }
{
    let mut left = width;
    for part in parts {
        let len = part.len();
        if len > left {
            return true;
        }
        left -= len;
    }
    false
}

/// Adds bits at the far end.
fn append(bits: &mut OpenBits, t: &Tern) -> Result<(), OutOfMemory>
    requires { length bits.old + length (tern_bits t.now) < 2 ^ 32 }
    ensures { OnOk result (bits.new ≡ bits.old ++ tern_bits t.now) }
{
    for k in 0..t.len() {
        bits.push(bit_at(t, k))?;
    }
    Ok(())
}

/// The bits of a concatenation.
fn joined(alloc: Global, parts: &[Tern]) -> Result<Tern, OutOfMemory>
    requires { length (joined (map tern_bits parts.now)) < 2 ^ 32 }
    ensures { IfOk result (λ t. tern_bits t ≡ joined (map tern_bits parts.now)) }
{
    let mut bits = OpenBits::new(alloc)?;
    let n = parts.len();
    for i in 0..n {
        append(&mut bits, &parts[n - 1 - i])?;
    }
    Ok(bits.into_tern())
}

/// A concatenation in a width.
fn concatenation(
    alloc: Global,
    parts: &[Tern],
    width: u32,
    holder: Place,
) -> Result<Tern, ElabFault>
    ensures { Gives tern_bits result (fit_sized holder width (joined (map tern_bits parts.now))) }
{
    if is_longer(parts, width) {
        return Err(ElabFault::WidthDiffers { at: holder });
    }
    let bits = joined(alloc, parts)?;
    fit_sized(alloc, bits, width, holder)
}

/// A number alone, in a width.
fn lone_value(
    alloc: Global,
    params: &ParamTable,
    e: &Expr,
    width: u32,
    holder: Place,
) -> Result<Tern, ElabFault>
    ensures { Gives tern_bits result (lone_value (seen_table params.now) holder width (seen_expr e.now)) }
{
    let value = evaluate(alloc, params, e, holder)?;
    fit_number(alloc, value, width, holder, fault_place(e, holder))
}

/// A concatenation in a width.
fn parts_value(
    alloc: Global,
    params: &ParamTable,
    es: &[Expr],
    width: u32,
    holder: Place,
) -> Result<Tern, ElabFault>
    ensures { Gives tern_bits result
        (parts_value (seen_table params.now) holder width (map seen_expr es.now)) }
{
    let parts = parts(alloc, params, es, holder)?;
    concatenation(alloc, &parts, width, holder)
}

/// A value, which is a number alone or a concatenation, in the width that is wanted.
pub fn value_in(
    alloc: Global,
    params: &ParamTable,
    es: &[Expr],
    width: u32,
    holder: Place,
) -> Result<Tern, ElabFault>
    ensures { Gives tern_bits result (value_in (seen_table params.now) holder width (map seen_expr es.now)) }
{
    if es.len() == 1 {
        lone_value(alloc, params, &es[0], width, holder)
    } else {
        parts_value(alloc, params, es, width, holder)
    }
}
