// Sized numbers.
ghost use Rattle.std.specs.Prelude.{◌≡◌, Some, None, IfOk, IfErr};
ghost use Rattle.std.specs.Option.{option_map};
ghost use Rattle.ij_text.specs.Options.{same};
ghost use Rattle.ij_text.specs.Numbers.{decimal_from, tern_bits};
ghost use Rattle.icl_declarations.specs.Faults.{Gives};
ghost use Rattle.icl_declarations.specs.Values.{seen_value};
ghost use Rattle.icl_declarations.specs.Tables.{seen_table};
ghost use Rattle.icl_declarations.specs.Expressions.{as_integer, parameter, parameter_size, size, size_of};
ghost use Rattle.icl_declarations.specs.Expressions.{told, number_of_size, sized_number};
ghost use Rattle.icl_declarations.specs.Sized.{based_number_bits, normalized_digits};

use crate::digits::{based_number_bits, normalized_digits, split};
use crate::fault::ElabFault;
use crate::fitting::{at_most_4096, fitted};
use crate::integers::as_integer;
use crate::params::ParamTable;
use crate::value::Value;
use ij_bits::Tern;
use ij_text::{Place, decimal, name_of};
use std::alloc::Global;

/// The value of a parameter that is here.
pub(crate) fn parameter<'a>(
    alloc: Global,
    params: &'a ParamTable,
    at: Place,
    name: &[u8],
) -> Result<&'a Value, ElabFault>
    ensures { Gives (λ v. seen_value v.now) result (parameter (seen_table params.now) at name.now) }
{
    match params.find(name) {
        Some(value) => Ok(value),
        None => {
            let name = name_of(alloc, name)?;
            Err(ElabFault::NoParameter { at, name })
        }
    }
}

/// A size, which is from 1 to 4096.
fn size(n: u128, at: Place) -> Result<Option<u32>, ElabFault>
    ensures { Gives same result (size at n) }
{
    if n > 0 && n < 4097 {
        Ok(Some(n as u32))
    } else {
        Err(ElabFault::BadNumber { at })
    }
}

/// A size by a parameter.
fn parameter_size(
    alloc: Global,
    params: &ParamTable,
    at: Place,
    name: &[u8],
) -> Result<Option<u32>, ElabFault>
    ensures { Gives same result (parameter_size (seen_table params.now) at name.now) }
{
    let value = parameter(alloc, params, at, name)?;
    let n = as_integer(value, at)?;
    size(u128::from(n), at)
}

/// A size by a decimal.
fn decimal_size(text: &[u8], at: Place) -> Result<Option<u32>, ElabFault>
    ensures { Gives same result (size at (decimal_from 0 text.now)) }
{
    match decimal(text) {
        Some(n) => size(n, at),
        None => Err(ElabFault::BadNumber { at }),
    }
}

/// The size that comes before a `'`, if one does.
#[tactic(auto, unfolding(crate::specs::Expressions::size_of))]
fn size_of(
    alloc: Global,
    params: &ParamTable,
    at: Place,
    text: &[u8],
) -> Result<Option<u32>, ElabFault>
    ensures { Gives same result (size_of (seen_table params.now) at text.now) }
{
    match text {
        [] => Ok(None),
        [first, name @ ..] => {
            if *first == b'$' {
                parameter_size(alloc, params, at, name)
            } else {
                decimal_size(text, at)
            }
        }
    }
}

/// A number that is told, or a bad one.
fn told(at: Place, sized: bool, bits: Option<Tern>) -> Result<Value, ElabFault>
    ensures { Gives seen_value result (told at sized (option_map tern_bits bits)) }
{
    match bits {
        Some(bits) => Ok(Value::Bits { sized, bits }),
        None => Err(ElabFault::BadNumber { at }),
    }
}

/// The number of bits in a size, or without one.
fn number_of_size(
    alloc: Global,
    at: Place,
    bits: Option<Tern>,
    size: Option<u32>,
) -> Result<Value, ElabFault>
    ensures { Gives seen_value result (number_of_size at (option_map tern_bits bits) size) }
{
    match (bits, size) {
        (None, _) => Err(ElabFault::BadNumber { at }),
        (Some(bits), None) => told(at, false, at_most_4096(bits)),
        (Some(bits), Some(n)) => {
            let bits = fitted(alloc, bits, n)?;
            told(at, true, bits)
        }
    }
}

/// The bits of a base and its digits, if they suit it.
fn open_digits(alloc: Global, text: &[u8]) -> Result<Option<Tern>, ElabFault>
    ensures bits { IfOk result (λ bits. option_map tern_bits bits
        ≡ based_number_bits (normalized_digits text.now)) }
    ensures told { IfErr result (λ e. e ≡ ElabFault.OutOfMemory) }
{
    let digits = normalized_digits(alloc, text)?;
    match based_number_bits(alloc, &digits)? {
        Some(bits) => Ok(Some(bits.into_tern())),
        None => Ok(None),
    }
}

/// The value of a sized number.
#[tactic(auto, unfolding(crate::specs::Expressions::sized_number))]
pub(crate) fn sized_number(
    alloc: Global,
    params: &ParamTable,
    at: Place,
    text: &[u8],
) -> Result<Value, ElabFault>
    ensures { Gives seen_value result (sized_number (seen_table params.now) at text.now) }
{
    let (front, after) = split(text);
    let size = size_of(alloc, params, at, front)?;
    let bits = open_digits(alloc, after)?;
    number_of_size(alloc, at, bits, size)
}
