// Integers.
ghost use Rattle.ij_text.specs.Numbers.{tern_bits};
ghost use Rattle.icl_declarations.specs.Faults.{Gives};
ghost use Rattle.icl_declarations.specs.Values.{seen_value};
ghost use Rattle.icl_declarations.specs.Expressions.{as_integer, closed_number};
ghost use Rattle.ij_text.specs.Options.{same};

use crate::fault::ElabFault;
use crate::value::Value;
use ij_bits::Tern;
use ij_text::{Place, bit_at};

/// The number of bits without x, if it is below 2^32.
fn closed_number(t: &Tern, at: Place) -> Result<u32, ElabFault>
    ensures { Gives same result (closed_number at (tern_bits t.now)) }
{
    let len = t.len();
    let mut n: u32 = 0;
    for k in 0..len {
        let bit = match bit_at(t, len - 1 - k) {
            Some(bit) => bit,
            None => return Err(ElabFault::BadNumber { at }),
        };
        if n >= 0x8000_0000 {
            return Err(ElabFault::BadNumber { at });
        }
        n = 2 * n + u32::from(bit);
    }
    Ok(n)
}

/// A value where an integer is wanted, which is here.
pub(crate) fn as_integer(value: &Value, at: Place) -> Result<u32, ElabFault>
    ensures { Gives same result (as_integer at (seen_value value.now)) }
{
    match value {
        Value::Integer(n) => Ok(*n),
        Value::Bits { bits, .. } => closed_number(bits, at),
        Value::Text(_) => Err(ElabFault::WrongKind { at }),
    }
}
