// Numbers in place of data signals.
ghost use Rattle.std.specs.Prelude.{◌≡◌};
ghost use Rattle.std.specs.List.{list_all};
ghost use Rattle.std.specs.Prelude.{is_some};
ghost use Rattle.ij_text.specs.Numbers.{tern_bits};
ghost use Rattle.icl_declarations.specs.Faults.{Gives};
ghost use Rattle.icl_declarations.specs.Values.{seen_value};
ghost use Rattle.icl_references.specs.Signals.{free_number, number_bits, sized_number};

use icl_declarations::{ElabFault, Value, fit_sized, fit_unsized, integer_bits};
use ij_bits::Tern;
use ij_text::{Place, bit_at};
use std::alloc::Global;

/// Whether a number has no x.
pub(crate) fn is_closed(bits: &Tern) -> bool
    ensures { result ≡ list_all is_some (tern_bits bits.now) }
{
    for k in 0..bits.len() {
        if bit_at(bits, k).is_none() {
            return false;
        }
    }
    true
}

/// A number without a size, which needs a width.
fn free_number(
    alloc: Global,
    holder: Place,
    at: Place,
    wanted: Option<u32>,
    bits: Tern,
) -> Result<Tern, ElabFault>
    ensures { Gives tern_bits result (free_number holder at wanted (tern_bits bits)) }
{
    match wanted {
        Some(width) => fit_unsized(alloc, bits, width, holder),
        None => Err(ElabFault::WrongKind { at }),
    }
}

/// A number with a size.
fn sized_number(
    alloc: Global,
    holder: Place,
    wanted: Option<u32>,
    bits: Tern,
) -> Result<Tern, ElabFault>
    ensures { Gives tern_bits result (sized_number holder wanted (tern_bits bits)) }
{
    match wanted {
        Some(width) => fit_sized(alloc, bits, width, holder),
        None => Ok(bits),
    }
}

/// The bits of a number without x that is at `at`, in the width that is wanted of it.
pub(crate) fn number_bits(
    alloc: Global,
    holder: Place,
    at: Place,
    wanted: Option<u32>,
    value: Value,
) -> Result<Tern, ElabFault>
    ensures { Gives tern_bits result (number_bits holder at wanted (seen_value value)) }
{
    match value {
        Value::Integer(n) => {
            let bits = integer_bits(alloc, n)?;
            free_number(alloc, holder, at, wanted, bits)
        }
        Value::Bits { sized, bits } => {
            if !is_closed(&bits) {
                return Err(ElabFault::BadNumber { at });
            }
            if sized {
                sized_number(alloc, holder, wanted, bits)
            } else {
                free_number(alloc, holder, at, wanted, bits)
            }
        }
        Value::Text(_) => Err(ElabFault::WrongKind { at }),
    }
}
