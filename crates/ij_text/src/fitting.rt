// Numbers in a width.
ghost use Rattle.std.specs.Prelude.{◌≡◌, ◌↔◌, ◌^◌, ◌<◌, ◌≤◌, map, get_or, true, false, Some, IsTrue, IfOk};
ghost use Rattle.std.specs.Prelude.{IsErrOf};
ghost use Rattle.ij_bits.specs.BitLists.{bits_of};
ghost use Rattle.ij_text.specs.Numbers.{InBits, IsWide, bits_in, seen, tern_bits};
ghost use Rattle.ij_text.specs.declared.number.FitFault.{FitFault};

use crate::number::{FitFault, Number};
use ij_bits::{BitBox, Bits, OutOfMemory, Tern};
use std::alloc::Global;

/// Whether a decimal has a 1 at the width or above.
fn is_wide_decimal(n: u128, width: u32) -> bool
    ensures { IsTrue result ↔ (2 ^ width ≤ n) }
{
    width < 128 && n >> width != 0
}

/// A decimal in a width, without what is above.
fn decimal_in_width(alloc: Global, n: u128, width: u32) -> Result<Tern, OutOfMemory>
    ensures { IfOk result (λ t. tern_bits t ≡ map (λ bit. Some bit) (bits_of width n)) }
{
    let mut value = Bits::with_room(alloc, width)?;
    let mut rest = n;
    for i in 0..width.div_ceil(64) {
        value.append_number_reserved((rest % (1 << 64)) as u64, (width - 64 * i).min(64));
        rest >>= 64;
    }
    let mut care = Bits::zeros(alloc, width)?;
    care.fill(true);
    Ok(Tern {
        value: BitBox::from(value),
        care: BitBox::from(care),
    })
}

/// A bit of a number, 0 past its end. Position 0 is the lowest bit.
pub fn bit_at(t: &Tern, i: u32) -> Option<bool>
    ensures { result ≡ get_or (tern_bits t.now) i (Some false) }
{
    if i < t.len() { t.get(i) } else { Some(false) }
}

/// Whether a number has a 1 or an open bit at the width or above.
fn is_wide_tern(t: &Tern, width: u32) -> bool
    ensures { IsTrue result ↔ IsWide width (InBits (tern_bits t.now)) }
{
    for k in width..t.len() {
        if bit_at(t, k) != Some(false) {
            return true;
        }
    }
    false
}

/// A number in a width, without what is above.
fn tern_in_width(alloc: Global, t: &Tern, width: u32) -> Result<Tern, OutOfMemory>
    ensures { IfOk result (λ u. tern_bits u ≡ bits_in width (InBits (tern_bits t.now))) }
{
    let n = t.len().min(width);
    let mut above = Bits::zeros(alloc, width - n)?;
    let mut value = t.value.slice(alloc, 0, n)?;
    value.append(&above)?;
    above.fill(true);
    let mut care = t.care.slice(alloc, 0, n)?;
    care.append(&above)?;
    Ok(Tern {
        value: BitBox::from(value),
        care: BitBox::from(care),
    })
}

/// A number in `width` bits, with zeros added on the left. Position 0 is the lowest bit.
///
/// `Wide` is answered exactly where a 1 or an x is at position `width` or above. Zeros there are dropped.
/// The bits take memory by `alloc`; where there is none, the answer is `OutOfMemory`.
pub fn fit(alloc: Global, number: &Number, width: u32) -> Result<Tern, FitFault>
    ensures ok { IfOk result (λ t. tern_bits t ≡ bits_in width (seen number.now)) }
    ensures wide { IsErrOf result FitFault.Wide ↔ IsWide width (seen number.now) }
{
    match number {
        Number::Decimal(n) => {
            if is_wide_decimal(*n, width) {
                return Err(FitFault::Wide);
            }
            Ok(decimal_in_width(alloc, *n, width)?)
        }
        Number::Digits(t) => {
            if is_wide_tern(t, width) {
                return Err(FitFault::Wide);
            }
            Ok(tern_in_width(alloc, t, width)?)
        }
    }
}
