// Numbers, as PDL (IEEE 1687-2014) writes them.
ghost use Rattle.std.specs.Prelude.{◌≡◌, ◌↔◌, ◌⊎◌, None, Some, IfOk, IfErr, IsErrOf};
ghost use Rattle.ij_text.specs.Numbers.{InBits, number_of_text, SaysTooWide, seen, said, text_bits};
ghost use Rattle.ij_text.specs.Answers.{Gives};
ghost use Rattle.ij_text.specs.declared.number.NumberFault.TheVariants as fault;
ghost use Rattle.ij_text.specs.declared.number.FitFault.TheVariants as fit_fault;

use crate::Place;
use crate::digits::{Radix, are_digits, decimal, is_too_wide, text_bits};
use ij_bits::{OutOfMemory, Tern};
use std::alloc::Global;

/// A number that a text says.
#[derive(Drop)]
pub enum Number {
    /// A decimal, without x. It has no width of its own.
    Decimal(u128),
    /// Binary or hexadecimal digits, of which some may be x: one bit for each digit, or four. Position 0 is
    /// the lowest bit of the last digit.
    Digits(Tern),
}

/// Why a text says no number.
#[derive(Clone, Copy, PartialEq, Eq, Debug)]
pub enum NumberFault {
    /// The text is neither a decimal nor `0b` or `0x` with digits.
    BadNumber { at: Place },
    /// The decimal is above 2^128 - 1, or the digits stand for more than 4096 bits.
    TooWide { at: Place },
    /// There was no memory for the bits.
    OutOfMemory,
}

/// Why a number doesn't fit a width.
#[derive(Clone, Copy, PartialEq, Eq, Debug)]
pub enum FitFault {
    /// A 1 or an x is at the width or above.
    Wide,
    /// There was no memory for the bits.
    OutOfMemory,
}

impl From<OutOfMemory> for NumberFault {
    ghost from_gives = { λ _ e. e ≡ fault.OutOfMemory };

    fn from(_: OutOfMemory) -> Self {
        NumberFault::OutOfMemory
    }
}

impl From<OutOfMemory> for FitFault {
    ghost from_gives = { λ _ e. e ≡ fit_fault.OutOfMemory };

    fn from(_: OutOfMemory) -> Self {
        FitFault::OutOfMemory
    }
}

/// The number that digits say.
fn number_from_digits(
    alloc: Global,
    radix: Radix,
    text: &[u8],
    at: Place,
) -> Result<Number, NumberFault>
    ensures { Gives (said radix text.now) at result }
{
    if !are_digits(radix, text) {
        return Err(NumberFault::BadNumber { at });
    }
    match radix {
        Radix::Ten => match decimal(text) {
            Some(n) => Ok(Number::Decimal(n)),
            None => Err(NumberFault::TooWide { at }),
        },
        _ => number_from_bit_digits(alloc, radix, text, at),
    }
}

/// The number that binary or hexadecimal digits say.
fn number_from_bit_digits(
    alloc: Global,
    radix: Radix,
    text: &[u8],
    at: Place,
) -> Result<Number, NumberFault>
    ensures { Gives (Some (InBits (text_bits radix text.now))) at result }
{
    if is_too_wide(radix, text) {
        return Err(NumberFault::TooWide { at });
    }
    let bits = text_bits(alloc, radix, text)?;
    Ok(Number::Digits(bits.into_tern()))
}

fn read(alloc: Global, text: &[u8], at: Place) -> Result<Number, NumberFault>
    ensures { Gives (number_of_text text.now) at result }
{
    match text {
        [b'0', b'b', digits @ ..] => number_from_digits(alloc, Radix::Two, digits, at),
        [b'0', b'x', digits @ ..] => number_from_digits(alloc, Radix::Sixteen, digits, at),
        _ => number_from_digits(alloc, Radix::Ten, text, at),
    }
}

/// The number that a text says, as PDL (IEEE 1687-2014) writes numbers: a decimal, `0b` with the digits 0, 1
/// and x, or `0x` with hexadecimal digits, of either case, and x, which are four open bits. Any number of `_`
/// may stand between two digits.
///
/// `BadNumber` is answered exactly where the text is none of these, and `TooWide` exactly where a decimal is
/// above 2^128 - 1 or the digits stand for more than 4096 bits, leading zeros included. Both have the place
/// `at`, which is where the text is. The bits take memory by `alloc`; where there is none, the answer is
/// `OutOfMemory`.
pub fn read_number(alloc: Global, text: &[u8], at: Place) -> Result<Number, NumberFault>
    ensures ok { IfOk result (λ number. number_of_text text.now ≡ Some (seen number)) }
    ensures bad_number { IsErrOf result (NumberFault.BadNumber at) ↔ (number_of_text text.now ≡ None) }
    ensures too_wide { IsErrOf result (NumberFault.TooWide at) ↔ SaysTooWide (number_of_text text.now) }
    ensures others { IfErr result (λ e. (e ≡ NumberFault.BadNumber at)
        ⊎ (e ≡ NumberFault.TooWide at) ⊎ (e ≡ NumberFault.OutOfMemory)) }
{
    read(alloc, text, at)
}
