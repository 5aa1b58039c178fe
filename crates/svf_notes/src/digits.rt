// The values of bits.
ghost use Rattle.std.specs.Prelude.{◌≡◌, ◌+◌, ◌≤◌, Some, drop, length, take, OnOk};
ghost use Rattle.ij_io.specs.Bytes.{Adds};
ghost use Rattle.report.specs.Registers.{digit};
ghost use Rattle.svf_notes.specs.Notes as notes;
ghost use Rattle.svf_notes.specs.Packed.{part_bits};

use crate::bits::{BitPart, ScanBits};
use crate::scan::{Shifted, Shown};
use ij_io::{Sink, StoreFault, SureSink};

/// The digit of a bit.
pub(crate) fn digit(bit: bool) -> u8
    ensures { result ≡ digit bit }
{
    if bit { b'1' } else { b'0' }
}

/// The digit of what is expected, a dash where nothing is.
pub(crate) fn expected_digit(expect: Option<bool>) -> u8
    ensures { result ≡ notes.expected_digit expect }
{
    match expect {
        None => b'-',
        Some(expect) => digit(expect),
    }
}

/// The digit of one value of a bit.
#[inline(always)]
fn digit_of(shown: Shown, bit: Shifted) -> u8
    ensures { result ≡ notes.digit_of shown bit }
{
    match shown {
        Shown::Written => digit(bit.tdi),
        Shown::Expected => expected_digit(bit.expect),
        Shown::Found => match bit.expect {
            None => b'-',
            Some(_) => digit(bit.found),
        },
    }
}

/// Writes one value of each of up to 64 bits, the highest position first.
#[inline(always)]
fn put_some_digits(shown: Shown, part: &BitPart, note: &mut SureSink) -> Result<(), StoreFault>
    requires { part.now.count ≤ 64 }
    ensures { OnOk result (Adds (Some note.old) (Some note.new) (notes.digits shown (part_bits part.now))) }
{
    let n = part.count;
    let mut text = [0; 64];
    for j in 0..n {
        text[j as usize] = digit_of(shown, part.at(n - 1 - j));
    }
    note.write(&text[..n as usize])
}

/// Writes one value of each of some bits from a position on, the highest position first.
#[inline(always)]
pub(crate) fn put_digits(
    shown: Shown,
    bits: &ScanBits,
    at: u32,
    width: u32,
    note: &mut SureSink,
) -> Result<(), StoreFault>
    requires { at + width ≤ length bits.now.items }
    ensures { OnOk result
        (Adds (Some note.old) (Some note.new) (notes.digits shown (take width (drop at bits.now.items)))) }
{
    let _all = bits.len();
    let mut left = width;
    while left > 64 {
        left -= 64;
        put_some_digits(shown, &bits.part(at + left, 64), note)?;
    }
    put_some_digits(shown, &bits.part(at, left), note)?;
    Ok(())
}

/// Whether another bit is found than is expected.
pub(crate) fn differs(bit: Shifted) -> bool
    ensures { result ≡ notes.differs bit }
{
    match bit.expect {
        None => false,
        Some(expect) => expect != bit.found,
    }
}
