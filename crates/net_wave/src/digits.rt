// Digits, the highest first.
ghost use Rattle.std.specs.Prelude.{◌≡◌, ◌≤◌, ◌++◌, ◌∷◌, [], length, OnOk};
ghost use Rattle.report.specs.Registers as digits;
ghost use Rattle.net_wave.specs.Moments as moments;
ghost use Rattle.net_wave.specs.Values as values;

use crate::texts::add;
use ij_bits::{Bits, List, OutOfMemory};
use ij_io::SureSink;
use tap_machine::TapState;

/// The digit of a bit.
pub(crate) fn digit(bit: bool) -> u8
    ensures { result ≡ digits.digit bit }
{
    if bit { b'1' } else { b'0' }
}

/// Adds the digit of a bit.
pub(crate) fn add_digit(bit: bool, into: &mut List<u8>) -> Result<(), OutOfMemory>
    ensures { OnOk result (into.new.items ≡ into.old.items ++ digits.digit bit ∷ []) }
{
    into.push(digit(bit))
}

/// Adds the digits of bits.
pub(crate) fn add_bits(bits: &Bits, into: &mut List<u8>) -> Result<(), OutOfMemory>
    ensures { OnOk result (into.new.items ≡ into.old.items ++ values.bits_digits bits.now.items) }
{
    let width = bits.len();
    for j in 0..width {
        add_digit(bits.get(width - 1 - j), into)?;
    }
    Ok(())
}

/// Whether a bit of a number is 1.
fn is_odd_at(number: u64, i: u32) -> bool
    requires { i ≤ 63 }
    ensures { result ≡ values.is_odd_at number i }
{
    (number >> i) % 2 == 1
}

/// Adds the lowest digits of a number.
pub(crate) fn add_number(number: u64, width: u32, into: &mut List<u8>) -> Result<(), OutOfMemory>
    requires { width ≤ 64 }
    ensures { OnOk result (into.new.items ≡ into.old.items ++ values.number_digits width number) }
{
    for j in 0..width {
        add_digit(is_odd_at(number, width - 1 - j), into)?;
    }
    Ok(())
}

/// Adds this many x.
pub(crate) fn add_unknown(width: u32, into: &mut List<u8>) -> Result<(), OutOfMemory>
    ensures { OnOk result (into.new.items ≡ into.old.items ++ values.unknown width) }
{
    for _k in 0..width {
        into.push(b'x')?;
    }
    Ok(())
}

/// How many binary digits a number has, at most 32.
pub(crate) fn binary_length(number: usize) -> u32
    ensures length { result ≡ values.binary_length 32 number }
    ensures small { result ≤ 32 }
{
    let mut left = number;
    let mut digits = 0;
    for _k in 0..32u32 {
        if left == 0 {
            return digits;
        }
        left /= 2;
        digits += 1;
    }
    digits
}

/// The digit of what is expected, x where nothing is.
pub(crate) fn expect_digit(expect: Option<bool>) -> u8
    ensures { result ≡ values.expect_digit expect }
{
    match expect {
        None => b'x',
        Some(false) => b'0',
        Some(true) => b'1',
    }
}

/// Whether another bit than this one is expected.
pub(crate) fn differs(expect: Option<bool>, found: bool) -> bool
    ensures { result ≡ values.differs expect found }
{
    match expect {
        None => false,
        Some(expect) => expect != found,
    }
}

/// The code of a state of the TAP controller.
pub(crate) fn tap_code(tap: TapState) -> u64
    ensures { result ≡ values.tap_code tap }
{
    match tap {
        TapState::TestLogicReset => 15,
        TapState::RunTestIdle => 12,
        TapState::SelectDrScan => 7,
        TapState::CaptureDr => 6,
        TapState::ShiftDr => 2,
        TapState::Exit1Dr => 1,
        TapState::PauseDr => 3,
        TapState::Exit2Dr => 0,
        TapState::UpdateDr => 5,
        TapState::SelectIrScan => 4,
        TapState::CaptureIr => 14,
        TapState::ShiftIr => 10,
        TapState::Exit1Ir => 9,
        TapState::PauseIr => 11,
        TapState::Exit2Ir => 8,
        TapState::UpdateIr => 13,
    }
}

/// Digits without zeros at the left.
fn trimmed(digits: &[u8]) -> &[u8]
    ensures { result.now ≡ moments.trimmed digits.now }
{
    let mut rest = digits;
    while let [b'0', _, ..] = rest {
        rest = &rest[1..];
    }
    rest
}

/// Adds a value, as it comes before the code of its variable (IEEE 1364-2005, 18.2.1).
pub(crate) fn add_value_text(digits: &[u8], piece: &mut SureSink) -> Result<(), OutOfMemory>
    ensures { OnOk result (piece.new ≡ piece.old ++ moments.digits_text digits.now) }
{
    if digits.len() == 1 {
        return add(digits, piece);
    }
    add(b"b", piece)?;
    add(trimmed(digits), piece)?;
    add(b" ", piece)?;
    Ok(())
}
