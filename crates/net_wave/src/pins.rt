// What changes at the pins, as text.
ghost use Rattle.std.specs.Prelude.{◌≡◌, ◌<◌, ◌≤◌, ◌+◌, ◌++◌, ◌∷◌, [], codes, drop, take, OnOk};
ghost use Rattle.net_wave.specs.Changes as changes;
ghost use Rattle.net_wave.specs.Changes.{binary, told_if};
ghost use Rattle.net_wave.specs.Moments as moments;
ghost use Rattle.net_wave.specs.Values as values;

use crate::digits::{differs, digit, expect_digit, tap_code};
use crate::shown::Shown;
use crate::texts::add;
use ij_bits::OutOfMemory;
use ij_io::SureSink;
use tap_machine::TapState;

/// Puts the digit of a variable of one bit at a place of a line, if it is written first or has changed;
/// answers the place after it.
fn put_digit(
    variable: u8,
    first: bool,
    before: u8,
    now: u8,
    line: &mut [u8; 24],
    at: usize,
) -> usize
    requires variable { variable < 94 }
    requires room { at ≤ 20 }
    ensures next { result ≤ at + 3 }
    ensures text { take result line.new
        ≡ take at line.old ++ told_if first variable (before ∷ []) (now ∷ []) }
{
    line[at] = now;
    line[at + 1] = 33 + variable;
    line[at + 2] = b'\n';
    if first || before != now { at + 3 } else { at }
}

/// The line of a state of the TAP controller.
fn tap_line(tap: TapState) -> &'static [u8]
    ensures { result.now
        ≡ moments.change_text (record { number = 6; digits = values.number_digits 4 (values.tap_code tap) }) }
{
    match tap {
        TapState::TestLogicReset => b"b1111 '\n",
        TapState::RunTestIdle => b"b1100 '\n",
        TapState::SelectDrScan => b"b111 '\n",
        TapState::CaptureDr => b"b110 '\n",
        TapState::ShiftDr => b"b10 '\n",
        TapState::Exit1Dr => b"b1 '\n",
        TapState::PauseDr => b"b11 '\n",
        TapState::Exit2Dr => b"b0 '\n",
        TapState::UpdateDr => b"b101 '\n",
        TapState::SelectIrScan => b"b100 '\n",
        TapState::CaptureIr => b"b1110 '\n",
        TapState::ShiftIr => b"b1010 '\n",
        TapState::Exit1Ir => b"b1001 '\n",
        TapState::PauseIr => b"b1011 '\n",
        TapState::Exit2Ir => b"b1000 '\n",
        TapState::UpdateIr => b"b1101 '\n",
    }
}

/// Adds the state of the TAP controller, if it is written first or has changed.
fn add_tap(
    first: bool,
    before: TapState,
    now: TapState,
    piece: &mut SureSink,
) -> Result<(), OutOfMemory>
    ensures { OnOk result (piece.new ≡ piece.old ++ told_if first 6
        (values.number_digits 4 (values.tap_code before)) (values.number_digits 4 (values.tap_code now))) }
{
    if first || tap_code(before) != tap_code(now) {
        return add(tap_line(now), piece);
    }
    Ok(())
}

/// Puts the binary digits of a number, without zeros at the left, before place 33 of a line; answers where
/// they begin.
fn put_binary(number: u32, line: &mut [u8; 36]) -> usize
    ensures low { 1 ≤ result }
    ensures high { result ≤ 32 }
    ensures text { drop result line.new ≡ binary number ++ drop 33 line.old }
{
    let mut left = number;
    let mut i = 32;
    line[32] = b'0' + (left % 2) as u8;
    while left >= 2 {
        left /= 2;
        i -= 1;
        line[i] = b'0' + (left % 2) as u8;
    }
    i
}

/// Adds a number in binary digits, under the number of its variable.
fn add_binary(variable: u8, number: u32, piece: &mut SureSink) -> Result<(), OutOfMemory>
    requires { variable < 94 }
    ensures { OnOk result (piece.new
        ≡ piece.old ++ codes "b" ++ (binary number ++ (codes " " ++ (33 + variable) ∷ codes "\n"))) }
{
    let mut line = [0u8; 36];
    line[33] = b' ';
    line[34] = 33 + variable;
    line[35] = b'\n';
    let i = put_binary(number, &mut line);
    line[i - 1] = b'b';
    add(&line[i - 1..], piece)
}

/// Adds the scan, if it is written first or has changed.
fn add_scan_number(
    first: bool,
    before: u32,
    now: u32,
    piece: &mut SureSink,
) -> Result<(), OutOfMemory>
    ensures { OnOk result (piece.new
        ≡ piece.old ++ told_if first 8 (values.number_digits 32 before) (values.number_digits 32 now)) }
{
    if first || before != now {
        return add_binary(8, now, piece);
    }
    Ok(())
}

/// Adds the position, of which 16 bits are shown, if it is written first or has changed.
fn add_position(first: bool, before: u32, now: u32, piece: &mut SureSink) -> Result<(), OutOfMemory>
    ensures { OnOk result (piece.new
        ≡ piece.old ++ told_if first 9 (values.number_digits 16 before) (values.number_digits 16 now)) }
{
    if first || before % 65536 != now % 65536 {
        return add_binary(9, now % 65536, piece);
    }
    Ok(())
}

/// Adds the fall of TCK, and what comes before the instruction.
pub(crate) fn add_levels(
    first: bool,
    last: &Shown,
    now: &Shown,
    piece: &mut SureSink,
) -> Result<(), OutOfMemory>
    ensures { OnOk result (piece.new ≡ piece.old ++ changes.fall_text first last.now now.now) }
{
    let mut line = [0u8; 24];
    line[0] = b'\n';
    line[1] = b'0';
    line[2] = b'!';
    line[3] = b'\n';
    let b = last.pins;
    let n = now.pins;
    let at = put_digit(1, first, digit(b.tms), digit(n.tms), &mut line, 4);
    let at = put_digit(2, first, digit(b.tdi), digit(n.tdi), &mut line, at);
    let at = put_digit(3, first, digit(last.tdo), digit(now.tdo), &mut line, at);
    let before = expect_digit(b.expect);
    let at = put_digit(4, first, before, expect_digit(n.expect), &mut line, at);
    let before = digit(differs(b.expect, last.tdo));
    let differs = digit(differs(n.expect, now.tdo));
    let at = put_digit(5, first, before, differs, &mut line, at);
    add(&line[..at], piece)?;
    add_tap(first, last.tap, now.tap, piece)?;
    Ok(())
}

/// Adds what comes after the instruction.
pub(crate) fn add_scan(
    first: bool,
    last: &Shown,
    now: &Shown,
    piece: &mut SureSink,
) -> Result<(), OutOfMemory>
    ensures { OnOk result (piece.new ≡ piece.old ++ changes.scan_text first last.now now.now) }
{
    add_scan_number(first, last.pins.scan, now.pins.scan, piece)?;
    add_position(first, last.pins.bit, now.pins.bit, piece)?;
    Ok(())
}
