// Digits and their values.
ghost use Rattle.std.specs.Prelude.{◌≡◌, ◌+◌, ◌*◌, ◌^◌, ◌<◌, ◌≤◌, ◌++◌, [], cond, true, length, Some, None};
ghost use Rattle.std.specs.Prelude.{nat_lt, IfOk, OnOk, MatchOption, ◌==◌, ◌/◌};
ghost use Rattle.std.specs.Char.{is_ascii_hexdigit};
ghost use Rattle.ij_text.specs.Numbers.{are_digits, decimal_from, digit_bits, is_rest_of_digits, hex_value};
ghost use Rattle.ij_text.specs.Numbers.{is_digit};
ghost use Rattle.ij_text.specs.Numbers.{with_decimal_digit, text_bits};

use crate::open_bits::OpenBits;
use ij_bits::OutOfMemory;
use std::alloc::Global;

/// The radix of a number.
#[derive(Clone, Copy)]
pub(crate) enum Radix {
    Ten,
    Two,
    Sixteen,
}

/// Whether a byte is a digit.
fn is_digit(radix: Radix, b: u8) -> bool
    ensures { result ≡ is_digit radix b }
{
    match radix {
        Radix::Ten => b.is_ascii_digit(),
        Radix::Two => b == b'0' || b == b'1' || b == b'x',
        Radix::Sixteen => b.is_ascii_hexdigit() || b == b'x',
    }
}

/// Whether these bytes, after a digit, are digits and `_`, the last a digit.
fn is_rest_of_digits(radix: Radix, bytes: &[u8]) -> bool
    ensures { result ≡ is_rest_of_digits radix true bytes.now }
{
    let mut after_digit = true;
    for b in bytes {
        if is_digit(radix, *b) {
            after_digit = true;
        } else if *b == b'_' {
            after_digit = false;
        } else {
            return false;
        }
    }
    after_digit
}

/// Whether a text is digits, with any number of `_` between two of them.
pub(crate) fn are_digits(radix: Radix, text: &[u8]) -> bool
    ensures { result ≡ are_digits radix text.now }
{
    match text {
        [b, bytes @ ..] => is_digit(radix, *b) && is_rest_of_digits(radix, bytes),
        [] => false,
    }
}

/// The decimal with one more digit, if it is below 2^128.
fn with_decimal_digit(n: u128, b: u8) -> Option<u128>
    ensures { MatchOption result (2 ^ 128 ≤ with_decimal_digit n b) (λ m. m ≡ with_decimal_digit n b) }
{
    if b == b'_' {
        return Some(n);
    }
    n.checked_mul(10)?
        .checked_add(u128::from(b.saturating_sub(b'0')))
}

/// The value of a decimal, if it is below 2^128. It has digits alone, and `_`, which counts nothing.
pub fn decimal(text: &[u8]) -> Option<u128>
    ensures { MatchOption result (2 ^ 128 ≤ decimal_from 0 text.now) (λ n. n ≡ decimal_from 0 text.now) }
{
    let mut n = 0;
    for b in text {
        n = with_decimal_digit(n, *b)?;
    }
    Some(n)
}

/// The value of a hexadecimal digit, in either case.
pub fn hex_value(b: u8) -> u8
    ensures value { result ≡ hex_value b }
    ensures digit { is_ascii_hexdigit b ≡ true → result < 16 }
{
    if b < b':' {
        b.saturating_sub(b'0')
    } else if b < b'G' {
        b - 55
    } else {
        b.saturating_sub(87)
    }
}

/// Adds the bits of a hexadecimal digit.
fn push_hex_digit(bits: &mut OpenBits, b: u8) -> Result<(), OutOfMemory>
    requires { length bits.old + 4 < 2 ^ 32 }
    ensures { OnOk result (bits.new ≡ bits.old ++ digit_bits Radix.Sixteen b) }
{
    bits.push_digit(u64::from(hex_value(b)), 4, b == b'x')
}

/// Adds the bits of a digit.
fn push_digit_bits(bits: &mut OpenBits, radix: Radix, b: u8) -> Result<(), OutOfMemory>
    requires { length bits.old + 4 < 2 ^ 32 }
    ensures { OnOk result (bits.new ≡ bits.old ++ cond (b == 95) [] (digit_bits radix b)) }
{
    if b == b'_' {
        return Ok(());
    }
    match radix {
        Radix::Ten => Ok(()),
        Radix::Two => bits.push(if b == b'x' { None } else { Some(b == b'1') }),
        Radix::Sixteen => push_hex_digit(bits, b),
    }
}

/// How many of the bytes are digits, so no `_`.
fn digit_count(text: &[u8]) -> usize
    ensures two { length (text_bits Radix.Two text.now) ≡ result }
    ensures sixteen { length (text_bits Radix.Sixteen text.now) ≡ 4 * result }
{
    let mut count = 0;
    for b in text {
        if *b != b'_' {
            count += 1;
        }
    }
    count
}

/// Whether the digits stand for more than 4096 bits.
pub(crate) fn is_too_wide(radix: Radix, text: &[u8]) -> bool
    ensures { result ≡ nat_lt 4096 (length (text_bits radix text.now)) }
{
    match radix {
        Radix::Ten => false,
        Radix::Two => digit_count(text) > 4096,
        Radix::Sixteen => digit_count(text) > 1024,
    }
}

/// The bits of a text of digits.
pub(crate) fn text_bits(alloc: Global, radix: Radix, text: &[u8]) -> Result<OpenBits, OutOfMemory>
    requires { length (text_bits radix text.now) ≤ 4096 }
    ensures { IfOk result (λ bits. bits ≡ text_bits radix text.now) }
{
    let mut bits = OpenBits::new(alloc)?;
    let n = text.len();
    for i in 0..n {
        push_digit_bits(&mut bits, radix, text[n - 1 - i])?;
    }
    Ok(bits)
}
