// The digits of sized numbers.
ghost use Rattle.std.specs.Prelude.{◌≡◌, ◌+◌, ◌*◌, ◌^◌, ◌<◌, ◌++◌, [], cond, length, Some, None, IfOk, OnOk};
ghost use Rattle.std.specs.Prelude.{◌==◌, ◌/◌, ◌%◌};
ghost use Rattle.std.specs.List.{list_all};
ghost use Rattle.icl_declarations.specs.Values.{number_bits};
ghost use Rattle.icl_declarations.specs.Sized.{base_bits, after, binary_digit, based_number_bits};
ghost use Rattle.icl_declarations.specs.Sized.{decimal_bits};
ghost use Rattle.icl_declarations.specs.Sized.{digits_bits, front, hex_digit, is_binary, is_hexadecimal};
ghost use Rattle.icl_declarations.specs.Sized.{normalized_digits};

use ij_bits::OutOfMemory;
use ij_text::{OpenBits, all_digits, decimal, hex_value};
use std::alloc::Global;

/// What comes before the `'`, and what comes after it.
pub(crate) fn split(text: &[u8]) -> (&[u8], &[u8])
    ensures front { result.0.now ≡ front text.now }
    ensures after { result.1.now ≡ after text.now }
{
    for (i, b) in text.iter().enumerate() {
        if *b == b'\'' {
            return (&text[..i], &text[i + 1..]);
        }
    }
    (text, &text[text.len()..])
}

/// A text without `_`, and in lower case.
pub(crate) fn normalized_digits(alloc: Global, text: &[u8]) -> Result<Vec<u8>, OutOfMemory>
    ensures { IfOk result (λ digits. digits.items ≡ normalized_digits text.now) }
{
    let mut digits = Vec::new(alloc);
    for b in text {
        if *b != b'_' {
            digits.push(b.to_ascii_lowercase())?;
        }
    }
    Ok(digits)
}

fn is_binary(b: u8) -> bool
    ensures { result ≡ is_binary b }
{
    b == b'0' || b == b'1' || b == b'x'
}

fn is_hexadecimal(b: u8) -> bool
    ensures { result ≡ is_hexadecimal b }
{
    b.is_ascii_hexdigit() || b == b'x'
}

/// Whether all of these bytes are `0`, `1` or `x`.
fn are_binary(digits: &[u8]) -> bool
    ensures { result ≡ list_all is_binary digits.now }
{
    digits.iter().all(|b| is_binary(*b))
}

/// Whether all of these bytes are hexadecimal digits or `x`.
fn are_hexadecimal(digits: &[u8]) -> bool
    ensures { result ≡ list_all is_hexadecimal digits.now }
{
    digits.iter().all(|b| is_hexadecimal(*b))
}

/// The lowest bit of a digit's value, or of what is left of it, if it isn't open.
fn lowest(is_open: bool, value: u8) -> Option<bool>
    ensures { result ≡ cond is_open None (Some (value % 2 == 1)) }
{
    if is_open { None } else { Some(value % 2 == 1) }
}

/// Adds the bit of a binary digit.
fn put_binary(bits: &mut OpenBits, b: u8) -> Result<(), OutOfMemory>
    requires { length bits.old + 4 < 2 ^ 32 }
    ensures { OnOk result (bits.new ≡ bits.old ++ binary_digit b) }
{
    bits.push(if b == b'x' { None } else { Some(b == b'1') })
}

/// Adds the bits of a hexadecimal digit.
fn put_hex(bits: &mut OpenBits, b: u8) -> Result<(), OutOfMemory>
    requires { length bits.old + 4 < 2 ^ 32 }
    ensures { OnOk result (bits.new ≡ bits.old ++ hex_digit b) }
{
    let is_open = b == b'x';
    let value = hex_value(b);
    bits.push(lowest(is_open, value))?;
    bits.push(lowest(is_open, value / 2))?;
    bits.push(lowest(is_open, value / 2 / 2))?;
    bits.push(lowest(is_open, value / 2 / 2 / 2))
}

/// The bits of binary digits.
fn binary_bits(alloc: Global, digits: &[u8]) -> Result<OpenBits, OutOfMemory>
    requires { length digits.now < 2 ^ 29 }
    ensures { IfOk result (λ bits. bits ≡ digits_bits binary_digit digits.now) }
{
    let mut bits = OpenBits::new(alloc)?;
    let n = digits.len();
    for i in 0..n {
        put_binary(&mut bits, digits[n - 1 - i])?;
    }
    Ok(bits)
}

/// The bits of hexadecimal digits.
fn hex_bits(alloc: Global, digits: &[u8]) -> Result<OpenBits, OutOfMemory>
    requires { length digits.now < 2 ^ 29 }
    ensures { IfOk result (λ bits. bits ≡ digits_bits hex_digit digits.now) }
{
    let mut bits = OpenBits::new(alloc)?;
    let n = digits.len();
    for i in 0..n {
        put_hex(&mut bits, digits[n - 1 - i])?;
    }
    Ok(bits)
}

/// The lowest bits of a number.
#[tactic(auto, unfolding(crate::specs::Values::number_bits))]
pub(crate) fn number_bits(alloc: Global, n: u128, width: u32) -> Result<OpenBits, OutOfMemory>
    ensures { IfOk result (λ bits. bits ≡ number_bits width n) }
{
    let mut bits = OpenBits::new(alloc)?;
    let mut rest = n;
    for _i in 0..width {
        bits.push(Some(rest % 2 == 1))?;
        rest /= 2;
    }
    Ok(bits)
}

/// The bits of decimal digits, if they are that, and below 2^128.
#[tactic(auto, unfolding(crate::specs::Sized::decimal_bits))]
fn decimal_bits(alloc: Global, digits: &[u8]) -> Result<Option<OpenBits>, OutOfMemory>
    ensures { IfOk result (λ bits. bits ≡ decimal_bits digits.now) }
{
    if !all_digits(digits) {
        return Ok(None);
    }
    match decimal(digits) {
        Some(n) => {
            let bits = number_bits(alloc, n, 128)?;
            Ok(Some(bits))
        }
        None => Ok(None),
    }
}

/// The bits of digits in a base, if they suit it.
#[tactic(auto, unfolding(crate::specs::Sized::base_bits))]
fn base_bits(alloc: Global, base: u8, digits: &[u8]) -> Result<Option<OpenBits>, OutOfMemory>
    ensures { IfOk result (λ bits. bits ≡ base_bits base digits.now) }
{
    // No source is as long as that.
    if digits.len() >= 536_870_912 {
        return Err(OutOfMemory);
    }
    match base {
        b'b' => {
            if !are_binary(digits) {
                return Ok(None);
            }
            let bits = binary_bits(alloc, digits)?;
            Ok(Some(bits))
        }
        b'h' => {
            if !are_hexadecimal(digits) {
                return Ok(None);
            }
            let bits = hex_bits(alloc, digits)?;
            Ok(Some(bits))
        }
        b'd' => decimal_bits(alloc, digits),
        _ => Ok(None),
    }
}

/// The bits of a base and its digits, if they suit it.
pub(crate) fn based_number_bits(alloc: Global, text: &[u8]) -> Result<Option<OpenBits>, OutOfMemory>
    ensures { IfOk result (λ bits. bits ≡ based_number_bits text.now) }
{
    match text {
        [base, digits @ ..] => base_bits(alloc, *base, digits),
        [] => Ok(None),
    }
}
