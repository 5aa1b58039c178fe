// What the words of lines say.
ghost use Rattle.std.specs.Prelude.{◌≡◌, ◌+◌, ◌*◌, ◌^◌, ◌<◌, ◌≤◌, length, IfOk, IfSome, IsTrue, option_map};
ghost use Rattle.std.specs.Prelude.{is_some, not, Some, true, nat_le, map, drop, ◌&&◌, ◌||◌, ◌-◌};
ghost use Rattle.std.specs.Prelude.{if◌then◌else◌};
ghost use Rattle.std.specs.Str.{bytes_eq};
ghost use Rattle.std.specs.List.{list_all, list_any};
ghost use Rattle.std.specs.Char.{is_ascii_hexdigit};
ghost use Rattle.ij_bits.specs.BitLists.{number_of};
ghost use Rattle.ij_text.specs.Numbers.{InDecimal, InBits, bits_in, seen, tern_bits, hex_value};
ghost use Rattle.table_lines.specs.Words.{care_in, number, decimal, decimal_or_none, is_open, is_one};
ghost use Rattle.table_lines.specs.Words.{is_wide};
ghost use Rattle.table_lines.specs.Words.{value_in, without_x, plain, hex, hex_from};
ghost use Rattle.table_lines.specs.Reading.{plain_value};

use ij_bits::{OutOfMemory, Tern};
use ij_text::{Number, NumberFault, Place, bit_at, hex_value, read_number};
use std::alloc::Global;

/// Whether a word is this one.
pub fn is(word: &[u8], wanted: &[u8]) -> bool
    ensures { result ≡ bytes_eq wanted.now word.now }
{
    wanted == word
}

/// The number that a word says, if it says one.
pub fn number(alloc: Global, text: &[u8]) -> Result<Option<Number>, OutOfMemory>
    ensures { IfOk result (λ n. option_map seen n ≡ number text.now) }
{
    match read_number(alloc, text, Place { line: 1, col: 1 }) {
        Ok(n) => Ok(Some(n)),
        Err(NumberFault::BadNumber { .. }) => Ok(None),
        Err(NumberFault::TooWide { .. }) => Ok(None),
        Err(NumberFault::OutOfMemory) => Err(OutOfMemory),
    }
}

fn decimal_or_none(number: &Option<Number>) -> Option<u128>
    ensures { result ≡ decimal_or_none (option_map seen number.now) }
{
    match number {
        Some(Number::Decimal(n)) => Some(*n),
        _ => None,
    }
}

/// The decimal that a word says, if it says one.
#[tactic(auto, unfolding(crate::specs::Words::decimal))]
pub fn decimal(alloc: Global, text: &[u8]) -> Result<Option<u128>, OutOfMemory>
    ensures { IfOk result (λ n. n ≡ decimal text.now) }
{
    let number = number(alloc, text)?;
    Ok(decimal_or_none(&number))
}

fn some_open(t: &Tern) -> bool
    ensures { result ≡ list_any is_open (tern_bits t.now) }
{
    for i in 0..t.len() {
        if bit_at(t, i).is_none() {
            return true;
        }
    }
    false
}

/// Whether a number has an x.
fn has_x(number: &Number) -> bool
    ensures { result ≡ not (is_some (without_x (Some (seen number.now)))) }
{
    match number {
        Number::Decimal(_) => false,
        Number::Digits(t) => some_open(t),
    }
}

fn unless_x(number: Option<Number>) -> Option<Number>
    ensures { option_map plain_value result ≡ without_x (option_map seen number) }
{
    match number {
        Some(n) => { if has_x(&n) { None } else { Some(n) } }
        None => None,
    }
}

/// The number without x that a word says, if it says one.
#[tactic(auto, unfolding(crate::specs::Words::plain))]
pub fn plain(alloc: Global, text: &[u8]) -> Result<Option<Number>, OutOfMemory>
    ensures { IfOk result (λ n. option_map plain_value n ≡ plain text.now) }
{
    let number = number(alloc, text)?;
    Ok(unless_x(number))
}

/// Whether a number has a 1 or an x at the width or above.
#[tactic(auto, unfolding(crate::specs::Words::is_wide))]
pub fn is_wide(number: &Number, width: u32) -> bool
    ensures { result ≡ is_wide width (seen number.now) }
{
    match number {
        Number::Decimal(n) => is_above_decimal(*n, width),
        Number::Digits(t) => some_above(t, width),
    }
}

/// Whether a decimal has a 1 at the width or above.
fn is_above_decimal(n: u128, width: u32) -> bool
    ensures { result ≡ nat_le (2 ^ width) n }
{
    width < 128 && n >> width != 0
}

/// Whether a 1 or an x is at the width or above.
fn some_above(t: &Tern, width: u32) -> bool
    ensures { result ≡ list_any (λ bit. is_open bit || is_one bit) (drop width (tern_bits t.now)) }
{
    for k in width..t.len() {
        if bit_at(t, k) != Some(false) {
            return true;
        }
    }
    false
}

/// Whether a 1 is at the width or above.
fn some_one_from(t: &Tern, width: u32) -> bool
    ensures { result ≡ list_any is_one (drop width (tern_bits t.now)) }
{
    for k in width..t.len() {
        if bit_at(t, k) == Some(true) {
            return true;
        }
    }
    false
}

fn some_one(t: &Tern, width: u128) -> bool
    ensures { result ≡ list_any is_one (drop width (tern_bits t.now)) }
{
    if width < u128::from(t.len()) {
        some_one_from(t, width as u32)
    } else {
        false
    }
}

/// Whether a decimal has a 1 at the width or above.
pub fn is_decimal_above(n: u128, width: u128) -> bool
    ensures { result ≡ nat_le (2 ^ width) n }
{
    width < 128 && is_above_decimal(n, width as u32)
}

/// Whether a number without x has a 1 at the width or above.
pub fn is_number_above(number: &Number, width: u128) -> bool
    ensures { result ≡ nat_le (2 ^ width) (plain_value number.now) }
{
    match number {
        Number::Decimal(n) => is_decimal_above(*n, width),
        Number::Digits(t) => some_one(t, width),
    }
}

fn is_one(bit: Option<bool>) -> bool
    ensures { result ≡ is_one bit }
{
    match bit {
        Some(b) => b,
        None => false,
    }
}

fn is_known(bit: Option<bool>) -> bool
    ensures { result ≡ is_some bit }
{
    bit.is_some()
}

/// A number with one more bit at its low end.
fn with_bit(n: u64, bit: bool) -> u64
    requires { n < 2 ^ 63 }
    ensures { result ≡ (if bit then 1 else 0) + 2 * n }
{
    if bit { 2 * n + 1 } else { 2 * n }
}

/// The lowest bits of a number, 0 where one is open.
fn low_values(t: &Tern, width: u32) -> u64
    requires { width ≤ 64 }
    ensures { result ≡ number_of (map is_one (bits_in width (InBits (tern_bits t.now)))) }
{
    let mut n = 0;
    for k in 0..width {
        n = with_bit(n, is_one(bit_at(t, width - 1 - k)));
    }
    n
}

/// The lowest bits of a number, 1 where one isn't open.
fn low_cares(t: &Tern, width: u32) -> u64
    requires { width ≤ 64 }
    ensures { result ≡ number_of (map is_some (bits_in width (InBits (tern_bits t.now)))) }
{
    let mut n = 0;
    for k in 0..width {
        n = with_bit(n, is_known(bit_at(t, width - 1 - k)));
    }
    n
}

/// The number that is in a width, 0 at open bits; it has no 1 and no x at the width or above.
#[tactic(auto, unfolding(crate::specs::Words::value_in))]
pub fn value_in(number: &Number, width: u32) -> u64
    requires { width ≤ 64 }
    ensures { result ≡ value_in width (seen number.now) }
{
    match number {
        Number::Decimal(n) => low_decimal(*n, width),
        Number::Digits(t) => low_values(t, width),
    }
}

fn low_decimal(n: u128, width: u32) -> u64
    requires { width ≤ 64 }
    ensures { result ≡ number_of (map is_one (bits_in width (InDecimal n))) }
{
    (n & ((1u128 << width) - 1)) as u64
}

/// The bits of a number in a width that aren't open.
#[tactic(auto, unfolding(crate::specs::Words::care_in))]
pub fn care_in(number: &Number, width: u32) -> u64
    requires { width ≤ 64 }
    ensures { result ≡ care_in width (seen number.now) }
{
    match number {
        Number::Decimal(n) => all_known(*n, width),
        Number::Digits(t) => low_cares(t, width),
    }
}

/// A decimal has no open bit.
fn all_known(n: u128, width: u32) -> u64
    requires { width ≤ 64 }
    ensures { result ≡ number_of (map is_some (bits_in width (InDecimal n))) }
{
    ((1u128 << width) - 1) as u64
}

/// The number of some bits, 0 where one is open.
fn digits_number(t: &Tern) -> u64
    requires { number_of (map is_one (tern_bits t.now)) < 2 ^ 64 }
    ensures { result ≡ number_of (map is_one (tern_bits t.now)) }
{
    let len = t.len();
    let mut n = 0;
    for k in 0..len {
        n = with_bit(n, is_one(bit_at(t, len - 1 - k)));
    }
    n
}

/// A number without x that has at most 64 bits.
pub fn plain_number(number: &Number) -> u64
    requires { plain_value number.now < 2 ^ 64 }
    ensures { result ≡ plain_value number.now }
{
    match number {
        Number::Decimal(n) => *n as u64,
        Number::Digits(t) => digits_number(t),
    }
}

fn digit_of(b: u8) -> u8
    requires { is_ascii_hexdigit b ≡ true }
    ensures value { result ≡ hex_value b }
    ensures small { result < 16 }
{
    hex_value(b)
}

fn all_hex(text: &[u8]) -> bool
    ensures { result ≡ list_all is_ascii_hexdigit text.now }
{
    text.iter().all(|b| b.is_ascii_hexdigit())
}

/// The number of some hexadecimal digits.
fn hex_number(text: &[u8]) -> u64
    requires digits { list_all is_ascii_hexdigit text.now ≡ true }
    requires few { length text.now ≤ 16 }
    ensures value { result ≡ hex_from 0 text.now }
    ensures small { result < 2 ^ (4 * length text.now) }
{
    let mut n = 0;
    for b in text {
        n = 16 * n + u64::from(digit_of(*b));
    }
    n
}

/// Whether a word is `least` to `most` hexadecimal digits.
fn is_hex(text: &[u8], least: usize, most: usize) -> bool
    ensures value { result ≡ (nat_le least (length text.now) &&
        (nat_le (length text.now) most && list_all is_ascii_hexdigit text.now)) }
    ensures digits { IsTrue result → list_all is_ascii_hexdigit text.now ≡ true }
    ensures few { IsTrue result → length text.now ≤ most }
{
    least <= text.len() && text.len() <= most && all_hex(text)
}

/// The number of `least` to `most` hexadecimal digits.
#[tactic(auto, unfolding(crate::specs::Words::hex))]
pub fn hex(text: &[u8], least: usize, most: usize) -> Option<u64>
    requires { most ≤ 16 }
    ensures value { result ≡ hex least most text.now }
    ensures small { IfSome result (λ n. n < 2 ^ (4 * most)) }
{
    if is_hex(text, least, most) {
        Some(hex_number(text))
    } else {
        None
    }
}
