// Hexadecimal texts as bits.
ghost use Rattle.std.specs.Prelude.{◌≡◌, ◌+◌, ◌^◌, ◌/◌, ◌%◌, ◌<◌, ◌≤◌, ◌==◌, not, [], ◌++◌, length, drop};
ghost use Rattle.std.specs.Prelude.{Some, IfOk};
ghost use Rattle.ij_bits.specs.BitLists.{number_of, has_one};
ghost use Rattle.ij_text.specs.Numbers.{hex_value as digit_value};
ghost use Rattle.svf_reader.specs.Answers.{Gives, part_value};
ghost use Rattle.svf_reader.specs.Values.{hex_bits, fitted, is_wide};
ghost use Rattle.svf_reader.specs.Meaning.{hex_value};
ghost use Rattle.svf_reader.specs.Seen.{digits_of};

use crate::fault::SvfCause;
use crate::pieces::next_word;
use crate::words::{all_hex, is_close};
use ij_bits::{Bits, OutOfMemory};
use std::alloc::Global;
use svf_writer::ScanPart;

/// The values of digits by their bytes, modulo 16.
static DIGIT_VALUES: [u8; 256] = [
    0, 0, 0, 0, 0, 0, 0, 0, 0, 0, 0, 0, 0, 0, 0, 0, 0, 0, 0, 0, 0, 0, 0, 0, 0, 0, 0, 0, 0, 0, 0, 0,
    0, 0, 0, 0, 0, 0, 0, 0, 0, 0, 0, 0, 0, 0, 0, 0, 0, 1, 2, 3, 4, 5, 6, 7, 8, 9, 3, 4, 5, 6, 7, 8,
    9, 10, 11, 12, 13, 14, 15, 0, 0, 0, 0, 0, 0, 0, 0, 0, 0, 0, 0, 0, 0, 0, 0, 0, 1, 2, 3, 4, 5, 6,
    7, 8, 9, 10, 11, 12, 13, 14, 15, 0, 1, 2, 3, 4, 5, 6, 7, 8, 9, 10, 11, 12, 13, 14, 15, 0, 1, 2,
    3, 4, 5, 6, 7, 8, 9, 10, 11, 12, 13, 14, 15, 0, 1, 2, 3, 4, 5, 6, 7, 8, 9, 10, 11, 12, 13, 14,
    15, 0, 1, 2, 3, 4, 5, 6, 7, 8, 9, 10, 11, 12, 13, 14, 15, 0, 1, 2, 3, 4, 5, 6, 7, 8, 9, 10, 11,
    12, 13, 14, 15, 0, 1, 2, 3, 4, 5, 6, 7, 8, 9, 10, 11, 12, 13, 14, 15, 0, 1, 2, 3, 4, 5, 6, 7,
    8, 9, 10, 11, 12, 13, 14, 15, 0, 1, 2, 3, 4, 5, 6, 7, 8, 9, 10, 11, 12, 13, 14, 15, 0, 1, 2, 3,
    4, 5, 6, 7, 8, 9, 10, 11, 12, 13, 14, 15, 0, 1, 2, 3, 4, 5, 6, 7, 8,
];

/// A digit's value modulo 16, from a table.
fn digit_value(b: u8) -> u8
    ensures value { result ≡ digit_value b % 16 }
    ensures small { result < 16 }
{
    DIGIT_VALUES[b as usize]
}

/// The number that at most 16 digits stand for.
fn digits_number(digits: &[u8]) -> u64
    requires { length digits.now ≤ 16 }
    ensures { result ≡ number_of (hex_bits digits.now) }
{
    let mut value = 0u64;
    for d in digits {
        value = 16 * value + u64::from(digit_value(*d));
    }
    value
}

/// Whether one of some digits has a 1.
fn have_one(digits: &[u8]) -> bool
    ensures { result ≡ has_one (hex_bits digits.now) }
{
    let mut one = false;
    for d in digits {
        one |= digit_value(*d) != 0;
    }
    one
}

/// Whether a number has a 1 at a place or above.
fn has_one_at_or_above(value: u64, place: u32) -> bool
    requires { place ≤ 64 }
    ensures { result ≡ not (value / 2 ^ place == 0) }
{
    place < 64 && value >> place != 0
}

/// Digits in two parts.
#[derive(Clone, Copy)]
struct Parted<'a> {
    front: &'a [u8],
    last: &'a [u8],
}

/// The last 16 digits, or as many as there are, and those before them.
fn split_last(digits: &[u8]) -> Parted<'_>
    ensures all { digits.now ≡ result.front.now ++ result.last.now }
    ensures few { length result.last.now ≤ 16 }
    ensures front { length result.last.now < 16 → result.front.now ≡ [] }
{
    let (front, last) = digits.split_at(digits.len().saturating_sub(16));
    Parted { front, last }
}

/// Adds 64 bits of the last digits at a time, as long as this many are asked for. The digits that are left.
fn put_words<'a>(bits: &mut Bits, len: u32, digits: &'a [u8]) -> &'a [u8]
    requires empty { bits.old.items ≡ [] }
    requires room { len ≤ bits.old.spare }
    ensures items { bits.new.items ≡ fitted (length bits.new.items) (hex_bits digits.now) }
    ensures left { drop (length bits.new.items) (hex_bits digits.now) ≡ hex_bits result.now }
    ensures within { length bits.new.items ≤ len }
    ensures near { len < length bits.new.items + 64 }
    ensures room { len ≤ length bits.new.items + bits.new.spare }
{
    let mut rest = digits;
    while len - bits.len() >= 64 {
        let parts = split_last(rest);
        bits.append_number_reserved(digits_number(parts.last), 64);
        rest = parts.front;
    }
    rest
}

/// Adds the bits of some digits, exactly as many as asked for. Whether one of those that are left is a 1.
fn put_digits(bits: &mut Bits, len: u32, digits: &[u8]) -> bool
    requires empty { bits.old.items ≡ [] }
    requires room { len ≤ bits.old.spare }
    ensures items { bits.new.items ≡ fitted len (hex_bits digits.now) }
    ensures wide { result ≡ is_wide len (hex_bits digits.now) }
{
    let rest = put_words(bits, len, digits);
    let parts = split_last(rest);
    let value = digits_number(parts.last);
    let left = len - bits.len();
    bits.append_number_reserved(value, left);
    has_one_at_or_above(value, left) | have_one(parts.front)
}

/// The bits of some digits, of which the last has position 0.
#[tactic(auto, unfolding(crate::specs::Meaning::hex_value))]
fn digits_bits(alloc: Global, len: u32, digits: &[u8]) -> Result<Bits, SvfCause>
    ensures { Gives (λ bits. bits.items) result (hex_value len digits.now) }
{
    let mut bits = Bits::with_room(alloc, len)?;
    if put_digits(&mut bits, len, digits) {
        return Err(SvfCause::HexWide);
    }
    Ok(bits)
}

/// The digits of a hexadecimal text up to its `)`, in room for those of this many bits.
fn gather_digits(alloc: Global, len: u32, text: &[u8]) -> Result<Vec<u8>, OutOfMemory>
    ensures { IfOk result (λ digits. digits.items ≡ digits_of text.now) }
{
    let mut digits = Vec::with_capacity(alloc, len.div_ceil(4) as usize)?;
    let mut text = text;
    while let Some(next) = next_word(text) {
        if is_close(next.piece) {
            break;
        }
        digits.extend_from_slice(next.piece)?;
        text = next.rest;
    }
    Ok(digits)
}

/// A part of at most 64 bits.
#[tactic(auto, unfolding(crate::specs::Answers::part_value))]
fn word_part(len: u32, digits: &[u8]) -> Result<ScanPart, SvfCause>
    requires { len ≤ 64 }
    ensures { Gives (λ p. p) result (part_value len (Some digits.now)) }
{
    let parts = split_last(digits);
    let value = digits_number(parts.last);
    if has_one_at_or_above(value, len) | have_one(parts.front) {
        return Err(SvfCause::HexWide);
    }
    Ok(ScanPart::of_number(len, value))
}

/// A part of any number of bits.
#[tactic(auto, unfolding(crate::specs::Answers::part_value, crate::specs::Meaning::hex_value))]
fn list_part(alloc: Global, len: u32, digits: &[u8]) -> Result<ScanPart, SvfCause>
    ensures { Gives (λ p. p) result (part_value len (Some digits.now)) }
{
    let bits = digits_bits(alloc, len, digits)?;
    Ok(ScanPart::of_bits(alloc, bits)?)
}

/// The part of some digits, of which the last has position 0.
fn digits_part(alloc: Global, len: u32, digits: &[u8]) -> Result<ScanPart, SvfCause>
    ensures { Gives (λ p. p) result (part_value len (Some digits.now)) }
{
    if len <= 64 {
        word_part(len, digits)
    } else {
        list_part(alloc, len, digits)
    }
}

/// The part of a hexadecimal text up to its `)`, or of digits alone, of which the last has position 0.
#[inline(never)]
pub(crate) fn text_part(alloc: Global, len: u32, text: &[u8]) -> Result<ScanPart, SvfCause>
    ensures { Gives (λ p. p) result (part_value len (Some (digits_of text.now))) }
{
    if all_hex(text) {
        return digits_part(alloc, len, text);
    }
    let digits = gather_digits(alloc, len, text)?;
    digits_part(alloc, len, &digits)
}
