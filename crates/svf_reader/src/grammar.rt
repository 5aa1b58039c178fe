// The commands of the grammar.
ghost use Rattle.std.specs.Prelude.{MatchBool, MatchOption, ◌≡◌, ◌<◌, ◌==◌, false, codes, option_map, Some};
ghost use Rattle.std.specs.Prelude.{None, IfSome};
ghost use Rattle.std.specs.List.{list_all};
ghost use Rattle.svf_reader.specs.Commands.{eq_ignore_case, with_part, after_hex, one_part, parts};
ghost use Rattle.svf_reader.specs.Commands.{no_parts, state};
ghost use Rattle.svf_reader.specs.Commands.{cycles, run_test, in_real, is_frequency, is_trst, no_effect_if};
ghost use Rattle.svf_reader.specs.Commands.{parsed_by};
ghost use Rattle.svf_reader.specs.Reading.{words_of};
ghost use Rattle.svf_reader.specs.Seen.{digits_of, seen_parts, seen_parsed};

use crate::bytes::{Class, byte_at, long_run_len};
use crate::parsed::{Parsed, PartTexts};
use crate::pieces::next_word;
use crate::words::{all_hex, eq_ignore_case, is_close, is_one_of, is_open, number, words_are};

/// The text after one or more hexadecimal digits and the `)`.
fn after_hex(text: &[u8]) -> Option<&[u8]>
    ensures value { option_map (λ rest. words_of rest.now) result ≡ after_hex false (words_of text.now) }
{
    let mut text = text;
    let mut some = false;
    while let Some(next) = next_word(text) {
        if is_close(next.piece) {
            return if some { Some(next.rest) } else { None };
        }
        if !all_hex(next.piece) {
            return None;
        }
        some = true;
        text = next.rest;
    }
    None
}

/// Puts a part to the others, if it doesn't stand there yet.
fn with_part<'a>(name: &[u8], text: &'a [u8], parts: &mut PartTexts<'a>) -> bool
    ensures { MatchBool result (with_part name.now (digits_of text.now) (seen_parts parts.old) ≡ Some
        (seen_parts parts.new)) (with_part name.now (digits_of text.now) (seen_parts parts.old) ≡ None) }
{
    if eq_ignore_case(name, b"TDI") {
        let free = parts.tdi.is_none();
        parts.tdi = Some(text);
        free
    } else if eq_ignore_case(name, b"TDO") {
        let free = parts.tdo.is_none();
        parts.tdo = Some(text);
        free
    } else if eq_ignore_case(name, b"MASK") {
        let free = parts.mask.is_none();
        parts.mask = Some(text);
        free
    } else if eq_ignore_case(name, b"SMASK") {
        let free = parts.smask.is_none();
        parts.smask = Some(text);
        free
    } else {
        false
    }
}

/// The digits of a hexadecimal text, with what is among them, and the text after its `)`.
#[derive(Clone, Copy)]
struct HexText<'a> {
    digits: &'a [u8],
    rest: &'a [u8],
}

/// One or more hexadecimal digits and the `)` at the front of a text. Digits that stand together come alone.
fn hex_text(text: &[u8]) -> Option<HexText<'_>>
    ensures rest { option_map (λ x. words_of x.rest.now) result ≡ after_hex false (words_of text.now) }
    ensures digits { IfSome result (λ x. digits_of x.digits.now ≡ digits_of text.now) }
{
    let first = next_word(text)?;
    if !all_hex(first.piece) {
        return None;
    }
    let end = next_word(first.rest)?;
    if is_close(end.piece) {
        return Some(HexText {
            digits: first.piece,
            rest: end.rest,
        });
    }
    let rest = after_hex(text)?;
    Some(HexText { digits: text, rest })
}

fn is_close_byte(b: u8) -> bool
    ensures { result ≡ (b == 41) }
{
    b == b')'
}

/// Digits that stand together at the front of a text, and the `)` right after them. Gaps are looked for
/// elsewhere.
fn gapless_hex(text: &[u8]) -> Option<HexText<'_>>
    ensures rest { IfSome result (λ x. Some (words_of x.rest.now) ≡ after_hex false (words_of text.now)) }
    ensures digits { IfSome result (λ x. digits_of x.digits.now ≡ digits_of text.now) }
{
    let n = long_run_len(text, Class::Word);
    let (digits, after) = text.split_at(n);
    if digits.is_empty() {
        return None;
    }
    if !is_close_byte(byte_at(after, 0)) {
        return None;
    }
    if !all_hex(digits) {
        return None;
    }
    let (_, rest) = after.split_at(1);
    Some(HexText { digits, rest })
}

/// The hexadecimal text of a part, as `hex_text` answers it.
fn part_text(text: &[u8]) -> Option<HexText<'_>>
    ensures rest { option_map (λ x. words_of x.rest.now) result ≡ after_hex false (words_of text.now) }
    ensures digits { IfSome result (λ x. digits_of x.digits.now ≡ digits_of text.now) }
{
    match gapless_hex(text) {
        Some(hex) => Some(hex),
        None => hex_text(text),
    }
}

/// Puts one more part to the others, of which this is the text after the name. The text after it.
#[tactic(auto, unfolding(crate::specs::Commands::one_part))]
fn one_part<'a>(parts: &mut PartTexts<'a>, name: &[u8], text: &'a [u8]) -> Option<&'a [u8]>
    ensures { MatchOption result (one_part (seen_parts parts.old) name.now (words_of text.now) ≡ None)
        (λ rest. one_part (seen_parts parts.old) name.now (words_of text.now)
        ≡ Some (seen_parts parts.new, words_of rest.now)) }
{
    let open = next_word(text)?;
    if !is_open(open.piece) {
        return None;
    }
    let hex = part_text(open.rest)?;
    if !with_part(name, hex.digits, parts) {
        return None;
    }
    Some(hex.rest)
}

/// At most four parts of a scan, and nothing else.
pub(crate) fn parts(text: &[u8]) -> Option<PartTexts<'_>>
    ensures { option_map seen_parts result ≡ parts 4 no_parts (words_of text.now) }
{
    let mut parts = PartTexts {
        tdi: None,
        tdo: None,
        mask: None,
        smask: None,
    };
    let mut text = text;
    for _ in 0..4u8 {
        let Some(name) = next_word(text) else {
            return Some(parts);
        };
        text = one_part(&mut parts, name.piece, name.rest)?;
    }
    if next_word(text).is_some() {
        return None;
    }
    Some(parts)
}

/// What is after `STATE`.
#[tactic(auto, unfolding(crate::specs::Commands::state))]
fn state(text: &[u8]) -> Option<Parsed>
    ensures { option_map seen_parsed result ≡ state (words_of text.now) }
{
    if words_are(text, &[b"RESET"]) {
        Some(Parsed::Reset)
    } else if words_are(text, &[b"IDLE"]) {
        Some(Parsed::Idle)
    } else {
        None
    }
}

/// What is after `RUNTEST` and, if it is there, `IDLE`.
#[tactic(auto, unfolding(crate::specs::Commands::cycles))]
fn cycles(text: &[u8]) -> Option<Parsed>
    ensures { option_map seen_parsed result ≡ cycles (words_of text.now) }
{
    let word = next_word(text)?;
    if !words_are(word.rest, &[b"TCK"]) && !words_are(word.rest, &[b"TCK", b"ENDSTATE", b"IDLE"]) {
        return None;
    }
    let cycles = number(word.piece)?;
    Some(Parsed::Run(cycles))
}

/// What is after `RUNTEST`.
#[tactic(auto, unfolding(crate::specs::Commands::run_test))]
fn run_test(text: &[u8]) -> Option<Parsed>
    ensures { option_map seen_parsed result ≡ run_test (words_of text.now) }
{
    let word = next_word(text)?;
    if eq_ignore_case(word.piece, b"IDLE") {
        cycles(word.rest)
    } else {
        cycles(text)
    }
}

fn in_real(b: u8) -> bool
    ensures { result ≡ in_real b }
{
    b.is_ascii_digit() || b == b'.' || b == b'E' || b == b'e' || b == b'+' || b == b'-'
}

fn all_real(word: &[u8]) -> bool
    ensures { result ≡ list_all in_real word.now }
{
    word.iter().all(|b| in_real(*b))
}

/// Whether a frequency comes after `FREQUENCY`, or nothing.
#[tactic(auto, unfolding(crate::specs::Commands::is_frequency))]
fn is_frequency(text: &[u8]) -> bool
    ensures { result ≡ is_frequency (words_of text.now) }
{
    match next_word(text) {
        None => true,
        Some(word) => all_real(word.piece) && words_are(word.rest, &[b"HZ"]),
    }
}

/// Whether one of the modes of TRST that have no effect comes after `TRST`.
#[tactic(auto, unfolding(crate::specs::Commands::is_trst))]
fn is_trst(text: &[u8]) -> bool
    ensures { result ≡ is_trst (words_of text.now) }
{
    words_are(text, &[b"OFF"]) || words_are(text, &[b"ABSENT"]) || words_are(text, &[b"Z"])
}

fn no_effect_if(so: bool) -> Option<Parsed>
    ensures { option_map seen_parsed result ≡ no_effect_if so }
{
    if so { Some(Parsed::Nothing) } else { None }
}

/// What a command other than a scan says, by its first word and the text after it.
#[tactic(auto, unfolding(crate::specs::Commands::parsed_by))]
pub(crate) fn parsed_by(word: &[u8], text: &[u8]) -> Option<Parsed>
    requires sir { eq_ignore_case (codes "SIR") word.now ≡ false }
    requires sdr { eq_ignore_case (codes "SDR") word.now ≡ false }
    ensures { option_map seen_parsed result ≡ parsed_by word.now (words_of text.now) }
{
    if is_one_of(word, &[b"HDR", b"HIR", b"TDR", b"TIR"]) {
        no_effect_if(words_are(text, &[b"0"]))
    } else if eq_ignore_case(word, b"STATE") {
        state(text)
    } else if eq_ignore_case(word, b"RUNTEST") {
        run_test(text)
    } else if is_one_of(word, &[b"ENDDR", b"ENDIR"]) {
        no_effect_if(words_are(text, &[b"IDLE"]))
    } else if eq_ignore_case(word, b"FREQUENCY") {
        no_effect_if(is_frequency(text))
    } else if eq_ignore_case(word, b"TRST") {
        no_effect_if(is_trst(text))
    } else {
        None
    }
}
