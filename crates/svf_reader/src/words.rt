// What words say.
ghost use Rattle.std.specs.Prelude.{◌≡◌, ◌<◌, ◌≤◌, ◌^◌, length, map, IfSome};
ghost use Rattle.std.specs.List.{list_all};
ghost use Rattle.std.specs.Char.{is_ascii_hexdigit};
ghost use Rattle.svf_reader.specs.Commands.{is_open, is_close, eq_ignore_case, is_one_of, words_are};
ghost use Rattle.svf_reader.specs.Commands.{any_is_one_of};
ghost use Rattle.svf_reader.specs.Commands.{number_from, number};
ghost use Rattle.svf_reader.specs.Reading.{words_of, runs_of};

use crate::pieces::{next_run, next_word};
use ij_text::all_digits;

/// Whether a word says a name, in either case.
pub(crate) fn eq_ignore_case(word: &[u8], name: &[u8]) -> bool
    ensures { result ≡ eq_ignore_case name.now word.now }
{
    word.eq_ignore_ascii_case(name)
}

pub(crate) fn is_open(word: &[u8]) -> bool
    ensures { result ≡ is_open word.now }
{
    word == b"(".as_slice()
}

pub(crate) fn is_close(word: &[u8]) -> bool
    ensures { result ≡ is_close word.now }
{
    word == b")".as_slice()
}

/// Whether a word says one of some names.
pub(crate) fn is_one_of(word: &[u8], names: &[&[u8]]) -> bool
    ensures { result ≡ is_one_of (map (λ name. name.now) names.now) word.now }
{
    for name in names {
        if eq_ignore_case(word, name) {
            return true;
        }
    }
    false
}

/// Whether a text has exactly these words.
pub(crate) fn words_are(text: &[u8], names: &[&[u8]]) -> bool
    ensures { result ≡ words_are (map (λ name. name.now) names.now) (words_of text.now) }
{
    let mut text = text;
    for name in names {
        match next_word(text) {
            None => return false,
            Some(next) => {
                if !eq_ignore_case(next.piece, name) {
                    return false;
                }
                text = next.rest;
            }
        }
    }
    next_word(text).is_none()
}

/// Whether a run of a text is one of some names.
pub(crate) fn any_is_one_of(text: &[u8], names: &[&[u8]]) -> bool
    ensures { result ≡ any_is_one_of (map (λ name. name.now) names.now) (runs_of text.now) }
{
    let mut text = text;
    while let Some(next) = next_run(text) {
        if is_one_of(next.piece, names) {
            return true;
        }
        text = next.rest;
    }
    false
}

/// Whether a byte is a hexadecimal digit, found without a branch.
fn is_hex(b: u8) -> bool
    ensures { result ≡ is_ascii_hexdigit b }
{
    let is_digit = (b >= b'0') & (b <= b'9');
    let is_upper = (b >= b'A') & (b <= b'F');
    let is_lower = (b >= b'a') & (b <= b'f');
    is_digit | is_upper | is_lower
}

/// Whether each byte is a hexadecimal digit. It goes over all of them, which is fast where they are.
pub(crate) fn all_hex(word: &[u8]) -> bool
    ensures { result ≡ list_all is_ascii_hexdigit word.now }
{
    let mut all = true;
    for b in word {
        all &= is_hex(*b);
    }
    all
}

/// The number of at most 10 digits.
fn digits_value(word: &[u8]) -> u64
    requires { length word.now ≤ 10 }
    ensures value { result ≡ number_from 0 word.now }
    ensures fits { result < 2 ^ 48 }
{
    let mut n = 0u64;
    for b in word {
        n = 10 * n + u64::from(b.saturating_sub(b'0'));
    }
    n
}

/// The number of 1 to 10 digits.
pub(crate) fn number(word: &[u8]) -> Option<u64>
    ensures value { result ≡ number word.now }
    ensures fits { IfSome result (λ n. n < 2 ^ 48) }
{
    if word.is_empty() || word.len() > 10 || !all_digits(word) {
        return None;
    }
    Some(digits_value(word))
}
