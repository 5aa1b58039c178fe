// Commands of SVF that are left out.
ghost use Rattle.std.specs.Prelude.{◌≡◌, ◌∷◌, nat_le, length, option_map};
ghost use Rattle.svf_reader.specs.Commands.{begins_with_length, begins_with_on, is_left_out, left_out};
ghost use Rattle.svf_reader.specs.Commands.{left_out_names, any_is_one_of};
ghost use Rattle.svf_reader.specs.Reading.{words_of, runs_of};
ghost use Rattle.svf_reader.specs.Texts.{plain};

use crate::pieces::{Piece, next_run, next_word};
use crate::words::{any_is_one_of, eq_ignore_case, is_one_of, number};

/// Whether a length that isn't 0 is at the front.
fn begins_with_length(text: &[u8]) -> bool
    ensures { result ≡ begins_with_length (words_of text.now) }
{
    match next_word(text) {
        None => false,
        Some(word) => matches!(number(word.piece), Some(1..)),
    }
}

fn begins_with_on(text: &[u8]) -> bool
    ensures { result ≡ begins_with_on (words_of text.now) }
{
    match next_word(text) {
        None => false,
        Some(word) => eq_ignore_case(word.piece, b"ON"),
    }
}

/// Whether two runs or more stand in a text.
fn has_two(text: &[u8]) -> bool
    ensures { result ≡ nat_le 2 (length (runs_of text.now)) }
{
    match next_run(text) {
        None => false,
        Some(run) => next_run(run.rest).is_some(),
    }
}

/// Whether a run says a pause state, or another way to count than by TCK.
fn names_left_out(text: &[u8]) -> bool
    ensures { result ≡ any_is_one_of left_out_names (runs_of text.now) }
{
    any_is_one_of(text, &[b"DRPAUSE", b"IRPAUSE", b"SCK", b"SEC", b"MAXIMUM"])
}

/// Whether a command is left out, by its first word and the text after it.
#[tactic(auto, unfolding(crate::specs::Commands::is_left_out, crate::specs::Reading::words_of, crate::specs::Reading::runs_of))]
fn is_left_out(word: &[u8], text: &[u8]) -> bool
    ensures { result ≡ is_left_out word.now (plain text.now) }
{
    if is_one_of(word, &[b"HDR", b"HIR", b"TDR", b"TIR"]) {
        begins_with_length(text)
    } else if is_one_of(word, &[b"PIO", b"PIOMAP"]) {
        true
    } else if eq_ignore_case(word, b"TRST") {
        begins_with_on(text)
    } else if eq_ignore_case(word, b"STATE") {
        has_two(text) || names_left_out(text)
    } else if is_one_of(word, &[b"RUNTEST", b"ENDDR", b"ENDIR"]) {
        any_is_one_of(text, &[b"RESET"]) || names_left_out(text)
    } else {
        false
    }
}

/// The first word of a command, if the command is left out.
#[tactic(auto, unfolding(crate::specs::Commands::left_out))]
pub(crate) fn left_out<'a>(first: Piece<'a>) -> Option<&'a [u8]>
    ensures { option_map (λ word. word.now) result
        ≡ left_out (first.entry.piece.now ∷ words_of first.entry.rest.now) (plain first.entry.rest.now) }
{
    // most commands
    if is_one_of(first.piece, &[b"SDR", b"SIR"]) {
        return None;
    }
    if is_left_out(first.piece, first.rest) {
        Some(first.piece)
    } else {
        None
    }
}
