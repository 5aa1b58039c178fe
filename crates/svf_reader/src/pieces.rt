// Words and runs at the front of a text.
ghost use Rattle.std.specs.Prelude.{◌≡◌, ◌+◌, ◌<◌, ◌≤◌, false, [], ◌∷◌, length, MatchOption, IfSome};
ghost use Rattle.svf_reader.specs.Reading.{run_length, word_length, words_of, runs_of};
ghost use Rattle.svf_reader.specs.Texts.{plain, after_word};

use crate::bytes::{Class, byte_at, gap_len, is_parenthesis, long_run_len, run_len};

/// A piece of a text, and the text after it.
#[derive(Clone, Copy)]
pub struct Piece<'a> {
    /// The piece.
    pub piece: &'a [u8],
    /// All that comes after it.
    pub rest: &'a [u8],
}

/// The text after the blanks and comments at its front.
fn skip_gap(text: &[u8]) -> &[u8]
    ensures words { words_of text.now ≡ words_of result.now }
    ensures runs { runs_of text.now ≡ runs_of result.now }
    ensures after { after_word (plain text.now) ≡ after_word (plain result.now) }
    ensures stops { run_length Class.Gap false result.now ≡ 0 }
    ensures shorter { length result.now ≤ length text.now }
{
    let (_, rest) = text.split_at(gap_len(text));
    rest
}

/// The length of the first word, where no gap comes before.
#[inline(always)]
fn word_len(text: &[u8]) -> usize
    ensures value { result ≡ word_length text.now }
    ensures within { 1 ≤ length text.now → result ≤ length text.now }
{
    if is_parenthesis(byte_at(text, 0)) {
        1
    } else {
        long_run_len(text, Class::Word)
    }
}

/// The first word of a command's text, if there is one. A parenthesis is a word by itself.
#[inline(always)]
pub(crate) fn next_word<'a>(text: &'a [u8]) -> Option<Piece<'a>>
    ensures value { MatchOption result (words_of text.now ≡ [])
        (λ p. words_of text.now ≡ p.piece.now ∷ words_of p.rest.now) }
    ensures after { IfSome result (λ p. after_word (plain text.now) ≡ plain p.rest.now) }
    ensures shorter { IfSome result (λ p. length p.rest.now < length text.now) }
    ensures within { IfSome result (λ p. length p.piece.now + length p.rest.now ≤ length text.now) }
{
    let text = skip_gap(text);
    if text.is_empty() {
        return None;
    }
    let (piece, rest) = text.split_at(word_len(text));
    Some(Piece { piece, rest })
}

/// The first run of bytes of a command's text that aren't blank, if there is one.
pub(crate) fn next_run<'a>(text: &'a [u8]) -> Option<Piece<'a>>
    ensures value { MatchOption result (runs_of text.now ≡ [])
        (λ p. runs_of text.now ≡ p.piece.now ∷ runs_of p.rest.now) }
    ensures shorter { IfSome result (λ p. length p.rest.now < length text.now) }
{
    let text = skip_gap(text);
    if text.is_empty() {
        return None;
    }
    let (piece, rest) = text.split_at(run_len(text, Class::Run));
    Some(Piece { piece, rest })
}
