// Reading a token.
ghost use Rattle.std.specs.Prelude.{◌≡◌, ◌<◌, true, false, length, IfErr, IfOk, Err, Ok, ◌++◌, ◌∷◌, []};
ghost use Rattle.ij_text.specs.Options.{same};
ghost use Rattle.icl_lexer.specs.Seen.{is_mark, if_word};
ghost use Rattle.icl_lexer.specs.Views.{bytes_of};
ghost use Rattle.icl_expressions.specs.Seen.{seen_read, Gives, IsAtToken};
ghost use Rattle.icl_expressions.specs.Reading.{begins, no_close, read_mark, read_word, read_name};

use crate::stop::ReadStop;
use icl_lexer::{Cursor, SmallText};
use ij_bits::{List, OutOfMemory};
use ij_text::Place;
use std::alloc::Global;

/// A value, and the tokens after it.
#[derive(Drop)]
pub struct Parsed<'a, X> {
    /// What was read.
    pub value: X,
    /// The tokens after it.
    pub rest: Cursor<'a>,
}

/// A list with one more value at its end, and the tokens after the value. The first value makes room for
/// itself alone.
pub fn push_parsed<'a, X: Drop>(
    list: List<X>,
    read: Parsed<'a, X>,
) -> Result<Parsed<'a, List<X>>, OutOfMemory>
    ensures items { IfOk result (λ r. r.value.items ≡ list.items ++ read.entry.value ∷ []) }
    ensures rest { IfOk result (λ r. r.rest ≡ read.entry.rest) }
{
    let mut values = list.into_vec();
    if values.is_empty() {
        values.reserve_exact(1)?;
    }
    values.push(read.value)?;
    Ok(Parsed {
        value: List::from(values),
        rest: read.rest,
    })
}

/// Whether a mark is the next token.
pub fn begins_mark(tokens: &Cursor, mark: u8) -> bool
    ensures { result ≡ begins (is_mark mark) tokens.now }
{
    match tokens.first() {
        Some(t) => t.is_mark(mark),
        None => false,
    }
}

/// Whether a word is the next token.
pub(crate) fn begins_name(tokens: &Cursor) -> bool
    ensures { result ≡ begins (λ t. if_word t.kind true false) tokens.now }
{
    match tokens.first() {
        Some(t) => t.is_name(),
        None => false,
    }
}

/// Whether a token that isn't a `}` is the next one.
pub fn is_next_not_close(tokens: &Cursor) -> bool
    ensures { result ≡ begins no_close tokens.now }
{
    match tokens.first() {
        Some(t) => !t.is_mark(b'}'),
        None => false,
    }
}

/// A mark, and its place. Takes no memory, and says so.
pub fn read_mark<'a>(tokens: Cursor<'a>, mark: u8) -> Result<Parsed<'a, Place>, ReadStop>
    ensures shorter { IfOk result (λ r. length r.rest < length tokens.entry) }
    ensures gives { Gives (seen_read same) result (read_mark mark tokens.entry) }
    ensures sure { IfErr result IsAtToken }
{
    let left = tokens.len();
    match tokens.next() {
        Some((t, rest)) if t.is_mark(mark) => Ok(Parsed { value: t.at, rest }),
        _ => Err(ReadStop::At(left, None)),
    }
}

/// A word that is this one, and its place. Takes no memory, and says so.
pub fn read_word<'a>(tokens: Cursor<'a>, word: &[u8]) -> Result<Parsed<'a, Place>, ReadStop>
    ensures shorter { IfOk result (λ r. length r.rest < length tokens.entry) }
    ensures gives { Gives (seen_read same) result (read_word word.now tokens.entry) }
    ensures sure { IfErr result IsAtToken }
{
    let left = tokens.len();
    match tokens.next() {
        Some((t, rest)) if t.is_word(word) => Ok(Parsed { value: t.at, rest }),
        _ => Err(ReadStop::At(left, None)),
    }
}

/// Any word, a keyword included.
pub fn read_name<'a>(alloc: Global, tokens: Cursor<'a>) -> Result<Parsed<'a, SmallText>, ReadStop>
    ensures shorter { IfOk result (λ r. length r.rest < length tokens.entry) }
    ensures gives { Gives (seen_read bytes_of) result (read_name tokens.entry) }
{
    let left = tokens.len();
    match tokens.next() {
        Some((t, rest)) if t.is_name() => Ok(Parsed {
            value: SmallText::of(alloc, t.text)?,
            rest,
        }),
        _ => Err(ReadStop::At(left, None)),
    }
}
