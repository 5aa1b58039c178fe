// The lines of a text that have words.
ghost use Rattle.std.specs.Prelude.{◌≡◌, ◌+◌, ◌^◌, ◌<◌, ◌≤◌, [], ◌∷◌, length, MatchOption, IfSome, IfOk, suc};
ghost use Rattle.std.specs.Prelude.{ℕ};
ghost use Rattle.table_lines.specs.Lines.{without_comment, words, line_place, line_of, unless_empty};
ghost use Rattle.table_lines.specs.Lines.{end_of, lines};
ghost use Rattle.table_lines.specs.Reading.{lines_left, seen_line, texts};

use crate::bytes::{Class, cut_at, next_word, run_len};
use ij_bits::OutOfMemory;
use ij_text::Place;
use std::alloc::Global;

/// A line that has words.
#[derive(Clone, Copy)]
pub struct Line<'a> {
    /// Where its first word is.
    pub at: Place,
    /// The line without its comment.
    pub text: &'a [u8],
    /// The text after the line.
    pub rest: &'a [u8],
    /// The number of the next line.
    pub number: u32,
}

/// A line's text without its comment.
fn without_comment(text: &[u8]) -> &[u8]
    ensures { result.now ≡ without_comment text.now }
{
    let (front, _) = text.split_at(run_len(text, Class::Shown));
    front
}

/// Where the first word of a line is, if it has one.
fn first_place(number: u32, text: &[u8]) -> Place
    requires { length text.now + 1 < 2 ^ 32 }
    ensures { result ≡ line_place number text.now }
{
    Place {
        line: number,
        col: run_len(text, Class::Blank) as u32 + 1,
    }
}

/// The first line of a text that has words, if there is one; `number` is the number of the text's first line.
pub fn next_line<'a>(text: &'a [u8], number: u32) -> Option<Line<'a>>
    requires { number + length text.now + 1 < 2 ^ 32 }
    ensures value { MatchOption result (lines_left number text.now ≡ [])
        (λ l. lines_left number text.now ≡ seen_line l.at l.text.now ∷ lines_left l.number l.rest.now) }
    ensures shorter { IfSome result (λ l. l.number + length l.rest.now ≤ number + length text.now) }
    ensures less { IfSome result (λ l. length l.rest.now < length text.now) }
{
    let mut rest = text;
    let mut number = number;
    while !rest.is_empty() {
        let (line, after) = cut_line(rest);
        let text = without_comment(line);
        if next_word(text).is_some() {
            let at = first_place(number, line);
            return Some(Line {
                at,
                text,
                rest: after,
                number: number + 1,
            });
        }
        rest = after;
        number += 1;
    }
    None
}

/// The first line of a text, and the text after the line feed that ends it.
fn cut_line<'a>(text: &'a [u8]) -> (&'a [u8], &'a [u8])
    requires { 1 ≤ length text.now }
    ensures lines { (n : ℕ)
        → lines_left n text.now ≡ unless_empty (line_of n result.0.now) (lines_left (suc n) result.1.now) }
    ensures shorter { length result.1.now < length text.now }
    ensures front { length result.0.now ≤ length text.now }
{
    let cut = cut_at(text, b'\n');
    match cut.after {
        Some(after) => (cut.front, after),
        None => (text, &[]),
    }
}

/// The place after the last byte of a text.
pub fn end_place(text: &[u8]) -> Place
    requires { length text.now + 2 < 2 ^ 32 }
    ensures { result ≡ end_of text.now }
{
    let mut rest = text;
    let mut line = 1;
    while let Some(after) = cut_at(rest, b'\n').after {
        rest = after;
        line += 1;
    }
    Place {
        line,
        col: rest.len() as u32 + 1,
    }
}

/// The words of a line.
pub fn words<'a>(alloc: Global, text: &'a [u8]) -> Result<Vec<&'a [u8]>, OutOfMemory>
    ensures { IfOk result (λ ws. texts ws.items ≡ words text.now) }
{
    let mut all = Vec::new(alloc);
    let mut rest = text;
    while let Some(next) = next_word(rest) {
        all.push(next.word)?;
        rest = next.rest;
    }
    Ok(all)
}
