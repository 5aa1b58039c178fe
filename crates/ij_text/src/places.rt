// The places of bytes.
ghost use Rattle.std.specs.Prelude.{◌≡◌, ◌+◌, ◌^◌, ◌<◌, ◌≤◌, length};
ghost use Rattle.ij_text.specs.Places.{end_of, next_place, place_at, place_after};

use crate::Place;

/// The place after a byte that is at a place. After a line feed a line begins.
pub fn next_place(at: Place, b: u8) -> Place
    requires column { 1 ≤ at.col }
    requires fits { at.line + at.col + 1 < 2 ^ 32 }
    ensures value { result ≡ next_place at b }
    ensures column { 1 ≤ result.col }
    ensures sum { result.line + result.col ≤ at.line + at.col + 1 }
{
    if b == b'\n' {
        Place {
            line: at.line + 1,
            col: 1,
        }
    } else {
        Place {
            line: at.line,
            col: at.col + 1,
        }
    }
}

/// The place of the byte after some bytes, of which the first is at a place.
pub fn place_after(at: Place, bytes: &[u8]) -> Place
    requires column { 1 ≤ at.col }
    requires fits { at.line + at.col + length bytes.now < 2 ^ 32 }
    ensures value { result ≡ place_after at bytes.now }
    ensures column { 1 ≤ result.col }
    ensures sum { result.line + result.col ≤ at.line + at.col + length bytes.now }
{
    let mut at = at;
    for b in bytes {
        at = next_place(at, *b);
    }
    at
}

/// The place of the byte at an index of a text, or after its last byte. The index is counted from 0.
pub fn place_at(text: &[u8], n: usize) -> Place
    requires within { n ≤ length text.now }
    requires short { length text.now < 2 ^ 31 }
    ensures { result ≡ place_at text.now n }
{
    place_after(Place { line: 1, col: 1 }, &text[..n])
}

/// The place after the last byte of a text. Takes no memory.
pub fn end_of(text: &[u8]) -> Place
    requires { length text.now < 2 ^ 31 }
    ensures { result ≡ end_of text.now }
{
    place_after(Place { line: 1, col: 1 }, text)
}
