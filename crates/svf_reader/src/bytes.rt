// Classes of bytes, and runs of them.
ghost use Rattle.std.specs.Prelude.{◌≡◌, ◌+◌, ◌<◌, ◌≤◌, ◌&&◌, false, drop, length};
ghost use Rattle.std.specs.List.{list_all};
ghost use Rattle.svf_reader.specs.Reading.{in_class, run_length};
ghost use Rattle.svf_reader.specs.Passed.{is_passed, is_end, ends_gap};
ghost use Rattle.ij_text.specs.Bytes.{is_blank};
ghost use Rattle.svf_reader.specs.Texts.{first, in_comment, is_parenthesis};

use ij_text::is_blank;

/// What a run of bytes is made of.
#[derive(Clone, Copy)]
pub(crate) enum Class {
    /// Blanks and comments.
    Gap,
    /// Neither blanks nor comments nor parentheses.
    Word,
    /// Neither blanks nor comments.
    Run,
    /// All but a `;` outside of comments.
    Command,
}

pub(crate) fn is_parenthesis(b: u8) -> bool
    ensures { result ≡ is_parenthesis b }
{
    b == b'(' || b == b')'
}

/// The byte at an index, 0 past the end.
pub(crate) fn byte_at(text: &[u8], i: usize) -> u8
    ensures { result ≡ first (drop i text.now) }
{
    if i < text.len() { text[i] } else { 0 }
}

/// Whether a byte is in a comment, by whether the one before it is, and the one at an index, which is the
/// next one. From `0` on no byte begins or ends a comment.
fn in_comment(inside: bool, b: u8, text: &[u8], next: usize) -> bool
    ensures { result ≡ in_comment inside b (first (drop next text.now)) }
{
    if b >= b'0' {
        inside
    } else if inside {
        b != b'\n'
    } else {
        b == b'!' || (b == b'/' && byte_at(text, next) == b'/')
    }
}

fn in_class(class: Class, hidden: bool, b: u8) -> bool
    ensures { result ≡ in_class class hidden b }
{
    match class {
        Class::Gap => hidden || is_blank(b),
        Class::Word => !hidden && (b >= b'0' || (!is_blank(b) && !is_parenthesis(b))),
        Class::Run => !hidden && !is_blank(b),
        Class::Command => hidden || b != b';',
    }
}

/// How many bytes at the front are of a class.
#[inline(never)]
pub(crate) fn run_len(text: &[u8], class: Class) -> usize
    ensures value { result ≡ run_length class false text.now }
    ensures within { result ≤ length text.now }
{
    let mut n = 0;
    let mut inside = false;
    while n < text.len() {
        let b = byte_at(text, n);
        let hidden = in_comment(inside, b, text, n + 1);
        if !in_class(class, hidden, b) {
            return n;
        }
        inside = hidden;
        n += 1;
    }
    n
}

/// Whether a byte outside of comments is surely of a class and begins no comment. A byte of which this is
/// false may be of the class all the same. It is found without a branch.
#[inline(always)]
fn is_passed(class: Class, b: u8) -> bool
    ensures { result ≡ is_passed class b }
{
    match class {
        Class::Gap => false,
        Class::Word | Class::Run => b >= b'0',
        Class::Command => (b != b';') & (b != b'!') & (b != b'/'),
    }
}

/// Whether each byte is passed. It goes over all of them, which is fast where they are.
#[inline(always)]
fn all_passed(class: Class, block: &[u8]) -> bool
    ensures { result ≡ list_all (is_passed class) block.now }
{
    let mut all = true;
    for b in block {
        all &= is_passed(class, *b);
    }
    all
}

/// How many bytes are passed at a time: commands are mostly shorter than two words of 16 digits.
#[inline(always)]
fn block_size(class: Class) -> usize
    ensures { 1 ≤ result }
{
    match class {
        Class::Command => 8,
        _ => 16,
    }
}

/// The text after bytes that are passed, this many at a time.
#[inline(always)]
fn after_blocks(class: Class, size: usize, text: &[u8]) -> &[u8]
    requires some { 1 ≤ size }
    ensures value { run_length class false text.now + length result.now
        ≡ length text.now + run_length class false result.now }
    ensures within { length result.now ≤ length text.now }
{
    let mut rest = text;
    while rest.len() >= size {
        let (block, after) = rest.split_at(size);
        if !all_passed(class, block) {
            return rest;
        }
        rest = after;
    }
    rest
}

/// How many bytes at the front are passed, one at a time.
#[inline(always)]
fn passed_len(class: Class, text: &[u8]) -> usize
    ensures value { result + run_length class false (drop result text.now) ≡ run_length class false text.now }
    ensures within { result ≤ length text.now }
{
    let mut n = 0;
    while n < text.len() {
        let b = byte_at(text, n);
        if !is_passed(class, b) {
            return n;
        }
        n += 1;
    }
    n
}

/// Whether a byte outside of comments surely ends a run, and begins no comment.
#[inline(always)]
fn is_end(class: Class, b: u8) -> bool
    ensures { result ≡ is_end class b }
{
    match class {
        Class::Gap => false,
        Class::Word => is_blank(b) || is_parenthesis(b),
        Class::Run => is_blank(b),
        Class::Command => b == b';',
    }
}

/// How many bytes at the front are of a class, where mostly none are: a look at the first one.
#[inline(always)]
fn short_run_len(text: &[u8], class: Class) -> usize
    ensures value { result ≡ run_length class false text.now }
    ensures within { result ≤ length text.now }
{
    let b = byte_at(text, 0);
    if is_end(class, b) {
        return 0;
    }
    run_len(text, class)
}

/// How many bytes at the front are of a class, where most of them are passed.
#[inline(always)]
pub(crate) fn long_run_len(text: &[u8], class: Class) -> usize
    ensures value { result ≡ run_length class false text.now }
    ensures within { result ≤ length text.now }
{
    let blocks = after_blocks(class, block_size(class), text);
    let n = passed_len(class, blocks);
    let (_, rest) = blocks.split_at(n);
    text.len() - rest.len() + short_run_len(rest, class)
}

/// Whether a byte outside of comments is neither blank nor begins a comment.
fn ends_gap(b: u8) -> bool
    ensures { result ≡ ends_gap b }
{
    b > b'!' && b != b'/'
}

/// Whether a byte outside of comments is a blank, and the next one ends the gap.
fn is_lone_blank(b: u8, next: u8) -> bool
    ensures { result ≡ (is_blank b && ends_gap next) }
{
    is_blank(b) && ends_gap(next)
}

/// How many bytes of blanks and comments stand at the front: mostly none or one.
#[inline(always)]
pub(crate) fn gap_len(text: &[u8]) -> usize
    ensures value { result ≡ run_length Class.Gap false text.now }
    ensures within { result ≤ length text.now }
{
    let first = byte_at(text, 0);
    if ends_gap(first) {
        return 0;
    }
    let next = byte_at(text, 1);
    if is_lone_blank(first, next) {
        return 1;
    }
    run_len(text, Class::Gap)
}
