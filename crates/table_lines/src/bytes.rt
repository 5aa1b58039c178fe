// Classes of bytes, runs of them, and the pieces of a text.
ghost use Rattle.std.specs.Prelude.{◌≡◌, ◌+◌, ◌<◌, ◌≤◌, [], ◌∷◌, length, MatchOption, IfSome, take, drop};
ghost use Rattle.ij_text.specs.Parts.{split};
ghost use Rattle.table_lines.specs.Lines.{is_mark, words};
ghost use Rattle.table_lines.specs.Reading.{in_class, run_length};

use ij_text::is_line_blank;

/// What a run of bytes is made of.
#[derive(Clone, Copy)]
pub(crate) enum Class {
    /// Spaces, tabs and carriage returns.
    Blank,
    /// Neither blanks nor marks.
    Word,
    /// All but `#`.
    Shown,
    /// All but this byte.
    Until(u8),
}

fn is_mark(b: u8) -> bool
    ensures { result ≡ is_mark b }
{
    b == b'=' || b == b'+' || b == b',' || b == b'-'
}

fn in_class(class: Class, b: u8) -> bool
    ensures { result ≡ in_class class b }
{
    match class {
        Class::Blank => is_line_blank(b),
        Class::Word => !(is_line_blank(b) || is_mark(b)),
        Class::Shown => b != b'#',
        Class::Until(at) => b != at,
    }
}

/// How many bytes at the front are of a class.
pub(crate) fn run_len(text: &[u8], class: Class) -> usize
    ensures value { result ≡ run_length class text.now }
    ensures within { result ≤ length text.now }
{
    let mut n = 0;
    while n < text.len() {
        if !in_class(class, text[n]) {
            return n;
        }
        n += 1;
    }
    n
}

/// A piece of a text, and the text after the byte that ends it, if one does.
#[derive(Clone, Copy)]
pub struct Cut<'a> {
    /// The bytes before.
    pub front: &'a [u8],
    /// The bytes after the one that ends it.
    pub after: Option<&'a [u8]>,
}

/// The text before the first byte of a kind.
pub fn cut_at<'a>(text: &'a [u8], at: u8) -> Cut<'a>
    ensures pieces { MatchOption result.after (split at text.now ≡ result.front.now ∷ [])
        (λ rest. split at text.now ≡ result.front.now ∷ split at rest.now) }
    ensures whole { MatchOption result.after (result.front.now ≡ text.now)
        (λ rest. length result.front.now + 1 + length rest.now ≡ length text.now) }
{
    let (front, after) = text.split_at(run_len(text, Class::Until(at)));
    if after.is_empty() {
        return Cut { front, after: None };
    }
    let (_, rest) = after.split_at(1);
    Cut {
        front,
        after: Some(rest),
    }
}

/// A word of a text, and the text after it.
#[derive(Clone, Copy)]
pub(crate) struct Piece<'a> {
    pub word: &'a [u8],
    pub rest: &'a [u8],
}

/// The text after the blanks at its front.
fn after_blanks(text: &[u8]) -> &[u8]
    ensures words { words text.now ≡ words result.now }
    ensures stops { run_length Class.Blank result.now ≡ 0 }
    ensures shorter { length result.now ≤ length text.now }
{
    let (_, rest) = text.split_at(run_len(text, Class::Blank));
    rest
}

/// The length of the first word, where no blank comes before.
fn word_len(text: &[u8]) -> usize
    requires some { 1 ≤ length text.now }
    requires no_blank { run_length Class.Blank text.now ≡ 0 }
    ensures within { result ≤ length text.now }
    ensures some { 1 ≤ result }
    ensures value { words text.now ≡ take result text.now ∷ words (drop result text.now) }
{
    if is_mark(text[0]) {
        1
    } else {
        run_len(text, Class::Word)
    }
}

/// The first word of a text, if there is one.
pub(crate) fn next_word<'a>(text: &'a [u8]) -> Option<Piece<'a>>
    ensures value { MatchOption result (words text.now ≡ [])
        (λ p. words text.now ≡ p.word.now ∷ words p.rest.now) }
    ensures shorter { IfSome result (λ p. length p.rest.now < length text.now) }
{
    let text = after_blanks(text);
    if text.is_empty() {
        return None;
    }
    let (word, rest) = text.split_at(word_len(text));
    Some(Piece { word, rest })
}
