// Where the reading of a piece is.
ghost use Rattle.std.specs.Prelude.{◌≡◌, ◌==◌, ◌∷◌, [], ℕ, List, None, cond, true, false};
ghost use Rattle.icl_lexer.specs.Pieces.{base, block, kind_of, quoted, slash};
ghost use Rattle.icl_lexer.specs.States.{kind_of_other, kind_from};

use crate::bytes::{in_decimal, in_digits, is_base, is_digit_x, is_mark};
use crate::token::{PieceKind, TokenKind};
use ij_text::{begins_name, in_name, is_blank};

/// What was read of a piece.
#[derive(Clone, Copy)]
pub(crate) enum State {
    /// Nothing.
    Start,
    /// A whole piece, which no byte continues.
    Whole(PieceKind),
    Word,
    Decimal,
    /// The `$` of a parameter.
    Dollar,
    Parameter,
    /// A sized number up to its `'`.
    Apostrophe,
    /// A sized number up to its base.
    Base,
    /// A sized number, up to one of its digits.
    Digits,
    /// Quoted text, whose end is to come.
    Quoted,
    /// Quoted text, up to a backslash that takes the next byte.
    Backslash,
    /// A `/`.
    Slash,
    /// A comment that begins with `//`.
    Line,
    /// A comment that begins with `/*`, whose end is to come.
    Block,
    /// The same, and its last byte is a `*`.
    Star,
    /// What is no piece, and no byte makes it one.
    Dead,
}

/// The state where the test holds, and else none that leads to a piece.
fn state_if(test: bool, state: State) -> State
    ensures { (bs : List ℕ) → kind_from result bs ≡ cond test (kind_from state bs) None }
{
    if test { state } else { State::Dead }
}

/// The state after the first byte of a piece.
#[inline]
pub(crate) fn begin(b: u8) -> State
    ensures { (bs : List ℕ) → kind_from result bs ≡ kind_of (b ∷ bs) }
{
    if is_blank(b) {
        State::Whole(PieceKind::Gap)
    } else if begins_name(b) {
        State::Word
    } else if b.is_ascii_digit() {
        State::Decimal
    } else {
        begin_other(b)
    }
}

/// The same, where the byte begins no gap, word or decimal.
fn begin_other(b: u8) -> State
    ensures { (bs : List ℕ) → kind_from result bs ≡ kind_of_other b bs }
{
    match b {
        b'$' => State::Dollar,
        b'\'' => State::Apostrophe,
        b'"' => State::Quoted,
        b'/' => State::Slash,
        _ => state_if(is_mark(b), State::Whole(PieceKind::Is(TokenKind::Mark))),
    }
}

/// The state after a byte that may go on a decimal or a parameter.
fn after_size_byte(in_class: bool, state: State, b: u8) -> State
    ensures { (bs : List ℕ)
        → kind_from result bs ≡ cond in_class (kind_from state bs) (cond (b == 39) (base bs) None) }
{
    if in_class {
        state
    } else {
        state_if(b == b'\'', State::Apostrophe)
    }
}

/// The state after a byte of quoted text.
fn after_quoted_byte(b: u8) -> State
    ensures { (bs : List ℕ) → kind_from result bs ≡ quoted false (b ∷ bs) }
{
    match b {
        b'"' => State::Whole(PieceKind::Is(TokenKind::Quoted)),
        b'\\' => State::Backslash,
        _ => State::Quoted,
    }
}

/// The state after the byte after a `/`.
fn after_slash(b: u8) -> State
    ensures { (bs : List ℕ) → kind_from result bs ≡ slash (b ∷ bs) }
{
    match b {
        b'/' => State::Line,
        b'*' => State::Block,
        _ => State::Dead,
    }
}

/// The state after a byte of a comment that doesn't end it.
fn after_comment_byte(b: u8) -> State
    ensures { (bs : List ℕ) → kind_from result bs ≡ block (b == 42) bs }
{
    if b == b'*' { State::Star } else { State::Block }
}

/// The state after a byte of a comment after a `*` of it.
fn after_star(b: u8) -> State
    ensures { (bs : List ℕ) → kind_from result bs ≡ block true (b ∷ bs) }
{
    if b == b'/' {
        State::Whole(PieceKind::Gap)
    } else {
        after_comment_byte(b)
    }
}

impl State {
    /// The state after one more byte.
    pub fn next(self, b: u8) -> State
        ensures { (bs : List ℕ) → kind_from result bs ≡ kind_from self (b ∷ bs) }
    {
        match self {
            State::Start => begin(b),
            State::Word => state_if(in_name(b), State::Word),
            State::Decimal => after_size_byte(in_decimal(b), State::Decimal, b),
            State::Dollar => state_if(begins_name(b), State::Parameter),
            State::Parameter => after_size_byte(in_name(b), State::Parameter, b),
            State::Apostrophe => state_if(is_base(b), State::Base),
            State::Base => state_if(is_digit_x(b), State::Digits),
            State::Digits => state_if(in_digits(b), State::Digits),
            State::Quoted => after_quoted_byte(b),
            State::Backslash => State::Quoted,
            State::Slash => after_slash(b),
            State::Line => state_if(b != b'\n', State::Line),
            State::Block => after_comment_byte(b),
            State::Star => after_star(b),
            State::Whole(_) => State::Dead,
            State::Dead => State::Dead,
        }
    }

    /// What was read, if it is a piece.
    pub fn kind(self) -> Option<PieceKind>
        ensures { result ≡ kind_from self [] }
    {
        match self {
            State::Whole(kind) => Some(kind),
            State::Word => Some(PieceKind::Is(TokenKind::Word)),
            State::Decimal => Some(PieceKind::Is(TokenKind::Decimal)),
            State::Parameter => Some(PieceKind::Is(TokenKind::Param)),
            State::Digits => Some(PieceKind::Is(TokenKind::Sized)),
            State::Slash => Some(PieceKind::Is(TokenKind::Mark)),
            State::Line => Some(PieceKind::Gap),
            _ => None,
        }
    }

    /// Whether no byte leads to a piece.
    pub fn is_dead(self) -> bool
        ensures only { result ≡ true → (bs : List ℕ) → kind_from self bs ≡ None }
        ensures dead { self ≡ State.Dead → result ≡ true }
    {
        matches!(self, State::Dead)
    }
}
