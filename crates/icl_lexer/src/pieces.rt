// The piece at the front of a text.
ghost use Rattle.std.specs.Prelude.{◌≡◌, ◌≤◌, length, IfSome, IfNone};
ghost use Rattle.ij_text.specs.Words.{in_name};
ghost use Rattle.icl_lexer.specs.Cutting.{IsPiece, NoPiece, opens_block, opens_comment};
ghost use Rattle.icl_lexer.specs.Matches.{longest_match, longer, run_len};

use crate::state::{State, begin};
use crate::token::{PieceKind, TokenKind};
use ij_text::{begins_name, in_name, is_blank};

/// This many bytes at the front of a text are a piece.
#[derive(Clone, Copy)]
pub(crate) struct Match {
    pub kind: PieceKind,
    pub len: usize,
}

/// Whether the text begins with `/*`.
pub(crate) fn opens_block(text: &[u8]) -> bool
    ensures { result ≡ opens_block text.now }
{
    matches!(text, [b'/', b'*', ..])
}

/// Whether the text begins with `//` or `/*`.
fn opens_comment(text: &[u8]) -> bool
    ensures { result ≡ opens_comment text.now }
{
    matches!(text, [b'/', b'/' | b'*', ..])
}

/// The longer match, where there is one.
fn longer(found: Option<Match>, kind: Option<PieceKind>, len: usize) -> Option<Match>
    ensures { result ≡ longer found kind len }
{
    match kind {
        Some(kind) => Some(Match { kind, len }),
        None => found,
    }
}

/// The longest piece with which a text begins, if there is one. A `/` is one, whatever follows.
fn longest_match(text: &[u8]) -> Option<Match>
    ensures { result ≡ longest_match text.now (length text.now) }
{
    let mut state = State::Start;
    let mut found = None;
    let mut n = 0;
    while n < text.len() && !state.is_dead() {
        state = state.next(text[n]);
        n += 1;
        found = longer(found, state.kind(), n);
    }
    found
}

/// How many bytes at the front of a text are bytes of a name.
#[inline]
fn name_len(text: &[u8]) -> usize
    ensures counted { result ≡ run_len in_name text.now }
    ensures within { result ≤ length text.now }
{
    let mut n = 0;
    while n < text.len() && in_name(text[n]) {
        n += 1;
    }
    n
}

/// The piece with which a text begins, where its first byte tells it: a blank, a word, or a mark that is no
/// `/`.
#[inline]
fn short_piece(text: &[u8]) -> Option<Match>
    ensures { IfSome result (λ p. IsPiece text.now p.kind p.len) }
{
    let [b, rest @ ..] = text else {
        return None;
    };
    if is_blank(*b) {
        return Some(Match {
            kind: PieceKind::Gap,
            len: 1,
        });
    }
    if begins_name(*b) {
        return Some(Match {
            kind: PieceKind::Is(TokenKind::Word),
            len: 1 + name_len(rest),
        });
    }
    match begin(*b) {
        State::Whole(kind) => Some(Match { kind, len: 1 }),
        _ => None,
    }
}

/// The piece with which a text begins, if there is one.
pub(crate) fn first_piece(text: &[u8]) -> Option<Match>
    ensures some { IfSome result (λ p. IsPiece text.now p.kind p.len) }
    ensures none { IfNone result (NoPiece text.now) }
{
    if let Some(found) = short_piece(text) {
        return Some(found);
    }
    let found = longest_match(text)?;
    if found.len == 1 && opens_comment(text) {
        return None;
    }
    Some(found)
}
