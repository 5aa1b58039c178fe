// The tokens of a text, one after the other.
ghost use Rattle.std.specs.Prelude.{◌≡◌, ◌↔◌, ◌<◌, [], length, IsTrue};
ghost use Rattle.std.specs.Option.{option_map};
ghost use Rattle.icl_lexer.specs.Seen.{first_of, tokens_in};
ghost use Rattle.icl_lexer.specs.Lexemes.{HasPlaces, seen_next, tok};

use crate::lexeme::Lexeme;
use crate::pieces::first_piece;
use crate::token::{PieceKind, TokenKind};
use ij_text::{Place, place_after};
use std::marker::Model;

/// The tokens of a text from one of them on, each cut when it is reached. Takes no memory.
///
/// Contracts see the list of the tokens, each with its kind, its place and its bytes.
#[derive(Drop)]
pub struct Cursor<'a> {
    /// What the next token is; nothing where there is none.
    kind: Option<TokenKind>,
    /// Its place.
    at: Place,
    /// Its bytes.
    text: &'a [u8],
    /// The text after it.
    after: &'a [u8],
    /// How many tokens there are, this one included.
    left: usize,
}

impl<'a> Model for Cursor<'a> {
    ghost use Rattle.std.specs.Prelude.{◌≡◌, ◌+◌, List, length};
    ghost use Rattle.icl_lexer.specs.Seen.{SeenToken};
    ghost use Rattle.icl_lexer.specs.Lexemes.{HasPlaces, tokens_at_hand};

    ghost Value = { List SeenToken };

    ghost view = { λ c. tokens_at_hand c.kind c.at c.text.now c.after.now };

    ghost invariant = { λ c. (c.left ≡ length (tokens_at_hand c.kind c.at c.text.now c.after.now))
        × HasPlaces c.at (length c.text.now + length c.after.now) };
}

/// The tokens of a text that is at a place, of which there are this many.
pub(crate) fn cursor_at<'a>(text: &'a [u8], at: Place, left: usize) -> Cursor<'a>
    requires places { HasPlaces at (length text.now) }
    requires counted { left ≡ length (tokens_in text.now at) }
    ensures { result ≡ tokens_in text.now at }
{
    let mut rest = text;
    let mut at = at;
    while let Some(found) = first_piece(rest) {
        let text = &rest[..found.len];
        let after = &rest[found.len..];
        if let PieceKind::Is(kind) = found.kind {
            return Cursor {
                kind: Some(kind),
                at,
                text,
                after,
                left,
            };
        }
        at = place_after(at, text);
        rest = after;
    }
    Cursor {
        kind: None,
        at,
        text: &rest[..0],
        after: rest,
        left,
    }
}

impl<'a> Cursor<'a> {
    /// How many tokens there are.
    pub fn len(&self) -> usize
        ensures { result ≡ length self.now }
    {
        self.left
    }

    /// Whether there is none.
    pub fn is_empty(&self) -> bool
        ensures { IsTrue result ↔ (self.now ≡ []) }
    {
        self.kind.is_none()
    }

    /// The next token.
    pub fn first(&self) -> Option<Lexeme<'a>>
        ensures { option_map tok result ≡ first_of self.now }
    {
        let kind = self.kind?;
        Some(Lexeme {
            kind,
            at: self.at,
            text: self.text,
        })
    }

    /// The next token, and those after it.
    pub fn next(self) -> Option<(Lexeme<'a>, Cursor<'a>)>
        ensures { seen_next result ≡ self.entry }
    {
        let first = self.first()?;
        let after = cursor_at(self.after, place_after(self.at, self.text), self.left - 1);
        Some((first, after))
    }

    /// The same tokens once more.
    pub fn again(&self) -> Cursor<'a>
        ensures { result ≡ self.now }
    {
        Cursor {
            kind: self.kind,
            at: self.at,
            text: self.text,
            after: self.after,
            left: self.left,
        }
    }
}
