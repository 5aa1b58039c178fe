// Tokens with their texts.
ghost use Rattle.std.specs.Prelude.{◌≡◌, true, false};
ghost use Rattle.icl_lexer.specs.Seen.{if_word, is_mark, is_word};
ghost use Rattle.icl_lexer.specs.Lexemes.{tok};

use crate::token::TokenKind;
use ij_text::Place;

/// A token with its text.
#[derive(Clone, Copy, Debug, Drop)]
pub struct Lexeme<'a> {
    /// What the token is.
    pub kind: TokenKind,
    /// The place of its first byte.
    pub at: Place,
    /// Its bytes in the source.
    pub text: &'a [u8],
}

impl<'a> Lexeme<'a> {
    /// Whether the token is this mark.
    pub fn is_mark(&self, mark: u8) -> bool
        ensures { result ≡ is_mark mark (tok self.now) }
    {
        match (self.kind, self.text) {
            (TokenKind::Mark, [b]) => *b == mark,
            _ => false,
        }
    }

    /// Whether the token is this word.
    pub fn is_word(&self, word: &[u8]) -> bool
        ensures { result ≡ is_word word.now (tok self.now) }
    {
        match self.kind {
            TokenKind::Word => self.text == word,
            _ => false,
        }
    }

    /// Whether the token is a word, a keyword included.
    pub fn is_name(&self) -> bool
        ensures { result ≡ if_word self.now.kind true false }
    {
        match self.kind {
            TokenKind::Word => true,
            _ => false,
        }
    }
}
