// What the tokens and the pieces of a text are.

/// What a token of ICL is (IEEE 1687-2014).
#[derive(Clone, Copy, PartialEq, Eq, Debug)]
pub enum TokenKind {
    /// A letter or `_`, and then letters, digits and `_`. Case counts. The keywords are words.
    Word,
    /// A digit, and then digits and `_`.
    Decimal,
    /// A number with a base, as `8'hFF`: a size, which is a decimal or a parameter and may be absent, a `'`,
    /// a letter for the base, and digits. Any hexadecimal digit, x and `_` may be a digit, whatever the base,
    /// the first being no `_`.
    Sized,
    /// Text between two `"`, these included. In it a backslash takes a `"` or a backslash that follows it.
    Quoted,
    /// A `$` and a word: the value of a parameter.
    Param,
    /// One of `{ } ( ) [ ] ; : , . = ~ | + - * / %`.
    Mark,
}

/// What a piece of a text is: a gap, so one blank or one comment, or a token.
#[derive(Clone, Copy, PartialEq, Eq, Debug)]
pub enum PieceKind {
    /// A space, a tab, a carriage return, a line feed or a comment.
    Gap,
    /// A token of this kind.
    Is(TokenKind),
}
