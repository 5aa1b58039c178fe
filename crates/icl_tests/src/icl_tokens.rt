// ICL texts, and the tokens that they have.

use crate::texts::Shown;
use icl_lexer::{Cursor, Lexeme, TokenKind, lex};
use ij_io::Word;
use std::alloc::Global;

fn name_of_kind(kind: TokenKind) -> &'static [u8] {
    match kind {
        TokenKind::Word => b"Word ",
        TokenKind::Decimal => b"Decimal ",
        TokenKind::Sized => b"Sized ",
        TokenKind::Quoted => b"Quoted ",
        TokenKind::Param => b"Param ",
        TokenKind::Mark => b"Mark ",
    }
}

/// A token by its kind, its place, and its bytes.
fn show_token(shown: &mut Shown, token: &Lexeme<'_>) {
    shown.gap();
    shown.number(name_of_kind(token.kind), token.at.line);
    shown.number(b":", token.at.col);
    shown.put(&[Word::Text(b" "), Word::Text(token.text)]);
}

/// The tokens, as many as are counted.
fn show_tokens(shown: &mut Shown, tokens: Cursor<'_>) {
    let mut tokens = tokens;
    for _ in 0..tokens.len() {
        let Some((token, after)) = tokens.next() else {
            shown.text(b" a token is missing");
            return;
        };
        show_token(shown, &token);
        tokens = after;
    }
    if !tokens.is_empty() {
        shown.text(b" there are more tokens than were counted");
    }
}

/// The tokens of a text.
fn tokens_of(alloc: Global, text: &[u8]) -> Shown {
    let mut shown = Shown::new(alloc);
    if text.len() <= 1000 {
        match lex(text) {
            Ok(tokens) => show_tokens(&mut shown, tokens),
            Err(_) => shown.text(b"not cut"),
        }
    } else {
        shown.text(b"too long");
    }
    shown
}

const TOKENS: [(&str, &str); 6] = [
    ("", ""),
    (
        "Ab_1\t\r\n /*\n*/ $b1 1_0// c\n 4'b0 \"\\\"\"/",
        "Word 1:1 Ab_1 Param 3:4 $b1 Decimal 3:8 1_0 Sized 4:2 4'b0 Quoted 4:7 \"\\\"\" Mark 4:11 /",
    ),
    ("$W'b0$W", "Sized 1:1 $W'b0 Param 1:6 $W"),
    ("4'bxyz", "Sized 1:1 4'bx Word 1:5 yz"),
    ("/* a /* b */ c */", "Word 1:14 c Mark 1:16 * Mark 1:17 /"),
    ("/***/a/**/", "Word 1:6 a"),
];

#[test]
fn texts_have_tokens(rt: HostRuntime) {
    for (text, wanted) in &TOKENS {
        tokens_of(rt.alloc(), text.as_bytes()).check(&rt, text, wanted);
    }
}
