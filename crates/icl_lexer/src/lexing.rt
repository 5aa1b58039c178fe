// Whole texts.
ghost use Rattle.std.specs.Prelude.{◌≡◌, ◌≤◌, length, IsOk, IfOk, IfErr, IsErrOf};
ghost use Rattle.icl_lexer.specs.Cutting.{AreTokens, HasFault, Tokens, fault_of};
ghost use Rattle.icl_lexer.specs.Seen.{HasTokens, seen_tokens};
ghost use Rattle.icl_lexer.specs.Answers.{Gives, count_of};

use crate::cursor::{Cursor, cursor_at};
use crate::fault::LexFault;
use crate::pieces::{first_piece, opens_block};
use crate::token::PieceKind;
use ij_text::{Place, place_at};

/// The fault of a text that begins with no piece.
fn fault_at(text: &[u8], at: Place) -> LexFault
    ensures { result ≡ fault_of text.now at }
{
    if opens_block(text) {
        return LexFault::OpenComment { at };
    }
    match text {
        [b'"', ..] => LexFault::OpenText { at },
        _ => LexFault::BadByte { at },
    }
}

/// How many tokens a piece is: one, or none.
fn count_of(kind: PieceKind) -> usize
    ensures { result ≡ count_of kind }
{
    match kind {
        PieceKind::Is(_) => 1,
        PieceKind::Gap => 0,
    }
}

/// How many tokens a text has, or its first fault.
fn count(src: &[u8]) -> Result<usize, LexFault>
    requires { length src.now ≤ 134217728 }
    ensures { Gives src.now result }
{
    let mut count = 0;
    let mut start = 0;
    while start < src.len() {
        let rest = &src[start..];
        let Some(found) = first_piece(rest) else {
            return Err(fault_at(rest, place_at(src, start)));
        };
        count += count_of(found.kind);
        start += found.len;
    }
    Ok(count)
}

/// Cuts a text of ICL (IEEE 1687-2014) into tokens, which are read one after the other.
///
/// Between two tokens there may be gaps: spaces, tabs, line ends, comments from `//` to the end of the line,
/// and comments from `/*` to the next `*/`, which don't nest. Each token and each gap is the longest that
/// begins at its place, and a `/` that another `/` or a `*` follows is no mark. A carriage return counts as a
/// space.
///
/// The first fault of the text is answered: `BadByte` where a byte begins no token and no gap, `OpenComment`
/// where a comment that begins with `/*` has no end, and `OpenText` where quoted text has none. Each has the
/// place where the byte is, or the comment or the text begins. Takes no memory: the text is gone through
/// once for its faults, and then a token is cut when it is reached.
///
/// The text has at most 134,217,728 bytes; a longer one must not be given. An ICL file may have 16,777,216.
pub fn lex<'a>(src: &'a [u8]) -> Result<Cursor<'a>, LexFault>
    requires { length src.now ≤ 134217728 }
    ensures tokens { IfOk result (λ cursor. HasTokens src.now cursor) }
    ensures only { (tokens : Tokens) → AreTokens src.now tokens
        → IfOk result (λ cursor. cursor ≡ seen_tokens src.now tokens) }
    ensures accepted { (tokens : Tokens) → AreTokens src.now tokens → IsOk result }
    ensures fault { IfErr result (λ fault. HasFault src.now fault) }
    ensures refused { (fault : LexFault) → HasFault src.now fault → IsErrOf result fault }
{
    let count = count(src)?;
    Ok(cursor_at(src, Place { line: 1, col: 1 }, count))
}
