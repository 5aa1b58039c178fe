// Single tokens, each with the blank after it.
ghost use Rattle.std.specs.Prelude.{◌≡◌, OnOk, OnErr, map};
ghost use Rattle.ij_io.specs.Bytes.{Adds, AddsPart};
ghost use Rattle.ij_io.specs.Causes.{HasCause};
ghost use Rattle.icl_printer.specs.Layout.{layout, gap_after, with_blank};
ghost use Rattle.icl_printer.specs.Pieces.{spelled};

use icl_lexer::SmallText;
use ij_io::{Sink, StoreFault, Word, put_words};

/// A token to be written.
#[derive(Clone, Copy)]
pub(crate) enum Piece<'a> {
    /// A word of the grammar.
    Word(&'a [u8]),
    Name(&'a SmallText),
    Mark(u8),
    Decimal(u32),
    /// A sized number, the bytes of its token.
    Sized(&'a SmallText),
    /// A text, without its quotes.
    Quoted(&'a SmallText),
    /// A parameter, without its `$`.
    Param(&'a SmallText),
}

/// The blank after a mark: a line end after `;`, `{` and `}`, and a space after any other.
fn gap_after(mark: u8) -> u8
    ensures { result ≡ gap_after mark }
{
    match mark {
        b';' | b'{' | b'}' => b'\n',
        _ => b' ',
    }
}

/// Writes a token and the blank after it.
#[tactic(auto, unfolding(ij_io::specs::Words::words_text))]
fn put_token<K: Sink>(piece: &Piece, k: &mut K) -> Result<(), StoreFault>
    ensures whole { OnOk result (Adds (K.taken k.old) (K.taken k.new) (with_blank (spelled piece.now))) }
    ensures part { OnErr result (AddsPart (K.taken k.old) (K.taken k.new) (with_blank (spelled piece.now))) }
    ensures cause { HasCause (K.faults k.old) (K.faults k.new) result StoreFault.Failed }
{
    match piece {
        Piece::Word(word) => put_words(k, &[Word::Text(word), Word::Text(b" ")]),
        Piece::Name(name) => put_words(k, &[Word::Text(name.as_slice()), Word::Text(b" ")]),
        Piece::Mark(mark) => k.write(&[*mark, gap_after(*mark)]),
        Piece::Decimal(n) => put_words(k, &[Word::Number(u64::from(*n)), Word::Text(b" ")]),
        Piece::Sized(text) => put_words(k, &[Word::Text(text.as_slice()), Word::Text(b" ")]),
        Piece::Quoted(text) => put_words(
            k,
            &[
                Word::Text(b"\""),
                Word::Text(text.as_slice()),
                Word::Text(b"\" "),
            ],
        ),
        Piece::Param(name) => put_words(
            k,
            &[
                Word::Text(b"$"),
                Word::Text(name.as_slice()),
                Word::Text(b" "),
            ],
        ),
    }
}

/// Writes tokens, each with the blank after it.
pub(crate) fn put_tokens<K: Sink>(pieces: &[Piece], k: &mut K) -> Result<(), StoreFault>
    ensures whole { OnOk result (Adds (K.taken k.old) (K.taken k.new) (layout (map spelled pieces.now))) }
    ensures part { OnErr result (AddsPart (K.taken k.old) (K.taken k.new) (layout (map spelled pieces.now))) }
    ensures cause { HasCause (K.faults k.old) (K.faults k.new) result StoreFault.Failed }
{
    for piece in pieces {
        put_token(piece, k)?;
    }
    Ok(())
}
