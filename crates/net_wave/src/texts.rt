// Pieces of text.
ghost use Rattle.std.specs.Prelude.{◌≡◌, ◌++◌, OnOk};
ghost use Rattle.ij_io.specs.Words.{words_text};

use ij_bits::OutOfMemory;
use ij_io::{Sink, SureSink, Word, put_words};

/// Adds some bytes to a piece of a text.
pub(crate) fn add(bytes: &[u8], piece: &mut SureSink) -> Result<(), OutOfMemory>
    ensures { OnOk result (piece.new ≡ piece.old ++ bytes.now) }
{
    match piece.write(bytes) {
        Ok(()) => Ok(()),
        Err(_) => Err(OutOfMemory),
    }
}

/// Adds some words to a piece of a text.
pub(crate) fn add_words(words: &[Word<'_>], piece: &mut SureSink) -> Result<(), OutOfMemory>
    ensures { OnOk result (piece.new ≡ piece.old ++ words_text words.now) }
{
    match put_words(piece, words) {
        Ok(()) => Ok(()),
        Err(_) => Err(OutOfMemory),
    }
}
