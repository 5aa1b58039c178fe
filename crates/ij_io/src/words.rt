// Words, numbers and bits in one call.
ghost use Rattle.std.specs.Prelude.{OnOk, OnErr};
ghost use Rattle.ij_io.specs.Bytes.{Adds, AddsPart};
ghost use Rattle.ij_io.specs.Causes.{HasCause};
ghost use Rattle.ij_io.specs.Words.{word_text, words_text};

use crate::decimal::put_decimal;
use crate::hex::put_hex;
use crate::{Sink, StoreFault};
use ij_bits::Bits;

/// A word of a written line.
#[derive(Clone, Copy)]
pub enum Word<'a> {
    /// These bytes.
    Text(&'a [u8]),
    /// A number in decimal digits, the highest first.
    Number(u64),
    /// Bits in hexadecimal digits, as [`put_hex`](crate::put_hex) writes them.
    Hex(&'a Bits),
}

/// Writes a word.
fn put_word<K: Sink>(k: &mut K, word: &Word<'_>) -> Result<(), StoreFault>
    ensures whole { OnOk result (Adds (K.taken k.old) (K.taken k.new) (word_text word.now)) }
    ensures part { OnErr result (AddsPart (K.taken k.old) (K.taken k.new) (word_text word.now)) }
    ensures cause { HasCause (K.faults k.old) (K.faults k.new) result StoreFault.Failed }
{
    match word {
        Word::Text(bytes) => k.write(bytes),
        Word::Number(n) => put_decimal(*n, k),
        Word::Hex(bits) => put_hex(bits, k),
    }
}

/// Writes the words one after the other, first to last, with nothing between them. It takes no memory of its
/// own.
///
/// # Errors
///
/// The sink's, at the first write that it refuses. Then some first bytes of the text of all the words were
/// added.
#[tactic(auto, unfolding(crate::specs::Words::words_text))]
pub fn put_words<K: Sink>(k: &mut K, words: &[Word<'_>]) -> Result<(), StoreFault>
    ensures whole { OnOk result (Adds (K.taken k.old) (K.taken k.new) (words_text words.now)) }
    ensures part { OnErr result (AddsPart (K.taken k.old) (K.taken k.new) (words_text words.now)) }
    ensures cause { HasCause (K.faults k.old) (K.faults k.new) result StoreFault.Failed }
{
    for word in words {
        put_word(k, word)?;
    }
    Ok(())
}
