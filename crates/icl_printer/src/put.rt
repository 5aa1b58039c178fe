// What can be written, and lists of it.
ghost use Rattle.std.specs.Prelude.{List, [], ◌∷◌, OnOk, OnErr, map};
ghost use Rattle.ij_io.specs.Bytes.{Adds, AddsPart};
ghost use Rattle.ij_io.specs.Causes.{HasCause};
ghost use Rattle.std.specs.Option.{option_map};
ghost use Rattle.icl_printer.specs.Layout.{Spelling, word, mark, layout};
ghost use Rattle.icl_printer.specs.Canonical.{in_turn, after, separated, braced, if_there, mark_if};

use crate::token::{Piece, put_tokens};
use ij_bits::List;
use ij_io::{Sink, StoreFault};

/// A part of a design that can be written.
pub(crate) trait Put {
    /// The part without where it lies in memory.
    ghost Plain: { Type 0 };

    ghost view: { Self → Plain };

    /// The tokens that are written.
    ghost tokens: { Plain → List Spelling };

    /// Writes the part's tokens, each with the blank after it.
    fn put<K: Sink>(&self, k: &mut K) -> Result<(), StoreFault>
        ensures whole { OnOk result (Adds (K.taken k.old) (K.taken k.new) (layout (tokens (view self.now)))) }
        ensures part { OnErr result
            (AddsPart (K.taken k.old) (K.taken k.new) (layout (tokens (view self.now)))) }
        ensures cause { HasCause (K.faults k.old) (K.faults k.new) result StoreFault.Failed };
}

/// Writes parts one after the other.
pub(crate) fn put_all<T: Put, K: Sink>(parts: &List<T>, k: &mut K) -> Result<(), StoreFault>
    ensures whole { OnOk result
        (Adds (K.taken k.old) (K.taken k.new) (layout (in_turn T.tokens (map T.view parts.now.items)))) }
    ensures part { OnErr result
        (AddsPart (K.taken k.old) (K.taken k.new) (layout (in_turn T.tokens (map T.view parts.now.items)))) }
    ensures cause { HasCause (K.faults k.old) (K.faults k.new) result StoreFault.Failed }
{
    for part in parts.as_slice() {
        part.put(k)?;
    }
    Ok(())
}

/// Writes parts, each after a mark.
fn put_each_after<T: Put, K: Sink>(mark: u8, parts: &[T], k: &mut K) -> Result<(), StoreFault>
    ensures whole { OnOk result (Adds (K.taken k.old) (K.taken k.new)
        (layout (in_turn (after mark T.tokens) (map T.view parts.now)))) }
    ensures part { OnErr result (AddsPart (K.taken k.old) (K.taken k.new)
        (layout (in_turn (after mark T.tokens) (map T.view parts.now)))) }
    ensures cause { HasCause (K.faults k.old) (K.faults k.new) result StoreFault.Failed }
{
    for part in parts {
        put_after(mark, part, k)?;
    }
    Ok(())
}

/// Writes a mark and a part after it.
pub(crate) fn put_after<T: Put, K: Sink>(mark: u8, part: &T, k: &mut K) -> Result<(), StoreFault>
    ensures whole { OnOk result
        (Adds (K.taken k.old) (K.taken k.new) (layout (after mark T.tokens (T.view part.now)))) }
    ensures part { OnErr result
        (AddsPart (K.taken k.old) (K.taken k.new) (layout (after mark T.tokens (T.view part.now)))) }
    ensures cause { HasCause (K.faults k.old) (K.faults k.new) result StoreFault.Failed }
{
    put_tokens(&[Piece::Mark(mark)], k)?;
    part.put(k)?;
    Ok(())
}

/// Writes parts with a mark between two.
pub(crate) fn put_separated<T: Put, K: Sink>(
    mark: u8,
    parts: &[T],
    k: &mut K,
) -> Result<(), StoreFault>
    ensures whole { OnOk result
        (Adds (K.taken k.old) (K.taken k.new) (layout (separated mark T.tokens (map T.view parts.now)))) }
    ensures part { OnErr result
        (AddsPart (K.taken k.old) (K.taken k.new) (layout (separated mark T.tokens (map T.view parts.now)))) }
    ensures cause { HasCause (K.faults k.old) (K.faults k.new) result StoreFault.Failed }
{
    if let [first, rest @ ..] = parts {
        first.put(k)?;
        put_each_after(mark, rest, k)?;
    }
    Ok(())
}

/// Writes parts in braces, or `;` where there is none.
pub(crate) fn put_braced<T: Put, K: Sink>(parts: &List<T>, k: &mut K) -> Result<(), StoreFault>
    ensures whole { OnOk result
        (Adds (K.taken k.old) (K.taken k.new) (layout (braced T.tokens (map T.view parts.now.items)))) }
    ensures part { OnErr result
        (AddsPart (K.taken k.old) (K.taken k.new) (layout (braced T.tokens (map T.view parts.now.items)))) }
    ensures cause { HasCause (K.faults k.old) (K.faults k.new) result StoreFault.Failed }
{
    if parts.is_empty() {
        put_tokens(&[Piece::Mark(b';')], k)?;
    } else {
        put_tokens(&[Piece::Mark(b'{')], k)?;
        put_all(parts, k)?;
        put_tokens(&[Piece::Mark(b'}')], k)?;
    }
    Ok(())
}

/// Writes a part that may be absent after a mark.
pub(crate) fn put_if_there_after<T: Put, K: Sink>(
    mark: u8,
    part: &Option<T>,
    k: &mut K,
) -> Result<(), StoreFault>
    ensures whole { OnOk result (Adds (K.taken k.old) (K.taken k.new)
        (layout (if_there (after mark T.tokens) (option_map T.view part.now)))) }
    ensures part { OnErr result (AddsPart (K.taken k.old) (K.taken k.new)
        (layout (if_there (after mark T.tokens) (option_map T.view part.now)))) }
    ensures cause { HasCause (K.faults k.old) (K.faults k.new) result StoreFault.Failed }
{
    match part {
        None => {}
        Some(part) => put_after(mark, part, k)?,
    }
    Ok(())
}

/// Writes a mark if it is wanted.
pub(crate) fn put_mark_if<K: Sink>(wanted: bool, mark: u8, k: &mut K) -> Result<(), StoreFault>
    ensures whole { OnOk result (Adds (K.taken k.old) (K.taken k.new) (layout (mark_if wanted mark))) }
    ensures part { OnErr result (AddsPart (K.taken k.old) (K.taken k.new) (layout (mark_if wanted mark))) }
    ensures cause { HasCause (K.faults k.old) (K.faults k.new) result StoreFault.Failed }
{
    if wanted {
        put_tokens(&[Piece::Mark(mark)], k)?;
    }
    Ok(())
}

/// A part that may be absent.
impl<T: Put> Put for Option<T> {
    ghost use Rattle.std.specs.Prelude.{Option};
    ghost use Rattle.std.specs.Option.{option_map};
    ghost use Rattle.icl_printer.specs.Canonical.{if_there};

    ghost Plain = { Option T.Plain };

    ghost view = { option_map T.view };

    ghost tokens = { if_there T.tokens };

    fn put<K: Sink>(&self, k: &mut K) -> Result<(), StoreFault> {
        match self {
            None => {}
            Some(part) => part.put(k)?,
        }
        Ok(())
    }
}

/// Writes a word and a space.
pub(crate) fn put_word<K: Sink>(text: &[u8], k: &mut K) -> Result<(), StoreFault>
    ensures whole { OnOk result (Adds (K.taken k.old) (K.taken k.new) (layout (word text.now ∷ []))) }
    ensures part { OnErr result (AddsPart (K.taken k.old) (K.taken k.new) (layout (word text.now ∷ []))) }
    ensures cause { HasCause (K.faults k.old) (K.faults k.new) result StoreFault.Failed }
{
    put_tokens(&[Piece::Word(text)], k)?;
    Ok(())
}
