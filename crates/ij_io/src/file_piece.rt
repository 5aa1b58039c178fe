// A text that goes into a file piece by piece.
ghost use Rattle.std.specs.Prelude.{◌≡◌, OnOk, OnErr, IfOk};
ghost use Rattle.ij_io.specs.Causes.{HasCauseAt, SameCounts};
ghost use Rattle.ij_io.specs.Files.{OthersStay, told_bytes};
ghost use Rattle.ij_io.specs.Pieces.{HoldsFront, IsThere, with_piece};

use crate::{Shelf, StoreFault, SureSink};
use std::alloc::Global;

/// A piece of this many bytes goes to the file.
const LONG: usize = 65536;

/// Adds a piece of a text at the end of its file.
///
/// # Errors
///
/// - `Failed`: the shelf could not take the piece, and its count of failed stores under this name rose.
/// - `OutOfMemory`: the shelf had no memory for it.
///
/// After any refusal the file holds some first bytes of the text. Other files and the counts of failed loads
/// stay.
pub fn put_piece<S: Shelf>(name: &str, piece: &SureSink, shelf: &mut S) -> Result<(), StoreFault>
    ensures there { OnOk result (IsThere (S.files shelf.new) name.now) }
    ensures whole { OnOk result
        (told_bytes (S.files shelf.new) name.now ≡ with_piece (S.files shelf.old) name.now piece.now) }
    ensures part { OnErr result (IsThere (S.files shelf.old) name.now
        → HoldsFront (S.files shelf.new) name.now (with_piece (S.files shelf.old) name.now piece.now)) }
    ensures others { OthersStay (S.files shelf.old) (S.files shelf.new) name.now }
    ensures cause { HasCauseAt name.now (S.store_faults shelf.old)
        (S.store_faults shelf.new) result StoreFault.Failed }
    ensures loads { SameCounts (S.load_faults shelf.old) (S.load_faults shelf.new) }
{
    shelf.append(name, piece.bytes())
}

/// Adds the last piece of a text at the end of its file, and finishes the file.
///
/// # Errors
///
/// - `Failed`: the shelf could not take the piece or keep the file, and its count of failed stores under this
///   name rose.
/// - `OutOfMemory`: the shelf had no memory for it.
///
/// After any refusal the file holds some first bytes of the text, or all of it. Other files and the counts of
/// failed loads stay.
pub fn put_last_piece<S: Shelf>(
    name: &str,
    piece: &SureSink,
    shelf: &mut S,
) -> Result<(), StoreFault>
    ensures there { OnOk result (IsThere (S.files shelf.new) name.now) }
    ensures whole { OnOk result
        (told_bytes (S.files shelf.new) name.now ≡ with_piece (S.files shelf.old) name.now piece.now) }
    ensures part { OnErr result (IsThere (S.files shelf.old) name.now
        → HoldsFront (S.files shelf.new) name.now (with_piece (S.files shelf.old) name.now piece.now)) }
    ensures others { OthersStay (S.files shelf.old) (S.files shelf.new) name.now }
    ensures cause { HasCauseAt name.now (S.store_faults shelf.old)
        (S.store_faults shelf.new) result StoreFault.Failed }
    ensures loads { SameCounts (S.load_faults shelf.old) (S.load_faults shelf.new) }
{
    put_piece(name, piece, shelf)?;
    shelf.finish(name)
}

/// The piece of a text that is to grow further: the one that is handed in, or, where that has 65,536 bytes or
/// more, an empty one after it went to the file. So no more than a piece of the text is kept. The file has
/// been begun before.
///
/// # Errors
///
/// Those of [`put_piece`].
pub fn store_full_piece<S: Shelf>(
    alloc: Global,
    name: &str,
    piece: SureSink,
    shelf: &mut S,
) -> Result<SureSink, StoreFault>
    requires there { IsThere (S.files shelf.old) name.now }
    ensures there { OnOk result (IsThere (S.files shelf.new) name.now) }
    ensures whole { IfOk result (λ next. with_piece (S.files shelf.new) name.now next
        ≡ with_piece (S.files shelf.old) name.now piece) }
    ensures part { OnErr result
        (HoldsFront (S.files shelf.new) name.now (with_piece (S.files shelf.old) name.now piece)) }
    ensures others { OthersStay (S.files shelf.old) (S.files shelf.new) name.now }
    ensures cause { HasCauseAt name.now (S.store_faults shelf.old)
        (S.store_faults shelf.new) result StoreFault.Failed }
    ensures loads { SameCounts (S.load_faults shelf.old) (S.load_faults shelf.new) }
{
    if piece.bytes().len() < LONG {
        return Ok(piece);
    }
    put_piece(name, &piece, shelf)?;
    Ok(SureSink::new(alloc))
}
