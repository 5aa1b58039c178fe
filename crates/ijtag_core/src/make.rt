// The command `make`.
ghost use Rattle.std.specs.Prelude.{◌≡◌, OnOk, OnErr, IfOk, IfErr};
ghost use Rattle.ij_io.specs.Causes.{SameCounts};
ghost use Rattle.ijtag_work.specs.Command.{made_names};
ghost use Rattle.ijtag_work.specs.Order.{make, made_files};
ghost use Rattle.ijtag_work.specs.Runs.{AreFirstWritten, IsDone, IsPartDone, IsStop, OnlyTheseChange};
ghost use Rattle.ijtag_work.specs.Runs.{OnlyTheseRise, counts, seen};
ghost use Rattle.ijtag_work.specs.Seen.{seen_stop, differing};
ghost use Rattle.ijtag_work.specs.Stops.{IsEarly};
ghost use Rattle.ijtag_work.specs.Task.{work};
ghost use Rattle.ijtag_work.specs.Words.{seen_make};

use crate::made_design::{accept_design, make_design};
use crate::made_files::{files_of, write_each};
use crate::made_svf::write_and_play;
use ij_io::{Shelf, Sink};
use ijtag_work::{MakeWords, Stop, Verdict};
use std::alloc::Global;

/// Makes the design of the words, writes its four files, accepts their texts, writes the SVF file of the
/// procedure, and then plays the commands of its text and prints the line of totals. A size that is no number
/// of instruments is refused before any file is begun.
pub(crate) fn make<'a, S: Shelf, O: Sink>(
    alloc: Global,
    words: &MakeWords<'a>,
    shelf: &mut S,
    out: &mut O,
) -> Result<Verdict, Stop<'a>>
    ensures done { IfOk result (λ verdict. IsDone (work (S.files shelf.old) (make (seen_make words.now)))
        (seen S.files O.taken shelf.old out.old)
        (seen S.files O.taken shelf.new out.new) (differing verdict)) }
    ensures handed { OnOk result (O.handed out.new ≡ O.taken out.new) }
    ensures stop { IfErr result (λ stop. IsStop (S.files shelf.old) (make (seen_make words.now))
        (counts S.load_faults S.store_faults O.faults shelf.old shelf.new out.old out.new) (seen_stop stop)) }
    ensures early { IfErr result (λ stop. IsEarly (seen_stop stop) → AreFirstWritten (made_files
        (seen_make words.now)) (made_names words.now.stem.now) (S.files shelf.old) (S.files shelf.new)) }
    ensures silent { IfErr result (λ stop. IsEarly (seen_stop stop) → out.new ≡ out.old) }
    ensures part { OnErr result (IsPartDone (S.files shelf.old) (make (seen_make words.now))
        (seen S.files O.taken shelf.old out.old) (seen S.files O.taken shelf.new out.new)) }
    ensures files { OnlyTheseChange (make (seen_make words.now)).writes
        (S.files shelf.old) (S.files shelf.new) }
    ensures loads { SameCounts (S.load_faults shelf.old) (S.load_faults shelf.new) }
    ensures stores { OnlyTheseRise (make (seen_make words.now)).writes
        (S.store_faults shelf.old) (S.store_faults shelf.new) }
{
    let made = make_design(alloc, words)?;
    write_each(alloc, &files_of(words.stem, &made), shelf)?;
    let it = accept_design(alloc, words.stem, &made)?;
    match write_and_play(alloc, words.stem, &it, shelf, out) {
        Ok(verdict) => Ok(verdict),
        Err(stop) => Err(stop),
    }
}
