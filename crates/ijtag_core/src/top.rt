// The top call.
ghost use Rattle.std.specs.Prelude.{◌≡◌};
ghost use Rattle.ij_io.specs.Files.{file_at};
ghost use Rattle.ijtag_work.specs.Audited.{AuditIsTrue, PassesOwnText};
ghost use Rattle.ijtag_work.specs.Command.{command_in};
ghost use Rattle.ijtag_work.specs.Ends.{IfDone, IsRun, views, world};
ghost use Rattle.ijtag_work.specs.Headline.{LeavesRightSvf};
ghost use Rattle.ijtag_work.specs.Order.{task};
ghost use Rattle.ijtag_work.specs.Runs.{counts};
ghost use Rattle.ijtag_work.specs.Stops.{usage_text};
ghost use Rattle.ijtag_work.specs.Tested.{TestIsRight};

use crate::program::run_program;
use ij_io::{Shelf, Sink};
use ijtag_work::{Status, own_texts_pass, read_words, runs_differ_alike};
use std::alloc::Global;

/// Runs the program with these words, those after the program's name, over files and streams, and says how it
/// ended.
///
/// - `compile ICL PDL DEVICE TOP PROC SVF` loads the first three files in this order, accepts what they hold
///   (IEEE 1687-2014: ICL, PDL level 0), and only then writes the SVF file (Serial Vector Format, revision
///   E), from its front, one piece after the other. It prints nothing on `out`.
/// - `play SVF ICL DEVICE TABLES TOP` loads the four files in this order, accepts what they hold, and only
///   then plays the SVF file clock by clock from power-up and prints the report on `out`: the compares that
///   differ, each register and each instrument, and the totals. It ends as `Differs` where a compare does.
/// - `run ICL PDL DEVICE TABLES TOP PROC SVF` loads the first four files in this order, accepts what they
///   hold, and only then writes the SVF file, as a compile does, plays its commands clock by clock from
///   power-up and prints the report on `out`, in which each compare that differs names its iRead. It ends as
///   `Differs` where a compare does.
/// - `direct ICL PDL DEVICE TABLES TOP PROC` loads the four files in this order, accepts what they hold, and
///   only then does what the procedure means, with no chain and no clock, and prints the report on `out`. It
///   ends as `Differs` where a read does.
/// - `make SEED SIZE STEM` loads nothing. It makes a design of SIZE instruments, 1 to 64, from the number
///   SEED, writes `STEM.icl`, `STEM.pdl`, `STEM.dev` and `STEM.tab`, accepts what they hold, and only then
///   writes `STEM.svf`, as a compile does, plays its commands clock by clock from power-up and prints one
///   line on `out`. It ends as `Differs` where a compare does.
/// - `migrate TABLES NEW` loads the first file, accepts it, and only then writes its tables to the second, as
///   a file of version 2. It prints nothing.
/// - `audit SVF ICL PDL DEVICE TOP PROC` loads the four files in this order, accepts what they hold, and only
///   then audits the SVF file for the procedure, without playing it, and prints one line on `out`. It ends as
///   `Good` where the audit says yes: then the file, played on any chip with this network, does what the
///   procedure means; and as `Differs` where it says no.
/// - `muxtest ICL DEVICE TOP SVF` loads the two files in this order, accepts what they hold, and only then
///   writes the SVF file, which takes a marker through each row of each multiplexer, from its front, and
///   prints on `out` the rows that a multiplexer may be stuck in unseen, and the counts.
///
/// A run that ends otherwise than as `Good` or `Differs` prints one line on `err`, or a first part of it
/// where `err` fails, which changes no status. Memory is taken from `alloc`; want of it anywhere ends the run
/// as `OutOfMemory`.
pub fn ijtag<S: Shelf, O: Sink, E: Sink>(
    alloc: Global,
    words: &Vec<String>,
    shelf: &mut S,
    out: &mut O,
    err: &mut E,
) -> Status
    // What a compile, a run or a make leaves in the SVF file does, played clock by clock, what the procedure
    // means; and a run or a make reports a difference exactly where the procedure's direct meaning does.
    ensures headline { IfDone result (λ differs. LeavesRightSvf (S.files shelf.old)
        (file_at (S.files shelf.new)) differs (command_in words.now.items)) }

    // Where an audit says yes, the SVF file, of whichever tool, does what the procedure means; and it says
    // yes of what a compile writes.
    ensures audited { result ≡ Status.Good → AuditIsTrue (S.files shelf.old) (command_in words.now.items) }
    ensures own_text { PassesOwnText (command_in words.now.items) (S.files shelf.old)
        (counts S.load_faults S.store_faults O.faults shelf.old shelf.new out.old out.new) result }

    // The SVF file of a mux test holds the text of the accepted network's test. Played, nothing differs and
    // no instrument has an event; and with a multiplexer stuck in a row that it sees, a compare differs.
    ensures tested { result ≡ Status.Good
        → TestIsRight (S.files shelf.old) (file_at (S.files shelf.new)) (command_in words.now.items) }

    // How it ends, for which reasons, what it prints then, and what changes: see `specs/Ends` of
    // `ijtag_work`.
    ensures run { IsRun (views S.files S.load_faults S.store_faults O.taken O.handed
        O.faults E.taken E.faults) task usage_text
        (command_in words.now.items) (world shelf.old out.old err.old)
        (world shelf.new out.new err.new) result }
{
    own_texts_pass();
    runs_differ_alike();
    run_program(alloc, &read_words(words), shelf, out, err)
}
