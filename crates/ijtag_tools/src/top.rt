// The top call.
ghost use Rattle.std.specs.Prelude.{◌≡◌, IfSome};
ghost use Rattle.ij_io.specs.Files.{file_at};
ghost use Rattle.ijtag_tools.specs.Command.{command_in, usage_text};
ghost use Rattle.ijtag_tools.specs.Order.{task};
ghost use Rattle.ijtag_tools.specs.Promises.{IfExplains, IfTightens, IsBounded, IsExplained, IsTightened};
ghost use Rattle.ijtag_work.specs.Ends.{IsRun, views, world};

use crate::words::read_words;
use ij_io::{Shelf, Sink};
use ijtag_core::run_program;
use ijtag_work::Status;
use std::alloc::Global;

/// Runs the program with these words, those after the program's name, over files and streams, and says how it
/// ended.
///
/// - `list FORMAT ICL DEVICE TOP` loads the two files in this order, accepts what they hold, and prints the
///   registers, multiplexers and instruments of the network on `out`, in the format `text` or `json`.
/// - `explain SVF ICL DEVICE TABLES TOP NEW` loads the four files in this order, accepts what they hold,
///   plays the commands, and writes the SVF text to NEW once more, with a note after each scan. A text that
///   couldn't be read again is refused.
/// - `where SVF ICL DEVICE TABLES TOP SCAN BIT` loads and accepts the same, plays the commands, and prints
///   what is at a position of a scan on `out`; it ends as `Differs` where its compare differs.
/// - `picture FORMAT ICL DEVICE TOP NEW` loads the two files in this order, accepts what they hold, and
///   writes a drawing of the network to NEW, in the format `svg` or `dot`, in which the active path at
///   power-up is marked.
/// - `picture FORMAT ICL DEVICE TOP NEW SVF TABLES SCAN` loads the SVF file, the network, the device and the
///   tables in this order, accepts what they hold, plays the commands, and draws the network as it is before
///   the scan of this number, or at the end of the play where it is one more than there are scans.
/// - `wave KIND SVF ICL DEVICE TABLES TOP NEW` loads and accepts the same, plays the commands, and writes the
///   waves of all clocks to NEW as a value change dump; with `FROM COUNT` those of this many clocks. KIND is
///   `pins`, `state` or `all`. It ends as `Differs` where a compare of the whole play differs.
/// - `tighten HOW ICL PDL DEVICE TOP PROC NEW` loads the three files in this order, accepts what they hold,
///   plans the whole procedure for few clocks, in the way `full`, `lean` or `late`, and hands the text to the
///   audit. Only where this says yes, and the text takes no more scans and clocks than the one that a compile
///   writes, is it written to NEW; else that one is. It prints what it takes on `out`, and how many clocks
///   any text takes at least to which the audit says yes.
///
/// A run that ends otherwise than as `Good` prints one line on `err`, or a first part of it where `err`
/// fails, which changes no status. Memory is taken from `alloc`; want of it anywhere ends the run as
/// `OutOfMemory`.
pub fn ijtag_tools<S: Shelf, O: Sink, E: Sink>(
    alloc: Global,
    words: &Vec<String>,
    shelf: &mut S,
    out: &mut O,
    err: &mut E,
) -> Status
    // What a tighten leaves in its file does, played clock by clock on every chip with this network, what the
    // procedure means, and takes no more scans and clocks than the text of a compile.
    ensures tightened { result ≡ Status.Good → IfSome (command_in words.now.items) (λ command.
        IfTightens command (λ t. IsTightened (S.files shelf.old) t (file_at (S.files shelf.new) t.svf))) }

    // No SVF to which the audit says yes for the procedure takes fewer clocks than its bound, which a tighten
    // prints (by `run`).
    ensures bounded { result ≡ Status.Good → IfSome (command_in words.now.items) (λ command.
        IfTightens command (λ t. IsBounded (S.files shelf.old) t)) }

    // In what an explain leaves in its file a reader of SVF finds the very commands that it finds in the text
    // that is explained.
    ensures explained { result ≡ Status.Good → IfSome (command_in words.now.items) (λ command.
        IfExplains command (λ e. IsExplained (S.files shelf.old) e (file_at (S.files shelf.new) e.new))) }

    // How it ends, for which reasons, what it prints then, and what changes: see `specs/Ends` of
    // `ijtag_work`.
    ensures run { IsRun (views S.files S.load_faults S.store_faults O.taken O.handed
        O.faults E.taken E.faults) task usage_text
        (command_in words.now.items) (world shelf.old out.old err.old)
        (world shelf.new out.new err.new) result }
{
    run_program(alloc, &read_words(words), shelf, out, err)
}
