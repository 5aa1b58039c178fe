// A program: a table of commands, and how a run of any of them ends.
ghost use Rattle.std.specs.Prelude.{◌≡◌, Bool, List, ℕ, Option, IsSome, IfSome, IfOk, IfErr, OnOk, OnErr};
ghost use Rattle.std.specs.Bool.{OnTrue, OnFalse};
ghost use Rattle.std.specs.Option.{option_map};
ghost use Rattle.ij_io.specs.Files.{Files, file_at};
ghost use Rattle.ijtag_work.specs.Ends.{IfDone, IsRun, views, world};
ghost use Rattle.ijtag_work.specs.Loads.{names_of};
ghost use Rattle.ijtag_work.specs.Runs.{AreSettled, AreFirstWritten, AreKept, IsDone, IsPartDone, IsRunStop};
ghost use Rattle.ijtag_work.specs.Runs.{IsStop, OnlyTheseChange, OnlyTheseRise, counts, loads_in, prints_in};
ghost use Rattle.ijtag_work.specs.Runs.{seen, writes_in};
ghost use Rattle.ijtag_work.specs.Seen.{seen_stop, differing};
ghost use Rattle.ijtag_work.specs.Stops.{IsEarly};
ghost use Rattle.ijtag_work.specs.Task.{Task, work};

use ij_io::{Shelf, Sink};
use ijtag_work::{Status, Stop, Verdict, report};
use std::alloc::Global;

/// A command of a program.
pub trait Command {
    /// The command without where its words lie in memory.
    ghost Named: { Type 0 };

    ghost named: { Self → Named };

    /// What is loaded, written and printed, and the work on the texts that were loaded.
    ghost task: { Named → Task };

    /// What is promised besides, by the files before a run and the contents of any file after it, where the
    /// run ends with this verdict.
    ghost promise: { Named → Option Files → (List ℕ → Option (Option (List ℕ))) → Bool → Type 0 };

    /// The text that is printed where the words are no command, line feeds included.
    ghost usage_text: { List ℕ };

    /// This text.
    fn usage() -> &'static [u8]
        ensures { result.now ≡ usage_text };

    /// Two things that the work of a command may leave differ alike, and where it may leave one it meets no
    /// refusal.
    fn works_settle()
        ensures { AreSettled task };

    /// Runs the command. After a stop nothing of its work is there, or a first part.
    fn run<'a, S: Shelf, O: Sink>(
        &'a self,
        alloc: Global,
        shelf: &mut S,
        out: &mut O,
    ) -> Result<Verdict, Stop<'a>>
        ensures done { IfOk result (λ verdict. IsDone (work (S.files shelf.old) (task (named self.now)))
            (seen S.files O.taken shelf.old out.old)
            (seen S.files O.taken shelf.new out.new) (differing verdict)) }
        ensures promise { IfOk result (λ verdict. promise (named self.now) (S.files shelf.old)
            (file_at (S.files shelf.new)) (differing verdict)) }
        ensures handed { OnOk result
            (OnTrue (task (named self.now)).prints (O.handed out.new ≡ O.taken out.new)) }
        ensures stop { IfErr result (λ stop. IsStop (S.files shelf.old) (task (named self.now))
            (counts S.load_faults S.store_faults O.faults shelf.old shelf.new out.old out.new)
            (seen_stop stop)) }
        ensures early { IfErr result (λ stop. IsEarly (seen_stop stop)
            → AreFirstWritten (task (named self.now)).begins (task (named self.now)).first_writes
            (S.files shelf.old) (S.files shelf.new)) }
        ensures silent { IfErr result (λ stop. IsEarly (seen_stop stop) → out.new ≡ out.old) }
        ensures part { OnErr result (IsPartDone (S.files shelf.old) (task (named self.now))
            (seen S.files O.taken shelf.old out.old) (seen S.files O.taken shelf.new out.new)) }
        ensures files { OnlyTheseChange (task (named self.now)).writes
            (S.files shelf.old) (S.files shelf.new) }
        ensures out { OnFalse (task (named self.now)).prints (out.new ≡ out.old) }
        ensures loads { OnlyTheseRise (names_of (task (named self.now)).loads)
            (S.load_faults shelf.old) (S.load_faults shelf.new) }
        ensures stores { OnlyTheseRise (task (named self.now)).writes
            (S.store_faults shelf.old) (S.store_faults shelf.new) };
}

/// Does what the words say: without a command nothing, and no file changes.
fn run_if_any<'a, C: Command, S: Shelf, O: Sink>(
    alloc: Global,
    command: &'a Option<C>,
    shelf: &mut S,
    out: &mut O,
) -> Result<Verdict, Stop<'a>>
    ensures done { IfOk result (λ verdict. IfSome (option_map C.named command.now)
        (λ command. IsDone (work (S.files shelf.old) (C.task command))
        (seen S.files O.taken shelf.old out.old)
        (seen S.files O.taken shelf.new out.new) (differing verdict))) }
    ensures some { OnOk result (IsSome (option_map C.named command.now)) }
    ensures promise { IfOk result (λ verdict. IfSome (option_map C.named command.now) (λ command. C.promise
        command (S.files shelf.old) (file_at (S.files shelf.new)) (differing verdict))) }
    ensures handed { OnOk result
        (OnTrue (prints_in C.task (option_map C.named command.now)) (O.handed out.new ≡ O.taken out.new)) }
    ensures stop { IfErr result (λ stop. IsRunStop C.task (option_map C.named command.now) (S.files shelf.old)
        (counts S.load_faults S.store_faults O.faults shelf.old shelf.new out.old out.new) (seen_stop stop)) }
    ensures early { IfErr result (λ stop. IsEarly (seen_stop stop)
        → AreKept C.task (option_map C.named command.now) (S.files shelf.old) (S.files shelf.new)) }
    ensures silent { IfErr result (λ stop. IsEarly (seen_stop stop) → out.new ≡ out.old) }
    ensures part { OnErr result
        (IfSome (option_map C.named command.now) (λ command. IsPartDone (S.files shelf.old) (C.task command)
        (seen S.files O.taken shelf.old out.old) (seen S.files O.taken shelf.new out.new))) }
    ensures files { OnlyTheseChange (writes_in C.task (option_map C.named command.now))
        (S.files shelf.old) (S.files shelf.new) }
    ensures out { OnFalse (prints_in C.task (option_map C.named command.now)) (out.new ≡ out.old) }
    ensures loads { OnlyTheseRise (loads_in C.task (option_map C.named command.now))
        (S.load_faults shelf.old) (S.load_faults shelf.new) }
    ensures stores { OnlyTheseRise (writes_in C.task (option_map C.named command.now))
        (S.store_faults shelf.old) (S.store_faults shelf.new) }
{
    match command {
        Some(command) => command.run(alloc, shelf, out),
        None => Err(Stop::Usage),
    }
}

/// Runs a command, where the words are one, and says how the run ended: for any table of commands.
///
/// A run that ends otherwise than as `Good` or `Differs` prints one line on `err`, or a first part of it
/// where `err` fails, which changes no status. Memory is taken from `alloc`; want of it anywhere ends the run
/// as `OutOfMemory`.
pub fn run_program<C: Command, S: Shelf, O: Sink, E: Sink>(
    alloc: Global,
    command: &Option<C>,
    shelf: &mut S,
    out: &mut O,
    err: &mut E,
) -> Status
    ensures promise { IfDone result (λ differs. IfSome (option_map C.named command.now)
        (λ command. C.promise command (S.files shelf.old) (file_at (S.files shelf.new)) differs)) }
    ensures run { IsRun (views S.files S.load_faults S.store_faults O.taken O.handed
        O.faults E.taken E.faults) C.task C.usage_text
        (option_map C.named command.now) (world shelf.old out.old err.old)
        (world shelf.new out.new err.new) result }
{
    C::works_settle();
    match run_if_any(alloc, command, shelf, out) {
        Ok(verdict) => verdict.status(),
        Err(stop) => report(C::usage(), &stop, err),
    }
}
