// A command that accepts texts: what it does with them, and its run.
ghost use Rattle.std.specs.Prelude.{◌≡◌, ◌≤◌, ℕ, List, Option, Bool, IfOk, IfErr, OnOk, OnErr};
ghost use Rattle.std.specs.Bool.{OnTrue, OnFalse};
ghost use Rattle.ij_io.specs.Causes.{SameCounts};
ghost use Rattle.ij_io.specs.Files.{Files, file_at};
ghost use Rattle.ijtag_work.specs.Accepted.{SeenAccepted};
ghost use Rattle.ijtag_work.specs.Inputs.{loads_of};
ghost use Rattle.ijtag_work.specs.Late.{IsLateStop, IsPartOf};
ghost use Rattle.ijtag_work.specs.Loads.{names_of};
ghost use Rattle.ijtag_work.specs.Promises.{AcceptedWith};
ghost use Rattle.ijtag_work.specs.Runs.{AreFirstWritten, IsDone, IsPartDone, IsStop, OnlyTheseChange};
ghost use Rattle.ijtag_work.specs.Runs.{OnlyTheseRise, counts, seen};
ghost use Rattle.ijtag_work.specs.Seen.{seen_stop, differing};
ghost use Rattle.ijtag_work.specs.Stops.{IsEarly};
ghost use Rattle.ijtag_work.specs.Task.{Row, task_of, work};
ghost use Rattle.ijtag_work.specs.Using.{CanUse, needs_in, seen_accepted};

use ij_io::{Shelf, Sink};
use ijtag_work::{Accepted, Inputs, Stop, Verdict, accept};
use std::alloc::Global;

/// What a command does with the texts that it loads.
pub trait Effect {
    /// The command, as a row of the table of commands.
    ghost table_row: { Self → Row };

    /// What is promised of what was accepted, by the files before the work and the contents of any file after
    /// it, where a run ends with this verdict.
    ghost promise: { Self → Option Files → (List ℕ → Option (Option (List ℕ))) → SeenAccepted
        → Bool → Type 0 } = { λ _ _ _ _ _. Unit {0} };

    /// The words that name the files of its texts.
    type Words: Inputs;

    /// These words.
    fn words(&self) -> &Self::Words
        ensures { Self.Words.named result.now ≡ (table_row self.now).inputs };

    /// Whether it prints on the output.
    fn prints(&self) -> bool
        ensures { result ≡ (table_row self.now).prints };

    /// Does the command to what its texts were accepted as. After a refusal nothing of it is there, or a
    /// first part.
    fn act<'a, S: Shelf, O: Sink>(
        &'a self,
        alloc: Global,
        it: &Accepted,
        shelf: &mut S,
        out: &mut O,
    ) -> Result<Verdict, Stop<'a>>
        requires { CanUse (needs_in (table_row self.now).inputs) it.now }
        ensures done { IfOk result (λ verdict. IsDone ((table_row self.now).leaves (seen_accepted it.now))
            (seen S.files O.taken shelf.old out.old)
            (seen S.files O.taken shelf.new out.new) (differing verdict)) }
        ensures promise { IfOk result (λ verdict. promise self.now (S.files shelf.old)
            (file_at (S.files shelf.new)) (seen_accepted it.now) (differing verdict)) }
        ensures stop { IfErr result (λ stop. IsLateStop
            ((table_row self.now).leaves (seen_accepted it.now)) (task_of (table_row self.now))
            (counts S.load_faults S.store_faults O.faults shelf.old shelf.new out.old out.new)
            (seen_stop stop)) }
        ensures early { IfErr result (λ stop. IsEarly (seen_stop stop)
            → (S.files shelf.new ≡ S.files shelf.old) × (out.new ≡ out.old)) }
        ensures part { OnErr result (IsPartOf ((table_row self.now).leaves (seen_accepted it.now))
            (seen S.files O.taken shelf.old out.old) (seen S.files O.taken shelf.new out.new)) }
        ensures files { OnlyTheseChange (table_row self.now).writes (S.files shelf.old) (S.files shelf.new) }
        ensures out { OnFalse (table_row self.now).prints (out.new ≡ out.old) }
        ensures faults { O.faults out.old ≤ O.faults out.new }
        ensures loads { SameCounts (S.load_faults shelf.old) (S.load_faults shelf.new) }
        ensures stores { OnlyTheseRise (table_row self.now).writes
            (S.store_faults shelf.old) (S.store_faults shelf.new) };
}

/// Does a command's effect, and hands on what it printed.
fn act_and_flush<'a, E: Effect, S: Shelf, O: Sink>(
    alloc: Global,
    effect: &'a E,
    it: &Accepted,
    shelf: &mut S,
    out: &mut O,
) -> Result<Verdict, Stop<'a>>
    requires { CanUse (needs_in (E.table_row effect.now).inputs) it.now }
    ensures done { IfOk result (λ verdict. IsDone ((E.table_row effect.now).leaves (seen_accepted it.now))
        (seen S.files O.taken shelf.old out.old)
        (seen S.files O.taken shelf.new out.new) (differing verdict)) }
    ensures promise { IfOk result (λ verdict. E.promise effect.now (S.files shelf.old)
        (file_at (S.files shelf.new)) (seen_accepted it.now) (differing verdict)) }
    ensures handed { OnOk result
        (OnTrue (E.table_row effect.now).prints (O.handed out.new ≡ O.taken out.new)) }
    ensures stop { IfErr result (λ stop. IsLateStop
        ((E.table_row effect.now).leaves (seen_accepted it.now)) (task_of (E.table_row effect.now))
        (counts S.load_faults S.store_faults O.faults shelf.old shelf.new out.old out.new) (seen_stop stop)) }
    ensures early { IfErr result (λ stop. IsEarly (seen_stop stop)
        → (S.files shelf.new ≡ S.files shelf.old) × (out.new ≡ out.old)) }
    ensures part { OnErr result (IsPartOf ((E.table_row effect.now).leaves (seen_accepted it.now))
        (seen S.files O.taken shelf.old out.old) (seen S.files O.taken shelf.new out.new)) }
    ensures files { OnlyTheseChange (E.table_row effect.now).writes (S.files shelf.old) (S.files shelf.new) }
    ensures out { OnFalse (E.table_row effect.now).prints (out.new ≡ out.old) }
    ensures loads { SameCounts (S.load_faults shelf.old) (S.load_faults shelf.new) }
    ensures stores { OnlyTheseRise (E.table_row effect.now).writes
        (S.store_faults shelf.old) (S.store_faults shelf.new) }
{
    let verdict = effect.act(alloc, it, shelf, out)?;
    if !effect.prints() {
        return Ok(verdict);
    }
    match out.flush() {
        Ok(()) => Ok(verdict),
        Err(fault) => Err(Stop::of_output(fault)),
    }
}

/// A run of a command that accepts texts: its files are loaded in their order, their texts are accepted, and
/// only then it does what it does; what was printed is handed on.
pub fn accept_and_act<'a, E: Effect, S: Shelf, O: Sink>(
    alloc: Global,
    effect: &'a E,
    shelf: &mut S,
    out: &mut O,
) -> Result<Verdict, Stop<'a>>
where
    E::Words: 'a,
    ensures done { IfOk result
        (λ verdict. IsDone (work (S.files shelf.old) (task_of (E.table_row effect.now)))
        (seen S.files O.taken shelf.old out.old)
        (seen S.files O.taken shelf.new out.new) (differing verdict)) }
    ensures promise { IfOk result (λ verdict. AcceptedWith (E.table_row effect.now) (S.files shelf.old) (λ it.
        E.promise effect.now (S.files shelf.old) (file_at (S.files shelf.new)) it (differing verdict))) }
    ensures handed { OnOk result
        (OnTrue (E.table_row effect.now).prints (O.handed out.new ≡ O.taken out.new)) }
    ensures stop { IfErr result (λ stop. IsStop (S.files shelf.old) (task_of (E.table_row effect.now))
        (counts S.load_faults S.store_faults O.faults shelf.old shelf.new out.old out.new) (seen_stop stop)) }
    ensures early { IfErr result (λ stop. IsEarly (seen_stop stop)
        → AreFirstWritten (task_of (E.table_row effect.now)).begins
        (task_of (E.table_row effect.now)).first_writes (S.files shelf.old) (S.files shelf.new)) }
    ensures silent { IfErr result (λ stop. IsEarly (seen_stop stop) → out.new ≡ out.old) }
    ensures part { OnErr result (IsPartDone (S.files shelf.old) (task_of (E.table_row effect.now))
        (seen S.files O.taken shelf.old out.old) (seen S.files O.taken shelf.new out.new)) }
    ensures files { OnlyTheseChange (E.table_row effect.now).writes (S.files shelf.old) (S.files shelf.new) }
    ensures out { OnFalse (E.table_row effect.now).prints (out.new ≡ out.old) }
    ensures loads { OnlyTheseRise (names_of (loads_of (E.table_row effect.now).inputs))
        (S.load_faults shelf.old) (S.load_faults shelf.new) }
    ensures stores { OnlyTheseRise (E.table_row effect.now).writes
        (S.store_faults shelf.old) (S.store_faults shelf.new) }
{
    let words = effect.words();
    let texts = words.load(alloc, shelf)?;
    let it = accept(alloc, &words.texts(&texts))?;
    match act_and_flush(alloc, effect, &it, shelf, out) {
        Ok(verdict) => Ok(verdict),
        Err(stop) => Err(stop),
    }
}
