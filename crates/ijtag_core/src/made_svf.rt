// The SVF file of an accepted procedure, and the play of its commands.
ghost use Rattle.std.specs.Prelude.{◌≡◌, ◌≤◌, ◌⊎◌, [], ◌∷◌, true, length, OnOk, OnErr, IfOk, IfErr};
ghost use Rattle.ij_io.specs.Causes.{SameCounts};
ghost use Rattle.ij_io.specs.Files.{OthersStay};
ghost use Rattle.tap_machine.specs.declared.Stable.TheVariants.{Reset as InReset};
ghost use Rattle.tap_machine.specs.Play.{pins, scans_in};
ghost use Rattle.ijtag_work.specs.Command.{made_svf};
ghost use Rattle.ijtag_work.specs.Filed.{IsPartFiled};
ghost use Rattle.ijtag_work.specs.Late.{IsPartOf};
ghost use Rattle.ijtag_work.specs.Order.{made_of, written_text};
ghost use Rattle.ijtag_work.specs.Runs.{IsDone, OnlyTheseRise, counts, seen};
ghost use Rattle.ijtag_work.specs.Seen.{seen_made_name, seen_stop, differing};
ghost use Rattle.ijtag_work.specs.Using.{IsUsable, seen_accepted, there};
ghost use Rattle.ijtag_core.specs.Svf.{HasCommands, IsPlayStop, IsSvfStop};

use crate::made_totals::put_report;
use crate::svf::write_commands;
use ij_io::{Shelf, Sink};
use ijtag_work::{Accepted, MadeName, Stop, Verdict};
use std::alloc::Global;
use svf_writer::Commands;

/// Writes the SVF file of a made design under its name, and gives the commands that a reader finds in its
/// text. After a refusal the file is as before, or holds some first bytes.
fn write_svf<'a, S: Shelf>(
    alloc: Global,
    it: &Accepted,
    name: MadeName<'a>,
    shelf: &mut S,
) -> Result<Commands, Stop<'a>>
    requires usable { IsUsable it.now }
    requires models { there it.now.models ≡ true }
    requires procedure { there it.now.procedure ≡ true }
    ensures whole { IfOk result (HasCommands (written_text (seen_accepted it.now)) (S.files shelf.old)
        (S.files shelf.new) (seen_made_name name.entry)) }
    ensures clocks { IfOk result (λ commands. length (pins InReset 0 commands) ≤ 1000000000) }
    ensures scans { IfOk result (λ commands. scans_in commands ≤ 1000000000) }
    ensures part { OnErr result ((S.files shelf.new ≡ S.files shelf.old) ⊎ IsPartFiled (written_text
        (seen_accepted it.now)) (S.files shelf.old) (S.files shelf.new) (seen_made_name name.entry)) }
    ensures stop { IfErr result (λ stop. IsSvfStop (written_text (seen_accepted it.now))
        (seen_made_name name.entry) (S.store_faults shelf.old) (S.store_faults shelf.new) (seen_stop stop)) }
    ensures others { OthersStay (S.files shelf.old) (S.files shelf.new) (seen_made_name name.entry) }
    ensures loads { SameCounts (S.load_faults shelf.old) (S.load_faults shelf.new) }
    ensures stores { OnlyTheseRise (seen_made_name name.entry ∷ [])
        (S.store_faults shelf.old) (S.store_faults shelf.new) }
{
    let text = name.text(alloc)?;
    match write_commands(alloc, it, text.as_str(), shelf) {
        Ok(commands) => Ok(commands),
        Err(fault) => Err(Stop::of_made(fault, name)),
    }
}

/// Writes the SVF file of an accepted procedure of a made design, plays the commands of its text and prints
/// the line of totals.
pub(crate) fn write_and_play<'a, S: Shelf, O: Sink>(
    alloc: Global,
    stem: &'a str,
    it: &Accepted,
    shelf: &mut S,
    out: &mut O,
) -> Result<Verdict, Stop<'a>>
    requires usable { IsUsable it.now }
    requires models { there it.now.models ≡ true }
    requires procedure { there it.now.procedure ≡ true }
    ensures done { IfOk result (λ verdict. IsDone (made_of [] (made_svf stem.now) (seen_accepted it.now))
        (seen S.files O.taken shelf.old out.old)
        (seen S.files O.taken shelf.new out.new) (differing verdict)) }
    ensures handed { OnOk result (O.handed out.new ≡ O.taken out.new) }
    ensures stop { IfErr result
        (λ stop. IsPlayStop (made_of [] (made_svf stem.now) (seen_accepted it.now)) (made_svf stem.now)
        (counts S.load_faults S.store_faults O.faults shelf.old shelf.new out.old out.new) (seen_stop stop)) }
    ensures part { OnErr result (IsPartOf (made_of [] (made_svf stem.now) (seen_accepted it.now))
        (seen S.files O.taken shelf.old out.old) (seen S.files O.taken shelf.new out.new)) }
    ensures others { OthersStay (S.files shelf.old) (S.files shelf.new) (made_svf stem.now) }
    ensures loads { SameCounts (S.load_faults shelf.old) (S.load_faults shelf.new) }
    ensures stores { OnlyTheseRise (made_svf stem.now ∷ [])
        (S.store_faults shelf.old) (S.store_faults shelf.new) }
{
    let name = MadeName {
        stem,
        ending: ".svf",
    };
    let commands = write_svf(alloc, it, name, shelf)?;
    match put_report(alloc, it, &commands, out) {
        Ok(verdict) => Ok(verdict),
        Err(fault) => Err(Stop::of_output(fault)),
    }
}
