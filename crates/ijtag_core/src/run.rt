// The command `run`.
ghost use Rattle.std.specs.Prelude.{◌≡◌, ◌≤◌, ℕ, List, true, length, OnOk, OnErr, IfOk};
ghost use Rattle.ij_io.specs.Bytes.{Adds, AddsPart};
ghost use Rattle.ij_io.specs.Causes.{HasCause};
ghost use Rattle.merge_order.specs.BitSteps.{bit_steps};
ghost use Rattle.pdl_parser.specs.Views.{seen_procs};
ghost use Rattle.run_report.specs.Procedure.{CanRetarget};
ghost use Rattle.tap_machine.specs.declared.Stable.TheVariants.{Reset as InReset};
ghost use Rattle.tap_machine.specs.Play.{pins, scans_in};
ghost use Rattle.ijtag_work.specs.Order.{run, run_differs, run_report};
ghost use Rattle.ijtag_work.specs.Seen.{differing};
ghost use Rattle.ijtag_work.specs.Using.{ComesToItsEnd, IsUsable, seen_accepted, there};
ghost use Rattle.ijtag_work.specs.Words.{seen_run};

use crate::effect::Effect;
use crate::svf::{make_svf, read_commands};
use headline::procedures_are_plannable;
use ij_io::{Shelf, Sink, StoreFault};
use ijtag_work::{Accepted, DirectWords, Procedure, RunWords, Stop, Verdict, write_file};
use merge_order::{bit_steps_are_few, bit_steps_are_of_the_network};
use run_report::put_run;
use std::alloc::Global;
use svf_writer::Commands;

/// An accepted procedure can be retargeted, whatever its bit steps are.
fn can_be_run(it: &Accepted, procedure: &Procedure)
    requires usable { IsUsable it.now }
    requires ends { ComesToItsEnd it.now.network procedure.now }
    ensures { CanRetarget it.now.network.net it.now.network.form (bit_steps
        (seen_procs procedure.now.procs) it.now.network.net it.now.network.form procedure.now.name.items) }
{
    bit_steps_are_of_the_network();
    bit_steps_are_few();
    procedures_are_plannable();
}

/// Plays the commands of a procedure's SVF on the bench and writes the report, which names iReads. A refusal
/// leaves a first part of the report.
#[tactic(auto, unfolding(ijtag_work::specs::Order::run_report))]
fn put_lines<O: Sink>(
    alloc: Global,
    it: &Accepted,
    commands: &Commands,
    out: &mut O,
) -> Result<Verdict, StoreFault>
    requires usable { IsUsable it.now }
    requires models { there it.now.models ≡ true }
    requires procedure { there it.now.procedure ≡ true }
    requires clocks { length (pins InReset 0 commands.now) ≤ 1000000000 }
    requires scans { scans_in commands.now ≤ 1000000000 }
    ensures printed { OnOk result ((text : List ℕ) → (run_report (seen_accepted it.now) commands.now).gives
        text → Adds (O.taken out.old) (O.taken out.new) text) }
    ensures verdict { IfOk result
        (λ verdict. differing verdict ≡ run_differs (seen_accepted it.now) commands.now) }
    ensures part { OnErr result ((text : List ℕ) → (run_report (seen_accepted it.now) commands.now).gives text
        → AddsPart (O.taken out.old) (O.taken out.new) text) }
    ensures cause { HasCause (O.faults out.old) (O.faults out.new) result StoreFault.Failed }
{
    let models = it.models();
    let procedure = it.procedure();
    can_be_run(it, procedure);
    let network = &it.network;
    let differs = put_run(
        alloc,
        procedure.procs.procs.as_slice(),
        &network.net,
        &network.form,
        procedure.name.as_slice(),
        &it.device,
        models.models(),
        commands,
        out,
    )?;
    Ok(Verdict::of_count(differs))
}

/// Writes the SVF file, as a compile does, and then plays the commands of its text and prints the report,
/// which names iReads.
impl<'w> Effect for RunWords<'w> {
    ghost table_row = { λ words. run (seen_run words) };

    type Words = DirectWords<'w>;

    fn words(&self) -> &Self::Words {
        &self.direct
    }

    fn prints(&self) -> bool {
        true
    }

    fn act<'a, S: Shelf, O: Sink>(
        &'a self,
        alloc: Global,
        it: &Accepted,
        shelf: &mut S,
        out: &mut O,
    ) -> Result<Verdict, Stop<'a>> {
        let svf = make_svf(alloc, it)?;
        let bytes = svf.bytes();
        match write_file(self.svf, bytes, shelf) {
            Ok(()) => {}
            Err(fault) => return Err(Stop::of_file(fault, self.svf)),
        }
        let commands = read_commands(alloc, bytes)?;
        match put_lines(alloc, it, &commands, out) {
            Ok(verdict) => Ok(verdict),
            Err(fault) => Err(Stop::of_output(fault)),
        }
    }
}
