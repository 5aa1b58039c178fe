// The line of a made design that is played.
ghost use Rattle.std.specs.Prelude.{◌≡◌, ◌≤◌, true, length, OnOk, OnErr, IfOk};
ghost use Rattle.ij_io.specs.Bytes.{Adds, AddsPart};
ghost use Rattle.ij_io.specs.Causes.{HasCause};
ghost use Rattle.tap_machine.specs.declared.Stable.TheVariants.{Reset as InReset};
ghost use Rattle.tap_machine.specs.Play.{pins, scans_in};
ghost use Rattle.ijtag_work.specs.Order.{made_totals, run_differs};
ghost use Rattle.ijtag_work.specs.Seen.{differing};
ghost use Rattle.ijtag_work.specs.Using.{IsUsable, seen_accepted, there};

use crate::made_rounds::round_count;
use bench_report::put_made;
use ij_io::{Sink, StoreFault};
use ijtag_work::{Accepted, Verdict};
use std::alloc::Global;
use svf_writer::Commands;

/// Plays the commands of a procedure's SVF on the bench and writes the line of totals. A refusal leaves a
/// first part of it.
#[tactic(auto, unfolding(ijtag_work::specs::Order::made_totals))]
fn put_line<O: Sink>(
    alloc: Global,
    it: &Accepted,
    commands: &Commands,
    out: &mut O,
) -> Result<Verdict, StoreFault>
    requires usable { IsUsable it.now }
    requires models { there it.now.models ≡ true }
    requires procedure { there it.now.procedure ≡ true }
    requires clocks { length (pins InReset 0 commands.now) ≤ 1000000000 }
    requires scans { scans_in commands.now ≤ 1000000000 }
    ensures printed { OnOk result
        (Adds (O.taken out.old) (O.taken out.new) (made_totals (seen_accepted it.now) commands.now)) }
    ensures verdict { IfOk result
        (λ verdict. differing verdict ≡ run_differs (seen_accepted it.now) commands.now) }
    ensures part { OnErr result
        (AddsPart (O.taken out.old) (O.taken out.new) (made_totals (seen_accepted it.now) commands.now)) }
    ensures cause { HasCause (O.faults out.old) (O.faults out.new) result StoreFault.Failed }
{
    let groups = round_count(alloc, it)?;
    let models = it.models();
    let differs = put_made(
        alloc,
        &it.network.net,
        &it.device,
        models.models(),
        commands,
        groups,
        out,
    )?;
    Ok(Verdict::of_count(differs))
}

/// Plays the commands of a procedure and prints the line of totals, so that none of it is kept back.
pub(crate) fn put_report<O: Sink>(
    alloc: Global,
    it: &Accepted,
    commands: &Commands,
    out: &mut O,
) -> Result<Verdict, StoreFault>
    requires usable { IsUsable it.now }
    requires models { there it.now.models ≡ true }
    requires procedure { there it.now.procedure ≡ true }
    requires clocks { length (pins InReset 0 commands.now) ≤ 1000000000 }
    requires scans { scans_in commands.now ≤ 1000000000 }
    ensures printed { OnOk result
        (Adds (O.taken out.old) (O.taken out.new) (made_totals (seen_accepted it.now) commands.now)) }
    ensures verdict { IfOk result
        (λ verdict. differing verdict ≡ run_differs (seen_accepted it.now) commands.now) }
    ensures handed { OnOk result (O.handed out.new ≡ O.taken out.new) }
    ensures part { OnErr result
        (AddsPart (O.taken out.old) (O.taken out.new) (made_totals (seen_accepted it.now) commands.now)) }
    ensures cause { HasCause (O.faults out.old) (O.faults out.new) result StoreFault.Failed }
{
    let verdict = put_line(alloc, it, commands, out)?;
    out.flush()?;
    Ok(verdict)
}
