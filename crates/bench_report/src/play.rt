// A whole play.
ghost use Rattle.std.specs.Prelude.{◌≡◌, ◌≤◌, length, map, OnOk, OnErr, IfOk};
ghost use Rattle.ij_io.specs.Bytes.{Adds, AddsPart};
ghost use Rattle.ij_io.specs.Causes.{HasCause};
ghost use Rattle.instruments.specs.Seen.{seen_model};
ghost use Rattle.tap_machine.specs.declared.Stable.TheVariants.{Reset as InReset};
ghost use Rattle.tap_machine.specs.Play.{pins, scans_in};
ghost use Rattle.net_bench.specs.Bench.{power_up};
ghost use Rattle.instruments.specs.Runners.{AreModels};
ghost use Rattle.net_graph.specs.Nets.{IsNet};
ghost use Rattle.bench_report.specs.Report.{Names, chip_of, differs_of, named_report, play_report};

use crate::compares::put_compares;
use crate::names::{NoNames, ReadNames};
use crate::state::put_state;
use ij_bits::List;
use ij_io::{Sink, StoreFault};
use instruments::Model;
use net_bench::Bench;
use net_graph::{Device, Net};
use report::{Totals, put_totals};
use std::alloc::Global;
use svf_writer::Commands;
use tap_machine::{Player, Stable, scan_count};

/// Plays commands on a bench at power-up, and writes the report.
fn put_report<N: ReadNames, K: Sink>(
    names: &mut N,
    bench: &mut Bench,
    net: &Net,
    models: &List<Model>,
    commands: &Commands,
    k: &mut K,
) -> Result<u64, StoreFault>
    requires well_formed { IsNet net.now }
    requires models { AreModels net.now models.now.items }
    requires net { bench.old.net ≡ net.now }
    requires bench { bench.old.models ≡ models.now.items }
    requires start { bench.old.state ≡ power_up (chip_of bench.old) }
    requires clocks { length (pins InReset 0 commands.now) ≤ 1000000000 }
    requires scans { scans_in commands.now ≤ 1000000000 }
    ensures whole { OnOk result ((ns : Names) → N.AreNames names.old ns → Adds (K.taken k.old) (K.taken k.new)
        (named_report ns net.now bench.old.device (map seen_model models.now.items) commands.now)) }
    ensures differs { IfOk result (λ n. n
        ≡ length (differs_of net.now bench.old.device (map seen_model models.now.items) commands.now)) }
    ensures part { OnErr result ((ns : Names) → N.AreNames names.old ns → AddsPart (K.taken k.old) (K.taken
        k.new) (named_report ns net.now bench.old.device (map seen_model models.now.items) commands.now)) }
    ensures cause { HasCause (K.faults k.old) (K.faults k.new) result StoreFault.Failed }
{
    let scans = scan_count(commands);
    let mut player = Player::new(Stable::Reset, 0, commands);
    let counted = put_compares(names, &mut player, bench, k)?;
    put_state(net, models, bench, k)?;
    let totals = Totals::Play {
        scans,
        clocks: counted.clocks,
        differs: counted.differs,
    };
    put_totals(&totals, k)?;
    Ok(counted.differs)
}

/// Plays commands from power-up on a device with a scan network and its instruments, and prints a line for
/// each compare that differs, with the iRead that it is, what each register and each instrument holds at the
/// end, and the totals (Serial Vector Format, revision E; IEEE 1687-2014, hardware rules and PDL level 0:
/// iRead). `models` has a model for each instrument, in the network's order. Answers how many compares
/// differ.
///
/// # Errors
///
/// Those of the sink, which then took some first bytes of the report, and `OutOfMemory` where there is no
/// memory for the bench or to find an iRead. The play itself takes none.
pub fn put_named_play<N: ReadNames, K: Sink>(
    alloc: Global,
    net: &Net,
    device: &Device,
    models: &List<Model>,
    commands: &Commands,
    names: &mut N,
    k: &mut K,
) -> Result<u64, StoreFault>
    requires well_formed { IsNet net.now }
    requires models { AreModels net.now models.now.items }
    requires clocks { length (pins InReset 0 commands.now) ≤ 1000000000 }
    requires scans { scans_in commands.now ≤ 1000000000 }
    ensures whole { OnOk result ((ns : Names) → N.AreNames names.old ns → Adds (K.taken k.old) (K.taken k.new)
        (named_report ns net.now device.now (map seen_model models.now.items) commands.now)) }
    ensures differs { IfOk result
        (λ n. n ≡ length (differs_of net.now device.now (map seen_model models.now.items) commands.now)) }
    ensures part { OnErr result ((ns : Names) → N.AreNames names.old ns → AddsPart (K.taken k.old)
        (K.taken k.new) (named_report ns net.now device.now (map seen_model models.now.items) commands.now)) }
    ensures cause { HasCause (K.faults k.old) (K.faults k.new) result StoreFault.Failed }
{
    let mut bench = Bench::new(alloc, net, device, models)?;
    put_report(names, &mut bench, net, models, commands, k)
}

/// Plays commands from power-up on a device with a scan network and its instruments, and prints a line for
/// each compare that differs, what each register and each instrument holds at the end, and the totals (Serial
/// Vector Format, revision E; IEEE 1687-2014, hardware rules). `models` has a model for each instrument, in
/// the network's order. Answers how many compares differ.
///
/// # Errors
///
/// Those of the sink, which then took some first bytes of the report, and `OutOfMemory` where there is no
/// memory for the bench. The play itself takes none.
pub fn put_play<K: Sink>(
    alloc: Global,
    net: &Net,
    device: &Device,
    models: &List<Model>,
    commands: &Commands,
    k: &mut K,
) -> Result<u64, StoreFault>
    requires well_formed { IsNet net.now }
    requires models { AreModels net.now models.now.items }
    requires clocks { length (pins InReset 0 commands.now) ≤ 1000000000 }
    requires scans { scans_in commands.now ≤ 1000000000 }
    ensures whole { OnOk result (Adds (K.taken k.old) (K.taken k.new)
        (play_report net.now device.now (map seen_model models.now.items) commands.now)) }
    ensures differs { IfOk result
        (λ n. n ≡ length (differs_of net.now device.now (map seen_model models.now.items) commands.now)) }
    ensures part { OnErr result (AddsPart (K.taken k.old) (K.taken k.new)
        (play_report net.now device.now (map seen_model models.now.items) commands.now)) }
    ensures cause { HasCause (K.faults k.old) (K.faults k.new) result StoreFault.Failed }
{
    put_named_play(alloc, net, device, models, commands, &mut NoNames, k)
}
