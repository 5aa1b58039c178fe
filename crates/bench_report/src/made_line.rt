// The line of a made design.
ghost use Rattle.std.specs.Prelude.{◌≡◌, ◌≤◌, length, map, OnOk, OnErr, IfOk};
ghost use Rattle.bench_report.specs.Report.{differs_of};
ghost use Rattle.ij_io.specs.Bytes.{Adds, AddsPart};
ghost use Rattle.ij_io.specs.Causes.{HasCause};
ghost use Rattle.instruments.specs.Seen.{seen_model};
ghost use Rattle.bench_report.specs.MadeReport.{made_report};
ghost use Rattle.net_graph.specs.Nets.{IsNet};
ghost use Rattle.instruments.specs.Runners.{AreModels};
ghost use Rattle.tap_machine.specs.declared.Stable.TheVariants.{Reset as InReset};
ghost use Rattle.tap_machine.specs.Play.{pins, scans_in};

use crate::made_play::played;
use ij_bits::List;
use ij_io::{Sink, StoreFault};
use instruments::Model;
use net_graph::{Device, Net, register_count};
use report::{Totals, put_totals};
use std::alloc::Global;
use svf_writer::Commands;
use tap_machine::scan_count;

/// Plays commands from power-up on a device with a scan network and its instruments, and prints one line:
/// `made registers R muxes M instruments I groups G scans S clocks C differs D`. R, M and I are what the
/// network has (IEEE 1687-2014), G is `groups`, the number of groups that the procedure's iApply commands
/// make, S, C and D are the scans, the clocks of TCK and the compares that differ (Serial Vector Format,
/// revision E). `models` has a model for each instrument, in the network's order. Answers how many compares
/// differ.
///
/// # Errors
///
/// Those of the sink, which then took some first bytes of the line, and `OutOfMemory` where there is no
/// memory for the bench. The play itself takes none.
pub fn put_made<K: Sink>(
    alloc: Global,
    net: &Net,
    device: &Device,
    models: &List<Model>,
    commands: &Commands,
    groups: u32,
    k: &mut K,
) -> Result<u64, StoreFault>
    requires well_formed { IsNet net.now }
    requires models { AreModels net.now models.now.items }
    requires clocks { length (pins InReset 0 commands.now) ≤ 1000000000 }
    requires scans { scans_in commands.now ≤ 1000000000 }
    ensures whole { OnOk result (Adds (K.taken k.old) (K.taken k.new)
        (made_report net.now device.now (map seen_model models.now.items) commands.now groups)) }
    ensures differs { IfOk result
        (λ n. n ≡ length (differs_of net.now device.now (map seen_model models.now.items) commands.now)) }
    ensures part { OnErr result (AddsPart (K.taken k.old) (K.taken k.new)
        (made_report net.now device.now (map seen_model models.now.items) commands.now groups)) }
    ensures cause { HasCause (K.faults k.old) (K.faults k.new) result StoreFault.Failed }
{
    let counted = played(alloc, net, device, models, commands)?;
    let totals = Totals::Made {
        registers: register_count(net),
        muxes: net.muxes.len() as u32,
        instruments: net.insts.len() as u32,
        groups,
        scans: scan_count(commands),
        clocks: counted.clocks,
        differs: counted.differs,
    };
    put_totals(&totals, k)?;
    Ok(counted.differs)
}
