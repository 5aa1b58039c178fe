// A run, printed.
ghost use Rattle.std.specs.Prelude.{◌≡◌, ◌≤◌, ◌<◌, ◌^◌, length, map, IfOk, OnOk, OnErr};
ghost use Rattle.bench_report.specs.Report.{differs_of};
ghost use Rattle.merge_order.specs.BitSteps.{bit_steps};
ghost use Rattle.ij_io.specs.Causes.{HasCause};
ghost use Rattle.ij_text.specs.Numbering.{AreDistinct};
ghost use Rattle.instruments.specs.Runners.{AreModels};
ghost use Rattle.instruments.specs.Seen.{seen_model};
ghost use Rattle.pdl_parser.specs.Grammar.{full_names};
ghost use Rattle.pdl_parser.specs.Views.{seen_proc};
ghost use Rattle.run_report.specs.Procedure.{CanRetarget};
ghost use Rattle.run_report.specs.Report.{WritesReport, WritesReportPart};
ghost use Rattle.tap_machine.specs.declared.Stable.TheVariants.{Reset as InReset};
ghost use Rattle.tap_machine.specs.Play.{pins, scans_in};

use crate::names::ReadPlaces;
use bench_report::put_named_play;
use ij_bits::List;
use ij_io::{Sink, StoreFault};
use instruments::Model;
use net_graph::{Device, Net};
use net_tree::Tree;
use pdl_parser::Proc;
use std::alloc::Global;
use svf_writer::Commands;

/// Plays commands from power-up on a device with a scan network and its instruments, and prints the report of
/// the play, in which each compare that differs names the iRead of a procedure that is at its scan and
/// position (Serial Vector Format, revision E; IEEE 1687-2014, PDL level 0). `models` has a model for each
/// instrument, in the network's order. Answers how many compares differ.
///
/// # Errors
///
/// Those of the sink, which then took some first bytes of the report, and `OutOfMemory` where there is no
/// memory for the bench or to find an iRead.
pub fn put_run<K: Sink>(
    alloc: Global,
    procs: &[Proc],
    net: &Net,
    tree: &Tree,
    name: &[u8],
    device: &Device,
    models: &List<Model>,
    commands: &Commands,
    k: &mut K,
) -> Result<u64, StoreFault>
    requires procs { AreDistinct (full_names (map seen_proc procs.now)) }
    requires few { length procs.now < 2 ^ 32 }
    requires can { CanRetarget net.now tree.now
        (bit_steps (map seen_proc procs.now) net.now tree.now name.now) }
    requires models { AreModels net.now models.now.items }
    requires clocks { length (pins InReset 0 commands.now) ≤ 1000000000 }
    requires scans { scans_in commands.now ≤ 1000000000 }
    ensures whole { OnOk result (WritesReport net.now tree.now device.now (map seen_model models.now.items)
        (bit_steps (map seen_proc procs.now) net.now tree.now name.now).steps commands.now
        (K.taken k.old) (K.taken k.new)) }
    ensures differs { IfOk result
        (λ n. n ≡ length (differs_of net.now device.now (map seen_model models.now.items) commands.now)) }
    ensures part { OnErr result (WritesReportPart net.now tree.now device.now
        (map seen_model models.now.items) (bit_steps (map seen_proc procs.now) net.now tree.now
        name.now).steps commands.now (K.taken k.old) (K.taken k.new)) }
    ensures cause { HasCause (K.faults k.old) (K.faults k.new) result StoreFault.Failed }
{
    let mut reads = ReadPlaces::new(alloc, procs, net, tree, name);
    put_named_play(alloc, net, device, models, commands, &mut reads, k)
}
