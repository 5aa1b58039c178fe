// What the update stages hold before a scan of a play.
ghost use Rattle.std.specs.Prelude.{◌≡◌, ◌≤◌, cond, length, map, IfOk, IfSome, None, Some};
ghost use Rattle.instruments.specs.Runners.{AreModels};
ghost use Rattle.instruments.specs.Seen.{seen_model};
ghost use Rattle.net_graph.specs.Held.{AreHolds};
ghost use Rattle.net_graph.specs.Nets.{IsNet};
ghost use Rattle.bench_report.specs.Report.{chip_of};
ghost use Rattle.svf_notes.specs.Before.{held_at, holds_before};
ghost use Rattle.tap_machine.specs.Play.{scans_in};

use ij_bits::{List, OutOfMemory};
use instruments::Model;
use net_bench::Bench;
use net_graph::{Device, Holds, Net};
use std::alloc::Global;
use svf_writer::Commands;
use tap_machine::{Player, Stable, scan_count};

/// Plays up to the first bit of the scan of a number, or to the end; answers whether that is what was asked
/// for, where `end` is the number that asks for the end.
fn play_to(player: &mut Player, bench: &mut Bench, scan: u64, end: u64) -> bool
    ensures bench { bench.new ≡ record bench.old { state = bench.new.state } }
    ensures found { held_at (chip_of bench.old) scan end player.old.pins bench.old.state
        ≡ cond result (Some bench.new.state.holds) None }
{
    while let Some(pins) = player.next() {
        if u64::from(pins.scan) == scan {
            return true;
        }
        bench.clock(pins.tms, pins.tdi);
    }
    scan == end
}

/// What the update stages hold before the scan of a number, or at the end of a play where the number is one
/// more than there are scans; `None` where there is no such scan (Serial Vector Format, revision E: SIR, SDR;
/// IEEE 1687-2014, hardware rules: update). `commands` are played from power-up on a device with a scan
/// network and its instruments, of which `models` has one for each, in the network's order. Scans are counted
/// from 1 over SIR and SDR alike.
///
/// # Errors
///
/// `OutOfMemory`, where there is no memory for the bench or for the copy of what the update stages hold.
pub fn holds_at(
    alloc: Global,
    net: &Net,
    device: &Device,
    models: &List<Model>,
    commands: &Commands,
    scan: u64,
) -> Result<Option<Holds>, OutOfMemory>
    requires well_formed { IsNet net.now }
    requires models { AreModels net.now models.now.items }
    requires scans { scans_in commands.now ≤ 1000000000 }
    ensures holds { IfOk result (λ found. found
        ≡ holds_before net.now device.now (map seen_model models.now.items) commands.now scan) }
    ensures shape { IfOk result (λ found. IfSome found (AreHolds net.now)) }
{
    if scan == 0 {
        return Ok(None);
    }
    let mut bench = Bench::new(alloc, net, device, models)?;
    let mut player = Player::new(Stable::Reset, 0, commands);
    let end = u64::from(scan_count(commands)) + 1;
    if play_to(&mut player, &mut bench, scan, end) {
        Ok(Some(bench.holds().copy(alloc)?))
    } else {
        Ok(None)
    }
}
