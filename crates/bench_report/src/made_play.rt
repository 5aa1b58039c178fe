// A play that is counted and not printed.
ghost use Rattle.std.specs.Prelude.{◌≡◌, ◌+◌, ◌^◌, ◌<◌, ◌≤◌, length, map, IfOk};
ghost use Rattle.bench_report.specs.Report.{chip_of, differs_of};
ghost use Rattle.instruments.specs.Seen.{seen_model};
ghost use Rattle.net_bench.specs.Pieces.{piece_compares};
ghost use Rattle.net_bench.specs.Playing.{compare_of, compares, differing};
ghost use Rattle.net_graph.specs.Nets.{IsNet};
ghost use Rattle.instruments.specs.Runners.{AreModels};
ghost use Rattle.tap_machine.specs.declared.Stable.TheVariants.{Reset as InReset};
ghost use Rattle.tap_machine.specs.Play.{pins, scans_in};

use ij_bits::{List, OutOfMemory};
use instruments::Model;
use net_bench::{Bench, Played};
use net_graph::{Device, Net};
use std::alloc::Global;
use svf_writer::Commands;
use tap_machine::{Pins, Player, Stable};

/// How many clocks a play took, and how many of its compares differ.
#[derive(Clone, Copy, Drop)]
pub(crate) struct Counted {
    pub clocks: u64,
    pub differs: u64,
}

/// How many compares of a clock differ, 1 or 0.
fn differs_at(pins: Pins, found: bool) -> u64
    ensures { result ≡ length (differing (compare_of pins.expect pins.scan pins.bit found)) }
{
    if let Some(expect) = pins.expect {
        if expect != found {
            return 1;
        }
    }
    0
}

/// How many compares of some clocks differ.
fn differs_in(played: &Played) -> u64
    requires few { played.now.piece.count ≤ 64 }
    requires short { played.now.piece.bit + played.now.piece.count < 2 ^ 32 }
    ensures { result ≡ length (differing (piece_compares played.now)) }
{
    let mut differs = 0u64;
    if played.may_differ() {
        for i in 0..played.piece.count {
            differs += differs_at(played.piece.at(i), played.found_at(i));
        }
    }
    differs
}

/// Plays to the end.
fn count_play(player: &mut Player, bench: &mut Bench) -> Counted
    requires { length player.old.pins ≤ 1000000000 }
    ensures clocks { result.clocks ≡ length player.old.pins }
    ensures differs { result.differs
        ≡ length (differing (compares (chip_of bench.old) player.old.pins bench.old.state)) }
{
    let mut clocks = 0u64;
    let mut differs = 0u64;
    while let Some(played) = bench.play(player) {
        differs += differs_in(&played);
        clocks += u64::from(played.piece.count);
    }
    Counted { clocks, differs }
}

/// Plays commands on a bench from power-up, and counts.
pub(crate) fn played(
    alloc: Global,
    net: &Net,
    device: &Device,
    models: &List<Model>,
    commands: &Commands,
) -> Result<Counted, OutOfMemory>
    requires well_formed { IsNet net.now }
    requires models { AreModels net.now models.now.items }
    requires clocks { length (pins InReset 0 commands.now) ≤ 1000000000 }
    requires scans { scans_in commands.now ≤ 1000000000 }
    ensures clocks { IfOk result (λ c. c.clocks ≡ length (pins InReset 0 commands.now)) }
    ensures differs { IfOk result (λ c. c.differs
        ≡ length (differs_of net.now device.now (map seen_model models.now.items) commands.now)) }
{
    let mut bench = Bench::new(alloc, net, device, models)?;
    let mut player = Player::new(Stable::Reset, 0, commands);
    Ok(count_play(&mut player, &mut bench))
}
