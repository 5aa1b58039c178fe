// The scans of a play, one at a time.
ghost use Rattle.std.specs.Prelude.{◌≡◌, ◌++◌, ◌∷◌, ◌+◌, ◌<◌, ◌≤◌, ◌^◌, [], IfOk, MatchOption, OnOk};
ghost use Rattle.ij_bits.specs.BitLists.{bits_of};
ghost use Rattle.bench_report.specs.Report.{chip_of};
ghost use Rattle.svf_notes.specs.Scans.{scans_of, shifted_bits};
ghost use Rattle.tap_machine.specs.Pieces.{piece_pins};

use crate::bits::{BitPart, ScanBits};
use ij_bits::OutOfMemory;
use net_bench::{Bench, Played};
use tap_machine::Player;

/// What is at TDI and TDO at one clock that shifts, and what is expected at TDO.
#[derive(Clone, Copy, Drop)]
pub(crate) struct Shifted {
    pub tdi: bool,
    pub expect: Option<bool>,
    pub found: bool,
}

/// Which of its values is shown of a bit.
#[derive(Clone, Copy)]
pub(crate) enum Shown {
    /// The one at TDI.
    Written,
    /// The one that is expected at TDO.
    Expected,
    /// The one that is found there, where it is compared.
    Found,
}

/// Adds the bits of some clocks that shift.
fn add_bits(played: &Played, bits: &mut ScanBits) -> Result<(), OutOfMemory>
    requires few { played.now.piece.count ≤ 64 }
    ensures { OnOk result (bits.new.items ≡ bits.old.items
        ++ shifted_bits (piece_pins played.now.piece) (bits_of played.now.piece.count played.now.found)) }
{
    bits.append(&BitPart {
        count: played.piece.count,
        tdi: played.piece.tdi,
        compared: played.piece.compared,
        expected: played.piece.expected,
        found: played.found,
    })
}

/// Plays up to the last shift clock of the next scan, so before its update; answers the scan's number, and
/// `None` where the play ends first. `bits` becomes its bits, position 0 first.
pub(crate) fn next_scan(
    player: &mut Player,
    bench: &mut Bench,
    bits: &mut ScanBits,
) -> Result<Option<u32>, OutOfMemory>
    ensures bench { bench.new ≡ record bench.old { state = bench.new.state } }
    ensures scan { IfOk result
        (λ number. MatchOption number ((scans_of (chip_of bench.old) player.old.pins bench.old.state ≡ [])
        × (player.new.pins ≡ [])) (λ n. scans_of (chip_of bench.old) player.old.pins bench.old.state
        ≡ record { number = n; bits = bits.new.items; state = bench.new.state }
        ∷ scans_of (chip_of bench.old) player.new.pins bench.new.state)) }
{
    bits.clear();
    while let Some(played) = bench.play(player) {
        if played.piece.scan != 0 {
            add_bits(&played, bits)?;
            if played.piece.tms {
                return Ok(Some(played.piece.scan));
            }
        }
    }
    Ok(None)
}
