// The compares of a play.
ghost use Rattle.std.specs.Prelude.{◌≡◌, ◌+◌, ◌^◌, ◌<◌, ◌≤◌, [], ◌∷◌, length, OnOk, OnErr, IfOk};
ghost use Rattle.ij_io.specs.Bytes.{Adds, AddsPart};
ghost use Rattle.ij_io.specs.Causes.{HasCause};
ghost use Rattle.net_bench.specs.Pieces.{piece_compares};
ghost use Rattle.net_bench.specs.Playing.{compare_of, compares, after_pins, differing};
ghost use Rattle.bench_report.specs.Report.{Names, chip_of, compare_at, named_lines};

use crate::names::ReadNames;
use ij_io::{Sink, StoreFault};
use net_bench::{Bench, Played};
use report::{Differ, put_differ};
use tap_machine::{Pins, Player};

/// How many clocks a play took, and how many of its compares differ.
#[derive(Clone, Copy)]
pub(crate) struct Counted {
    pub clocks: u64,
    pub differs: u64,
}

/// Writes the line of a compare that differs, with its iRead.
fn put_differing_compare<N: ReadNames, K: Sink>(
    names: &mut N,
    pins: &Pins,
    expect: bool,
    found: bool,
    k: &mut K,
) -> Result<(), StoreFault>
    ensures whole { OnOk result ((ns : Names) → N.AreNames names.old ns
        → Adds (K.taken k.old) (K.taken k.new) (named_lines ns (compare_at pins.now expect found ∷ []))) }
    ensures part { OnErr result ((ns : Names) → N.AreNames names.old ns
        → AddsPart (K.taken k.old) (K.taken k.new) (named_lines ns (compare_at pins.now expect found ∷ []))) }
    ensures cause { HasCause (K.faults k.old) (K.faults k.new) result StoreFault.Failed }
    ensures names { (ns : Names) → N.AreNames names.old ns → N.AreNames names.new ns }
{
    let differ = Differ {
        scan: pins.scan,
        bit: pins.bit,
        expect,
        found,
        read: names.read_at(pins.scan, pins.bit)?,
    };
    put_differ(&differ, k)
}

/// Writes the line of a clock's compare, if it differs; answers how many lines that are.
fn put_compare<N: ReadNames, K: Sink>(
    names: &mut N,
    pins: Pins,
    found: bool,
    k: &mut K,
) -> Result<u64, StoreFault>
    ensures whole { OnOk result ((ns : Names) → N.AreNames names.old ns → Adds (K.taken k.old) (K.taken k.new)
        (named_lines ns (differing (compare_of pins.expect pins.scan pins.bit found)))) }
    ensures count { IfOk result
        (λ n. n ≡ length (differing (compare_of pins.expect pins.scan pins.bit found))) }
    ensures part { OnErr result ((ns : Names) → N.AreNames names.old ns → AddsPart (K.taken k.old)
        (K.taken k.new) (named_lines ns (differing (compare_of pins.expect pins.scan pins.bit found)))) }
    ensures cause { HasCause (K.faults k.old) (K.faults k.new) result StoreFault.Failed }
    ensures names { (ns : Names) → N.AreNames names.old ns → N.AreNames names.new ns }
{
    if let Some(expect) = pins.expect {
        if expect != found {
            put_differing_compare(names, &pins, expect, found, k)?;
            return Ok(1);
        }
    }
    Ok(0)
}

/// Writes the lines of the compares of some clocks that differ; answers how many lines that are.
fn put_played_compares<N: ReadNames, K: Sink>(
    names: &mut N,
    played: &Played,
    k: &mut K,
) -> Result<u64, StoreFault>
    requires few { played.now.piece.count ≤ 64 }
    requires short { played.now.piece.bit + played.now.piece.count < 2 ^ 32 }
    ensures whole { OnOk result ((ns : Names) → N.AreNames names.old ns
        → Adds (K.taken k.old) (K.taken k.new) (named_lines ns (differing (piece_compares played.now)))) }
    ensures count { IfOk result (λ n. n ≡ length (differing (piece_compares played.now))) }
    ensures part { OnErr result ((ns : Names) → N.AreNames names.old ns
        → AddsPart (K.taken k.old) (K.taken k.new) (named_lines ns (differing (piece_compares played.now)))) }
    ensures cause { HasCause (K.faults k.old) (K.faults k.new) result StoreFault.Failed }
    ensures names { (ns : Names) → N.AreNames names.old ns → N.AreNames names.new ns }
{
    let mut differs = 0u64;
    if played.may_differ() {
        for i in 0..played.piece.count {
            differs += put_compare(names, played.piece.at(i), played.found_at(i), k)?;
        }
    }
    Ok(differs)
}

/// Plays to the end, and writes a line for each compare that differs.
pub(crate) fn put_compares<N: ReadNames, K: Sink>(
    names: &mut N,
    player: &mut Player,
    bench: &mut Bench,
    k: &mut K,
) -> Result<Counted, StoreFault>
    requires { length player.old.pins ≤ 1000000000 }
    ensures state { OnOk result (bench.new
        ≡ record bench.old { state = after_pins (chip_of bench.old) player.old.pins bench.old.state }) }
    ensures whole { OnOk result ((ns : Names) → N.AreNames names.old ns → Adds (K.taken k.old) (K.taken k.new)
        (named_lines ns (differing (compares (chip_of bench.old) player.old.pins bench.old.state)))) }
    ensures clocks { IfOk result (λ c. c.clocks ≡ length player.old.pins) }
    ensures differs { IfOk result
        (λ c. c.differs ≡ length (differing (compares (chip_of bench.old) player.old.pins bench.old.state))) }
    ensures part { OnErr result ((ns : Names) → N.AreNames names.old ns → AddsPart (K.taken k.old) (K.taken
        k.new) (named_lines ns (differing (compares (chip_of bench.old) player.old.pins bench.old.state)))) }
    ensures cause { HasCause (K.faults k.old) (K.faults k.new) result StoreFault.Failed }
{
    let mut clocks = 0u64;
    let mut differs = 0u64;
    while let Some(played) = bench.play(player) {
        differs += put_played_compares(names, &played, k)?;
        clocks += u64::from(played.piece.count);
    }
    Ok(Counted { clocks, differs })
}
