// The rounds of an iApply.
ghost use Rattle.std.specs.Prelude.{◌<◌, ◌≤◌, length, map, All, OnOk, OnErr};
ghost use Rattle.ij_io.specs.Bytes.{Adds, AddsPart};
ghost use Rattle.ij_io.specs.Causes.{HasCause};
ghost use Rattle.net_graph.specs.SeenSteps.{seen_group};
ghost use Rattle.path_planner.specs.Scannable.{IsScannable};
ghost use Rattle.scan_packer.specs.HeldPaths.{HasPathRoom, IsHeldPath};
ghost use Rattle.headline.specs.Rounds.{IsPlannable};
ghost use Rattle.headline.specs.Retargeting.{IsRetargetable};
ghost use Rattle.retargeter.specs.Room.{HasScanRoom};
ghost use Rattle.retargeter.specs.Writing.{front, WritesRound, WritesRoundPart, IsAfterGroup, WritesRounds};
ghost use Rattle.retargeter.specs.Writing.{WritesRoundsPart, IsAfterRounds};

use crate::buffers::Buffers;
use crate::scans::put_group;
use ij_io::{Sink, StoreFault};
use net_graph::{Group, Holds, Net};
use net_tree::Tree;
use scan_packer::HeldPath;
use std::alloc::Global;
use svf_writer::{put_apply_mark, put_round_mark};

/// Writes the comment before a round, by the numbers of its iApply and of the round, counted from 1. Takes no
/// memory.
fn put_comment<K: Sink>(apply: u32, round: u32, k: &mut K) -> Result<(), StoreFault>
    requires some { 1 ≤ round }
    ensures whole { OnOk result (Adds (K.taken k.old) (K.taken k.new) (front apply round)) }
    ensures part { OnErr result (AddsPart (K.taken k.old) (K.taken k.new) (front apply round)) }
    ensures cause { HasCause (K.faults k.old) (K.faults k.new) result StoreFault.Failed }
{
    if round == 1 {
        put_apply_mark(apply, k)
    } else {
        put_round_mark(apply, round, k)
    }
}

/// Writes a round: its comment and its scans.
fn put_marked<K: Sink>(
    alloc: Global,
    net: &Net,
    tree: &Tree,
    apply: u32,
    round: u32,
    group: &Group,
    holds: &mut Holds,
    path: &mut HeldPath,
    buffers: &mut Buffers,
    k: &mut K,
) -> Result<(), StoreFault>
    requires network { IsRetargetable net.now tree.now }
    requires scannable { IsScannable net.now holds.old }
    requires some { 1 ≤ round }
    requires group { IsPlannable net.now tree.now (seen_group group.now) }
    requires path { IsHeldPath net.now holds.old path.old }
    requires path_room { HasPathRoom net.now path.old }
    requires room { HasScanRoom net.now buffers.old }
    ensures whole { OnOk result (WritesRound net.now tree.now holds.old apply round
        (seen_group group.now) (K.taken k.old) (K.taken k.new)) }
    ensures part { OnErr result (WritesRoundPart net.now tree.now holds.old apply round
        (seen_group group.now) (K.taken k.old) (K.taken k.new)) }
    ensures cause { HasCause (K.faults k.old) (K.faults k.new) result StoreFault.Failed }
    ensures holds { OnOk result (IsAfterGroup net.now tree.now holds.old (seen_group group.now) holds.new) }
    ensures scannable { IsScannable net.now holds.new }
    ensures path { IsHeldPath net.now holds.new path.new }
    ensures path_room { HasPathRoom net.now path.new }
    ensures room { HasScanRoom net.now buffers.new }
{
    put_comment(apply, round, k)?;
    put_group(alloc, net, tree, group, holds, path, buffers, k)?;
    Ok(())
}

/// Writes the rounds of an iApply, by its number, counted from 1. After a refusal the update stages can still
/// be scanned.
pub(crate) fn put_rounds<K: Sink>(
    alloc: Global,
    net: &Net,
    tree: &Tree,
    apply: u32,
    rounds: &[Group],
    holds: &mut Holds,
    path: &mut HeldPath,
    buffers: &mut Buffers,
    k: &mut K,
) -> Result<(), StoreFault>
    requires network { IsRetargetable net.now tree.now }
    requires scannable { IsScannable net.now holds.old }
    requires groups { All (IsPlannable net.now tree.now) (map seen_group rounds.now) }
    requires few { length rounds.now ≤ 4096 }
    requires path { IsHeldPath net.now holds.old path.old }
    requires path_room { HasPathRoom net.now path.old }
    requires room { HasScanRoom net.now buffers.old }
    ensures whole { OnOk result (WritesRounds net.now tree.now holds.old apply
        (map seen_group rounds.now) (K.taken k.old) (K.taken k.new)) }
    ensures part { OnErr result (WritesRoundsPart net.now tree.now holds.old apply
        (map seen_group rounds.now) (K.taken k.old) (K.taken k.new)) }
    ensures cause { HasCause (K.faults k.old) (K.faults k.new) result StoreFault.Failed }
    ensures holds { OnOk result
        (IsAfterRounds net.now tree.now holds.old apply (map seen_group rounds.now) holds.new) }
    ensures scannable { IsScannable net.now holds.new }
    ensures path { IsHeldPath net.now holds.new path.new }
    ensures path_room { HasPathRoom net.now path.new }
    ensures room { HasScanRoom net.now buffers.new }
{
    let mut round = 1;
    for group in rounds {
        put_marked(
            alloc, net, tree, apply, round, group, holds, path, buffers, k,
        )?;
        round += 1;
    }
    Ok(())
}
