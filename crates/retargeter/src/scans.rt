// The scans of one round.
ghost use Rattle.std.specs.Prelude.{◌≡◌, true, OnOk, OnErr};
ghost use Rattle.ij_io.specs.Bytes.{Adds, AddsPart};
ghost use Rattle.ij_io.specs.Causes.{HasCause};
ghost use Rattle.net_graph.specs.Groups.{registers_of, IsEmpty};
ghost use Rattle.net_graph.specs.Path.{route_of};
ghost use Rattle.net_graph.specs.SeenSteps.{seen_group};
ghost use Rattle.net_graph.specs.Writes.{write_all};
ghost use Rattle.net_tree.specs.ScanPlans.{seen_plan};
ghost use Rattle.path_planner.specs.Opening.{CanOpen};
ghost use Rattle.path_planner.specs.Plans.{Settles};
ghost use Rattle.path_planner.specs.Settling.{all_on};
ghost use Rattle.scan_packer.specs.HeldPaths.{HasPathRoom, IsHeldPath};
ghost use Rattle.svf_writer.specs.SeenCommands.{SDR};
ghost use Rattle.svf_writer.specs.Written.{text_of};
ghost use Rattle.headline.specs.Rounds.{IsPlannable};
ghost use Rattle.headline.specs.Retargeting.{IsRetargetable};
ghost use Rattle.headline.specs.Scans.{scan_of};
ghost use Rattle.path_planner.specs.Scannable.{IsScannable};
ghost use Rattle.retargeter.specs.Room.{HasScanRoom};
ghost use Rattle.retargeter.specs.Writing.{WritesGroup, WritesGroupPart, IsAfterGroup};

use crate::buffers::Buffers;
use crate::scan::put_scan_on;
use ij_io::{Sink, StoreFault};
use net_graph::{Group, Holds, Net};
use net_tree::{ScanPlan, Tree};
use path_planner::{OpeningPlans, take_plan_writes, take_writes};
use scan_packer::HeldPath;
use std::alloc::Global;

/// Writes a scan that opens the way to a group's registers, and goes on to what is held after it and to the
/// active path then. After a refusal they are as before. Takes no memory.
fn put_opening<K: Sink>(
    net: &Net,
    tree: &Tree,
    _group: &Group,
    plan: &ScanPlan,
    holds: &mut Holds,
    path: &mut HeldPath,
    buffers: &mut Buffers,
    k: &mut K,
) -> Result<(), StoreFault>
    requires can { CanOpen net.now tree.now (seen_group _group.now) holds.old }
    requires plan { Settles net.now tree.now (seen_group _group.now) holds.old (seen_plan plan.now) }
    requires path { IsHeldPath net.now holds.old path.old }
    requires path_room { HasPathRoom net.now path.old }
    requires room { HasScanRoom net.now buffers.old }
    ensures whole { OnOk result (Adds (K.taken k.old) (K.taken k.new)
        (text_of (SDR (scan_of net.now holds.old (route_of net.now holds.old) (seen_plan plan.now))))) }
    ensures part { OnErr result (AddsPart (K.taken k.old) (K.taken k.new)
        (text_of (SDR (scan_of net.now holds.old (route_of net.now holds.old) (seen_plan plan.now))))) }
    ensures cause { HasCause (K.faults k.old) (K.faults k.new) result StoreFault.Failed }
    ensures holds { OnOk result (holds.new ≡ write_all holds.old plan.now.writes.items) }
    ensures scannable { IsScannable net.now holds.new }
    ensures path { IsHeldPath net.now holds.new path.new }
    ensures path_room { HasPathRoom net.now path.new }
    ensures room { HasScanRoom net.now buffers.new }
{
    put_scan_on(
        net,
        holds,
        path,
        plan.writes.as_slice(),
        plan.reads.as_slice(),
        buffers,
        k,
    )?;
    take_plan_writes(holds, plan);
    path.find(net, tree, holds);
    Ok(())
}

/// Writes the scan of a group whose registers are on the active path, and goes on to what is held after it.
/// The path stays, and holds what was shifted in. After a refusal all is as before. Takes no memory.
fn put_last<K: Sink>(
    net: &Net,
    _tree: &Tree,
    group: &Group,
    holds: &mut Holds,
    path: &mut HeldPath,
    buffers: &mut Buffers,
    k: &mut K,
) -> Result<(), StoreFault>
    requires can { CanOpen net.now _tree.now (seen_group group.now) holds.old }
    requires named { ¬ IsEmpty (seen_group group.now) }
    requires on_path { all_on net.now (registers_of (seen_group group.now)) holds.old ≡ true }
    requires path { IsHeldPath net.now holds.old path.old }
    requires path_room { HasPathRoom net.now path.old }
    requires room { HasScanRoom net.now buffers.old }
    ensures whole { OnOk result (Adds (K.taken k.old) (K.taken k.new)
        (text_of (SDR (scan_of net.now holds.old (route_of net.now holds.old) (seen_group group.now))))) }
    ensures part { OnErr result (AddsPart (K.taken k.old) (K.taken k.new)
        (text_of (SDR (scan_of net.now holds.old (route_of net.now holds.old) (seen_group group.now))))) }
    ensures cause { HasCause (K.faults k.old) (K.faults k.new) result StoreFault.Failed }
    ensures holds { OnOk result (holds.new ≡ write_all holds.old group.now.writes.items) }
    ensures scannable { IsScannable net.now holds.new }
    ensures path { IsHeldPath net.now holds.new path.new }
    ensures path_room { HasPathRoom net.now path.new }
    ensures room { HasScanRoom net.now buffers.new }
{
    put_scan_on(
        net,
        holds,
        path,
        group.writes.as_slice(),
        group.reads.as_slice(),
        buffers,
        k,
    )?;
    take_writes(holds, group.writes.as_slice());
    path.take_bits(net, holds, &mut buffers.tdi);
    Ok(())
}

/// Plans the scans of a group and writes each. The path is found anew after those that select, and kept after
/// the group's own. After a refusal the update stages can still be scanned.
pub(crate) fn put_group<K: Sink>(
    alloc: Global,
    net: &Net,
    tree: &Tree,
    group: &Group,
    holds: &mut Holds,
    path: &mut HeldPath,
    buffers: &mut Buffers,
    k: &mut K,
) -> Result<(), StoreFault>
    requires network { IsRetargetable net.now tree.now }
    requires scannable { IsScannable net.now holds.old }
    requires group { IsPlannable net.now tree.now (seen_group group.now) }
    requires path { IsHeldPath net.now holds.old path.old }
    requires path_room { HasPathRoom net.now path.old }
    requires room { HasScanRoom net.now buffers.old }
    ensures whole { OnOk result
        (WritesGroup net.now tree.now holds.old (seen_group group.now) (K.taken k.old) (K.taken k.new)) }
    ensures part { OnErr result
        (WritesGroupPart net.now tree.now holds.old (seen_group group.now) (K.taken k.old) (K.taken k.new)) }
    ensures cause { HasCause (K.faults k.old) (K.faults k.new) result StoreFault.Failed }
    ensures holds { OnOk result (IsAfterGroup net.now tree.now holds.old (seen_group group.now) holds.new) }
    ensures scannable { IsScannable net.now holds.new }
    ensures path { IsHeldPath net.now holds.new path.new }
    ensures path_room { HasPathRoom net.now path.new }
    ensures room { HasScanRoom net.now buffers.new }
{
    let mut plans = OpeningPlans::of(alloc, group)?;
    let mut scans: u32 = 0;
    'opening: while let Some(plan) = plans.next(
        alloc,
        net,
        tree,
        group,
        holds,
        path.route.regs().as_slice(),
    )? {
        put_opening(net, tree, group, &plan, holds, path, buffers, k)?;
        scans += 1;
    }
    put_last(net, tree, group, holds, path, buffers, k)
}
