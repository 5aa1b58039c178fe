// The reads of plans, of a group, of the rounds of an iApply and of a bit step.
ghost use Rattle.std.specs.Prelude.{◌≡◌, ◌++◌, ◌+◌, ◌*◌, ◌<◌, ◌≤◌, ◌^◌, All, length, map, OnOk, IfOk};
ghost use Rattle.pdl_targets.specs.Laws.{round_count};
ghost use Rattle.net_graph.specs.Nets.{IsNet};
ghost use Rattle.net_graph.specs.SeenSteps.{seen_group, seen_step};
ghost use Rattle.net_tree.specs.Form.{Describes};
ghost use Rattle.net_tree.specs.Routes.{HasRoom};
ghost use Rattle.net_tree.specs.ScanPlans.{seen_plan};
ghost use Rattle.path_planner.specs.Scannable.{IsScannable};
ghost use Rattle.scan_packer.specs.Packing.{CanScan};
ghost use Rattle.headline.specs.Retargeting.{IsRetargetable};
ghost use Rattle.headline.specs.Rounds.{IsPlannable, StepIsPlannable};
ghost use Rattle.headline.specs.Scans.{holds_after};
ghost use Rattle.retargeter.specs.Writing.{IsAfterGroup};
ghost use Rattle.run_report.specs.Places.{plans_places, scan_places};
ghost use Rattle.run_report.specs.Noting.{NotesGroup, ScansGroup, NotesRounds, ScansRounds, HoldsRounds};
ghost use Rattle.run_report.specs.Noting.{NotesStep, ScansStep, HoldsStep};
ghost use Rattle.run_report.specs.Scanning.{CanScanAll};

use crate::place::{ReadPlace, note_reads};
use ij_bits::{List, OutOfMemory};
use net_graph::{BitStep, Group, Holds, Net};
use net_tree::{Route, ScanPlan, Tree};
use path_planner::{plan_group, take_plan_writes};
use std::alloc::Global;

/// Notes the reads of one plan.
fn note_plan_reads(
    net: &Net,
    tree: &Tree,
    holds: &Holds,
    plan: &ScanPlan,
    scan: u32,
    route: &mut Route,
    places: &mut List<ReadPlace>,
) -> Result<(), OutOfMemory>
    requires well_formed { IsNet net.now }
    requires tree { Describes net.now tree.now }
    requires scannable { IsScannable net.now holds.now }
    requires plan { CanScan net.now holds.now (seen_plan plan.now) }
    requires room { HasRoom net.now route.old }
    ensures places { OnOk result
        (places.new.items ≡ places.old.items ++ scan_places net.now holds.now scan plan.now.reads.items) }
    ensures room { HasRoom net.now route.new }
{
    tree.walk(net, holds, route);
    let path = route.regs().as_slice();
    let reads = plan.reads.as_slice();
    note_reads(places, net, path, scan, reads)
}

/// Notes the reads of plans that are scanned one after the other, after this many scans.
fn note_plans_reads(
    net: &Net,
    tree: &Tree,
    holds: &mut Holds,
    plans: &[ScanPlan],
    scans: u32,
    route: &mut Route,
    places: &mut List<ReadPlace>,
) -> Result<(), OutOfMemory>
    requires well_formed { IsNet net.now }
    requires tree { Describes net.now tree.now }
    requires plans { CanScanAll net.now holds.old (map seen_plan plans.now) }
    requires few { scans + length plans.now < 2 ^ 32 }
    requires room { HasRoom net.now route.old }
    ensures places { OnOk result (places.new.items
        ≡ places.old.items ++ plans_places net.now holds.old scans (map seen_plan plans.now)) }
    ensures holds { OnOk result (holds.new ≡ holds_after holds.old (map seen_plan plans.now)) }
    ensures scannable { OnOk result (IsScannable net.now holds.new) }
    ensures room { HasRoom net.now route.new }
{
    let mut scan = scans;
    for plan in plans {
        scan += 1;
        note_plan_reads(net, tree, holds, plan, scan, route, places)?;
        take_plan_writes(holds, plan);
    }
    Ok(())
}

/// Notes the reads of a group after this many scans; answers how many scans it has.
fn note_group_reads(
    alloc: Global,
    net: &Net,
    tree: &Tree,
    holds: &mut Holds,
    group: &Group,
    scans: u32,
    route: &mut Route,
    places: &mut List<ReadPlace>,
) -> Result<u32, OutOfMemory>
    requires network { IsRetargetable net.now tree.now }
    requires scannable { IsScannable net.now holds.old }
    requires group { IsPlannable net.now tree.now (seen_group group.now) }
    requires few { scans + 17 < 2 ^ 32 }
    requires room { HasRoom net.now route.old }
    ensures places { OnOk result (NotesGroup net.now tree.now holds.old
        (seen_group group.now) scans places.old.items places.new.items) }
    ensures scans { IfOk result (ScansGroup net.now tree.now holds.old (seen_group group.now)) }
    ensures few { IfOk result (λ n. n ≤ 17) }
    ensures holds { OnOk result (IsAfterGroup net.now tree.now holds.old (seen_group group.now) holds.new) }
    ensures scannable { OnOk result (IsScannable net.now holds.new) }
    ensures room { HasRoom net.now route.new }
{
    let plans = plan_group(alloc, net, tree, holds, group, route)?;
    note_plans_reads(net, tree, holds, plans.as_slice(), scans, route, places)?;
    Ok(plans.len() as u32)
}

/// Notes the reads of the rounds of an iApply after this many scans; answers how many scans there are then.
fn note_rounds_reads(
    alloc: Global,
    net: &Net,
    tree: &Tree,
    holds: &mut Holds,
    rounds: &[Group],
    scans: u32,
    route: &mut Route,
    places: &mut List<ReadPlace>,
) -> Result<u32, OutOfMemory>
    requires network { IsRetargetable net.now tree.now }
    requires scannable { IsScannable net.now holds.old }
    requires groups { All (IsPlannable net.now tree.now) (map seen_group rounds.now) }
    requires few { scans + 17 * length rounds.now < 2 ^ 32 }
    requires room { HasRoom net.now route.old }
    ensures places { OnOk result (NotesRounds net.now tree.now holds.old
        (map seen_group rounds.now) scans places.old.items places.new.items) }
    ensures scans { IfOk result (ScansRounds net.now tree.now holds.old (map seen_group rounds.now) scans) }
    ensures few { IfOk result (λ n. n ≤ scans + 17 * length rounds.now) }
    ensures holds { OnOk result
        (HoldsRounds net.now tree.now holds.old (map seen_group rounds.now) holds.new) }
    ensures scannable { OnOk result (IsScannable net.now holds.new) }
    ensures room { HasRoom net.now route.new }
{
    let mut now = scans;
    for group in rounds {
        now += note_group_reads(alloc, net, tree, holds, group, now, route, places)?;
    }
    Ok(now)
}

/// Notes the reads of a bit step after this many scans; answers how many scans there are then. A reset loads
/// the instruction in one.
pub(crate) fn note_step_reads(
    alloc: Global,
    net: &Net,
    tree: &Tree,
    holds: &mut Holds,
    step: &BitStep,
    scans: u32,
    route: &mut Route,
    places: &mut List<ReadPlace>,
) -> Result<u32, OutOfMemory>
    requires network { IsRetargetable net.now tree.now }
    requires scannable { IsScannable net.now holds.old }
    requires step { StepIsPlannable net.now tree.now (seen_step step.now) }
    requires few { scans + 17 * round_count (seen_step step.now) + 1 < 2 ^ 32 }
    requires room { HasRoom net.now route.old }
    ensures places { OnOk result
        (NotesStep net.now tree.now holds.old (seen_step step.now) scans places.old.items places.new.items) }
    ensures scans { IfOk result (ScansStep net.now tree.now holds.old (seen_step step.now) scans) }
    ensures few { IfOk result (λ n. n ≤ scans + 17 * round_count (seen_step step.now) + 1) }
    ensures holds { OnOk result (HoldsStep net.now tree.now holds.old (seen_step step.now) holds.new) }
    ensures scannable { OnOk result (IsScannable net.now holds.new) }
    ensures room { HasRoom net.now route.new }
{
    match step {
        BitStep::Apply(rounds) => note_rounds_reads(
            alloc,
            net,
            tree,
            holds,
            rounds.as_slice(),
            scans,
            route,
            places,
        ),
        BitStep::Run(_) => Ok(scans),
        BitStep::Reset => {
            holds.reset(net);
            Ok(scans + 1)
        }
    }
}
