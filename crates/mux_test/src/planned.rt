// The scans of a test, planned.
ghost use Rattle.std.specs.Prelude.{◌≡◌, ◌+◌, ◌<◌, ◌≤◌, ◌∷◌, ◌++◌, ◌^◌, [], ℕ, drop, true, length, map, IfOk};
ghost use Rattle.std.specs.Prelude.{OnOk, IsErrOf};
ghost use Rattle.net_graph.specs.Nets.{IsNet};
ghost use Rattle.net_tree.specs.ScanPlans.{seen_plan};
ghost use Rattle.mux_test.specs.Laws.{IsTestable};
ghost use Rattle.mux_test.specs.Planned.{ArePlannedTest, row_planned, seen_planned};
ghost use Rattle.mux_test.specs.Test as test;
ghost use Rattle.mux_test.specs.declared.fault.MuxFault.TheVariants as fault;

use crate::fault::MuxFault;
use ij_bits::{List, OutOfMemory};
use net_graph::{Branch, Holds, Net, Row};
use net_tree::{Route, ScanPlan, Tree};
use path_planner::plan_row_on;
use std::alloc::Global;

/// A scan of a test, planned.
#[derive(Drop)]
pub(crate) struct PlannedScan {
    /// The row that it is for.
    pub branch: Branch,
    /// Whether it is the row's first.
    pub first: bool,
    /// What it changes.
    pub plan: ScanPlan,
}

/// The most scans that a test may have.
const LIMIT: u32 = 8192;

/// Adds the rows of a mux, from row 0 up.
fn push_rows(mux: u32, rows: &[Row], branches: &mut List<Branch>) -> Result<(), OutOfMemory>
    requires { length rows.now < 2 ^ 32 }
    ensures { OnOk result (branches.new.items ≡ branches.old.items ++ test.row_branches mux 0 rows.now) }
{
    for row in 0..rows.len() {
        branches.push(Branch {
            mux,
            row: row as u32,
        })?;
    }
    Ok(())
}

/// Every row of every mux of a network.
pub(crate) fn branches_of(alloc: Global, net: &Net) -> Result<List<Branch>, OutOfMemory>
    requires { IsNet net.now }
    ensures { IfOk result (λ branches. branches.items ≡ test.branches net.now) }
{
    let mut branches = List::new(alloc);
    for mux in 0..net.muxes.len() {
        push_rows(
            mux as u32,
            net.muxes.get(mux).rows.as_slice(),
            &mut branches,
        )?;
    }
    Ok(branches)
}

/// Adds the scans of a row's plans.
fn push_scans(
    branch: Branch,
    plans: List<ScanPlan>,
    scans: &mut List<PlannedScan>,
) -> Result<(), OutOfMemory>
    ensures { OnOk result (map seen_planned scans.new.items
        ≡ map seen_planned scans.old.items ++ row_planned branch true (map seen_plan plans.items)) }
{
    let mut left = plans.into_vec();
    left.reverse();
    let mut first = true;
    'plans: while let Some(plan) = left.pop() {
        scans.push(PlannedScan {
            branch,
            first,
            plan,
        })?;
        first = false;
    }
    Ok(())
}

/// The scans of the test of these rows, which are all rows of the network's muxes. What is held and its route
/// go on from row to row.
pub(crate) fn plan_test(
    alloc: Global,
    net: &Net,
    tree: &Tree,
    branches: &[Branch],
) -> Result<List<PlannedScan>, MuxFault>
    requires network { IsTestable net.now tree.now }
    requires branches { branches.now ≡ test.branches net.now }
    ensures planned { IfOk result (λ scans. ArePlannedTest net.now tree.now (map seen_planned scans.items)) }
    ensures short { IfOk result (λ scans. length scans.items ≤ 8192) }
    ensures limit { (number : ℕ) → IsErrOf result (fault.Limit number)
        → (number ≡ 8192) × (8192 < length (test.scanned net.now tree.now)) }
{
    let mut holds = Holds::power_up(alloc, net)?;
    let mut route = Route::new(alloc, net)?;
    tree.walk(net, &holds, &mut route);
    let mut scans = List::new(alloc);
    for branch in branches {
        let plans = plan_row_on(alloc, net, tree, *branch, &mut holds, &mut route)?;
        if LIMIT as usize - scans.len() < plans.len() {
            return Err(MuxFault::Limit { number: LIMIT });
        }
        push_scans(*branch, plans, &mut scans)?;
    }
    Ok(scans)
}
