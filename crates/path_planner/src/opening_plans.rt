// The scans that open the way to a group's registers, one after the other.
ghost use Rattle.std.specs.Prelude.{◌≡◌, false, true, length, flat_map, replicate, IfOk, IfSome, IsNone};
ghost use Rattle.std.specs.Prelude.{Some};
ghost use Rattle.net_graph.specs.Groups.{registers_of};
ghost use Rattle.net_graph.specs.Nets.{IsNet};
ghost use Rattle.net_graph.specs.Path.{path as scan_path};
ghost use Rattle.net_graph.specs.SeenSteps.{seen_group};
ghost use Rattle.net_graph.specs.declared.net.Net.{Net};
ghost use Rattle.net_tree.specs.Form.{Items};
ghost use Rattle.net_tree.specs.ScanPlans.{seen_plan};
ghost use Rattle.path_planner.specs.Opening.{CanOpen};
ghost use Rattle.path_planner.specs.Openings.{AreRowsFor, ArePlacesIn, IsOpeningFor};
ghost use Rattle.path_planner.specs.Plans.{Settles};
ghost use Rattle.path_planner.specs.Settling as settling;

use crate::needed::rows_needed;
use crate::plan::ScanPlan;
use crate::planner::{all_on, settling_plan};
use crate::registers::registers_named;
use ij_bits::{List, OutOfMemory};
use net_graph::{Branch, Group, Holds, Net};
use net_tree::Tree;
use std::alloc::Global;

/// The registers that a group names, and the rows that they need, found when they are first asked for.
#[derive(Drop)]
pub struct OpeningPlans {
    /// The registers.
    pub regs: List<u32>,
    /// The rows around them, of each mux the first.
    pub rows: Option<List<Branch>>,
}

/// The rows that some registers need, if they aren't known yet.
fn known_or_needed(
    alloc: Global,
    net: &Net,
    tree: &Tree,
    regs: &[u32],
    known: Option<List<Branch>>,
) -> Result<List<Branch>, OutOfMemory>
    requires well_formed { IsNet net.now }
    requires places { ArePlacesIn net.now tree.now regs.now }
    requires known { IfSome known (AreRowsFor net.now tree.now regs.now) }
    ensures { IfOk result (AreRowsFor net.now tree.now regs.now) }
{
    match known {
        Some(rows) => Ok(rows),
        None => rows_needed(alloc, net, tree, regs),
    }
}

impl OpeningPlans {
    /// That of a group, before its first scan.
    pub fn of(alloc: Global, group: &Group) -> Result<OpeningPlans, OutOfMemory>
        ensures { (net : Net) (form : Items)
            → IfOk result (IsOpeningFor net form (seen_group group.now)) }
    {
        Ok(OpeningPlans {
            regs: registers_named(alloc, group)?,
            rows: None,
        })
    }

    /// The plan of the next scan, by what the update stages hold before it and by the active path then, as
    /// [`plan_group`](crate::plan_group) says; `None` where the group's registers are on the path.
    pub fn next(
        &mut self,
        alloc: Global,
        net: &Net,
        tree: &Tree,
        _group: &Group,
        holds: &Holds,
        path: &[u32],
    ) -> Result<Option<ScanPlan>, OutOfMemory>
        requires can { CanOpen net.now tree.now (seen_group _group.now) holds.now }
        requires path { scan_path net.now holds.now ≡ Some path.now }
        requires opening { IsOpeningFor net.now tree.now (seen_group _group.now) self.old }
        ensures some { IfOk result (λ o. IfSome o
            (λ plan. Settles net.now tree.now (seen_group _group.now) holds.now (seen_plan plan))) }
        ensures none { IfOk result (λ o. IsNone o
            → settling.all_on net.now (registers_of (seen_group _group.now)) holds.now ≡ true) }
        ensures opening { IsOpeningFor net.now tree.now (seen_group _group.now) self.new }
    {
        if all_on(path, self.regs.as_slice()) {
            return Ok(None);
        }
        let known = self.rows.take();
        let rows = known_or_needed(alloc, net, tree, self.regs.as_slice(), known)?;
        let plan = settling_plan(alloc, net, holds, path, rows.as_slice());
        self.rows = Some(rows);
        Ok(Some(plan?))
    }
}
