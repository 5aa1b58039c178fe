// The fewest scans in which a register is first written.
ghost use Rattle.std.specs.Prelude.{◌≡◌, ◌<◌, ◌∷◌, [], length, IfOk};
ghost use Rattle.net_graph.specs.Held.{AreHolds};
ghost use Rattle.net_graph.specs.Nets.{IsNet};
ghost use Rattle.net_graph.specs.Resets.{start_holds};
ghost use Rattle.net_graph.specs.declared.net.Point.TheVariants as point;
ghost use Rattle.net_tree.specs.Form.{Describes};
ghost use Rattle.net_tree.specs.Lawful.{IsLawful};
ghost use Rattle.net_tree.specs.Places.{place_of};
ghost use Rattle.path_planner.specs.Planning.{IsBranchOf};
ghost use Rattle.path_planner.specs.RowScans.{row_scans};
ghost use Rattle.path_planner.specs.Settling.{is_in_row};
ghost use Rattle.net_list.specs.Fewest as fewest;

use ij_bits::OutOfMemory;
use net_graph::{Branch, Holds, Net, row_of};
use net_tree::Tree;
use path_planner::plan_row;
use std::alloc::Global;

/// Whether a mux is in a row.
fn is_in_row(net: &Net, holds: &Holds, row: Branch) -> bool
    requires well_formed { IsNet net.now }
    requires holds { AreHolds net.now holds.now }
    requires there { IsBranchOf net.now row }
    ensures { result ≡ is_in_row net.now holds.now row }
{
    row_of(net, holds, row.mux) == Some(row.row)
}

/// The fewest scans through a row that is in no other: one where the mux is in it, and two where it must
/// be selected.
fn scans_through(net: &Net, holds: &Holds, row: Branch) -> usize
    requires well_formed { IsNet net.now }
    requires holds { AreHolds net.now holds.now }
    requires there { IsBranchOf net.now row }
    ensures { result ≡ length (row_scans net.now (row ∷ []) 1 holds.now) }
{
    if is_in_row(net, holds, row) { 1 } else { 2 }
}

/// The fewest scans from power-up on in which a register is first written, by its place: those of the row
/// that it is in. They are planned only where that row is in another.
pub(crate) fn fewest_scans(
    alloc: Global,
    net: &Net,
    tree: &Tree,
    start: &Holds,
    reg: u32,
    place: &[Branch],
) -> Result<usize, OutOfMemory>
    requires well_formed { IsNet net.now }
    requires form { Describes net.now tree.now }
    requires lawful { IsLawful net.now tree.now }
    requires start { start.now ≡ start_holds net.now }
    requires there { reg < length net.now.regs.items }
    requires place { place.now ≡ place_of tree.now (point.Reg reg) }
    ensures { IfOk result (λ scans. scans ≡ fewest.fewest_scans net.now tree.now reg) }
{
    match place {
        [row] => Ok(scans_through(net, start, *row)),
        [.., row] => {
            let plans = plan_row(alloc, net, tree, start, *row)?;
            Ok(plans.len())
        }
        [] => Ok(1),
    }
}
