// The rows that the scan of a round passes.
ghost use Rattle.std.specs.Prelude.{◌≡◌, ◌||◌, ◌++◌, not, filter, flat_map, map, All, IfOk, OnOk};
ghost use Rattle.net_graph.specs.Held.{IsHeld};
ghost use Rattle.net_graph.specs.SeenSteps.{seen_group};
ghost use Rattle.net_graph.specs.declared.branch.Branch.{Branch as ABranch};
ghost use Rattle.net_graph.specs.declared.net.Point.TheVariants as point;
ghost use Rattle.net_tree.specs.Places.{place_of};
ghost use Rattle.svf_audit.specs.Work as working;
ghost use Rattle.least_clocks.specs.Inside as inside;
ghost use Rattle.least_clocks.specs.Least.{is_passed, rows_around};

use crate::work::has_value;
use ij_bits::{List, OutOfMemory};
use net_graph::{Branch, Group, Holds, ReadBit, WriteBit};
use net_tree::Tree;
use std::alloc::Global;

/// Whether two rows are one.
fn same_branch(a: Branch, b: Branch) -> bool
    ensures { result ≡ inside.same_branch a b }
{
    a.mux == b.mux && a.row == b.row
}

/// Whether a row is one of some.
pub(crate) fn is_one_of(rows: &[Branch], row: Branch) -> bool
    ensures { result ≡ inside.is_one_of rows.now row }
{
    for other in rows {
        if same_branch(row, *other) {
            return true;
        }
    }
    false
}

/// Adds a row, unless it is there.
fn add_row(rows: &mut List<Branch>, row: Branch) -> Result<(), OutOfMemory>
    ensures { OnOk result ((b : ABranch) → inside.is_one_of rows.new.items b
        ≡ (inside.is_one_of rows.old.items b || inside.same_branch b row)) }
{
    if !is_one_of(rows.as_slice(), row) {
        rows.push(row)?;
    }
    Ok(())
}

/// The same of several rows.
fn add_rows(rows: &mut List<Branch>, more: &[Branch]) -> Result<(), OutOfMemory>
    ensures { OnOk result ((b : ABranch) → inside.is_one_of rows.new.items b
        ≡ (inside.is_one_of rows.old.items b || inside.is_one_of more.now b)) }
{
    for row in more {
        add_row(rows, *row)?;
    }
    Ok(())
}

/// Adds the rows around a register.
fn add_around(rows: &mut List<Branch>, tree: &Tree, reg: u32) -> Result<(), OutOfMemory>
    ensures { OnOk result ((b : ABranch) → inside.is_one_of rows.new.items b
        ≡ (inside.is_one_of rows.old.items b || inside.is_one_of (place_of tree.now (point.Reg reg)) b)) }
{
    add_rows(rows, tree.place_of(reg).as_slice())
}

/// Adds the rows around the registers of which a bit changes.
fn add_changed(
    rows: &mut List<Branch>,
    tree: &Tree,
    holds: &Holds,
    writes: &[WriteBit],
) -> Result<(), OutOfMemory>
    requires { All (λ w. IsHeld holds.now w.bit) writes.now }
    ensures { OnOk result ((b : ABranch) → inside.is_one_of rows.new.items b
        ≡ (inside.is_one_of rows.old.items b || inside.is_one_of (rows_around tree.now
        (map (λ w. w.bit.reg) (filter (λ w. not (working.has_value holds.now w)) writes.now))) b)) }
{
    for write in writes {
        if !has_value(holds, *write) {
            add_around(rows, tree, write.bit.reg)?;
        }
    }
    Ok(())
}

/// Adds the rows around the registers of which a bit is read.
fn add_read(rows: &mut List<Branch>, tree: &Tree, reads: &[ReadBit]) -> Result<(), OutOfMemory>
    ensures { OnOk result ((b : ABranch) → inside.is_one_of rows.new.items b ≡ (inside.is_one_of
        rows.old.items b || inside.is_one_of (rows_around tree.now (map (λ r. r.bit.reg) reads.now)) b)) }
{
    for read in reads {
        add_around(rows, tree, read.bit.reg)?;
    }
    Ok(())
}

/// The rows that the scan of a round passes, whatever else it does.
pub(crate) fn passed_rows(
    alloc: Global,
    tree: &Tree,
    holds: &Holds,
    group: &Group,
) -> Result<List<Branch>, OutOfMemory>
    requires { All (λ w. IsHeld holds.now w.bit) group.now.writes.items }
    ensures { IfOk result (λ rows. (b : ABranch)
        → inside.is_one_of rows.items b ≡ is_passed tree.now holds.now (seen_group group.now) b) }
{
    let mut rows = List::new(alloc);
    add_changed(&mut rows, tree, holds, group.writes.as_slice())?;
    add_read(&mut rows, tree, group.reads.as_slice())?;
    Ok(rows)
}
