// The active path point by point, also where one mux always passes on the same row.
ghost use Rattle.std.specs.Prelude.{◌≡◌, ◌≢◌, ◌+◌, ◌<◌, ◌≤◌, ◌++◌, IsTrue, IsFalse, Some, [], length};
ghost use Rattle.std.specs.Option.{ForSome};
ghost use Rattle.net_graph.specs.Named.{IsPointOf};
ghost use Rattle.net_graph.specs.Nets.{IsNet};
ghost use Rattle.net_graph.specs.Path as paths;
ghost use Rattle.net_graph.specs.Stuck as stuck;
ghost use Rattle.net_graph.specs.Tracing.{registers_at};
ghost use Rattle.path_planner.specs.Planning.{IsBranchOf};
ghost use Rattle.mux_test.specs.Steps as steps;
ghost use Rattle.mux_test.specs.KnownRows.{AreKnown};

use crate::known::KnownRows;
use ij_bits::Buffer;
use net_graph::{Branch, Holds, Net, Point, is_entry};
use net_tree::same_point;

/// What a row of a mux passes on.
fn row_source(net: &Net, row: Branch) -> Point
    requires { IsBranchOf net.now row }
    ensures { Some result ≡ stuck.row_source net.now row }
{
    net.muxes
        .get(row.mux as usize)
        .rows
        .get(row.row as usize)
        .from
}

/// What a mux passes on by its select, where the row that it is in is known.
fn selected_source(net: &Net, holds: &Holds, known: &KnownRows, mux: u32) -> Option<Point>
    requires known { AreKnown net.now holds.now known.now }
    requires mux { mux < length net.now.muxes.items }
    ensures { result ≡ paths.mux_source net.now holds.now mux }
{
    match known.row_of(net, holds, mux) {
        Some(row) => Some(row_source(net, Branch { mux, row })),
        None => None,
    }
}

/// What a mux passes on by its select, and a mux that is stuck in a row what it passes on there.
fn source_of(
    net: &Net,
    stuck: Option<Branch>,
    holds: &Holds,
    known: &KnownRows,
    mux: u32,
) -> Option<Point>
    requires stuck { ForSome stuck (IsBranchOf net.now) }
    requires known { AreKnown net.now holds.now known.now }
    requires mux { mux < length net.now.muxes.items }
    ensures { result ≡ steps.source_of net.now stuck holds.now mux }
{
    match stuck {
        Some(row) => {
            if mux == row.mux {
                Some(row_source(net, row))
            } else {
                selected_source(net, holds, known, mux)
            }
        }
        None => selected_source(net, holds, known, mux),
    }
}

/// What is met before a point, going back.
pub(crate) fn previous_point(
    net: &Net,
    stuck: Option<Branch>,
    holds: &Holds,
    known: &KnownRows,
    from: Point,
) -> Option<Point>
    requires known { AreKnown net.now holds.now known.now }
    requires stuck { ForSome stuck (IsBranchOf net.now) }
    requires there { IsPointOf net.now from }
    ensures { result ≡ steps.before net.now (steps.source_of net.now stuck holds.now) from }
{
    match from {
        Point::Entry => Some(Point::Entry),
        Point::Reg(reg) => Some(net.regs.get(reg as usize).from),
        Point::Mux(mux) => source_of(net, stuck, holds, known, mux),
    }
}

/// Adds the register that a point is, and answers whether there was room for it among this many.
pub(crate) fn push_met_register(at: Point, count: usize, into: &mut Buffer<u32>) -> bool
    requires few { length into.old.items ≤ count }
    requires room { count ≤ length into.old.items + into.old.spare }
    ensures room { length into.new.items + into.new.spare ≡ length into.old.items + into.old.spare }
    ensures few { length into.new.items ≤ count }
    ensures met { IsTrue result → into.new.items ≡ into.old.items ++ registers_at at }
    ensures full { IsFalse result → (length into.old.items ≡ count) × (registers_at at ≢ []) }
    ensures stays { IsFalse result → into.new.items ≡ into.old.items }
{
    if let Point::Reg(reg) = at {
        if into.len() == count {
            return false;
        }
        into.push_reserved(reg);
    }
    true
}

/// Leaves the registers of the active path in a list, nearest scan-out first, also where a mux is stuck in a
/// row; and nothing where there is no path then. Takes no memory.
pub(crate) fn find_path(
    net: &Net,
    stuck: Option<Branch>,
    holds: &Holds,
    known: &KnownRows,
    path: &mut Buffer<u32>,
)
    requires well_formed { IsNet net.now }
    requires known { AreKnown net.now holds.now known.now }
    requires stuck { ForSome stuck (IsBranchOf net.now) }
    requires room { length net.now.regs.items ≤ length path.old.items + path.old.spare }
    ensures path { path.new.items ≡ steps.route_where net.now stuck holds.now }
    ensures room { length path.new.items + path.new.spare ≡ length path.old.items + path.old.spare }
{
    path.clear();
    let count = net.regs.len();
    let mut at = net.out;
    for _turn in 0..count + net.muxes.len() {
        if is_entry(at) {
            return;
        }
        if !push_met_register(at, count, path) {
            path.clear();
            return;
        }
        match previous_point(net, stuck, holds, known, at) {
            Some(before) => at = before,
            None => {
                path.clear();
                return;
            }
        }
    }
    if !is_entry(at) {
        path.clear();
    }
}

/// Whether two rows of a mux pass on the same.
fn have_same_source(net: &Net, a: Branch, b: Branch) -> bool
    requires a { IsBranchOf net.now a }
    requires b { IsBranchOf net.now b }
    requires mux { a.mux ≡ b.mux }
    ensures { IsTrue result → stuck.row_source net.now a ≡ stuck.row_source net.now b }
{
    a.row == b.row || same_point(row_source(net, a), row_source(net, b))
}

/// Whether a mux passes on by its select what it passes on in this row.
pub(crate) fn is_passed(net: &Net, holds: &Holds, known: &KnownRows, row: Branch) -> bool
    requires known { AreKnown net.now holds.now known.now }
    requires row { IsBranchOf net.now row }
    ensures { IsTrue result → paths.mux_source net.now holds.now row.mux ≡ stuck.row_source net.now row }
{
    let mux = row.mux;
    match known.row_of(net, holds, mux) {
        Some(now) => have_same_source(net, Branch { mux, row: now }, row),
        None => false,
    }
}
