// What is met on the active path.
ghost use Rattle.std.specs.Prelude.{◌≡◌, ◌+◌, ◌<◌, ◌++◌, ℕ, suc, length, IfOk, IfSome};
ghost use Rattle.net_graph.specs.Held.{AreHolds};
ghost use Rattle.net_graph.specs.Named.{IsPointOf};
ghost use Rattle.net_graph.specs.Nets.{IsNet};
ghost use Rattle.net_graph.specs.Path.{mux_source};
ghost use Rattle.net_picture.specs.Met as mets;
ghost use Rattle.net_picture.specs.Plan.{has_path};

use ij_bits::{List, OutOfMemory};
use net_graph::{Holds, Net, Point, Row, mux_count, register_count, row_of, source_at};
use net_tree::same_point;
use std::alloc::Global;

/// Whether a point is met.
pub(crate) fn is_on_path(met: &[Point], point: Point) -> bool
    ensures { result ≡ mets.is_on_path met.now point }
{
    for other in met {
        if same_point(point, *other) {
            return true;
        }
    }
    false
}

/// Whether a point is marked.
pub(crate) fn is_marked(marked: Option<Point>, point: Point) -> bool
    ensures { result ≡ mets.is_marked marked point }
{
    match marked {
        Some(other) => same_point(other, point),
        None => false,
    }
}

/// What a multiplexer passes on: the source of the row that it is in.
fn mux_input(net: &Net, holds: &Holds, mux: u32) -> Option<Point>
    requires well_formed { IsNet net.now }
    requires holds { AreHolds net.now holds.now }
    requires there { mux < length net.now.muxes.items }
    ensures { result ≡ mux_source net.now holds.now mux }
{
    match row_of(net, holds, mux) {
        Some(row) => Some(source_at(&net.muxes.get(mux as usize).rows, row)),
        None => None,
    }
}

/// What comes before a point on the active path: nothing before scan-in, and nothing before a multiplexer
/// that is in none of its rows.
fn before(net: &Net, holds: &Holds, point: Point) -> Option<Point>
    requires well_formed { IsNet net.now }
    requires holds { AreHolds net.now holds.now }
    requires there { IsPointOf net.now point }
    ensures before { result ≡ mets.before net.now holds.now point }
    ensures there { IfSome result (IsPointOf net.now) }
{
    match point {
        Point::Entry => None,
        Point::Reg(reg) => Some(net.regs.get(reg as usize).from),
        Point::Mux(mux) => mux_input(net, holds, mux),
    }
}

/// What is met on the active path from scan-out back to scan-in, and nothing where there is none.
pub(crate) fn met(
    alloc: Global,
    net: &Net,
    holds: &Holds,
    on: bool,
) -> Result<Vec<Point>, OutOfMemory>
    requires well_formed { IsNet net.now }
    requires holds { AreHolds net.now holds.now }
    requires on { on ≡ has_path net.now holds.now }
    ensures { IfOk result (λ points. points.items ≡ mets.met net.now holds.now) }
{
    if on {
        trace_back(alloc, net, holds)
    } else {
        Ok(Vec::new(alloc))
    }
}

/// What is met from scan-out back to scan-in, or to a multiplexer that is in none of its rows.
fn trace_back(alloc: Global, net: &Net, holds: &Holds) -> Result<Vec<Point>, OutOfMemory>
    requires well_formed { IsNet net.now }
    requires holds { AreHolds net.now holds.now }
    ensures { IfOk result (λ points. points.items ≡ mets.trace_back net.now holds.now) }
{
    let mut points = Vec::new(alloc);
    let mut next = Some(net.out);
    let most = most_moves(net);
    for _turn in 0..most {
        next = add_path_point(net, holds, next, &mut points)?;
    }
    Ok(points)
}

/// Adds a point that is met, and answers what comes before it.
fn add_path_point(
    net: &Net,
    holds: &Holds,
    now: Option<Point>,
    points: &mut Vec<Point>,
) -> Result<Option<Point>, OutOfMemory>
    requires well_formed { IsNet net.now }
    requires holds { AreHolds net.now holds.now }
    requires there { IfSome now (IsPointOf net.now) }
    ensures there { IfOk result (λ next. IfSome next (IsPointOf net.now)) }
    ensures left { IfOk result (λ next. (n : ℕ) → points.new.items ++ mets.met_from net.now holds.now n next
        ≡ points.old.items ++ mets.met_from net.now holds.now (suc n) now) }
{
    match now {
        Some(point) => {
            points.push(point)?;
            Ok(before(net, holds, point))
        }
        None => Ok(None),
    }
}

/// As many moves as there are registers and multiplexers.
fn most_moves(net: &Net) -> usize
    requires { IsNet net.now }
    ensures { result ≡ length net.now.regs.items + length net.now.muxes.items }
{
    register_count(net) as usize + mux_count(net) as usize
}
