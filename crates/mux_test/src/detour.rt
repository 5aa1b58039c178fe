// Where the active path and the path with a stuck mux go apart, and where they join again.
ghost use Rattle.std.specs.Prelude.{◌≡◌, ◌≢◌, ◌+◌, ◌<◌, ◌≤◌, [], length, Contains, IfOk, IsSome, IsTrue};
ghost use Rattle.std.specs.Prelude.{None, Some};
ghost use Rattle.std.specs.Option.{ForSome};
ghost use Rattle.net_graph.specs.declared.net.Point.TheVariants as point;
ghost use Rattle.net_graph.specs.MuxesMet.{active_muxes};
ghost use Rattle.net_graph.specs.Nets.{IsNet};
ghost use Rattle.net_graph.specs.Path.{active};
ghost use Rattle.path_planner.specs.Planning.{IsBranchOf};
ghost use Rattle.mux_test.specs.Detours.{HasDetourRoom, IsDetour, IsTracedFrom};
ghost use Rattle.mux_test.specs.KnownRows.{AreKnown};

use crate::known::KnownRows;
use crate::stuck::{previous_point, push_met_register};
use ij_bits::{Buffer, OutOfMemory};
use net_graph::{Branch, Holds, Net, Point};
use net_tree::{Tree, same_point};
use std::alloc::Global;

/// What is traced from a mux on, in room that is made once.
#[derive(Drop)]
pub(crate) struct Detour {
    /// The mux that the active path is traced from, if any.
    pub from: Option<u32>,
    /// The registers of the active path from there on, nearest scan-out first.
    pub own: Buffer<u32>,
    /// Where the active path goes on after them.
    pub ahead: Point,
    /// The registers of the path on which the mux is stuck.
    pub other: Buffer<u32>,
}

/// No registers, and room for those of a network.
fn path_room(alloc: Global, net: &Net) -> Result<Buffer<u32>, OutOfMemory>
    ensures { IfOk result (λ path. length net.now.regs.items ≤ length path.items + path.spare) }
{
    let mut path = Buffer::new(alloc);
    path.reserve(net.regs.len())?;
    Ok(path)
}

/// In how many rows a point is. Takes no memory.
fn depth_of(tree: &Tree, at: Point) -> usize {
    match at {
        Point::Entry => 0,
        Point::Reg(reg) => tree.place_of(reg).len(),
        Point::Mux(mux) => tree.place_of_mux(mux).len(),
    }
}

/// Whether two paths that began at a mux meet, elsewhere. Takes no memory.
fn is_join(at: Point, ahead: Point, mux: u32) -> bool
    ensures { IsTrue result → (at ≡ ahead) × (at ≢ point.Mux mux) }
{
    same_point(at, ahead) && !same_point(at, Point::Mux(mux))
}

impl Detour {
    /// Room for the paths of a network.
    pub(crate) fn new(alloc: Global, net: &Net) -> Result<Detour, OutOfMemory>
        ensures { IfOk result (HasDetourRoom net.now) }
    {
        Ok(Detour {
            from: None,
            own: path_room(alloc, net)?,
            ahead: Point::Entry,
            other: path_room(alloc, net)?,
        })
    }

    /// Forgets the active path, since another one may be active from now on. Takes no memory.
    pub(crate) fn forget(&mut self)
        ensures { self.new ≡ record self.old { from = None } }
    {
        self.from = None;
    }

    /// Whether the active path is traced from a mux. Takes no memory.
    fn is_traced_from(&self, mux: u32) -> bool
        ensures { IsTrue result → self.now.from ≡ Some mux }
    {
        self.from == Some(mux)
    }

    /// Begins the active path at a mux. Takes no memory.
    fn begin(&mut self, net: &Net, _holds: &Holds, mux: u32)
        requires mux { mux < length net.now.muxes.items }
        requires room { HasDetourRoom net.now self.old }
        ensures from { self.new.from ≡ Some mux }
        ensures own { IsTracedFrom net.now _holds.now self.new.ahead self.new.own.items mux }
        ensures room { HasDetourRoom net.now self.new }
    {
        self.from = Some(mux);
        self.own.clear();
        self.ahead = Point::Mux(mux);
    }

    /// Goes back by one point on the active path, where there is one, and adds the register that is left.
    /// Takes no memory.
    fn go_back(&mut self, net: &Net, holds: &Holds, known: &KnownRows, _mux: u32)
        requires well_formed { IsNet net.now }
        requires known { AreKnown net.now holds.now known.now }
        requires own { IsTracedFrom net.now holds.now self.old.ahead self.old.own.items _mux }
        requires room { HasDetourRoom net.now self.old }
        ensures from { self.new.from ≡ self.old.from }
        ensures own { IsTracedFrom net.now holds.now self.new.ahead self.new.own.items _mux }
        ensures room { HasDetourRoom net.now self.new }
    {
        let at = self.ahead;
        if let Some(before) = previous_point(net, None, holds, known, at) {
            if push_met_register(at, net.regs.len(), &mut self.own) {
                self.ahead = before;
            }
        }
    }

    /// Traces the active path from a mux on until it leaves the mux's rows: there it meets each path on which
    /// the mux is stuck. Takes no memory.
    fn trace_own(&mut self, net: &Net, tree: &Tree, holds: &Holds, known: &KnownRows, mux: u32)
        requires well_formed { IsNet net.now }
        requires known { AreKnown net.now holds.now known.now }
        requires mux { mux < length net.now.muxes.items }
        requires room { HasDetourRoom net.now self.old }
        ensures from { self.new.from ≡ Some mux }
        ensures own { IsTracedFrom net.now holds.now self.new.ahead self.new.own.items mux }
        ensures room { HasDetourRoom net.now self.new }
    {
        self.begin(net, holds, mux);
        let depth = depth_of(tree, Point::Mux(mux));
        for _turn in 0..net.regs.len() + net.muxes.len() {
            self.go_back(net, holds, known, mux);
            if depth_of(tree, self.ahead) <= depth {
                return;
            }
        }
    }

    /// The same, once for all rows of the mux. Takes no memory.
    fn trace_own_once(&mut self, net: &Net, tree: &Tree, holds: &Holds, known: &KnownRows, mux: u32)
        requires well_formed { IsNet net.now }
        requires known { AreKnown net.now holds.now known.now }
        requires mux { mux < length net.now.muxes.items }
        requires own { ForSome self.old.from
            (IsTracedFrom net.now holds.now self.old.ahead self.old.own.items) }
        requires room { HasDetourRoom net.now self.old }
        ensures from { self.new.from ≡ Some mux }
        ensures own { IsTracedFrom net.now holds.now self.new.ahead self.new.own.items mux }
        ensures room { HasDetourRoom net.now self.new }
    {
        if !self.is_traced_from(mux) {
            self.trace_own(net, tree, holds, known, mux);
        }
    }

    /// Traces the path on which a mux is stuck in a row, from the mux on until it joins the active path.
    /// Answers whether it does. Takes no memory.
    fn trace_other(&mut self, net: &Net, holds: &Holds, known: &KnownRows, row: Branch) -> bool
        requires well_formed { IsNet net.now }
        requires known { AreKnown net.now holds.now known.now }
        requires row { IsBranchOf net.now row }
        requires met { Contains (active_muxes net.now holds.now) row.mux }
        requires path { IsSome (active net.now holds.now) }
        requires own { IsTracedFrom net.now holds.now self.old.ahead self.old.own.items row.mux }
        requires room { HasDetourRoom net.now self.old }
        ensures joins { IsTrue result
            → IsDetour net.now holds.now row self.new.own.items self.new.other.items }
        ensures from { self.new.from ≡ self.old.from }
        ensures own { IsTracedFrom net.now holds.now self.new.ahead self.new.own.items row.mux }
        ensures room { HasDetourRoom net.now self.new }
    {
        self.other.clear();
        let count = net.regs.len();
        let mut at = Point::Mux(row.mux);
        for _turn in 0..count + net.muxes.len() {
            if is_join(at, self.ahead, row.mux) {
                return true;
            }
            if !push_met_register(at, count, &mut self.other) {
                return false;
            }
            match previous_point(net, Some(row), holds, known, at) {
                Some(before) => at = before,
                None => return false,
            }
        }
        false
    }

    /// Traces the active path from a mux on, and the path on which that mux is stuck in a row, until they
    /// join again. Answers whether they do. Takes no memory.
    pub(crate) fn find(
        &mut self,
        net: &Net,
        tree: &Tree,
        holds: &Holds,
        known: &KnownRows,
        row: Branch,
    ) -> bool
        requires well_formed { IsNet net.now }
        requires known { AreKnown net.now holds.now known.now }
        requires row { IsBranchOf net.now row }
        requires met { Contains (active_muxes net.now holds.now) row.mux }
        requires path { IsSome (active net.now holds.now) }
        requires own { ForSome self.old.from
            (IsTracedFrom net.now holds.now self.old.ahead self.old.own.items) }
        requires room { HasDetourRoom net.now self.old }
        ensures joins { IsTrue result
            → IsDetour net.now holds.now row self.new.own.items self.new.other.items }
        ensures own { ForSome self.new.from
            (IsTracedFrom net.now holds.now self.new.ahead self.new.own.items) }
        ensures room { HasDetourRoom net.now self.new }
    {
        self.trace_own_once(net, tree, holds, known, row.mux);
        self.trace_other(net, holds, known, row)
    }
}
