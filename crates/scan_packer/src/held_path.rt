// The active path and what it holds, kept from scan to scan.
ghost use Rattle.std.specs.Prelude.{◌≡◌, ◌≤◌, ◌+◌, length, map, reverse, All, Contains, IfOk, Some};
ghost use Rattle.net_graph.specs.Chain.{chain};
ghost use Rattle.net_graph.specs.Held.{AreHolds};
ghost use Rattle.net_graph.specs.Named.{IsBitOf};
ghost use Rattle.net_graph.specs.Nets.{IsNet};
ghost use Rattle.net_graph.specs.Path as paths;
ghost use Rattle.net_graph.specs.Resets.{zero_holds};
ghost use Rattle.net_graph.specs.Writes.{write_all};
ghost use Rattle.net_tree.specs.Form.{Describes};
ghost use Rattle.net_tree.specs.ScanPlans.{seen_plan};
ghost use Rattle.scan_packer.specs.Flushed.{HasFlushRoom, flush_mask, flush_tdi, flush_tdo};
ghost use Rattle.scan_packer.specs.HeldPaths.{HasPathRoom, IsHeldPath};
ghost use Rattle.scan_packer.specs.Packed.{expected, marked};
ghost use Rattle.scan_packer.specs.Packing.{CanScan, HasBitRoom};
ghost use Rattle.scan_packer.specs.Started.{AreStarts};

use crate::fill::{fill_held, note_starts};
use crate::flush::{fill_compared, fill_expected, fill_marked, scan_bits};
use crate::packing::fill_reads;
use crate::put::put_writes;
use ij_bits::{Bits, List, OutOfMemory};
use net_graph::{Holds, Net, ReadBit, WriteBit};
use net_tree::{Route, ScanPlan, Tree};
use std::alloc::Global;
use std::mem::swap;

/// The active path of a network and what it holds. Scans that begin so need no walk through the network.
#[derive(Drop)]
pub struct HeldPath {
    /// The registers of the active path.
    pub route: Route,
    /// Where the first bit of each of them is, counted from scan-out, by the register's number. What is there
    /// of other registers is free.
    pub starts: List<u32>,
    /// What they hold, position 0 (nearest TDO) first.
    pub bits: Bits,
    /// How many scan bits the network has.
    pub scan_bits: u32,
}

impl HeldPath {
    /// Room for the paths of a network.
    fn new(alloc: Global, net: &Net) -> Result<HeldPath, OutOfMemory>
        requires { IsNet net.now }
        ensures { IfOk result (HasPathRoom net.now) }
    {
        let scan_bits = scan_bits(net);
        Ok(HeldPath {
            route: Route::new(alloc, net)?,
            starts: List::from(vec![in alloc; 0u32; net.regs.len()]?),
            bits: Bits::with_room(alloc, scan_bits)?,
            scan_bits,
        })
    }

    /// The active path of what the update stages hold.
    pub fn of(alloc: Global, net: &Net, tree: &Tree, holds: &Holds) -> Result<HeldPath, OutOfMemory>
        requires well_formed { IsNet net.now }
        requires tree { Describes net.now tree.now }
        requires holds { AreHolds net.now holds.now }
        requires listed { paths.AreListed net.now holds.now }
        ensures held { IfOk result (IsHeldPath net.now holds.now) }
        ensures room { IfOk result (HasPathRoom net.now) }
    {
        let mut path = HeldPath::new(alloc, net)?;
        path.find(net, tree, holds);
        Ok(path)
    }

    /// Leaves here the active path of what the update stages hold. Takes no memory.
    pub fn find(&mut self, net: &Net, tree: &Tree, holds: &Holds)
        requires well_formed { IsNet net.now }
        requires tree { Describes net.now tree.now }
        requires holds { AreHolds net.now holds.now }
        requires listed { paths.AreListed net.now holds.now }
        requires room { HasPathRoom net.now self.old }
        ensures held { IsHeldPath net.now holds.now self.new }
        ensures room { HasPathRoom net.now self.new }
    {
        tree.walk(net, holds, &mut self.route);
        let regs = self.route.regs().as_slice();
        note_starts(&mut self.starts, net, regs);
        fill_held(&mut self.bits, net, holds, regs);
    }

    /// Leaves here what the same active path holds after a scan, which is what the scan shifted in. The list
    /// then has what the path held before. Takes no memory.
    pub fn take_bits(&mut self, _net: &Net, _holds: &Holds, tdi: &mut Bits)
        requires path { paths.path _net.now _holds.now ≡ Some self.old.route.items }
        requires starts { AreStarts _net.now self.old.route.items self.old.starts.items }
        requires bits { tdi.old.items ≡ chain (reverse self.old.route.items) _holds.now }
        requires room { HasPathRoom _net.now self.old }
        requires tdi_room { HasBitRoom _net.now tdi.old }
        ensures held { IsHeldPath _net.now _holds.now self.new }
        ensures room { HasPathRoom _net.now self.new }
        ensures tdi_room { HasBitRoom _net.now tdi.new }
    {
        swap(&mut self.bits, tdi);
    }
}

/// Leaves the same bits in the list. Takes no memory.
fn copy_bits(into: &mut Bits, bits: &Bits)
    requires { length bits.now.items ≤ length into.old.items + into.old.spare }
    ensures items { into.new.items ≡ bits.now.items }
    ensures room { length into.new.items + into.new.spare ≡ length into.old.items + into.old.spare }
{
    into.clear();
    into.append_part_reserved(bits, 0, bits.len());
}

/// Leaves what a scan over a kept path shifts in in a list, position 0 (nearest TDO) first: what the path
/// holds after some writes. The room of the list stays. Takes no memory.
pub fn pack_tdi_on(net: &Net, _holds: &Holds, path: &HeldPath, writes: &[WriteBit], tdi: &mut Bits)
    requires well_formed { IsNet net.now }
    requires holds { AreHolds net.now _holds.now }
    requires held { IsHeldPath net.now _holds.now path.now }
    requires bits { All (λ w. IsBitOf net.now w.bit) writes.now }
    requires on_path { All (λ w. Contains path.now.route.items w.bit.reg) writes.now }
    requires tdi_room { HasBitRoom net.now tdi.old }
    ensures tdi { tdi.new.items ≡ chain (reverse path.now.route.items) (write_all _holds.now writes.now) }
    ensures tdi_room { length tdi.new.items + tdi.new.spare ≡ length tdi.old.items + tdi.old.spare }
{
    copy_bits(tdi, &path.bits);
    put_writes(
        tdi,
        net,
        path.route.regs().as_slice(),
        path.starts.as_slice(),
        writes,
    );
}

/// Leaves what a scan over a kept path expects, and where that is compared, in two lists, position 0 first.
/// The room of the lists stays. Takes no memory.
pub fn pack_reads_on(
    net: &Net,
    _holds: &Holds,
    path: &HeldPath,
    reads: &[ReadBit],
    tdo: &mut Bits,
    mask: &mut Bits,
)
    requires well_formed { IsNet net.now }
    requires holds { AreHolds net.now _holds.now }
    requires held { IsHeldPath net.now _holds.now path.now }
    requires bits { All (λ r. IsBitOf net.now r.bit) reads.now }
    requires on_path { All (λ r. Contains path.now.route.items r.bit.reg) reads.now }
    requires tdo_room { HasBitRoom net.now tdo.old }
    requires mask_room { HasBitRoom net.now mask.old }
    ensures tdo { tdo.new.items ≡ chain (reverse path.now.route.items)
        (write_all (zero_holds net.now) (map expected reads.now)) }
    ensures mask { mask.new.items ≡ chain (reverse path.now.route.items)
        (write_all (zero_holds net.now) (map marked reads.now)) }
    ensures tdo_room { length tdo.new.items + tdo.new.spare ≡ length tdo.old.items + tdo.old.spare }
    ensures mask_room { length mask.new.items + mask.new.spare ≡ length mask.old.items + mask.old.spare }
{
    let regs = path.route.regs().as_slice();
    let starts = path.starts.as_slice();
    fill_reads(net, regs, starts, path.bits.len(), reads, tdo, mask);
}

/// Leaves the bits of a plan's flush in three lists, as [`pack_flush`](crate::pack_flush) does, by the active
/// path of what the update stages hold. The room of the lists stays. Takes no memory.
pub fn pack_flush_on(
    net: &Net,
    _holds: &Holds,
    path: &HeldPath,
    plan: &ScanPlan,
    tdi: &mut Bits,
    tdo: &mut Bits,
    mask: &mut Bits,
)
    requires well_formed { IsNet net.now }
    requires plan { CanScan net.now _holds.now (seen_plan plan.now) }
    requires held { IsHeldPath net.now _holds.now path.now }
    requires tdi_room { HasFlushRoom net.now tdi.old }
    requires tdo_room { HasFlushRoom net.now tdo.old }
    requires mask_room { HasFlushRoom net.now mask.old }
    ensures tdi { tdi.new.items
        ≡ flush_tdi net.now _holds.now (reverse path.now.route.items) (seen_plan plan.now) }
    ensures tdo { tdo.new.items ≡ flush_tdo net.now _holds.now (reverse path.now.route.items) }
    ensures mask { mask.new.items ≡ flush_mask net.now _holds.now (reverse path.now.route.items) }
    ensures tdi_room { length tdi.new.items + tdi.new.spare ≡ length tdi.old.items + tdi.old.spare }
    ensures tdo_room { length tdo.new.items + tdo.new.spare ≡ length tdo.old.items + tdo.old.spare }
    ensures mask_room { length mask.new.items + mask.new.spare ≡ length mask.old.items + mask.old.spare }
{
    pack_tdi_on(net, _holds, path, plan.writes.as_slice(), tdo);
    let bits = tdo.len();
    let zeros = path.scan_bits;
    fill_marked(tdi, zeros, tdo);
    fill_expected(tdo, bits, zeros);
    fill_compared(mask, bits, zeros + 1);
}
