// The scans of a network's mux test, one after the other.
ghost use Rattle.std.specs.Prelude.{◌≡◌, ◌<◌, ◌≤◌, [], ◌∷◌, ℕ, length, All, IfOk, IsErr, IsErrOf, IsNone};
ghost use Rattle.std.specs.Prelude.{MatchOption, OnErr, OnOk};
ghost use Rattle.net_graph.specs.Held.{IsHeld};
ghost use Rattle.net_graph.specs.Nets.{IsNet};
ghost use Rattle.net_graph.specs.Writes.{write_all};
ghost use Rattle.net_tree.specs.Form.{Describes};
ghost use Rattle.net_tree.specs.ScanPlans.{seen_plan};
ghost use Rattle.path_planner.specs.Scannable.{IsScannable};
ghost use Rattle.scan_packer.specs.HeldPaths.{HasPathRoom, IsHeldPath};
ghost use Rattle.scan_packer.specs.Packing.{CanScan};
ghost use Rattle.svf_writer.specs.SeenCommands.{SDR, seen_command};
ghost use Rattle.mux_test.specs.Flushes.{test_scans};
ghost use Rattle.mux_test.specs.Given.{seen_test_scan};
ghost use Rattle.mux_test.specs.Laws.{IsTestable};
ghost use Rattle.mux_test.specs.Seen.{unseen};
ghost use Rattle.mux_test.specs.Test.{IsWithinLimit, branches, flush, scanned};
ghost use Rattle.mux_test.specs.declared.fault.MuxFault.TheVariants as fault;

use crate::fault::MuxFault;
use crate::judge::unseen_rows;
use crate::planned::{PlannedScan, branches_of, plan_test};
use ij_bits::{Bits, List, OutOfMemory};
use net_graph::{Branch, Holds, Net};
use net_tree::{ScanPlan, Tree};
use path_planner::take_plan_writes;
use scan_packer::{HeldPath, pack_flush_on};
use std::alloc::Global;
use std::marker::Model;
use svf_writer::{Command, Scan, ScanPart};

/// One scan of a mux test.
#[derive(Drop)]
pub struct TestScan {
    /// The row that it is for: a scan before brings it in, or it goes through it.
    pub branch: Branch,
    /// Whether it is the row's first.
    pub first: bool,
    /// The scan, an SDR: a marker goes through the active path.
    pub scan: Command,
}

/// The test of a network's scan muxes: scans that take a marker through every row of every mux, from power-up
/// on (IEEE 1687-2014: ScanMux; Serial Vector Format, revision E: SDR).
///
/// Contracts see the scans that are still to come, the rows that a mux may be stuck in unseen, and how many
/// scans and rows there are in all.
#[derive(Drop)]
pub struct MuxTest<'a> {
    alloc: Global,
    net: &'a Net,
    tree: &'a Tree,
    /// All scans of the test.
    scans: List<PlannedScan>,
    /// How many of them were given.
    given: usize,
    /// What the update stages hold before the next one.
    holds: Holds,
    /// The active path then.
    path: HeldPath,
    unseen: List<Branch>,
    rows: usize,
}

impl<'a> Model for MuxTest<'a> {
    ghost use Rattle.std.specs.Prelude.{◌≤◌, drop, length, map};
    ghost use Rattle.scan_packer.specs.HeldPaths.{HasPathRoom, IsHeldPath};
    ghost use Rattle.mux_test.specs.Given.{SeenTest};
    ghost use Rattle.mux_test.specs.GivenCode.{test_code};
    ghost use Rattle.mux_test.specs.Laws.{IsTestable};
    ghost use Rattle.mux_test.specs.Planned.{AreFlushable, planned_flushes, seen_planned};

    ghost Value = { SeenTest };

    ghost coded = { test_code };

    ghost view = { λ t. record {
      scans =
          planned_flushes t.net.now t.holds (map seen_planned (drop t.given t.scans.items));
      unseen = t.unseen.items;
      scan_count = length t.scans.items;
      row_count = t.rows;
    } };

    ghost invariant = { λ t. IsTestable t.net.now t.tree.now × AreFlushable t.net.now t.holds
        (map seen_planned (drop t.given t.scans.items)) × IsHeldPath t.net.now t.holds t.path
        × HasPathRoom t.net.now t.path × (t.given ≤ length t.scans.items) };
}

/// The greatest number of bits that a flush has: a network has at most 4096 scan bits.
const FLUSH_BITS: u32 = 2 * 4096 + 1;

/// The flush of a plan, as a command.
fn flush_of(
    alloc: Global,
    net: &Net,
    holds: &Holds,
    path: &HeldPath,
    plan: &ScanPlan,
) -> Result<Command, OutOfMemory>
    requires well_formed { IsNet net.now }
    requires path { IsHeldPath net.now holds.now path.now }
    requires plan { CanScan net.now holds.now (seen_plan plan.now) }
    ensures { IfOk result (λ c. seen_command c
        ≡ SDR (flush net.now holds.now (write_all holds.now plan.now.writes.items))) }
{
    let mut tdi = Bits::with_room(alloc, FLUSH_BITS)?;
    let mut tdo = Bits::with_room(alloc, FLUSH_BITS)?;
    let mut mask = Bits::with_room(alloc, FLUSH_BITS)?;
    pack_flush_on(net, holds, path, plan, &mut tdi, &mut tdo, &mut mask);
    Ok(Command::Sdr(Scan {
        len: tdi.len(),
        tdi: ScanPart::of_bits(alloc, tdi)?,
        tdo: ScanPart::of_bits(alloc, tdo)?,
        mask: ScanPart::of_bits(alloc, mask)?,
        smask: ScanPart::absent(),
    }))
}

/// Goes on to what is held after the scan of a plan, and to the active path then. Takes no memory.
fn go_past_scan(net: &Net, tree: &Tree, plan: &ScanPlan, holds: &mut Holds, path: &mut HeldPath)
    requires well_formed { IsNet net.now }
    requires tree { Describes net.now tree.now }
    requires bits { All (λ w. IsHeld holds.old w.bit) plan.now.writes.items }
    requires after { IsScannable net.now (write_all holds.old plan.now.writes.items) }
    requires path { IsHeldPath net.now holds.old path.old }
    requires room { HasPathRoom net.now path.old }
    ensures holds { holds.new ≡ write_all holds.old plan.now.writes.items }
    ensures path { IsHeldPath net.now holds.new path.new }
    ensures room { HasPathRoom net.now path.new }
{
    take_plan_writes(holds, plan);
    if !plan.writes.is_empty() {
        path.find(net, tree, holds);
    }
}

impl<'a> MuxTest<'a> {
    /// Plans the whole test of a network.
    ///
    /// # Errors
    ///
    /// - `Limit`: the test has more than 8192 scans, which is the number that it carries.
    /// - `OutOfMemory`: there was no memory for it.
    pub fn new(alloc: Global, net: &'a Net, tree: &'a Tree) -> Result<MuxTest<'a>, MuxFault>
        requires { IsTestable net.now tree.now }
        ensures scans { IfOk result (λ t. t.scans ≡ test_scans net.now tree.now) }
        ensures unseen { IfOk result (λ t. t.unseen ≡ unseen net.now tree.now) }
        ensures scan_count { IfOk result (λ t. t.scan_count ≡ length (scanned net.now tree.now)) }
        ensures row_count { IfOk result (λ t. t.row_count ≡ length (branches net.now)) }
        ensures within { OnOk result (IsWithinLimit net.now tree.now) }
        ensures limit { (number : ℕ) → IsErrOf result (fault.Limit number)
            → (number ≡ 8192) × (8192 < length (scanned net.now tree.now)) }
        ensures limited { 8192 < length (scanned net.now tree.now) → IsErr result }
    {
        let rows = branches_of(alloc, net)?;
        let scans = plan_test(alloc, net, tree, rows.as_slice())?;
        let unseen = unseen_rows(alloc, net, tree, rows.as_slice(), scans.as_slice())?;
        let holds = Holds::power_up(alloc, net)?;
        let path = HeldPath::of(alloc, net, tree, &holds)?;
        Ok(MuxTest {
            alloc,
            net,
            tree,
            scans,
            given: 0,
            holds,
            path,
            unseen,
            rows: rows.len(),
        })
    }

    /// The next scan, and `None` exactly after the last one. After a want of memory all is as it was.
    pub fn next(&mut self) -> Result<Option<TestScan>, OutOfMemory>
        ensures gives { IfOk result (λ o. MatchOption o (self.old.scans ≡ [])
            (λ t. self.old.scans ≡ seen_test_scan t ∷ self.new.scans)) }
        ensures end { IfOk result (λ o. IsNone o → self.new.scans ≡ []) }
        ensures others { self.new ≡ record self.old { scans = self.new.scans } }
        ensures stays { OnErr result (self.new ≡ self.old) }
    {
        if self.given == self.scans.len() {
            return Ok(None);
        }
        let planned = self.scans.get(self.given);
        let scan = flush_of(self.alloc, self.net, &self.holds, &self.path, &planned.plan)?;
        let next = TestScan {
            branch: planned.branch,
            first: planned.first,
            scan,
        };
        go_past_scan(
            self.net,
            self.tree,
            &planned.plan,
            &mut self.holds,
            &mut self.path,
        );
        self.given += 1;
        Ok(Some(next))
    }

    /// The rows that a mux may be stuck in unseen, by the muxes' numbers and then from row 0 up. Takes no
    /// memory.
    pub fn unseen(&self) -> &List<Branch>
        ensures { result.now.items ≡ self.now.unseen }
    {
        &self.unseen
    }

    /// How many scans the whole test has. Takes no memory.
    pub fn scan_count(&self) -> usize
        ensures { result ≡ self.now.scan_count }
    {
        self.scans.len()
    }

    /// How many rows all muxes have. Takes no memory.
    pub fn row_count(&self) -> usize
        ensures { result ≡ self.now.row_count }
    {
        self.rows
    }
}
