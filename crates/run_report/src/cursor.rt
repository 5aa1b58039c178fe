// How far the reads of a procedure are noted.
ghost use Rattle.std.specs.Prelude.{◌≡◌, ◌⊎◌, ◌+◌, ◌*◌, ◌<◌, ◌≤◌, ◌^◌, [], None, length, map, IfOk, OnOk};
ghost use Rattle.std.specs.Prelude.{true, false};
ghost use Rattle.pdl_targets.specs.Laws.{round_count};
ghost use Rattle.merge_order.specs.BitSteps.{bit_steps};
ghost use Rattle.ij_text.specs.Numbering.{AreDistinct};
ghost use Rattle.net_graph.specs.SeenSteps.{seen_step};
ghost use Rattle.net_tree.specs.Routes.{HasRoom};
ghost use Rattle.path_planner.specs.Scannable.{IsScannable};
ghost use Rattle.pdl_parser.specs.Grammar.{full_names};
ghost use Rattle.pdl_parser.specs.Views.{seen_proc};
ghost use Rattle.headline.specs.Retargeting.{IsRetargetable};
ghost use Rattle.headline.specs.Rounds.{StepIsPlannable};
ghost use Rattle.run_report.specs.Noting.{NotesStep, ScansStep, HoldsStep};
ghost use Rattle.run_report.specs.Places.{read_at};
ghost use Rattle.run_report.specs.Procedure.{CanRetarget};
ghost use Rattle.run_report.specs.Reaching.{CanGoOn, IsCursor, StandsOn};

use crate::place::{ReadPlace, find};
use crate::scans::note_step_reads;
use ij_bits::{List, OutOfMemory};
use merge_order::{BitSteps, next_step};
use net_graph::{BitStep, Holds, Net, ReadBit};
use net_tree::{Route, Tree};
use pdl_parser::Proc;
use std::alloc::Global;

/// Bit steps of a procedure up to one of them, with the reads of that one.
#[derive(Drop)]
pub(crate) struct Cursor<'a> {
    /// The bit steps after it.
    pub steps: BitSteps<'a>,
    /// What the update stages hold after it.
    pub holds: Holds,
    /// The number of its first scan.
    pub first: u32,
    /// How many scans there are up to its end.
    pub scans: u32,
    /// The path of its last scan that was looked at, in room for any.
    pub route: Route,
    /// Its reads.
    pub places: List<ReadPlace>,
}

/// The bit steps of a procedure that can begin: all that it refuses by is want of memory.
fn steps_of<'a>(
    alloc: Global,
    procs: &'a [Proc],
    net: &'a Net,
    tree: &'a Tree,
    name: &[u8],
) -> Result<BitSteps<'a>, OutOfMemory>
    requires procs { AreDistinct (full_names (map seen_proc procs.now)) }
    requires few { length procs.now < 2 ^ 32 }
    requires can { CanRetarget net.now tree.now
        (bit_steps (map seen_proc procs.now) net.now tree.now name.now) }
    ensures { IfOk result (λ steps. steps ≡ bit_steps (map seen_proc procs.now) net.now tree.now name.now) }
{
    BitSteps::new(alloc, procs, net, tree, name).map_err(|_| OutOfMemory)
}

impl<'a> Cursor<'a> {
    /// Before the first bit step, after the scan that loads the instruction.
    pub(crate) fn new(
        alloc: Global,
        procs: &'a [Proc],
        net: &'a Net,
        tree: &'a Tree,
        name: &[u8],
    ) -> Result<Self, OutOfMemory>
        requires procs { AreDistinct (full_names (map seen_proc procs.now)) }
        requires few { length procs.now < 2 ^ 32 }
        requires can { CanRetarget net.now tree.now
            (bit_steps (map seen_proc procs.now) net.now tree.now name.now) }
        ensures cursor { IfOk result (IsCursor net.now tree.now
            (bit_steps (map seen_proc procs.now) net.now tree.now name.now).steps) }
        ensures first { IfOk result (λ c. c.first ≡ 0) }
    {
        let holds = Holds::power_up(alloc, net)?;
        let route = Route::new(alloc, net)?;
        // The bit steps are made last: no end of this function lets go of them.
        Ok(Cursor {
            steps: steps_of(alloc, procs, net, tree, name)?,
            holds,
            first: 0,
            scans: 1,
            route,
            places: List::new(alloc),
        })
    }

    /// Goes on by one bit step; `false` where there is none left.
    fn advance_bit_step(
        &mut self,
        alloc: Global,
        net: &Net,
        tree: &Tree,
    ) -> Result<bool, OutOfMemory>
        requires network { IsRetargetable net.now tree.now }
        requires can { CanGoOn net.now tree.now self.old }
        ensures can { OnOk result (CanGoOn net.now tree.now self.new) }
        ensures stands { OnOk result (StandsOn net.now tree.now self.old self.new) }
        ensures first { IfOk result (λ went. went ≡ true → self.new.first ≡ self.old.scans + 1) }
        ensures fewer { IfOk result (λ went. went ≡ true
            → length self.new.steps.steps < length self.old.steps.steps) }
        ensures end { IfOk result (λ went. went ≡ false → self.new.steps.steps ≡ []) }
        ensures stays { IfOk result (λ went. went ≡ false → self.new.first ≡ self.old.first) }
    {
        match next_step(&mut self.steps)? {
            Some(step) => {
                self.note(alloc, net, tree, &step)?;
                Ok(true)
            }
            None => Ok(false),
        }
    }

    /// Notes the reads of a bit step that was taken out, in place of those before.
    fn note(
        &mut self,
        alloc: Global,
        net: &Net,
        tree: &Tree,
        step: &BitStep,
    ) -> Result<(), OutOfMemory>
        requires network { IsRetargetable net.now tree.now }
        requires scannable { IsScannable net.now self.old.holds }
        requires step { StepIsPlannable net.now tree.now (seen_step step.now) }
        requires few { self.old.scans + 17 * round_count (seen_step step.now) + 1 < 2 ^ 32 }
        requires room { HasRoom net.now self.old.route }
        ensures steps { self.new.steps ≡ self.old.steps }
        ensures first { OnOk result (self.new.first ≡ self.old.scans + 1) }
        ensures places { OnOk result (NotesStep net.now tree.now self.old.holds
            (seen_step step.now) self.old.scans [] self.new.places.items) }
        ensures scans { OnOk result
            (ScansStep net.now tree.now self.old.holds (seen_step step.now) self.old.scans self.new.scans) }
        ensures few { OnOk result (self.new.scans
            ≤ self.old.scans + 17 * round_count (seen_step step.now) + 1) }
        ensures holds { OnOk result
            (HoldsStep net.now tree.now self.old.holds (seen_step step.now) self.new.holds) }
        ensures scannable { OnOk result (IsScannable net.now self.new.holds) }
        ensures room { OnOk result (HasRoom net.now self.new.route) }
    {
        let scans = self.scans;
        self.places.clear();
        self.scans = note_step_reads(
            alloc,
            net,
            tree,
            &mut self.holds,
            step,
            scans,
            &mut self.route,
            &mut self.places,
        )?;
        self.first = scans + 1;
        Ok(())
    }

    /// Goes on until the scan is one of those looked at, or to the end.
    pub(crate) fn reach(
        &mut self,
        alloc: Global,
        net: &Net,
        tree: &Tree,
        scan: u32,
    ) -> Result<(), OutOfMemory>
        requires network { IsRetargetable net.now tree.now }
        requires can { CanGoOn net.now tree.now self.old }
        requires first { self.old.first ≤ scan }
        ensures can { OnOk result (CanGoOn net.now tree.now self.new) }
        ensures stands { OnOk result (StandsOn net.now tree.now self.old self.new) }
        ensures first { OnOk result (self.new.first ≤ scan) }
        ensures there { OnOk result ((scan ≤ self.new.scans) ⊎ (self.new.steps.steps ≡ [])) }
    {
        'going: while self.scans < scan {
            if !self.advance_bit_step(alloc, net, tree)? {
                return Ok(());
            }
        }
        Ok(())
    }

    /// The read at a position of a scan of this bit step.
    pub(crate) fn find(&self, scan: u32, bit: u32) -> Option<ReadBit>
        ensures { result ≡ read_at self.now.places.items scan bit }
    {
        find(self.places.as_slice(), scan, bit)
    }
}
