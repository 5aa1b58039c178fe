// A count of clocks through the work of a procedure.
ghost use Rattle.std.specs.Prelude.{◌≡◌, ◌≤◌, ◌<◌, ◌+◌, ◌*◌, ◌^◌, [], ◌∷◌, false, true, length, map};
ghost use Rattle.std.specs.Prelude.{replicate, All, IfOk, OnOk, Some};
ghost use Rattle.net_graph.specs.Held.{AreHolds};
ghost use Rattle.net_graph.specs.Nets.{IsNet};
ghost use Rattle.net_graph.specs.declared.device.Device.{Device as ADevice};
ghost use Rattle.net_graph.specs.declared.net.Net.{Net as ANet};
ghost use Rattle.net_tree.specs.Form.{Items};
ghost use Rattle.net_graph.specs.SeenSteps.{seen_group, seen_step};
ghost use Rattle.net_graph.specs.Steps.{IsGroup, IsStep};
ghost use Rattle.pdl_targets.specs.Laws.{rounds_of};
ghost use Rattle.svf_audit.specs.Work.{Group as GroupWork, Cycle, Reset as ResetWork, work_of};
ghost use Rattle.least_clocks.specs.Counting.{Counts, state_of};
ghost use Rattle.least_clocks.specs.Least.{start, clocks_to_idle, clocks_to_link};

use crate::first::round_scan_clocks;
use crate::inside::bits_within_rows;
use crate::rows::passed_rows;
use crate::work::{is_redundant, write_group};
use ij_bits::OutOfMemory;
use net_graph::{BitStep, Device, Group, Holds, Net};
use net_tree::Tree;
use std::alloc::Global;
use tap_machine::Stable;

/// How far a count has come.
#[derive(Drop)]
pub(crate) struct Count {
    /// Whether no data scan reached the network yet.
    pub fresh: bool,
    /// Whether the link's instruction is in force.
    pub linked: bool,
    /// Where the TAP controller rests.
    pub rest: Stable,
    /// The register bits. Those that select have no meaning.
    pub holds: Holds,
    /// The clocks of TCK so far.
    pub clocks: u64,
}

impl Count {
    /// At power-up.
    pub fn new(alloc: Global, net: &Net) -> Result<Count, OutOfMemory>
        ensures state { IfOk result (λ count. state_of count ≡ start net.now) }
        ensures clocks { IfOk result (λ count. count.clocks ≡ 0) }
    {
        Ok(Count {
            fresh: true,
            linked: false,
            rest: Stable::Reset,
            holds: Holds::power_up(alloc, net)?,
            clocks: 0,
        })
    }

    /// Goes to Run-Test/Idle.
    fn go_to_idle(&mut self)
        requires { self.old.clocks < 2 ^ 63 }
        ensures state { self.new ≡ record self.old
            { rest = Stable.Idle; clocks = self.old.clocks + clocks_to_idle self.old.rest } }
        ensures few { self.new.clocks ≤ self.old.clocks + 1 }
    {
        if self.rest == Stable::Reset {
            self.clocks += 1;
        }
        self.rest = Stable::Idle;
    }

    /// Brings the link's instruction into force.
    fn load_link_instruction(&mut self, device: &Device)
        requires { self.old.clocks < 2 ^ 63 + 2 ^ 32 }
        ensures state { self.new ≡ record self.old
            { linked = true; clocks = self.old.clocks + clocks_to_link device.now self.old.linked } }
        ensures few { self.new.clocks ≤ self.old.clocks + 2 ^ 33 }
    {
        if !self.linked {
            self.clocks += u64::from(device.ir) + 6;
        }
        self.linked = true;
    }

    /// Takes data scans of this many clocks.
    fn scan(&mut self, device: &Device, clocks: u64)
        requires room { self.old.clocks < 2 ^ 63 }
        requires few { clocks ≤ 2 ^ 46 }
        ensures state { self.new
            ≡ record self.old {
              fresh = false;
              linked = true;
              rest = Stable.Idle;
              clocks = self.old.clocks
                  + (clocks_to_idle self.old.rest + (clocks_to_link device.now self.old.linked + clocks));
            } }
        ensures few { self.new.clocks ≤ self.old.clocks + 2 ^ 47 }
    {
        self.go_to_idle();
        self.load_link_instruction(device);
        self.clocks += clocks;
        self.fresh = false;
    }

    /// Does a round.
    fn group(
        &mut self,
        alloc: Global,
        net: &Net,
        tree: &Tree,
        device: &Device,
        group: &Group,
    ) -> Result<(), OutOfMemory>
        requires net { IsNet net.now }
        requires group { IsGroup net.now (seen_group group.now) }
        requires holds { AreHolds net.now self.old.holds }
        requires room { self.old.clocks < 2 ^ 63 }
        ensures counts { OnOk result
            (Counts net.now tree.now device.now (GroupWork (seen_group group.now) ∷ []) self.old self.new) }
        ensures few { OnOk result (self.new.clocks ≤ self.old.clocks + 2 ^ 47) }
        ensures holds { OnOk result (AreHolds net.now self.new.holds) }
    {
        if is_redundant(&self.holds, group) {
            return Ok(());
        }
        let rows = passed_rows(alloc, tree, &self.holds, group)?;
        let own = bits_within_rows(net, tree, rows.as_slice()) + 5;
        let clocks = round_scan_clocks(alloc, net, self.fresh, &self.holds, group, own)?;
        self.scan(device, clocks);
        write_group(&mut self.holds, group);
        Ok(())
    }

    /// Does the rounds of an iApply.
    fn apply(
        &mut self,
        alloc: Global,
        net: &Net,
        tree: &Tree,
        device: &Device,
        rounds: &[Group],
    ) -> Result<(), OutOfMemory>
        requires net { IsNet net.now }
        requires groups { All (IsGroup net.now) (map seen_group rounds.now) }
        requires holds { AreHolds net.now self.old.holds }
        requires room { self.old.clocks + 2 ^ 47 * length rounds.now < 2 ^ 63 }
        ensures counts { OnOk result (Counts net.now tree.now device.now
            (map GroupWork (map seen_group rounds.now)) self.old self.new) }
        ensures few { OnOk result (self.new.clocks ≤ self.old.clocks + 2 ^ 47 * length rounds.now) }
        ensures holds { OnOk result (AreHolds net.now self.new.holds) }
    {
        for group in rounds {
            self.group(alloc, net, tree, device, group)?;
        }
        Ok(())
    }

    /// Does this many clocks in Run-Test/Idle.
    fn run(&mut self, cycles: u32)
        requires { self.old.clocks < 2 ^ 63 }
        ensures counts { (net : ANet) (form : Items) (device : ADevice)
            → Counts net form device (replicate cycles Cycle) self.old self.new }
        ensures few { self.new.clocks ≤ self.old.clocks + 2 ^ 33 }
        ensures holds { self.new.holds ≡ self.old.holds }
    {
        if cycles > 0 {
            self.go_to_idle();
            self.clocks += u64::from(cycles);
        }
    }

    /// Does a reset.
    fn reset(&mut self, net: &Net)
        requires holds { AreHolds net.now self.old.holds }
        requires room { self.old.clocks < 2 ^ 63 }
        ensures counts { (form : Items) (device : ADevice)
            → Counts net.now form device (ResetWork ∷ []) self.old self.new }
        ensures few { self.new.clocks ≤ self.old.clocks + 2 ^ 33 }
        ensures holds { AreHolds net.now self.new.holds }
    {
        self.go_to_idle();
        self.clocks += 5;
        self.linked = false;
        self.rest = Stable::Reset;
        self.holds.reset(net);
    }

    /// Does a bit step.
    pub fn step(
        &mut self,
        alloc: Global,
        net: &Net,
        tree: &Tree,
        device: &Device,
        step: &BitStep,
    ) -> Result<(), OutOfMemory>
        requires net { IsNet net.now }
        requires step { IsStep net.now (seen_step step.now) }
        requires holds { AreHolds net.now self.old.holds }
        requires room { self.old.clocks + 2 ^ 47 * length
            (rounds_of (Some (seen_step step.now))) + 2 ^ 33 < 2 ^ 63 }
        ensures counts { OnOk result
            (Counts net.now tree.now device.now (work_of (seen_step step.now)) self.old self.new) }
        ensures few { OnOk result (self.new.clocks
            ≤ self.old.clocks + 2 ^ 47 * length (rounds_of (Some (seen_step step.now))) + 2 ^ 33) }
        ensures holds { OnOk result (AreHolds net.now self.new.holds) }
    {
        match step {
            BitStep::Apply(rounds) => self.apply(alloc, net, tree, device, rounds.as_slice()),
            BitStep::Run(cycles) => {
                self.run(*cycles);
                Ok(())
            }
            BitStep::Reset => {
                self.reset(net);
                Ok(())
            }
        }
    }
}
