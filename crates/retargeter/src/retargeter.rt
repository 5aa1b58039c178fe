// The SVF of bit steps, one after the other.
ghost use Rattle.std.specs.Prelude.{◌≡◌, ◌+◌, ◌<◌, ◌≤◌, ◌^◌, length, map, All, IfOk, OnOk, OnErr};
ghost use Rattle.pdl_targets.specs.Laws.{round_count};
ghost use Rattle.ij_io.specs.Bytes.{Adds, AddsPart};
ghost use Rattle.ij_io.specs.Causes.{HasCause};
ghost use Rattle.net_graph.specs.Devices.{IsDevice};
ghost use Rattle.net_graph.specs.Resets.{start_holds};
ghost use Rattle.net_graph.specs.SeenSteps.{Apply, Reset, seen_group, seen_step};
ghost use Rattle.svf_writer.specs.SeenCommands.{Run as RunTest};
ghost use Rattle.svf_writer.specs.Written.{text_of};
ghost use Rattle.headline.specs.Rounds.{IsPlannable, StepIsPlannable};
ghost use Rattle.headline.specs.Retargeting.{IsRetargetable};
ghost use Rattle.retargeter.specs.Writing.{HasPlan, WritesStep, WritesStepPart, IsAfterStep};

use crate::buffers::Buffers;
use crate::rounds::put_rounds;
use ij_bits::OutOfMemory;
use ij_io::{Sink, StoreFault};
use net_graph::{BitStep, Device, Group, Holds, Net};
use net_tree::Tree;
use scan_packer::HeldPath;
use std::alloc::Global;
use std::marker::Model;
use svf_writer::{Command, put, put_reset};

/// Writes the SVF of a procedure's bit steps on a network, one after the other (IEEE 1687-2014, PDL level 0:
/// iApply, iRunLoop, iReset; Serial Vector Format, revision E).
///
/// Contracts see the network, its nested form, the device, what the update stages hold before the next step,
/// and how many iApplys were written.
#[derive(Drop)]
pub struct Retargeter<'a> {
    alloc: Global,
    net: &'a Net,
    tree: &'a Tree,
    device: &'a Device,
    holds: Holds,
    path: HeldPath,
    applies: u32,
    buffers: Buffers,
}

impl<'a> Model for Retargeter<'a> {
    ghost use Rattle.std.specs.Coded.{codes};
    ghost use Rattle.net_tree.specs.FormCode.{form_code};
    ghost use Rattle.scan_packer.specs.HeldPaths.{HasPathRoom, IsHeldPath};
    ghost use Rattle.retargeter.specs.Room.{HasScanRoom};
    ghost use Rattle.retargeter.specs.Session.{Session, IsReady};

    ghost Value = { Session };

    ghost coded = { Prim.hlevel (codes, form_code) };

    ghost view = { λ r. record {
      net = r.net.now;
      form = r.tree.now;
      device = r.device.now;
      holds = r.holds;
      applies = r.applies;
    } };

    ghost invariant = { λ r. IsReady (record {
      net = r.net.now;
      form = r.tree.now;
      device = r.device.now;
      holds = r.holds;
      applies = r.applies;
    }) × IsHeldPath r.net.now r.holds r.path × HasPathRoom r.net.now r.path
        × HasScanRoom r.net.now r.buffers };
}

/// Writes a run of this many cycles.
fn put_run<K: Sink>(cycles: u32, k: &mut K) -> Result<(), StoreFault>
    requires { cycles ≤ 999999999 }
    ensures whole { OnOk result (Adds (K.taken k.old) (K.taken k.new) (text_of (RunTest cycles))) }
    ensures part { OnErr result (AddsPart (K.taken k.old) (K.taken k.new) (text_of (RunTest cycles))) }
    ensures cause { HasCause (K.faults k.old) (K.faults k.new) result StoreFault.Failed }
{
    put(&Command::Run(cycles), k)
}

impl<'a> Retargeter<'a> {
    /// At power-up, before the first step: every register bit holds its reset value, and 0 without one. It
    /// takes memory for what the update stages hold and for the bits of one scan.
    pub fn new(
        alloc: Global,
        net: &'a Net,
        tree: &'a Tree,
        device: &'a Device,
    ) -> Result<Self, OutOfMemory>
        requires network { IsRetargetable net.now tree.now }
        requires device { IsDevice device.now }
        ensures { IfOk result (λ r. r ≡ record {
          net = net.now;
          form = tree.now;
          device = device.now;
          holds = start_holds net.now;
          applies = 0;
        }) }
    {
        let holds = Holds::power_up(alloc, net)?;
        let path = HeldPath::of(alloc, net, tree, &holds)?;
        Ok(Retargeter {
            alloc,
            net,
            tree,
            device,
            holds,
            path,
            applies: 0,
            buffers: Buffers::new(alloc, net)?,
        })
    }

    /// Writes a bit step.
    ///
    /// - An iApply: for each of its rounds the comment `! apply K`, from the second round on
    ///   `! apply K round J`, K counting the iApplys from 1; then the scans that open the way to the group's
    ///   registers, as few as can be, and last the scan that writes and reads, with TDO and MASK where the
    ///   group reads. Each scan is a line `SDR N TDI (h);` of the whole active path, position 0 (nearest TDO)
    ///   in the rightmost digit.
    /// - A run: `RUNTEST N TCK;`.
    /// - A reset: `STATE RESET;`, `STATE IDLE;` and the line that loads the link's instruction. Register bits
    ///   with a reset value take it.
    ///
    /// # Errors
    ///
    /// - `Failed`: the sink failed, and its count of faults rose.
    /// - `OutOfMemory`: there was no memory for the plans of a group, or the sink had none.
    ///
    /// After a refusal the sink took some first bytes of the text, maybe none, and what the update stages
    /// hold isn't said.
    pub fn put_step<K: Sink>(&mut self, step: &BitStep, k: &mut K) -> Result<(), StoreFault>
        requires step { StepIsPlannable self.old.net self.old.form (seen_step step.now) }
        requires few_rounds { round_count (seen_step step.now) ≤ 4096 }
        requires count { self.old.applies + 1 < 2 ^ 32 }
        ensures plan { HasPlan self.old (seen_step step.now) }
        ensures whole { OnOk result
            (WritesStep self.old (seen_step step.now) (K.taken k.old) (K.taken k.new)) }
        ensures part { OnErr result
            (WritesStepPart self.old (seen_step step.now) (K.taken k.old) (K.taken k.new)) }
        ensures cause { HasCause (K.faults k.old) (K.faults k.new) result StoreFault.Failed }
        ensures after { OnOk result (IsAfterStep self.old (seen_step step.now) self.new) }
    {
        let _holds = &self.holds;
        self.write(step, k)
    }

    /// Writes a bit step, as [`put_step`](Self::put_step) says.
    fn write<K: Sink>(&mut self, step: &BitStep, k: &mut K) -> Result<(), StoreFault>
        requires step { StepIsPlannable self.old.net self.old.form (seen_step step.now) }
        requires few_rounds { round_count (seen_step step.now) ≤ 4096 }
        requires count { self.old.applies + 1 < 2 ^ 32 }
        ensures whole { OnOk result
            (WritesStep self.old (seen_step step.now) (K.taken k.old) (K.taken k.new)) }
        ensures part { OnErr result
            (WritesStepPart self.old (seen_step step.now) (K.taken k.old) (K.taken k.new)) }
        ensures cause { HasCause (K.faults k.old) (K.faults k.new) result StoreFault.Failed }
        ensures after { OnOk result (IsAfterStep self.old (seen_step step.now) self.new) }
    {
        match step {
            BitStep::Apply(rounds) => self.write_apply(rounds.as_slice(), k),
            BitStep::Run(cycles) => put_run(*cycles, k),
            BitStep::Reset => self.write_reset(k),
        }
    }

    /// Writes an iApply.
    fn write_apply<K: Sink>(&mut self, rounds: &[Group], k: &mut K) -> Result<(), StoreFault>
        requires groups { All (IsPlannable self.old.net self.old.form) (map seen_group rounds.now) }
        requires few_rounds { length rounds.now ≤ 4096 }
        requires count { self.old.applies + 1 < 2 ^ 32 }
        ensures whole { OnOk result
            (WritesStep self.old (Apply (map seen_group rounds.now)) (K.taken k.old) (K.taken k.new)) }
        ensures part { OnErr result
            (WritesStepPart self.old (Apply (map seen_group rounds.now)) (K.taken k.old) (K.taken k.new)) }
        ensures cause { HasCause (K.faults k.old) (K.faults k.new) result StoreFault.Failed }
        ensures after { OnOk result (IsAfterStep self.old (Apply (map seen_group rounds.now)) self.new) }
    {
        put_rounds(
            self.alloc,
            self.net,
            self.tree,
            self.applies + 1,
            rounds,
            &mut self.holds,
            &mut self.path,
            &mut self.buffers,
            k,
        )?;
        self.applies += 1;
        Ok(())
    }

    /// Writes a reset.
    fn write_reset<K: Sink>(&mut self, k: &mut K) -> Result<(), StoreFault>
        ensures whole { OnOk result (WritesStep self.old Reset (K.taken k.old) (K.taken k.new)) }
        ensures part { OnErr result (WritesStepPart self.old Reset (K.taken k.old) (K.taken k.new)) }
        ensures cause { HasCause (K.faults k.old) (K.faults k.new) result StoreFault.Failed }
        ensures after { OnOk result (IsAfterStep self.old Reset self.new) }
    {
        put_reset(self.device, k)?;
        self.holds.reset(self.net);
        self.path.find(self.net, self.tree, &self.holds);
        Ok(())
    }
}
