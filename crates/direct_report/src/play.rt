// A procedure's direct meaning, printed while it goes on.
ghost use Rattle.std.specs.Prelude.{◌≡◌, ◌<◌, ◌≤◌, ◌+◌, ◌*◌, ◌^◌, length, map, All, IfOk, OnOk, OnErr};
ghost use Rattle.pdl_targets.specs.Laws.{round_count};
ghost use Rattle.direct_report.specs.Tally.{Keeps};
ghost use Rattle.direct_report.specs.Report.{end_text, step_lines};
ghost use Rattle.ij_io.specs.Bytes.{Adds, AddsPart};
ghost use Rattle.ij_io.specs.Causes.{HasCause};
ghost use Rattle.instruments.specs.After.{machine_of};
ghost use Rattle.instruments.specs.Machine.{count_log};
ghost use Rattle.instruments.specs.Seen.{seen_model};
ghost use Rattle.instruments.specs.declared.Counts.{Counts as TheCounts};
ghost use Rattle.net_graph.specs.Nets.{IsNet};
ghost use Rattle.net_graph.specs.SeenSteps.{Apply, seen_group, seen_step};
ghost use Rattle.net_graph.specs.Steps.{IsGroup, IsStep};
ghost use Rattle.pdl_meaning.specs.Direct.{Direct, do_step, power_up};
ghost use Rattle.instruments.specs.Runners.{AreModels};

use crate::round::play_rounds;
use crate::state::put_values;
use ij_bits::{List, OutOfMemory};
use ij_io::{Sink, StoreFault};
use instruments::Model;
use net_graph::{BitMarks, BitStep, Group, Net};
use pdl_meaning::DataState;
use report::{Totals, put_totals};
use std::alloc::Global;

/// Runs a procedure's bit steps by their direct meaning, and prints the reads that differ while it goes on
/// (IEEE 1687-2014, PDL level 0).
///
/// Contracts see the network, the instruments' models, what the register bits and the instruments hold, and
/// how many bits were compared and how many of them differ. Only [`new`](DirectPlay::new) takes memory.
#[derive(Drop)]
pub struct DirectPlay<'a> {
    net: &'a Net,
    models: &'a List<Model>,
    values: DataState<'a>,
    marks: BitMarks,
    reads: u64,
    differs: u64,
}

impl<'a> std::marker::Model for DirectPlay<'a> {
    ghost use Rattle.std.specs.Prelude.{map};
    ghost use Rattle.instruments.specs.Seen.{seen_model};
    ghost use Rattle.direct_report.specs.Tally.{Tally};
    ghost use Rattle.direct_report.specs.Playing.{IsPlay};

    ghost Value = { Tally };

    ghost view = { λ p. record {
      net = p.net.now;
      models = map seen_model p.models.now.items;
      holds = p.values.holds;
      insts = p.values.insts;
      reads = p.reads;
      differs = p.differs;
    } };

    ghost invariant = { λ p. IsPlay p.net.now p.models.now.items p.values p.marks p.reads p.differs };
}

impl<'a> DirectPlay<'a> {
    /// At power-up, before the first step. `models` has a model for each instrument, in the network's order.
    pub fn new(
        alloc: Global,
        net: &'a Net,
        models: &'a List<Model>,
    ) -> Result<DirectPlay<'a>, OutOfMemory>
        requires well_formed { IsNet net.now }
        requires models { AreModels net.now models.now.items }
        ensures net { IfOk result (λ p. p.net ≡ net.now) }
        ensures models { IfOk result (λ p. p.models ≡ map seen_model models.now.items) }
        ensures state { IfOk result
            (λ p. Keeps p (power_up count_log net.now (map machine_of (map seen_model models.now.items)))) }
        ensures reads { IfOk result (λ p. p.reads ≡ 0) }
    {
        Ok(DirectPlay {
            net,
            models,
            values: DataState::power_up(alloc, net, models)?,
            marks: BitMarks::zeros(alloc, net)?,
            reads: 0,
            differs: 0,
        })
    }

    /// Does one step, and writes a line `differs iread R line L index I expected E read V` for each bit that
    /// it reads other than expected: round by round, in a round by register and position. It takes no memory
    /// itself.
    ///
    /// # Errors
    ///
    /// The sink's, which then took some first bytes of these lines. What the play holds then isn't said.
    pub fn step<K: Sink>(&mut self, step: &BitStep, k: &mut K) -> Result<(), StoreFault>
        requires step { IsStep self.old.net (seen_step step.now) }
        requires few { self.old.reads + 4096 * round_count (seen_step step.now) < 2 ^ 64 }
        ensures net { self.new.net ≡ self.old.net }
        ensures models { self.new.models ≡ self.old.models }
        ensures whole { (d : Direct TheCounts) → Keeps self.old d
            → OnOk result (Adds (K.taken k.old) (K.taken k.new)
            (step_lines self.old.net (map machine_of self.old.models) d (seen_step step.now))) }
        ensures state { (d : Direct TheCounts) → Keeps self.old d → OnOk result (Keeps self.new
            (do_step count_log self.old.net (map machine_of self.old.models) d (seen_step step.now))) }
        ensures few { OnOk result (self.new.reads
            ≤ self.old.reads + 4096 * round_count (seen_step step.now)) }
        ensures part { (d : Direct TheCounts) → Keeps self.old d
            → OnErr result (AddsPart (K.taken k.old) (K.taken k.new)
            (step_lines self.old.net (map machine_of self.old.models) d (seen_step step.now))) }
        ensures cause { HasCause (K.faults k.old) (K.faults k.new) result StoreFault.Failed }
    {
        match step {
            BitStep::Apply(rounds) => self.apply(rounds.as_slice(), k),
            BitStep::Run(cycles) => {
                self.values.run(*cycles);
                Ok(())
            }
            BitStep::Reset => {
                self.values.reset();
                Ok(())
            }
        }
    }

    /// Does the rounds of an iApply, as [`step`](Self::step) says.
    fn apply<K: Sink>(&mut self, rounds: &[Group], k: &mut K) -> Result<(), StoreFault>
        requires groups { All (IsGroup self.old.net) (map seen_group rounds.now) }
        requires few { self.old.reads + 4096 * length rounds.now < 2 ^ 64 }
        ensures net { self.new.net ≡ self.old.net }
        ensures models { self.new.models ≡ self.old.models }
        ensures whole { (d : Direct TheCounts) → Keeps self.old d
            → OnOk result (Adds (K.taken k.old) (K.taken k.new) (step_lines self.old.net
            (map machine_of self.old.models) d (Apply (map seen_group rounds.now)))) }
        ensures state { (d : Direct TheCounts) → Keeps self.old d → OnOk result (Keeps self.new (do_step
            count_log self.old.net (map machine_of self.old.models) d (Apply (map seen_group rounds.now)))) }
        ensures few { OnOk result (self.new.reads ≤ self.old.reads + 4096 * length rounds.now) }
        ensures part { (d : Direct TheCounts) → Keeps self.old d
            → OnErr result (AddsPart (K.taken k.old) (K.taken k.new) (step_lines self.old.net
            (map machine_of self.old.models) d (Apply (map seen_group rounds.now)))) }
        ensures cause { HasCause (K.faults k.old) (K.faults k.new) result StoreFault.Failed }
    {
        let told = play_rounds(self.net, &mut self.values, &mut self.marks, rounds, k)?;
        self.reads += told.reads;
        self.differs += told.differs;
        Ok(())
    }

    /// Writes the end of the report: the line of each register and of each instrument, and
    /// `reads N differs D`. Answers how many reads differ. It takes no memory itself.
    ///
    /// # Errors
    ///
    /// The sink's, which then took some first bytes of these lines.
    pub fn finish<K: Sink>(&self, k: &mut K) -> Result<u64, StoreFault>
        ensures whole { (d : Direct TheCounts) → Keeps self.now d
            → OnOk result (Adds (K.taken k.old) (K.taken k.new) (end_text self.now.net self.now.models d)) }
        ensures differs { IfOk result (λ n. n ≡ self.now.differs) }
        ensures part { (d : Direct TheCounts) → Keeps self.now d → OnErr result
            (AddsPart (K.taken k.old) (K.taken k.new) (end_text self.now.net self.now.models d)) }
        ensures cause { HasCause (K.faults k.old) (K.faults k.new) result StoreFault.Failed }
    {
        put_values(self.net, self.models, &self.values, k)?;
        let totals = Totals::Direct {
            reads: self.reads,
            differs: self.differs,
        };
        put_totals(&totals, k)?;
        Ok(self.differs)
    }
}
