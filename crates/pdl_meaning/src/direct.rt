// The direct meaning of bit steps, with all that they read.
ghost use Rattle.std.specs.Prelude.{◌≡◌, ◌++◌, ◌+◌, ◌≤◌, IfOk, OnOk, OnErr, IfSome, length, map};
ghost use Rattle.std.specs.Prelude.{All};
ghost use Rattle.instruments.specs.Machine.{count_log};
ghost use Rattle.net_graph.specs.Named.{IsBitOf};
ghost use Rattle.net_graph.specs.Nets.{IsNet};
ghost use Rattle.net_graph.specs.SeenSteps.{seen_group, seen_step};
ghost use Rattle.net_graph.specs.Signals.{hold_at};
ghost use Rattle.net_graph.specs.Steps.{IsGroup, IsStep};
ghost use Rattle.pdl_meaning.specs.Direct.{power_up, found, do_group, do_rounds, do_step};
ghost use Rattle.pdl_meaning.specs.States.{with_reads, reads_of};
ghost use Rattle.instruments.specs.Runners.{insts_of, machines_of, AreModels};

use crate::state::DataState;
use ij_bits::{Buffer, List, OutOfMemory};
use instruments::{Model, Runner};
use net_graph::{BitId, BitStep, Group, Net, ReadBit};
use std::alloc::Global;

/// The direct meaning of a procedure: the value of each register bit, each instrument's words, memory and
/// counts of events, and every bit that was read with the value found (IEEE 1687-2014, PDL level 0: iWrite,
/// iRead, iApply, iRunLoop, iReset).
///
/// Contracts see the network, the instruments' models, and the state of `pdl_meaning`, in which each list of
/// events is replaced by its counts. Bits that select in a multiplexer have no direct value: what is said of
/// them means nothing.
#[derive(Drop)]
pub struct Direct<'a> {
    values: DataState<'a>,
    reads: Buffer<(ReadBit, bool)>,
}

impl<'a> std::marker::Model for Direct<'a> {
    ghost use Rattle.pdl_meaning.specs.States.{SeenDirect, with_reads};

    ghost Value = { SeenDirect };

    ghost view = { λ d. record {
      net = d.values.net;
      models = d.values.models;
      state = with_reads d.values d.reads.items;
    } };
}

/// How many bits some rounds read, if that many can be counted.
fn count_reads(rounds: &[Group]) -> Option<usize>
    ensures { IfSome result (λ n. n ≡ reads_of (map seen_group rounds.now)) }
{
    let mut count = 0usize;
    for group in rounds {
        count = count.checked_add(group.reads.len())?;
    }
    Some(count)
}

/// Reads register bits, into room that is there.
fn read_all(values: &DataState, reads: &[ReadBit], into: &mut Buffer<(ReadBit, bool)>)
    requires there { All (λ r. IsBitOf values.now.net r.bit) reads.now }
    requires room { length reads.now ≤ into.old.spare }
    ensures items { into.new.items ≡ into.old.items ++ map (found count_log values.now.net
        (machines_of values.now.models) (with_reads values.now into.old.items)) reads.now }
    ensures room { into.new.spare + length reads.now ≡ into.old.spare }
{
    for read in reads {
        into.push_reserved((*read, values.found(read.bit)));
    }
}

/// Does one round: all its reads, then all its writes at once, then the instruments' changes.
fn do_round(values: &mut DataState, reads: &mut Buffer<(ReadBit, bool)>, group: &Group)
    requires group { IsGroup values.old.net (seen_group group.now) }
    requires room { length group.now.reads.items ≤ reads.old.spare }
    ensures net { values.new.net ≡ values.old.net }
    ensures models { values.new.models ≡ values.old.models }
    ensures state { with_reads values.new reads.new.items ≡ do_group count_log values.old.net
        (machines_of values.old.models) (with_reads values.old reads.old.items) (seen_group group.now) }
    ensures room { reads.new.spare + length group.now.reads.items ≡ reads.old.spare }
{
    read_all(values, group.reads.as_slice(), reads);
    values.write(group.writes.as_slice());
}

/// Does the rounds of an iApply, one after the other.
fn do_all_rounds(values: &mut DataState, reads: &mut Buffer<(ReadBit, bool)>, rounds: &[Group])
    requires groups { All (IsGroup values.old.net) (map seen_group rounds.now) }
    requires room { reads_of (map seen_group rounds.now) ≤ reads.old.spare }
    ensures net { values.new.net ≡ values.old.net }
    ensures models { values.new.models ≡ values.old.models }
    ensures state { with_reads values.new reads.new.items ≡ do_rounds count_log values.old.net
        (machines_of values.old.models) (with_reads values.old reads.old.items) (map seen_group rounds.now) }
{
    for group in rounds {
        do_round(values, reads, group);
    }
}

impl<'a> Direct<'a> {
    /// At power-up, before the first step: register bits at their reset values and 0 without one, instruments
    /// at the numbers with which they begin, no event and no read. `models` has a model for each instrument,
    /// in the network's order.
    pub fn power_up(
        alloc: Global,
        net: &'a Net,
        models: &'a List<Model>,
    ) -> Result<Direct<'a>, OutOfMemory>
        requires well_formed { IsNet net.now }
        requires models { AreModels net.now models.now.items }
        ensures begins { IfOk result (λ d. d ≡ record {
          net = net.now;
          models = models.now.items;
          state = power_up count_log net.now (machines_of models.now.items);
        }) }
        ensures insts { IfOk result (λ d. length d.state.insts ≡ length net.now.insts.items) }
    {
        Ok(Direct {
            values: DataState::power_up(alloc, net, models)?,
            reads: Buffer::new(alloc),
        })
    }

    /// Does one step. It takes memory only for the reads of an iApply, before anything is done.
    ///
    /// - An iApply: its rounds one after the other. In a round every read takes the value of its bit's
    ///   capture signal, then all writes take effect at once, then every instrument whose inputs differ has a
    ///   change event.
    /// - A run: that many run events for every instrument.
    /// - A reset: register bits with a reset value take it, then every instrument has a reset event.
    ///
    /// # Errors
    ///
    /// `OutOfMemory`, and then all is as before the step.
    pub fn step(&mut self, step: &BitStep) -> Result<(), OutOfMemory>
        requires { IsStep self.old.net (seen_step step.now) }
        ensures ok { OnOk result (self.new ≡ record self.old {
          state = do_step count_log self.old.net
              (machines_of self.old.models) self.old.state (seen_step step.now);
        }) }
        ensures err { OnErr result (self.new ≡ self.old) }
        ensures insts { length self.new.state.insts ≡ length self.old.state.insts }
    {
        match step {
            BitStep::Apply(rounds) => self.apply(rounds.as_slice()),
            BitStep::Run(cycles) => {
                self.values.run(*cycles);
                Ok(())
            }
            BitStep::Reset => {
                self.values.reset();
                Ok(())
            }
        }
    }

    /// Does the rounds of an iApply.
    fn apply(&mut self, rounds: &[Group]) -> Result<(), OutOfMemory>
        requires { All (IsGroup self.old.net) (map seen_group rounds.now) }
        ensures ok { OnOk result (self.new ≡ record self.old {
          state = do_rounds count_log self.old.net
              (machines_of self.old.models) self.old.state (map seen_group rounds.now);
        }) }
        ensures err { OnErr result (self.new ≡ self.old) }
    {
        let Some(count) = count_reads(rounds) else {
            return Err(OutOfMemory);
        };
        self.reads.reserve(count)?;
        do_all_rounds(&mut self.values, &mut self.reads, rounds);
        Ok(())
    }

    /// The value of a register bit that selects nothing. It takes no memory.
    pub fn value(&self, bit: BitId) -> bool
        requires { IsBitOf self.now.net bit }
        ensures { result ≡ hold_at self.now.state.holds bit }
    {
        self.values.value(bit)
    }

    /// The instruments, each with its state and how often it had each kind of event. It takes no memory.
    pub fn runners(&self) -> &[Runner]
        ensures { insts_of result.now ≡ self.now.state.insts }
    {
        self.values.runners()
    }

    /// Each bit that was read, in the order of the steps, with the value found. It takes no memory.
    pub fn reads(&self) -> &[(ReadBit, bool)]
        ensures { result.now ≡ self.now.state.reads }
    {
        self.reads.as_slice()
    }
}
