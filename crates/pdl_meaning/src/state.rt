// The register bits and the instruments of a network, as a procedure meets them.
ghost use Rattle.std.specs.Prelude.{◌≡◌, IfOk, length, All};
ghost use Rattle.instruments.specs.OnNetwork.{outputs, changes, all_have, fresh};
ghost use Rattle.instruments.specs.Machine.{count_log, Reset};
ghost use Rattle.net_graph.specs.Held.{AreHolds};
ghost use Rattle.net_graph.specs.Named.{IsBitOf};
ghost use Rattle.net_graph.specs.Nets.{IsNet};
ghost use Rattle.net_graph.specs.Resets.{reset_holds, start_holds};
ghost use Rattle.net_graph.specs.Signals.{hold_at, signal, capture_signal};
ghost use Rattle.net_graph.specs.Writes.{write_all};
ghost use Rattle.pdl_meaning.specs.Direct.{run_cycles};
ghost use Rattle.pdl_meaning.specs.States.{Reads, with_reads};
ghost use Rattle.instruments.specs.Runners.{insts_of, machines_of, AreModels};

use crate::bits::{capture_of, run_times, write_bits};
use ij_bits::{List, OutOfMemory};
use instruments::{Model, Runner, captured, drive_all_inputs, reset_all, start};
use net_graph::{BitId, Holds, Net, WriteBit};
use std::alloc::Global;

/// The register bits and the instruments of a network, as a procedure meets them: no scan chain and no
/// multiplexer (IEEE 1687-2014, PDL level 0).
///
/// Contracts see the network, the instruments' models, what the update stages hold, and the instruments with
/// the counts of their events. Bits that select in a multiplexer stand among the others and mean nothing.
/// Only [`power_up`](DataState::power_up) takes memory.
#[derive(Drop)]
pub struct DataState<'a> {
    net: &'a Net,
    models: &'a List<Model>,
    holds: Holds,
    runners: Vec<Runner>,
}

impl<'a> std::marker::Model for DataState<'a> {
    ghost use Rattle.pdl_meaning.specs.States.{SeenState};
    ghost use Rattle.pdl_meaning.specs.Sound.{IsState};
    ghost use Rattle.instruments.specs.Runners.{insts_of};

    ghost Value = { SeenState };

    ghost view = { λ s. record {
      net = s.net.now;
      models = s.models.now.items;
      holds = s.holds;
      insts = insts_of s.runners.items;
    } };

    ghost invariant = { λ s. IsState s.net.now s.models.now.items s.holds s.runners.items };
}

impl<'a> DataState<'a> {
    /// The network at power-up, with a model for each instrument: register bits at their reset values and 0
    /// without one, instruments at the numbers with which they begin and without an event.
    pub fn power_up(
        alloc: Global,
        net: &'a Net,
        models: &'a List<Model>,
    ) -> Result<DataState<'a>, OutOfMemory>
        requires well_formed { IsNet net.now }
        requires models { AreModels net.now models.now.items }
        ensures { IfOk result (λ s. s ≡ record {
          net = net.now;
          models = models.now.items;
          holds = start_holds net.now;
          insts = fresh count_log (machines_of models.now.items);
        }) }
    {
        let holds = Holds::power_up(alloc, net)?;
        let runners = start(alloc, net, models, &holds)?;
        Ok(DataState {
            net,
            models,
            holds,
            runners,
        })
    }

    /// The value that a read of a register bit finds: that of its capture signal.
    pub fn found(&self, bit: BitId) -> bool
        requires { IsBitOf self.now.net bit }
        ensures { result ≡ signal (outputs (machines_of self.now.models) self.now.insts) self.now.holds
            (capture_signal self.now.net bit) }
    {
        let sig = capture_of(self.net, bit);
        captured(sig, &self.holds, self.models, self.runners.as_slice())
    }

    /// Writes register bits all at once; then every instrument whose inputs differ has a change event.
    pub fn write(&mut self, writes: &[WriteBit])
        requires { All (λ w. IsBitOf self.old.net w.bit) writes.now }
        ensures { self.new ≡ record self.old {
          holds = write_all self.old.holds writes.now;
          insts = changes count_log self.old.net (machines_of self.old.models) self.old.holds
              (write_all self.old.holds writes.now) self.old.insts;
        } }
    {
        write_bits(&mut self.holds, writes);
        drive_all_inputs(
            self.net,
            self.models,
            &self.holds,
            self.runners.as_mut_slice(),
        );
    }

    /// This many run events for every instrument.
    pub fn run(&mut self, cycles: u32)
        ensures others { self.new ≡ record self.old { insts = self.new.insts } }
        ensures state { (reads : Reads) → with_reads self.new reads ≡ run_cycles count_log self.old.net
            (machines_of self.old.models) cycles (with_reads self.old reads) }
    {
        run_times(self.models, self.runners.as_mut_slice(), cycles);
    }

    /// A reset: register bits with a reset value take it, then every instrument has a reset event.
    pub fn reset(&mut self)
        ensures { self.new ≡ record self.old {
          holds = reset_holds self.old.net self.old.holds;
          insts = all_have count_log self.old.net
              (machines_of self.old.models) Reset (reset_holds self.old.net self.old.holds) self.old.insts;
        } }
    {
        self.holds.reset(self.net);
        reset_all(
            self.net,
            self.models,
            &self.holds,
            self.runners.as_mut_slice(),
        );
    }

    /// The value of a register bit.
    pub fn value(&self, bit: BitId) -> bool
        requires { IsBitOf self.now.net bit }
        ensures { result ≡ hold_at self.now.holds bit }
    {
        self.holds.get(bit)
    }

    /// What the update stages hold.
    pub fn holds(&self) -> &Holds
        ensures holds { result.now ≡ self.now.holds }
        ensures shape { AreHolds self.now.net result.now }
    {
        &self.holds
    }

    /// The instruments, each with its state and how often it had each kind of event. It takes no memory.
    pub fn runners(&self) -> &[Runner]
        ensures insts { insts_of result.now ≡ self.now.insts }
        ensures models { length result.now ≡ length self.now.models }
    {
        &self.runners
    }
}
