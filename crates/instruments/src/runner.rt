// One instrument of a network, and what drives its inputs.
ghost use Rattle.std.specs.Prelude.{◌≡◌, ◌^◌, ◌<◌, ◌≤◌, IsTrue, false, map, slice_index_or, length, All, ℕ};
ghost use Rattle.ij_bits.specs.BitLists.{number_of};
ghost use Rattle.instruments.specs.After.{machine_of};
ghost use Rattle.instruments.specs.Arrays.{StandFor};
ghost use Rattle.instruments.specs.Machine.{Inputs, Run, Reset, count_log};
ghost use Rattle.instruments.specs.Models.{IsModel};
ghost use Rattle.instruments.specs.OnNetwork.{change_of, happens, port_numbers};
ghost use Rattle.instruments.specs.Seen.{seen_model};
ghost use Rattle.net_graph.specs.Signals.{signal};
ghost use Rattle.instruments.specs.Driven.{IsDriven};
ghost use Rattle.instruments.specs.Runners.{running_of};

use crate::Counts;
use crate::machine::Machine;
use crate::model::Model;
use crate::runs::{is_register_run, register_number};
use net_graph::{Holds, Inst, Sig};

/// One instrument: its state, the numbers at its inputs, and how often it had each kind of event.
#[derive(Drop)]
pub struct Runner {
    /// The state of its words and its memory.
    pub machine: Machine,
    /// The numbers at its inputs, and 0 after them.
    pub inputs: [u64; 16],
    /// How often it had each kind of event.
    pub counts: Counts,
}

/// Whether the same numbers stand in two arrays.
fn same(a: &[u64; 16], b: &[u64; 16]) -> bool
    ensures equal { IsTrue result → a.now ≡ b.now }
    ensures each { ((k : ℕ) → slice_index_or a.now k 0 ≡ slice_index_or b.now k 0) → IsTrue result }
{
    for i in 0..16usize {
        if a[i] != b[i] {
            return false;
        }
    }
    true
}

/// The value of a signal that no instrument drives.
fn value(sig: Sig, holds: &Holds) -> bool
    requires { IsDriven holds.now sig }
    ensures { result ≡ signal (λ inst port pos. false) holds.now sig }
{
    match sig {
        Sig::One => true,
        Sig::Bit { bit, inverted } => holds.get(bit) != inverted,
        Sig::Absent | Sig::Zero => false,
        Sig::Out {
            inst: _,
            port: _,
            pos: _,
            inverted,
        } => inverted,
    }
}

/// The number that signals have which no instrument drives, bit by bit, the first one the lowest.
fn number_by_bits(bits: &[Sig], holds: &Holds) -> u64
    requires few { length bits.now ≤ 64 }
    requires driven { All (IsDriven holds.now) bits.now }
    ensures value { result ≡ number_of (map (signal (λ inst port pos. false) holds.now) bits.now) }
    ensures small { result < 2 ^ length bits.now }
{
    match bits {
        [first, rest @ ..] => { u64::from(value(*first, holds)) + 2 * number_by_bits(rest, holds) }
        [] => 0,
    }
}

/// The number that is at an input port, its first bit the lowest. Where one register drives it, the
/// number is read at once.
fn port_number(bits: &[Sig], holds: &Holds) -> u64
    requires few { length bits.now ≤ 64 }
    requires driven { All (IsDriven holds.now) bits.now }
    ensures { result ≡ number_of (map (signal (λ inst port pos. false) holds.now) bits.now) }
{
    match bits {
        [Sig::Bit { bit, inverted: _ }, ..] if is_register_run(bits, *bit) => register_number(
            *bit,
            bits.len() as u32,
            holds,
        ),
        _ => number_by_bits(bits, holds),
    }
}

/// The numbers at the inputs of an instrument, and 0 after them.
pub(crate) fn inputs_of(inst: &Inst, holds: &Holds) -> [u64; 16]
    requires few { length inst.now.ins.items ≤ 16 }
    requires ports { All (λ port. (length port.bits.items ≤ 64)
        × All (IsDriven holds.now) port.bits.items) inst.now.ins.items }
    ensures { StandFor result (port_numbers holds.now inst.now) }
{
    let mut numbers = [0; 16];
    for i in 0..inst.ins.len() {
        numbers[i] = port_number(inst.ins.get(i).bits.as_slice(), holds);
    }
    numbers
}

impl Runner {
    /// Shows other numbers at the inputs, with a change event where they differ.
    pub(crate) fn drive_inputs(&mut self, model: &Model, now: &[u64; 16])
        requires { IsModel (seen_model model.now) }
        ensures inputs { self.new.inputs ≡ now.now }
        ensures state { (before after : Inputs) → StandFor self.old.inputs before → StandFor now.now after
            → length before ≡ length after → running_of self.new
            ≡ change_of count_log (machine_of (seen_model model.now)) before after (running_of self.old) }
    {
        if !same(&self.inputs, now) {
            self.machine.change(model, &self.inputs, now);
            self.counts.changes = self.counts.changes.saturating_add(1);
            self.inputs = *now;
        }
    }

    /// A clock in Run-Test/Idle.
    pub(crate) fn run(&mut self, model: &Model)
        requires { IsModel (seen_model model.now) }
        ensures inputs { self.new.inputs ≡ self.old.inputs }
        ensures state { (at : Inputs) → StandFor self.old.inputs at → running_of self.new
            ≡ happens count_log (machine_of (seen_model model.now)) Run at (running_of self.old) }
    {
        self.machine.run(model, &self.inputs);
        self.counts.runs = self.counts.runs.saturating_add(1);
    }

    /// A reset, after which these numbers stand at the inputs.
    pub(crate) fn reset(&mut self, model: &Model, now: &[u64; 16])
        requires { IsModel (seen_model model.now) }
        ensures inputs { self.new.inputs ≡ now.now }
        ensures state { (at : Inputs) → running_of self.new
            ≡ happens count_log (machine_of (seen_model model.now)) Reset at (running_of self.old) }
    {
        self.machine.reset(model);
        self.counts.resets = self.counts.resets.saturating_add(1);
        self.inputs = *now;
    }
}
