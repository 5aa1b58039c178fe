// All instruments of a network.
ghost use Rattle.std.specs.Int.{bit_at};
ghost use Rattle.std.specs.Prelude.{◌≡◌, ◌==◌, ◌<◌, ◌≤◌, ◌^◌, map, length, All, ℕ, IfOk};
ghost use Rattle.ij_bits.specs.BitLists.{number_of};
ghost use Rattle.instruments.specs.Arrays.{StandFor};
ghost use Rattle.instruments.specs.Machine.{Run, Reset, count_log};
ghost use Rattle.instruments.specs.Models.{IsModel};
ghost use Rattle.instruments.specs.OnNetwork.{outputs, inputs_at, changes, all_have, fresh};
ghost use Rattle.instruments.specs.Seen.{seen_model};
ghost use Rattle.net_graph.specs.Held.{AreHolds};
ghost use Rattle.net_graph.specs.Nets.{IsNet};
ghost use Rattle.net_graph.specs.Signals.{signal, Holds as Held};
ghost use Rattle.net_graph.specs.declared.net.Net.{Net as TheNet};
ghost use Rattle.instruments.specs.Driven.{IsDriven};
ghost use Rattle.instruments.specs.Runners.{machines_of, AreModels, insts_of, shown_at, AreRunning};

use crate::Counts;
use crate::machine::{Machine, low_bits};
use crate::model::Model;
use crate::runner::{Runner, inputs_of};
use crate::runs::{is_output_run, is_register_run, register_number};
use ij_bits::{List, OutOfMemory};
use net_graph::{Holds, Net, Sig};
use std::alloc::Global;

/// One bit at an output of an instrument, 0 where there is none.
pub(crate) fn output(
    models: &List<Model>,
    runners: &[Runner],
    inst: u32,
    port: u32,
    pos: u32,
) -> bool
    requires models { All (λ m. IsModel (seen_model m)) models.now.items }
    requires count { length runners.now ≡ length models.now.items }
    ensures { result ≡ outputs (machines_of models.now.items) (insts_of runners.now) inst port pos }
{
    let i = inst as usize;
    if i < models.len() {
        let number = runners[i].machine.output(models.get(i), port);
        if pos < 64 {
            (number >> pos) & 1 == 1
        } else {
            false
        }
    } else {
        false
    }
}

/// The value of a signal.
pub fn captured(sig: Sig, holds: &Holds, models: &List<Model>, runners: &[Runner]) -> bool
    requires driven { IsDriven holds.now sig }
    requires models { All (λ m. IsModel (seen_model m)) models.now.items }
    requires count { length runners.now ≡ length models.now.items }
    ensures { result ≡ signal (outputs (machines_of models.now.items) (insts_of runners.now)) holds.now sig }
{
    match sig {
        Sig::Out {
            inst,
            port,
            pos,
            inverted,
        } => output(models, runners, inst, port, pos) != inverted,
        Sig::One => true,
        Sig::Bit { bit, inverted } => holds.get(bit) != inverted,
        Sig::Absent | Sig::Zero => false,
    }
}

/// The number of signals, bit by bit, the first one the lowest.
fn captured_by_bits(sigs: &[Sig], holds: &Holds, models: &List<Model>, runners: &[Runner]) -> u64
    requires few { length sigs.now ≤ 64 }
    requires driven { All (IsDriven holds.now) sigs.now }
    requires models { All (λ m. IsModel (seen_model m)) models.now.items }
    requires count { length runners.now ≡ length models.now.items }
    ensures value { result ≡ number_of
        (map (signal (outputs (machines_of models.now.items) (insts_of runners.now)) holds.now) sigs.now) }
    ensures small { result < 2 ^ length sigs.now }
{
    match sigs {
        [first, rest @ ..] => {
            u64::from(captured(*first, holds, models, runners))
                + 2 * captured_by_bits(rest, holds, models, runners)
        },
        [] => 0,
    }
}

/// The number of the `n` lowest bits at an output of an instrument, 0 where there is none.
fn output_bits(models: &List<Model>, runners: &[Runner], inst: u32, port: u32, n: u32) -> u64
    requires few { n ≤ 64 }
    requires models { All (λ m. IsModel (seen_model m)) models.now.items }
    requires count { length runners.now ≡ length models.now.items }
    ensures small { result < 2 ^ n }
    ensures bits { (pos : ℕ) → pos < n → (bit_at result pos == 1)
        ≡ outputs (machines_of models.now.items) (insts_of runners.now) inst port pos }
{
    let i = inst as usize;
    if i < models.len() {
        low_bits(
            u128::from(runners[i].machine.output(models.get(i), port)),
            n,
        )
    } else {
        0
    }
}

/// The number of up to 64 signals, the first one the lowest. Where they are bits of one register or of one
/// output in a row, it is read at once. Takes no memory.
pub fn captured_number(sigs: &[Sig], holds: &Holds, models: &List<Model>, runners: &[Runner]) -> u64
    requires few { length sigs.now ≤ 64 }
    requires driven { All (IsDriven holds.now) sigs.now }
    requires models { All (λ m. IsModel (seen_model m)) models.now.items }
    requires count { length runners.now ≡ length models.now.items }
    ensures { result ≡ number_of
        (map (signal (outputs (machines_of models.now.items) (insts_of runners.now)) holds.now) sigs.now) }
{
    match sigs {
        [Sig::Bit { bit, inverted: _ }, ..] if is_register_run(sigs, *bit) => register_number(
            *bit,
            sigs.len() as u32,
            holds,
        ),
        [
            Sig::Out {
                inst,
                port,
                pos: _,
                inverted: _,
            },
            ..
        ] if is_output_run(sigs, *inst, *port, 0) => {
            output_bits(models, runners, *inst, *port, sigs.len() as u32)
        },
        _ => captured_by_bits(sigs, holds, models, runners),
    }
}

/// Every instrument at power-up, with no event.
pub fn start(
    alloc: Global,
    net: &Net,
    models: &List<Model>,
    holds: &Holds,
) -> Result<Vec<Runner>, OutOfMemory>
    requires well_formed { IsNet net.now }
    requires holds { AreHolds net.now holds.now }
    requires models { AreModels net.now models.now.items }
    ensures running { IfOk result (λ runners. AreRunning net.now models.now.items holds.now runners.items) }
    ensures state { IfOk result
        (λ runners. insts_of runners.items ≡ fresh count_log (machines_of models.now.items)) }
{
    let mut runners = Vec::new(alloc);
    for i in 0..models.len() {
        runners.push(Runner {
            machine: Machine::new(models.get(i)),
            inputs: inputs_of(net.insts.get(i), holds),
            counts: Counts {
                changes: 0,
                runs: 0,
                resets: 0,
            },
        })?;
    }
    Ok(runners)
}

/// Shows every instrument the numbers at its inputs, with a change event where they differ from those before.
pub fn drive_all_inputs(net: &Net, models: &List<Model>, holds: &Holds, runners: &mut [Runner])
    requires well_formed { IsNet net.now }
    requires holds { AreHolds net.now holds.now }
    requires models { AreModels net.now models.now.items }
    requires count { length runners.old ≡ length models.now.items }
    ensures running { AreRunning net.now models.now.items holds.now runners.new }
    ensures state { (before : Held)
        → AreRunning net.now models.now.items before runners.old → insts_of runners.new
        ≡ changes count_log net.now (machines_of models.now.items) before holds.now (insts_of runners.old) }
{
    for i in 0..runners.len() {
        let now = inputs_of(net.insts.get(i), holds);
        runners[i].drive_inputs(models.get(i), &now);
    }
}

/// A clock in Run-Test/Idle, for every instrument.
pub fn run_all(models: &List<Model>, runners: &mut [Runner])
    requires models { All (λ m. IsModel (seen_model m)) models.now.items }
    requires count { length runners.old ≡ length models.now.items }
    ensures shown { map (λ r. r.inputs) runners.new ≡ map (λ r. r.inputs) runners.old }
    ensures state { (net : TheNet) (holds : Held)
        → AreRunning net models.now.items holds runners.old → insts_of runners.new
        ≡ all_have count_log net (machines_of models.now.items) Run holds (insts_of runners.old) }
{
    for i in 0..runners.len() {
        runners[i].run(models.get(i));
    }
}

/// A reset of every instrument, after which the update stages drive their inputs.
pub fn reset_all(net: &Net, models: &List<Model>, holds: &Holds, runners: &mut [Runner])
    requires well_formed { IsNet net.now }
    requires holds { AreHolds net.now holds.now }
    requires models { AreModels net.now models.now.items }
    requires count { length runners.old ≡ length models.now.items }
    ensures running { AreRunning net.now models.now.items holds.now runners.new }
    ensures state { insts_of runners.new
        ≡ all_have count_log net.now (machines_of models.now.items) Reset holds.now (insts_of runners.old) }
{
    for i in 0..runners.len() {
        let now = inputs_of(net.insts.get(i), holds);
        runners[i].reset(models.get(i), &now);
    }
}

/// Notes the numbers that are at the inputs of every instrument, without an event.
pub fn note_all_inputs(net: &Net, holds: &Holds, runners: &mut [Runner])
    requires well_formed { IsNet net.now }
    requires holds { AreHolds net.now holds.now }
    requires count { length runners.old ≡ length net.now.insts.items }
    ensures count { length runners.new ≡ length runners.old }
    ensures state { insts_of runners.new ≡ insts_of runners.old }
    ensures shown { (i : ℕ) → StandFor (shown_at runners.new i) (inputs_at net.now holds.now i) }
{
    for i in 0..runners.len() {
        runners[i].inputs = inputs_of(net.insts.get(i), holds);
    }
}
