// The SVF of all bit steps of a procedure.
ghost use Rattle.std.specs.Prelude.{◌≡◌, ◌<◌, ◌≤◌, ◌+◌, ◌^◌, All, None, length, OnOk, OnErr};
ghost use Rattle.ij_io.specs.Causes.{HasCause};
ghost use Rattle.net_graph.specs.Devices.{IsDevice};
ghost use Rattle.pdl_targets.specs.Laws.{rounds_in};
ghost use Rattle.headline.specs.Retargeting.{IsRetargetable};
ghost use Rattle.headline.specs.Rounds.{StepIsPlannable};
ghost use Rattle.retargeter.specs.Scripts.{AreFew, HasScript, WritesScript, WritesScriptPart, ScriptIsRight};
ghost use Rattle.retargeter.specs.Scripts.{WritesSteps, WritesStepsPart};

use crate::retargeter::Retargeter;
use headline::planned_steps_law;
use ij_io::{Sink, StoreFault};
use merge_order::{BitSteps, next_step};
use net_graph::{Device, Net};
use net_tree::Tree;
use std::alloc::Global;
use svf_writer::put_preface;

/// Writes the bit steps that are left of a procedure. After a refusal some first bytes are written.
fn put_steps<'a, 'b, K: Sink>(
    session: &mut Retargeter<'a>,
    steps: &mut BitSteps<'b>,
    k: &mut K,
) -> Result<(), StoreFault>
    requires plannable { All (StepIsPlannable session.old.net session.old.form) steps.old.steps }
    requires few_rounds { rounds_in steps.old.steps ≤ 4096 }
    requires few_steps { session.old.applies + length steps.old.steps < 2 ^ 32 }
    ensures whole { OnOk result (WritesSteps session.old steps.old.steps (K.taken k.old) (K.taken k.new)) }
    ensures part { OnErr result
        (WritesStepsPart session.old steps.old.steps (K.taken k.old) (K.taken k.new)) }
    ensures cause { HasCause (K.faults k.old) (K.faults k.new) result StoreFault.Failed }
{
    while let Some(step) = next_step(steps)? {
        session.put_step(&step, k)?;
    }
    Ok(())
}

/// Writes the preface and the bit steps.
fn put_script<'b, K: Sink>(
    alloc: Global,
    net: &Net,
    tree: &Tree,
    device: &Device,
    steps: &mut BitSteps<'b>,
    k: &mut K,
) -> Result<(), StoreFault>
    requires network { IsRetargetable net.now tree.now }
    requires device { IsDevice device.now }
    requires plannable { All (StepIsPlannable net.now tree.now) steps.old.steps }
    requires few { AreFew steps.old.steps }
    ensures whole { OnOk result
        (WritesScript net.now tree.now device.now steps.old.steps (K.taken k.old) (K.taken k.new)) }
    ensures part { OnErr result
        (WritesScriptPart net.now tree.now device.now steps.old.steps (K.taken k.old) (K.taken k.new)) }
    ensures cause { HasCause (K.faults k.old) (K.faults k.new) result StoreFault.Failed }
{
    let mut session = Retargeter::new(alloc, net, tree, device)?;
    put_preface(device, k)?;
    put_steps(&mut session, steps, k)?;
    Ok(())
}

/// Writes the SVF of a procedure's bit steps on a network (IEEE 1687-2014, PDL level 0; Serial Vector Format,
/// revision E): five lines that bring the TAP controller to Run-Test/Idle and load the link's instruction,
/// and then what [`Retargeter::put_step`] writes of each bit step. No bit step is kept.
///
/// The text is a function of the network, its nested form, the device and the bit steps. Played clock by
/// clock from power-up, it does the bit steps, whatever the instruments do, and each round with as few scans
/// as can be (`right`).
///
/// # Errors
///
/// - `Failed`: the sink failed, and its count of faults rose.
/// - `OutOfMemory`: there was no memory for a bit step or for its plans, or the sink had none.
///
/// After a refusal the sink took some first bytes of the text, maybe none.
pub fn put_svf<'b, K: Sink>(
    alloc: Global,
    net: &Net,
    tree: &Tree,
    device: &Device,
    steps: &mut BitSteps<'b>,
    k: &mut K,
) -> Result<(), StoreFault>
    requires network { IsRetargetable net.now tree.now }
    requires device { IsDevice device.now }
    requires no_fault { steps.old.fault ≡ None }
    requires plannable { All (StepIsPlannable net.now tree.now) steps.old.steps }
    requires few { AreFew steps.old.steps }
    ensures text { HasScript net.now tree.now device.now steps.old.steps }
    ensures whole { OnOk result
        (WritesScript net.now tree.now device.now steps.old.steps (K.taken k.old) (K.taken k.new)) }
    ensures part { OnErr result
        (WritesScriptPart net.now tree.now device.now steps.old.steps (K.taken k.old) (K.taken k.new)) }
    ensures cause { HasCause (K.faults k.old) (K.faults k.new) result StoreFault.Failed }
    ensures right { ScriptIsRight net.now tree.now device.now steps.old.steps }
{
    planned_steps_law();
    put_script(alloc, net, tree, device, steps, k)
}
