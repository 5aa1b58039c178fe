// The direct meaning of a whole procedure, printed.
ghost use Rattle.std.specs.Prelude.{◌≡◌, ◌<◌, ◌≤◌, ◌+◌, ◌*◌, ◌^◌, All, None, length, map, IfOk, OnOk, OnErr};
ghost use Rattle.direct_report.specs.Report.{direct_differs, direct_report};
ghost use Rattle.direct_report.specs.Whole.{PrintsSteps, PrintsStepsPart, KeepsSteps};
ghost use Rattle.ij_io.specs.Bytes.{Adds, AddsPart};
ghost use Rattle.ij_io.specs.Causes.{HasCause};
ghost use Rattle.instruments.specs.Seen.{seen_model};
ghost use Rattle.net_graph.specs.Nets.{IsNet};
ghost use Rattle.net_graph.specs.Steps.{IsStep};
ghost use Rattle.pdl_targets.specs.Laws.{rounds_in};
ghost use Rattle.instruments.specs.Runners.{AreModels};

use crate::play::DirectPlay;
use ij_bits::List;
use ij_io::{Sink, StoreFault};
use instruments::Model;
use merge_order::{BitSteps, next_step};
use net_graph::Net;
use std::alloc::Global;

/// Does the bit steps that are left of a procedure, and writes the reads that differ. After a refusal some
/// first bytes are written.
fn put_steps<'a, 'b, K: Sink>(
    play: &mut DirectPlay<'a>,
    steps: &mut BitSteps<'b>,
    k: &mut K,
) -> Result<(), StoreFault>
    requires steps { All (IsStep play.old.net) steps.old.steps }
    requires few { play.old.reads + 4096 * rounds_in steps.old.steps < 2 ^ 64 }
    ensures net { play.new.net ≡ play.old.net }
    ensures models { play.new.models ≡ play.old.models }
    ensures whole { OnOk result (PrintsSteps play.old steps.old.steps (K.taken k.old) (K.taken k.new)) }
    ensures state { OnOk result (KeepsSteps play.old steps.old.steps play.new) }
    ensures part { OnErr result (PrintsStepsPart play.old steps.old.steps (K.taken k.old) (K.taken k.new)) }
    ensures cause { HasCause (K.faults k.old) (K.faults k.new) result StoreFault.Failed }
{
    while let Some(step) = next_step(steps)? {
        play.step(&step, k)?;
    }
    Ok(())
}

/// Runs the bit steps of a procedure from power-up by their direct meaning (IEEE 1687-2014, PDL level 0), and
/// writes the report: a line for each read that differs, then what the registers and the instruments hold,
/// then the totals. Answers how many reads differ. `models` has a model for each instrument, in the network's
/// order. No bit step is kept.
///
/// # Errors
///
/// - `Failed`: the sink failed, and its count of faults rose.
/// - `OutOfMemory`: there was no memory, or the sink had none.
///
/// After a refusal the sink took some first bytes of the report, maybe none.
pub fn put_direct<'b, K: Sink>(
    alloc: Global,
    net: &Net,
    models: &List<Model>,
    steps: &mut BitSteps<'b>,
    k: &mut K,
) -> Result<u64, StoreFault>
    requires well_formed { IsNet net.now }
    requires models { AreModels net.now models.now.items }
    requires no_fault { steps.old.fault ≡ None }
    requires steps { All (IsStep net.now) steps.old.steps }
    requires few { rounds_in steps.old.steps ≤ 4096 }
    ensures whole { OnOk result (Adds (K.taken k.old) (K.taken k.new)
        (direct_report net.now (map seen_model models.now.items) steps.old.steps)) }
    ensures differs { IfOk result
        (λ n. n ≡ length (direct_differs net.now (map seen_model models.now.items) steps.old.steps)) }
    ensures part { OnErr result (AddsPart (K.taken k.old) (K.taken k.new)
        (direct_report net.now (map seen_model models.now.items) steps.old.steps)) }
    ensures cause { HasCause (K.faults k.old) (K.faults k.new) result StoreFault.Failed }
{
    let mut play = DirectPlay::new(alloc, net, models)?;
    put_steps(&mut play, steps, k)?;
    let differs = play.finish(k)?;
    Ok(differs)
}
