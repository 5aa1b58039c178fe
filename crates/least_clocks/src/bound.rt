// The clocks that a procedure takes at least.
ghost use Rattle.std.specs.Prelude.{◌≡◌, ◌≤◌, length, All, None, IfOk};
ghost use Rattle.net_graph.specs.Nets.{IsNet};
ghost use Rattle.net_graph.specs.Steps.{IsStep};
ghost use Rattle.pdl_targets.specs.Laws.{rounds_in};
ghost use Rattle.least_clocks.specs.Least.{least_clocks};

use crate::count::Count;
use ij_bits::OutOfMemory;
use merge_order::{BitSteps, next_step};
use net_graph::{Device, Net};
use net_tree::Tree;
use std::alloc::Global;

/// The clocks of TCK, from power-up on, that any SVF takes at least of which an audit says yes for these bit
/// steps: see `least_law` (IEEE 1149.1-2013, TAP controller; IEEE 1687-2014, PDL level 0; Serial Vector
/// Format, revision E).
///
/// They are
///
/// - for each round that changes a bit or reads one 5 clocks, and one for each bit of the registers around
///   which no row of a multiplexer is but those around the registers of which it changes or reads a bit;
/// - before the first such round 5 clocks, and one for each bit of the path at power-up: along it goes the
///   first data scan. If all registers that the round asks for are on that path, its own scan is that one;
/// - before the first such round since power-up or a reset the 6 clocks of a scan of the instruction
///   register, and one for each of its bits;
/// - each clock of a run, 5 for a reset, and 1 out of Test-Logic-Reset where something follows.
///
/// It takes memory for the rows that a round passes. Its time is linear in the bits that are written and
/// read, and for each round in the registers of the network and the rows that it passes.
///
/// # Errors
///
/// [`OutOfMemory`] where there is no memory.
pub fn least(
    alloc: Global,
    net: &Net,
    tree: &Tree,
    device: &Device,
    steps: &mut BitSteps<'_>,
) -> Result<u64, OutOfMemory>
    requires well_formed { IsNet net.now }
    requires no_fault { steps.old.fault ≡ None }
    requires steps { All (IsStep net.now) steps.old.steps }
    requires few_steps { length steps.old.steps ≤ 100000 }
    requires few_rounds { rounds_in steps.old.steps ≤ 4096 }
    ensures { IfOk result (λ clocks. clocks ≡ least_clocks net.now tree.now device.now steps.old.steps) }
{
    let mut count = Count::new(alloc, net)?;
    while let Some(step) = next_step(steps)? {
        count.step(alloc, net, tree, device, &step)?;
    }
    Ok(count.clocks)
}
