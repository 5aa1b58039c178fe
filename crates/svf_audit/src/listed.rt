// The bit steps of a procedure in one list.
ghost use Rattle.std.specs.Prelude.{◌≡◌, None, map, IfOk};
ghost use Rattle.net_graph.specs.SeenSteps.{seen_step};

use ij_bits::{List, OutOfMemory};
use merge_order::{BitSteps, next_step};
use net_graph::BitStep;
use std::alloc::Global;

/// The bit steps that are left of a procedure that ends in no fault.
pub(crate) fn list_steps(
    alloc: Global,
    steps: &mut BitSteps<'_>,
) -> Result<List<BitStep>, OutOfMemory>
    requires { steps.old.fault ≡ None }
    ensures { IfOk result (λ list. map seen_step list.items ≡ steps.old.steps) }
{
    let mut list = List::new(alloc);
    while let Some(step) = next_step(steps)? {
        list.push(step)?;
    }
    Ok(list)
}
