// The next bit step where a procedure ends in no fault.
ghost use Rattle.std.specs.Prelude.{◌≡◌, None, MatchOption, IfOk};
ghost use Rattle.net_graph.specs.SeenSteps.{seen_step};
ghost use Rattle.merge_order.specs.BitSteps.{nothing_left, given_first_bit};

use crate::steps::BitSteps;
use ij_bits::OutOfMemory;
use net_graph::BitStep;

/// The next bit step of a procedure that ends in no fault: all that it refuses by is want of memory.
///
/// # Errors
///
/// [`OutOfMemory`] where [`BitSteps::next`] refuses.
pub fn next_step(steps: &mut BitSteps<'_>) -> Result<Option<BitStep>, OutOfMemory>
    ensures given { IfOk result (λ o. MatchOption o (steps.old ≡ nothing_left)
        (λ s. steps.old ≡ given_first_bit (seen_step s) steps.new)) }
    ensures end { IfOk result (λ o. o ≡ None → steps.new ≡ nothing_left) }
{
    match steps.next() {
        Ok(step) => Ok(step),
        Err(_) => Err(OutOfMemory),
    }
}
