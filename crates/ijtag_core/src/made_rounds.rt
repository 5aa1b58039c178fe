// How many rounds a procedure has.
ghost use Rattle.std.specs.Prelude.{◌≡◌, ◌≤◌, true, IfOk};
ghost use Rattle.pdl_targets.specs.Laws.{rounds_in};
ghost use Rattle.ijtag_work.specs.Using.{IsUsable, seen_accepted, there};

use ij_bits::OutOfMemory;
use ijtag_work::{Accepted, steps_again};
use merge_order::{BitSteps, bit_steps_are_few, next_step};
use pdl_targets::rounds_of;
use std::alloc::Global;

/// The number of rounds of all bit steps that are left.
fn count_rounds(steps: &mut BitSteps<'_>) -> Result<u32, OutOfMemory>
    requires { rounds_in steps.old.steps ≤ 4096 }
    ensures { IfOk result (λ n. n ≡ rounds_in steps.old.steps) }
{
    let mut rounds = 0;
    while let Some(step) = next_step(steps)? {
        rounds += rounds_of(&step);
    }
    Ok(rounds as u32)
}

/// The number of rounds of all iApply commands of an accepted procedure.
pub(crate) fn round_count(alloc: Global, it: &Accepted) -> Result<u32, OutOfMemory>
    requires usable { IsUsable it.now }
    requires procedure { there it.now.procedure ≡ true }
    ensures { IfOk result (λ n. n ≡ rounds_in (seen_accepted it.now).steps) }
{
    bit_steps_are_few();
    let mut steps = steps_again(alloc, &it.network, it.procedure())?;
    count_rounds(&mut steps)
}
