// How many rounds bit steps have.
ghost use Rattle.std.specs.Prelude.{◌≡◌, ◌≤◌, map};
ghost use Rattle.net_graph.specs.SeenSteps.{seen_step};
ghost use Rattle.pdl_targets.specs.Laws.{rounds_in};

use net_graph::BitStep;
use pdl_targets::rounds_of;

/// The number of rounds of all bit steps.
pub(crate) fn round_count(steps: &[BitStep]) -> usize
    requires { rounds_in (map seen_step steps.now) ≤ 4096 }
    ensures { result ≡ rounds_in (map seen_step steps.now) }
{
    let mut rounds = 0;
    for i in 0..steps.len() {
        rounds += rounds_of(&steps[i]);
    }
    rounds
}
