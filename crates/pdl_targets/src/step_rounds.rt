// How many rounds a bit step has.
ghost use Rattle.std.specs.Prelude.{◌≡◌, [], ◌∷◌};
ghost use Rattle.net_graph.specs.SeenSteps.{seen_step};
ghost use Rattle.pdl_targets.specs.Laws.{rounds_in};

use net_graph::BitStep;

/// The number of rounds that a bit step has.
pub fn rounds_of(step: &BitStep) -> usize
    ensures { result ≡ rounds_in (seen_step step.now ∷ []) }
{
    match step {
        BitStep::Apply(rounds) => rounds.len(),
        BitStep::Run(_) => 0,
        BitStep::Reset => 0,
    }
}
