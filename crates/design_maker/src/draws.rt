// Numbers of a generator.
ghost use Rattle.std.specs.Prelude.{◌≡◌, ◌<◌, ◌≤◌};
ghost use Rattle.design_maker.specs.Draws.{draw, generator_of};

use rand_core::SeedableRng;
use rand_core::utils::NextWord;
use rand_pcg::Lcg64Xsh32;

/// The generator of a seed.
#[tactic(auto, unfolding(crate::specs::Draws::generator_of))]
pub(crate) fn generator(seed: u64) -> Lcg64Xsh32
    ensures { result ≡ generator_of seed }
{
    Lcg64Xsh32::seed_from_u64(seed)
}

/// The next word of a generator modulo `m`, which is 1 or more.
#[tactic(auto, unfolding(crate::specs::Draws::draw))]
pub(crate) fn draw(g: &mut Lcg64Xsh32, m: u64) -> u64
    requires { 1 ≤ m }
    ensures drawn { (result, g.new) ≡ draw m g.old }
    ensures below { result < m }
{
    u64::from(g.next_word()) % m
}
