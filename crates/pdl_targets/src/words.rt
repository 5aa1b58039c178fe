// Single bits of a word of 64 rounds.
ghost use Rattle.std.specs.Prelude.{◌≡◌, ◌<◌, ◌==◌, ◌&&◌, ◌||◌, ℕ, not};
ghost use Rattle.std.specs.Int.{bit_at};
ghost use Rattle.std.specs.Option.{IfNone, IfSome};

/// The lowest bit of a word that is 0, or none.
pub fn first_open(word: u64) -> Option<u32>
    ensures none { IfNone result ((j : ℕ) → j < 64 → bit_at word j ≡ 1) }
    ensures some { IfSome result (λ k. (k < 64) × (bit_at word k ≡ 0)
        × ((j : ℕ) → j < k → bit_at word j ≡ 1)) }
{
    if word == u64::MAX {
        None
    } else {
        Some(word.trailing_ones())
    }
}

/// The bits of two words.
pub fn bits_of_either(word: u64, other: u64) -> u64
    ensures { (j : ℕ) → (bit_at result j == 1) ≡ (bit_at word j == 1 || bit_at other j == 1) }
{
    word | other
}

/// The bits of a word without those of another one.
pub(crate) fn without(word: u64, other: u64) -> u64
    ensures { (j : ℕ) → j < 64 → (bit_at result j == 1) ≡ (bit_at word j == 1 && not (bit_at other j == 1)) }
{
    word & !other
}

/// One bit more.
pub(crate) fn with_bit(word: u64, bit: u32) -> u64
    requires { bit < 64 }
    ensures { (j : ℕ) → (bit_at result j == 1) ≡ (j == bit || bit_at word j == 1) }
{
    word | 1 << bit
}
