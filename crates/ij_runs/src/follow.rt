// Values that follow one another.
ghost use Rattle.std.specs.Prelude.{◌≡◌, ◌≤◌, ◌+◌, ℕ, IsTrue};

/// A value that others follow, one after another, as the bits of a register do. Copies are made at will.
pub trait Follow: Copy {
    /// The value this many after it.
    ghost after: { ℕ → Self → Self };

    /// How many can follow it.
    ghost room: { Self → ℕ };

    /// None after it is itself.
    ghost stays: { (x : Self) → after 0 x ≡ x };

    /// Those after one that is after it are after it, too.
    ghost composes: { (a b : ℕ) (x : Self) → after a (after b x) ≡ after (b + a) x };

    /// The value this many after it. Takes no memory.
    fn after(self, n: u32) -> Self
        requires { n ≤ room self }
        ensures { result ≡ after n self };

    /// Whether this many can follow it. Takes no memory.
    fn reaches(self, n: u32) -> bool
        ensures { IsTrue result → n ≤ room self };

    /// Whether this value is the one this many after it. Takes no memory.
    fn is_after(self, n: u32, value: Self) -> bool
        ensures { IsTrue result → value ≡ after n self };
}
