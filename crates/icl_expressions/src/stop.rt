// Why reading stopped.
ghost use Rattle.std.specs.Prelude.{◌≡◌};
ghost use Rattle.icl_expressions.specs.declared.stop.ReadStop.TheVariants as stop;

use icl_lexer::Limit;
use ij_bits::OutOfMemory;
use std::alloc::{AllocError, AllocFailed};

/// Why reading stopped.
#[derive(Debug, Drop)]
pub enum ReadStop {
    /// There is no memory.
    Memory,
    /// This many tokens are left from the first one that doesn't fit, which a limit may bar.
    At(usize, Option<Limit>),
}

impl From<OutOfMemory> for ReadStop {
    ghost from_gives = { λ _ e. e ≡ stop.Memory };

    fn from(_e: OutOfMemory) -> ReadStop {
        ReadStop::Memory
    }
}

impl From<AllocError> for ReadStop {
    ghost from_gives = { λ _ e. e ≡ stop.Memory };

    fn from(_e: AllocError) -> ReadStop {
        ReadStop::Memory
    }
}

impl<T: Drop> From<AllocFailed<T>> for ReadStop {
    ghost from_gives = { λ _ e. e ≡ stop.Memory };

    fn from(_e: AllocFailed<T>) -> ReadStop {
        ReadStop::Memory
    }
}
