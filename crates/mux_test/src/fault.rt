// Why there is no mux test. A want of memory below becomes the variant for it.
ghost use Rattle.std.specs.Prelude.{◌≡◌};
ghost use Rattle.mux_test.specs.declared.fault.MuxFault.TheVariants as fault;

use ij_bits::OutOfMemory;
use std::alloc::{AllocError, AllocFailed};
use thiserror::Error;

/// Why a network has no mux test.
#[derive(Clone, Copy, Debug, PartialEq, Eq, Error)]
pub enum MuxFault {
    /// The test has more scans than this compiler takes.
    #[error("more than {number} scans")]
    Limit {
        /// The most that a test may have.
        number: u32,
    },
    /// There was no memory for the test.
    #[error("out of memory")]
    OutOfMemory,
}

impl From<OutOfMemory> for MuxFault {
    ghost from_gives = { λ _ e. e ≡ fault.OutOfMemory };

    fn from(_: OutOfMemory) -> Self {
        MuxFault::OutOfMemory
    }
}

impl From<AllocError> for MuxFault {
    ghost from_gives = { λ _ e. e ≡ fault.OutOfMemory };

    fn from(_: AllocError) -> Self {
        MuxFault::OutOfMemory
    }
}

impl<T: Drop> From<AllocFailed<T>> for MuxFault {
    ghost from_gives = { λ _ e. e ≡ fault.OutOfMemory };

    fn from(_: AllocFailed<T>) -> Self {
        MuxFault::OutOfMemory
    }
}
