// Why planning ends early.

use ij_bits::OutOfMemory;
use ij_io::StoreFault;
use std::alloc::{AllocError, AllocFailed};

/// Why planning ends early.
#[derive(Clone, Copy, Debug, PartialEq, Eq)]
pub(crate) enum PlanStop {
    /// The planner finds no plan for such a network or procedure.
    NoPlan,
    /// There was no memory.
    NoMemory,
}

impl From<OutOfMemory> for PlanStop {
    fn from(_: OutOfMemory) -> Self {
        PlanStop::NoMemory
    }
}

impl From<AllocError> for PlanStop {
    fn from(_: AllocError) -> Self {
        PlanStop::NoMemory
    }
}

impl<T: Drop> From<AllocFailed<T>> for PlanStop {
    fn from(_: AllocFailed<T>) -> Self {
        PlanStop::NoMemory
    }
}

/// The text is written to a sink in memory, which never fails.
impl From<StoreFault> for PlanStop {
    fn from(_: StoreFault) -> Self {
        PlanStop::NoMemory
    }
}
