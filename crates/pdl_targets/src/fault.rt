// Why a step has no bit step.
ghost use Rattle.std.specs.Prelude.{◌≡◌};
ghost use Rattle.pdl_targets.specs.declared.fault.TargetFault.TheVariants as fault;

use ij_bits::OutOfMemory;
use ij_text::{Place, Which};
use net_graph::BitId;
use std::alloc::{AllocError, AllocFailed};

/// Why a step can't be bound to register bits (IEEE 1687-2014, PDL level 0). Each place is that of the step's
/// command.
#[derive(Clone, Copy, Drop)]
pub enum TargetFault {
    /// There is no memory.
    OutOfMemory,
    /// There is no register, data port or alias of this name, an index lies outside it, or its indices run
    /// the other way.
    NoTarget {
        at: Place,
    },
    /// The target's enumeration has no such word.
    NoValue {
        at: Place,
    },
    /// A 1 or an x of the value is at the target's width or above.
    ValueWide {
        at: Place,
    },
    /// A bit is neither a register bit nor a data input that a register bit drives.
    NotWritable {
        at: Place,
    },
    /// A bit is captured by no register bit, or captures nothing.
    NotReadable {
        at: Place,
    },
    /// A bit selects a row of a scan mux, or captures a bit that does.
    SelectTarget {
        at: Place,
        bit: BitId,
    },
    /// The number of clocks isn't a decimal.
    BadCount {
        at: Place,
    },
    /// A number is above a limit of this compiler.
    Limit {
        at: Place,
        which: Which,
        number: u64,
    },
    /// No `iApply` follows an `iWrite` or an `iRead`; the place is that of the first such one.
    Unapplied {
        at: Place,
    },
}

impl From<OutOfMemory> for TargetFault {
    ghost from_gives = { λ _ e. e ≡ fault.OutOfMemory };

    fn from(_e: OutOfMemory) -> TargetFault {
        TargetFault::OutOfMemory
    }
}

impl From<AllocError> for TargetFault {
    ghost from_gives = { λ _ e. e ≡ fault.OutOfMemory };

    fn from(_e: AllocError) -> TargetFault {
        TargetFault::OutOfMemory
    }
}

impl<T: Drop> From<AllocFailed<T>> for TargetFault {
    ghost from_gives = { λ _ e. e ≡ fault.OutOfMemory };

    fn from(_e: AllocFailed<T>) -> TargetFault {
        TargetFault::OutOfMemory
    }
}
