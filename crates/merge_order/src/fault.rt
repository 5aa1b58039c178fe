// Why a step isn't taken in.
ghost use Rattle.std.specs.Prelude.{◌≡◌};
ghost use Rattle.merge_order.specs.SeenFaults.{of_target};
ghost use Rattle.merge_order.specs.declared.fault.FeedFault.TheVariants as fault;

use ij_bits::OutOfMemory;
use ij_text::Place;
use pdl_targets::TargetFault;
use std::alloc::AllocError;

/// Why a step isn't taken in (IEEE 1687-2014, PDL level 0). Each place is that of the step's command.
#[derive(Clone, Copy, Drop)]
pub enum FeedFault {
    /// There is no memory. No other variant stands for it: [`TargetFault::OutOfMemory`] is never handed on.
    OutOfMemory,
    /// An `iMerge -begin` is within an iMerge.
    MergeInside { at: Place },
    /// An iReset is within an iMerge.
    MergeReset { at: Place },
    /// The step can't be bound to register bits, or an `iApply` is missing before a branch or at its end.
    Target(TargetFault),
}

impl From<OutOfMemory> for FeedFault {
    ghost from_gives = { λ _ e. e ≡ fault.OutOfMemory };

    fn from(_e: OutOfMemory) -> FeedFault {
        FeedFault::OutOfMemory
    }
}

impl From<AllocError> for FeedFault {
    ghost from_gives = { λ _ e. e ≡ fault.OutOfMemory };

    fn from(_e: AllocError) -> FeedFault {
        FeedFault::OutOfMemory
    }
}

impl From<TargetFault> for FeedFault {
    ghost from_gives = { λ fault e. e ≡ of_target fault };

    fn from(fault: TargetFault) -> FeedFault {
        match fault {
            TargetFault::OutOfMemory => FeedFault::OutOfMemory,
            other => FeedFault::Target(other),
        }
    }
}
