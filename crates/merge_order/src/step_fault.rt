// Why a procedure has no further bit step.
ghost use Rattle.std.specs.Prelude.{◌≡◌};
ghost use Rattle.merge_order.specs.Seen.{of_expand, of_feed};
ghost use Rattle.merge_order.specs.SeenFaults.{of_target};

use crate::fault::FeedFault;
use pdl_expand::ExpandFault;
use pdl_targets::TargetFault;

/// Why a procedure has no further bit step (IEEE 1687-2014, PDL level 0).
#[derive(Drop)]
pub enum StepFault {
    /// There is no memory. No other variant stands for it: [`ExpandFault::OutOfMemory`] and
    /// [`FeedFault::OutOfMemory`] are never handed on.
    OutOfMemory,
    /// The procedure can't go on.
    Expand(ExpandFault),
    /// A step can't be bound to register bits, can't stand in an iMerge, or an `iApply` is missing.
    Feed(FeedFault),
}

impl From<ExpandFault> for StepFault {
    ghost from_gives = { λ fault e. e ≡ of_expand fault };

    fn from(fault: ExpandFault) -> StepFault {
        match fault {
            ExpandFault::OutOfMemory => StepFault::OutOfMemory,
            other => StepFault::Expand(other),
        }
    }
}

impl From<FeedFault> for StepFault {
    ghost from_gives = { λ fault e. e ≡ of_feed fault };

    fn from(fault: FeedFault) -> StepFault {
        match fault {
            FeedFault::OutOfMemory => StepFault::OutOfMemory,
            other => StepFault::Feed(other),
        }
    }
}

impl From<TargetFault> for StepFault {
    ghost from_gives = { λ fault e. e ≡ of_feed (of_target fault) };

    fn from(fault: TargetFault) -> StepFault {
        StepFault::from(FeedFault::from(fault))
    }
}
