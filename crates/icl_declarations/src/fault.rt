// Why a design isn't elaborated.
ghost use Rattle.std.specs.Prelude.{◌≡◌};
ghost use Rattle.icl_declarations.specs.declared.fault.ElabFault.TheVariants as fault;

use ij_bits::OutOfMemory;
use ij_text::{Name, Place, Which};
use std::alloc::{AllocError, AllocFailed};

/// Why a design of ICL (IEEE 1687-2014) isn't elaborated: the first fault that is met. A fault of a parameter
/// or of an operator is at that token; every other one is at the innermost signal, range, binding or
/// item that holds it.
#[derive(Drop)]
pub enum ElabFault {
    /// There is no memory.
    OutOfMemory,
    /// No module has this name.
    NoModule { name: Name },
    /// The name isn't declared where it is looked up.
    NoName { at: Place, name: Name },
    /// The second use of a name where names differ, or an input port that is bound twice at one bit.
    DoubleName { at: Place, name: Name },
    /// No parameter has this name.
    NoParameter { at: Place, name: Name },
    /// The divisor is 0.
    DivideByZero { at: Place },
    /// The digits of a number don't suit its base or its size, or an integer has an x or isn't below 2^32.
    BadNumber { at: Place },
    /// An index outside its range, or a slice that runs the other way.
    BadRange { at: Place },
    /// What is given is wider or narrower than what is wanted.
    WidthDiffers { at: Place },
    /// What is named or given is of a kind that can't stand here.
    WrongKind { at: Place },
    /// Two rows of a multiplexer match one value.
    RowsOverlap { at: Place },
    /// A module is inside itself.
    InstanceLoop { at: Place },
    /// More than this compiler takes.
    Limit { which: Which, number: u64 },
}

impl From<OutOfMemory> for ElabFault {
    ghost from_gives = { λ _ e. e ≡ fault.OutOfMemory };

    fn from(_e: OutOfMemory) -> ElabFault {
        ElabFault::OutOfMemory
    }
}

impl From<AllocError> for ElabFault {
    ghost from_gives = { λ _ e. e ≡ fault.OutOfMemory };

    fn from(_e: AllocError) -> ElabFault {
        ElabFault::OutOfMemory
    }
}

impl<T: Drop> From<AllocFailed<T>> for ElabFault {
    ghost from_gives = { λ _ e. e ≡ fault.OutOfMemory };

    fn from(_e: AllocFailed<T>) -> ElabFault {
        ElabFault::OutOfMemory
    }
}
