// Refusals.
ghost use Rattle.std.specs.Prelude.{◌≡◌};
ghost use Rattle.table_file.specs.declared.fault.TableFault.TheVariants as table;

use ij_bits::OutOfMemory;
use ij_text::Place;
use std::alloc::{AllocError, AllocFailed};

/// Why a text isn't a table file. The place is the first byte of a line's first word, or the one after the
/// last byte where a line is missing.
#[derive(Clone, Copy, PartialEq, Eq, Debug)]
pub enum TableFault {
    /// The line isn't what may stand at its place of the file.
    TableSyntax { at: Place },
    /// A name that isn't there, is twice, or is of another kind than its place wants; or a word or the
    /// memory is set twice in a row.
    TableName { at: Place },
    /// A number or slice that doesn't fit, or a name of another width than what is set.
    TableWidth { at: Place },
    /// A width or depth that is too small or too great, or more lines of a kind than there may be.
    TableLimit { at: Place },
    /// A second block for an instrument.
    TableTwice { at: Place },
    /// There was no memory.
    OutOfMemory,
}

impl From<OutOfMemory> for TableFault {
    ghost from_gives = { λ _ e. e ≡ table.OutOfMemory };

    fn from(_: OutOfMemory) -> Self {
        TableFault::OutOfMemory
    }
}

impl From<AllocError> for TableFault {
    ghost from_gives = { λ _ e. e ≡ table.OutOfMemory };

    fn from(_: AllocError) -> Self {
        TableFault::OutOfMemory
    }
}

impl<T: Drop> From<AllocFailed<T>> for TableFault {
    ghost from_gives = { λ _ e. e ≡ table.OutOfMemory };

    fn from(_: AllocFailed<T>) -> Self {
        TableFault::OutOfMemory
    }
}
