// Why a text isn't read.
ghost use Rattle.std.specs.Prelude.{◌≡◌};
ghost use Rattle.svf_reader.specs.declared.fault.SvfFault.TheVariants as svf;
ghost use Rattle.svf_reader.specs.declared.fault.SvfCause.TheVariants as cause;

use ij_bits::OutOfMemory;
use ij_text::{Name, Place};

/// Why an SVF text is refused: the cause of the first command at fault, and the place of that command's first
/// byte.
#[derive(Drop)]
pub enum SvfFault {
    /// The command doesn't fit the grammar.
    SvfSyntax { at: Place },
    /// The command is one of SVF that isn't read here. `word` is its first word, as it is.
    LeftOut { at: Place, word: Name },
    /// A part of a scan has a 1 above the scan's length.
    HexWide { at: Place },
    /// The scan has no TDI, and the last scan of its kind had another length, or there was none.
    TdiMissing { at: Place },
    /// The scan has more than 65,536 bits, or there are more than 1,000,000,000 clocks up to this command.
    SvfLimit { at: Place },
    /// There was no memory for the commands.
    OutOfMemory,
}

/// The cause alone.
#[derive(Drop)]
pub(crate) enum SvfCause {
    LeftOut(Name),
    SvfSyntax,
    SvfLimit,
    HexWide,
    TdiMissing,
    OutOfMemory,
}

impl From<OutOfMemory> for SvfFault {
    ghost from_gives = { λ _ e. e ≡ svf.OutOfMemory };

    fn from(_: OutOfMemory) -> Self {
        SvfFault::OutOfMemory
    }
}

impl From<OutOfMemory> for SvfCause {
    ghost from_gives = { λ _ e. e ≡ cause.OutOfMemory };

    fn from(_: OutOfMemory) -> Self {
        SvfCause::OutOfMemory
    }
}
