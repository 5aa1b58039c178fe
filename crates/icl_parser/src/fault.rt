// Why a text isn't read.
ghost use Rattle.std.specs.Prelude.{◌≡◌};
ghost use Rattle.icl_parser.specs.declared.fault.ParseFault.TheVariants as fault;

use ij_bits::OutOfMemory;
use ij_text::{Name, Place};

/// Why a text is refused. All but the want of memory speak of the first token after which no continuation is
/// in the grammar of ICL (IEEE 1687-2014, as far as it is read here). Where the text ends too early, this is
/// its end, the place after its last byte.
#[derive(Drop)]
pub enum ParseFault {
    /// There is no memory.
    OutOfMemory,
    /// The token is a word of ICL that this compiler leaves out.
    LeftOut { at: Place, word: Name },
    /// The token is the 65th opening parenthesis inside one another, or the 257th operator of one expression.
    ExprLimit { at: Place },
    /// The token is any other one.
    Syntax { at: Place },
}

impl From<OutOfMemory> for ParseFault {
    ghost from_gives = { λ _ e. e ≡ fault.OutOfMemory };

    fn from(_e: OutOfMemory) -> ParseFault {
        ParseFault::OutOfMemory
    }
}
