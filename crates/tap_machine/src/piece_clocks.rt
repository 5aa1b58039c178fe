// Clocks of a play, some at once and one by one.
ghost use Rattle.std.specs.Prelude.{◌≡◌, ◌+◌, ◌^◌, ◌<◌, ◌≤◌, cond, false, [], ◌∷◌, drop, None, Some};
ghost use Rattle.tap_machine.specs.Pieces.{piece_pins};

use crate::{Piece, Pins};
use ij_bits::bit_of_number;

/// TMS of a clock: that of the last one, and 0 before it.
fn tms_of(last: bool, tms: bool) -> bool
    ensures { result ≡ cond last tms false }
{
    last && tms
}

/// What is expected at TDO, where it is compared.
fn expect_of(compared: bool, expected: bool) -> Option<bool>
    ensures { result ≡ cond compared (Some expected) None }
{
    if compared { Some(expected) } else { None }
}

impl Piece {
    /// One clock.
    pub(crate) fn one(pins: &Pins) -> Piece
        ensures pins { piece_pins result ≡ pins.now ∷ [] }
        ensures count { result.count ≡ 1 }
        ensures bit { result.bit ≡ pins.now.bit }
    {
        let (compared, expected) = match pins.expect {
            Some(bit) => (1, u64::from(bit)),
            None => (0, 0),
        };
        Piece {
            count: 1,
            tms: pins.tms,
            tdi: u64::from(pins.tdi),
            compared,
            expected,
            scan: pins.scan,
            bit: pins.bit,
        }
    }

    /// The pins at one of the clocks, the first one being 0. It takes no memory.
    pub fn at(&self, i: u32) -> Pins
        requires there { i < self.now.count }
        requires few { self.now.count ≤ 64 }
        requires short { self.now.bit + self.now.count < 2 ^ 32 }
        ensures { drop i (piece_pins self.now) ≡ result ∷ drop (i + 1) (piece_pins self.now) }
    {
        let compared = bit_of_number(self.compared, i);
        let expected = bit_of_number(self.expected, i);
        Pins {
            tms: tms_of(i + 1 == self.count, self.tms),
            tdi: bit_of_number(self.tdi, i),
            expect: expect_of(compared, expected),
            scan: self.scan,
            bit: self.bit + i,
        }
    }
}
