// Identifier codes.
ghost use Rattle.std.specs.Prelude.{◌≡◌, ◌++◌, OnOk};
ghost use Rattle.net_wave.specs.Codes.{code};

use crate::texts::add;
use ij_bits::OutOfMemory;
use ij_io::SureSink;

/// Adds the identifier code of a variable, by its number (IEEE 1364-2005, 18.2.3).
pub(crate) fn add_code(number: u64, piece: &mut SureSink) -> Result<(), OutOfMemory>
    ensures { OnOk result (piece.new ≡ piece.old ++ code number) }
{
    let mut left = number;
    for _k in 0..10u32 {
        add(&[33 + (left % 94) as u8], piece)?;
        left /= 94;
        if left == 0 {
            return Ok(());
        }
        left -= 1;
    }
    Ok(())
}
