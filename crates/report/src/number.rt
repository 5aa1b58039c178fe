// Numbers in hexadecimal digits.
ghost use Rattle.std.specs.Prelude.{◌/◌, ◌<◌, ◌≤◌, OnOk, OnErr};
ghost use Rattle.ij_io.specs.Bytes.{Adds, AddsPart};
ghost use Rattle.ij_io.specs.Causes.{HasCause};
ghost use Rattle.report.specs.Numbers.{hex_number};

use ij_bits::hex_digit_at;
use ij_io::{Sink, StoreFault};

/// Writes a number with as many hexadecimal digits as a width takes, with leading zeros.
pub(crate) fn put_hex_number<K: Sink>(width: u32, number: u64, k: &mut K) -> Result<(), StoreFault>
    requires { width ≤ 64 }
    ensures whole { OnOk result (Adds (K.taken k.old) (K.taken k.new) (hex_number width number)) }
    ensures part { OnErr result (AddsPart (K.taken k.old) (K.taken k.new) (hex_number width number)) }
    ensures cause { HasCause (K.faults k.old) (K.faults k.new) result StoreFault.Failed }
{
    let digits = (width + 3) / 4;
    for j in 0..digits {
        k.write(&[hex_digit_at(number, digits - 1 - j)])?;
    }
    Ok(())
}
