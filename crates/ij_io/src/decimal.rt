// Decimal numbers, without memory.
ghost use Rattle.std.specs.Prelude.{decimal, OnOk, OnErr};
ghost use Rattle.ij_io.specs.Bytes.{Adds, AddsPart};
ghost use Rattle.ij_io.specs.Causes.{HasCause};

use crate::{Sink, StoreFault};

/// Writes the decimal digits of a number, the highest first, with no leading zero (0 is `0`). It takes no
/// memory.
///
/// # Errors
///
/// The sink's, which then took some first digits.
pub fn put_decimal<K: Sink>(n: u64, k: &mut K) -> Result<(), StoreFault>
    ensures whole { OnOk result (Adds (K.taken k.old) (K.taken k.new) (decimal n)) }
    ensures part { OnErr result (AddsPart (K.taken k.old) (K.taken k.new) (decimal n)) }
    ensures cause { HasCause (K.faults k.old) (K.faults k.new) result StoreFault.Failed }
{
    if 10 <= n {
        put_decimal(n / 10, k)?;
    }
    k.write(&[b'0' + (n % 10) as u8])?;
    Ok(())
}
