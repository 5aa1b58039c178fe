// The instruction that selects the network, without memory.
ghost use Rattle.std.specs.Prelude.{◌^◌, ◌<◌, ◌≤◌, OnOk, OnErr};
ghost use Rattle.ij_bits.specs.BitLists.{bits_of};
ghost use Rattle.ij_io.specs.Bytes.{Adds, AddsPart};
ghost use Rattle.ij_io.specs.Causes.{HasCause};
ghost use Rattle.svf_writer.specs.Written.{hex_text};

use ij_bits::hex_digit_at;
use ij_io::{Sink, StoreFault};

/// Writes a number of this many bits as a hex text, with leading zeros.
pub(crate) fn put_opcode<K: Sink>(width: u32, n: u64, k: &mut K) -> Result<(), StoreFault>
    requires short { width ≤ 64 }
    requires fits { n < 2 ^ width }
    ensures whole { OnOk result (Adds (K.taken k.old) (K.taken k.new) (hex_text (bits_of width n))) }
    ensures part { OnErr result (AddsPart (K.taken k.old) (K.taken k.new) (hex_text (bits_of width n))) }
    ensures cause { HasCause (K.faults k.old) (K.faults k.new) result StoreFault.Failed }
{
    let digits = width.div_ceil(4);
    for j in 0..digits {
        k.write(&[hex_digit_at(n, digits - 1 - j)])?;
    }
    Ok(())
}
