// Bits of which some are open: reset values and select values.
ghost use Rattle.std.specs.Prelude.{◌≡◌, ◌<◌, ◌≤◌, ◌++◌, length, codes, OnOk, OnErr};
ghost use Rattle.ij_io.specs.Bytes.{Adds, AddsPart};
ghost use Rattle.ij_io.specs.Causes.{HasCause};
ghost use Rattle.net_list.specs.Forms as forms;

use ij_bits::Tern;
use ij_io::{Sink, StoreFault};

/// The digit of a bit, an x where it is open.
fn digit_of(value: &Tern, pos: u32) -> u8
    requires { pos < length value.now.value.items }
    ensures { result ≡ forms.tern_digit value.now pos }
{
    if !value.care.get(pos) {
        b'x'
    } else if value.value.get(pos) {
        b'1'
    } else {
        b'0'
    }
}

/// Writes the lowest bits of a value, the highest first.
pub(crate) fn put_digits<K: Sink>(value: &Tern, width: u32, k: &mut K) -> Result<(), StoreFault>
    requires { width ≤ length value.now.value.items }
    ensures whole { OnOk result (Adds (K.taken k.old) (K.taken k.new) (forms.tern_digits value.now width)) }
    ensures part { OnErr result
        (AddsPart (K.taken k.old) (K.taken k.new) (forms.tern_digits value.now width)) }
    ensures cause { HasCause (K.faults k.old) (K.faults k.new) result StoreFault.Failed }
{
    for j in 0..width {
        k.write(&[digit_of(value, width - 1 - j)])?;
    }
    Ok(())
}

/// Writes a value after something before it.
fn put_value<K: Sink>(before: &[u8], value: &Tern, k: &mut K) -> Result<(), StoreFault>
    ensures whole { OnOk result
        (Adds (K.taken k.old) (K.taken k.new) (before.now ++ forms.tern_text value.now)) }
    ensures part { OnErr result
        (AddsPart (K.taken k.old) (K.taken k.new) (before.now ++ forms.tern_text value.now)) }
    ensures cause { HasCause (K.faults k.old) (K.faults k.new) result StoreFault.Failed }
{
    let width = value.len();
    k.write(before)?;
    put_digits(value, width, k)?;
    Ok(())
}

/// Writes the select values of a row, with bars between. The refusals are those of the sink, which then took
/// some first bytes.
pub fn put_values<K: Sink>(values: &[Tern], k: &mut K) -> Result<(), StoreFault>
    ensures whole { OnOk result (Adds (K.taken k.old) (K.taken k.new) (forms.values_text values.now)) }
    ensures part { OnErr result (AddsPart (K.taken k.old) (K.taken k.new) (forms.values_text values.now)) }
    ensures cause { HasCause (K.faults k.old) (K.faults k.new) result StoreFault.Failed }
{
    let mut before: &[u8] = b"";
    for value in values {
        put_value(before, value, k)?;
        before = b"|";
    }
    Ok(())
}
