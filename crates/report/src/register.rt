// The lines of registers.
ghost use Rattle.std.specs.Prelude.{◌≡◌, ◌<◌, ◌≤◌, length, OnOk, OnErr};
ghost use Rattle.ij_io.specs.Bytes.{Adds, AddsPart};
ghost use Rattle.ij_io.specs.Causes.{HasCause};
ghost use Rattle.net_graph.specs.Held.{AreHolds, IsHeld};
ghost use Rattle.net_graph.specs.Named as named;
ghost use Rattle.net_graph.specs.Nets.{IsNet};
ghost use Rattle.report.specs.Registers.{bit_digit, register_digits, register_text, registers_text};

use ij_io::{Sink, StoreFault};
use net_graph::{BitId, Holds, Net, is_select, register_count, thing_of};
use path_names::put_thing_path;

/// The digit of a bit, or an s where it selects.
fn digit_of(net: &Net, holds: &Holds, bit: BitId) -> u8
    requires { IsHeld holds.now bit }
    ensures { result ≡ bit_digit net.now holds.now bit }
{
    if is_select(net, bit) {
        b's'
    } else if holds.get(bit) {
        b'1'
    } else {
        b'0'
    }
}

/// Writes the lowest bits of a register, the highest first.
fn put_digits<K: Sink>(
    net: &Net,
    holds: &Holds,
    reg: u32,
    width: u32,
    k: &mut K,
) -> Result<(), StoreFault>
    requires wide { width ≤ named.width_of net.now reg }
    requires holds { AreHolds net.now holds.now }
    ensures whole { OnOk result
        (Adds (K.taken k.old) (K.taken k.new) (register_digits net.now holds.now reg width)) }
    ensures part { OnErr result
        (AddsPart (K.taken k.old) (K.taken k.new) (register_digits net.now holds.now reg width)) }
    ensures cause { HasCause (K.faults k.old) (K.faults k.new) result StoreFault.Failed }
{
    for j in 0..width {
        let bit = BitId {
            reg,
            pos: width - 1 - j,
        };
        k.write(&[digit_of(net, holds, bit)])?;
    }
    Ok(())
}

/// The width of a register. Takes no memory.
pub fn width_of(net: &Net, reg: u32) -> u32
    requires { reg < length net.now.regs.items }
    ensures { result ≡ named.width_of net.now reg }
{
    net.regs.get(reg as usize).width
}

/// Writes the line of a register: `register PATH VALUE`, the bits in binary digits, the left index first,
/// with an `s` for each bit that selects in a multiplexer (IEEE 1687-2014, ICL: `ScanRegister`, `ScanMux`).
/// It takes no memory itself.
///
/// # Errors
///
/// The sink's, which then took some first bytes of the line.
pub fn put_register<K: Sink>(
    net: &Net,
    holds: &Holds,
    reg: u32,
    k: &mut K,
) -> Result<(), StoreFault>
    requires well_formed { IsNet net.now }
    requires holds { AreHolds net.now holds.now }
    requires there { reg < length net.now.regs.items }
    ensures whole { OnOk result (Adds (K.taken k.old) (K.taken k.new) (register_text net.now holds.now reg)) }
    ensures part { OnErr result
        (AddsPart (K.taken k.old) (K.taken k.new) (register_text net.now holds.now reg)) }
    ensures cause { HasCause (K.faults k.old) (K.faults k.new) result StoreFault.Failed }
{
    let thing = thing_of(net, reg);
    let width = width_of(net, reg);
    k.write(b"register ")?;
    put_thing_path(net, thing, k)?;
    k.write(b" ")?;
    put_digits(net, holds, reg, width, k)?;
    k.write(b"\n")?;
    Ok(())
}

/// Writes the line of each register, in the network's order. It takes no memory itself.
///
/// # Errors
///
/// The sink's, which then took some first bytes of the lines.
pub fn put_registers<K: Sink>(net: &Net, holds: &Holds, k: &mut K) -> Result<(), StoreFault>
    requires well_formed { IsNet net.now }
    requires holds { AreHolds net.now holds.now }
    ensures whole { OnOk result (Adds (K.taken k.old) (K.taken k.new) (registers_text net.now holds.now)) }
    ensures part { OnErr result
        (AddsPart (K.taken k.old) (K.taken k.new) (registers_text net.now holds.now)) }
    ensures cause { HasCause (K.faults k.old) (K.faults k.new) result StoreFault.Failed }
{
    let count = register_count(net);
    for reg in 0..count {
        put_register(net, holds, reg, k)?;
    }
    Ok(())
}
