// The names of registers, of their bits and of muxes.
ghost use Rattle.std.specs.Prelude.{◌≡◌, ◌<◌, ◌++◌, get_or, length, map, OnOk, OnErr};
ghost use Rattle.ij_io.specs.Bytes.{Adds, AddsPart};
ghost use Rattle.ij_io.specs.Causes.{HasCause};
ghost use Rattle.net_graph.specs.Nets.{IsNet};
ghost use Rattle.net_graph.specs.PathNames.{mux_path};
ghost use Rattle.net_list.specs.Drivers as drivers;
ghost use Rattle.net_list.specs.Lines.{quoted};

use crate::format::{ListFormat, put_text_or_json};
use ij_io::{Sink, StoreFault, put_decimal};
use net_graph::{BitId, Net, thing_of};
use path_names::{put_mux_path, put_thing_path};

/// The left index of a thing.
fn left_of(net: &Net, thing: u32) -> u32
    requires { thing < length net.now.things.items }
    ensures { result ≡ get_or (map (λ t. t.left) net.now.things.items) thing 0 }
{
    net.things.get(thing as usize).left
}

/// The right index of a thing.
fn right_of(net: &Net, thing: u32) -> u32
    requires { thing < length net.now.things.items }
    ensures { result ≡ get_or (map (λ t. t.right) net.now.things.items) thing 0 }
{
    net.things.get(thing as usize).right
}

/// The index at a position, between the left and the right index.
pub(crate) fn index_between(left: u32, right: u32, pos: u32) -> u64
    ensures { result ≡ drivers.index_between left right pos }
{
    let right_index = u64::from(right);
    if left < right {
        right_index.saturating_sub(u64::from(pos))
    } else {
        right_index + u64::from(pos)
    }
}

/// The index of a bit in its register (IEEE 1687-2014, ICL: `ScanRegister`). Takes no memory.
pub fn index_of(net: &Net, bit: BitId) -> u64
    requires well_formed { IsNet net.now }
    requires there { bit.reg < length net.now.regs.items }
    ensures { result ≡ drivers.index_of net.now bit }
{
    let thing = thing_of(net, bit.reg);
    index_between(left_of(net, thing), right_of(net, thing), bit.pos)
}

/// Writes the path of a register. The refusals are those of the sink, which then took some first bytes.
pub fn put_register_path<K: Sink>(net: &Net, reg: u32, k: &mut K) -> Result<(), StoreFault>
    requires well_formed { IsNet net.now }
    requires there { reg < length net.now.regs.items }
    ensures whole { OnOk result (Adds (K.taken k.old) (K.taken k.new) (drivers.register_path net.now reg)) }
    ensures part { OnErr result
        (AddsPart (K.taken k.old) (K.taken k.new) (drivers.register_path net.now reg)) }
    ensures cause { HasCause (K.faults k.old) (K.faults k.new) result StoreFault.Failed }
{
    put_thing_path(net, thing_of(net, reg), k)
}

/// Writes the path of a register, a bracket and the index of a bit.
pub(crate) fn put_open_name<K: Sink>(net: &Net, bit: BitId, k: &mut K) -> Result<(), StoreFault>
    requires well_formed { IsNet net.now }
    requires there { bit.reg < length net.now.regs.items }
    ensures whole { OnOk result (Adds (K.taken k.old) (K.taken k.new) (drivers.open_name net.now bit)) }
    ensures part { OnErr result (AddsPart (K.taken k.old) (K.taken k.new) (drivers.open_name net.now bit)) }
    ensures cause { HasCause (K.faults k.old) (K.faults k.new) result StoreFault.Failed }
{
    let index = index_of(net, bit);
    put_register_path(net, bit.reg, k)?;
    k.write(b"[")?;
    put_decimal(index, k)?;
    Ok(())
}

/// Writes the path of a register and the index of a bit in brackets. The refusals are those of the sink,
/// which then took some first bytes.
pub fn put_bit_name<K: Sink>(net: &Net, bit: BitId, k: &mut K) -> Result<(), StoreFault>
    requires well_formed { IsNet net.now }
    requires there { bit.reg < length net.now.regs.items }
    ensures whole { OnOk result (Adds (K.taken k.old) (K.taken k.new) (drivers.bit_name net.now bit)) }
    ensures part { OnErr result (AddsPart (K.taken k.old) (K.taken k.new) (drivers.bit_name net.now bit)) }
    ensures cause { HasCause (K.faults k.old) (K.faults k.new) result StoreFault.Failed }
{
    put_open_name(net, bit, k)?;
    k.write(b"]")?;
    Ok(())
}

/// Writes the path of a mux, in JSON in quotes.
pub(crate) fn put_mux_name<K: Sink>(
    format: ListFormat,
    before: &[u8],
    net: &Net,
    mux: u32,
    k: &mut K,
) -> Result<(), StoreFault>
    requires well_formed { IsNet net.now }
    requires there { mux < length net.now.muxes.items }
    ensures whole { OnOk result
        (Adds (K.taken k.old) (K.taken k.new) (before.now ++ quoted format (mux_path net.now mux))) }
    ensures part { OnErr result
        (AddsPart (K.taken k.old) (K.taken k.new) (before.now ++ quoted format (mux_path net.now mux))) }
    ensures cause { HasCause (K.faults k.old) (K.faults k.new) result StoreFault.Failed }
{
    k.write(before)?;
    put_text_or_json(format, b"", b"\"", k)?;
    put_mux_path(net, mux, k)?;
    put_text_or_json(format, b"", b"\"", k)?;
    Ok(())
}
