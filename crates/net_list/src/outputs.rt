// The outputs of instruments.
ghost use Rattle.std.specs.Prelude.{◌≡◌, ◌<◌, get_or, length, OnOk, OnErr};
ghost use Rattle.ij_io.specs.Bytes.{Adds, AddsPart};
ghost use Rattle.ij_io.specs.Causes.{HasCause};
ghost use Rattle.net_graph.specs.Named as named;
ghost use Rattle.net_graph.specs.Nets.{IsNet};
ghost use Rattle.net_list.specs.Drivers as drivers;
ghost use Rattle.net_list.specs.Outputs as outputs;

use crate::names::index_between;
use ij_io::{Sink, StoreFault};
use net_graph::{Net, Thing, node_of};
use path_names::put_instance_path;

/// The name of an output.
fn port_name(net: &Net, inst: u32, port: u32) -> &[u8]
    requires inst { inst < length net.now.insts.items }
    requires port { port < length (named.output_widths net.now inst) }
    ensures { result.now ≡ outputs.port_name net.now inst port }
{
    net.insts
        .get(inst as usize)
        .outs
        .get(port as usize)
        .name
        .as_slice()
}

/// How many bits an output has.
fn port_width(net: &Net, inst: u32, port: u32) -> u32
    requires inst { inst < length net.now.insts.items }
    requires port { port < length (named.output_widths net.now inst) }
    ensures { result ≡ get_or (named.output_widths net.now inst) port 0 }
{
    net.insts.get(inst as usize).outs.get(port as usize).width
}

/// Whether a thing is the port of a node, of this name and of this many bits.
fn is_port(thing: &Thing, node: u32, name: &[u8], width: u32) -> bool
    ensures { result ≡ outputs.is_port thing.now node name.now width }
{
    thing.node == node && thing.name.as_slice() == name && thing.bits.len() == width
}

/// The index of a position of a thing.
fn index_of_thing(thing: &Thing, pos: u32) -> u64
    ensures { result ≡ drivers.index_between thing.now.left thing.now.right pos }
{
    index_between(thing.left, thing.right, pos)
}

/// The index at a position of the port of a node, of this name and of this many bits, and the position where
/// there is none.
fn index_in(things: &[Thing], node: u32, name: &[u8], width: u32, pos: u32) -> u64
    ensures { result ≡ outputs.index_in things.now node name.now width pos }
{
    for thing in things {
        if is_port(thing, node, name, width) {
            return index_of_thing(thing, pos);
        }
    }
    u64::from(pos)
}

/// The index that a position of an output of an instrument has in the ICL text (IEEE 1687-2014, ICL:
/// `DataOutPort`); the position itself where the network tells no such port of as many bits. Position 0 is
/// the right index. Takes no memory.
pub fn output_index(net: &Net, inst: u32, port: u32, pos: u32) -> u64
    requires well_formed { IsNet net.now }
    requires inst { inst < length net.now.insts.items }
    requires port { port < length (named.output_widths net.now inst) }
    ensures { result ≡ outputs.output_index net.now inst port pos }
{
    let node = node_of(net, inst);
    let name = port_name(net, inst, port);
    let width = port_width(net, inst, port);
    index_in(net.things.as_slice(), node, name, width, pos)
}

/// Writes the path of an output of an instrument: that of the instrument, a dot and the port's name (IEEE
/// 1687-2014, ICL: `DataOutPort`). The refusals are those of the sink, which then took some first bytes.
pub fn put_output<K: Sink>(net: &Net, inst: u32, port: u32, k: &mut K) -> Result<(), StoreFault>
    requires well_formed { IsNet net.now }
    requires inst { inst < length net.now.insts.items }
    requires port { port < length (named.output_widths net.now inst) }
    ensures whole { OnOk result
        (Adds (K.taken k.old) (K.taken k.new) (outputs.output_path net.now inst port)) }
    ensures part { OnErr result
        (AddsPart (K.taken k.old) (K.taken k.new) (outputs.output_path net.now inst port)) }
    ensures cause { HasCause (K.faults k.old) (K.faults k.new) result StoreFault.Failed }
{
    put_instance_path(net, node_of(net, inst), k)?;
    k.write(b".")?;
    k.write(port_name(net, inst, port))?;
    Ok(())
}
