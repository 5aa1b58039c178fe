// How the parts of a network are called (IEEE 1687-2014, ICL: hierarchical names).
ghost use Rattle.std.specs.Prelude.{◌≡◌, map, drop, IfOk};
ghost use Rattle.pdl_parser.specs.Views.{bytes_of};
ghost use Rattle.ijtag_stages.specs.NetNames.{path_at, node_name, name_in, mux_name, inst_name, thing_name};
ghost use Rattle.ijtag_stages.specs.NetNames.{reg_thing, cell_name, index_of, bit_index, bit_arg};
ghost use Rattle.ijtag_stages.specs.Seen.{seen_arg};

use crate::refusal::Arg;
use ij_bits::{List, OutOfMemory};
use ij_text::{Name, name_of, with_dotted};
use net_graph::{BitId, Net, Point, Thing};
use pdl_expand::dotted;
use std::alloc::Global;

/// A text without its first byte.
fn without_first(alloc: Global, text: &Name) -> Result<Name, OutOfMemory>
    ensures { IfOk result (λ r. r.items ≡ drop 1 text.now.items) }
{
    match text.as_slice() {
        [] => Ok(List::new(alloc)),
        [_, rest @ ..] => name_of(alloc, rest),
    }
}

/// The instances from below the top down to a node, none for one that isn't there.
fn path_at(net: &Net, node: u32) -> &[Name]
    ensures { map bytes_of result.now ≡ path_at net.now node }
{
    if (node as usize) < net.nodes.len() {
        net.nodes.get(node as usize).path.as_slice()
    } else {
        &[]
    }
}

/// The name of an instance.
fn node_name(alloc: Global, net: &Net, node: u32) -> Result<Name, OutOfMemory>
    ensures { IfOk result (λ r. r.items ≡ node_name net.now node) }
{
    let text = dotted(alloc, path_at(net, node))?;
    without_first(alloc, &text)
}

/// The name of what is in an instance under this name.
fn name_in(alloc: Global, net: &Net, node: u32, name: &Name) -> Result<Name, OutOfMemory>
    ensures { IfOk result (λ r. r.items ≡ name_in net.now node name.now.items) }
{
    let text = dotted(alloc, path_at(net, node))?;
    let text = with_dotted(text, name.as_slice())?;
    without_first(alloc, &text)
}

/// The name of a scan mux, empty for one that isn't there.
pub(crate) fn mux_name(alloc: Global, net: &Net, mux: u32) -> Result<Name, OutOfMemory>
    ensures { IfOk result (λ r. r.items ≡ mux_name net.now mux) }
{
    if (mux as usize) < net.muxes.len() {
        let mux = net.muxes.get(mux as usize);
        name_in(alloc, net, mux.node, &mux.name)
    } else {
        Ok(List::new(alloc))
    }
}

/// The name of an instrument, empty for one that isn't there.
pub(crate) fn inst_name(alloc: Global, net: &Net, inst: u32) -> Result<Name, OutOfMemory>
    ensures { IfOk result (λ r. r.items ≡ inst_name net.now inst) }
{
    if (inst as usize) < net.insts.len() {
        node_name(alloc, net, net.insts.get(inst as usize).node)
    } else {
        Ok(List::new(alloc))
    }
}

/// The name of what procedures may name, empty for what isn't there.
fn thing_name(alloc: Global, net: &Net, thing: u32) -> Result<Name, OutOfMemory>
    ensures { IfOk result (λ r. r.items ≡ thing_name net.now thing) }
{
    if (thing as usize) < net.things.len() {
        let thing = net.things.get(thing as usize);
        name_in(alloc, net, thing.node, &thing.name)
    } else {
        Ok(List::new(alloc))
    }
}

/// What a register is for procedures.
fn reg_thing(net: &Net, reg: u32) -> u32
    ensures { result ≡ reg_thing net.now reg }
{
    if (reg as usize) < net.regs.len() {
        net.regs.get(reg as usize).thing
    } else {
        0
    }
}

/// The name of a register or a mux.
pub(crate) fn cell_name(alloc: Global, net: &Net, cell: Point) -> Result<Name, OutOfMemory>
    ensures { IfOk result (λ r. r.items ≡ cell_name net.now cell) }
{
    match cell {
        Point::Entry => Ok(List::new(alloc)),
        Point::Reg(reg) => thing_name(alloc, net, reg_thing(net, reg)),
        Point::Mux(mux) => mux_name(alloc, net, mux),
    }
}

/// The index at a position.
fn index_of(pos: u32, thing: &Thing) -> u64
    ensures { result ≡ index_of pos thing.now }
{
    let right = thing.right as u64;
    if thing.left < thing.right {
        right.saturating_sub(pos as u64)
    } else {
        right + pos as u64
    }
}

/// The index of a position of what procedures may name.
fn bit_index(net: &Net, thing: u32, pos: u32) -> u64
    ensures { result ≡ bit_index net.now thing pos }
{
    if (thing as usize) < net.things.len() {
        index_of(pos, net.things.get(thing as usize))
    } else {
        0
    }
}

/// A register bit as a refusal tells it.
pub(crate) fn bit_arg(alloc: Global, net: &Net, bit: BitId) -> Result<Arg, OutOfMemory>
    ensures { IfOk result (λ arg. seen_arg arg ≡ bit_arg net.now bit) }
{
    let thing = reg_thing(net, bit.reg);
    let name = thing_name(alloc, net, thing)?;
    Ok(Arg::Bit(name, bit_index(net, thing, bit.pos)))
}
