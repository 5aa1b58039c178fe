// Register bits that are compared, and the parts of a network by their numbers.
ghost use Rattle.std.specs.Prelude.{◌≡◌, ◌<◌, length, map, slice_index_or};
ghost use Rattle.net_graph.specs.Named as named;
ghost use Rattle.net_graph.specs.Nets.{IsNet};
ghost use Rattle.net_graph.specs.Path as paths;
ghost use Rattle.net_graph.specs.declared.net.Point.TheVariants as point;

use crate::net::{BitId, Net, Point, Row};
use ij_bits::List;

/// Whether two register bits are one. Takes no memory.
pub fn same_place(a: BitId, b: BitId) -> bool
    ensures { result ≡ paths.same_place a b }
{
    a.reg == b.reg && a.pos == b.pos
}

/// The number of registers. Takes no memory.
#[tactic(auto, using(crate::proofs::Tracing::reg_count))]
pub fn register_count(net: &Net) -> u32
    requires well_formed { IsNet net.now }
    ensures { result ≡ length net.now.regs.items }
{
    net.regs.len() as u32
}

/// The number of muxes. Takes no memory.
pub fn mux_count(net: &Net) -> u32
    requires well_formed { IsNet net.now }
    ensures { result ≡ length net.now.muxes.items }
{
    net.muxes.len() as u32
}

/// The thing that a register is, by which procedures name it. Takes no memory.
pub fn thing_of(net: &Net, reg: u32) -> u32
    requires well_formed { IsNet net.now }
    requires there { reg < length net.now.regs.items }
    ensures thing { result ≡ named.thing_of net.now reg }
    ensures there { result < length net.now.things.items }
{
    net.regs.get(reg as usize).thing
}

/// The node of an instrument. Takes no memory.
pub fn node_of(net: &Net, inst: u32) -> u32
    requires well_formed { IsNet net.now }
    requires there { inst < length net.now.insts.items }
    ensures node { result ≡ named.node_of net.now inst }
    ensures there { result < length net.now.nodes.items }
{
    net.insts.get(inst as usize).node
}

/// The source of a row. Takes no memory.
pub fn source_at(rows: &List<Row>, row: u32) -> Point
    requires { row < length rows.now.items }
    ensures { result ≡ slice_index_or (map (λ r. r.from) rows.now.items) row point.Entry }
{
    rows.get(row as usize).from
}
