// The rows of each mux that one bit selects, in a table.
ghost use Rattle.std.specs.Prelude.{◌≡◌, ◌<◌, ◌^◌, length, All, IfOk};
ghost use Rattle.net_graph.specs.Held.{AreHolds};
ghost use Rattle.net_graph.specs.Nets.{IsNet, IsMux};
ghost use Rattle.net_graph.specs.Path as paths;
ghost use Rattle.net_graph.specs.RowTables.{AreRows, mux_rows};

use crate::holds::Holds;
use crate::net::{BitId, Mux, Net};
use crate::select::{row_by_number, row_of};
use ij_bits::OutOfMemory;
use std::alloc::Global;
use std::marker::Model;

/// A mux that one bit selects.
#[derive(Clone, Copy, Drop)]
pub struct OneBit {
    /// The bit.
    pub(crate) bit: BitId,
    /// The row that the mux is in where the bit is 0.
    pub(crate) zero: Option<u32>,
    /// The row that it is in where the bit is 1.
    pub(crate) one: Option<u32>,
}

/// The rows of each mux that one bit selects, as that of a segment insertion bit (IEEE 1687-2014: SIB): found
/// once, and then looked up. Of other muxes it says nothing.
///
/// Contracts see a list, as of `specs/RowTables.antt`.
#[derive(Drop)]
pub struct RowTable {
    muxes: Vec<Option<OneBit>>,
}

impl Model for RowTable {
    ghost use Rattle.std.specs.Prelude.{List, Option};
    ghost use Rattle.net_graph.specs.declared.row_table.OneBit.{OneBit};

    ghost Value = { List (Option OneBit) };

    ghost view = { λ t. t.muxes.items };
}

/// What the table says of a mux.
fn one_bit_of(_net: &Net, mux: &Mux) -> Option<OneBit>
    requires { IsMux _net.now mux.now }
    ensures { result ≡ mux_rows mux.now }
{
    if mux.select.len() != 1 {
        return None;
    }
    Some(OneBit {
        bit: *mux.select.get(0),
        zero: row_by_number(mux, 1, 0),
        one: row_by_number(mux, 1, 1),
    })
}

impl RowTable {
    /// The table of a network.
    pub fn new(alloc: Global, net: &Net) -> Result<RowTable, OutOfMemory>
        requires { IsNet net.now }
        ensures { IfOk result (AreRows net.now) }
    {
        let mut muxes = Vec::with_capacity(alloc, net.muxes.len())?;
        for mux in net.muxes.as_slice() {
            muxes.push(one_bit_of(net, mux))?;
        }
        Ok(RowTable { muxes })
    }

    /// The row that a mux is in, as [`row_of`] says. Takes no memory.
    pub fn row_of(&self, net: &Net, holds: &Holds, mux: u32) -> Option<u32>
        requires table { AreRows net.now self.now }
        requires well_formed { IsNet net.now }
        requires holds { AreHolds net.now holds.now }
        requires mux { mux < length net.now.muxes.items }
        ensures { result ≡ paths.row_of net.now holds.now mux }
    {
        match self.muxes[mux as usize] {
            Some(known) => {
                if holds.get(known.bit) {
                    known.one
                } else {
                    known.zero
                }
            }
            None => row_of(net, holds, mux),
        }
    }
}
