// The row that each mux is in, noted once.
ghost use Rattle.std.specs.Prelude.{◌≡◌, ◌<◌, length, IfOk};
ghost use Rattle.net_graph.specs.Held.{AreHolds};
ghost use Rattle.net_graph.specs.Nets.{IsNet};
ghost use Rattle.net_graph.specs.Path as paths;
ghost use Rattle.mux_test.specs.KnownRows.{AreKnown, HasKnownRoom};

use ij_bits::{Buffer, List, OutOfMemory};
use net_graph::{Holds, Net, RowTable};
use std::alloc::Global;

/// The row that each mux is in, noted at the beginning of a scan: each is looked for once then, however often
/// it is asked for.
#[derive(Drop)]
pub(crate) struct KnownRows {
    /// The rows of the network's muxes.
    pub table: RowTable,
    /// The row that each mux is in.
    pub rows: List<Option<u32>>,
}

/// Nothing known of any mux of a network.
fn rows_room(alloc: Global, net: &Net) -> Result<List<Option<u32>>, OutOfMemory>
    ensures { IfOk result (λ rows. length rows.items ≡ length net.now.muxes.items) }
{
    let mut rows = Buffer::new(alloc);
    rows.reserve(net.muxes.len())?;
    for _mux in 0..net.muxes.len() {
        rows.push_reserved(None);
    }
    Ok(rows.into_list())
}

impl KnownRows {
    /// Room for what is known of a network.
    pub(crate) fn new(alloc: Global, net: &Net) -> Result<KnownRows, OutOfMemory>
        requires { IsNet net.now }
        ensures { IfOk result (HasKnownRoom net.now) }
    {
        Ok(KnownRows {
            table: RowTable::new(alloc, net)?,
            rows: rows_room(alloc, net)?,
        })
    }

    /// Notes the row that each mux is in. Takes no memory.
    pub(crate) fn note(&mut self, net: &Net, holds: &Holds)
        requires well_formed { IsNet net.now }
        requires holds { AreHolds net.now holds.now }
        requires room { HasKnownRoom net.now self.old }
        ensures { AreKnown net.now holds.now self.new }
    {
        for mux in 0..net.muxes.len() {
            self.rows
                .set(mux, self.table.row_of(net, holds, mux as u32));
        }
    }

    /// The row that a mux is in. Takes no memory.
    pub(crate) fn row_of(&self, _net: &Net, _holds: &Holds, mux: u32) -> Option<u32>
        requires known { AreKnown _net.now _holds.now self.now }
        requires mux { mux < length _net.now.muxes.items }
        ensures { result ≡ paths.row_of _net.now _holds.now mux }
    {
        *self.rows.get(mux as usize)
    }
}
