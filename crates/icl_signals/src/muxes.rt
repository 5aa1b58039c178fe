// The multiplexers of a network.
ghost use Rattle.std.specs.Prelude.{map};
ghost use Rattle.ij_text.specs.Options.{same};
ghost use Rattle.icl_declarations.specs.Faults.{each};
ghost use Rattle.icl_references.specs.Roles.{seen_row as seen_choice};
ghost use Rattle.icl_signals.specs.Refusals.{Gives};
ghost use Rattle.icl_signals.specs.Wirings.{IsWiring, cells_of};
ghost use Rattle.icl_signals.specs.TrueEnds.{seen_entry};
ghost use Rattle.icl_signals.specs.Connecting.{select_from, row_from, mux_of};

use crate::ConnectFault;
use crate::copies::values_copy;
use crate::ends::{scan_from, select_from};
use crate::entries::{PartAt, listed};
use crate::wiring::Wiring;
use icl_elab::{Body, Ref};
use ij_bits::{List, Tern, pair_if_ok};
use ij_text::{Place, name_of};
use net_graph::{BitId, Mux, Row};
use std::alloc::Global;

/// The bits that select.
fn select(
    alloc: Global,
    wiring: &Wiring,
    at: Place,
    refs: &[Ref],
) -> Result<List<BitId>, ConnectFault>
    requires { IsWiring wiring.now }
    ensures { Gives (λ all. all.items) result
        (each (select_from (cells_of wiring.now) wiring.now.entry at) refs.now) }
{
    let mut all = List::new(alloc);
    for r in refs {
        let bit = select_from(wiring, at, *r)?;
        all.push(bit)?;
    }
    Ok(all)
}

fn row_from(
    alloc: Global,
    wiring: &Wiring,
    at: Place,
    row: &(List<Tern>, Ref),
) -> Result<Row, ConnectFault>
    requires { IsWiring wiring.now }
    ensures { Gives same result
        (row_from (cells_of wiring.now) wiring.now.entry at (seen_choice row.now)) }
{
    let from = scan_from(wiring, at, row.1)?;
    let values = values_copy(alloc, row.0.as_slice())?;
    Ok(Row { values, from })
}

fn rows(
    alloc: Global,
    wiring: &Wiring,
    at: Place,
    rows: &[(List<Tern>, Ref)],
) -> Result<List<Row>, ConnectFault>
    requires { IsWiring wiring.now }
    ensures { Gives (λ all. all.items) result
        (each (row_from (cells_of wiring.now) wiring.now.entry at) (map seen_choice rows.now)) }
{
    let mut all = List::new(alloc);
    for row in rows {
        let row = row_from(alloc, wiring, at, row)?;
        all.push(row)?;
    }
    Ok(all)
}

/// A multiplexer of the network.
#[tactic(auto, unfolding(crate::specs::Connecting::mux_of))]
pub(crate) fn mux_of(alloc: Global, wiring: &Wiring, e: PartAt) -> Result<Mux, ConnectFault>
    requires { IsWiring wiring.now }
    ensures { Gives same result (mux_of (cells_of wiring.now) wiring.now.entry (seen_entry e.entry)) }
{
    let part = e.what;
    match &part.body {
        Body::Mux {
            select: refs,
            rows: choices,
        } => {
            let refs = listed(alloc, refs)?;
            let select = select(alloc, wiring, part.at, refs.as_slice())?;
            let rows = rows(alloc, wiring, part.at, choices.as_slice());
            let (select, rows) = pair_if_ok(select, rows)?;
            let name = pair_if_ok(rows, name_of(alloc, part.name.as_slice()));
            let (select, (rows, name)) = pair_if_ok(select, name)?;
            Ok(Mux {
                select,
                rows,
                node: e.cell,
                name,
            })
        }
        _ => Err(ConnectFault::BadSelect { at: part.at }),
    }
}

/// The multiplexers of the network.
pub(crate) fn muxes(
    alloc: Global,
    wiring: &Wiring,
    parts: &[PartAt],
) -> Result<List<Mux>, ConnectFault>
    requires { IsWiring wiring.now }
    ensures { Gives (λ all. all.items) result
        (each (mux_of (cells_of wiring.now) wiring.now.entry) (map seen_entry parts.now)) }
{
    let mut all = List::new(alloc);
    for e in parts {
        let mux = mux_of(alloc, wiring, *e)?;
        all.push(mux)?;
    }
    Ok(all)
}
