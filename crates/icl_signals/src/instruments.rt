// The instruments of a network.
ghost use Rattle.std.specs.Prelude.{◌≡◌, ◌∷◌, [], map, filter, IfOk};
ghost use Rattle.ij_text.specs.Options.{same};
ghost use Rattle.icl_declarations.specs.Faults.{each};
ghost use Rattle.icl_elab.specs.WellFormed.{is_data_out, is_instrument};
ghost use Rattle.icl_references.specs.Roles.{seen_cell};
ghost use Rattle.icl_signals.specs.Refusals.{Gives, after};
ghost use Rattle.icl_signals.specs.Wirings.{IsWiring, cells_of};
ghost use Rattle.icl_signals.specs.TrueEnds.{seen_entry};
ghost use Rattle.icl_signals.specs.Inside.{numbered};
ghost use Rattle.icl_signals.specs.Connecting.{input_from, input_of, output_of, instrument_of, instruments};
ghost use Rattle.icl_signals.specs.Connecting.{parts_that};

use crate::ConnectFault;
use crate::ends::input_from;
use crate::entries::{PartAt, entries_at, listed, next, own_refs};
use crate::parts::{Kind, is_instrument, width_of};
use crate::wiring::Wiring;
use icl_elab::{Cell, Ref};
use ij_bits::{List, OutOfMemory, pair_if_ok};
use ij_text::{Place, name_of};
use net_graph::{Inst, PortIn, PortOut, Sig};
use std::alloc::Global;

/// What drives bits of an input.
fn input_bits(
    alloc: Global,
    wiring: &Wiring,
    at: Place,
    refs: &[Ref],
) -> Result<List<Sig>, ConnectFault>
    requires { IsWiring wiring.now }
    ensures { Gives (λ all. all.items) result
        (each (input_from (cells_of wiring.now) wiring.now.entry at) refs.now) }
{
    let mut all = List::new(alloc);
    for r in refs {
        let signal = input_from(wiring, at, *r)?;
        all.push(signal)?;
    }
    Ok(all)
}

/// An input of the instrument that this cell is.
fn input_of(alloc: Global, wiring: &Wiring, cell: u32, e: PartAt) -> Result<PortIn, ConnectFault>
    requires { IsWiring wiring.now }
    ensures { Gives same result
        (input_of (cells_of wiring.now) wiring.now.entry cell (numbered (seen_entry e.entry))) }
{
    let refs = own_refs(alloc, cell, e.part, e.what)?;
    let refs = listed(alloc, &refs)?;
    let bits = input_bits(alloc, wiring, e.what.at, refs.as_slice());
    drop(refs);
    let (bits, name) = pair_if_ok(bits?, name_of(alloc, e.what.name.as_slice()))?;
    Ok(PortIn { name, bits })
}

fn output_of(alloc: Global, e: PartAt) -> Result<PortOut, OutOfMemory>
    ensures { IfOk result (λ port. port ≡ output_of (numbered (seen_entry e.entry))) }
{
    let name = name_of(alloc, e.what.name.as_slice())?;
    let width = width_of(e.what)?;
    Ok(PortOut { name, width })
}

fn inputs(
    alloc: Global,
    wiring: &Wiring,
    cell: u32,
    parts: &[PartAt],
) -> Result<List<PortIn>, ConnectFault>
    requires { IsWiring wiring.now }
    ensures { Gives (λ all. all.items) result (each (input_of
        (cells_of wiring.now) wiring.now.entry cell) (map (λ e. numbered (seen_entry e)) parts.now)) }
{
    let mut all = List::new(alloc);
    for e in parts {
        let port = input_of(alloc, wiring, cell, *e)?;
        all.push(port)?;
    }
    Ok(all)
}

fn outputs(alloc: Global, parts: &[PartAt]) -> Result<List<PortOut>, OutOfMemory>
    ensures { IfOk result (λ all. all.items
        ≡ map output_of (map (λ e. numbered (seen_entry e)) parts.now)) }
{
    let mut all = List::new(alloc);
    for e in parts {
        all.push(output_of(alloc, *e)?)?;
    }
    Ok(all)
}

/// The outputs of the instrument that a cell is.
fn own_outputs(alloc: Global, number: u32, cell: &Cell) -> Result<List<PortOut>, OutOfMemory>
    ensures { IfOk result (λ all. all.items
        ≡ map output_of (parts_that is_data_out (seen_cell cell.now))) }
{
    let parts = entries_at(alloc, Kind::Output, number, cell)?;
    let outs = outputs(alloc, parts.as_slice());
    drop(parts);
    outs
}

/// The instrument that a cell is.
#[tactic(auto, unfolding(crate::specs::Connecting::instrument_of))]
fn instrument_of(
    alloc: Global,
    wiring: &Wiring,
    number: u32,
    cell: &Cell,
) -> Result<Inst, ConnectFault>
    requires { IsWiring wiring.now }
    ensures { Gives same result
        (instrument_of (cells_of wiring.now) wiring.now.entry (number, seen_cell cell.now)) }
{
    let parts = entries_at(alloc, Kind::Input, number, cell)?;
    let ins = inputs(alloc, wiring, number, parts.as_slice());
    drop(parts);
    let (ins, outs) = pair_if_ok(ins?, own_outputs(alloc, number, cell))?;
    Ok(Inst {
        node: number,
        ins,
        outs,
    })
}

/// The instruments with the one that a cell is, if it is one.
fn with_instrument(
    alloc: Global,
    wiring: &Wiring,
    number: u32,
    cell: &Cell,
    found: List<Inst>,
) -> Result<List<Inst>, ConnectFault>
    requires { IsWiring wiring.now }
    ensures { Gives (λ all. all.items) result
        (after found.items (each (instrument_of (cells_of wiring.now) wiring.now.entry)
        (filter (λ c. is_instrument c.1) ((number, seen_cell cell.now) ∷ [])))) }
{
    let mut all = found;
    if is_instrument(cell) {
        let inst = instrument_of(alloc, wiring, number, cell)?;
        all.push(inst)?;
    }
    Ok(all)
}

/// The instruments of the network.
pub(crate) fn instruments(alloc: Global, wiring: &Wiring) -> Result<List<Inst>, ConnectFault>
    requires { IsWiring wiring.now }
    ensures { Gives (λ all. all.items) result
        (each (instrument_of (cells_of wiring.now) wiring.now.entry) (instruments (cells_of wiring.now))) }
{
    let mut all = List::new(alloc);
    let mut number = 0;
    for cell in wiring.hier.cells.as_slice() {
        all = with_instrument(alloc, wiring, number, cell, all)?;
        number = next(number)?;
    }
    Ok(all)
}
