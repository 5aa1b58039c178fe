// The registers of a network.
ghost use Rattle.std.specs.Prelude.{◌≡◌, map, replicate, true, IfOk};
ghost use Rattle.std.specs.Option.{option_map};
ghost use Rattle.ij_text.specs.Options.{same};
ghost use Rattle.net_graph.specs.declared.net.Sig.TheVariants.{Absent};
ghost use Rattle.icl_declarations.specs.Faults.{each};
ghost use Rattle.icl_elab.specs.WellFormed.{is_thing};
ghost use Rattle.icl_references.specs.Roles.{seen_part, seen_refs};
ghost use Rattle.icl_signals.specs.Refusals.{Gives};
ghost use Rattle.icl_signals.specs.Wirings.{IsWiring, cells_of};
ghost use Rattle.icl_signals.specs.TrueEnds.{IsPlaced, ArePlaced, seen_entry};
ghost use Rattle.icl_signals.specs.Connecting.{data_from, scan_source, captures, register_of, number_among};

use crate::ConnectFault;
use crate::copies::resets;
use crate::ends::{data_from, scan_from};
use crate::entries::{PartAt, listed};
use crate::numbers::number_at;
use crate::parts::width_of;
use crate::wiring::Wiring;
use icl_elab::{Body, Ref};
use ij_bits::{List, OutOfMemory, pair_if_ok};
use ij_runs::Runs;
use ij_text::Place;
use net_graph::{Point, Reg, Sig};
use std::alloc::Global;

fn scan_source(wiring: &Wiring, at: Place, scan: Option<Ref>) -> Result<Point, ConnectFault>
    requires { IsWiring wiring.now }
    ensures { Gives same result (scan_source (cells_of wiring.now) wiring.now.entry at scan) }
{
    match scan {
        Some(r) => scan_from(wiring, at, r),
        None => Err(ConnectFault::Undriven { at }),
    }
}

/// This many signals without a source.
fn absent(alloc: Global, width: u32) -> Result<List<Sig>, OutOfMemory>
    ensures { IfOk result (λ all. all.items ≡ replicate width Absent) }
{
    let mut all = List::new(alloc);
    for _bit in 0..width {
        all.push(Sig::Absent)?;
    }
    Ok(all)
}

/// The data signals that references lead to.
pub(crate) fn signals(
    alloc: Global,
    wiring: &Wiring,
    at: Place,
    refs: &[Ref],
) -> Result<List<Sig>, ConnectFault>
    requires { IsWiring wiring.now }
    ensures { Gives (λ all. all.items) result
        (each (data_from (cells_of wiring.now) wiring.now.entry at) refs.now) }
{
    let mut all = List::new(alloc);
    for r in refs {
        let signal = data_from(wiring, at, *r)?;
        all.push(signal)?;
    }
    Ok(all)
}

fn captures(
    alloc: Global,
    wiring: &Wiring,
    at: Place,
    width: u32,
    capture: &Option<Runs<Ref>>,
) -> Result<List<Sig>, ConnectFault>
    requires { IsWiring wiring.now }
    ensures { Gives (λ all. all.items) result
        (captures (cells_of wiring.now) wiring.now.entry at width (option_map seen_refs capture.now)) }
{
    match capture {
        Some(refs) => {
            let refs = listed(alloc, refs)?;
            signals(alloc, wiring, at, refs.as_slice())
        }
        None => Ok(absent(alloc, width)?),
    }
}

/// The number that a part has among those that procedures may name.
fn thing_number(wiring: &Wiring, e: PartAt) -> u32
    requires wiring { IsWiring wiring.now }
    requires placed { IsPlaced (cells_of wiring.now) e }
    requires thing { is_thing (seen_part e.what.now).role ≡ true }
    ensures { result ≡ number_among is_thing (cells_of wiring.now) e.entry.cell e.entry.part }
{
    number_at(wiring.things.as_slice(), e.cell, e.part)
}

/// A register of the network.
#[tactic(auto, unfolding(crate::specs::Connecting::register_of))]
pub(crate) fn register_of(alloc: Global, wiring: &Wiring, e: PartAt) -> Result<Reg, ConnectFault>
    requires wiring { IsWiring wiring.now }
    requires placed { IsPlaced (cells_of wiring.now) e }
    ensures { Gives same result
        (register_of (cells_of wiring.now) wiring.now.entry (seen_entry e.entry)) }
{
    let part = e.what;
    match &part.body {
        Body::Register {
            scan,
            capture,
            reset,
        } => {
            let from = scan_source(wiring, part.at, *scan)?;
            let width = width_of(part)?;
            let capture = captures(alloc, wiring, part.at, width, capture)?;
            let (capture, reset) = pair_if_ok(capture, resets(alloc, width, reset))?;
            Ok(Reg {
                width,
                from,
                capture,
                reset,
                thing: thing_number(wiring, e),
            })
        }
        _ => Err(ConnectFault::Undriven { at: part.at }),
    }
}

/// The registers of the network.
pub(crate) fn registers(
    alloc: Global,
    wiring: &Wiring,
    parts: &[PartAt],
) -> Result<List<Reg>, ConnectFault>
    requires wiring { IsWiring wiring.now }
    requires placed { ArePlaced (cells_of wiring.now) parts.now }
    ensures { Gives (λ all. all.items) result
        (each (register_of (cells_of wiring.now) wiring.now.entry) (map seen_entry parts.now)) }
{
    let mut all = List::new(alloc);
    for e in parts {
        let reg = register_of(alloc, wiring, *e)?;
        all.push(reg)?;
    }
    Ok(all)
}
