// What procedures may name in a network.
ghost use Rattle.std.specs.Prelude.{◌≡◌, ◌<◌, ◌≤◌, ℕ, map, true, Some, IfOk};
ghost use Rattle.net_graph.specs.SpotRuns.{spot_after};
ghost use Rattle.icl_elab.specs.WellFormed.{is_register};
ghost use Rattle.icl_references.specs.Roles.{seen_body, seen_part, part_at};
ghost use Rattle.icl_signals.specs.Alike.{data_spot};
ghost use Rattle.icl_references.specs.RefRuns.{ref_after};
ghost use Rattle.icl_signals.specs.Wirings.{IsWiring, cells_of};
ghost use Rattle.icl_signals.specs.TrueEnds.{seen_entry};
ghost use Rattle.icl_signals.specs.Connecting.{own_bits, spot_of, thing_of, number_among};

use crate::copies::words_copy;
use crate::ends::{constant, signal_at};
use crate::entries::{PartAt, own_refs};
use crate::following::traces;
use crate::numbers::number_at;
use crate::parts::{Kind, is_of, part_at};
use crate::wiring::Wiring;
use icl_elab::{Body, Part, Ref};
use ij_bits::{List, OutOfMemory, pair_if_ok};
use ij_runs::{Follow, Runs};
use ij_text::name_of;
use net_graph::{BitId, Sig, Spot, Spots, Thing};
use std::alloc::Global;

/// The number of a register.
fn register_number(wiring: &Wiring, cell: u32, part: u32, what: &Part) -> u32
    requires wiring { IsWiring wiring.now }
    requires placed { part_at (cells_of wiring.now) cell part ≡ Some (seen_part what.now) }
    requires register { is_register (seen_part what.now).role ≡ true }
    ensures { result ≡ number_among is_register (cells_of wiring.now) cell part }
{
    number_at(wiring.registers.as_slice(), cell, part)
}

/// What bits of a thing side by side are: the first one, and how many there are.
#[derive(Clone, Copy, Drop)]
struct SpotRun {
    /// The first one.
    spot: Spot,
    /// How many there are.
    count: u32,
}

/// What a bit of a part that is no register is, with this signal.
fn data_spot(body: &Body, sig: Sig) -> Spot
    ensures { result ≡ data_spot (seen_body body.now) sig }
{
    match body {
        Body::DataIn { .. } => Spot::Inward(sig),
        _ => Spot::Outward(sig),
    }
}

/// What the bits are that a reference and those after it name, of so many.
fn spots_from(wiring: &Wiring, r: Ref, count: u32) -> SpotRun
    requires wiring { IsWiring wiring.now }
    requires count { 1 ≤ count }
    ensures some { 1 ≤ result.count }
    ensures few { result.count ≤ count }
    ensures each { (k : ℕ) → k < result.count
        → spot_of (cells_of wiring.now) wiring.now.entry (ref_after k r) ≡ spot_after k result.spot }
{
    let (cell, part, pos) = match r {
        Ref::Fixed(b) => {
            return SpotRun {
                spot: Spot::Outward(constant(b)),
                count,
            };
        }
        Ref::Bit {
            cell,
            part,
            pos,
            ..
        } => (cell, part, pos),
    };
    let Some(p) = part_at(wiring.hier, cell, part) else {
        return SpotRun {
            spot: Spot::Outward(Sig::Absent),
            count,
        };
    };
    if is_of(Kind::Register, &p.body) {
        return SpotRun {
            spot: Spot::Held(BitId {
                reg: register_number(wiring, cell, part, p),
                pos,
            }),
            count,
        };
    }
    let run = traces(wiring, r, count);
    SpotRun {
        spot: data_spot(&p.body, signal_at(wiring, run.end)),
        count: run.count,
    }
}

/// The bits that references name.
fn named_spots(alloc: Global, wiring: &Wiring, refs: &Runs<Ref>) -> Result<Spots, OutOfMemory>
    requires { IsWiring wiring.now }
    ensures { IfOk result (λ all. all.items
        ≡ map (spot_of (cells_of wiring.now) wiring.now.entry) refs.now.items) }
{
    let mut all = Spots::new(alloc);
    let mut pos = 0;
    for _bit in 0..refs.len() {
        if pos >= refs.len() {
            return Ok(all);
        }
        let part = refs.part_at(pos);
        let run = spots_from(wiring, part.first.after(part.from), part.len);
        all.push_run(run.spot, run.count)?;
        pos += run.count as usize;
    }
    Ok(all)
}

/// The bits of a part, position 0 first.
fn own_spots(alloc: Global, wiring: &Wiring, e: PartAt) -> Result<Spots, OutOfMemory>
    requires { IsWiring wiring.now }
    ensures { IfOk result (λ all. all.items
        ≡ map (spot_of (cells_of wiring.now) wiring.now.entry) (own_bits (seen_entry e.entry))) }
{
    let refs = own_refs(alloc, e.cell, e.part, e.what)?;
    named_spots(alloc, wiring, &refs)
}

/// What procedures may name by a part.
#[tactic(auto, unfolding(crate::specs::Connecting::thing_of))]
fn thing_of(alloc: Global, wiring: &Wiring, e: PartAt) -> Result<Thing, OutOfMemory>
    requires { IsWiring wiring.now }
    ensures { IfOk result (λ t. t
        ≡ thing_of (cells_of wiring.now) wiring.now.entry (seen_entry e.entry)) }
{
    let part = e.what;
    let bits = match &part.body {
        Body::Alias { refs } => named_spots(alloc, wiring, refs)?,
        _ => own_spots(alloc, wiring, e)?,
    };
    let (bits, name) = pair_if_ok(bits, name_of(alloc, part.name.as_slice()))?;
    let words = pair_if_ok(name, words_copy(alloc, part));
    let (bits, (name, words)) = pair_if_ok(bits, words)?;
    Ok(Thing {
        node: e.cell,
        name,
        left: part.left,
        right: part.right,
        bits,
        words,
    })
}

/// What procedures may name.
pub(crate) fn things(
    alloc: Global,
    wiring: &Wiring,
    parts: &[PartAt],
) -> Result<List<Thing>, OutOfMemory>
    requires { IsWiring wiring.now }
    ensures { IfOk result (λ all. all.items
        ≡ map (thing_of (cells_of wiring.now) wiring.now.entry) (map seen_entry parts.now)) }
{
    let mut all = List::new(alloc);
    for e in parts {
        all.push(thing_of(alloc, wiring, *e)?)?;
    }
    Ok(all)
}
