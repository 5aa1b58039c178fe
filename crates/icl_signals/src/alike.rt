// How many bits side by side stand for bits side by side, or for the same.
ghost use Rattle.std.specs.Prelude.{◌≡◌, ◌<◌, ◌≤◌, ◌+◌, ℕ, Bool};
ghost use Rattle.std.specs.Option.{option_map};
ghost use Rattle.icl_references.specs.Roles.{seen_body, seen_refs};
ghost use Rattle.icl_signals.specs.Wirings.{IsWiring, cells_of};
ghost use Rattle.icl_signals.specs.Moves.{ref_in, role_move};
ghost use Rattle.icl_signals.specs.Alike.{AreAlike, driver_after};

use crate::following::is_entry;
use crate::parts::{is_top, part_at};
use crate::wires::Wire;
use crate::wiring::Wiring;
use icl_elab::{Body, Ref};
use ij_runs::Runs;

/// How many bits from a position on follow one another, of so many; all where there are none.
fn alike_refs(refs: &Option<Runs<Ref>>, pos: u32, count: u32) -> u32
    requires { 1 ≤ count }
    ensures some { 1 ≤ result }
    ensures few { result ≤ count }
    ensures alike { (k : ℕ) → k < result → ref_in (option_map seen_refs refs.now) (pos + k)
        ≡ driver_after k (ref_in (option_map seen_refs refs.now) pos) }
{
    match refs {
        Some(refs) => {
            if (pos as usize) < refs.len() {
                refs.part_at(pos as usize).len.min(count)
            } else {
                count
            }
        }
        None => count,
    }
}

/// How many bits of a part from a position on go on alike, of so many.
fn alike_in_role(top: bool, body: &Body, pos: u32, count: u32) -> u32
    requires { 1 ≤ count }
    ensures some { 1 ≤ result }
    ensures few { result ≤ count }
    ensures alike { (instrument : Bool) (k : ℕ) → k < result
        → role_move top instrument (seen_body body.now) (pos + k)
        ≡ driver_after k (role_move top instrument (seen_body body.now) pos) }
{
    match body {
        Body::ScanIn { .. } | Body::ScanOut { .. } => 1,
        Body::DataIn { bound } => {
            if top {
                count
            } else {
                alike_refs(bound, pos, count)
            }
        }
        Body::DataOut { source } => alike_refs(source, pos, count),
        _ => count,
    }
}

/// How many bits from one on go on alike, of so many. Takes no memory.
#[tactic(auto, unfolding(crate::specs::Moves::driver_of))]
pub(crate) fn alike(wiring: &Wiring, wire: Wire, count: u32) -> u32
    requires wiring { IsWiring wiring.now }
    requires count { 1 ≤ count }
    ensures some { 1 ≤ result }
    ensures few { result ≤ count }
    ensures alike { AreAlike (cells_of wiring.now) wiring.now.entry wire result }
{
    if is_entry(wiring.entry, wire) {
        return count;
    }
    match part_at(wiring.hier, wire.cell, wire.part) {
        Some(part) => alike_in_role(is_top(wiring.hier, wire.cell), &part.body, wire.pos, count),
        None => count,
    }
}
