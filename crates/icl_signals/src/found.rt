// Ends of traces that were found, each in a table at a place of its bit.
ghost use Rattle.std.specs.Prelude.{◌≡◌, ◌≤◌, ◌+◌, ℕ, true, IfSome};
ghost use Rattle.icl_signals.specs.Wirings.{cells_of};
ghost use Rattle.icl_signals.specs.Found.{AreFoundFrom, AreFound, found_after, turned_end};
ghost use Rattle.icl_signals.specs.Alike.{end_after, wire_after};

use crate::following::flipped;
use crate::places::place_of;
use crate::wires::{End, Wire};
use crate::wiring::Wiring;

/// Where the trace of a bit ends.
#[derive(Clone, Copy, Drop)]
pub struct Found {
    /// At how many bits it looks, at most.
    pub(crate) looks: u64,
    /// Its end.
    pub(crate) end: End,
}

/// Where the traces of bits side by side end, so side by side.
#[derive(Clone, Copy, Drop)]
pub struct FoundRun {
    /// Where that of the first one ends.
    pub(crate) found: Found,
    /// How many there are.
    pub(crate) count: u32,
}

/// A bit, and where its trace and those of the bits after it end.
#[derive(Clone, Copy, Drop)]
pub struct Note {
    /// The bit.
    pub(crate) wire: Wire,
    /// Where the traces end.
    pub(crate) run: FoundRun,
}

pub(crate) fn same_wire(a: Wire, b: Wire) -> bool
    ensures { result ≡ true → a ≡ b }
{
    a.cell == b.cell && a.part == b.part && a.pos == b.pos
}

/// An end, or that of the inverse.
pub(crate) fn turned_end(turned: bool, end: End) -> End
    ensures { result ≡ turned_end turned end }
{
    match end {
        End::AtConstant(b) => End::AtConstant(flipped(turned, b)),
        End::AtBit {
            wire,
            inverted,
            stands,
        } => End::AtBit {
            wire,
            inverted: flipped(turned, inverted),
            stands,
        },
        End::InLoop => End::InLoop,
    }
}

/// An end so many positions after one, if they can be counted.
fn end_after(end: End, n: u32) -> Option<End>
    ensures { IfSome result (λ e. e ≡ end_after n end) }
{
    match end {
        End::AtBit {
            wire,
            inverted,
            stands,
        } => Some(End::AtBit {
            wire: Wire {
                cell: wire.cell,
                part: wire.part,
                pos: wire.pos.checked_add(n)?,
            },
            inverted,
            stands,
        }),
        other => Some(other),
    }
}

/// The part of a note that is of a bit and those after it, if it is of them. Takes no memory.
fn part_from(note: &Note, wire: Wire) -> Option<FoundRun>
    ensures count { IfSome result (λ r. 1 ≤ r.count) }
    ensures each { IfSome result (λ r. (n : ℕ) × (wire ≡ wire_after n note.now.wire)
        × (n + r.count ≡ note.now.run.count) × (r.found ≡ found_after n note.now.run.found)) }
{
    let from = note.wire;
    if wire.cell != from.cell || wire.part != from.part || wire.pos < from.pos {
        return None;
    }
    let n = wire.pos - from.pos;
    if n >= note.run.count {
        return None;
    }
    Some(FoundRun {
        found: Found {
            looks: note.run.found.looks,
            end: end_after(note.run.found.end, n)?,
        },
        count: note.run.count - n,
    })
}

/// What a note says of a bit and those after it, if it is of them. Takes no memory.
fn noted(wiring: &Wiring, note: &Note, wire: Wire) -> Option<FoundRun>
    requires { AreFoundFrom (cells_of wiring.now) wiring.now.entry note.now.wire note.now.run }
    ensures { IfSome result (λ r. AreFoundFrom (cells_of wiring.now) wiring.now.entry wire r) }
{
    let _of = wiring;
    part_from(note, wire)
}

/// Where the traces of a bit and those after it end, if that was found. Takes no memory.
pub(crate) fn known_end(wiring: &Wiring, ends: &[Option<Note>], wire: Wire) -> Option<FoundRun>
    requires { AreFound (cells_of wiring.now) wiring.now.entry ends.now }
    ensures { IfSome result (λ r. AreFoundFrom (cells_of wiring.now) wiring.now.entry wire r) }
{
    match ends.get(place_of(&wiring.places, wire)) {
        Some(Some(note)) => noted(wiring, note, wire),
        _ => None,
    }
}

/// The ends with those of some bits more, if the table has a place for them.
pub(crate) fn with_note(
    wiring: &Wiring,
    ends: Vec<Option<Note>>,
    wire: Wire,
    run: FoundRun,
) -> Vec<Option<Note>>
    requires ends { AreFound (cells_of wiring.now) wiring.now.entry ends.items }
    requires run { AreFoundFrom (cells_of wiring.now) wiring.now.entry wire run }
    ensures { AreFound (cells_of wiring.now) wiring.now.entry result.items }
{
    let mut ends = ends;
    let place = place_of(&wiring.places, wire);
    if place < ends.len() {
        ends[place] = Some(Note { wire, run });
    }
    ends
}
