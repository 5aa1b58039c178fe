// Where the traces of the wired ports' bits end: those of bits side by side are followed at once, up to bits
// whose ends were found before.
ghost use Rattle.std.specs.Prelude.{◌≡◌, ◌≤◌, ◌+◌, min, IfOk, IfSome};
ghost use Rattle.icl_signals.specs.Wirings.{IsWiring, cells_of};
ghost use Rattle.icl_signals.specs.Found.{AreFoundFrom, AreFound, turned_end};

use crate::alike::alike;
use crate::entries::next;
use crate::following::{NextBit, one_move};
use crate::found::{Found, FoundRun, Note, known_end, same_wire, turned_end, with_note};
use crate::parts::{is_wired, width_of};
use crate::wires::{End, Wire};
use crate::wiring::Wiring;
use icl_elab::{Cell, Part};
use ij_bits::OutOfMemory;
use std::alloc::Global;

/// Where the traces of so many bits end that go on, after this many moves, with bits whose ends are known.
fn ends_after_moves(moves: u64, inverted: bool, count: u32, run: FoundRun) -> Option<FoundRun>
    ensures looks { IfSome result (λ r. r.found.looks ≡ moves + run.found.looks) }
    ensures end { IfSome result (λ r. r.found.end ≡ turned_end inverted run.found.end) }
    ensures count { IfSome result (λ r. r.count ≡ min count run.count) }
{
    Some(FoundRun {
        found: Found {
            looks: moves.checked_add(run.found.looks)?,
            end: turned_end(inverted, run.found.end),
        },
        count: count.min(run.count),
    })
}

/// Where the traces of bits from one on end, of so many. The bit after 1, 2, 4, 8 moves and so on is marked
/// in
/// turn: a trace that comes back meets the mark after at most three times as many moves as there are bits on
/// its way. Takes no memory.
fn find(wiring: &Wiring, ends: &[Option<Note>], start: Wire, count: u32) -> Option<FoundRun>
    requires wiring { IsWiring wiring.now }
    requires ends { AreFound (cells_of wiring.now) wiring.now.entry ends.now }
    requires count { 1 ≤ count }
    ensures { IfSome result (λ r. AreFoundFrom (cells_of wiring.now) wiring.now.entry start r) }
{
    let mut wire = start;
    let mut inverted = false;
    let mut count = count;
    let mut marked = start;
    let mut until = 1u64;
    for moves in 0..u64::MAX {
        if let Some(run) = known_end(wiring, ends, wire) {
            return ends_after_moves(moves, inverted, count, run);
        }
        count = alike(wiring, wire, count);
        match one_move(wiring, inverted, wire) {
            NextBit::Ended(end) => {
                return Some(FoundRun {
                    found: Found {
                        looks: moves + 1,
                        end,
                    },
                    count,
                });
            }
            NextBit::At {
                wire: other,
                inverted: turned,
            } => {
                if same_wire(other, marked) {
                    return Some(FoundRun {
                        found: Found {
                            looks: 0,
                            end: End::InLoop,
                        },
                        count,
                    });
                }
                if moves + 1 == until {
                    marked = other;
                    until = until.saturating_mul(2);
                }
                wire = other;
                inverted = turned;
            }
        }
    }
    None
}

/// The ends with those of the bits on the way of some traces, up to bits whose ends are known. A bit that
/// stands for no other one has no place in the table, and needs none.
fn add_ends_along(
    wiring: &Wiring,
    ends: Vec<Option<Note>>,
    start: Wire,
    run: FoundRun,
) -> Vec<Option<Note>>
    requires wiring { IsWiring wiring.now }
    requires ends { AreFound (cells_of wiring.now) wiring.now.entry ends.items }
    requires run { AreFoundFrom (cells_of wiring.now) wiring.now.entry start run }
    ensures { AreFound (cells_of wiring.now) wiring.now.entry result.items }
{
    let mut ends = ends;
    let mut wire = start;
    let mut run = run;
    for _bit in 0..wiring.looks {
        if known_end(wiring, ends.as_slice(), wire).is_some() {
            return ends;
        }
        let count = alike(wiring, wire, run.count);
        match one_move(wiring, false, wire) {
            NextBit::Ended(_) => return ends,
            NextBit::At {
                wire: other,
                inverted,
            } => {
                ends = with_note(wiring, ends, wire, run);
                wire = other;
                run = FoundRun {
                    found: Found {
                        looks: run.found.looks.saturating_sub(1),
                        end: turned_end(inverted, run.found.end),
                    },
                    count,
                };
            }
        }
    }
    ends
}

/// The ends of traces, and of how many bits more from the one that was asked for on.
#[derive(Drop)]
struct Added {
    /// The ends.
    ends: Vec<Option<Note>>,
    /// How many bits.
    count: u32,
}

/// The ends with those of the traces from a bit on, of so many, unless the bit's end is known.
fn add_trace_ends(wiring: &Wiring, ends: Vec<Option<Note>>, wire: Wire, count: u32) -> Added
    requires wiring { IsWiring wiring.now }
    requires ends { AreFound (cells_of wiring.now) wiring.now.entry ends.items }
    requires count { 1 ≤ count }
    ensures { AreFound (cells_of wiring.now) wiring.now.entry result.ends.items }
{
    match find(wiring, ends.as_slice(), wire, count) {
        Some(run) => Added {
            ends: add_ends_along(wiring, ends, wire, run),
            count: run.count,
        },
        None => Added { ends, count: 1 },
    }
}

/// The ends with those of the traces of a part's bits, if it is a wired port: a bit of another part is an
/// end.
fn add_from_part(
    wiring: &Wiring,
    ends: Vec<Option<Note>>,
    cell: u32,
    part: u32,
    what: &Part,
) -> Result<Vec<Option<Note>>, OutOfMemory>
    requires wiring { IsWiring wiring.now }
    requires ends { AreFound (cells_of wiring.now) wiring.now.entry ends.items }
    ensures { IfOk result (λ all. AreFound (cells_of wiring.now) wiring.now.entry all.items) }
{
    let mut ends = ends;
    if !is_wired(&what.body) {
        return Ok(ends);
    }
    let width = width_of(what)?;
    let mut pos = 0u32;
    for _bit in 0..width {
        if pos >= width {
            return Ok(ends);
        }
        let added = add_trace_ends(wiring, ends, Wire { cell, part, pos }, width - pos);
        ends = added.ends;
        pos = pos.saturating_add(added.count);
    }
    Ok(ends)
}

/// The ends with those of the traces of a cell's ports.
fn add_from_cell(
    wiring: &Wiring,
    ends: Vec<Option<Note>>,
    number: u32,
    cell: &Cell,
) -> Result<Vec<Option<Note>>, OutOfMemory>
    requires wiring { IsWiring wiring.now }
    requires ends { AreFound (cells_of wiring.now) wiring.now.entry ends.items }
    ensures { IfOk result (λ all. AreFound (cells_of wiring.now) wiring.now.entry all.items) }
{
    let mut ends = ends;
    let mut part = 0;
    for what in cell.parts.as_slice() {
        ends = add_from_part(wiring, ends, number, part, what)?;
        part = next(part)?;
    }
    Ok(ends)
}

/// Where the traces of the wired ports' bits end.
fn all_ends(alloc: Global, wiring: &Wiring) -> Result<Vec<Option<Note>>, OutOfMemory>
    requires { IsWiring wiring.now }
    ensures { IfOk result (λ all. AreFound (cells_of wiring.now) wiring.now.entry all.items) }
{
    let mut ends = vec![in alloc; None; wiring.places.count as usize]?;
    let mut number = 0;
    for cell in wiring.hier.cells.as_slice() {
        ends = add_from_cell(wiring, ends, number, cell)?;
        number = next(number)?;
    }
    Ok(ends)
}

/// What following a signal looks at, with where the traces of the wired ports' bits end.
pub(crate) fn with_ends<'a>(alloc: Global, wiring: Wiring<'a>) -> Result<Wiring<'a>, OutOfMemory>
    requires { IsWiring wiring }
    ensures is { IfOk result (λ g. IsWiring g) }
    ensures cells { IfOk result (λ g. cells_of g ≡ cells_of wiring.entry) }
    ensures entry { IfOk result (λ g. g.entry ≡ wiring.entry.entry) }
{
    let mut wiring = wiring;
    wiring.ends = all_ends(alloc, &wiring)?;
    Ok(wiring)
}
