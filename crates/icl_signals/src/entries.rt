// The parts of a kind in all cells, in the order of the cells and in a cell in that of the text.
ghost use Rattle.std.specs.Prelude.{◌≡◌, ◌+◌, ◌++◌, map, filter, Some, IfOk};
ghost use Rattle.icl_references.specs.Roles.{seen_part, seen_cell, seen_hier};
ghost use Rattle.icl_signals.specs.Moves.{entries_in};
ghost use Rattle.icl_signals.specs.Connecting.{entries_that, own_bits, parts_that};
ghost use Rattle.icl_signals.specs.Kinds.{test_of};
ghost use Rattle.icl_signals.specs.TrueEnds.{seen_entry};
ghost use Rattle.icl_signals.specs.Inside.{numbered};

use crate::parts::{Kind, is_of, width_of};
use icl_elab::{Cell, Hier, Part, Ref};
use ij_bits::OutOfMemory;
use ij_runs::Runs;
use std::alloc::Global;

/// A part with its number and that of its cell.
#[derive(Clone, Copy, Drop)]
pub struct PartAt<'a> {
    /// The cell, by its number.
    pub(crate) cell: u32,
    /// The part of that cell, by its number.
    pub(crate) part: u32,
    /// The part.
    pub(crate) what: &'a Part,
}

/// The next number, if there is one.
pub(crate) fn next(number: u32) -> Result<u32, OutOfMemory>
    ensures { IfOk result (λ n. n ≡ number + 1) }
{
    match number.checked_add(1) {
        Some(n) => Ok(n),
        None => Err(OutOfMemory),
    }
}

/// Parts with those of a kind in a cell after them.
fn add_from_cell<'a>(
    kind: Kind,
    number: u32,
    cell: &'a Cell,
    found: Vec<PartAt<'a>>,
) -> Result<Vec<PartAt<'a>>, OutOfMemory>
    ensures { IfOk result (λ all. map seen_entry all.items ≡ map seen_entry found.entry.items
        ++ filter (λ e. test_of kind e.what.role) (entries_in (number, seen_cell cell.now))) }
{
    let mut all = found;
    let mut part = 0;
    for what in cell.parts.as_slice() {
        if is_of(kind, &what.body) {
            all.push(PartAt {
                cell: number,
                part,
                what,
            })?;
        }
        part = next(part)?;
    }
    Ok(all)
}

/// The parts of a kind in all cells of a hierarchy.
pub(crate) fn entries_of<'a>(
    alloc: Global,
    kind: Kind,
    hier: &'a Hier,
) -> Result<Vec<PartAt<'a>>, OutOfMemory>
    ensures { IfOk result (λ all. map seen_entry all.items
        ≡ entries_that (test_of kind) (seen_hier hier.now)) }
{
    let mut all = Vec::new(alloc);
    let mut number = 0;
    for cell in hier.cells.as_slice() {
        all = add_from_cell(kind, number, cell, all)?;
        number = next(number)?;
    }
    Ok(all)
}

/// The parts of a kind in one cell.
pub(crate) fn entries_at<'a>(
    alloc: Global,
    kind: Kind,
    number: u32,
    cell: &'a Cell,
) -> Result<Vec<PartAt<'a>>, OutOfMemory>
    ensures { IfOk result (λ all. map (λ e. numbered (seen_entry e)) all.items
        ≡ parts_that (test_of kind) (seen_cell cell.now)) }
{
    let all = add_from_cell(kind, number, cell, Vec::new(alloc))?;
    Ok(all)
}

/// The bits of a part of this number in a cell of this number, position 0 first.
pub(crate) fn own_refs(
    alloc: Global,
    cell: u32,
    part: u32,
    what: &Part,
) -> Result<Runs<Ref>, OutOfMemory>
    ensures { IfOk result (λ refs. refs.items
        ≡ own_bits (record { cell = cell; part = part; what = seen_part what.now })) }
{
    let width = width_of(what)?;
    let mut refs = Runs::new(alloc);
    refs.push_run(
        Ref::Bit {
            cell,
            part,
            pos: 0,
            inverted: false,
        },
        width,
    )?;
    Ok(refs)
}

/// Bits one by one. Registers, selects and inputs of instruments have few.
pub(crate) fn listed(alloc: Global, refs: &Runs<Ref>) -> Result<Vec<Ref>, OutOfMemory>
    ensures { IfOk result (λ all. all.items ≡ refs.now.items) }
{
    let mut all = Vec::new(alloc);
    for i in 0..refs.len() {
        all.push(refs.get(i))?;
    }
    Ok(all)
}
