// The numbers of registers, multiplexers, things, instruments and their outputs: for each, how many of its
// kind stand before.
ghost use Rattle.std.specs.Prelude.{◌≡◌, ◌+◌, map, get_or, IfOk};
ghost use Rattle.icl_references.specs.Roles.{seen_part, seen_cell};
ghost use Rattle.icl_signals.specs.Kinds.{is_of, one_if, before, with_all, numbers_from, number_at};

use crate::parts::{Kind, is_of};
use icl_elab::{Cell, Part};
use ij_bits::OutOfMemory;
use std::alloc::Global;

/// One more, if there is room for it.
fn count_if(count: u32, is_one: bool) -> Result<u32, OutOfMemory>
    ensures { IfOk result (λ next. next ≡ count + one_if is_one) }
{
    if !is_one {
        return Ok(count);
    }
    match count.checked_add(1) {
        Some(next) => Ok(next),
        None => Err(OutOfMemory),
    }
}

/// For each part how many of a kind stand before it, and how many there are after the last one.
#[derive(Drop)]
pub(crate) struct Before {
    /// For each part.
    numbers: Vec<u32>,
    /// After the last one.
    count: u32,
}

fn counts_before(
    alloc: Global,
    kind: Kind,
    count: u32,
    parts: &[Part],
) -> Result<Before, OutOfMemory>
    ensures numbers { IfOk result
        (λ f. f.numbers.items ≡ before (is_of kind) count (map seen_part parts.now)) }
    ensures count { IfOk result (λ f. f.count ≡ with_all (is_of kind) count (map seen_part parts.now)) }
{
    let mut numbers = Vec::new(alloc);
    let mut next = count;
    for part in parts {
        numbers.push(next)?;
        next = count_if(next, is_of(kind, &part.body))?;
    }
    Ok(Before {
        numbers,
        count: next,
    })
}

/// For each part of each cell how many of a kind stand before it in the hierarchy.
pub(crate) fn parts_of_kind_before(
    alloc: Global,
    kind: Kind,
    cells: &[Cell],
) -> Result<Vec<Vec<u32>>, OutOfMemory>
    ensures { IfOk result (λ table. map (λ row. row.items) table.items
        ≡ numbers_from kind 0 (map seen_cell cells.now)) }
{
    let mut table = Vec::new(alloc);
    let mut count = 0;
    for cell in cells {
        let found = counts_before(alloc, kind, count, cell.parts.as_slice())?;
        count = found.count;
        table.push(found.numbers)?;
    }
    Ok(table)
}

/// For each part of each cell how many outputs stand before it in that cell.
pub(crate) fn outputs_before(alloc: Global, cells: &[Cell]) -> Result<Vec<Vec<u32>>, OutOfMemory>
    ensures { IfOk result (λ table. map (λ row. row.items) table.items
        ≡ map (λ c. before (is_of Kind.Output) 0 c.parts) (map seen_cell cells.now)) }
{
    let mut table = Vec::new(alloc);
    for cell in cells {
        let found = counts_before(alloc, Kind::Output, 0, cell.parts.as_slice())?;
        table.push(found.numbers)?;
    }
    Ok(table)
}

/// For each cell how many instruments stand before it.
pub(crate) fn instruments_before(alloc: Global, flags: &[bool]) -> Result<Vec<u32>, OutOfMemory>
    ensures { IfOk result (λ numbers. numbers.items ≡ before (λ b. b) 0 flags.now) }
{
    let mut numbers = Vec::new(alloc);
    let mut next = 0;
    for flag in flags {
        numbers.push(next)?;
        next = count_if(next, *flag)?;
    }
    Ok(numbers)
}

/// The number of a cell, 0 for one that isn't there. Takes no memory.
pub(crate) fn number_of(numbers: &[u32], cell: u32) -> u32
    ensures { result ≡ get_or numbers.now cell 0 }
{
    match numbers.get(cell as usize) {
        Some(number) => *number,
        None => 0,
    }
}

/// The number at a part, 0 for one that isn't there. Takes no memory.
pub(crate) fn number_at(table: &[Vec<u32>], cell: u32, part: u32) -> u32
    ensures { result ≡ number_at (map (λ row. row.items) table.now) cell part }
{
    match table.get(cell as usize) {
        Some(row) => match row.get(part as usize) {
            Some(number) => *number,
            None => 0,
        },
        None => 0,
    }
}
