// Places in a table for the bits of wired ports. An entry of the table says which bits it is of, so no answer
// depends on these numbers, and none of them is in a contract.

use crate::parts::{is_wired, width};
use crate::wires::Wire;
use icl_elab::{Cell, Part};
use ij_bits::OutOfMemory;
use std::alloc::Global;

/// The most places where each bit has one.
const MOST: u64 = 1 << 18;

/// How many places a port has where not each bit has one: its bits share them.
const SHARED: u64 = 4;

/// The places of a part.
#[derive(Clone, Copy, Drop)]
struct PartPlaces {
    /// The first one.
    first: u32,
    /// How many there are.
    count: u32,
}

/// Places for the bits of wired ports.
#[derive(Drop)]
pub struct Places {
    /// Those of each part of each cell.
    parts: Vec<Vec<PartPlaces>>,
    /// How many there are.
    pub(crate) count: u32,
}

/// How many bits a wired port has, none where a part isn't one.
fn wired_bits(part: &Part) -> u64 {
    if is_wired(&part.body) { width(part) } else { 0 }
}

/// How many bits the wired ports of a cell have.
fn bits_in(cell: &Cell) -> u64 {
    let mut bits = 0u64;
    for part in cell.parts.as_slice() {
        bits = bits.saturating_add(wired_bits(part));
    }
    bits
}

/// How many places a port has at most.
fn most_of_a_port(cells: &[Cell]) -> u64 {
    let mut bits = 0u64;
    for cell in cells {
        bits = bits.saturating_add(bits_in(cell));
    }
    if bits <= MOST { MOST } else { SHARED }
}

/// The places of a cell's parts, after so many others.
fn places_in(
    alloc: Global,
    before: u32,
    most: u64,
    cell: &Cell,
) -> Result<Vec<PartPlaces>, OutOfMemory> {
    let mut places = Vec::new(alloc);
    let mut first = before;
    for part in cell.parts.as_slice() {
        let count = u32::try_from(wired_bits(part).min(most)).unwrap_or(u32::MAX);
        places.push(PartPlaces { first, count })?;
        match first.checked_add(count) {
            Some(next) => first = next,
            None => return Err(OutOfMemory),
        }
    }
    Ok(places)
}

/// The number of the first place after those of a cell.
fn end_of(places: &[PartPlaces], before: u32) -> u32 {
    match places.last() {
        Some(last) => last.first.saturating_add(last.count),
        None => before,
    }
}

/// Places for the bits of all wired ports.
pub(crate) fn places_of(alloc: Global, cells: &[Cell]) -> Result<Places, OutOfMemory> {
    let most = most_of_a_port(cells);
    let mut parts = Vec::new(alloc);
    let mut count = 0;
    for cell in cells {
        let places = places_in(alloc, count, most, cell)?;
        count = end_of(places.as_slice(), count);
        parts.push(places)?;
    }
    Ok(Places { parts, count })
}

/// The place of a bit of a wired port. Takes no memory.
pub(crate) fn place_of(places: &Places, wire: Wire) -> usize {
    let Some(row) = places.parts.get(wire.cell as usize) else {
        return usize::MAX;
    };
    match row.get(wire.part as usize) {
        Some(part) => {
            if part.count == 0 {
                usize::MAX
            } else {
                part.first as usize + (wire.pos % part.count) as usize
            }
        }
        None => usize::MAX,
    }
}
