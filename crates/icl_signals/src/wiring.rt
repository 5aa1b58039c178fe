// What following a signal looks at.
ghost use Rattle.std.specs.Prelude.{◌≡◌, ◌+◌, map, sum_by, IfOk};
ghost use Rattle.icl_references.specs.Roles.{part_width, seen_part, seen_cell, seen_hier};
ghost use Rattle.icl_signals.specs.Wirings.{IsWiring, cells_of};
ghost use Rattle.icl_signals.specs.Kinds.{before, is_of, numbers_from};
ghost use Rattle.icl_signals.specs.Traces.{signal_bits};

use crate::found::Note;
use crate::numbers::{instruments_before, outputs_before, parts_of_kind_before};
use crate::parts::{Kind, instrument_flags, width};
use crate::places::{Places, places_of};
use crate::wires::Wire;
use icl_elab::{Cell, Hier, Part};
use ij_bits::{OutOfMemory, pair_if_ok};
use std::alloc::Global;

/// What following a signal looks at, made once for a network.
#[derive(Drop)]
pub struct Wiring<'a> {
    /// The hierarchy.
    pub(crate) hier: &'a Hier,
    /// Which of its cells are instruments.
    pub(crate) instruments: Vec<bool>,
    /// For each cell how many instruments stand before it.
    pub(crate) instrument_numbers: Vec<u32>,
    /// For each part of each cell how many registers come before it.
    pub(crate) registers: Vec<Vec<u32>>,
    /// The same of multiplexers.
    pub(crate) muxes: Vec<Vec<u32>>,
    /// The same of what procedures may name.
    pub(crate) things: Vec<Vec<u32>>,
    /// For each part of each cell how many outputs stand before it in that cell.
    pub(crate) outputs: Vec<Vec<u32>>,
    /// Where the network begins.
    pub(crate) entry: Wire,
    /// How many bits a trace looks at until it must have come back to one.
    pub(crate) looks: u64,
    /// Places for the bits of wired ports.
    pub(crate) places: Places,
    /// Where traces of bits of wired ports end, each at its bit's place: none at first.
    pub(crate) ends: Vec<Option<Note>>,
}

/// More bits, if this many can be counted.
fn checked_sum(count: u64, bits: u64) -> Result<u64, OutOfMemory>
    ensures { IfOk result (λ sum. sum ≡ count + bits) }
{
    match count.checked_add(bits) {
        Some(sum) => Ok(sum),
        None => Err(OutOfMemory),
    }
}

/// A count with the bits of some parts.
fn with_parts(count: u64, parts: &[Part]) -> Result<u64, OutOfMemory>
    ensures { IfOk result (λ sum. sum ≡ count + sum_by part_width (map seen_part parts.now)) }
{
    let mut sum = count;
    for part in parts {
        sum = checked_sum(sum, width(part))?;
    }
    Ok(sum)
}

/// How many signal bits there are.
fn count_bits(cells: &[Cell]) -> Result<u64, OutOfMemory>
    ensures { IfOk result (λ sum. sum ≡ signal_bits (map seen_cell cells.now)) }
{
    let mut sum = 0;
    for cell in cells {
        sum = with_parts(sum, cell.parts.as_slice())?;
    }
    Ok(sum)
}

/// The numbers of parts.
#[derive(Drop)]
struct PartNumbers {
    /// For each part of each cell how many registers come before it.
    registers: Vec<Vec<u32>>,
    /// The same of multiplexers.
    muxes: Vec<Vec<u32>>,
    /// The same of what procedures may name.
    things: Vec<Vec<u32>>,
    /// For each part of each cell how many outputs stand before it in that cell.
    outputs: Vec<Vec<u32>>,
}

/// The numbers of the parts of these cells.
fn part_numbers(alloc: Global, cells: &[Cell]) -> Result<PartNumbers, OutOfMemory>
    ensures registers { IfOk result (λ n. map (λ row. row.items) n.registers.items
        ≡ numbers_from Kind.Register 0 (map seen_cell cells.now)) }
    ensures muxes { IfOk result
        (λ n. map (λ row. row.items) n.muxes.items ≡ numbers_from Kind.Mux 0 (map seen_cell cells.now)) }
    ensures things { IfOk result
        (λ n. map (λ row. row.items) n.things.items ≡ numbers_from Kind.Thing 0 (map seen_cell cells.now)) }
    ensures outputs { IfOk result (λ n. map (λ row. row.items) n.outputs.items
        ≡ map (λ c. before (is_of Kind.Output) 0 c.parts) (map seen_cell cells.now)) }
{
    let registers = parts_of_kind_before(alloc, Kind::Register, cells)?;
    let (registers, muxes) = pair_if_ok(registers, parts_of_kind_before(alloc, Kind::Mux, cells))?;
    let things = pair_if_ok(muxes, parts_of_kind_before(alloc, Kind::Thing, cells));
    let (registers, (muxes, things)) = pair_if_ok(registers, things)?;
    let outputs = pair_if_ok(things, outputs_before(alloc, cells));
    let (registers, (muxes, (things, outputs))) = pair_if_ok(
        registers,
        pair_if_ok(muxes, outputs),
    )?;
    Ok(PartNumbers {
        registers,
        muxes,
        things,
        outputs,
    })
}

/// What following a signal of a hierarchy looks at, where the network begins at `entry`. No trace is followed
/// yet.
pub(crate) fn wiring_of<'a>(
    alloc: Global,
    hier: &'a Hier,
    entry: Wire,
) -> Result<Wiring<'a>, OutOfMemory>
    ensures is { IfOk result (λ g. IsWiring g) }
    ensures cells { IfOk result (λ g. cells_of g ≡ seen_hier hier.now) }
    ensures entry { IfOk result (λ g. g.entry ≡ entry) }
{
    let cells = hier.cells.as_slice();
    let looks = checked_sum(count_bits(cells)?, 1)?;
    let instruments = instrument_flags(alloc, cells)?;
    let numbers = instruments_before(alloc, instruments.as_slice());
    let (instruments, numbers) = pair_if_ok(instruments, numbers)?;
    let parts = pair_if_ok(numbers, part_numbers(alloc, cells));
    let (instruments, (numbers, parts)) = pair_if_ok(instruments, parts)?;
    let places = pair_if_ok(parts, places_of(alloc, cells));
    let (instruments, (numbers, (parts, places))) = pair_if_ok(
        instruments,
        pair_if_ok(numbers, places),
    )?;
    Ok(Wiring {
        hier,
        instruments,
        instrument_numbers: numbers,
        registers: parts.registers,
        muxes: parts.muxes,
        things: parts.things,
        outputs: parts.outputs,
        entry,
        looks,
        places,
        ends: Vec::new(alloc),
    })
}
