// How the rows of scan multiplexers are selected (IEEE 1687-2014, ICL: ScanMux .. SelectedBy, ResetValue).

use crate::access::{at, bit_at, copy_at};
use crate::segments::{OUTER, Segment};
use crate::stop::PlanStop;
use ij_bits::{Bits, Tern};
use net_graph::{BitId, Mux, Net, Row};
use std::alloc::Global;

/// How a row is selected.
#[derive(Drop)]
pub(crate) struct RowInfo {
    /// Its first select value, x as 0.
    pub value: Bits,
    /// The value that is reached first from reset: the bits that differ from those at reset stand least deep.
    pub first_value: Bits,
    /// The deepest segment with a bit of that value that differs from the one at reset.
    pub first_from: usize,
}

/// A select value, as it is reached from reset.
#[derive(Drop)]
struct Opening {
    value: Bits,
    from: usize,
    depth: usize,
}

/// The select bits of a mux at reset.
pub(crate) fn reset_select(alloc: Global, net: &Net, select: &[BitId]) -> Result<Bits, PlanStop> {
    let mut bits = Bits::zeros(alloc, 0)?;
    for bit in select {
        let reg = at(net.regs.as_slice(), bit.reg as usize)?;
        push_bit(&mut bits, bit_at(reg.reset.value.bits(), bit.pos)?)?;
    }
    Ok(bits)
}

/// Adds a bit.
fn push_bit(bits: &mut Bits, value: bool) -> Result<(), PlanStop> {
    if bits.len() == u32::MAX {
        return Err(PlanStop::NoPlan);
    }
    bits.push(value)?;
    Ok(())
}

/// A digit of a select value; `None` for x.
fn digit(value: &Tern, i: u32) -> Result<Option<bool>, PlanStop> {
    if i >= value.len() {
        return Err(PlanStop::NoPlan);
    }
    Ok(value.get(i))
}

/// The deepest of the segments that hold these bits.
pub(crate) fn deepest_segment(
    segments: &[Segment],
    of_reg: &[usize],
    select: &[BitId],
) -> Result<usize, PlanStop> {
    let mut deepest = OUTER;
    for bit in select {
        let s = copy_at(of_reg, bit.reg as usize)?;
        if at(segments, s)?.depth > at(segments, deepest)?.depth {
            deepest = s;
        }
    }
    Ok(deepest)
}

/// Whether a select value lists these bits.
fn value_lists_bits(value: &Tern, bits: &Bits) -> Result<bool, PlanStop> {
    for i in 0..bits.len() {
        let bit = bits.get(i);
        if digit(value, i)?.unwrap_or(bit) != bit {
            return Ok(false);
        }
    }
    Ok(true)
}

/// Whether a row lists these bits.
fn row_lists(row: &Row, bits: &Bits) -> Result<bool, PlanStop> {
    for value in row.values.as_slice() {
        if value_lists_bits(value, bits)? {
            return Ok(true);
        }
    }
    Ok(false)
}

/// The row of a mux at reset.
pub(crate) fn reset_row_of(mux: &Mux, at_reset: &Bits) -> Result<usize, PlanStop> {
    let mut number: usize = 0;
    for row in mux.rows.as_slice() {
        if row_lists(row, at_reset)? {
            return Ok(number);
        }
        number = number.saturating_add(1);
    }
    Err(PlanStop::NoPlan)
}

/// A select value with 0 for each x.
fn plain_value(alloc: Global, value: &Tern) -> Result<Bits, PlanStop> {
    let mut bits = Bits::zeros(alloc, 0)?;
    for i in 0..value.len() {
        push_bit(&mut bits, value.get(i).unwrap_or(false))?;
    }
    Ok(bits)
}

/// A select value with the bit at reset for each x, and from where it can be set.
fn opening_by(
    alloc: Global,
    segments: &[Segment],
    of_reg: &[usize],
    value: &Tern,
    select: &[BitId],
    at_reset: &Bits,
) -> Result<Opening, PlanStop> {
    let mut opening = Opening {
        value: Bits::zeros(alloc, 0)?,
        from: OUTER,
        depth: 0,
    };
    for i in 0..at_reset.len() {
        let bit = at_reset.get(i);
        let wanted = digit(value, i)?.unwrap_or(bit);
        push_bit(&mut opening.value, wanted)?;
        let s = copy_at(of_reg, at(select, i as usize)?.reg as usize)?;
        let depth = at(segments, s)?.depth;
        if wanted != bit && depth > opening.depth {
            opening.from = s;
            opening.depth = depth;
        }
    }
    Ok(opening)
}

/// How a row is selected.
pub(crate) fn row_info(
    alloc: Global,
    segments: &[Segment],
    of_reg: &[usize],
    row: &Row,
    select: &[BitId],
    at_reset: &Bits,
) -> Result<RowInfo, PlanStop> {
    let values = row.values.as_slice();
    let mut first = opening_by(alloc, segments, of_reg, at(values, 0)?, select, at_reset)?;
    for value in values {
        let other = opening_by(alloc, segments, of_reg, value, select, at_reset)?;
        if other.depth < first.depth {
            first = other;
        }
    }
    Ok(RowInfo {
        value: plain_value(alloc, at(values, 0)?)?,
        first_value: first.value,
        first_from: first.from,
    })
}
