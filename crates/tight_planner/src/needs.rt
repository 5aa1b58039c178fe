// What a round needs on the path.

use crate::access::{at, bit_at, copy_at, put_bit};
use crate::how::How;
use crate::stop::PlanStop;
use ij_bits::Bits;
use net_graph::Group;
use std::alloc::Global;

/// The segments that a round needs on the path.
#[derive(Drop)]
pub(crate) struct Needs {
    /// Those of the registers that its scan must have, each once.
    pub ends: Vec<usize>,
    /// Those that stay open for one scan more.
    pub kept: Vec<usize>,
}

/// Adds a segment, unless it was the last one that was added.
fn add_segment(list: &mut Vec<usize>, segment: usize) -> Result<(), PlanStop> {
    if list.last().copied() != Some(segment) {
        list.push(segment)?;
    }
    Ok(())
}

/// The segments in order, each once.
fn sort_and_dedup(alloc: Global, list: Vec<usize>) -> Result<Vec<usize>, PlanStop> {
    let mut sorted = list;
    sorted.sort()?;
    let mut once = Vec::new(alloc);
    for segment in &sorted {
        add_segment(&mut once, *segment)?;
    }
    Ok(once)
}

/// What a round needs, where the data bits hold these values before it.
pub(crate) fn needs_of(
    alloc: Global,
    of_reg: &[usize],
    group: &Group,
    meant: &[Bits],
    how: How,
) -> Result<Needs, PlanStop> {
    let mut ends = Vec::new(alloc);
    let mut kept = Vec::new(alloc);
    for write in group.writes.as_slice() {
        let segment = copy_at(of_reg, write.bit.reg as usize)?;
        let held = bit_at(at(meant, write.bit.reg as usize)?, write.bit.pos)?;
        if how != How::Lean || held != write.value {
            add_segment(&mut ends, segment)?;
        }
        if how == How::Late {
            add_segment(&mut kept, segment)?;
        }
    }
    for read in group.reads.as_slice() {
        add_segment(&mut ends, copy_at(of_reg, read.bit.reg as usize)?)?;
    }
    Ok(Needs {
        ends: sort_and_dedup(alloc, ends)?,
        kept: sort_and_dedup(alloc, kept)?,
    })
}

/// Gives the data bits the values that a round writes.
pub(crate) fn do_writes(meant: &mut [Bits], group: &Group) -> Result<(), PlanStop> {
    for write in group.writes.as_slice() {
        let reg = write.bit.reg as usize;
        if reg >= meant.len() {
            return Err(PlanStop::NoPlan);
        }
        put_bit(&mut meant[reg], write.bit.pos, write.value)?;
    }
    Ok(())
}
