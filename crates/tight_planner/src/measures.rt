// How many bits segments have on the path.

use crate::access::{at, copy_at, put_at};
use crate::segments::{MuxInfo, Segment, Segments, row_segment};
use crate::stop::PlanStop;

/// Finds the fewest bits of each segment and the rest row of each mux, the innermost ones first.
pub(crate) fn measured(all: &mut Segments) -> Result<(), PlanStop> {
    for s in 0..all.segments.len() {
        let mut segment = copy_at(&all.segments, s)?;
        segment.least = segment.width;
        segment.fresh = segment.width;
        put_at(&mut all.segments, s, segment)?;
    }
    for depth in (0..17).rev() {
        measure_depth(all, depth)?;
    }
    Ok(())
}

/// Measures the muxes that are in this many rows.
fn measure_depth(all: &mut Segments, depth: usize) -> Result<(), PlanStop> {
    for m in 0..all.muxes.len() {
        let info = copy_at(&all.muxes, m)?;
        if at(&all.segments, info.home)?.depth == depth {
            measure_mux(all, m, info)?;
        }
    }
    Ok(())
}

/// The row of a mux with the fewest bits; the row at reset first, then the first ones.
fn smallest_row(all: &Segments, m: usize, info: MuxInfo) -> Result<usize, PlanStop> {
    let mut best = info.reset_row;
    let mut least = at(&all.segments, row_segment(&all.muxes, m, best)?)?.least;
    for row in 0..info.rows {
        let bits = at(&all.segments, row_segment(&all.muxes, m, row)?)?.least;
        if bits < least {
            best = row;
            least = bits;
        }
    }
    Ok(best)
}

/// Measures a mux whose rows are measured, and adds its bits to the segment that it is in.
fn measure_mux(all: &mut Segments, m: usize, found: MuxInfo) -> Result<(), PlanStop> {
    let mut info = found;
    info.rest_row = smallest_row(all, m, info)?;
    put_at(&mut all.muxes, m, info)?;
    let rest = copy_at(&all.segments, row_segment(&all.muxes, m, info.rest_row)?)?;
    let reset = copy_at(&all.segments, row_segment(&all.muxes, m, info.reset_row)?)?;
    let outside = at(&all.segments, info.set_from)?.depth < at(&all.segments, info.home)?.depth;
    let mut home = copy_at(&all.segments, info.home)?;
    home.least = home.least.saturating_add(rest.least);
    home.fresh = home
        .fresh
        .saturating_add(bits_at_first_visit(rest, reset, outside));
    put_at(&mut all.segments, info.home, home)?;
    if rest.fresh != rest.least {
        all.uneven = true;
    }
    Ok(())
}

/// The bits of a mux whose segment is on the path for the first time: it is in any row if it was set from
/// outside.
fn bits_at_first_visit(rest: Segment, reset: Segment, outside: bool) -> u64 {
    if outside { rest.fresh } else { reset.fresh }
}
