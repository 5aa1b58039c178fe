// The rows of multiplexers that nobody asks for.

use crate::access::{at, copy_at, put_at};
use crate::segments::{MuxInfo, Segments, row_segment};
use crate::stop::PlanStop;
use crate::stretch::{Stretch, Want};
use crate::visits::{Visits, early_scan};

/// The place of the first want from this one on that asks for a row; their number where none does.
fn place_of_row(list: &[Want], from: usize, row: usize) -> usize {
    for i in from..list.len() {
        if list[i].row == row {
            return i;
        }
    }
    list.len()
}

/// How many scans from this one on ask for no row, up to the one that asks for the row with the fewest bits.
fn free_scans(list: &[Want], next: usize, rest_want: usize, scan: usize, scans: usize) -> u64 {
    let end = match list.get(rest_want) {
        Some(want) => want.scan,
        None => scans,
    };
    let others = rest_want.saturating_sub(next);
    end.saturating_sub(scan).saturating_sub(others) as u64
}

/// The row that a mux takes where nobody asks for one: that with the fewest bits, but a row that was never on
/// the path since the reset costs more at first, which pays only where it is used often enough.
pub(crate) fn rest_row(
    all: &Segments,
    stretch: &Stretch,
    visits: &mut Visits,
    m: usize,
    scan: usize,
) -> Result<usize, PlanStop> {
    let info = copy_at(&all.muxes, m)?;
    let rest = row_segment(&all.muxes, m, info.rest_row)?;
    let smallest = copy_at(&all.segments, rest)?;
    if copy_at(&visits.last, rest)?.is_some() || smallest.fresh == smallest.least {
        return Ok(info.rest_row);
    }
    let next = copy_at(&visits.next, m)?;
    let list = at(&stretch.wants, m)?;
    let from = copy_at(&visits.next_rest, m)?.max(next);
    let rest_want = place_of_row(list, from, info.rest_row);
    put_at(&mut visits.next_rest, m, rest_want)?;
    let times = free_scans(list, next, rest_want, scan, stretch.scans.len());
    let mut best = info.rest_row;
    let mut least = cost_of(all, visits, rest, times)?;
    for row in 0..info.rows {
        let cost = cost_of(all, visits, row_segment(&all.muxes, m, row)?, times)?;
        if cost < least {
            best = row;
            least = cost;
        }
    }
    Ok(best)
}

/// The bits of a segment in this many scans.
fn cost_of(all: &Segments, visits: &Visits, segment: usize, times: u64) -> Result<u64, PlanStop> {
    let it = copy_at(&all.segments, segment)?;
    let first = if copy_at(&visits.last, segment)?.is_some() {
        it.least
    } else {
        it.fresh
    };
    let later = it.least.saturating_mul(times.saturating_sub(1));
    Ok(first.saturating_add(later))
}

/// The row that a mux takes where nobody asks for one, and some of its select bits weren't on the path since
/// the reset.
pub(crate) fn early_rest(
    all: &Segments,
    visits: &Visits,
    m: usize,
    info: MuxInfo,
) -> Result<usize, PlanStop> {
    let mut best = copy_at(&visits.now, m)?;
    let mut least = at(&all.segments, row_segment(&all.muxes, m, best)?)?.fresh;
    for row in 0..info.rows {
        let fresh = at(&all.segments, row_segment(&all.muxes, m, row)?)?.fresh;
        if fresh < least && early_scan(all, visits, m, info, row)?.is_some() {
            best = row;
            least = fresh;
        }
    }
    Ok(best)
}
