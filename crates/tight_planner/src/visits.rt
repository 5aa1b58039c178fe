// Which select values the scans write: a multiplexer is set to its next row by the scan that had its select
// bits on the path last.

use crate::access::{at, copy_at, put_at};
use crate::openings::row_wanted;
use crate::rest::{early_rest, rest_row};
use crate::segments::{MuxInfo, OUTER, Segments, row_segment};
use crate::stop::PlanStop;
use crate::stretch::{Set, Stretch};
use std::alloc::Global;

/// What was on the path so far.
#[derive(Drop)]
pub(crate) struct Visits {
    /// The row of each mux, as it was set last.
    pub now: Vec<usize>,
    /// The last scan with each segment on its path.
    pub last: Vec<Option<usize>>,
    /// And the one before.
    pub before: Vec<Option<usize>>,
    /// The next want of each mux.
    pub next: Vec<usize>,
    /// The next want of each mux that asks for its row with the fewest bits, as far as it was looked for.
    pub next_rest: Vec<usize>,
    /// The bits of all scans.
    pub bits: u64,
}

/// The row that a mux takes, and how it is set to it.
#[derive(Clone, Copy, Drop)]
struct Choice {
    row: usize,
    /// The scan that can set it.
    scan: Option<usize>,
    /// As of [`Set`].
    early: bool,
}

impl Visits {
    /// At reset.
    fn new(alloc: Global, all: &Segments) -> Result<Visits, PlanStop> {
        let mut now = Vec::new(alloc);
        for info in &all.muxes {
            now.push(info.reset_row)?;
        }
        Ok(Visits {
            now,
            last: vec![in alloc; None; all.segments.len()]?,
            before: vec![in alloc; None; all.segments.len()]?,
            next: vec![in alloc; 0; all.muxes.len()]?,
            next_rest: vec![in alloc; 0; all.muxes.len()]?,
            bits: 0,
        })
    }

    /// A scan has a segment on its path.
    fn enter(&mut self, all: &Segments, segment: usize, scan: usize) -> Result<(), PlanStop> {
        let last = copy_at(&self.last, segment)?;
        put_at(&mut self.before, segment, last)?;
        put_at(&mut self.last, segment, Some(scan))?;
        self.bits = self.bits.saturating_add(at(&all.segments, segment)?.width);
        Ok(())
    }
}

impl Stretch {
    /// Finds the select values of all scans: the better of two ways to treat rows that were never on the
    /// path.
    pub fn settle(&mut self, all: &Segments) -> Result<(), PlanStop> {
        if all.uneven {
            let wary = self.visit_all(all, true)?;
            let plain = self.visit_all(all, false)?;
            if wary < plain {
                self.visit_all(all, true)?;
            }
        } else {
            self.visit_all(all, false)?;
        }
        Ok(())
    }

    /// Finds the select values of all scans. Answers the bits that these shift.
    fn visit_all(&mut self, all: &Segments, wary: bool) -> Result<u64, PlanStop> {
        for i in 0..self.scans.len() {
            self.clear_sets(i)?;
        }
        let mut visits = Visits::new(self.alloc, all)?;
        for t in 0..self.scans.len() {
            self.visit_path(all, &mut visits, t, wary)?;
        }
        Ok(visits.bits)
    }

    /// A scan sets nothing yet.
    fn clear_sets(&mut self, scan: usize) -> Result<(), PlanStop> {
        if scan >= self.scans.len() {
            return Err(PlanStop::NoPlan);
        }
        self.scans[scan].sets.clear();
        Ok(())
    }

    /// A scan writes a select value.
    fn add_set(&mut self, scan: usize, set: Set) -> Result<(), PlanStop> {
        if scan >= self.scans.len() {
            return Err(PlanStop::NoPlan);
        }
        self.scans[scan].sets.push(set)?;
        Ok(())
    }

    /// Goes over what is on the path of a scan.
    fn visit_path(
        &mut self,
        all: &Segments,
        visits: &mut Visits,
        scan: usize,
        wary: bool,
    ) -> Result<(), PlanStop> {
        let mut todo = vec![in self.alloc; OUTER]?;
        for _ in 0..all.segments.len() {
            let Some(s) = todo.pop() else {
                return Ok(());
            };
            visits.enter(all, s, scan)?;
            for m in at(&all.inner, s)? {
                todo.push(self.visit_mux(all, visits, *m, scan, wary)?)?;
            }
        }
        Ok(())
    }

    /// Finds the row of a mux on the path of a scan. Answers its segment.
    fn visit_mux(
        &mut self,
        all: &Segments,
        visits: &mut Visits,
        m: usize,
        scan: usize,
        wary: bool,
    ) -> Result<usize, PlanStop> {
        let next = copy_at(&visits.next, m)?;
        let wanted = row_wanted(at(&self.wants, m)?, next, scan);
        let choice = self.choice(all, visits, m, wanted, scan, wary)?;
        if choice.row != copy_at(&visits.now, m)? {
            let set = Set {
                mux: m,
                row: choice.row,
                early: choice.early,
            };
            self.add_set(choice.scan.ok_or(PlanStop::NoPlan)?, set)?;
            put_at(&mut visits.now, m, choice.row)?;
        }
        if wanted.is_some() {
            put_at(&mut visits.next, m, next.saturating_add(1))?;
        }
        row_segment(&all.muxes, m, choice.row)
    }

    /// The row that a mux takes at a scan: the one that is wanted, or else a small one.
    fn choice(
        &self,
        all: &Segments,
        visits: &mut Visits,
        m: usize,
        wanted: Option<usize>,
        scan: usize,
        wary: bool,
    ) -> Result<Choice, PlanStop> {
        let info = copy_at(&all.muxes, m)?;
        if let Some(setter) = copy_at(&visits.before, info.set_from)? {
            let row = match wanted {
                Some(row) => row,
                None if wary => rest_row(all, self, visits, m, scan)?,
                None => info.rest_row,
            };
            return Ok(Choice {
                row,
                scan: Some(setter),
                early: false,
            });
        }
        let row = match wanted {
            Some(row) => row,
            None => early_rest(all, visits, m, info)?,
        };
        Ok(Choice {
            row,
            scan: early_scan(all, visits, m, info, row)?,
            early: true,
        })
    }
}

/// The last scan that can set a mux of which some select bits weren't on the path since the reset.
pub(crate) fn early_scan(
    all: &Segments,
    visits: &Visits,
    m: usize,
    info: MuxInfo,
    row: usize,
) -> Result<Option<usize>, PlanStop> {
    let other = if row == info.reset_row {
        copy_at(&visits.now, m)?
    } else {
        row
    };
    let segment = row_segment(&all.muxes, m, other)?;
    copy_at(&visits.before, at(&all.rows, segment)?.first_from)
}
