// First openings: which scans have which rows on their path, so that what is in them can be set at all.

use crate::access::{at, copy_at, put_at};
use crate::segments::Segments;
use crate::stop::PlanStop;
use crate::stretch::{Stretch, Want};
use std::alloc::Global;

/// What can't be.
const FAR: u64 = u64::MAX;

/// The clocks of a scan beside its bits.
const SCAN_CLOCKS: u64 = 5;

/// The way to a segment.
#[derive(Drop)]
struct Opening {
    /// The segments around and with it, outermost first.
    chain: Vec<usize>,
    /// This many of these must be on the path at some scan, later this many, and so on, before all can be.
    levels: Vec<usize>,
}

/// The cheapest scans of one level.
#[derive(Drop)]
struct OpeningLevel {
    /// For each scan, the cost of having this level and those before it on the path by then.
    best: Vec<u64>,
    /// And the scan of the level before.
    from: Vec<usize>,
}

/// How many of these segments must be on the path so that all of them can be; `None` where reset selects
/// them.
fn level_before(all: &Segments, chain: &[usize], count: usize) -> Result<Option<usize>, PlanStop> {
    let mut deepest = None;
    for s in chain.iter().take(count) {
        let it = copy_at(&all.segments, *s)?;
        if it.row != at(&all.muxes, it.mux)?.reset_row {
            let depth = at(&all.segments, at(&all.rows, *s)?.first_from)?.depth;
            deepest = Some(depth.max(deepest.unwrap_or(0)));
        }
    }
    Ok(deepest)
}

/// The levels of a chain, the first to be on the path first.
fn levels_of(alloc: Global, all: &Segments, chain: &[usize]) -> Result<Vec<usize>, PlanStop> {
    let mut levels = Vec::new(alloc);
    let mut count = chain.len();
    for _ in 0..17 {
        match level_before(all, chain, count)? {
            None => {
                levels.reverse();
                return Ok(levels);
            }
            Some(before) => {
                levels.push(before)?;
                count = before;
            }
        }
    }
    Err(PlanStop::NoPlan)
}

/// The next level, where these are the costs of the level before and those of having this one on the path.
fn next_level(
    alloc: Global,
    before: Option<&[u64]>,
    costs: &[u64],
) -> Result<OpeningLevel, PlanStop> {
    let mut level = OpeningLevel {
        best: Vec::new(alloc),
        from: Vec::new(alloc),
    };
    let mut least = if before.is_some() { FAR } else { 0 };
    let mut from = 0;
    for t in 0..costs.len() {
        level.best.push(least.saturating_add(costs[t]))?;
        level.from.push(from)?;
        if let Some(earlier) = before {
            let cost = copy_at(earlier, t)?;
            if cost < least {
                least = cost;
                from = t;
            }
        }
    }
    Ok(level)
}

/// The first scan of the least cost.
fn cheapest(costs: &[u64]) -> Result<usize, PlanStop> {
    let mut best = FAR;
    let mut scan = 0;
    for t in 0..costs.len() {
        if costs[t] < best {
            best = costs[t];
            scan = t;
        }
    }
    if best == FAR {
        return Err(PlanStop::NoPlan);
    }
    Ok(scan)
}

/// The scan of each level, the first level first, where this is the scan of the last one.
fn trace_scans(
    alloc: Global,
    levels: &[OpeningLevel],
    last: usize,
) -> Result<Vec<usize>, PlanStop> {
    let mut scans = Vec::new(alloc);
    let mut scan = last;
    for i in (0..levels.len()).rev() {
        scans.push(scan)?;
        scan = copy_at(&levels[i].from, scan)?;
    }
    scans.reverse();
    Ok(scans)
}

/// The row that is wanted at a scan, if the next want is of that scan.
pub(crate) fn row_wanted(list: &[Want], next: usize, scan: usize) -> Option<usize> {
    match list.get(next) {
        Some(want) if want.scan == scan => Some(want.row),
        _ => None,
    }
}

impl Stretch {
    /// Sees to it that each of these segments can be on the path of the next scan.
    pub fn prepare_all(&mut self, all: &Segments, ends: &[usize]) -> Result<(), PlanStop> {
        let mut openings = Vec::new(self.alloc);
        for end in ends {
            if !copy_at(&self.opened, *end)? {
                let chain = all.chain(self.alloc, *end)?;
                let levels = levels_of(self.alloc, all, &chain)?;
                openings.push(Opening { chain, levels })?;
            }
        }
        for count in (1..17).rev() {
            for opening in &openings {
                if opening.levels.len() == count {
                    self.prepare(all, opening)?;
                }
            }
        }
        Ok(())
    }

    /// Whether this many segments of a chain are on the path of some scan.
    fn is_opened(&self, chain: &[usize], count: usize) -> Result<bool, PlanStop> {
        if self.scans.is_empty() {
            return Ok(false);
        }
        match count.checked_sub(1) {
            None => Ok(true),
            Some(last) => copy_at(&self.opened, copy_at(chain, last)?),
        }
    }

    /// Sees to it that a segment can be on the path of the next scan.
    fn prepare(&mut self, all: &Segments, opening: &Opening) -> Result<(), PlanStop> {
        let Some(deepest) = opening.levels.last().copied() else {
            return Ok(());
        };
        if self.is_opened(&opening.chain, deepest)? {
            return Ok(());
        }
        let scans = self.opening_scans(all, opening)?;
        let last = scans.last().copied().ok_or(PlanStop::NoPlan)?;
        for _ in 0..opening.levels.len() {
            if last >= self.scans.len() {
                self.add_scan(all, None)?;
            }
        }
        for (scan, count) in scans.iter().zip(opening.levels.iter()) {
            if let Some(inner) = count.checked_sub(1) {
                self.want_segment(all, *scan, copy_at(&opening.chain, inner)?)?;
            }
        }
        Ok(())
    }

    /// The cheapest scan for each level: one that is there already, or a new one after them.
    fn opening_scans(&self, all: &Segments, opening: &Opening) -> Result<Vec<usize>, PlanStop> {
        let more = opening.levels.len();
        let total = self.scans.len().checked_add(more).ok_or(PlanStop::NoPlan)?;
        let mut costs = vec![in self.alloc; 0; total]?;
        let mut levels: Vec<OpeningLevel> = Vec::new(self.alloc);
        let mut counted = 0;
        for count in &opening.levels {
            for i in counted..*count {
                self.add_costs(all, copy_at(&opening.chain, i)?, &mut costs)?;
            }
            counted = *count;
            let before = levels.last().map(|level| level.best.as_slice());
            let level = next_level(self.alloc, before, &costs)?;
            levels.push(level)?;
        }
        let best = at(&levels, more.checked_sub(1).ok_or(PlanStop::NoPlan)?)?;
        let ends = self.with_new_scans(all, &best.best)?;
        trace_scans(self.alloc, &levels, cheapest(&ends)?)
    }

    /// Costs with those of the scans that aren't there yet.
    fn with_new_scans(&self, all: &Segments, costs: &[u64]) -> Result<Vec<u64>, PlanStop> {
        let scan_cost = at(&all.segments, 0)?.least.saturating_add(SCAN_CLOCKS);
        let mut sums = Vec::new(self.alloc);
        let mut new_scans: u64 = 0;
        for t in 0..costs.len() {
            if t >= self.scans.len() {
                new_scans = new_scans.saturating_add(scan_cost);
            }
            sums.push(costs[t].saturating_add(new_scans))?;
        }
        Ok(sums)
    }

    /// Adds the bits that a segment costs at each scan, where those around it are on the path. The first scan
    /// has the path at reset.
    fn add_costs(&self, all: &Segments, segment: usize, costs: &mut [u64]) -> Result<(), PlanStop> {
        let it = copy_at(&all.segments, segment)?;
        let extra_bits = all.extra_bits(segment)?;
        let is_reset = at(&all.muxes, it.mux)?.reset_row == it.row;
        let list = at(&self.wants, it.mux)?;
        let mut next: usize = 0;
        for t in 0..costs.len() {
            let wanted = row_wanted(list, next, t);
            if wanted.is_some() {
                next = next.saturating_add(1);
            }
            let fits = if t == 0 {
                is_reset
            } else {
                wanted.unwrap_or(it.row) == it.row
            };
            let more = match (fits, wanted) {
                (false, _) => FAR,
                (true, None) if t > 0 => extra_bits,
                _ => 0,
            };
            let cost = copy_at(costs, t)?;
            put_at(costs, t, cost.saturating_add(more))?;
        }
        Ok(())
    }
}
