// The segments of a nested network: its outer list, and the rows of its scan multiplexers (IEEE 1687-2014:
// scan segments, ScanMux).

use crate::access::{at, copy_at, push_at, put_at};
use crate::measures::measured;
use crate::rows::{RowInfo, deepest_segment, reset_row_of, reset_select, row_info};
use crate::stop::PlanStop;
use ij_bits::Bits;
use net_graph::{Branch, Mux, Net};
use net_tree::Tree;
use std::alloc::Global;

/// The outer list of the nested form: it is always on the path.
pub(crate) const OUTER: usize = 0;

/// A list of the nested form.
#[derive(Clone, Copy, Drop)]
pub(crate) struct Segment {
    /// The mux of which it is a row; 0 for the outer list.
    pub mux: usize,
    /// Which row of it.
    pub row: usize,
    /// The segment in which that mux is.
    pub up: usize,
    /// How many rows it is in, itself counted.
    pub depth: usize,
    /// The bits of the registers that are in this very list.
    pub width: u64,
    /// The fewest bits that it has on the path, where each mux in it can be in any row.
    pub least: u64,
    /// About the bits that it has when it is on the path for the first time since a reset.
    pub fresh: u64,
}

/// A scan mux.
#[derive(Clone, Copy, Drop)]
pub(crate) struct MuxInfo {
    /// The segment that it is in.
    pub home: usize,
    /// The segment of its row 0. The others follow.
    pub first: usize,
    /// How many rows it has.
    pub rows: usize,
    /// The deepest segment with a select bit of it: with this one on the path it can be set to any row.
    pub set_from: usize,
    /// Its row at reset.
    pub reset_row: usize,
    /// Its row with the fewest bits.
    pub rest_row: usize,
}

/// All segments of a network, and its muxes.
#[derive(Drop)]
pub(crate) struct Segments {
    /// The outer list, then the rows of each mux.
    pub segments: Vec<Segment>,
    /// How each segment is selected.
    pub rows: Vec<RowInfo>,
    /// The muxes that are in each segment.
    pub inner: Vec<Vec<usize>>,
    /// The muxes of the network.
    pub muxes: Vec<MuxInfo>,
    /// The segment of each register.
    pub of_reg: Vec<usize>,
    /// The most bits of a path, or more.
    pub uneven: bool,
}

/// The segment of a row.
pub(crate) fn row_segment(muxes: &[MuxInfo], mux: usize, row: usize) -> Result<usize, PlanStop> {
    let info = at(muxes, mux)?;
    if row >= info.rows {
        return Err(PlanStop::NoPlan);
    }
    info.first.checked_add(row).ok_or(PlanStop::NoPlan)
}

/// The innermost segment of these rows.
fn innermost(muxes: &[MuxInfo], place: &[Branch]) -> Result<usize, PlanStop> {
    match place.last() {
        None => Ok(OUTER),
        Some(branch) => row_segment(muxes, branch.mux as usize, branch.row as usize),
    }
}

/// The muxes, with the numbers of their rows' segments alone.
fn numbered_muxes(alloc: Global, net: &Net) -> Result<Vec<MuxInfo>, PlanStop> {
    let mut muxes = Vec::new(alloc);
    let mut next: usize = 1;
    for mux in net.muxes.as_slice() {
        let rows = mux.rows.len();
        muxes.push(MuxInfo {
            home: OUTER,
            first: next,
            rows,
            set_from: OUTER,
            reset_row: 0,
            rest_row: 0,
        })?;
        next = next.checked_add(rows).ok_or(PlanStop::NoPlan)?;
    }
    Ok(muxes)
}

impl Segments {
    /// The segments of a network with its nested form.
    pub fn of(alloc: Global, net: &Net, tree: &Tree) -> Result<Segments, PlanStop> {
        let mut all = Segments {
            segments: Vec::new(alloc),
            rows: Vec::new(alloc),
            inner: Vec::new(alloc),
            muxes: numbered_muxes(alloc, net)?,
            of_reg: Vec::new(alloc),
            uneven: false,
        };
        all.add_segments(alloc, net, tree)?;
        all.add_registers(net, tree)?;
        all.add_selects(alloc, net)?;
        measured(&mut all)?;
        Ok(all)
    }

    /// Adds one segment.
    fn push(
        &mut self,
        alloc: Global,
        mux: usize,
        row: usize,
        up: usize,
        depth: usize,
    ) -> Result<(), PlanStop> {
        self.segments.push(Segment {
            mux,
            row,
            up,
            depth,
            width: 0,
            least: 0,
            fresh: 0,
        })?;
        self.inner.push(Vec::new(alloc))?;
        Ok(())
    }

    /// Adds the outer list and each mux's rows.
    fn add_segments(&mut self, alloc: Global, net: &Net, tree: &Tree) -> Result<(), PlanStop> {
        self.push(alloc, 0, 0, OUTER, 0)?;
        for m in 0..net.muxes.len() {
            let place = tree.place_of_mux(u32::try_from(m).map_err(|_| PlanStop::NoPlan)?);
            let up = innermost(&self.muxes, place.as_slice())?;
            let depth = place.len().saturating_add(1);
            let mut info = copy_at(&self.muxes, m)?;
            info.home = up;
            put_at(&mut self.muxes, m, info)?;
            for row in 0..info.rows {
                self.push(alloc, m, row, up, depth)?;
            }
        }
        for m in 0..self.muxes.len() {
            let home = at(&self.muxes, m)?.home;
            push_at(&mut self.inner, home, m)?;
        }
        Ok(())
    }

    /// Finds the segment of each register, and counts the registers' bits.
    fn add_registers(&mut self, net: &Net, tree: &Tree) -> Result<(), PlanStop> {
        let mut number: u32 = 0;
        for reg in net.regs.as_slice() {
            let place = tree.place_of(number);
            let s = innermost(&self.muxes, place.as_slice())?;
            let mut segment = copy_at(&self.segments, s)?;
            segment.width = segment.width.saturating_add(u64::from(reg.width));
            put_at(&mut self.segments, s, segment)?;
            self.of_reg.push(s)?;
            number = number.checked_add(1).ok_or(PlanStop::NoPlan)?;
        }
        Ok(())
    }

    /// Finds how each row is selected.
    fn add_selects(&mut self, alloc: Global, net: &Net) -> Result<(), PlanStop> {
        self.rows.push(RowInfo {
            value: Bits::zeros(alloc, 0)?,
            first_value: Bits::zeros(alloc, 0)?,
            first_from: OUTER,
        })?;
        for m in 0..net.muxes.len() {
            self.add_select(alloc, net, m, net.muxes.get(m))?;
        }
        Ok(())
    }

    /// Finds how each row of a mux is selected.
    fn add_select(
        &mut self,
        alloc: Global,
        net: &Net,
        m: usize,
        mux: &Mux,
    ) -> Result<(), PlanStop> {
        let select = mux.select.as_slice();
        let at_reset = reset_select(alloc, net, select)?;
        let mut info = copy_at(&self.muxes, m)?;
        info.set_from = deepest_segment(&self.segments, &self.of_reg, select)?;
        info.reset_row = reset_row_of(mux, &at_reset)?;
        put_at(&mut self.muxes, m, info)?;
        for row in mux.rows.as_slice() {
            let how = row_info(alloc, &self.segments, &self.of_reg, row, select, &at_reset)?;
            self.rows.push(how)?;
        }
        Ok(())
    }

    /// The segments around and with this one, outermost first, without the outer list.
    pub fn chain(&self, alloc: Global, segment: usize) -> Result<Vec<usize>, PlanStop> {
        let mut chain = Vec::new(alloc);
        let mut s = segment;
        for _ in 0..17 {
            if s == OUTER {
                chain.reverse();
                return Ok(chain);
            }
            chain.push(s)?;
            s = at(&self.segments, s)?.up;
        }
        Err(PlanStop::NoPlan)
    }

    /// What a row costs above the one of its mux that has the fewest bits, in bits of a scan.
    pub fn extra_bits(&self, segment: usize) -> Result<u64, PlanStop> {
        let row = at(&self.segments, segment)?;
        let info = at(&self.muxes, row.mux)?;
        let rest = row_segment(&self.muxes, row.mux, info.rest_row)?;
        Ok(row.least.saturating_sub(at(&self.segments, rest)?.least))
    }
}
