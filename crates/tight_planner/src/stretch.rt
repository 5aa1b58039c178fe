// The scans of the rounds between two resets, and which rows of multiplexers they need.

use crate::access::{at, copy_at, put_at};
use crate::needs::Needs;
use crate::segments::{OUTER, Segments, row_segment};
use crate::stop::PlanStop;
use net_graph::Group;
use std::alloc::Global;
use std::mem;

/// A row that a mux must have at a scan.
#[derive(Clone, Copy, Drop)]
pub(crate) struct Want {
    pub scan: usize,
    pub row: usize,
}

/// A select value that a scan writes.
#[derive(Clone, Copy, Drop)]
pub(crate) struct Set {
    pub mux: usize,
    pub row: usize,
    /// Whether some select bits weren't on the path since the reset, so that they have their values at reset.
    pub early: bool,
}

/// A round of an iApply (IEEE 1687-2014, PDL level 0).
#[derive(Drop)]
pub(crate) struct Round {
    /// The number of its iApply, counted from 1.
    pub apply: u32,
    /// Its own number in that iApply, counted from 1.
    pub round: u32,
    pub group: Group,
}

/// What is between two resets, in order.
#[derive(Clone, Copy, Drop)]
pub(crate) enum Item {
    /// This many clocks in Run-Test/Idle.
    Run(u32),
    /// A round that needs no scan.
    Mark(usize),
    /// A scan.
    Scan(usize),
}

/// A scan.
#[derive(Drop)]
pub(crate) struct PlannedScan {
    /// The round that it does, if any.
    pub round: Option<usize>,
    /// The select values that it writes.
    pub sets: Vec<Set>,
}

/// The work between two resets.
#[derive(Drop)]
pub(crate) struct Stretch {
    pub alloc: Global,
    pub items: Vec<Item>,
    pub rounds: Vec<Round>,
    pub scans: Vec<PlannedScan>,
    /// The rows that each mux must have, in the order of the scans.
    pub wants: Vec<Vec<Want>>,
    /// Which segments are on the path at some scan.
    pub opened: Vec<bool>,
    /// The segments that stay open for the next scan.
    kept: Vec<usize>,
}

/// The number of wants at scans before this one.
fn wants_before(list: &[Want], scan: usize) -> usize {
    for i in (0..list.len()).rev() {
        if list[i].scan < scan {
            return i + 1;
        }
    }
    0
}

/// Puts a want in its place. Answers whether it is new.
fn insert_want(list: &mut Vec<Want>, want: Want) -> Result<bool, PlanStop> {
    let place = wants_before(list, want.scan);
    if let Some(other) = list.get(place) {
        if other.scan == want.scan {
            return if other.row == want.row {
                Ok(false)
            } else {
                Err(PlanStop::NoPlan)
            };
        }
    }
    if place > list.len() {
        return Err(PlanStop::NoPlan);
    }
    list.insert(place, want)?;
    Ok(true)
}

/// An empty list of wants for each mux.
fn no_wants(alloc: Global, muxes: usize) -> Result<Vec<Vec<Want>>, PlanStop> {
    let mut wants = Vec::new(alloc);
    for _ in 0..muxes {
        wants.push(Vec::new(alloc))?;
    }
    Ok(wants)
}

/// Which segments are on the path at reset.
fn open_at_reset(alloc: Global, all: &Segments) -> Result<Vec<bool>, PlanStop> {
    let mut opened = vec![in alloc; false; all.segments.len()]?;
    let mut todo = vec![in alloc; OUTER]?;
    for _ in 0..all.segments.len() {
        let Some(s) = todo.pop() else {
            return Ok(opened);
        };
        put_at(&mut opened, s, true)?;
        for m in at(&all.inner, s)? {
            let row = at(&all.muxes, *m)?.reset_row;
            todo.push(row_segment(&all.muxes, *m, row)?)?;
        }
    }
    Ok(opened)
}

impl Stretch {
    /// No work.
    pub fn new(alloc: Global, all: &Segments) -> Result<Stretch, PlanStop> {
        Ok(Stretch {
            alloc,
            items: Vec::new(alloc),
            rounds: Vec::new(alloc),
            scans: Vec::new(alloc),
            wants: no_wants(alloc, all.muxes.len())?,
            opened: open_at_reset(alloc, all)?,
            kept: Vec::new(alloc),
        })
    }

    /// Adds a run.
    pub fn add_run(&mut self, cycles: u32) -> Result<(), PlanStop> {
        self.items.push(Item::Run(cycles))?;
        Ok(())
    }

    /// Adds a round, with the scans that it takes.
    pub fn add_round(
        &mut self,
        all: &Segments,
        round: Round,
        needs: Needs,
    ) -> Result<(), PlanStop> {
        let number = self.rounds.len();
        self.rounds.push(round)?;
        if needs.ends.is_empty() {
            self.items.push(Item::Mark(number))?;
            return Ok(());
        }
        self.add_scan_if_clash(all, &needs.ends)?;
        self.prepare_all(all, &needs.ends)?;
        let scan = self.add_scan(all, Some(number))?;
        for end in &needs.ends {
            self.want_segment(all, scan, *end)?;
        }
        self.kept = needs.kept;
        Ok(())
    }

    /// Adds a scan, which also has on its path what stays open.
    pub fn add_scan(&mut self, all: &Segments, round: Option<usize>) -> Result<usize, PlanStop> {
        let number = self.scans.len();
        self.scans.push(PlannedScan {
            round,
            sets: Vec::new(self.alloc),
        })?;
        self.items.push(Item::Scan(number))?;
        let kept = mem::replace(&mut self.kept, Vec::new(self.alloc));
        for s in &kept {
            self.want_segment(all, number, *s)?;
        }
        Ok(number)
    }

    /// Wants a row at a scan. Answers whether that is new.
    fn want(&mut self, mux: usize, want: Want) -> Result<bool, PlanStop> {
        if mux >= self.wants.len() {
            return Err(PlanStop::NoPlan);
        }
        insert_want(&mut self.wants[mux], want)
    }

    /// Wants a segment on the path of a scan, and hence those around it.
    pub fn want_segment(
        &mut self,
        all: &Segments,
        scan: usize,
        segment: usize,
    ) -> Result<(), PlanStop> {
        let mut s = segment;
        for _ in 0..17 {
            if s == OUTER {
                return Ok(());
            }
            let it = copy_at(&all.segments, s)?;
            if !self.want(it.mux, Want { scan, row: it.row })? {
                return Ok(());
            }
            put_at(&mut self.opened, s, true)?;
            s = it.up;
        }
        Err(PlanStop::NoPlan)
    }

    /// Adds a scan where these segments need another row than what stays open.
    fn add_scan_if_clash(&mut self, all: &Segments, ends: &[usize]) -> Result<(), PlanStop> {
        if self.kept.is_empty() {
            return Ok(());
        }
        let asked = asked_rows(self.alloc, all, ends)?;
        let mut clash = false;
        for s in &self.kept {
            clash = clash || needs_other_row(all, &asked, *s)?;
        }
        if clash {
            self.add_scan(all, None)?;
        }
        Ok(())
    }
}

/// The row of each mux that these segments need.
fn asked_rows(
    alloc: Global,
    all: &Segments,
    ends: &[usize],
) -> Result<Vec<Option<usize>>, PlanStop> {
    let mut asked = vec![in alloc; None; all.muxes.len()]?;
    for end in ends {
        let mut s = *end;
        for _ in 0..17 {
            let it = copy_at(&all.segments, s)?;
            if s == OUTER || copy_at(&asked, it.mux)?.is_some() {
                break;
            }
            put_at(&mut asked, it.mux, Some(it.row))?;
            s = it.up;
        }
    }
    Ok(asked)
}

/// Whether a segment needs another row of some mux.
fn needs_other_row(
    all: &Segments,
    asked: &[Option<usize>],
    segment: usize,
) -> Result<bool, PlanStop> {
    let mut s = segment;
    for _ in 0..17 {
        if s == OUTER {
            return Ok(false);
        }
        let it = copy_at(&all.segments, s)?;
        if copy_at(asked, it.mux)?.unwrap_or(it.row) != it.row {
            return Ok(true);
        }
        s = it.up;
    }
    Err(PlanStop::NoPlan)
}
