// The levels around all registers and muxes of a form, in tables that one pass over its marks fills.
ghost use Rattle.std.specs.Prelude.{◌≡◌, ◌+◌, ◌-◌, ◌<◌, ◌≤◌, ◌^◌, length, reverse, All, Some, IfOk, OnOk};
ghost use Rattle.nest_check.specs.Tables as tables;

use crate::place::BegunMux;
use ij_bits::OutOfMemory;
use net_graph::{Net, Point};
use net_tree::Mark;
use std::alloc::Global;

/// A level, and what is around it.
#[derive(Clone, Copy, Drop)]
pub(crate) struct MetMux {
    /// The mux, and how many of its rows have begun.
    pub level: BegunMux,
    /// The number of the level around it, 0 for none.
    pub outer: usize,
}

/// The levels of a form, and where each register and mux is.
#[derive(Drop)]
pub(crate) struct Tables {
    /// The levels that were met; their numbers count from 1.
    pub met: Vec<MetMux>,
    /// The number of the level around the marks at hand, 0 for none.
    pub here: usize,
    /// For each register that was named the number of the level around it.
    pub regs: Vec<Option<usize>>,
    /// For each mux likewise.
    pub muxes: Vec<Option<usize>>,
}

/// Notes where an item is that isn't noted yet.
fn note_level_at(numbers: &mut Vec<Option<usize>>, item: usize, here: usize)
    ensures { numbers.new.items ≡ tables.noted numbers.old.items item here }
{
    if item < numbers.len() && numbers[item].is_none() {
        numbers[item] = Some(here);
    }
}

impl Tables {
    /// The level around the marks at hand.
    fn around(&self, here: usize) -> Option<MetMux>
        ensures { result ≡ tables.around_at self.now.met.items here }
    {
        if here == 0 || here > self.met.len() {
            None
        } else {
            Some(self.met[here - 1])
        }
    }

    /// Enters a level.
    fn enter(&mut self, level: BegunMux, outer: usize) -> Result<(), OutOfMemory>
        ensures { OnOk result (tables.table_of self.new
            ≡ tables.entered (tables.table_of self.old) level outer) }
    {
        self.met.push(MetMux { level, outer })?;
        self.here = self.met.len();
        Ok(())
    }

    /// Enters the next row of the level at hand.
    fn next_row(&mut self, most: usize) -> Result<(), OutOfMemory>
        requires most { most < 2 ^ 64 - 1 }
        requires few { All (λ a. a.level.begun ≤ most) self.old.met.items }
        ensures few { OnOk result (All (λ a. a.level.begun ≤ most + 1) self.new.met.items) }
        ensures table { OnOk result (tables.table_of self.new ≡ tables.next_row (tables.table_of self.old)
            (tables.around_at self.old.met.items self.old.here)) }
    {
        if let Some(around) = self.around(self.here) {
            let level = BegunMux {
                mux: around.level.mux,
                begun: around.level.begun + 1,
            };
            self.enter(level, around.outer)?;
        }
        Ok(())
    }

    /// Takes the next mark of the form.
    #[tactic(auto, unfolding(crate::specs::Tables::step))]
    fn take(&mut self, mark: Mark, most: usize) -> Result<(), OutOfMemory>
        requires most { most < 2 ^ 64 - 1 }
        requires few { All (λ a. a.level.begun ≤ most) self.old.met.items }
        ensures few { OnOk result (All (λ a. a.level.begun ≤ most + 1) self.new.met.items) }
        ensures table { OnOk result (tables.table_of self.new ≡ tables.step (tables.table_of self.old) mark) }
    {
        match mark {
            Mark::Reg(reg) => note_level_at(&mut self.regs, reg as usize, self.here),
            Mark::Mux(mux) => {
                note_level_at(&mut self.muxes, mux as usize, self.here);
                self.enter(BegunMux { mux, begun: 0 }, self.here)?;
            }
            Mark::Row => self.next_row(most)?,
            Mark::End => {
                if let Some(around) = self.around(self.here) {
                    self.here = around.outer;
                }
            }
        }
        Ok(())
    }

    /// From a level outwards.
    fn levels_out(&self, alloc: Global, from: usize) -> Result<Vec<BegunMux>, OutOfMemory>
        ensures { IfOk result (λ levels. levels.items ≡ tables.levels_out from self.now.met.items from) }
    {
        let mut levels = Vec::new(alloc);
        let mut here = from;
        for _step in 0..from {
            match self.around(here) {
                None => break,
                Some(around) => {
                    levels.push(around.level)?;
                    here = around.outer;
                }
            }
        }
        Ok(levels)
    }

    /// The number of the level around an item that was named.
    fn number(&self, item: Point) -> Option<usize>
        ensures { tables.levels_from self.now.met.items (Some result)
            ≡ tables.levels_from self.now.met.items (tables.number_of (tables.table_of self.now) item) }
    {
        match item {
            Point::Entry => None,
            Point::Reg(reg) => match self.regs.get(reg as usize) {
                Some(number) => *number,
                None => None,
            },
            Point::Mux(mux) => match self.muxes.get(mux as usize) {
                Some(number) => *number,
                None => None,
            },
        }
    }

    /// The levels around an item, outermost first.
    #[tactic(auto, unfolding(crate::specs::Tables::levels_in))]
    pub fn levels(&self, alloc: Global, item: Point) -> Result<Vec<BegunMux>, OutOfMemory>
        ensures { IfOk result (λ levels. levels.items ≡ tables.levels_in (tables.table_of self.now) item) }
    {
        match self.number(item) {
            None => Ok(Vec::new(alloc)),
            Some(here) => {
                let mut levels = self.levels_out(alloc, here)?;
                levels.reverse();
                Ok(levels)
            }
        }
    }
}

/// No mark is taken yet.
#[tactic(auto, unfolding(crate::specs::Tables::no_marks_taken))]
fn no_marks_taken(alloc: Global, net: &Net) -> Result<Tables, OutOfMemory>
    ensures { IfOk result (λ t. tables.table_of t
        ≡ tables.no_marks_taken (length net.now.regs.items) (length net.now.muxes.items)) }
{
    Ok(Tables {
        met: Vec::new(alloc),
        here: 0,
        regs: vec![in alloc; None; net.regs.len()]?,
        muxes: vec![in alloc; None; net.muxes.len()]?,
    })
}

/// The tables of a form that its marks spell.
pub(crate) fn tables_of(alloc: Global, net: &Net, marks: &[Mark]) -> Result<Tables, OutOfMemory>
    ensures { IfOk result (λ t. tables.table_of t ≡ tables.table net.now marks.now) }
{
    let mut tables = no_marks_taken(alloc, net)?;
    for (i, mark) in marks.iter().enumerate() {
        tables.take(*mark, i)?;
    }
    Ok(tables)
}
