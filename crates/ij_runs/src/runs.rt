// A list of values in runs.
ghost use Rattle.std.specs.Prelude.{◌≡◌, ◌+◌, ◌<◌, ◌≤◌, ◌^◌, ℕ, [], ◌∷◌, ◌++◌, length, get_or, OnOk, OnErr};
ghost use Rattle.ij_runs.specs.Runs.{following, ArePart, IsRunOf};

use crate::Follow;
use ij_bits::OutOfMemory;
use std::alloc::Global;
use std::marker::Model;

/// Values of which each follows the one before it.
#[derive(Clone, Copy, Drop)]
pub struct Run<T> {
    /// The first one.
    pub(crate) first: T,
    /// How many values of the list are before it.
    pub(crate) start: u32,
    /// How many there are.
    pub(crate) len: u32,
}

/// A list of values, fewer than 2^32. A value that follows the one before it takes no memory.
///
/// Contracts see the list of the values, as those of [`List`](ij_bits::List).
#[derive(Drop)]
pub struct Runs<T: Follow> {
    /// All runs but the last one.
    before: Vec<Run<T>>,
    /// The last run, if there is a value.
    last: Option<Run<T>>,
}

impl<T: Follow> Model for Runs<T> {
    ghost use Rattle.ij_bits.specs.Room.{Listed};
    ghost use Rattle.ij_runs.specs.Runs.{values_of, AreAll};

    ghost Value = { Listed T };

    ghost view = { λ r. record { items = values_of T.after r.before.items r.last } };

    ghost invariant = { λ r. AreAll T.room r.before.items r.last };
}

/// Some values of a list from one on: they are those this many and more after a value.
#[derive(Clone, Copy, Drop)]
pub struct RunPart<T> {
    /// The value.
    pub first: T,
    /// How many values after it the part begins.
    pub from: u32,
    /// How many there are.
    pub len: u32,
}

impl<T: Follow> Runs<T> {
    /// No values, to which `alloc` adds. Takes no memory.
    pub fn new(alloc: Global) -> Self
        ensures { result.items ≡ [] }
    {
        Runs {
            before: Vec::new(alloc),
            last: None,
        }
    }

    /// How many values there are. Takes no memory.
    pub fn len(&self) -> usize
        ensures value { result ≡ length self.now.items }
        ensures few { result < 2 ^ 32 }
    {
        match self.last {
            Some(last) => last.start as usize + last.len as usize,
            None => 0,
        }
    }

    /// Adds a value and those after it, `count` in all. After a refusal the values are as they were.
    ///
    /// # Errors
    ///
    /// `OutOfMemory`, also where so many can't follow the value, or there would be more than 32 bits count.
    pub fn push_run(&mut self, first: T, count: u32) -> Result<(), OutOfMemory>
        ensures ok { OnOk result (self.new.items ≡ self.old.items ++ following T.after first count) }
        ensures err { OnErr result (self.new.items ≡ self.old.items) }
    {
        if count == 0 {
            return Ok(());
        }
        if !first.reaches(count - 1) {
            return Err(OutOfMemory);
        }
        let Some(last) = self.last else {
            self.last = Some(Run {
                first,
                start: 0,
                len: count,
            });
            return Ok(());
        };
        let start = last.start + last.len;
        if start.checked_add(count).is_none() {
            return Err(OutOfMemory);
        }
        if last.first.is_after(last.len, first) && last.first.reaches(last.len + count - 1) {
            self.last = Some(Run {
                first: last.first,
                start: last.start,
                len: last.len + count,
            });
            return Ok(());
        }
        self.before.push(last)?;
        self.last = Some(Run {
            first,
            start,
            len: count,
        });
        Ok(())
    }

    /// Adds a value. After a refusal the values are as they were.
    pub fn push(&mut self, value: T) -> Result<(), OutOfMemory>
        ensures ok { OnOk result (self.new.items ≡ self.old.items ++ value ∷ []) }
        ensures err { OnErr result (self.new.items ≡ self.old.items) }
    {
        self.push_run(value, 1)
    }

    /// Adds the values of another list. After a refusal some of them may have been added.
    pub fn append(&mut self, more: &Runs<T>) -> Result<(), OutOfMemory>
        ensures { OnOk result (self.new.items ≡ self.old.items ++ more.now.items) }
    {
        for run in &more.before {
            self.push_run(run.first, run.len)?;
        }
        match more.last {
            Some(last) => self.push_run(last.first, last.len),
            None => Ok(()),
        }
    }

    /// The number of the run that may have a position: it is looked at before it is believed.
    ///
    /// Where no value follows another, each run has the number of its value.
    fn guess(&self, i: usize) -> usize {
        if let Some(run) = self.before.get(i) {
            if run.start as usize == i {
                return i;
            }
        }
        let mut low = 0usize;
        let mut high = self.before.len();
        for _turn in 0..u32::BITS {
            if high.saturating_sub(low) <= 1 {
                return low;
            }
            let mid = low.saturating_add(high.saturating_sub(low) / 2);
            match self.before.get(mid) {
                Some(run) => {
                    if run.start as usize <= i {
                        low = mid;
                    } else {
                        high = mid;
                    }
                }
                None => return low,
            }
        }
        low
    }

    /// The run that has a position, looked for run by run.
    fn search(&self, i: usize) -> Run<T>
        requires { i < length self.now.items }
        ensures from { result.start ≤ i }
        ensures to { i < result.start + result.len }
        ensures is { IsRunOf T.room T.after self.now.items result }
    {
        for run in &self.before {
            if i < run.start as usize + run.len as usize {
                return *run;
            }
        }
        match self.last {
            Some(last) => last,
            None => unreachable!(),
        }
    }

    /// The run that has a position.
    fn run_at(&self, i: usize) -> Run<T>
        requires { i < length self.now.items }
        ensures from { result.start ≤ i }
        ensures to { i < result.start + result.len }
        ensures is { IsRunOf T.room T.after self.now.items result }
    {
        if let Some(last) = self.last {
            if last.start as usize <= i {
                return last;
            }
        }
        match self.before.get(self.guess(i)) {
            Some(run) => {
                if run.start as usize <= i && i < run.start as usize + run.len as usize {
                    *run
                } else {
                    self.search(i)
                }
            }
            None => self.search(i),
        }
    }

    /// The value at a position. Takes no memory.
    pub fn get(&self, i: usize) -> T
        requires { i < length self.now.items }
        ensures { (any : T) → result ≡ get_or self.now.items i any }
    {
        let run = self.run_at(i);
        run.first.after((i - run.start as usize) as u32)
    }

    /// The values from a position on that follow one another, one or more. Takes no memory.
    pub fn part_at(&self, i: usize) -> RunPart<T>
        requires { i < length self.now.items }
        ensures some { 1 ≤ result.len }
        ensures within { i + result.len ≤ length self.now.items }
        ensures room { result.from + result.len ≤ T.room result.first + 1 }
        ensures values { ArePart T.after self.now.items i result }
    {
        let run = self.run_at(i);
        let from = (i - run.start as usize) as u32;
        RunPart {
            first: run.first,
            from,
            len: run.len - from,
        }
    }
}
