// Which binding binds each bit of a port.
ghost use Rattle.std.specs.Prelude.{◌≡◌, ℕ, ◌<◌, ◌≤◌, nat_le, nat_lt, ◌==◌, ◌&&◌, ◌||◌, not, cond, []};
ghost use Rattle.std.specs.Prelude.{length, vec_len, Some, None, true, IfOk, OnOk, ◌+◌, ◌-◌, ◌^◌, refl};
ghost use Rattle.ij_text.specs.Options.{or_else};
ghost use Rattle.icl_elab.specs.Marks.{has_marks, mark_at, row_at};

use icl_frames::Stretch;
use ij_bits::OutOfMemory;
use ij_runs::{Follow, Runs};
use std::alloc::Global;
use std::marker::Model;

/// For each position of a port the number of the binding that binds it, as far as one does.
#[derive(Drop)]
pub(crate) struct Row {
    numbers: Vec<Option<usize>>,
}

impl Model for Row {
    ghost use Rattle.std.specs.Prelude.{ℕ, List, Option};

    ghost Value = { List (Option ℕ) };

    ghost view = { λ r. r.numbers.items };
}

/// Makes room for this many positions.
fn grow(numbers: &mut Vec<Option<usize>>, len: usize) -> Result<(), OutOfMemory>
    ensures long { OnOk result (len ≤ vec_len numbers.new) }
    ensures same { (pos : ℕ) → mark_at numbers.new.items pos ≡ mark_at numbers.old.items pos }
{
    while numbers.len() < len {
        numbers.push(None)?;
    }
    Ok(())
}

/// Notes a number at the positions from `low` on that are free, this many of them.
fn fill(numbers: &mut [Option<usize>], low: usize, count: usize, number: usize)
    requires { low + count ≤ length numbers.old }
    ensures { (pos : ℕ) → mark_at numbers.new pos ≡ or_else (mark_at numbers.old pos)
        (cond (nat_le low pos && nat_lt pos (low + count)) (Some number) None) }
{
    for k in 0..count {
        let pos = low + k;
        if numbers[pos].is_none() {
            numbers[pos] = Some(number);
        }
    }
}

impl Row {
    /// No position is bound.
    pub(crate) fn new(alloc: Global) -> Row
        ensures { result ≡ [] }
    {
        Row {
            numbers: Vec::new(alloc),
        }
    }

    /// Whether nothing was noted.
    pub(crate) fn is_empty(&self) -> bool
        ensures { result ≡ not (has_marks self.now) }
    {
        self.numbers.is_empty()
    }

    /// The number of the binding of a position, if there is one.
    pub(crate) fn get(&self, pos: usize) -> Option<usize>
        ensures { result ≡ mark_at self.now pos }
    {
        if pos < self.numbers.len() {
            self.numbers[pos]
        } else {
            None
        }
    }

    /// Notes the number of a binding at its positions, where none is noted.
    pub(crate) fn note(&mut self, s: Stretch, number: usize) -> Result<(), OutOfMemory>
        ensures bits { OnOk result ((pos : ℕ) → mark_at self.new pos ≡ or_else (mark_at self.old pos)
            (cond (nat_le s.low pos && nat_le pos s.high) (Some number) None)) }
        ensures some { OnOk result (has_marks self.new ≡ true) }
    {
        let low = s.low as usize;
        let end = s.high as usize + 1;
        grow(&mut self.numbers, end)?;
        if low < end {
            fill(&mut self.numbers, low, end - low, number);
        }
        Ok(())
    }
}

/// The number of a binding, or none.
#[derive(Clone, Copy, Drop)]
pub(crate) struct Mark {
    number: Option<usize>,
}

/// After a mark comes the same one.
impl Follow for Mark {
    ghost after = { λ n m. m };

    ghost room = { λ m. 2 ^ 32 - 1 };

    ghost stays = { λ m. refl };

    ghost composes = { λ a b m. refl };

    fn after(self, _n: u32) -> Mark {
        self
    }

    fn reaches(self, _n: u32) -> bool {
        true
    }

    fn is_after(self, _n: u32, value: Mark) -> bool {
        match (self.number, value.number) {
            (Some(a), Some(b)) => a == b,
            (None, None) => true,
            _ => false,
        }
    }
}

/// A row to which nothing is added: it takes the memory of the stretches that are bound, not of their bits.
#[derive(Drop)]
pub(crate) struct ClosedRow {
    marks: Runs<Mark>,
}

impl Model for ClosedRow {
    ghost use Rattle.std.specs.Prelude.{ℕ, List, Option, map};

    ghost Value = { List (Option ℕ) };

    ghost view = { λ r. map (λ m. m.number) r.marks.items };
}

impl Row {
    /// The row as one to which nothing is added.
    pub(crate) fn closed(&self, alloc: Global) -> Result<ClosedRow, OutOfMemory>
        ensures { IfOk result (λ r. r ≡ self.now) }
    {
        let mut marks = Runs::new(alloc);
        for number in &self.numbers {
            marks.push(Mark { number: *number })?;
        }
        Ok(ClosedRow { marks })
    }
}

impl ClosedRow {
    /// Whether nothing was noted.
    pub(crate) fn is_empty(&self) -> bool
        ensures { result ≡ not (has_marks self.now) }
    {
        self.marks.len() == 0
    }

    /// The number of the binding of a position, if there is one.
    pub(crate) fn get(&self, pos: usize) -> Option<usize>
        ensures { result ≡ mark_at self.now pos }
    {
        if pos < self.marks.len() {
            self.marks.get(pos).number
        } else {
            None
        }
    }
}

/// Rows to which nothing is added.
pub(crate) fn closed_rows(alloc: Global, rows: &[Row]) -> Result<Vec<ClosedRow>, OutOfMemory>
    ensures { IfOk result (λ all. all.items ≡ rows.now) }
{
    let mut all = Vec::new(alloc);
    for row in rows {
        all.push(row.closed(alloc)?)?;
    }
    Ok(all)
}

/// Makes room for this many parts.
fn grow_rows(alloc: Global, rows: &mut Vec<Row>, len: usize) -> Result<(), OutOfMemory>
    ensures long { OnOk result (len ≤ vec_len rows.new) }
    ensures same { (part : ℕ) → row_at rows.new.items part ≡ row_at rows.old.items part }
{
    while rows.len() < len {
        rows.push(Row::new(alloc))?;
    }
    Ok(())
}

/// Notes the number of a binding at the positions of a part, where none is noted.
pub(crate) fn note(
    alloc: Global,
    rows: &mut Vec<Row>,
    part: u32,
    s: Stretch,
    number: usize,
) -> Result<(), OutOfMemory>
    ensures bits { OnOk result ((p pos : ℕ)
        → mark_at (row_at rows.new.items p) pos ≡ or_else (mark_at (row_at rows.old.items p) pos)
        (cond (part == p && (nat_le s.low pos && nat_le pos s.high)) (Some number) None)) }
    ensures parts { OnOk result ((p : ℕ)
        → has_marks (row_at rows.new.items p) ≡ (has_marks (row_at rows.old.items p) || part == p)) }
{
    let i = part as usize;
    grow_rows(alloc, rows, i + 1)?;
    let row = &mut rows[i];
    row.note(s, number)?;
    Ok(())
}
