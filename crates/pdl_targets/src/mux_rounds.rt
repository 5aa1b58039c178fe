// In which rounds the rows of one mux are.
ghost use Rattle.std.specs.Prelude.{◌≡◌, ◌≤◌, ◌<◌, ◌==◌, ◌&&◌, ◌||◌, ◌+◌, ◌*◌, ℕ, not, true, vec_len, OnErr};
ghost use Rattle.std.specs.Prelude.{OnOk};
ghost use Rattle.std.specs.Int.{bit_at};
ghost use Rattle.pdl_targets.specs.Sets.{has_round, word_of};
ghost use Rattle.pdl_targets.specs.Rows.{AreMuxSets, has_other, no_mux, row_at};

use crate::sets::RoundSet;
use crate::words::{bits_of_either, without};
use ij_bits::OutOfMemory;
use std::alloc::Global;
use std::marker::Model;

/// Makes room for this many rows.
fn grow(alloc: Global, rows: &mut Vec<RoundSet>, len: usize) -> Result<(), OutOfMemory>
    ensures long { OnOk result (len ≤ vec_len rows.new) }
    ensures same { (row : ℕ) → row_at rows.new.items row ≡ row_at rows.old.items row }
{
    while rows.len() < len {
        rows.push(RoundSet::new(alloc))?;
    }
    Ok(())
}

/// Puts a round into the set of a row.
fn put(
    alloc: Global,
    rows: &mut Vec<RoundSet>,
    stamp: u32,
    row: u32,
    round: u32,
) -> Result<(), OutOfMemory>
    ensures put { OnOk result ((r k : ℕ) → has_round stamp (row_at rows.new.items r) k
        ≡ ((r == row && k == round) || has_round stamp (row_at rows.old.items r) k)) }
    ensures stays { OnErr result ((r k : ℕ)
        → has_round stamp (row_at rows.new.items r) k ≡ has_round stamp (row_at rows.old.items r) k) }
    ensures below { ((r : ℕ) → (row_at rows.old.items r).stamp ≤ stamp) → (r : ℕ)
        → (row_at rows.new.items r).stamp ≤ stamp }
{
    let at = row as usize;
    grow(alloc, rows, at + 1)?;
    let set = &mut rows[at];
    set.add(stamp, round)?;
    Ok(())
}

/// Puts a round in where it is wanted.
fn add_round_if(set: &mut RoundSet, stamp: u32, round: u32, wanted: bool) -> Result<(), OutOfMemory>
    ensures put { OnOk result ((k : ℕ)
        → has_round stamp set.new k ≡ ((wanted && k == round) || has_round stamp set.old k)) }
    ensures keeps { (k : ℕ) → has_round stamp set.old k ≡ true → has_round stamp set.new k ≡ true }
    ensures below { set.old.stamp ≤ stamp → set.new.stamp ≤ stamp }
{
    if wanted {
        set.add(stamp, round)?;
    }
    Ok(())
}

/// The rounds of any row of a mux, those of several rows, and those of each row.
#[derive(Drop)]
pub(crate) struct MuxRounds {
    any: RoundSet,
    several: RoundSet,
    rows: Vec<RoundSet>,
}

impl Model for MuxRounds {
    ghost use Rattle.pdl_targets.specs.Rows.{MuxSets};

    ghost Value = { MuxSets };

    ghost view = { λ m. record { any = m.any; several = m.several; rows = m.rows.items } };
}

impl MuxRounds {
    /// No round. Takes no memory.
    pub fn new(alloc: Global) -> MuxRounds
        ensures { result ≡ no_mux }
    {
        MuxRounds {
            any: RoundSet::new(alloc),
            several: RoundSet::new(alloc),
            rows: Vec::new(alloc),
        }
    }

    /// Which of the 64 rounds from `64 * w` on a row has.
    fn row_word(&self, stamp: u32, row: u32, w: usize) -> u64
        ensures { result ≡ word_of stamp (row_at self.now.rows row) w }
    {
        let at = row as usize;
        if at < self.rows.len() {
            self.rows[at].word(stamp, w)
        } else {
            0
        }
    }

    /// Whether a row has a round.
    fn row_has(&self, stamp: u32, row: u32, round: u32) -> bool
        ensures { result ≡ has_round stamp (row_at self.now.rows row) round }
    {
        let at = row as usize;
        at < self.rows.len() && self.rows[at].has(stamp, round)
    }

    /// Which of the 64 rounds from `64 * w` on have another row. Takes no memory.
    pub fn other_rows_word(&self, stamp: u32, row: u32, w: usize) -> u64
        ensures { (j : ℕ) → j < 64 → (bit_at result j == 1) ≡ has_other stamp self.now row (64 * w + j) }
    {
        let several = self.several.word(stamp, w);
        let any = self.any.word(stamp, w);
        bits_of_either(several, without(any, self.row_word(stamp, row, w)))
    }

    /// Whether a round has a row, and not this one.
    fn is_further(&self, stamp: u32, row: u32, round: u32) -> bool
        ensures { result
            ≡ (has_round stamp self.now.any round && not (has_round stamp (row_at self.now.rows row) round)) }
    {
        self.any.has(stamp, round) && !self.row_has(stamp, row, round)
    }

    /// Puts a row into a round.
    pub fn add(
        &mut self,
        alloc: Global,
        stamp: u32,
        row: u32,
        round: u32,
    ) -> Result<(), OutOfMemory>
        requires { AreMuxSets stamp self.old }
        ensures put { OnOk result ((r k : ℕ) → has_other stamp self.new r k
            ≡ ((k == round && not (row == r)) || has_other stamp self.old r k)) }
        ensures kept { AreMuxSets stamp self.new }
    {
        let further = self.is_further(stamp, row, round);
        add_round_if(&mut self.several, stamp, round, further)?;
        self.any.add(stamp, round)?;
        put(alloc, &mut self.rows, stamp, row, round)?;
        Ok(())
    }
}
