// In which rounds rows of muxes are.
ghost use Rattle.std.specs.Prelude.{◌≡◌, ◌≤◌, ◌<◌, ◌==◌, ◌&&◌, ◌||◌, ◌+◌, ◌*◌, ℕ, not, true, false, vec_len};
ghost use Rattle.std.specs.Prelude.{OnOk};
ghost use Rattle.std.specs.Int.{bit_at};
ghost use Rattle.std.specs.List.{list_any};
ghost use Rattle.net_graph.specs.declared.branch.Branch.{Branch as ABranch};
ghost use Rattle.pdl_targets.specs.Rows.{AreMuxSets, exclude, excluded_at, has_other, mux_at};

use crate::mux_rounds::MuxRounds;
use crate::words::{bits_of_either, first_open};
use ij_bits::OutOfMemory;
use net_graph::Branch;
use std::alloc::Global;
use std::marker::Model;

/// Makes room for this many muxes.
fn grow(alloc: Global, muxes: &mut Vec<MuxRounds>, len: usize) -> Result<(), OutOfMemory>
    ensures long { OnOk result (len ≤ vec_len muxes.new) }
    ensures same { (mux : ℕ) → mux_at muxes.new.items mux ≡ mux_at muxes.old.items mux }
{
    while muxes.len() < len {
        muxes.push(MuxRounds::new(alloc))?;
    }
    Ok(())
}

/// Puts a row into a round.
fn put(
    alloc: Global,
    muxes: &mut Vec<MuxRounds>,
    stamp: u32,
    branch: Branch,
    round: u32,
) -> Result<(), OutOfMemory>
    requires { (mux : ℕ) → AreMuxSets stamp (mux_at muxes.old.items mux) }
    ensures put { OnOk result ((mux r k : ℕ) → has_other stamp (mux_at muxes.new.items mux) r k
        ≡ ((k == round && ((branch.mux == mux) && not (branch.row == r))) || has_other stamp
        (mux_at muxes.old.items mux) r k)) }
    ensures kept { (mux : ℕ) → AreMuxSets stamp (mux_at muxes.new.items mux) }
{
    let at = branch.mux as usize;
    grow(alloc, muxes, at + 1)?;
    let rounds = &mut muxes[at];
    rounds.add(alloc, stamp, branch.row, round)?;
    Ok(())
}

/// Rows of muxes in rounds. Which rounds have another row of a mux is found for 64 rounds at once, and all
/// are taken out at once.
#[derive(Drop)]
pub struct RowSets {
    alloc: Global,
    /// The rounds of each mux.
    muxes: Vec<MuxRounds>,
    /// The stamp of the sets that count.
    stamp: u32,
}

impl Model for RowSets {
    ghost use Rattle.pdl_targets.specs.Rows.{AreRowsStamped, StampedRows};

    ghost Value = { StampedRows };

    ghost view = { λ t. record { stamp = t.stamp; muxes = t.muxes.items } };

    ghost invariant = { λ t. AreRowsStamped t.stamp t.muxes.items };
}

impl RowSets {
    /// No row in any round. Takes no memory.
    pub fn new(alloc: Global) -> RowSets
        ensures { (b : ABranch) (k : ℕ) → excluded_at result b k ≡ false }
    {
        RowSets {
            alloc,
            muxes: Vec::new(alloc),
            stamp: 1,
        }
    }

    /// Takes all rows out. Takes no memory.
    pub fn clear(&mut self)
        ensures { (b : ABranch) (k : ℕ) → excluded_at self.new b k ≡ false }
    {
        if self.stamp < u32::MAX {
            self.stamp += 1;
        } else {
            self.muxes.clear();
            self.stamp = 1;
        }
    }

    /// Puts a row into a round.
    fn add(&mut self, branch: Branch, round: u32) -> Result<(), OutOfMemory>
        ensures { OnOk result ((b : ABranch) (k : ℕ)
            → excluded_at self.new b k ≡ ((k == round && exclude branch b) || excluded_at self.old b k)) }
    {
        put(self.alloc, &mut self.muxes, self.stamp, branch, round)
    }

    /// Puts rows into a round. After want of memory some may be in, and the table wants to be cleared.
    pub fn add_all(&mut self, branches: &[Branch], round: u32) -> Result<(), OutOfMemory>
        ensures { OnOk result ((b : ABranch) (k : ℕ) → excluded_at self.new b k
            ≡ ((k == round && list_any (λ a. exclude a b) branches.now) || excluded_at self.old b k)) }
    {
        for branch in branches {
            self.add(*branch, round)?;
        }
        Ok(())
    }

    /// Which of the 64 rounds from `64 * w` on have a row that a row excludes.
    fn other_rows_word(&self, branch: Branch, w: usize) -> u64
        ensures { (j : ℕ) → j < 64 → (bit_at result j == 1) ≡ excluded_at self.now branch (64 * w + j) }
    {
        let at = branch.mux as usize;
        if at < self.muxes.len() {
            self.muxes[at].other_rows_word(self.stamp, branch.row, w)
        } else {
            0
        }
    }

    /// Which of the 64 rounds from `64 * w` on have a row that one of some rows excludes. Takes no memory.
    pub fn excluded_word(&self, branches: &[Branch], w: usize) -> u64
        ensures { (j : ℕ) → j < 64
            → (bit_at result j == 1) ≡ list_any (λ b. excluded_at self.now b (64 * w + j)) branches.now }
    {
        let mut word = 0;
        for branch in branches {
            word = bits_of_either(word, self.other_rows_word(*branch, w));
        }
        word
    }

    /// The first of this many rounds that has no row that one of some rows excludes, or their number. Takes
    /// no memory.
    pub fn first_open_round(&self, branches: &[Branch], rounds: u32) -> u32
        ensures at_most { result ≤ rounds }
        ensures before { (j : ℕ) → j < result → list_any (λ b. excluded_at self.now b j) branches.now ≡ true }
        ensures at { result < rounds → list_any (λ b. excluded_at self.now b result) branches.now ≡ false }
    {
        for w in 0..rounds.div_ceil(64) {
            if let Some(k) = first_open(self.excluded_word(branches, w as usize)) {
                return (64 * w + k).min(rounds);
            }
        }
        rounds
    }
}
