// What the joins of a turn name, in tables.
ghost use Rattle.std.specs.Prelude.{◌≡◌, ◌≤◌, ◌<◌, ℕ, ◌+◌, ◌*◌, ◌==◌, List, [], ◌∷◌, ◌++◌, length, true};
ghost use Rattle.std.specs.Prelude.{false, OnOk};
ghost use Rattle.std.specs.Int.{bit_at};
ghost use Rattle.std.specs.Option.{IfNone, IfSome};
ghost use Rattle.net_graph.specs.SeenSteps.{SeenGroup, seen_group};
ghost use Rattle.pdl_targets.specs.Rounds.{Places};
ghost use Rattle.merge_order.specs.Insertion.{is_closed, join_at, put_at, takes};
ghost use Rattle.merge_order.specs.Named.{Tells, refuses};
ghost use Rattle.merge_order.specs.Tables.{SameRows, rows_around};

use crate::bit_sets::BitSets;
use ij_bits::OutOfMemory;
use net_graph::{Branch, Group};
use pdl_targets::{RowSets, bits_of_either, first_open};
use std::alloc::Global;
use std::cmp::min;

/// For each bit and row the joins that name it, and the joins that nothing joins.
#[derive(Drop)]
pub(crate) struct Named {
    pub bits: BitSets,
    pub rows: RowSets,
}

/// The lower of two numbers.
fn smaller_of(first: u32, second: u32) -> u32
    ensures within { result ≤ second }
    ensures before { result ≤ first }
    ensures same { result < second → result ≡ first }
{
    min(first, second)
}

impl Named {
    /// No join. Takes no memory.
    pub fn new(alloc: Global) -> Named
        ensures { (places : Places) → Tells places result [] }
    {
        Named {
            bits: BitSets::new(alloc),
            rows: RowSets::new(alloc),
        }
    }

    /// Takes all joins out. Takes no memory.
    pub fn clear(&mut self)
        ensures { (places : Places) → Tells places self.new [] }
    {
        self.bits.clear();
        self.rows.clear();
    }

    /// A round goes into a join, or is a join after the others. After want of memory the tables want to be
    /// cleared.
    pub fn add(&mut self, group: &Group, around: &[Branch], join: u32) -> Result<(), OutOfMemory>
        ensures { (places : Places) (joins : List (List SeenGroup))
            → SameRows around.now (rows_around places (seen_group group.now)) → Tells places self.old joins
            → join ≤ length joins → is_closed (join_at joins join) ≡ false
            → OnOk result (Tells places self.new (put_at join (seen_group group.now) joins)) }
    {
        self.bits.add_named(group, join)?;
        self.rows.add_all(around, join)?;
        Ok(())
    }

    /// One more join, which nothing joins.
    pub fn close(&mut self, join: u32) -> Result<(), OutOfMemory>
        ensures { (places : Places) (joins : List (List SeenGroup)) (rounds : List SeenGroup)
            → Tells places self.old joins → join ≡ length joins → is_closed rounds ≡ true
            → OnOk result (Tells places self.new (joins ++ rounds ∷ [])) }
    {
        self.bits.close(join)?;
        Ok(())
    }

    /// The joins from `64 * w` on that refuse a round, the first of them the lowest bit.
    fn word(&self, group: &Group, around: &[Branch], w: u32) -> u64
        ensures { (j : ℕ) → j < 64
            → (bit_at result j == 1) ≡ refuses self.now (seen_group group.now) around.now (64 * w + j) }
    {
        let w = w as usize;
        let named = self.bits.word(group, w);
        let excluded = self.rows.excluded_word(around, w);
        bits_of_either(named, excluded)
    }

    /// The first of 64 joins from `64 * w` on that doesn't refuse a round, counted from there.
    fn first_open_in_word(&self, group: &Group, around: &[Branch], w: u32) -> Option<u32>
        ensures none { IfNone result ((j : ℕ) → j < 64
            → refuses self.now (seen_group group.now) around.now (64 * w + j) ≡ true) }
        ensures low { IfSome result (λ k. k < 64) }
        ensures open { IfSome result
            (λ k. refuses self.now (seen_group group.now) around.now (64 * w + k) ≡ false) }
        ensures before { IfSome result (λ k. (j : ℕ) → j < k
            → refuses self.now (seen_group group.now) around.now (64 * w + j) ≡ true) }
    {
        first_open(self.word(group, around, w))
    }

    /// The first join that doesn't refuse a round, or the number of joins.
    fn first_open(&self, group: &Group, around: &[Branch], joins: u32) -> u32
        ensures at_most { result ≤ joins }
        ensures before { (k : ℕ) → k < result → refuses self.now (seen_group group.now) around.now k ≡ true }
        ensures at { result < joins → refuses self.now (seen_group group.now) around.now result ≡ false }
    {
        for w in 0..joins / 64 + 1 {
            if let Some(k) = self.first_open_in_word(group, around, w) {
                return smaller_of(64 * w + k, joins);
            }
        }
        joins
    }

    /// The first join that can take a round, or the number of joins. Takes no memory.
    pub fn first_join(&self, group: &Group, around: &[Branch], joins: u32) -> u32
        ensures at_most { result ≤ joins }
        ensures before { (places : Places) (js : List (List SeenGroup))
            → SameRows around.now (rows_around places (seen_group group.now)) → Tells places self.now js
            → (k : ℕ) → k < result → takes places (join_at js k) (seen_group group.now) ≡ false }
        ensures at { (places : Places) (js : List (List SeenGroup))
            → SameRows around.now (rows_around places (seen_group group.now)) → Tells places self.now js
            → result < joins → takes places (join_at js result) (seen_group group.now) ≡ true }
    {
        self.first_open(group, around, joins)
    }
}
