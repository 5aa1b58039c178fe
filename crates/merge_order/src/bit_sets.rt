// The joins of a turn that name each bit, and those that nothing joins.
ghost use Rattle.std.specs.Prelude.{◌≡◌, ◌≤◌, ◌<◌, ℕ, ◌==◌, ◌+◌, ◌*◌, ◌&&◌, ◌||◌, [], false, vec_len, OnOk};
ghost use Rattle.std.specs.Int.{bit_at};
ghost use Rattle.std.specs.List.{list_any};
ghost use Rattle.net_graph.specs.declared.net.BitId.{BitId as ABit};
ghost use Rattle.net_graph.specs.Path.{same_place};
ghost use Rattle.net_graph.specs.SeenSteps.{seen_group};
ghost use Rattle.pdl_targets.specs.Sets.{has_round, word_of};
ghost use Rattle.pdl_targets.specs.Rows.{row_at};
ghost use Rattle.merge_order.specs.Merge.{names};
ghost use Rattle.merge_order.specs.Tables.{AreStamped, has_bit, is_shut, names_one, sets_of};

use ij_bits::OutOfMemory;
use net_graph::{BitId, Group, ReadBit, WriteBit};
use pdl_targets::{RoundSet, bits_of_either};
use std::alloc::Global;
use std::marker::Model;

/// The joins that name each bit of a register.
#[derive(Drop)]
pub(crate) struct RegSets {
    sets: Vec<RoundSet>,
}

impl Model for RegSets {
    ghost use Rattle.std.specs.Prelude.{List};
    ghost use Rattle.pdl_targets.specs.Sets.{StampedSet};

    ghost Value = { List StampedSet };

    ghost view = { λ r. r.sets.items };
}

/// Makes room for this many positions.
fn grow(alloc: Global, sets: &mut Vec<RoundSet>, len: usize) -> Result<(), OutOfMemory>
    ensures long { OnOk result (len ≤ vec_len sets.new) }
    ensures same { (pos : ℕ) → row_at sets.new.items pos ≡ row_at sets.old.items pos }
{
    while sets.len() < len {
        sets.push(RoundSet::new(alloc))?;
    }
    Ok(())
}

impl RegSets {
    /// No join.
    fn new(alloc: Global) -> RegSets
        ensures { result ≡ [] }
    {
        RegSets {
            sets: Vec::new(alloc),
        }
    }

    /// The joins from `64 * w` on that name the bit at a position, the first of them the lowest bit.
    fn word(&self, stamp: u32, pos: u32, w: usize) -> u64
        ensures { result ≡ word_of stamp (row_at self.now pos) w }
    {
        let pos = pos as usize;
        if pos < self.sets.len() {
            self.sets[pos].word(stamp, w)
        } else {
            0
        }
    }

    /// A join names the bit at a position.
    fn note_join(
        &mut self,
        alloc: Global,
        stamp: u32,
        pos: u32,
        join: u32,
    ) -> Result<(), OutOfMemory>
        ensures put { OnOk result ((p k : ℕ) → has_round stamp (row_at self.new p) k
            ≡ (k == join && p == pos || has_round stamp (row_at self.old p) k)) }
        ensures stamps { AreStamped stamp self.old → AreStamped stamp self.new }
    {
        let pos = pos as usize;
        grow(alloc, &mut self.sets, pos + 1)?;
        let set = &mut self.sets[pos];
        set.add(stamp, join)?;
        Ok(())
    }
}

/// Makes room for this many registers.
fn grow_regs(alloc: Global, regs: &mut Vec<RegSets>, len: usize) -> Result<(), OutOfMemory>
    ensures long { OnOk result (len ≤ vec_len regs.new) }
    ensures same { (reg : ℕ) → sets_of regs.new.items reg ≡ sets_of regs.old.items reg }
{
    while regs.len() < len {
        regs.push(RegSets::new(alloc))?;
    }
    Ok(())
}

/// A join names a bit.
fn note_join(
    alloc: Global,
    regs: &mut Vec<RegSets>,
    stamp: u32,
    bit: BitId,
    join: u32,
) -> Result<(), OutOfMemory>
    ensures put { OnOk result ((b : ABit) (k : ℕ)
        → has_round stamp (row_at (sets_of regs.new.items b.reg) b.pos) k ≡
        (k == join && same_place b bit || has_round stamp (row_at (sets_of regs.old.items b.reg) b.pos) k)) }
    ensures stamps { ((reg : ℕ) → AreStamped stamp (sets_of regs.old.items reg)) → (reg : ℕ)
        → AreStamped stamp (sets_of regs.new.items reg) }
{
    let reg = bit.reg as usize;
    grow_regs(alloc, regs, reg + 1)?;
    let sets = &mut regs[reg];
    sets.note_join(alloc, stamp, bit.pos, join)?;
    Ok(())
}

/// For each bit the joins that name it, and the joins that nothing joins. Whether a join of 64 names a bit is
/// found without a search, and all are taken out at once.
#[derive(Drop)]
pub(crate) struct BitSets {
    alloc: Global,
    closed: RoundSet,
    /// The sets of each register.
    regs: Vec<RegSets>,
    /// The stamp of the sets that count.
    stamp: u32,
}

impl Model for BitSets {
    ghost use Rattle.merge_order.specs.Tables.{AreBitsStamped, StampedBits};

    ghost Value = { StampedBits };

    ghost view = { λ t. record { stamp = t.stamp; closed = t.closed; regs = t.regs.items } };

    ghost invariant = { λ t. AreBitsStamped t.stamp t.closed t.regs.items };
}

impl BitSets {
    /// No join. Takes no memory.
    pub fn new(alloc: Global) -> BitSets
        ensures bits { (b : ABit) (k : ℕ) → has_bit result b k ≡ false }
        ensures closed { (k : ℕ) → is_shut result k ≡ false }
    {
        BitSets {
            alloc,
            closed: RoundSet::new(alloc),
            regs: Vec::new(alloc),
            stamp: 1,
        }
    }

    /// Takes all joins out. Takes no memory.
    pub fn clear(&mut self)
        ensures bits { (b : ABit) (k : ℕ) → has_bit self.new b k ≡ false }
        ensures closed { (k : ℕ) → is_shut self.new k ≡ false }
    {
        if self.stamp < u32::MAX {
            self.stamp += 1;
        } else {
            self.closed = RoundSet::new(self.alloc);
            self.regs.clear();
            self.stamp = 1;
        }
    }

    /// Closes a join: nothing joins it.
    pub fn close(&mut self, join: u32) -> Result<(), OutOfMemory>
        ensures bits { OnOk result ((b : ABit) (k : ℕ) → has_bit self.new b k ≡ has_bit self.old b k) }
        ensures closed { OnOk result ((k : ℕ) → is_shut self.new k ≡ (k == join || is_shut self.old k)) }
    {
        self.closed.add(self.stamp, join)
    }

    /// A join names a bit.
    fn add(&mut self, bit: BitId, join: u32) -> Result<(), OutOfMemory>
        ensures bits { OnOk result ((b : ABit) (k : ℕ)
            → has_bit self.new b k ≡ (k == join && same_place b bit || has_bit self.old b k)) }
        ensures closed { OnOk result ((k : ℕ) → is_shut self.new k ≡ is_shut self.old k) }
    {
        note_join(self.alloc, &mut self.regs, self.stamp, bit, join)
    }

    /// A join names the bits of some writes.
    fn add_written(&mut self, writes: &[WriteBit], join: u32) -> Result<(), OutOfMemory>
        ensures bits { OnOk result ((b : ABit) (k : ℕ) → has_bit self.new b k
            ≡ (k == join && list_any (λ w. same_place b w.bit) writes.now || has_bit self.old b k)) }
        ensures closed { OnOk result ((k : ℕ) → is_shut self.new k ≡ is_shut self.old k) }
    {
        for write in writes {
            self.add(write.bit, join)?;
        }
        Ok(())
    }

    /// A join names the bits of some reads.
    fn add_read(&mut self, reads: &[ReadBit], join: u32) -> Result<(), OutOfMemory>
        ensures bits { OnOk result ((b : ABit) (k : ℕ) → has_bit self.new b k
            ≡ (k == join && list_any (λ r. same_place b r.bit) reads.now || has_bit self.old b k)) }
        ensures closed { OnOk result ((k : ℕ) → is_shut self.new k ≡ is_shut self.old k) }
    {
        for read in reads {
            self.add(read.bit, join)?;
        }
        Ok(())
    }

    /// A join names the bits that a round names.
    pub fn add_named(&mut self, group: &Group, join: u32) -> Result<(), OutOfMemory>
        ensures bits { OnOk result ((b : ABit) (k : ℕ)
            → has_bit self.new b k ≡ (k == join && names (seen_group group.now) b || has_bit self.old b k)) }
        ensures closed { OnOk result ((k : ℕ) → is_shut self.new k ≡ is_shut self.old k) }
    {
        self.add_written(group.writes.as_slice(), join)?;
        self.add_read(group.reads.as_slice(), join)?;
        Ok(())
    }

    /// The joins from `64 * w` on that name a bit, the first of them the lowest bit.
    fn bit_word(&self, bit: BitId, w: usize) -> u64
        ensures { (j : ℕ) → j < 64 → (bit_at result j == 1) ≡ has_bit self.now bit (64 * w + j) }
    {
        let reg = bit.reg as usize;
        if reg < self.regs.len() {
            self.regs[reg].word(self.stamp, bit.pos, w)
        } else {
            0
        }
    }

    /// The joins from `64 * w` on that name a bit of some writes.
    fn written_word(&self, writes: &[WriteBit], w: usize) -> u64
        ensures { (j : ℕ) → j < 64
            → (bit_at result j == 1) ≡ list_any (λ a. has_bit self.now a.bit (64 * w + j)) writes.now }
    {
        let mut word = 0;
        for write in writes {
            word = bits_of_either(word, self.bit_word(write.bit, w));
        }
        word
    }

    /// The joins from `64 * w` on that name a bit of some reads.
    fn read_word(&self, reads: &[ReadBit], w: usize) -> u64
        ensures { (j : ℕ) → j < 64
            → (bit_at result j == 1) ≡ list_any (λ a. has_bit self.now a.bit (64 * w + j)) reads.now }
    {
        let mut word = 0;
        for read in reads {
            word = bits_of_either(word, self.bit_word(read.bit, w));
        }
        word
    }

    /// The joins from `64 * w` on that nothing joins.
    fn closed_word(&self, w: usize) -> u64
        ensures { (j : ℕ) → j < 64 → (bit_at result j == 1) ≡ is_shut self.now (64 * w + j) }
    {
        self.closed.word(self.stamp, w)
    }

    /// The joins from `64 * w` on that name a bit that a round names.
    fn named_word(&self, group: &Group, w: usize) -> u64
        ensures { (j : ℕ) → j < 64
            → (bit_at result j == 1) ≡ names_one self.now (seen_group group.now) (64 * w + j) }
    {
        let written = self.written_word(group.writes.as_slice(), w);
        let read = self.read_word(group.reads.as_slice(), w);
        bits_of_either(written, read)
    }

    /// The joins from `64 * w` on that nothing joins, or that name a bit that a round names. Takes no memory.
    pub fn word(&self, group: &Group, w: usize) -> u64
        ensures { (j : ℕ) → j < 64 → (bit_at result j == 1)
            ≡ (is_shut self.now (64 * w + j) || names_one self.now (seen_group group.now) (64 * w + j)) }
    {
        let closed = self.closed_word(w);
        let named = self.named_word(group, w);
        bits_of_either(closed, named)
    }
}
