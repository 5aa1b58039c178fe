// A set of rounds.
ghost use Rattle.std.specs.Prelude.{◌≡◌, ◌≤◌, ◌<◌, ◌==◌, ◌||◌, ◌/◌, ℕ, length, slice_index_or, true, vec_len};
ghost use Rattle.std.specs.Prelude.{OnErr, OnOk};
ghost use Rattle.pdl_targets.specs.Sets.{has_round, is_in_words, no_set, word_of};

use crate::words::with_bit;
use ij_bits::OutOfMemory;
use std::alloc::Global;
use std::marker::Model;

/// A set of rounds, 64 to a word. It counts where its stamp is that of the table that it is in, so that a new
/// stamp empties all sets of the table.
#[derive(Drop)]
pub struct RoundSet {
    stamp: u32,
    words: Vec<u64>,
}

impl Model for RoundSet {
    ghost use Rattle.pdl_targets.specs.Sets.{StampedSet};

    ghost Value = { StampedSet };

    ghost view = { λ s. record { stamp = s.stamp; words = s.words.items } };
}

/// Makes room for this many words.
fn grow(words: &mut Vec<u64>, len: usize) -> Result<(), OutOfMemory>
    ensures long { OnOk result (len ≤ vec_len words.new) }
    ensures same { (w : ℕ) → slice_index_or words.new.items w 0 ≡ slice_index_or words.old.items w 0 }
{
    while words.len() < len {
        words.push(0)?;
    }
    Ok(())
}

/// Puts a round in.
fn put(words: &mut [u64], round: u32)
    requires { round / 64 < length words.old }
    ensures { (k : ℕ) → is_in_words words.new k ≡ (k == round || is_in_words words.old k) }
{
    let at = (round / 64) as usize;
    words[at] = with_bit(words[at], round % 64);
}

impl RoundSet {
    /// No round. Takes no memory.
    pub fn new(alloc: Global) -> RoundSet
        ensures { result ≡ no_set }
    {
        RoundSet {
            stamp: 0,
            words: Vec::new(alloc),
        }
    }

    /// The rounds from `64 * w` on, the first of them the lowest bit. Takes no memory.
    pub fn word(&self, stamp: u32, w: usize) -> u64
        ensures { result ≡ word_of stamp self.now w }
    {
        if self.stamp == stamp && w < self.words.len() {
            self.words[w]
        } else {
            0
        }
    }

    /// Whether a round is in. Takes no memory.
    pub(crate) fn has(&self, stamp: u32, round: u32) -> bool
        ensures { result ≡ has_round stamp self.now round }
    {
        let word = self.word(stamp, (round / 64) as usize);
        (word >> (round % 64)) & 1 == 1
    }

    /// Takes a stamp. Where it is another one, no round is left.
    fn take_stamp(&mut self, stamp: u32)
        ensures stamped { self.new.stamp ≡ stamp }
        ensures same { (w : ℕ) → word_of stamp self.new w ≡ word_of stamp self.old w }
    {
        if self.stamp != stamp {
            self.words.clear();
            self.stamp = stamp;
        }
    }

    /// Puts a round in.
    pub fn add(&mut self, stamp: u32, round: u32) -> Result<(), OutOfMemory>
        ensures put { OnOk result ((k : ℕ)
            → has_round stamp self.new k ≡ (k == round || has_round stamp self.old k)) }
        ensures stays { OnErr result ((k : ℕ) → has_round stamp self.new k ≡ has_round stamp self.old k) }
        ensures keeps { (k : ℕ) → has_round stamp self.old k ≡ true → has_round stamp self.new k ≡ true }
        ensures stamped { self.new.stamp ≡ stamp }
    {
        self.take_stamp(stamp);
        grow(&mut self.words, (round / 64) as usize + 1)?;
        put(&mut self.words, round);
        Ok(())
    }
}
