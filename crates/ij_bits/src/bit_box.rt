// Bits that stay as many.
ghost use Rattle.std.specs.Prelude.{◌≡◌, ◌↔◌, ◌+◌, ◌<◌, ◌≤◌, ◌^◌, [], false, length, slice_index_or};
ghost use Rattle.std.specs.Prelude.{slice_range, IsTrue, IfOk};
ghost use Rattle.ij_bits.specs.BitLists.{number_of};

use crate::{Bits, OutOfMemory};
use std::alloc::Global;
use std::marker::Model;

/// A list of bits that doesn't grow.
///
/// Contracts see a record of one field: `items`, the bits in the order of their positions. So two lists with
/// the same bits are one.
#[derive(Drop)]
pub struct BitBox {
    bits: Bits,
}

impl Model for BitBox {
    ghost use Rattle.std.specs.Prelude.{Bool};
    ghost use Rattle.ij_bits.specs.Room.{Listed};

    ghost Value = { Listed Bool };

    ghost view = { λ b. record { items = b.bits.items } };
}

/// The bits of a list that may grow.
impl From<Bits> for BitBox {
    ghost use Rattle.std.specs.Prelude.{◌≡◌};

    ghost from_gives = { λ bits of. of.items ≡ bits.items };

    fn from(bits: Bits) -> Self {
        BitBox { bits }
    }
}

impl BitBox {
    /// The bits. Takes no memory.
    pub fn bits(&self) -> &Bits
        ensures { result.now.items ≡ self.now.items }
    {
        &self.bits
    }

    /// How many bits there are. Takes no memory.
    pub fn len(&self) -> u32
        ensures { result ≡ length self.now.items }
    {
        self.bits.len()
    }

    /// Whether there is no bit. Takes no memory.
    pub fn is_empty(&self) -> bool
        ensures { IsTrue result ↔ (self.now.items ≡ []) }
    {
        self.bits.is_empty()
    }

    /// The bit at position `i`. Takes no memory.
    pub fn get(&self, i: u32) -> bool
        requires { i < length self.now.items }
        ensures { result ≡ slice_index_or self.now.items i false }
    {
        self.bits.get(i)
    }

    /// A new list of the bits from position `from` on, up to the one before position `to`.
    pub fn slice(&self, alloc: Global, from: u32, to: u32) -> Result<Bits, OutOfMemory>
        requires order { from ≤ to }
        requires within { to ≤ length self.now.items }
        ensures { IfOk result (λ part. part.items ≡ slice_range self.now.items from to) }
    {
        self.bits.slice(alloc, from, to)
    }

    /// The number of the `n` bits from position `from` on, the first of them the lowest. Takes no memory.
    pub fn number(&self, from: u32, n: u32) -> u64
        requires few { n ≤ 64 }
        requires within { from + n ≤ length self.now.items }
        ensures value { result ≡ number_of (slice_range self.now.items from (from + n)) }
        ensures small { result < 2 ^ n }
    {
        self.bits.number(from, n)
    }
}
