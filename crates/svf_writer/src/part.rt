// The bits of a part of a scan.
ghost use Rattle.std.specs.Prelude.{◌==◌, ◌≡◌, ◌↔◌, ◌+◌, ◌^◌, ◌<◌, ◌≤◌, ℕ, false, [], length, slice_index_or};
ghost use Rattle.std.specs.Prelude.{slice_range, unwrap_or, None, Some, IfOk, IsSome, IsTrue};
ghost use Rattle.std.specs.Int.{bit_at};
ghost use Rattle.ij_bits.specs.BitLists.{bits_of, number_of};
ghost use Rattle.svf_writer.specs.Lent.{lent};

use ij_bits::{Bits, OutOfMemory, bit_of_number};
use std::alloc::Global;
use std::marker::Model;

/// Where the bits of a part lie.
#[derive(Drop)]
pub(crate) enum Stored {
    /// The part doesn't stand in the command.
    Absent,
    /// At most 64 bits, in one number, position 0 the lowest.
    Word { count: u32, bits: u64 },
    /// Any number of bits.
    List(Box<Bits>),
}

/// A part of a scan: its bits, where it is in the command. Position 0 is the bit that is shifted first,
/// so the one nearest TDO. At most 64 bits lie in the value itself.
///
/// Contracts see an optional list of bits.
#[derive(Drop)]
pub struct ScanPart {
    pub(crate) stored: Stored,
}

impl Model for ScanPart {
    ghost use Rattle.std.specs.Prelude.{Option, List, Bool};
    ghost use Rattle.svf_writer.specs.Stored.{bits_code, seen_part, IsStored};

    ghost Value = { Option (List Bool) };

    ghost coded = { bits_code };

    ghost view = { λ p. seen_part p.stored };

    ghost invariant = { λ p. IsStored p.stored };
}

/// The `n` bits of a number from a place on.
fn bits_of_number(number: u64, from: u32, n: u32) -> u64
    requires { from + n ≤ 64 }
    ensures bits { (k : ℕ) → k < n → (bit_at result k == 1) ≡ (bit_at number (from + k) == 1) }
    ensures small { result < 2 ^ n }
{
    if n == 0 {
        return 0;
    }
    (number >> from) & (u64::MAX >> (64 - n))
}

impl ScanPart {
    /// A part that doesn't stand in the command. Takes no memory.
    pub fn absent() -> ScanPart
        ensures { result ≡ None }
    {
        ScanPart {
            stored: Stored::Absent,
        }
    }

    /// The lowest bits of a number, at most 64, of which no further ones are 1. Takes no memory.
    pub fn of_number(count: u32, bits: u64) -> ScanPart
        requires word { count ≤ 64 }
        requires fits { bits < 2 ^ count }
        ensures { result ≡ Some (bits_of count bits) }
    {
        ScanPart {
            stored: Stored::Word { count, bits },
        }
    }

    /// These bits; `OutOfMemory` where there is no memory for a list.
    pub fn of_bits(alloc: Global, bits: Bits) -> Result<ScanPart, OutOfMemory>
        ensures { IfOk result (λ part. part ≡ Some bits.items) }
    {
        let list = Box::new(alloc, bits)?;
        Ok(ScanPart {
            stored: Stored::List(list),
        })
    }

    /// Whether the part is in the command. Takes no memory.
    pub fn is_given(&self) -> bool
        ensures { IsTrue result ↔ IsSome self.now }
    {
        match &self.stored {
            Stored::Absent => false,
            Stored::Word { .. } => true,
            Stored::List(_) => true,
        }
    }

    /// The bit at a position. Takes no memory.
    pub fn get(&self, k: u32) -> bool
        requires { k < length (unwrap_or self.now []) }
        ensures { result ≡ slice_index_or (unwrap_or self.now []) k false }
    {
        match &self.stored {
            Stored::Absent => false,
            Stored::Word { bits, .. } => bit_of_number(*bits, k),
            Stored::List(bits) => bits.get(k),
        }
    }

    /// The number of the `n` bits from position `from` on, the first of them the lowest. It reads one or two
    /// words. Takes no memory.
    pub fn number(&self, from: u32, n: u32) -> u64
        requires few { n ≤ 64 }
        requires within { from + n ≤ length (unwrap_or self.now []) }
        ensures { result ≡ number_of (slice_range (unwrap_or self.now []) from (from + n)) }
    {
        match &self.stored {
            Stored::Absent => 0,
            Stored::Word { bits, .. } => bits_of_number(*bits, from, n),
            Stored::List(bits) => bits.number(from, n),
        }
    }

    /// How many bits it has, 0 where it doesn't stand in the command. Takes no memory.
    pub fn len(&self) -> u32
        ensures { result ≡ length (unwrap_or self.now []) }
    {
        match &self.stored {
            Stored::Absent => 0,
            Stored::Word { count, .. } => *count,
            Stored::List(bits) => bits.len(),
        }
    }
}

/// A part of a scan, lent where it is in the command. Takes no memory.
pub fn part_if_given(part: &ScanPart) -> Option<&ScanPart>
    ensures { lent result ≡ part.now }
{
    if part.is_given() { Some(part) } else { None }
}
