// The bits of a scan, packed 64 to a word.
ghost use Rattle.std.specs.Prelude.{◌≡◌, ◌+◌, ◌-◌, ◌<◌, ◌≤◌, ◌++◌, ◌∷◌, [], drop, length, take, slice_get};
ghost use Rattle.std.specs.Prelude.{IfOk, OnOk};
ghost use Rattle.std.specs.List.{list_any};
ghost use Rattle.ij_bits.specs.BitLists.{bits_eq, has_one};
ghost use Rattle.svf_notes.specs.Notes as notes;
ghost use Rattle.svf_notes.specs.Packed.{differing, expect_of, part_bits};

use crate::scan::Shifted;
use ij_bits::{Bits, OutOfMemory, bit_of_number};
use std::alloc::Global;
use std::marker::Model;

/// Up to 64 bits of a scan in a row. In each word of bits the lowest is that of the first of them.
#[derive(Clone, Copy)]
pub(crate) struct BitPart {
    /// How many there are.
    pub count: u32,
    /// The bits at TDI.
    pub tdi: u64,
    /// 1 for each bit that is compared.
    pub compared: u64,
    /// What is expected at TDO, where it is compared.
    pub expected: u64,
    /// What is found there.
    pub found: u64,
}

/// What is expected of a bit, if it is compared.
fn expect_of(compared: bool, expected: bool) -> Option<bool>
    ensures { result ≡ expect_of compared expected }
{
    if compared { Some(expected) } else { None }
}

impl BitPart {
    /// One of the bits.
    #[inline(always)]
    pub(crate) fn at(&self, i: u32) -> Shifted
        requires there { i < self.now.count }
        requires few { self.now.count ≤ 64 }
        ensures { drop i (part_bits self.now) ≡ result ∷ drop (i + 1) (part_bits self.now) }
    {
        let compared = bit_of_number(self.compared, i);
        let expected = bit_of_number(self.expected, i);
        Shifted {
            tdi: bit_of_number(self.tdi, i),
            expect: expect_of(compared, expected),
            found: bit_of_number(self.found, i),
        }
    }
}

/// Whether one of this many bits from a position on is 1.
fn any_bit_set(bits: &Bits, at: u32, width: u32) -> bool
    requires { at + width ≤ length bits.now.items }
    ensures { result ≡ has_one (take width (drop at bits.now.items)) }
{
    let _all = bits.len();
    let mut done = 0;
    while done < width {
        let n = (width - done).min(64);
        if bits.number(at + done, n) != 0 {
            return true;
        }
        done += n;
    }
    false
}

/// Whether two lists differ in one of this many bits from a position on where a third has a 1.
fn differ_where_set(marks: &Bits, bits: &Bits, others: &Bits, at: u32, width: u32) -> bool
    requires marks { at + width ≤ length marks.now.items }
    requires bits { at + width ≤ length bits.now.items }
    requires others { at + width ≤ length others.now.items }
    ensures { result ≡ has_one (differing (take width (drop at marks.now.items))
        (take width (drop at bits.now.items)) (take width (drop at others.now.items))) }
{
    let _all = marks.len();
    let mut done = 0;
    while done < width {
        let n = (width - done).min(64);
        let mark = marks.number(at + done, n);
        if (others.number(at + done, n) ^ bits.number(at + done, n)) & mark != 0 {
            return true;
        }
        done += n;
    }
    false
}

/// Whether the bits from a position on are those of another list.
fn are_same(bits: &Bits, at: u32, other: &Bits) -> bool
    requires { at + length other.now.items ≤ length bits.now.items }
    ensures { result ≡ bits_eq (take (length other.now.items) (drop at bits.now.items)) other.now.items }
{
    let _all = bits.len();
    let width = other.len();
    let mut done = 0;
    while done < width {
        let n = (width - done).min(64);
        if bits.number(at + done, n) != other.number(done, n) {
            return false;
        }
        done += n;
    }
    true
}

/// The bits of a scan, position 0 first. Contracts see a record whose `items` are those bits.
#[derive(Drop)]
pub(crate) struct ScanBits {
    tdi: Bits,
    compared: Bits,
    expected: Bits,
    found: Bits,
}

impl Model for ScanBits {
    ghost use Rattle.std.specs.Prelude.{◌≡◌, length};
    ghost use Rattle.svf_notes.specs.Packed.{ScanItems, together, AreAsMany};

    ghost Value = { ScanItems };

    ghost view = { λ b. record { items = together b.tdi.items b.compared.items b.expected.items b.found.items } };

    ghost invariant = { λ b. AreAsMany (length b.tdi.items) b.compared.items b.expected.items b.found.items };
}

/// The most bits that a scan can have here.
const MOST: u32 = u32::MAX - 64;

impl ScanBits {
    /// No bits.
    pub(crate) fn new(alloc: Global) -> Result<ScanBits, OutOfMemory>
        ensures { IfOk result (λ bits. bits.items ≡ []) }
    {
        Ok(ScanBits {
            tdi: Bits::zeros(alloc, 0)?,
            compared: Bits::zeros(alloc, 0)?,
            expected: Bits::zeros(alloc, 0)?,
            found: Bits::zeros(alloc, 0)?,
        })
    }

    /// How many bits there are.
    pub(crate) fn len(&self) -> u32
        ensures { result ≡ length self.now.items }
    {
        self.tdi.len()
    }

    /// Takes all bits out, and keeps their room.
    pub(crate) fn clear(&mut self)
        ensures { self.new.items ≡ [] }
    {
        self.tdi.clear();
        self.compared.clear();
        self.expected.clear();
        self.found.clear();
    }

    /// Adds some bits at the far end. A scan of 4,294,967,232 bits or more finds no room.
    pub(crate) fn append(&mut self, part: &BitPart) -> Result<(), OutOfMemory>
        requires { part.now.count ≤ 64 }
        ensures { OnOk result (self.new.items ≡ self.old.items ++ part_bits part.now) }
    {
        let n = part.count;
        if self.tdi.len() > MOST {
            return Err(OutOfMemory);
        }
        self.tdi.reserve(n)?;
        self.compared.reserve(n)?;
        self.expected.reserve(n)?;
        self.found.reserve(n)?;
        self.tdi.append_number_reserved(part.tdi, n);
        self.compared.append_number_reserved(part.compared, n);
        self.expected.append_number_reserved(part.expected, n);
        self.found.append_number_reserved(part.found, n);
        Ok(())
    }

    /// Up to 64 of the bits, from a position on.
    #[inline(always)]
    pub(crate) fn part(&self, at: u32, count: u32) -> BitPart
        requires few { count ≤ 64 }
        requires within { at + count ≤ length self.now.items }
        ensures count { result.count ≡ count }
        ensures bits { part_bits result ≡ take count (drop at self.now.items) }
    {
        BitPart {
            count,
            tdi: self.tdi.number(at, count),
            compared: self.compared.number(at, count),
            expected: self.expected.number(at, count),
            found: self.found.number(at, count),
        }
    }

    /// The bit at a position, if there is one.
    pub(crate) fn get(&self, at: u64) -> Option<Shifted>
        ensures { result ≡ slice_get self.now.items at }
    {
        if at >= u64::from(self.len()) {
            return None;
        }
        Some(self.part(at as u32, 1).at(0))
    }

    /// The bits at TDI.
    pub(crate) fn tdi(&self) -> &Bits
        ensures { result.now.items ≡ notes.tdi_bits self.now.items }
    {
        &self.tdi
    }

    /// Whether some of the bits from a position on is compared.
    pub(crate) fn any_compared(&self, at: u32, width: u32) -> bool
        requires { at + width ≤ length self.now.items }
        ensures { result ≡ list_any notes.is_compared (take width (drop at self.now.items)) }
    {
        any_bit_set(&self.compared, at, width)
    }

    /// Whether at some of the bits from a position on another is found than is expected.
    pub(crate) fn any_differs(&self, at: u32, width: u32) -> bool
        requires { at + width ≤ length self.now.items }
        ensures { result ≡ list_any notes.differs (take width (drop at self.now.items)) }
    {
        differ_where_set(&self.compared, &self.expected, &self.found, at, width)
    }

    /// Whether the bits at TDI from a position on are those that a register holds.
    pub(crate) fn is_held(&self, at: u32, held: &Bits) -> bool
        requires { at + length held.now.items ≤ length self.now.items }
        ensures { result ≡ bits_eq
            (notes.tdi_bits (take (length held.now.items) (drop at self.now.items))) held.now.items }
    {
        are_same(&self.tdi, at, held)
    }
}
