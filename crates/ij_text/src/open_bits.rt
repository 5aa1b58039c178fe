// Bits of which some are open, added one by one or a digit at a time.
ghost use Rattle.std.specs.Prelude.{◌≡◌, ◌+◌, ◌^◌, ◌<◌, ◌≤◌, ◌++◌, ◌∷◌, [], cond, length, map, None, Some};
ghost use Rattle.std.specs.Prelude.{OnOk, OnErr, IfOk};
ghost use Rattle.ij_bits.specs.BitLists.{bits_of};
ghost use Rattle.ij_text.specs.Numbers.{open_bits};

use ij_bits::{BitBox, Bits, OutOfMemory, Tern};
use std::alloc::Global;
use std::marker::Model;

/// Bits, each of them 0, 1 or open, as the digits of a number give them (an `x` stands for open bits).
/// Position 0 is the lowest bit. Contracts see a list of optional bits, none where the bit is open.
#[derive(Drop)]
pub struct OpenBits {
    value: Bits,
    care: Bits,
}

impl Model for OpenBits {
    ghost use Rattle.std.specs.Prelude.{◌≡◌, ℕ, Bool, List, Option, length, slice_index_or, false};
    ghost use Rattle.ij_text.specs.Numbers.{open_bits};

    ghost Value = { List (Option Bool) };

    ghost view = { λ b. open_bits b.value.items b.care.items };

    ghost invariant = { λ b. (length b.value.items ≡ length b.care.items) × ((k : ℕ)
        → slice_index_or b.care.items k false ≡ false → slice_index_or b.value.items k false ≡ false) };
}

/// A number, or 0 for open bits.
fn unless_open(is_open: bool, value: u64) -> u64
    ensures { result ≡ cond is_open 0 value }
{
    if is_open { 0 } else { value }
}

impl OpenBits {
    /// No bits.
    pub fn new(alloc: Global) -> Result<Self, OutOfMemory>
        ensures { IfOk result (λ bits. bits ≡ []) }
    {
        let value = Bits::zeros(alloc, 0)?;
        let care = Bits::zeros(alloc, 0)?;
        Ok(OpenBits { value, care })
    }

    /// Adds a bit at the far end.
    pub fn push(&mut self, bit: Option<bool>) -> Result<(), OutOfMemory>
        requires { length self.old + 1 < 2 ^ 32 }
        ensures ok { OnOk result (self.new ≡ self.old ++ bit ∷ []) }
        ensures err { OnErr result (self.new ≡ self.old) }
    {
        self.value.reserve(1)?;
        self.care.reserve(1)?;
        self.value.push_reserved(bit == Some(true));
        self.care.push_reserved(bit.is_some());
        Ok(())
    }

    /// Adds the `n` lowest bits of a value at the far end, the lowest first, or this many open bits.
    pub fn push_digit(&mut self, value: u64, n: u32, is_open: bool) -> Result<(), OutOfMemory>
        requires short { length self.old + n < 2 ^ 32 }
        requires word { n ≤ 64 }
        ensures ok { OnOk result
            (self.new ≡ self.old ++ map (λ bit. cond is_open None (Some bit)) (bits_of n value)) }
        ensures err { OnErr result (self.new ≡ self.old) }
    {
        self.value.reserve(n)?;
        self.care.reserve(n)?;
        self.value
            .append_number_reserved(unless_open(is_open, value), n);
        self.care
            .append_number_reserved(unless_open(is_open, u64::MAX), n);
        Ok(())
    }

    /// The bits as a number with open bits. Takes no memory.
    pub fn into_tern(self) -> Tern
        ensures { open_bits result.value.items result.care.items ≡ self }
    {
        let OpenBits { value, care } = self;
        Tern {
            value: BitBox::from(value),
            care: BitBox::from(care),
        }
    }
}
