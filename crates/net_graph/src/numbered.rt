// Bits and registers that are found by marks: the mark of each is its place, counted from 1.
ghost use Rattle.std.specs.Prelude.{◌≡◌, ℕ, ◌==◌, ◌<◌, ◌+◌, ◌^◌, [], ◌∷◌, ◌++◌, List, length, All, false};
ghost use Rattle.std.specs.List.{list_any, position};
ghost use Rattle.std.specs.Option.{IfNone, IfSome};
ghost use Rattle.net_graph.specs.declared.net.BitId.{BitId as ABit};
ghost use Rattle.net_graph.specs.Path.{same_place};
ghost use Rattle.net_graph.specs.Marks.{HasMark, mark_at, set_mark};
ghost use Rattle.net_graph.specs.Numbered.{AreNumbered, bits_compared, bits_written, first_bits};

use crate::bits::same_place;
use crate::mark_laws::marks_law;
use crate::marks::BitMarks;
use crate::net::{BitId, Net};
use crate::step::{ReadBit, WriteBit};

/// The place that the mark of a bit says, where it is among this many.
fn place_of(marks: &BitMarks, bit: BitId, count: usize) -> Option<usize>
    ensures some { IfSome result (λ i. (i < count) × (mark_at marks.now bit ≡ i + 1)) }
    ensures none { IfNone result ((i : ℕ) → i < count → mark_at marks.now bit ≡ i + 1 → ⊥) }
{
    let mark = marks.get(bit) as usize;
    if mark >= 1 && mark <= count {
        Some(mark - 1)
    } else {
        None
    }
}

/// Gives a bit the mark of the place after this many others. Where these have the marks of their places, and
/// none of them is this bit, all have them then. Takes no memory.
pub fn mark_next(_net: &Net, marks: &mut BitMarks, bit: BitId, count: usize)
    requires few { count + 1 < 2 ^ 32 }
    requires there { HasMark marks.old bit }
    ensures mark { marks.new ≡ set_mark marks.old bit (count + 1) }
    ensures numbered { (bits : List ABit) → AreNumbered _net.now marks.old bits → length bits ≡ count
        → All (λ c. same_place c bit ≡ false) bits → AreNumbered _net.now marks.new (bits ++ bit ∷ []) }
{
    marks_law();
    marks.set(bit, count as u32 + 1);
}

/// Where the write of a bit is among some whose bits have the marks of their places, or none. It looks at
/// one mark. Takes no memory.
pub fn index_of_write(
    _net: &Net,
    marks: &BitMarks,
    writes: &[WriteBit],
    bit: BitId,
) -> Option<usize>
    requires { AreNumbered _net.now marks.now (bits_written writes.now) }
    ensures { result ≡ position (λ w. same_place w.bit bit) writes.now }
{
    match place_of(marks, bit, writes.len()) {
        Some(i) => {
            if same_place(writes[i].bit, bit) {
                Some(i)
            } else {
                None
            }
        }
        None => None,
    }
}

/// Where the read of a bit is among some whose bits have the marks of their places, or none. It looks at
/// one mark. Takes no memory.
pub fn index_of_read(_net: &Net, marks: &BitMarks, reads: &[ReadBit], bit: BitId) -> Option<usize>
    requires { AreNumbered _net.now marks.now (bits_compared reads.now) }
    ensures { result ≡ position (λ r. same_place r.bit bit) reads.now }
{
    match place_of(marks, bit, reads.len()) {
        Some(i) => {
            if same_place(reads[i].bit, bit) {
                Some(i)
            } else {
                None
            }
        }
        None => None,
    }
}

/// Whether a register is among others, whose first bits have the marks of their places. It looks at one mark.
/// Takes no memory.
pub fn is_marked_register(_net: &Net, marks: &BitMarks, registers: &[u32], register: u32) -> bool
    requires { AreNumbered _net.now marks.now (first_bits registers.now) }
    ensures { result ≡ list_any (λ q. q == register) registers.now }
{
    let first = BitId {
        reg: register,
        pos: 0,
    };
    match place_of(marks, first, registers.len()) {
        Some(i) => registers[i] == register,
        None => false,
    }
}
