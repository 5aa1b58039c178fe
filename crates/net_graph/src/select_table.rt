// Which bits select, in a table.
ghost use Rattle.std.specs.Prelude.{◌≡◌, ◌||◌, All, IfOk};
ghost use Rattle.std.specs.List.{list_any};
ghost use Rattle.net_graph.specs.declared.net.BitId.{BitId as ABit};
ghost use Rattle.net_graph.specs.Nets.{IsNet};
ghost use Rattle.net_graph.specs.Path.{is_select, same_place};
ghost use Rattle.net_graph.specs.Marks.{HasMark};
ghost use Rattle.net_graph.specs.MarkedSelects.{AreSelects, is_marked};

use crate::mark_laws::marks_law;
use crate::marks::BitMarks;
use crate::net::{BitId, Net};
use ij_bits::OutOfMemory;
use std::alloc::Global;

/// Marks a bit.
fn mark_one(marks: &mut BitMarks, bit: BitId)
    requires { HasMark marks.old bit }
    ensures marked { (b : ABit) → is_marked marks.new b ≡ (same_place b bit || is_marked marks.old b) }
    ensures there { (b : ABit) → HasMark marks.old b → HasMark marks.new b }
{
    marks_law();
    marks.set(bit, 1);
}

/// Marks bits.
fn mark_all(marks: &mut BitMarks, bits: &[BitId])
    requires { All (HasMark marks.old) bits.now }
    ensures marked { (b : ABit)
        → is_marked marks.new b ≡ (list_any (same_place b) bits.now || is_marked marks.old b) }
    ensures there { (b : ABit) → HasMark marks.old b → HasMark marks.new b }
{
    for bit in bits {
        mark_one(marks, *bit);
    }
}

/// A table in which the bits that select are marked, and no others.
pub fn selects_of(alloc: Global, net: &Net) -> Result<BitMarks, OutOfMemory>
    requires { IsNet net.now }
    ensures { IfOk result (AreSelects net.now) }
{
    marks_law();
    let mut marks = BitMarks::zeros(alloc, net)?;
    for mux in net.muxes.as_slice() {
        mark_all(&mut marks, mux.select.as_slice());
    }
    Ok(marks)
}

/// Whether a bit of a network selects, by its table. Takes no memory.
pub fn is_marked_select(_net: &Net, selects: &BitMarks, bit: BitId) -> bool
    requires { AreSelects _net.now selects.now }
    ensures { result ≡ is_select _net.now bit }
{
    selects.get(bit) != 0
}
