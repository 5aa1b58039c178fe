// Shift and update stages: lists of bits whose length stays. Position 0 is nearest TDO.
ghost use Rattle.std.specs.Prelude.{◌≡◌, length};
ghost use Rattle.ij_bits.specs.BitLists.{bit, bits_eq, bits_of};
ghost use Rattle.net_bench.specs.Instruction.{capture_ir};
ghost use Rattle.net_graph.specs.Chain.{shift};

use ij_bits::{Bits, Ring};

/// The bit at position 0, and 0 of no bits.
pub(crate) fn first_bit(stage: &Bits) -> bool
    ensures { result ≡ bit stage.now.items 0 }
{
    if stage.is_empty() {
        false
    } else {
        stage.get(0)
    }
}

/// The bit at position 0 of a list that turns, and 0 of no bits.
pub(crate) fn first_of_ring(stage: &Ring) -> bool
    ensures { result ≡ bit stage.now.items 0 }
{
    if stage.is_empty() {
        false
    } else {
        stage.get(0)
    }
}

/// One clock of a shift: answers the bit at position 0, and 0 of no bits.
pub(crate) fn shift_stage(stage: &mut Bits, tdi: bool) -> bool
    ensures tdo { result ≡ bit stage.old.items 0 }
    ensures items { stage.new.items ≡ shift stage.old.items tdi }
{
    if stage.is_empty() {
        false
    } else {
        stage.shift(tdi)
    }
}

/// One clock of a shift of a list that turns: answers the bit at position 0, and 0 of no bits.
pub(crate) fn shift_ring(stage: &mut Ring, tdi: bool) -> bool
    ensures tdo { result ≡ bit stage.old.items 0 }
    ensures items { stage.new.items ≡ shift stage.old.items tdi }
    ensures spare { stage.new.spare ≡ stage.old.spare }
{
    if stage.is_empty() {
        false
    } else {
        stage.shift(tdi)
    }
}

/// Makes a stage have the lowest bits of a number.
pub(crate) fn put_number(stage: &mut Bits, n: u64)
    ensures length { length stage.new.items ≡ length stage.old.items }
    ensures items { stage.new.items ≡ bits_of (length stage.old.items) n }
{
    let mut rest = n;
    for i in 0..stage.len() {
        stage.set(i, rest % 2 == 1);
        rest /= 2;
    }
}

/// Capture-IR: 1 at position 0 and 0 elsewhere.
#[tactic(auto, using(crate::proofs::StageSteps::captured_ir))]
pub(crate) fn capture_instruction(stage: &mut Bits)
    ensures length { length stage.new.items ≡ length stage.old.items }
    ensures items { stage.new.items ≡ capture_ir (length stage.old.items) }
{
    put_number(stage, 1);
}

/// Whether a stage has the lowest bits of a number.
pub(crate) fn is_number(stage: &Bits, n: u64) -> bool
    ensures { result ≡ bits_eq stage.now.items (bits_of (length stage.now.items) n) }
{
    let mut rest = n;
    for i in 0..stage.len() {
        if stage.get(i) != (rest % 2 == 1) {
            return false;
        }
        rest /= 2;
    }
    true
}
