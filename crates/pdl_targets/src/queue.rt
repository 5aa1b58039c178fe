// The queue of writes and reads up to the next iApply.
ghost use Rattle.std.specs.Prelude.{◌≡◌, ◌<◌, ◌≤◌, ◌+◌, ◌^◌, [], ◌∷◌, length, map, All};
ghost use Rattle.net_graph.specs.Named.{IsBitOf};
ghost use Rattle.net_graph.specs.Path.{is_in};
ghost use Rattle.pdl_targets.specs.Marked.{AreNumbered, bits_compared, bits_written, first_bits};
ghost use Rattle.pdl_targets.specs.Rounds.{mention, put_read, put_reads, put_write, put_writes};

use ij_bits::Buffer;
use net_graph::{
    BitId, BitMarks, Net, ReadBit, WriteBit, index_of_read, index_of_write, is_marked_register,
    mark_next,
};

/// Puts a write into a queue with room for it: in place of one of the same bit, or at the end.
fn put_write(net: &Net, marks: &mut BitMarks, writes: &mut Buffer<WriteBit>, write: WriteBit)
    requires room { 1 ≤ writes.old.spare }
    requires few { length writes.old.items + 1 < 2 ^ 32 }
    requires numbered { AreNumbered net.now marks.old (bits_written writes.old.items) }
    requires bit { IsBitOf net.now write.bit }
    ensures items { writes.new.items ≡ put_write writes.old.items write }
    ensures room { writes.old.spare ≤ writes.new.spare + 1 }
    ensures few { length writes.new.items ≤ length writes.old.items + 1 }
    ensures numbered { AreNumbered net.now marks.new (bits_written writes.new.items) }
{
    match index_of_write(net, marks, writes.as_slice(), write.bit) {
        Some(i) => writes.set(i, write),
        None => {
            mark_next(net, marks, write.bit, writes.len());
            writes.push_reserved(write);
        }
    }
}

/// Puts writes into a queue with room for them, one after the other.
pub(crate) fn put_writes(
    net: &Net,
    marks: &mut BitMarks,
    writes: &mut Buffer<WriteBit>,
    more: &[WriteBit],
)
    requires room { length more.now ≤ writes.old.spare }
    requires few { length writes.old.items + length more.now < 2 ^ 32 }
    requires numbered { AreNumbered net.now marks.old (bits_written writes.old.items) }
    requires bits { All (λ w. IsBitOf net.now w.bit) more.now }
    ensures items { writes.new.items ≡ put_writes writes.old.items more.now }
    ensures numbered { AreNumbered net.now marks.new (bits_written writes.new.items) }
{
    for write in more {
        put_write(net, marks, writes, *write);
    }
}

/// Puts a read into a queue with room for it: in place of one of the same bit, or at the end.
fn put_read(net: &Net, marks: &mut BitMarks, reads: &mut Buffer<ReadBit>, read: ReadBit)
    requires room { 1 ≤ reads.old.spare }
    requires few { length reads.old.items + 1 < 2 ^ 32 }
    requires numbered { AreNumbered net.now marks.old (bits_compared reads.old.items) }
    requires bit { IsBitOf net.now read.bit }
    ensures items { reads.new.items ≡ put_read reads.old.items read }
    ensures room { reads.old.spare ≤ reads.new.spare + 1 }
    ensures few { length reads.new.items ≤ length reads.old.items + 1 }
    ensures numbered { AreNumbered net.now marks.new (bits_compared reads.new.items) }
{
    match index_of_read(net, marks, reads.as_slice(), read.bit) {
        Some(i) => reads.set(i, read),
        None => {
            mark_next(net, marks, read.bit, reads.len());
            reads.push_reserved(read);
        }
    }
}

/// Puts reads into a queue with room for them, one after the other.
pub(crate) fn put_reads(
    net: &Net,
    marks: &mut BitMarks,
    reads: &mut Buffer<ReadBit>,
    more: &[ReadBit],
)
    requires room { length more.now ≤ reads.old.spare }
    requires few { length reads.old.items + length more.now < 2 ^ 32 }
    requires numbered { AreNumbered net.now marks.old (bits_compared reads.old.items) }
    requires bits { All (λ r. IsBitOf net.now r.bit) more.now }
    ensures items { reads.new.items ≡ put_reads reads.old.items more.now }
    ensures numbered { AreNumbered net.now marks.new (bits_compared reads.new.items) }
{
    for read in more {
        put_read(net, marks, reads, *read);
    }
}

/// Mentions the register of a bit; there is room for it.
fn mention_one(net: &Net, marks: &mut BitMarks, registers: &mut Buffer<u32>, bit: BitId)
    requires room { 1 ≤ registers.old.spare }
    requires few { length registers.old.items + 1 < 2 ^ 32 }
    requires numbered { AreNumbered net.now marks.old (first_bits registers.old.items) }
    requires bit { IsBitOf net.now bit }
    ensures items { registers.new.items ≡ mention registers.old.items (bit.reg ∷ []) }
    ensures room { registers.old.spare ≤ registers.new.spare + 1 }
    ensures few { length registers.new.items ≤ length registers.old.items + 1 }
    ensures numbered { AreNumbered net.now marks.new (first_bits registers.new.items) }
{
    if is_marked_register(net, marks, registers.as_slice(), bit.reg) {
        return;
    }
    let first = BitId {
        reg: bit.reg,
        pos: 0,
    };
    mark_next(net, marks, first, registers.len());
    registers.push_reserved(bit.reg);
}

/// Mentions the registers of writes; there is room for them.
pub(crate) fn mention_written(
    net: &Net,
    marks: &mut BitMarks,
    registers: &mut Buffer<u32>,
    writes: &[WriteBit],
)
    requires room { length writes.now ≤ registers.old.spare }
    requires few { length registers.old.items + length writes.now < 2 ^ 32 }
    requires numbered { AreNumbered net.now marks.old (first_bits registers.old.items) }
    requires bits { All (λ w. IsBitOf net.now w.bit) writes.now }
    ensures items { registers.new.items ≡ mention registers.old.items (map (λ w. w.bit.reg) writes.now) }
    ensures numbered { AreNumbered net.now marks.new (first_bits registers.new.items) }
{
    for write in writes {
        mention_one(net, marks, registers, write.bit);
    }
}

/// Mentions the registers of reads; there is room for them.
pub(crate) fn mention_read(
    net: &Net,
    marks: &mut BitMarks,
    registers: &mut Buffer<u32>,
    reads: &[ReadBit],
)
    requires room { length reads.now ≤ registers.old.spare }
    requires few { length registers.old.items + length reads.now < 2 ^ 32 }
    requires numbered { AreNumbered net.now marks.old (first_bits registers.old.items) }
    requires bits { All (λ r. IsBitOf net.now r.bit) reads.now }
    ensures items { registers.new.items ≡ mention registers.old.items (map (λ r. r.bit.reg) reads.now) }
    ensures numbered { AreNumbered net.now marks.new (first_bits registers.new.items) }
{
    for read in reads {
        mention_one(net, marks, registers, read.bit);
    }
}
