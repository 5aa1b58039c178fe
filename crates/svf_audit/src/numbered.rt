// The writes and reads of a group, and the registers of a path, each found by its mark.
ghost use Rattle.net_graph.specs.Numbered.{AreNumbered, HaveMarks, bits_compared, bits_written, first_bits};
ghost use Rattle.svf_audit.specs.Numbers.{AreCountable};

use net_graph::{BitId, BitMarks, Net, ReadBit, WriteBit, mark_next};

/// Gives each bit that is written the mark of its place.
pub(crate) fn number_writes(net: &Net, marks: &mut BitMarks, writes: &[WriteBit])
    requires bits { AreCountable net.now (bits_written writes.now) }
    requires there { HaveMarks net.now marks.old }
    ensures { AreNumbered net.now marks.new (bits_written writes.now) }
{
    for i in 0..writes.len() {
        mark_next(net, marks, writes[i].bit, i);
    }
}

/// Gives each bit that is read the mark of its place.
pub(crate) fn number_reads(net: &Net, marks: &mut BitMarks, reads: &[ReadBit])
    requires bits { AreCountable net.now (bits_compared reads.now) }
    requires there { HaveMarks net.now marks.old }
    ensures { AreNumbered net.now marks.new (bits_compared reads.now) }
{
    for i in 0..reads.len() {
        mark_next(net, marks, reads[i].bit, i);
    }
}

/// Gives the first bit of each register of a path the mark of its place.
pub(crate) fn number_registers(net: &Net, marks: &mut BitMarks, path: &[u32])
    requires bits { AreCountable net.now (first_bits path.now) }
    requires there { HaveMarks net.now marks.old }
    ensures { AreNumbered net.now marks.new (first_bits path.now) }
{
    for i in 0..path.len() {
        let first = BitId {
            reg: path[i],
            pos: 0,
        };
        mark_next(net, marks, first, i);
    }
}
