// The lines of the bits that a round reads.
ghost use Rattle.std.specs.Prelude.{◌≡◌, ◌≤◌, length, filter, All, OnOk, OnErr};
ghost use Rattle.direct_report.specs.Marked.{AreMarked, marked};
ghost use Rattle.direct_report.specs.Report.{differs, in_order, line_if, lines, reads_on};
ghost use Rattle.direct_report.specs.Seen.{found_all};
ghost use Rattle.ij_io.specs.Bytes.{Adds, AddsPart};
ghost use Rattle.ij_io.specs.Causes.{HasCause};
ghost use Rattle.net_graph.specs.Named.{IsBitOf, bits_from};
ghost use Rattle.net_graph.specs.Nets.{IsNet};

use ij_io::{Sink, StoreFault};
use net_graph::{BitId, BitMarks, Net, ReadBit, register_count};
use pdl_meaning::DataState;
use report::{Differ, put_differ, width_of};

/// How many reads differ.
pub(crate) fn count_differing(values: &DataState, reads: &[ReadBit]) -> u64
    requires there { All (λ r. IsBitOf values.now.net r.bit) reads.now }
    requires few { length reads.now ≤ 4096 }
    ensures { result ≡ length (filter differs (found_all values.now reads.now)) }
{
    let mut count = 0u64;
    for read in reads {
        if values.found(read.bit) != read.expect {
            count += 1;
        }
    }
    count
}

/// Writes the line of a read, if it differs.
fn put_read<K: Sink>(read: ReadBit, found: bool, k: &mut K) -> Result<(), StoreFault>
    ensures whole { OnOk result (Adds (K.taken k.old) (K.taken k.new) (line_if (read, found))) }
    ensures part { OnErr result (AddsPart (K.taken k.old) (K.taken k.new) (line_if (read, found))) }
    ensures cause { HasCause (K.faults k.old) (K.faults k.new) result StoreFault.Failed }
{
    if read.expect == found {
        return Ok(());
    }
    let differ = Differ {
        scan: 0,
        bit: 0,
        expect: read.expect,
        found,
        read: Some(read),
    };
    put_differ(&differ, k)
}

/// Writes the line of the read that a mark leads to, if it differs.
fn put_marked<K: Sink>(
    values: &DataState,
    reads: &[ReadBit],
    mark: u32,
    k: &mut K,
) -> Result<(), StoreFault>
    requires there { All (λ r. IsBitOf values.now.net r.bit) reads.now }
    requires within { mark ≤ length reads.now }
    ensures whole { OnOk result
        (Adds (K.taken k.old) (K.taken k.new) (lines (found_all values.now (marked reads.now mark)))) }
    ensures part { OnErr result
        (AddsPart (K.taken k.old) (K.taken k.new) (lines (found_all values.now (marked reads.now mark)))) }
    ensures cause { HasCause (K.faults k.old) (K.faults k.new) result StoreFault.Failed }
{
    if mark == 0 {
        return Ok(());
    }
    let read = reads[mark as usize - 1];
    put_read(read, values.found(read.bit), k)
}

/// Writes the lines of the reads on the lowest bits of a register.
fn put_register_reads<K: Sink>(
    values: &DataState,
    reads: &[ReadBit],
    marks: &BitMarks,
    reg: u32,
    width: u32,
    k: &mut K,
) -> Result<(), StoreFault>
    requires there { All (λ r. IsBitOf values.now.net r.bit) reads.now }
    requires marks { AreMarked reads.now marks.now }
    ensures whole { OnOk result (Adds (K.taken k.old) (K.taken k.new)
        (lines (reads_on (found_all values.now reads.now) (bits_from reg 0 width)))) }
    ensures part { OnErr result (AddsPart (K.taken k.old) (K.taken k.new)
        (lines (reads_on (found_all values.now reads.now) (bits_from reg 0 width)))) }
    ensures cause { HasCause (K.faults k.old) (K.faults k.new) result StoreFault.Failed }
{
    for pos in 0..width {
        put_marked(values, reads, marks.get(BitId { reg, pos }), k)?;
    }
    Ok(())
}

/// Writes the line of each read that differs, by register and position.
pub(crate) fn put_reads<K: Sink>(
    net: &Net,
    values: &DataState,
    reads: &[ReadBit],
    marks: &BitMarks,
    k: &mut K,
) -> Result<(), StoreFault>
    requires well_formed { IsNet net.now }
    requires there { All (λ r. IsBitOf values.now.net r.bit) reads.now }
    requires marks { AreMarked reads.now marks.now }
    ensures whole { OnOk result
        (Adds (K.taken k.old) (K.taken k.new) (lines (in_order net.now (found_all values.now reads.now)))) }
    ensures part { OnErr result (AddsPart (K.taken k.old) (K.taken k.new)
        (lines (in_order net.now (found_all values.now reads.now)))) }
    ensures cause { HasCause (K.faults k.old) (K.faults k.new) result StoreFault.Failed }
{
    let count = register_count(net);
    for reg in 0..count {
        put_register_reads(values, reads, marks, reg, width_of(net, reg), k)?;
    }
    Ok(())
}
