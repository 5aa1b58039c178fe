// Marks at the bits that a round reads.
ghost use Rattle.std.specs.Prelude.{◌≤◌, length, map, All};
ghost use Rattle.net_graph.specs.Marks.{HasMark};
ghost use Rattle.net_graph.specs.Numbered.{HaveMarks};
ghost use Rattle.direct_report.specs.Marked.{AreBlank, AreMarked};
ghost use Rattle.ij_bits.specs.Different.{AreDifferent};
ghost use Rattle.net_graph.specs.declared.net.Net.{Net};

use net_graph::{BitMarks, ReadBit};

/// Marks each bit that is read with the place of its read, counted from 1.
pub(crate) fn mark_reads(reads: &[ReadBit], marks: &mut BitMarks)
    requires few { length reads.now ≤ 4096 }
    requires once { AreDifferent (map (λ r. r.bit) reads.now) }
    requires blank { AreBlank marks.old }
    requires marks { All (λ r. HasMark marks.old r.bit) reads.now }
    ensures marked { AreMarked reads.now marks.new }
    ensures marks { (net : Net) → HaveMarks net marks.old → HaveMarks net marks.new }
{
    for i in 0..reads.len() {
        marks.set(reads[i].bit, i as u32 + 1);
    }
}

/// Takes the marks away.
pub(crate) fn unmark_reads(reads: &[ReadBit], marks: &mut BitMarks)
    requires marked { AreMarked reads.now marks.old }
    requires marks { All (λ r. HasMark marks.old r.bit) reads.now }
    ensures blank { AreBlank marks.new }
    ensures marks { (net : Net) → HaveMarks net marks.old → HaveMarks net marks.new }
{
    for read in reads {
        marks.set(read.bit, 0);
    }
}
