// The rounds of an iApply: what they print, and what they do.
ghost use Rattle.std.specs.Prelude.{◌≡◌, ◌<◌, ◌≤◌, ◌+◌, ◌*◌, ◌^◌, length, filter, map, All, IfOk, OnOk};
ghost use Rattle.std.specs.Prelude.{OnErr};
ghost use Rattle.direct_report.specs.Going.{AreCounted, AreReads, IsAfterWrites, SameState};
ghost use Rattle.net_graph.specs.Numbered.{HaveMarks};
ghost use Rattle.direct_report.specs.Marked.{AreBlank};
ghost use Rattle.direct_report.specs.Report.{differs, in_order, lines, rounds_lines};
ghost use Rattle.direct_report.specs.Seen.{found_all};
ghost use Rattle.ij_io.specs.Bytes.{Adds, AddsPart};
ghost use Rattle.ij_io.specs.Causes.{HasCause};
ghost use Rattle.instruments.specs.Machine.{count_log};
ghost use Rattle.instruments.specs.declared.Counts.{Counts as TheCounts};
ghost use Rattle.net_graph.specs.Nets.{IsNet};
ghost use Rattle.net_graph.specs.SeenSteps.{seen_group};
ghost use Rattle.net_graph.specs.Steps.{IsGroup};
ghost use Rattle.pdl_meaning.specs.Direct.{Direct, do_rounds};
ghost use Rattle.instruments.specs.Runners.{machines_of};

use crate::marking::{mark_reads, unmark_reads};
use crate::reads::{count_differing, put_reads};
use ij_io::{Sink, StoreFault};
use net_graph::{BitMarks, Group, Net, ReadBit};
use pdl_meaning::DataState;

/// How many bits were compared, and how many of them differ.
#[derive(Clone, Copy)]
pub(crate) struct ReadCounts {
    pub reads: u64,
    pub differs: u64,
}

/// Writes the lines of a round's reads that differ, by register and position; answers how many there are.
fn put_round<K: Sink>(
    net: &Net,
    values: &DataState,
    reads: &[ReadBit],
    marks: &mut BitMarks,
    k: &mut K,
) -> Result<u64, StoreFault>
    requires well_formed { IsNet net.now }
    requires net { values.now.net ≡ net.now }
    requires reads { AreReads net.now reads.now }
    requires blank { AreBlank marks.old }
    requires marks { HaveMarks net.now marks.old }
    ensures blank { AreBlank marks.new }
    ensures marks { HaveMarks net.now marks.new }
    ensures whole { OnOk result
        (Adds (K.taken k.old) (K.taken k.new) (lines (in_order net.now (found_all values.now reads.now)))) }
    ensures count { IfOk result (λ n. n ≡ length (filter differs (found_all values.now reads.now))) }
    ensures part { OnErr result (AddsPart (K.taken k.old) (K.taken k.new)
        (lines (in_order net.now (found_all values.now reads.now)))) }
    ensures cause { HasCause (K.faults k.old) (K.faults k.new) result StoreFault.Failed }
{
    let count = count_differing(values, reads);
    if count == 0 {
        return Ok(0);
    }
    mark_reads(reads, marks);
    let told = put_reads(net, values, reads, marks, k);
    unmark_reads(reads, marks);
    told?;
    Ok(count)
}

/// Writes the lines of a round, as [`put_round`] does.
fn put_group<K: Sink>(
    net: &Net,
    values: &DataState,
    group: &Group,
    marks: &mut BitMarks,
    k: &mut K,
) -> Result<u64, StoreFault>
    requires well_formed { IsNet net.now }
    requires net { values.now.net ≡ net.now }
    requires group { IsGroup net.now (seen_group group.now) }
    requires blank { AreBlank marks.old }
    requires marks { HaveMarks net.now marks.old }
    ensures blank { AreBlank marks.new }
    ensures marks { HaveMarks net.now marks.new }
    ensures whole { OnOk result (Adds (K.taken k.old) (K.taken k.new)
        (lines (in_order net.now (found_all values.now group.now.reads.items)))) }
    ensures count { IfOk result
        (λ n. n ≡ length (filter differs (found_all values.now group.now.reads.items))) }
    ensures few { length group.now.reads.items ≤ 4096 }
    ensures less { IfOk result (λ n. n ≤ length group.now.reads.items) }
    ensures part { OnErr result (AddsPart (K.taken k.old) (K.taken k.new)
        (lines (in_order net.now (found_all values.now group.now.reads.items)))) }
    ensures cause { HasCause (K.faults k.old) (K.faults k.new) result StoreFault.Failed }
{
    put_round(net, values, group.reads.as_slice(), marks, k)
}

/// Writes what a round reads, then does its writes.
fn play_round<K: Sink>(
    net: &Net,
    values: &mut DataState,
    marks: &mut BitMarks,
    group: &Group,
    k: &mut K,
) -> Result<ReadCounts, StoreFault>
    requires well_formed { IsNet net.now }
    requires net { values.old.net ≡ net.now }
    requires group { IsGroup net.now (seen_group group.now) }
    requires blank { AreBlank marks.old }
    requires marks { HaveMarks net.now marks.old }
    ensures net { values.new.net ≡ values.old.net }
    ensures models { values.new.models ≡ values.old.models }
    ensures blank { AreBlank marks.new }
    ensures marks { HaveMarks net.now marks.new }
    ensures whole { OnOk result (Adds (K.taken k.old) (K.taken k.new)
        (lines (in_order net.now (found_all values.old group.now.reads.items)))) }
    ensures state { OnOk result (IsAfterWrites values.old group.now.writes.items values.new) }
    ensures reads { IfOk result (λ told. told.reads ≡ length group.now.reads.items) }
    ensures differs { IfOk result
        (λ told. told.differs ≡ length (filter differs (found_all values.old group.now.reads.items))) }
    ensures few { IfOk result (λ told. told.reads ≤ 4096) }
    ensures less { IfOk result (λ told. told.differs ≤ told.reads) }
    ensures part { OnErr result (AddsPart (K.taken k.old) (K.taken k.new)
        (lines (in_order net.now (found_all values.old group.now.reads.items)))) }
    ensures cause { HasCause (K.faults k.old) (K.faults k.new) result StoreFault.Failed }
{
    let differs = put_group(net, values, group, marks, k)?;
    values.write(group.writes.as_slice());
    Ok(ReadCounts {
        reads: group.reads.len() as u64,
        differs,
    })
}

/// Writes what the rounds of an iApply read, and does them, one after the other.
pub(crate) fn play_rounds<K: Sink>(
    net: &Net,
    values: &mut DataState,
    marks: &mut BitMarks,
    rounds: &[Group],
    k: &mut K,
) -> Result<ReadCounts, StoreFault>
    requires well_formed { IsNet net.now }
    requires net { values.old.net ≡ net.now }
    requires groups { All (IsGroup net.now) (map seen_group rounds.now) }
    requires few { 4096 * length rounds.now < 2 ^ 64 }
    requires blank { AreBlank marks.old }
    requires marks { HaveMarks net.now marks.old }
    ensures net { values.new.net ≡ values.old.net }
    ensures models { values.new.models ≡ values.old.models }
    ensures blank { AreBlank marks.new }
    ensures marks { HaveMarks net.now marks.new }
    ensures whole { (d : Direct TheCounts) → SameState values.old d
        → OnOk result (Adds (K.taken k.old) (K.taken k.new)
        (rounds_lines net.now (machines_of values.old.models) d (map seen_group rounds.now))) }
    ensures part { (d : Direct TheCounts) → SameState values.old d
        → OnErr result (AddsPart (K.taken k.old) (K.taken k.new)
        (rounds_lines net.now (machines_of values.old.models) d (map seen_group rounds.now))) }
    ensures state { (d : Direct TheCounts) → SameState values.old d → OnOk result (SameState values.new
        (do_rounds count_log net.now (machines_of values.old.models) d (map seen_group rounds.now))) }
    ensures counts { (d : Direct TheCounts) → SameState values.old d
        → IfOk result (λ told. AreCounted told.reads told.differs d
        (do_rounds count_log net.now (machines_of values.old.models) d (map seen_group rounds.now))) }
    ensures few { IfOk result (λ told. told.reads ≤ 4096 * length rounds.now) }
    ensures less { IfOk result (λ told. told.differs ≤ told.reads) }
    ensures cause { HasCause (K.faults k.old) (K.faults k.new) result StoreFault.Failed }
{
    let mut reads = 0u64;
    let mut differs = 0u64;
    for group in rounds {
        let told = play_round(net, values, marks, group, k)?;
        reads += told.reads;
        differs += told.differs;
    }
    Ok(ReadCounts { reads, differs })
}
