// The printed lines of a test.
ghost use Rattle.std.specs.Prelude.{◌++◌, ◌<◌, All, codes, decimal, length, OnOk, OnErr};
ghost use Rattle.std.specs.List.{flat_map};
ghost use Rattle.ij_io.specs.Bytes.{Adds, AddsPart};
ghost use Rattle.ij_io.specs.Causes.{HasCause};
ghost use Rattle.net_graph.specs.Nets.{IsNet};
ghost use Rattle.mux_test.specs.Reported.{counts_line, report_lines, unseen_line};

use crate::test::MuxTest;
use ij_io::{Sink, StoreFault, Word, put_words};
use net_graph::{Branch, Net};
use path_names::put_mux_path;

/// Writes the row of a line, and what ends it.
#[tactic(auto, unfolding(ij_io::specs::Words::words_text))]
fn put_row<K: Sink>(row: u32, k: &mut K) -> Result<(), StoreFault>
    ensures whole { OnOk result
        (Adds (K.taken k.old) (K.taken k.new) (codes " row " ++ (decimal row ++ codes "\n"))) }
    ensures part { OnErr result
        (AddsPart (K.taken k.old) (K.taken k.new) (codes " row " ++ (decimal row ++ codes "\n"))) }
    ensures cause { HasCause (K.faults k.old) (K.faults k.new) result StoreFault.Failed }
{
    put_words(
        k,
        &[
            Word::Text(b" row "),
            Word::Number(row as u64),
            Word::Text(b"\n"),
        ],
    )
}

/// Writes the line of a row that a mux may be stuck in unseen.
#[tactic(auto, using(ij_io::proofs::Adding::adding))]
fn put_unseen<K: Sink>(net: &Net, branch: Branch, k: &mut K) -> Result<(), StoreFault>
    requires well_formed { IsNet net.now }
    requires there { branch.mux < length net.now.muxes.items }
    ensures whole { OnOk result (Adds (K.taken k.old) (K.taken k.new) (unseen_line net.now branch)) }
    ensures part { OnErr result (AddsPart (K.taken k.old) (K.taken k.new) (unseen_line net.now branch)) }
    ensures cause { HasCause (K.faults k.old) (K.faults k.new) result StoreFault.Failed }
{
    k.write(b"unseen ")?;
    put_mux_path(net, branch.mux, k)?;
    put_row(branch.row, k)?;
    Ok(())
}

/// Writes the line of each of these rows.
fn put_all_unseen<K: Sink>(net: &Net, unseen: &[Branch], k: &mut K) -> Result<(), StoreFault>
    requires well_formed { IsNet net.now }
    requires there { All (λ b. b.mux < length net.now.muxes.items) unseen.now }
    ensures whole { OnOk result
        (Adds (K.taken k.old) (K.taken k.new) (flat_map (unseen_line net.now) unseen.now)) }
    ensures part { OnErr result
        (AddsPart (K.taken k.old) (K.taken k.new) (flat_map (unseen_line net.now) unseen.now)) }
    ensures cause { HasCause (K.faults k.old) (K.faults k.new) result StoreFault.Failed }
{
    for row in unseen {
        put_unseen(net, *row, k)?;
    }
    Ok(())
}

/// Writes the line of the counts.
#[tactic(auto, unfolding(ij_io::specs::Words::words_text))]
fn put_counts<K: Sink>(
    scans: usize,
    rows: usize,
    unseen: usize,
    k: &mut K,
) -> Result<(), StoreFault>
    ensures whole { OnOk result (Adds (K.taken k.old) (K.taken k.new) (counts_line scans rows unseen)) }
    ensures part { OnErr result (AddsPart (K.taken k.old) (K.taken k.new) (counts_line scans rows unseen)) }
    ensures cause { HasCause (K.faults k.old) (K.faults k.new) result StoreFault.Failed }
{
    put_words(
        k,
        &[
            Word::Text(b"muxtest scans "),
            Word::Number(scans as u64),
            Word::Text(b" rows "),
            Word::Number(rows as u64),
            Word::Text(b" unseen "),
            Word::Number(unseen as u64),
            Word::Text(b"\n"),
        ],
    )
}

/// Writes the line of each of these rows, and the counts.
fn put_lines<K: Sink>(
    net: &Net,
    unseen: &[Branch],
    scans: usize,
    rows: usize,
    k: &mut K,
) -> Result<(), StoreFault>
    requires well_formed { IsNet net.now }
    requires there { All (λ b. b.mux < length net.now.muxes.items) unseen.now }
    ensures whole { OnOk result
        (Adds (K.taken k.old) (K.taken k.new) (report_lines net.now unseen.now scans rows)) }
    ensures part { OnErr result
        (AddsPart (K.taken k.old) (K.taken k.new) (report_lines net.now unseen.now scans rows)) }
    ensures cause { HasCause (K.faults k.old) (K.faults k.new) result StoreFault.Failed }
{
    put_all_unseen(net, unseen, k)?;
    put_counts(scans, rows, unseen.len(), k)?;
    Ok(())
}

/// Writes the lines of a test: `unseen PATH row Q` for each row that a multiplexer may be stuck in unseen, by
/// the multiplexers' order in the network and then by row, and `muxtest scans N rows R unseen U`: how many
/// scans the test has in all, how many rows all multiplexers have, and how many of these lines came before
/// (IEEE 1687-2014, ICL: `ScanMux`).
///
/// The refusals are those of the sink, which then took some first bytes of the lines. It takes no memory
/// itself.
pub fn put_test_report<'a, K: Sink>(
    net: &Net,
    test: &MuxTest<'a>,
    k: &mut K,
) -> Result<(), StoreFault>
    requires well_formed { IsNet net.now }
    requires there { All (λ b. b.mux < length net.now.muxes.items) test.now.unseen }
    ensures whole { OnOk result (Adds (K.taken k.old) (K.taken k.new)
        (report_lines net.now test.now.unseen test.now.scan_count test.now.row_count)) }
    ensures part { OnErr result (AddsPart (K.taken k.old) (K.taken k.new)
        (report_lines net.now test.now.unseen test.now.scan_count test.now.row_count)) }
    ensures cause { HasCause (K.faults k.old) (K.faults k.new) result StoreFault.Failed }
{
    let unseen = test.unseen().as_slice();
    put_lines(net, unseen, test.scan_count(), test.row_count(), k)
}
