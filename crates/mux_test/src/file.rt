// The SVF file of a test.
ghost use Rattle.std.specs.Prelude.{◌≡◌, ◌++◌, ◌<◌, [], All, List, Option, Some, ℕ, length, OnOk, OnErr};
ghost use Rattle.std.specs.Option.{option_map};
ghost use Rattle.ij_io.specs.Bytes.{Adds, AddsPart};
ghost use Rattle.ij_io.specs.Causes.{HasCause, HasCauseAt, SameCounts};
ghost use Rattle.ij_io.specs.Files.{OthersStay, file_at, told_bytes};
ghost use Rattle.ij_io.specs.Pieces.{HoldsFront, HoldsPart, IsThere, with_piece};
ghost use Rattle.net_graph.specs.Devices.{IsDevice};
ghost use Rattle.net_graph.specs.Nets.{IsNet};
ghost use Rattle.svf_writer.specs.Written.{preface};
ghost use Rattle.mux_test.specs.Given.{seen_test_scan};
ghost use Rattle.mux_test.specs.Texts.{CanWrite, mark_of, scan_text, scans_text};

use crate::test::{MuxTest, TestScan};
use ij_io::{Shelf, Sink, StoreFault, SureSink, put_last_piece, store_full_piece};
use net_graph::{Device, Net};
use std::alloc::Global;
use svf_writer::{put, put_preface, put_row_mark};

/// Writes the comment before the first scan of a row, and nothing before a later one.
fn put_mark_of<K: Sink>(net: &Net, scan: &TestScan, k: &mut K) -> Result<(), StoreFault>
    requires well_formed { IsNet net.now }
    requires there { scan.now.branch.mux < length net.now.muxes.items }
    ensures whole { OnOk result
        (Adds (K.taken k.old) (K.taken k.new) (mark_of net.now (seen_test_scan scan.now))) }
    ensures part { OnErr result
        (AddsPart (K.taken k.old) (K.taken k.new) (mark_of net.now (seen_test_scan scan.now))) }
    ensures cause { HasCause (K.faults k.old) (K.faults k.new) result StoreFault.Failed }
{
    if scan.first {
        put_row_mark(net, scan.branch, k)
    } else {
        Ok(())
    }
}

/// Writes a scan, the comment of its row before the row's first, and drops it.
#[tactic(auto, using(ij_io::proofs::Adding::adding))]
fn put_scan<K: Sink>(net: &Net, scan: TestScan, k: &mut K) -> Result<(), StoreFault>
    requires well_formed { IsNet net.now }
    requires can { CanWrite net.now (seen_test_scan scan) }
    ensures whole { OnOk result
        (Adds (K.taken k.old) (K.taken k.new) (scan_text net.now (seen_test_scan scan))) }
    ensures part { OnErr result
        (AddsPart (K.taken k.old) (K.taken k.new) (scan_text net.now (seen_test_scan scan))) }
    ensures cause { HasCause (K.faults k.old) (K.faults k.new) result StoreFault.Failed }
{
    put_mark_of(net, &scan, k)?;
    put(&scan.scan, k)?;
    Ok(())
}

/// Writes the scans that are still to come after a piece of the file's text, and finishes the file. After a
/// refusal the file holds some first bytes.
fn put_scans<'a, S: Shelf>(
    alloc: Global,
    net: &Net,
    test: &mut MuxTest<'a>,
    name: &str,
    piece: SureSink,
    shelf: &mut S,
) -> Result<(), StoreFault>
    requires well_formed { IsNet net.now }
    requires can { All (CanWrite net.now) test.old.scans }
    requires there { IsThere (S.files shelf.old) name.now }
    ensures there { OnOk result (IsThere (S.files shelf.new) name.now) }
    ensures whole { OnOk result (Adds (with_piece (S.files shelf.old) name.now piece)
        (told_bytes (S.files shelf.new) name.now) (scans_text net.now test.old.scans)) }
    ensures part { OnErr result ((text : Option (List ℕ)) × AddsPart (with_piece (S.files shelf.old) name.now
        piece) text (scans_text net.now test.old.scans) × HoldsFront (S.files shelf.new) name.now text) }
    ensures others { OthersStay (S.files shelf.old) (S.files shelf.new) name.now }
    ensures cause { HasCauseAt name.now (S.store_faults shelf.old)
        (S.store_faults shelf.new) result StoreFault.Failed }
    ensures loads { SameCounts (S.load_faults shelf.old) (S.load_faults shelf.new) }
    ensures given { OnOk result (test.new.scans ≡ []) }
    ensures unseen { test.new.unseen ≡ test.old.unseen }
    ensures scan_count { test.new.scan_count ≡ test.old.scan_count }
    ensures row_count { test.new.row_count ≡ test.old.row_count }
{
    let mut piece = piece;
    while let Some(scan) = test.next()? {
        put_scan(net, scan, &mut piece)?;
        piece = store_full_piece(alloc, name, piece, shelf)?;
    }
    put_last_piece(name, &piece, shelf)
}

/// Writes the scans of a test that are still to come to a file, from its front (Serial Vector Format,
/// revision E): the lines that bring a device to Run-Test/Idle with the link's instruction loaded, and then
/// each scan on a line of its own, with a comment before the first one of each row. No scan is left then. Of
/// the text no more than one scan's and 65,536 bytes are kept.
///
/// # Errors
///
/// - `Failed`: the shelf could not begin the file or write a piece, and its count of failed stores under this
///   name rose.
/// - `OutOfMemory`: there was no memory for a scan or for its text, or the shelf had none.
///
/// After a refusal the file is as before, or holds some first bytes of the text. Other files and the counts
/// of failed loads stay.
pub fn put_test_file<'a, S: Shelf>(
    alloc: Global,
    net: &Net,
    device: &Device,
    test: &mut MuxTest<'a>,
    name: &str,
    shelf: &mut S,
) -> Result<(), StoreFault>
    requires well_formed { IsNet net.now }
    requires device { IsDevice device.now }
    requires can { All (CanWrite net.now) test.old.scans }
    ensures whole { OnOk result (file_at (S.files shelf.new) name.now ≡ option_map
        (λ _. Some (preface device.now ++ scans_text net.now test.old.scans)) (S.files shelf.old)) }
    ensures part { OnErr result (HoldsPart (S.files shelf.old) (S.files shelf.new) name.now
        (preface device.now ++ scans_text net.now test.old.scans)) }
    ensures others { OthersStay (S.files shelf.old) (S.files shelf.new) name.now }
    ensures cause { HasCauseAt name.now (S.store_faults shelf.old)
        (S.store_faults shelf.new) result StoreFault.Failed }
    ensures loads { SameCounts (S.load_faults shelf.old) (S.load_faults shelf.new) }
    ensures given { OnOk result (test.new.scans ≡ []) }
    ensures unseen { test.new.unseen ≡ test.old.unseen }
    ensures scan_count { test.new.scan_count ≡ test.old.scan_count }
    ensures row_count { test.new.row_count ≡ test.old.row_count }
{
    let mut piece = SureSink::new(alloc);
    put_preface(device, &mut piece)?;
    shelf.begin(name)?;
    put_scans(alloc, net, test, name, piece, shelf)
}
