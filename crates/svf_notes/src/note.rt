// The note of one scan.
ghost use Rattle.std.specs.Prelude.{◌≡◌, ◌==◌, ◌++◌, Some, codes, length, OnOk};
ghost use Rattle.ij_io.specs.Bytes.{Adds};
ghost use Rattle.net_graph.specs.Nets.{IsNet};
ghost use Rattle.svf_notes.specs.Notes as notes;
ghost use Rattle.svf_notes.specs.Targets.{seen_target};

use crate::bits::ScanBits;
use crate::heads::Heads;
use crate::instruction::{put_instruction, put_other_length, register_name};
use crate::row::put_rows;
use ij_io::{Sink, StoreFault, SureSink, Word, put_words};
use net_bench::{Bench, DataRegister};
use net_graph::{Device, Holds, Net};
use tap_machine::TapState;

/// What a scan goes through.
#[derive(Clone, Copy)]
pub(crate) enum ScanTarget {
    /// The instruction register.
    Instruction,
    /// The data register that the instruction selects.
    Data(DataRegister),
}

/// What the scan goes through whose last bit was just shifted.
pub(crate) fn target(bench: &Bench) -> ScanTarget
    ensures { seen_target result ≡ notes.target bench.now.device bench.now.state }
{
    match bench.tap() {
        TapState::Exit1Ir => ScanTarget::Instruction,
        _ => ScanTarget::Data(bench.selected()),
    }
}

/// How many bits the active path has.
pub(crate) fn path_len(net: &Net, bench: &Bench) -> u32
    requires well_formed { IsNet net.now }
    requires net { bench.now.net ≡ net.now }
    ensures { result ≡ notes.path_length net.now bench.now.state.holds }
{
    let _ = net;
    bench.holds().path_bits(bench.path())
}

/// Writes the length of the path that a scan goes through.
#[tactic(auto, unfolding(ij_io::specs::Words::words_text))]
fn put_path_len(len: u64, note: &mut SureSink) -> Result<(), StoreFault>
    ensures { OnOk result (Adds (Some note.old) (Some note.new) (notes.path_text len len)) }
{
    put_words(note, &[Word::Text(b" path "), Word::Number(len)])
}

/// Writes the length of the path that a scan of the network goes through, and its rows.
fn put_path(
    net: &Net,
    bench: &Bench,
    bits: &ScanBits,
    heads: &mut Heads,
    note: &mut SureSink,
) -> Result<(), StoreFault>
    requires well_formed { IsNet net.now }
    requires net { bench.now.net ≡ net.now }
    requires heads { heads.old ≡ net.now }
    ensures heads { heads.new ≡ heads.old }
    ensures text { OnOk result (Adds (Some note.old) (Some note.new)
        (notes.path_text (length bits.now.items) (notes.path_length net.now bench.now.state.holds)
        ++ notes.note_text (notes.rows_if (length bits.now.items == notes.path_length net.now
        bench.now.state.holds) net.now bench.now.state.holds bits.now.items))) }
{
    let len = u64::from(path_len(net, bench));
    let count = u64::from(bits.len());
    if count != len {
        return put_other_length(b"path ", count, len, note);
    }
    put_path_len(len, note)?;
    put_rows(heads, bench.holds(), bench.path(), bits, note)?;
    Ok(())
}

/// Writes what a note begins with.
#[tactic(auto, unfolding(ij_io::specs::Words::words_text))]
fn put_number(number: u32, note: &mut SureSink) -> Result<(), StoreFault>
    ensures { OnOk result (Adds (Some note.old) (Some note.new) (codes "\n!:" ++ notes.number_text number)) }
{
    put_words(
        note,
        &[Word::Text(b"\n!: scan "), Word::Number(u64::from(number))],
    )
}

/// Writes the note of the scan whose last bit was just shifted.
pub(crate) fn put_note(
    net: &Net,
    device: &Device,
    bench: &Bench,
    number: u32,
    bits: &ScanBits,
    heads: &mut Heads,
    note: &mut SureSink,
) -> Result<(), StoreFault>
    requires well_formed { IsNet net.now }
    requires net { bench.now.net ≡ net.now }
    requires device { bench.now.device ≡ device.now }
    requires heads { heads.old ≡ net.now }
    ensures heads { heads.new ≡ heads.old }
    ensures text { OnOk result (Adds (Some note.old) (Some note.new) (notes.note_text (notes.note_of net.now
        device.now (record { number = number; bits = bits.now.items; state = bench.now.state })))) }
{
    put_number(number, note)?;
    match target(bench) {
        ScanTarget::Instruction => put_instruction(device, bits, note)?,
        ScanTarget::Data(DataRegister::Network) => put_path(net, bench, bits, heads, note)?,
        ScanTarget::Data(register) => note.write(register_name(register))?,
    }
    Ok(())
}
