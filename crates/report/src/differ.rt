// The lines of compares that differ.
ghost use Rattle.std.specs.Prelude.{[], ◌∷◌, OnOk, OnErr};
ghost use Rattle.ij_io.specs.Bytes.{Adds, AddsPart};
ghost use Rattle.ij_io.specs.Causes.{HasCause};
ghost use Rattle.report.specs.Differs.{iread_text, maybe_iread, found_text, scan_text, read_text};
ghost use Rattle.report.specs.Differs.{compare_text, differ_text};
ghost use Rattle.report.specs.Registers.{digit};

use ij_io::{Sink, StoreFault, Word, put_words};
use net_graph::ReadBit;

/// A compared bit that isn't as expected.
#[derive(Clone, Copy, Drop)]
pub struct Differ {
    /// The scan, counted from 1 over all scan commands; 0 where a procedure's read is told without a scan.
    pub scan: u32,
    /// The bit's position in the scan. Position 0 is the first at TDO.
    pub bit: u32,
    /// The bit expected.
    pub expect: bool,
    /// The bit found.
    pub found: bool,
    /// The iRead that asks for the bit, where it is known.
    pub read: Option<ReadBit>,
}

/// Writes the digit of a bit.
fn put_digit<K: Sink>(bit: bool, k: &mut K) -> Result<(), StoreFault>
    ensures whole { OnOk result (Adds (K.taken k.old) (K.taken k.new) (digit bit ∷ [])) }
    ensures part { OnErr result (AddsPart (K.taken k.old) (K.taken k.new) (digit bit ∷ [])) }
    ensures cause { HasCause (K.faults k.old) (K.faults k.new) result StoreFault.Failed }
{
    k.write(if bit { b"1" } else { b"0" })
}

/// Writes the iRead of a bit.
#[tactic(auto, unfolding(ij_io::specs::Words::words_text))]
fn put_iread<K: Sink>(read: &ReadBit, k: &mut K) -> Result<(), StoreFault>
    ensures whole { OnOk result (Adds (K.taken k.old) (K.taken k.new) (iread_text read.now)) }
    ensures part { OnErr result (AddsPart (K.taken k.old) (K.taken k.new) (iread_text read.now)) }
    ensures cause { HasCause (K.faults k.old) (K.faults k.new) result StoreFault.Failed }
{
    put_words(
        k,
        &[
            Word::Text(b" iread "),
            Word::Number(u64::from(read.read)),
            Word::Text(b" line "),
            Word::Number(u64::from(read.line)),
            Word::Text(b" index "),
            Word::Number(u64::from(read.index)),
        ],
    )
}

/// Writes the iRead, if there is one.
fn put_maybe_iread<K: Sink>(read: &Option<ReadBit>, k: &mut K) -> Result<(), StoreFault>
    ensures whole { OnOk result (Adds (K.taken k.old) (K.taken k.new) (maybe_iread read.now)) }
    ensures part { OnErr result (AddsPart (K.taken k.old) (K.taken k.new) (maybe_iread read.now)) }
    ensures cause { HasCause (K.faults k.old) (K.faults k.new) result StoreFault.Failed }
{
    match read {
        Some(read) => put_iread(read, k),
        None => Ok(()),
    }
}

/// Writes what was expected and what was found.
fn put_found<K: Sink>(expect: bool, found: bool, k: &mut K) -> Result<(), StoreFault>
    ensures whole { OnOk result (Adds (K.taken k.old) (K.taken k.new) (found_text expect found)) }
    ensures part { OnErr result (AddsPart (K.taken k.old) (K.taken k.new) (found_text expect found)) }
    ensures cause { HasCause (K.faults k.old) (K.faults k.new) result StoreFault.Failed }
{
    k.write(b" expected ")?;
    put_digit(expect, k)?;
    k.write(b" read ")?;
    put_digit(found, k)?;
    Ok(())
}

/// Writes a scan and a position in it.
#[tactic(auto, unfolding(ij_io::specs::Words::words_text))]
fn put_scan<K: Sink>(scan: u32, bit: u32, k: &mut K) -> Result<(), StoreFault>
    ensures whole { OnOk result (Adds (K.taken k.old) (K.taken k.new) (scan_text scan bit)) }
    ensures part { OnErr result (AddsPart (K.taken k.old) (K.taken k.new) (scan_text scan bit)) }
    ensures cause { HasCause (K.faults k.old) (K.faults k.new) result StoreFault.Failed }
{
    put_words(
        k,
        &[
            Word::Text(b" scan "),
            Word::Number(u64::from(scan)),
            Word::Text(b" bit "),
            Word::Number(u64::from(bit)),
        ],
    )
}

/// Writes what a procedure's read found, which no scan is told of.
fn put_read<K: Sink>(d: &Differ, k: &mut K) -> Result<(), StoreFault>
    ensures whole { OnOk result (Adds (K.taken k.old) (K.taken k.new) (read_text d.now)) }
    ensures part { OnErr result (AddsPart (K.taken k.old) (K.taken k.new) (read_text d.now)) }
    ensures cause { HasCause (K.faults k.old) (K.faults k.new) result StoreFault.Failed }
{
    k.write(b"differs")?;
    put_maybe_iread(&d.read, k)?;
    put_found(d.expect, d.found, k)?;
    k.write(b"\n")?;
    Ok(())
}

/// Writes what a scan's compare found.
fn put_compare<K: Sink>(d: &Differ, k: &mut K) -> Result<(), StoreFault>
    ensures whole { OnOk result (Adds (K.taken k.old) (K.taken k.new) (compare_text d.now)) }
    ensures part { OnErr result (AddsPart (K.taken k.old) (K.taken k.new) (compare_text d.now)) }
    ensures cause { HasCause (K.faults k.old) (K.faults k.new) result StoreFault.Failed }
{
    k.write(b"differs")?;
    put_scan(d.scan, d.bit, k)?;
    put_found(d.expect, d.found, k)?;
    put_maybe_iread(&d.read, k)?;
    k.write(b"\n")?;
    Ok(())
}

/// Writes the line of a compare that differs: `differs scan S bit B expected E read V`, after it
/// ` iread R line L index I` where the iRead is known; and where there is no scan,
/// `differs iread R line L index I expected E read V` (IEEE 1687-2014, PDL level 0: iRead; Serial Vector
/// Format, revision E: TDO and MASK). It takes no memory itself.
///
/// # Errors
///
/// The sink's, which then took some first bytes of the line.
pub fn put_differ<K: Sink>(d: &Differ, k: &mut K) -> Result<(), StoreFault>
    ensures whole { OnOk result (Adds (K.taken k.old) (K.taken k.new) (differ_text d.now)) }
    ensures part { OnErr result (AddsPart (K.taken k.old) (K.taken k.new) (differ_text d.now)) }
    ensures cause { HasCause (K.faults k.old) (K.faults k.new) result StoreFault.Failed }
{
    if d.scan == 0 {
        put_read(d, k)
    } else {
        put_compare(d, k)
    }
}
