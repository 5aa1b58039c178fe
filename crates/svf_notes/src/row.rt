// The rows of a note: the registers of a path.
ghost use Rattle.std.specs.Prelude.{◌≡◌, ◌<◌, ◌≤◌, ◌+◌, ◌++◌, [], Some, codes, cond, drop, length, take};
ghost use Rattle.std.specs.Prelude.{OnOk};
ghost use Rattle.ij_io.specs.Bytes.{Adds};
ghost use Rattle.net_graph.specs.Chain.{chain, IsRoute};
ghost use Rattle.net_graph.specs.Held.{AreHolds};
ghost use Rattle.net_graph.specs.Named.{width_of};
ghost use Rattle.net_graph.specs.Nets.{IsNet};
ghost use Rattle.svf_notes.specs.Heads.{values_after};
ghost use Rattle.svf_notes.specs.Notes as notes;

use crate::bits::ScanBits;
use crate::digits::put_digits;
use crate::heads::Heads;
use crate::scan::Shown;
use ij_bits::Bits;
use ij_io::{Sink, StoreFault, SureSink};
use net_graph::Holds;

/// Writes some words, if they hold.
fn put_words_if(holds: bool, words: &[u8], note: &mut SureSink) -> Result<(), StoreFault>
    ensures { OnOk result (Adds (Some note.old) (Some note.new) (cond holds words.now [])) }
{
    if holds { note.write(words) } else { Ok(()) }
}

/// Writes some words and one value of each of some bits from a position on, if there is something to show.
fn put_shown_if(
    there: bool,
    words: &[u8],
    shown: Shown,
    bits: &ScanBits,
    at: u32,
    width: u32,
    note: &mut SureSink,
) -> Result<(), StoreFault>
    requires { at + width ≤ length bits.now.items }
    ensures { OnOk result (Adds (Some note.old) (Some note.new)
        (cond there (words.now ++ notes.digits shown (take width (drop at bits.now.items))) [])) }
{
    if !there {
        return Ok(());
    }
    note.write(words)?;
    put_digits(shown, bits, at, width, note)?;
    Ok(())
}

/// Writes the values of a register, after the word `writes`.
fn put_values(held: &Bits, bits: &ScanBits, at: u32, note: &mut SureSink) -> Result<(), StoreFault>
    requires { at + length held.now.items ≤ length bits.now.items }
    ensures { OnOk result (Adds (Some note.old) (Some note.new)
        (values_after held.now.items (take (length held.now.items) (drop at bits.now.items)))) }
{
    let width = held.len();
    put_digits(Shown::Written, bits, at, width, note)?;
    put_words_if(bits.is_held(at, held), b" as before", note)?;
    let compared = bits.any_compared(at, width);
    put_shown_if(
        compared,
        b" expects ",
        Shown::Expected,
        bits,
        at,
        width,
        note,
    )?;
    let differs = bits.any_differs(at, width);
    put_shown_if(differs, b" finds ", Shown::Found, bits, at, width, note)?;
    Ok(())
}

/// Writes the row of a register, whose position 0 is this one of the scan.
fn put_row(
    heads: &mut Heads,
    reg: u32,
    at: u32,
    held: &Bits,
    bits: &ScanBits,
    note: &mut SureSink,
) -> Result<(), StoreFault>
    requires well_formed { IsNet heads.old }
    requires there { reg < length heads.old.regs.items }
    requires wide { width_of heads.old reg ≡ length held.now.items }
    requires within { at + length held.now.items ≤ length bits.now.items }
    ensures same { heads.new ≡ heads.old }
    ensures row { OnOk result (Adds (Some note.old) (Some note.new) (codes "\n!:" ++ notes.row heads.old reg
        at held.now.items (take (length held.now.items) (drop at bits.now.items)))) }
{
    heads.put_row_head(reg, at, note)?;
    put_values(held, bits, at, note)?;
    Ok(())
}

/// Writes the rows of a path, the register nearest scan-in first. `path` has the one nearest scan-out first,
/// and `bits` one bit for each of its positions.
pub(crate) fn put_rows(
    heads: &mut Heads,
    holds: &Holds,
    path: &[u32],
    bits: &ScanBits,
    note: &mut SureSink,
) -> Result<(), StoreFault>
    requires well_formed { IsNet heads.old }
    requires holds { AreHolds heads.old holds.now }
    requires route { IsRoute (length heads.old.regs.items) path.now }
    requires same { length bits.now.items ≡ length (chain path.now holds.now) }
    ensures same { heads.new ≡ heads.old }
    ensures rows { OnOk result (Adds (Some note.old) (Some note.new)
        (notes.note_text (notes.rows heads.old holds.now 0 path.now bits.now.items))) }
{
    let mut end = bits.len();
    for j in 0..path.len() {
        let reg = path[path.len() - 1 - j];
        let held = holds.register(reg);
        let at = end - held.len();
        put_row(heads, reg, at, held, bits, note)?;
        end = at;
    }
    Ok(())
}
