// The lines of multiplexers.
ghost use Rattle.std.specs.Prelude.{◌≡◌, ◌<◌, ◌-◌, ◌++◌, [], codes, get_or, length, All, OnOk, OnErr};
ghost use Rattle.ij_io.specs.Bytes.{Adds, AddsPart};
ghost use Rattle.ij_io.specs.Causes.{HasCause};
ghost use Rattle.net_graph.specs.Nets.{IsNet};
ghost use Rattle.net_graph.specs.PathNames.{mux_path};
ghost use Rattle.net_list.specs.Drivers as drivers;
ghost use Rattle.net_list.specs.Forms as forms;
ghost use Rattle.net_list.specs.Lines as lines;
ghost use Rattle.net_list.specs.Listing.{lines_from};

use crate::format::{ListFormat, put_count, put_text_or_json, text_or_json};
use crate::names::put_bit_name;
use crate::values::put_values;
use ij_io::{Sink, StoreFault};
use net_graph::{BitId, Net, Row, mux_count};
use net_tree::Tree;
use path_names::put_mux_path;

/// Writes some bytes and then the name of a bit, in JSON in quotes.
fn put_bit<K: Sink>(
    format: ListFormat,
    before: &[u8],
    net: &Net,
    bit: BitId,
    k: &mut K,
) -> Result<(), StoreFault>
    requires well_formed { IsNet net.now }
    requires there { bit.reg < length net.now.regs.items }
    ensures whole { OnOk result (Adds (K.taken k.old) (K.taken k.new)
        (before.now ++ lines.quoted format (drivers.bit_name net.now bit))) }
    ensures part { OnErr result (AddsPart (K.taken k.old) (K.taken k.new)
        (before.now ++ lines.quoted format (drivers.bit_name net.now bit))) }
    ensures cause { HasCause (K.faults k.old) (K.faults k.new) result StoreFault.Failed }
{
    k.write(before)?;
    put_text_or_json(format, b"", b"\"", k)?;
    put_bit_name(net, bit, k)?;
    put_text_or_json(format, b"", b"\"", k)?;
    Ok(())
}

/// The bit at a place, counted from the highest position.
fn from_left(bits: &[BitId], place: usize) -> BitId
    requires { place < length bits.now }
    ensures { result ≡ get_or bits.now (length bits.now - 1 - place) (record { reg = 0; pos = 0 }) }
{
    bits[bits.len() - 1 - place]
}

/// Writes select bits, the highest first.
fn put_select_bits<K: Sink>(
    format: ListFormat,
    net: &Net,
    bits: &[BitId],
    k: &mut K,
) -> Result<(), StoreFault>
    requires well_formed { IsNet net.now }
    requires there { All (λ b. b.reg < length net.now.regs.items) bits.now }
    ensures whole { OnOk result (Adds (K.taken k.old) (K.taken k.new)
        (lines.select_bits format net.now [] bits.now (length bits.now))) }
    ensures part { OnErr result (AddsPart (K.taken k.old) (K.taken k.new)
        (lines.select_bits format net.now [] bits.now (length bits.now))) }
    ensures cause { HasCause (K.faults k.old) (K.faults k.new) result StoreFault.Failed }
{
    let between = text_or_json(format, b" ", b",");
    let mut before: &[u8] = b"";
    for j in 0..bits.len() {
        put_bit(format, before, net, from_left(bits, j), k)?;
        before = between;
    }
    Ok(())
}

/// Writes the select bits of a mux, the highest first. The refusals are those of the sink, which then took
/// some first bytes.
pub fn put_selects<K: Sink>(
    format: ListFormat,
    net: &Net,
    mux: u32,
    k: &mut K,
) -> Result<(), StoreFault>
    requires well_formed { IsNet net.now }
    requires there { mux < length net.now.muxes.items }
    ensures whole { OnOk result
        (Adds (K.taken k.old) (K.taken k.new) (lines.selects_of_text format net.now mux)) }
    ensures part { OnErr result
        (AddsPart (K.taken k.old) (K.taken k.new) (lines.selects_of_text format net.now mux)) }
    ensures cause { HasCause (K.faults k.old) (K.faults k.new) result StoreFault.Failed }
{
    let bits = net.muxes.get(mux as usize).select.as_slice();
    put_select_bits(format, net, bits, k)
}

/// Writes the path of a mux and an equals sign.
fn put_mux_equals<K: Sink>(net: &Net, mux: u32, k: &mut K) -> Result<(), StoreFault>
    requires well_formed { IsNet net.now }
    requires there { mux < length net.now.muxes.items }
    ensures whole { OnOk result (Adds (K.taken k.old) (K.taken k.new) (mux_path net.now mux ++ codes "=")) }
    ensures part { OnErr result
        (AddsPart (K.taken k.old) (K.taken k.new) (mux_path net.now mux ++ codes "=")) }
    ensures cause { HasCause (K.faults k.old) (K.faults k.new) result StoreFault.Failed }
{
    put_mux_path(net, mux, k)?;
    k.write(b"=")?;
    Ok(())
}

/// Writes the mux of a row, in text.
fn put_row_name<K: Sink>(
    format: ListFormat,
    net: &Net,
    mux: u32,
    k: &mut K,
) -> Result<(), StoreFault>
    requires well_formed { IsNet net.now }
    requires there { mux < length net.now.muxes.items }
    ensures whole { OnOk result
        (Adds (K.taken k.old) (K.taken k.new) (forms.text_or_json format (mux_path net.now mux ++ codes "=") [])) }
    ensures part { OnErr result (AddsPart (K.taken k.old) (K.taken k.new)
        (forms.text_or_json format (mux_path net.now mux ++ codes "=") [])) }
    ensures cause { HasCause (K.faults k.old) (K.faults k.new) result StoreFault.Failed }
{
    match format {
        ListFormat::Text => put_mux_equals(net, mux, k),
        ListFormat::Json => k.write(b""),
    }
}

/// Writes the select values of a row.
fn put_row<K: Sink>(
    format: ListFormat,
    before: &[u8],
    net: &Net,
    mux: u32,
    row: &Row,
    k: &mut K,
) -> Result<(), StoreFault>
    requires well_formed { IsNet net.now }
    requires there { mux < length net.now.muxes.items }
    ensures whole { OnOk result
        (Adds (K.taken k.old) (K.taken k.new) (before.now ++ lines.row_text format net.now mux row.now)) }
    ensures part { OnErr result
        (AddsPart (K.taken k.old) (K.taken k.new) (before.now ++ lines.row_text format net.now mux row.now)) }
    ensures cause { HasCause (K.faults k.old) (K.faults k.new) result StoreFault.Failed }
{
    let values = row.values.as_slice();
    k.write(before)?;
    put_text_or_json(format, b"row ", b"\"", k)?;
    put_row_name(format, net, mux, k)?;
    put_values(values, k)?;
    put_text_or_json(format, b"\n", b"\"", k)?;
    Ok(())
}

/// Writes the select values of rows, with something between.
fn put_row_list<K: Sink>(
    format: ListFormat,
    between: &[u8],
    net: &Net,
    mux: u32,
    rows: &[Row],
    k: &mut K,
) -> Result<(), StoreFault>
    requires well_formed { IsNet net.now }
    requires there { mux < length net.now.muxes.items }
    ensures whole { OnOk result (Adds (K.taken k.old) (K.taken k.new)
        (forms.items (lines.row_text format net.now mux) between.now [] rows.now)) }
    ensures part { OnErr result (AddsPart (K.taken k.old) (K.taken k.new)
        (forms.items (lines.row_text format net.now mux) between.now [] rows.now)) }
    ensures cause { HasCause (K.faults k.old) (K.faults k.new) result StoreFault.Failed }
{
    let mut before: &[u8] = b"";
    for row in rows {
        put_row(format, before, net, mux, row, k)?;
        before = between;
    }
    Ok(())
}

/// Writes the select values of the rows of a mux, each row on a line in text. The refusals are those of the
/// sink, which then took some first bytes.
pub fn put_rows<K: Sink>(
    format: ListFormat,
    net: &Net,
    mux: u32,
    k: &mut K,
) -> Result<(), StoreFault>
    requires well_formed { IsNet net.now }
    requires there { mux < length net.now.muxes.items }
    ensures whole { OnOk result (Adds (K.taken k.old) (K.taken k.new) (lines.rows_text format net.now mux)) }
    ensures part { OnErr result
        (AddsPart (K.taken k.old) (K.taken k.new) (lines.rows_text format net.now mux)) }
    ensures cause { HasCause (K.faults k.old) (K.faults k.new) result StoreFault.Failed }
{
    let rows = net.muxes.get(mux as usize).rows.as_slice();
    put_row_list(format, text_or_json(format, b"", b","), net, mux, rows, k)
}

/// Writes how many rows a mux has.
fn put_row_count<K: Sink>(
    format: ListFormat,
    net: &Net,
    mux: u32,
    k: &mut K,
) -> Result<(), StoreFault>
    requires { mux < length net.now.muxes.items }
    ensures whole { OnOk result
        (Adds (K.taken k.old) (K.taken k.new) (lines.row_count_text format net.now mux)) }
    ensures part { OnErr result
        (AddsPart (K.taken k.old) (K.taken k.new) (lines.row_count_text format net.now mux)) }
    ensures cause { HasCause (K.faults k.old) (K.faults k.new) result StoreFault.Failed }
{
    let rows = net.muxes.get(mux as usize).rows.len();
    put_count(format, b" rows ", b"\",\"rows\":", rows as u64, k)
}

/// Writes the line of a mux that is in this many rows.
fn put_mux_line<K: Sink>(
    format: ListFormat,
    net: &Net,
    mux: u32,
    depth: usize,
    k: &mut K,
) -> Result<(), StoreFault>
    requires well_formed { IsNet net.now }
    requires there { mux < length net.now.muxes.items }
    ensures whole { OnOk result
        (Adds (K.taken k.old) (K.taken k.new) (lines.mux_text format net.now mux depth)) }
    ensures part { OnErr result
        (AddsPart (K.taken k.old) (K.taken k.new) (lines.mux_text format net.now mux depth)) }
    ensures cause { HasCause (K.faults k.old) (K.faults k.new) result StoreFault.Failed }
{
    put_text_or_json(format, b"mux ", b"{\"mux\":\"", k)?;
    put_mux_path(net, mux, k)?;
    put_row_count(format, net, mux, k)?;
    put_text_or_json(format, b" select ", b",\"select\":[", k)?;
    put_selects(format, net, mux, k)?;
    put_count(format, b" depth ", b"],\"depth\":", depth as u64, k)?;
    put_text_or_json(format, b"\n", b",\"values\":[", k)?;
    put_rows(format, net, mux, k)?;
    put_text_or_json(format, b"", b"]}\n", k)?;
    Ok(())
}

/// Writes the line of a mux.
fn put_mux<K: Sink>(
    format: ListFormat,
    net: &Net,
    tree: &Tree,
    mux: u32,
    k: &mut K,
) -> Result<(), StoreFault>
    requires well_formed { IsNet net.now }
    requires there { mux < length net.now.muxes.items }
    ensures whole { OnOk result
        (Adds (K.taken k.old) (K.taken k.new) (lines.mux_line format net.now tree.now mux)) }
    ensures part { OnErr result
        (AddsPart (K.taken k.old) (K.taken k.new) (lines.mux_line format net.now tree.now mux)) }
    ensures cause { HasCause (K.faults k.old) (K.faults k.new) result StoreFault.Failed }
{
    let depth = tree.place_of_mux(mux).len();
    put_mux_line(format, net, mux, depth, k)
}

/// Writes the line of each mux.
pub(crate) fn put_muxes<K: Sink>(
    format: ListFormat,
    net: &Net,
    tree: &Tree,
    k: &mut K,
) -> Result<(), StoreFault>
    requires well_formed { IsNet net.now }
    ensures whole { OnOk result (Adds (K.taken k.old) (K.taken k.new)
        (lines_from (lines.mux_line format net.now tree.now) 0 (length net.now.muxes.items))) }
    ensures part { OnErr result (AddsPart (K.taken k.old) (K.taken k.new)
        (lines_from (lines.mux_line format net.now tree.now) 0 (length net.now.muxes.items))) }
    ensures cause { HasCause (K.faults k.old) (K.faults k.new) result StoreFault.Failed }
{
    let count = mux_count(net);
    for mux in 0..count {
        put_mux(format, net, tree, mux, k)?;
    }
    Ok(())
}
