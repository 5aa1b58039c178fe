// The text of a network as a graph.
ghost use Rattle.std.specs.Prelude.{◌≡◌, ◌<◌, ◌&&◌, length, OnOk, OnErr};
ghost use Rattle.std.specs.List.{flat_map};
ghost use Rattle.ij_io.specs.Bytes.{Adds, AddsPart};
ghost use Rattle.ij_io.specs.Causes.{HasCause};
ghost use Rattle.ij_io.specs.Words.{word_text};
ghost use Rattle.net_graph.specs.Held.{AreHolds};
ghost use Rattle.net_graph.specs.Nets.{IsNet};
ghost use Rattle.net_graph.specs.Path as paths;
ghost use Rattle.net_list.specs.Listing.{lines_from};
ghost use Rattle.net_picture.specs.Dot as dot;
ghost use Rattle.net_picture.specs.Layout.{is_selected_row as selects_row};
ghost use Rattle.net_tree.specs.Lawful.{selects_of};

use crate::labels::{mux_label, register_label};
use crate::layout::is_selected_row;
use crate::met::{is_marked, is_on_path, met};
use crate::plan::has_path;
use crate::texts::short_values;
use ij_io::{Sink, StoreFault, Word, put_words};
use net_graph::{BitId, Holds, Net, Point, mux_count, register_count, row_of};
use std::alloc::Global;

/// What is on the active path of a state, and what is marked.
#[derive(Clone, Copy)]
struct Marks<'a> {
    met: &'a [Point],
    marked: Option<Point>,
}

/// The letters of a node's name.
fn node_letters(point: Point) -> &'static [u8]
    ensures { result.now ≡ dot.node_letters point }
{
    match point {
        Point::Entry => b"tdi",
        Point::Reg(_) => b"r",
        Point::Mux(_) => b"m",
    }
}

/// The number of a node's name.
fn node_number(point: Point) -> Word<'static>
    ensures { word_text result ≡ dot.node_number point }
{
    match point {
        Point::Entry => Word::Text(b""),
        Point::Reg(reg) => Word::Number(u64::from(reg)),
        Point::Mux(mux) => Word::Number(u64::from(mux)),
    }
}

/// The style of a node.
fn node_style(marked: bool, active: bool) -> &'static [u8]
    ensures { result.now ≡ dot.node_style marked active }
{
    if marked {
        b", style=filled, fillcolor=\"#ffb3b3\", color=\"#e00000\", penwidth=3"
    } else if active {
        b", color=\"#d55e00\", penwidth=3"
    } else {
        b""
    }
}

/// The style of an edge.
fn edge_style(active: bool) -> &'static [u8]
    ensures { result.now ≡ dot.edge_style active }
{
    if active {
        b"color=\"#d55e00\", penwidth=3"
    } else {
        b"color=\"#868e96\""
    }
}

/// Writes the node of a register.
fn put_register_node<K: Sink>(
    alloc: Global,
    net: &Net,
    marks: Marks<'_>,
    reg: u32,
    k: &mut K,
) -> Result<(), StoreFault>
    requires well_formed { IsNet net.now }
    requires there { reg < length net.now.regs.items }
    ensures whole { OnOk result (Adds (K.taken k.old) (K.taken k.new)
        (dot.register_node net.now marks.entry.marked marks.entry.met.now reg)) }
    ensures part { OnErr result (AddsPart (K.taken k.old) (K.taken k.new)
        (dot.register_node net.now marks.entry.marked marks.entry.met.now reg)) }
    ensures cause { HasCause (K.faults k.old) (K.faults k.new) result StoreFault.Failed }
{
    let point = Point::Reg(reg);
    let label = register_label(alloc, net, reg)?;
    let style = node_style(is_marked(marks.marked, point), is_on_path(marks.met, point));
    put_node(b"  r", reg, label.bytes(), b"\"", style, k)
}

/// Writes the node of a multiplexer.
fn put_mux_node<K: Sink>(
    alloc: Global,
    net: &Net,
    marks: Marks<'_>,
    mux: u32,
    k: &mut K,
) -> Result<(), StoreFault>
    requires well_formed { IsNet net.now }
    requires there { mux < length net.now.muxes.items }
    ensures whole { OnOk result (Adds (K.taken k.old) (K.taken k.new)
        (dot.mux_node net.now marks.entry.marked marks.entry.met.now mux)) }
    ensures part { OnErr result (AddsPart (K.taken k.old) (K.taken k.new)
        (dot.mux_node net.now marks.entry.marked marks.entry.met.now mux)) }
    ensures cause { HasCause (K.faults k.old) (K.faults k.new) result StoreFault.Failed }
{
    let point = Point::Mux(mux);
    let label = mux_label(alloc, net, mux)?;
    let style = node_style(is_marked(marks.marked, point), is_on_path(marks.met, point));
    put_node(
        b"  m",
        mux,
        label.bytes(),
        b"\", shape=trapezium, orientation=270",
        style,
        k,
    )
}

/// Writes a node: the letters and the number of its name, its label and its style.
#[tactic(auto, unfolding(crate::specs::Dot::node_text, ij_io::specs::Words::words_text))]
fn put_node<'a, K: Sink>(
    letters: &'a [u8],
    number: u32,
    label: &'a [u8],
    shape: &'a [u8],
    style: &'a [u8],
    k: &mut K,
) -> Result<(), StoreFault>
    ensures whole { OnOk result (Adds (K.taken k.old) (K.taken k.new)
        (dot.node_text letters.now number label.now shape.now style.now)) }
    ensures part { OnErr result (AddsPart (K.taken k.old) (K.taken k.new)
        (dot.node_text letters.now number label.now shape.now style.now)) }
    ensures cause { HasCause (K.faults k.old) (K.faults k.new) result StoreFault.Failed }
{
    let words = [
        Word::Text(letters),
        Word::Number(u64::from(number)),
        Word::Text(b" [label=\""),
        Word::Text(label),
        Word::Text(shape),
        Word::Text(style),
        Word::Text(b"];\n"),
    ];
    put_words(k, &words)
}

/// Writes the edge from a source to a register.
#[tactic(auto, unfolding(crate::specs::Dot::register_edge, ij_io::specs::Words::words_text))]
fn put_register_edge<K: Sink>(
    net: &Net,
    met: &[Point],
    reg: u32,
    k: &mut K,
) -> Result<(), StoreFault>
    requires well_formed { IsNet net.now }
    requires there { reg < length net.now.regs.items }
    ensures whole { OnOk result
        (Adds (K.taken k.old) (K.taken k.new) (dot.register_edge net.now met.now reg)) }
    ensures part { OnErr result
        (AddsPart (K.taken k.old) (K.taken k.new) (dot.register_edge net.now met.now reg)) }
    ensures cause { HasCause (K.faults k.old) (K.faults k.new) result StoreFault.Failed }
{
    let source = net.regs.get(reg as usize).from;
    let words = [
        Word::Text(b"  "),
        Word::Text(node_letters(source)),
        node_number(source),
        Word::Text(b" -> r"),
        Word::Number(u64::from(reg)),
        Word::Text(b" ["),
        Word::Text(edge_style(is_on_path(met, Point::Reg(reg)))),
        Word::Text(b"];\n"),
    ];
    put_words(k, &words)
}

/// The source of a row.
fn row_source(net: &Net, mux: u32, row: usize) -> Point
    requires there { mux < length net.now.muxes.items }
    requires row { row < length (paths.rows_of net.now mux) }
    ensures { result ≡ dot.row_source net.now mux row }
{
    net.muxes.get(mux as usize).rows.get(row).from
}

/// Writes an edge to a multiplexer: the letters and the number of its source, its select values and its
/// style.
#[tactic(auto, unfolding(crate::specs::Dot::labelled_edge, ij_io::specs::Words::words_text))]
fn put_labelled_edge<'a, K: Sink>(
    letters: &'a [u8],
    number: Word<'a>,
    mux: u32,
    values: &'a [u8],
    style: &'a [u8],
    k: &mut K,
) -> Result<(), StoreFault>
    ensures whole { OnOk result (Adds (K.taken k.old) (K.taken k.new)
        (dot.labelled_edge letters.now (word_text number.entry) mux values.now style.now)) }
    ensures part { OnErr result (AddsPart (K.taken k.old) (K.taken k.new)
        (dot.labelled_edge letters.now (word_text number.entry) mux values.now style.now)) }
    ensures cause { HasCause (K.faults k.old) (K.faults k.new) result StoreFault.Failed }
{
    let words = [
        Word::Text(b"  "),
        Word::Text(letters),
        number,
        Word::Text(b" -> m"),
        Word::Number(u64::from(mux)),
        Word::Text(b" [label=\""),
        Word::Text(values),
        Word::Text(b"\", "),
        Word::Text(style),
        Word::Text(b"];\n"),
    ];
    put_words(k, &words)
}

/// Writes the edge from the source of a row to its multiplexer.
fn put_row_edge<K: Sink>(
    alloc: Global,
    net: &Net,
    active: bool,
    mux: u32,
    row: usize,
    k: &mut K,
) -> Result<(), StoreFault>
    requires there { mux < length net.now.muxes.items }
    requires row { row < length (paths.rows_of net.now mux) }
    ensures whole { OnOk result (Adds (K.taken k.old) (K.taken k.new) (dot.row_edge net.now active mux row)) }
    ensures part { OnErr result
        (AddsPart (K.taken k.old) (K.taken k.new) (dot.row_edge net.now active mux row)) }
    ensures cause { HasCause (K.faults k.old) (K.faults k.new) result StoreFault.Failed }
{
    let source = row_source(net, mux, row);
    let values = short_values(alloc, net, mux, row)?;
    put_labelled_edge(
        node_letters(source),
        node_number(source),
        mux,
        values.bytes(),
        edge_style(active),
        k,
    )
}

/// Whether the edge of a row is on the active path.
fn is_edge_active(active: bool, selected: Option<u32>, row: usize) -> bool
    ensures { result ≡ (active && selects_row selected row) }
{
    active && is_selected_row(selected, row)
}

/// Writes the edge of a row, on the active path where its multiplexer is and the row is selected.
fn put_row_line<K: Sink>(
    alloc: Global,
    net: &Net,
    active: bool,
    selected: Option<u32>,
    mux: u32,
    row: usize,
    k: &mut K,
) -> Result<(), StoreFault>
    requires there { mux < length net.now.muxes.items }
    requires row { row < length (paths.rows_of net.now mux) }
    ensures whole { OnOk result
        (Adds (K.taken k.old) (K.taken k.new) (dot.row_line net.now active selected mux row)) }
    ensures part { OnErr result
        (AddsPart (K.taken k.old) (K.taken k.new) (dot.row_line net.now active selected mux row)) }
    ensures cause { HasCause (K.faults k.old) (K.faults k.new) result StoreFault.Failed }
{
    let shown = is_edge_active(active, selected, row);
    put_row_edge(alloc, net, shown, mux, row, k)
}

/// The select bits of a multiplexer.
fn select_bits(net: &Net, mux: u32) -> &[BitId]
    requires { mux < length net.now.muxes.items }
    ensures { result.now ≡ selects_of net.now mux }
{
    net.muxes.get(mux as usize).select.as_slice()
}

/// How many rows a multiplexer has.
fn row_count(net: &Net, mux: u32) -> usize
    requires { mux < length net.now.muxes.items }
    ensures { result ≡ length (paths.rows_of net.now mux) }
{
    net.muxes.get(mux as usize).rows.len()
}

/// Writes the edges from the sources of rows.
fn put_row_edges<K: Sink>(
    alloc: Global,
    net: &Net,
    active: bool,
    selected: Option<u32>,
    mux: u32,
    k: &mut K,
) -> Result<(), StoreFault>
    requires { mux < length net.now.muxes.items }
    ensures whole { OnOk result (Adds (K.taken k.old) (K.taken k.new)
        (lines_from (dot.row_line net.now active selected mux) 0 (length (paths.rows_of net.now mux)))) }
    ensures part { OnErr result (AddsPart (K.taken k.old) (K.taken k.new)
        (lines_from (dot.row_line net.now active selected mux) 0 (length (paths.rows_of net.now mux)))) }
    ensures cause { HasCause (K.faults k.old) (K.faults k.new) result StoreFault.Failed }
{
    let count = row_count(net, mux);
    for row in 0..count {
        put_row_line(alloc, net, active, selected, mux, row, k)?;
    }
    Ok(())
}

/// Writes the edge from the register of a select bit.
#[tactic(auto, unfolding(crate::specs::Dot::select_edge, ij_io::specs::Words::words_text))]
fn put_select_edge<K: Sink>(mux: u32, bit: BitId, k: &mut K) -> Result<(), StoreFault>
    ensures whole { OnOk result (Adds (K.taken k.old) (K.taken k.new) (dot.select_edge mux bit)) }
    ensures part { OnErr result (AddsPart (K.taken k.old) (K.taken k.new) (dot.select_edge mux bit)) }
    ensures cause { HasCause (K.faults k.old) (K.faults k.new) result StoreFault.Failed }
{
    let words = [
        Word::Text(b"  r"),
        Word::Number(u64::from(bit.reg)),
        Word::Text(b" -> m"),
        Word::Number(u64::from(mux)),
        Word::Text(b" [style=dashed, color=\"#868e96\", constraint=false];\n"),
    ];
    put_words(k, &words)
}

/// Writes the edges from the registers of select bits.
fn put_select_edges<K: Sink>(mux: u32, bits: &[BitId], k: &mut K) -> Result<(), StoreFault>
    ensures whole { OnOk result
        (Adds (K.taken k.old) (K.taken k.new) (flat_map (dot.select_edge mux) bits.now)) }
    ensures part { OnErr result
        (AddsPart (K.taken k.old) (K.taken k.new) (flat_map (dot.select_edge mux) bits.now)) }
    ensures cause { HasCause (K.faults k.old) (K.faults k.new) result StoreFault.Failed }
{
    for bit in bits {
        put_select_edge(mux, *bit, k)?;
    }
    Ok(())
}

/// Writes the edges to a multiplexer.
fn put_mux_edges<K: Sink>(
    alloc: Global,
    net: &Net,
    holds: &Holds,
    met: &[Point],
    mux: u32,
    k: &mut K,
) -> Result<(), StoreFault>
    requires well_formed { IsNet net.now }
    requires there { mux < length net.now.muxes.items }
    requires holds { AreHolds net.now holds.now }
    ensures whole { OnOk result
        (Adds (K.taken k.old) (K.taken k.new) (dot.mux_edges net.now holds.now met.now mux)) }
    ensures part { OnErr result
        (AddsPart (K.taken k.old) (K.taken k.new) (dot.mux_edges net.now holds.now met.now mux)) }
    ensures cause { HasCause (K.faults k.old) (K.faults k.new) result StoreFault.Failed }
{
    let selected = row_of(net, holds, mux);
    let active = is_on_path(met, Point::Mux(mux));
    let bits = select_bits(net, mux);
    put_row_edges(alloc, net, active, selected, mux, k)?;
    put_select_edges(mux, bits, k)?;
    Ok(())
}

/// Writes the nodes of all registers.
fn put_register_nodes<K: Sink>(
    alloc: Global,
    net: &Net,
    marks: Marks<'_>,
    k: &mut K,
) -> Result<(), StoreFault>
    requires well_formed { IsNet net.now }
    ensures whole { OnOk result (Adds (K.taken k.old) (K.taken k.new) (lines_from
        (dot.register_node net.now marks.entry.marked marks.entry.met.now) 0 (length net.now.regs.items))) }
    ensures part { OnErr result (AddsPart (K.taken k.old) (K.taken k.new) (lines_from
        (dot.register_node net.now marks.entry.marked marks.entry.met.now) 0 (length net.now.regs.items))) }
    ensures cause { HasCause (K.faults k.old) (K.faults k.new) result StoreFault.Failed }
{
    let count = register_count(net);
    for reg in 0..count {
        put_register_node(alloc, net, marks, reg, k)?;
    }
    Ok(())
}

/// Writes the nodes of all multiplexers.
fn put_mux_nodes<K: Sink>(
    alloc: Global,
    net: &Net,
    marks: Marks<'_>,
    k: &mut K,
) -> Result<(), StoreFault>
    requires well_formed { IsNet net.now }
    ensures whole { OnOk result (Adds (K.taken k.old) (K.taken k.new) (lines_from
        (dot.mux_node net.now marks.entry.marked marks.entry.met.now) 0 (length net.now.muxes.items))) }
    ensures part { OnErr result (AddsPart (K.taken k.old) (K.taken k.new) (lines_from
        (dot.mux_node net.now marks.entry.marked marks.entry.met.now) 0 (length net.now.muxes.items))) }
    ensures cause { HasCause (K.faults k.old) (K.faults k.new) result StoreFault.Failed }
{
    let count = mux_count(net);
    for mux in 0..count {
        put_mux_node(alloc, net, marks, mux, k)?;
    }
    Ok(())
}

/// Writes the edges to all registers.
fn put_register_edges<K: Sink>(net: &Net, met: &[Point], k: &mut K) -> Result<(), StoreFault>
    requires well_formed { IsNet net.now }
    ensures whole { OnOk result (Adds (K.taken k.old) (K.taken k.new)
        (lines_from (dot.register_edge net.now met.now) 0 (length net.now.regs.items))) }
    ensures part { OnErr result (AddsPart (K.taken k.old) (K.taken k.new)
        (lines_from (dot.register_edge net.now met.now) 0 (length net.now.regs.items))) }
    ensures cause { HasCause (K.faults k.old) (K.faults k.new) result StoreFault.Failed }
{
    let count = register_count(net);
    for reg in 0..count {
        put_register_edge(net, met, reg, k)?;
    }
    Ok(())
}

/// Writes the edges to all multiplexers.
fn put_all_mux_edges<K: Sink>(
    alloc: Global,
    net: &Net,
    holds: &Holds,
    met: &[Point],
    k: &mut K,
) -> Result<(), StoreFault>
    requires well_formed { IsNet net.now }
    requires holds { AreHolds net.now holds.now }
    ensures whole { OnOk result (Adds (K.taken k.old) (K.taken k.new)
        (lines_from (dot.mux_edges net.now holds.now met.now) 0 (length net.now.muxes.items))) }
    ensures part { OnErr result (AddsPart (K.taken k.old) (K.taken k.new)
        (lines_from (dot.mux_edges net.now holds.now met.now) 0 (length net.now.muxes.items))) }
    ensures cause { HasCause (K.faults k.old) (K.faults k.new) result StoreFault.Failed }
{
    let count = mux_count(net);
    for mux in 0..count {
        put_mux_edges(alloc, net, holds, met, mux, k)?;
    }
    Ok(())
}

/// Writes the edge to TDO.
#[tactic(auto, unfolding(crate::specs::Dot::output_edge, ij_io::specs::Words::words_text))]
fn put_output_edge<K: Sink>(net: &Net, active: bool, k: &mut K) -> Result<(), StoreFault>
    ensures whole { OnOk result (Adds (K.taken k.old) (K.taken k.new) (dot.output_edge net.now active)) }
    ensures part { OnErr result (AddsPart (K.taken k.old) (K.taken k.new) (dot.output_edge net.now active)) }
    ensures cause { HasCause (K.faults k.old) (K.faults k.new) result StoreFault.Failed }
{
    let words = [
        Word::Text(b"  "),
        Word::Text(node_letters(net.out)),
        node_number(net.out),
        Word::Text(b" -> tdo ["),
        Word::Text(edge_style(active)),
        Word::Text(b"];\n}\n"),
    ];
    put_words(k, &words)
}

/// Writes the beginning of the text.
#[tactic(auto, unfolding(crate::specs::Dot::dot_head))]
fn put_head<K: Sink>(k: &mut K) -> Result<(), StoreFault>
    ensures whole { OnOk result (Adds (K.taken k.old) (K.taken k.new) (dot.dot_head)) }
    ensures part { OnErr result (AddsPart (K.taken k.old) (K.taken k.new) (dot.dot_head)) }
    ensures cause { HasCause (K.faults k.old) (K.faults k.new) result StoreFault.Failed }
{
    k.write(
        b"digraph net {\n  rankdir=LR;\n  node [shape=box, fontname=\"monospace\", fontsize=10];\n  edge [fontname=\"monospace\", fontsize=9];\n  tdi [label=\"TDI\", shape=cds];\n  tdo [label=\"TDO\", shape=cds];\n",
    )
}

/// Writes a network as a graph, with what is met, whether there is an active path, and what is marked.
fn put_graph<K: Sink>(
    alloc: Global,
    net: &Net,
    holds: &Holds,
    marks: Marks<'_>,
    on: bool,
    k: &mut K,
) -> Result<(), StoreFault>
    requires well_formed { IsNet net.now }
    requires holds { AreHolds net.now holds.now }
    ensures whole { OnOk result (Adds (K.taken k.old) (K.taken k.new)
        (dot.graph_text net.now holds.now on marks.entry.marked marks.entry.met.now)) }
    ensures part { OnErr result (AddsPart (K.taken k.old) (K.taken k.new)
        (dot.graph_text net.now holds.now on marks.entry.marked marks.entry.met.now)) }
    ensures cause { HasCause (K.faults k.old) (K.faults k.new) result StoreFault.Failed }
{
    put_head(k)?;
    put_register_nodes(alloc, net, marks, k)?;
    put_mux_nodes(alloc, net, marks, k)?;
    put_register_edges(net, marks.met, k)?;
    put_all_mux_edges(alloc, net, holds, marks.met, k)?;
    put_output_edge(net, on, k)?;
    Ok(())
}

/// Writes a network as a graph in the language of Graphviz (DOT): a node for each register and each
/// multiplexer, an edge from each scan source, with the select values of a row, and a dashed one from each
/// select bit's register (IEEE 1687-2014, ICL: `ScanInSource`, `ScanMux`, `SelectedBy`). It asks for no
/// nested form. What is on the active path of the state is in colour and thick, and nothing is where there is
/// none; what is marked is red.
///
/// # Errors
///
/// `Failed`, where the sink refuses a write, and want of memory. The sink then took some first bytes of the
/// text.
pub fn put_dot<K: Sink>(
    alloc: Global,
    net: &Net,
    holds: &Holds,
    marked: Option<Point>,
    k: &mut K,
) -> Result<(), StoreFault>
    requires well_formed { IsNet net.now }
    requires holds { AreHolds net.now holds.now }
    ensures whole { OnOk result
        (Adds (K.taken k.old) (K.taken k.new) (dot.dot_text net.now holds.now marked)) }
    ensures part { OnErr result
        (AddsPart (K.taken k.old) (K.taken k.new) (dot.dot_text net.now holds.now marked)) }
    ensures cause { HasCause (K.faults k.old) (K.faults k.new) result StoreFault.Failed }
{
    let on = has_path(alloc, net, holds)?;
    let points = met(alloc, net, holds, on)?;
    let marks = Marks {
        met: &points,
        marked,
    };
    put_graph(alloc, net, holds, marks, on, k)
}
