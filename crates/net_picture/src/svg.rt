// The text of a drawing.
ghost use Rattle.std.specs.Prelude.{◌≡◌, ◌<◌, length, All, OnOk, OnErr};
ghost use Rattle.ij_io.specs.Bytes.{Adds, AddsPart};
ghost use Rattle.ij_io.specs.Causes.{HasCause};
ghost use Rattle.net_graph.specs.Held.{AreHolds};
ghost use Rattle.net_graph.specs.Nets.{IsNet};
ghost use Rattle.net_tree.specs.Form.{Describes};
ghost use Rattle.net_picture.specs.Svg as svg;
ghost use Rattle.net_picture.specs.There.{IsShapeOf};

use crate::drawing::{View, drawing_of};
use crate::shape::Shape;
use crate::texts::{mux_title, register_title, short_mux, short_register, short_values};
use ij_io::{Sink, StoreFault, Word, put_words};
use net_graph::{Holds, Net};
use net_list::muxes_selected_by;
use net_tree::Tree;
use std::alloc::Global;

/// A class of the style sheet, and another one on the active path.
fn class<'a>(active: bool, on: &'a [u8], off: &'a [u8]) -> &'a [u8]
    ensures { result.now ≡ svg.class_text active on.now off.now }
{
    if active { on } else { off }
}

/// How round the corners of a box are whose register selects in these multiplexers.
fn corner_radius(muxes: &[u32]) -> u64
    ensures { result ≡ svg.corner_radius muxes.now }
{
    if muxes.is_empty() { 3 } else { 13 }
}

/// A box: its tooltip, its label, its class, how round its corners are, its place and its width.
#[derive(Clone, Copy)]
struct BoxText<'a> {
    title: &'a [u8],
    label: &'a [u8],
    class: &'a [u8],
    round: u64,
    x: u64,
    y: u64,
    width: u64,
}

/// A funnel: its tooltip, its label, its class, its place and its height.
#[derive(Clone, Copy)]
struct FunnelText<'a> {
    title: &'a [u8],
    label: &'a [u8],
    class: &'a [u8],
    x: u64,
    y: u64,
    height: u64,
}

/// Writes a box.
#[tactic(auto, unfolding(crate::specs::Svg::box_text, ij_io::specs::Words::words_text))]
fn put_box<K: Sink>(it: BoxText<'_>, k: &mut K) -> Result<(), StoreFault>
    ensures whole { OnOk result (Adds (K.taken k.old) (K.taken k.new) (svg.box_text it.entry.title.now
        it.entry.label.now it.entry.class.now it.entry.round it.entry.x it.entry.y it.entry.width)) }
    ensures part { OnErr result (AddsPart (K.taken k.old) (K.taken k.new) (svg.box_text it.entry.title.now
        it.entry.label.now it.entry.class.now it.entry.round it.entry.x it.entry.y it.entry.width)) }
    ensures cause { HasCause (K.faults k.old) (K.faults k.new) result StoreFault.Failed }
{
    let words = [
        Word::Text(b"<g transform=\"translate("),
        Word::Number(it.x),
        Word::Text(b" "),
        Word::Number(it.y),
        Word::Text(b")\"><title>"),
        Word::Text(it.title),
        Word::Text(b"</title><rect class=\""),
        Word::Text(it.class),
        Word::Text(b"\" y=\"-13\" width=\""),
        Word::Number(it.width),
        Word::Text(b"\" height=\"26\" rx=\""),
        Word::Number(it.round),
        Word::Text(b"\"/><text class=\"n\" x=\""),
        Word::Number(it.width / 2),
        Word::Text(b"\" y=\"4\">"),
        Word::Text(it.label),
        Word::Text(b"</text></g>\n"),
    ];
    put_words(k, &words)
}

/// Writes a funnel.
#[tactic(auto, unfolding(crate::specs::Svg::funnel_text, ij_io::specs::Words::words_text))]
fn put_funnel<K: Sink>(it: FunnelText<'_>, k: &mut K) -> Result<(), StoreFault>
    ensures whole { OnOk result (Adds (K.taken k.old) (K.taken k.new) (svg.funnel_text it.entry.title.now
        it.entry.label.now it.entry.class.now it.entry.x it.entry.y it.entry.height)) }
    ensures part { OnErr result (AddsPart (K.taken k.old) (K.taken k.new) (svg.funnel_text it.entry.title.now
        it.entry.label.now it.entry.class.now it.entry.x it.entry.y it.entry.height)) }
    ensures cause { HasCause (K.faults k.old) (K.faults k.new) result StoreFault.Failed }
{
    let words = [
        Word::Text(b"<g transform=\"translate("),
        Word::Number(it.x),
        Word::Text(b" "),
        Word::Number(it.y),
        Word::Text(b")\"><title>"),
        Word::Text(it.title),
        Word::Text(b"</title><path class=\""),
        Word::Text(it.class),
        Word::Text(b"\" d=\"M0-13l14 6v"),
        Word::Number(it.height),
        Word::Text(b"v14l-14 6z\"/><text class=\"m\" x=\"18\" y=\"12\">"),
        Word::Text(it.label),
        Word::Text(b"</text></g>\n"),
    ];
    put_words(k, &words)
}

/// Writes a register's box.
fn put_register<K: Sink>(
    alloc: Global,
    net: &Net,
    reg: u32,
    x: u64,
    y: u64,
    width: u64,
    active: bool,
    k: &mut K,
) -> Result<(), StoreFault>
    requires well_formed { IsNet net.now }
    requires there { reg < length net.now.regs.items }
    ensures whole { OnOk result
        (Adds (K.taken k.old) (K.taken k.new) (svg.register_text net.now reg x y width active)) }
    ensures part { OnErr result
        (AddsPart (K.taken k.old) (K.taken k.new) (svg.register_text net.now reg x y width active)) }
    ensures cause { HasCause (K.faults k.old) (K.faults k.new) result StoreFault.Failed }
{
    let muxes = muxes_selected_by(alloc, net, reg)?;
    let title = register_title(alloc, net, reg, muxes.as_slice())?;
    let label = short_register(alloc, net, reg)?;
    let it = BoxText {
        title: title.bytes(),
        label: label.bytes(),
        class: class(active, b"b a", b"b"),
        round: corner_radius(muxes.as_slice()),
        x,
        y,
        width,
    };
    put_box(it, k)
}

/// Writes a multiplexer's funnel.
fn put_mux<K: Sink>(
    alloc: Global,
    net: &Net,
    mux: u32,
    x: u64,
    y: u64,
    height: u64,
    active: bool,
    k: &mut K,
) -> Result<(), StoreFault>
    requires well_formed { IsNet net.now }
    requires there { mux < length net.now.muxes.items }
    ensures whole { OnOk result
        (Adds (K.taken k.old) (K.taken k.new) (svg.mux_text net.now mux x y height active)) }
    ensures part { OnErr result
        (AddsPart (K.taken k.old) (K.taken k.new) (svg.mux_text net.now mux x y height active)) }
    ensures cause { HasCause (K.faults k.old) (K.faults k.new) result StoreFault.Failed }
{
    let title = mux_title(alloc, net, mux)?;
    let label = short_mux(alloc, net, mux)?;
    let it = FunnelText {
        title: title.bytes(),
        label: label.bytes(),
        class: class(active, b"f a", b"f"),
        x,
        y,
        height,
    };
    put_funnel(it, k)
}

/// Writes the select values of a row.
#[tactic(auto, unfolding(crate::specs::Svg::values_text, ij_io::specs::Words::words_text))]
fn put_values<K: Sink>(
    alloc: Global,
    net: &Net,
    mux: u32,
    row: usize,
    x: u64,
    y: u64,
    k: &mut K,
) -> Result<(), StoreFault>
    requires { mux < length net.now.muxes.items }
    ensures whole { OnOk result (Adds (K.taken k.old) (K.taken k.new) (svg.values_text net.now mux row x y)) }
    ensures part { OnErr result
        (AddsPart (K.taken k.old) (K.taken k.new) (svg.values_text net.now mux row x y)) }
    ensures cause { HasCause (K.faults k.old) (K.faults k.new) result StoreFault.Failed }
{
    let label = short_values(alloc, net, mux, row)?;
    let words = [
        Word::Text(b"<text class=\"v\" x=\""),
        Word::Number(x),
        Word::Text(b"\" y=\""),
        Word::Number(y),
        Word::Text(b"\" dx=\"-4\" dy=\"-4\">"),
        Word::Text(label.bytes()),
        Word::Text(b"</text>\n"),
    ];
    put_words(k, &words)
}

/// Writes a wire.
#[tactic(auto, unfolding(crate::specs::Svg::wire_text, ij_io::specs::Words::words_text))]
fn put_wire<K: Sink>(
    x: u64,
    y: u64,
    turn: u64,
    to_x: u64,
    to_y: u64,
    active: bool,
    k: &mut K,
) -> Result<(), StoreFault>
    ensures whole { OnOk result
        (Adds (K.taken k.old) (K.taken k.new) (svg.wire_text x y turn to_x to_y active)) }
    ensures part { OnErr result
        (AddsPart (K.taken k.old) (K.taken k.new) (svg.wire_text x y turn to_x to_y active)) }
    ensures cause { HasCause (K.faults k.old) (K.faults k.new) result StoreFault.Failed }
{
    let words = [
        Word::Text(b"<path class=\""),
        Word::Text(class(active, b"w a", b"w")),
        Word::Text(b"\" d=\"M"),
        Word::Number(x),
        Word::Text(b" "),
        Word::Number(y),
        Word::Text(b"H"),
        Word::Number(turn),
        Word::Text(b"V"),
        Word::Number(to_y),
        Word::Text(b"H"),
        Word::Number(to_x),
        Word::Text(b"\"/>\n"),
    ];
    put_words(k, &words)
}

/// Writes a shape.
fn put_shape<K: Sink>(alloc: Global, net: &Net, shape: Shape, k: &mut K) -> Result<(), StoreFault>
    requires well_formed { IsNet net.now }
    requires there { IsShapeOf net.now shape }
    ensures whole { OnOk result (Adds (K.taken k.old) (K.taken k.new) (svg.shape_text net.now shape)) }
    ensures part { OnErr result (AddsPart (K.taken k.old) (K.taken k.new) (svg.shape_text net.now shape)) }
    ensures cause { HasCause (K.faults k.old) (K.faults k.new) result StoreFault.Failed }
{
    match shape {
        Shape::Register {
            reg,
            x,
            y,
            width,
            active,
        } => put_register(alloc, net, reg, x, y, width, active, k),
        Shape::Mux {
            mux,
            x,
            y,
            height,
            active,
        } => put_mux(alloc, net, mux, x, y, height, active, k),
        Shape::Values { mux, row, x, y } => put_values(alloc, net, mux, row, x, y, k),
        Shape::Wire {
            x,
            y,
            turn,
            to_x,
            to_y,
            active,
        } => put_wire(x, y, turn, to_x, to_y, active, k),
    }
}

/// Writes a shape where it is in the layer.
fn put_in_layer<K: Sink>(
    alloc: Global,
    net: &Net,
    layer: bool,
    shape: Shape,
    k: &mut K,
) -> Result<(), StoreFault>
    requires well_formed { IsNet net.now }
    requires there { IsShapeOf net.now shape }
    ensures whole { OnOk result
        (Adds (K.taken k.old) (K.taken k.new) (svg.text_in_layer net.now layer shape)) }
    ensures part { OnErr result
        (AddsPart (K.taken k.old) (K.taken k.new) (svg.text_in_layer net.now layer shape)) }
    ensures cause { HasCause (K.faults k.old) (K.faults k.new) result StoreFault.Failed }
{
    if shape.is_active() == layer {
        put_shape(alloc, net, shape, k)
    } else {
        k.write(b"")
    }
}

/// Writes the shapes of a layer.
fn put_layer<K: Sink>(
    alloc: Global,
    net: &Net,
    layer: bool,
    shapes: &[Shape],
    k: &mut K,
) -> Result<(), StoreFault>
    requires well_formed { IsNet net.now }
    requires there { All (IsShapeOf net.now) shapes.now }
    ensures whole { OnOk result
        (Adds (K.taken k.old) (K.taken k.new) (svg.layer_text net.now layer shapes.now)) }
    ensures part { OnErr result
        (AddsPart (K.taken k.old) (K.taken k.new) (svg.layer_text net.now layer shapes.now)) }
    ensures cause { HasCause (K.faults k.old) (K.faults k.new) result StoreFault.Failed }
{
    for shape in shapes {
        put_in_layer(alloc, net, layer, *shape, k)?;
    }
    Ok(())
}

/// Writes the style sheet.
#[tactic(auto, unfolding(crate::specs::Svg::style_text))]
fn put_style<K: Sink>(k: &mut K) -> Result<(), StoreFault>
    ensures whole { OnOk result (Adds (K.taken k.old) (K.taken k.new) svg.style_text) }
    ensures part { OnErr result (AddsPart (K.taken k.old) (K.taken k.new) svg.style_text) }
    ensures cause { HasCause (K.faults k.old) (K.faults k.new) result StoreFault.Failed }
{
    k.write(
        b"<style>text{fill:#212529}.p{fill:#fff}.w{fill:none;stroke-linecap:square}.w,.b,.f{stroke:#868e96;stroke-width:1.5}.b{fill:#f8f9fa}.f{fill:#e7f0f8}.w.a,.b.a,.f.a{stroke:#d55e00;stroke-width:3}.b.a{fill:#fff1e0}.n{text-anchor:middle}.v{font-size:9px;text-anchor:end}.m{font-size:9px}@media(prefers-color-scheme:dark){text{fill:#e6edf3}.p{fill:#0d1117}.w,.b,.f{stroke:#8b949e}.b{fill:#161b22}.f{fill:#10263d}.w.a,.b.a,.f.a{stroke:#ff9e4a}.b.a{fill:#3d2410}}</style>\n",
    )
}

/// Writes the size of the view.
#[tactic(auto, unfolding(crate::specs::Svg::size_text, ij_io::specs::Words::words_text))]
fn put_size<K: Sink>(width: u64, height: u64, k: &mut K) -> Result<(), StoreFault>
    ensures whole { OnOk result (Adds (K.taken k.old) (K.taken k.new) (svg.size_text width height)) }
    ensures part { OnErr result (AddsPart (K.taken k.old) (K.taken k.new) (svg.size_text width height)) }
    ensures cause { HasCause (K.faults k.old) (K.faults k.new) result StoreFault.Failed }
{
    let words = [
        Word::Text(b"<svg xmlns=\"http://www.w3.org/2000/svg\" width=\""),
        Word::Number(width),
        Word::Text(b"\" height=\""),
        Word::Number(height),
        Word::Text(b"\" viewBox=\"0 0 "),
        Word::Number(width),
        Word::Text(b" "),
        Word::Number(height),
        Word::Text(b"\" font-family=\"monospace\" font-size=\"11\">\n"),
    ];
    put_words(k, &words)
}

/// Writes the ground, and the names of the two ends.
#[tactic(auto, unfolding(crate::specs::Svg::ends_text, ij_io::specs::Words::words_text))]
fn put_ground_and_ends<K: Sink>(x: u64, y: u64, k: &mut K) -> Result<(), StoreFault>
    ensures whole { OnOk result (Adds (K.taken k.old) (K.taken k.new) (svg.ends_text x y)) }
    ensures part { OnErr result (AddsPart (K.taken k.old) (K.taken k.new) (svg.ends_text x y)) }
    ensures cause { HasCause (K.faults k.old) (K.faults k.new) result StoreFault.Failed }
{
    let words = [
        Word::Text(
            b"<rect class=\"p\" width=\"100%\" height=\"100%\"/>\n<text x=\"20\" y=\"40\">TDI</text>\n<text x=\"",
        ),
        Word::Number(x),
        Word::Text(b"\" y=\""),
        Word::Number(y),
        Word::Text(b"\" dx=\"6\" dy=\"4\">TDO</text>\n"),
    ];
    put_words(k, &words)
}

/// Writes a drawing of these shapes.
fn put_drawing<K: Sink>(
    alloc: Global,
    net: &Net,
    view: View,
    shapes: &[Shape],
    k: &mut K,
) -> Result<(), StoreFault>
    requires well_formed { IsNet net.now }
    requires there { All (IsShapeOf net.now) shapes.now }
    ensures whole { OnOk result
        (Adds (K.taken k.old) (K.taken k.new) (svg.view_text net.now view shapes.now)) }
    ensures part { OnErr result
        (AddsPart (K.taken k.old) (K.taken k.new) (svg.view_text net.now view shapes.now)) }
    ensures cause { HasCause (K.faults k.old) (K.faults k.new) result StoreFault.Failed }
{
    put_size(view.width, view.height, k)?;
    put_style(k)?;
    put_ground_and_ends(view.x, view.y, k)?;
    put_layer(alloc, net, false, shapes, k)?;
    put_layer(alloc, net, true, shapes, k)?;
    k.write(b"</svg>\n")?;
    Ok(())
}

/// Writes a drawing of the network as one file of scalable vector graphics (W3C, SVG 1.1): registers as
/// boxes, multiplexers as funnels with their rows one below the other, wires from TDI to TDO, and the active
/// path of the state in colour (IEEE 1687-2014: active scan path). A box is round at its ends where its
/// register selects.
///
/// Tooltips (`<title>`) have paths, bits, reset values (the left bit first, an x where it has none), select
/// bits and select values, and the outputs of instruments that a register captures (`CaptureSource`); labels
/// are cut in the middle where they are long. A list of items is broken into lines where it is long. Where
/// there is no active path, nothing is in colour.
///
/// # Errors
///
/// `Failed`, where the sink refuses a write, and want of memory. The sink then took some first bytes of the
/// text.
pub fn put_svg<K: Sink>(
    alloc: Global,
    net: &Net,
    tree: &Tree,
    holds: &Holds,
    k: &mut K,
) -> Result<(), StoreFault>
    requires well_formed { IsNet net.now }
    requires form { Describes net.now tree.now }
    requires holds { AreHolds net.now holds.now }
    ensures whole { OnOk result
        (Adds (K.taken k.old) (K.taken k.new) (svg.svg_text net.now tree.now holds.now)) }
    ensures part { OnErr result
        (AddsPart (K.taken k.old) (K.taken k.new) (svg.svg_text net.now tree.now holds.now)) }
    ensures cause { HasCause (K.faults k.old) (K.faults k.new) result StoreFault.Failed }
{
    let drawing = drawing_of(alloc, net, tree, holds)?;
    put_drawing(alloc, net, drawing.view, &drawing.shapes, k)
}
