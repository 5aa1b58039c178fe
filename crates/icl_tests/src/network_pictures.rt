// The drawings and graphs of networks.
ghost use Rattle.std.specs.Prelude.{IfOk};
ghost use Rattle.net_graph.specs.Held.{AreHolds};

use crate::network_texts::network_of;
use crate::texts::Shown;
use ij_bits::OutOfMemory;
use nest_check::nest;
use net_graph::{Holds, Net, Point};
use net_picture::{put_dot, put_svg};
use std::alloc::Global;
use std::process::Abort;

/// The state of a network at power-up.
#[tactic(auto, using(net_graph::proofs::Widths::start_held))]
fn power_up(alloc: Global, net: &Net) -> Result<Holds, OutOfMemory>
    ensures { IfOk result (AreHolds net.now) }
{
    match Holds::power_up(alloc, net) {
        Ok(holds) => Ok(holds),
        Err(_) => Err(OutOfMemory),
    }
}

/// The drawing of the network of an ICL text at power-up.
fn drawing_of(alloc: Global, source: &str, parts: &str) -> Shown {
    let mut shown = Shown::new(alloc);
    let Ok(net) = network_of(alloc, source, parts) else {
        return shown;
    };
    let Ok(holds) = power_up(alloc, &net) else {
        return shown;
    };
    let Ok(tree) = nest(alloc, &net) else {
        return shown;
    };
    if put_svg(alloc, &net, &tree, &holds, &mut shown.sink).is_err() {
        shown.text(b"refused");
    }
    shown
}

/// The graph of the network of an ICL text at power-up.
fn graph_of(alloc: Global, source: &str, parts: &str, marked: Option<Point>) -> Shown {
    let mut shown = Shown::new(alloc);
    let Ok(net) = network_of(alloc, source, parts) else {
        return shown;
    };
    let Ok(holds) = power_up(alloc, &net) else {
        return shown;
    };
    if put_dot(alloc, &net, &holds, marked, &mut shown.sink).is_err() {
        shown.text(b"refused");
    }
    shown
}

/// A register, and nothing else.
const FLAT: (&str, &str) = (
    "R[0]",
    "ScanRegister R[3:0] { ScanInSource SI; CaptureSource R; ResetValue 4'b0; }",
);

/// A register after an insertion bit, which is closed at reset.
const SIB: (&str, &str) = (
    "S",
    "ScanMux m SelectedBy S { 1'b0 : SI; 1'b1 : R; } ScanRegister R { ScanInSource SI; CaptureSource R; } ScanRegister S { ScanInSource m; CaptureSource S; ResetValue 1'b0; }",
);

/// Before and after the style sheet.
const DRAWINGS: [((&str, &str), &str, &str); 2] = [
    (
        FLAT,
        "<svg xmlns=\"http://www.w3.org/2000/svg\" width=\"216\" height=\"72\" viewBox=\"0 0 216 72\" font-family=\"monospace\" font-size=\"11\">\n<style>",
        "</style>\n<rect class=\"p\" width=\"100%\" height=\"100%\"/>\n<text x=\"20\" y=\"40\">TDI</text>\n<text x=\"168\" y=\"36\" dx=\"6\" dy=\"4\">TDO</text>\n<path class=\"w a\" d=\"M48 36H48V36H66\"/>\n<g transform=\"translate(66 36)\"><title>net.R[3:0] bits 4 reset 0000</title><rect class=\"b a\" y=\"-13\" width=\"84\" height=\"26\" rx=\"3\"/><text class=\"n\" x=\"42\" y=\"4\">net.R[3:0]</text></g>\n<path class=\"w a\" d=\"M150 36H150V36H168\"/>\n</svg>\n",
    ),
    (
        SIB,
        "<svg xmlns=\"http://www.w3.org/2000/svg\" width=\"346\" height=\"112\" viewBox=\"0 0 346 112\" font-family=\"monospace\" font-size=\"11\">\n<style>",
        "</style>\n<rect class=\"p\" width=\"100%\" height=\"100%\"/>\n<text x=\"20\" y=\"40\">TDI</text>\n<text x=\"298\" y=\"36\" dx=\"6\" dy=\"4\">TDO</text>\n<path class=\"w\" d=\"M66 36H74V76H82\"/>\n<path class=\"w\" d=\"M82 76H82V76H100\"/>\n<g transform=\"translate(100 76)\"><title>net.R bits 1 reset x</title><rect class=\"b\" y=\"-13\" width=\"49\" height=\"26\" rx=\"3\"/><text class=\"n\" x=\"24\" y=\"4\">net.R</text></g>\n<text class=\"v\" x=\"165\" y=\"36\" dx=\"-4\" dy=\"-4\">0</text>\n<path class=\"w\" d=\"M149 76H149V76H165\"/>\n<text class=\"v\" x=\"165\" y=\"76\" dx=\"-4\" dy=\"-4\">1</text>\n<path class=\"w a\" d=\"M48 36H48V36H66\"/>\n<path class=\"w a\" d=\"M66 36H74V36H82\"/>\n<g transform=\"translate(165 36)\"><title>net.m\nselect net.S[0]\nrow net.m=0\nrow net.m=1\n</title><path class=\"f a\" d=\"M0-13l14 6v40v14l-14 6z\"/><text class=\"m\" x=\"18\" y=\"12\">net.m</text></g>\n<path class=\"w a\" d=\"M82 36H82V36H165\"/>\n<path class=\"w a\" d=\"M165 36H172V36H179\"/>\n<path class=\"w a\" d=\"M179 36H179V36H213\"/>\n<path class=\"w a\" d=\"M213 36H213V36H231\"/>\n<g transform=\"translate(231 36)\"><title>net.S bits 1 reset 0 selects net.m</title><rect class=\"b a\" y=\"-13\" width=\"49\" height=\"26\" rx=\"13\"/><text class=\"n\" x=\"24\" y=\"4\">net.S</text></g>\n<path class=\"w a\" d=\"M280 36H280V36H298\"/>\n</svg>\n",
    ),
];

/// A drawing has this before its style sheet, and this after it.
fn check_drawing(rt: &impl Abort, case: &str, drawing: &Shown, head: &str, tail: &str) {
    let text = drawing.sink.bytes();
    assert!(rt;
        text.starts_with(head.as_bytes()),
        "the head of {case} differs"
    );
    assert!(rt;
        text.ends_with(tail.as_bytes()),
        "the shapes of {case} differ"
    );
}

#[test]
fn a_drawing_has_the_active_path_on_top(rt: HostRuntime) {
    for ((source, parts), head, tail) in &DRAWINGS {
        check_drawing(
            &rt,
            parts,
            &drawing_of(rt.alloc(), source, parts),
            head,
            tail,
        );
    }
}

const GRAPH: &str =
    "digraph net {\n  rankdir=LR;\n  node [shape=box, fontname=\"monospace\", fontsize=10];\n  edge [fontname=\"monospace\", fontsize=9];\n  tdi [label=\"TDI\", shape=cds];\n  tdo [label=\"TDO\", shape=cds];\n  r0 [label=\"net.R\", style=filled, fillcolor=\"#ffb3b3\", color=\"#e00000\", penwidth=3];\n  r1 [label=\"net.S\", color=\"#d55e00\", penwidth=3];\n  m0 [label=\"net.m\", shape=trapezium, orientation=270, color=\"#d55e00\", penwidth=3];\n  tdi -> r0 [color=\"#868e96\"];\n  m0 -> r1 [color=\"#d55e00\", penwidth=3];\n  tdi -> m0 [label=\"0\", color=\"#d55e00\", penwidth=3];\n  r0 -> m0 [label=\"1\", color=\"#868e96\"];\n  r1 -> m0 [style=dashed, color=\"#868e96\", constraint=false];\n  r1 -> tdo [color=\"#d55e00\", penwidth=3];\n}\n";

#[test]
fn a_graph_has_each_source_and_what_is_marked(rt: HostRuntime) {
    let (source, parts) = SIB;
    graph_of(rt.alloc(), source, parts, Some(Point::Reg(0))).check(&rt, parts, GRAPH);
}
