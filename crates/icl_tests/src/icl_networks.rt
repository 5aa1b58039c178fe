// The networks of designs.

use crate::texts::{Shown, read};
use icl_elab::{Hier, elaborate};
use icl_lexer::Design;
use icl_signals::connect;
use ij_bits::OutOfMemory;
use ij_text::name_of;
use net_graph::{Inst, Mux, Net, Point, Reg, Sig};
use std::alloc::Global;

// ---- texts

fn show_point(shown: &mut Shown, point: Point) {
    match point {
        Point::Entry => shown.text(b" in"),
        Point::Reg(number) => shown.number(b" r", number),
        Point::Mux(number) => shown.number(b" m", number),
    }
}

fn show_signal(shown: &mut Shown, signal: Sig) {
    match signal {
        Sig::Absent => shown.text(b" -"),
        Sig::Zero => shown.text(b" 0"),
        Sig::One => shown.text(b" 1"),
        Sig::Bit { bit, inverted } => {
            shown.number(if inverted { b" ~" } else { b" " }, bit.reg);
            shown.number(b".", bit.pos);
        }
        Sig::Out {
            inst,
            port,
            pos,
            inverted,
        } => {
            shown.number(if inverted { b" ~i" } else { b" i" }, inst);
            shown.number(b".", port);
            shown.number(b".", pos);
        }
    }
}

fn show_signals(shown: &mut Shown, signals: &[Sig]) {
    for signal in signals {
        show_signal(shown, *signal);
    }
}

/// Registers: the source of each, and what it captures, position 0 first.
fn show_registers(shown: &mut Shown, regs: &[Reg]) {
    for reg in regs {
        shown.text(b"R");
        show_point(shown, reg.from);
        shown.text(b" :");
        show_signals(shown, reg.capture.as_slice());
        shown.text(b"; ");
    }
}

/// A multiplexer: the bits that select it, and the sources of its rows.
fn show_mux(shown: &mut Shown, mux: &Mux) {
    shown.text(b"M");
    for bit in mux.select.as_slice() {
        shown.number(b" ", bit.reg);
        shown.number(b".", bit.pos);
    }
    shown.text(b" :");
    for row in mux.rows.as_slice() {
        show_point(shown, row.from);
    }
    shown.text(b"; ");
}

/// An instrument: what drives the bits of its inputs.
fn show_instrument(shown: &mut Shown, inst: &Inst) {
    shown.text(b"I :");
    for port in inst.ins.as_slice() {
        show_signals(shown, port.bits.as_slice());
    }
    shown.text(b"; ");
}

fn show_network(shown: &mut Shown, net: &Net) {
    show_registers(shown, net.regs.as_slice());
    for mux in net.muxes.as_slice() {
        show_mux(shown, mux);
    }
    for inst in net.insts.as_slice() {
        show_instrument(shown, inst);
    }
    shown.text(b"out");
    show_point(shown, net.out);
}

// ---- designs

/// The network of a hierarchy at its link `tap`.
fn show_linked(shown: &mut Shown, alloc: Global, hier: &Hier) -> Result<(), OutOfMemory> {
    let link = name_of(alloc, b"tap")?;
    let instr = name_of(alloc, b"IJTAG")?;
    if let Ok(net) = connect(alloc, hier, &link, &instr) {
        show_network(shown, &net);
    }
    Ok(())
}

/// The network of a design below its module `chip`.
fn show_design(shown: &mut Shown, alloc: Global, design: &Design) -> Result<(), OutOfMemory> {
    let top = name_of(alloc, b"chip")?;
    match elaborate(alloc, design, &top) {
        Ok(hier) => show_linked(shown, alloc, &hier),
        Err(_) => Ok(()),
    }
}

/// The network of a text, which isn't empty. The empty text, where there is none.
fn network_of(alloc: Global, text: &str) -> Shown {
    let mut shown = Shown::new(alloc);
    if let Some(design) = read(alloc, text) {
        let _ = show_design(&mut shown, alloc, &design);
    }
    shown
}

/// What is in line 1, before the modules of a row: ports that are passed on, and an instrument.
const FRONT: &str =
    "Module Wire { ScanInPort SI; ScanOutPort SO { Source SI; } } Module Pass { DataInPort i; DataOutPort o { Source i; } } Module Seg { ScanInPort SI; ScanOutPort SO { Source S; } ScanRegister S { ScanInSource SI; } } Module Ins { DataInPort d; DataOutPort q[1:0]; }";

/// The instance and the link that come after them.
const BACK: &str =
    "AccessLink tap Of STD_1149_1_2001 { BSDLEntity chip; IJTAG { ScanInterface { net.client; } } } }";

/// The ports of the module `Net` and its interface.
const PORTS: &str =
    "Module Net { ScanInterface client { Port SI; Port SO; } ScanInPort SI; DataInPort d[1:0]; DataOutPort s[1:0]";

/// The network of a design with these parts of `Net`, and these of the top.
fn network(alloc: Global, parts: &str, top: &str) -> Shown {
    match format!(in alloc; "{FRONT}\n{PORTS}\n{parts} }}\nModule chip {{ {top}\n{BACK}") {
        Ok(text) => network_of(alloc, text.as_str()),
        Err(_) => Shown::new(alloc),
    }
}

/// An instrument whose input is inverted, and an alias over two registers.
const ALIAS: &str =
    "Module Bit { DataInPort d; DataOutPort q; } Module Mix { ScanInPort SI; ScanOutPort SO { Source Q[0]; } ScanInterface client { Port SI; Port SO; } ScanRegister R[1:0] { ScanInSource SI; CaptureSource R; ResetValue 2'b00; } ScanRegister Q[1:0] { ScanInSource R[0]; CaptureSource ins.q, ins.q; ResetValue 2'b00; } Enum e { on = 4'b1001; off = 4'b0000; } Alias a[3:0] = R[1:0], Q[1:0] { RefEnum e; } Instance ins Of Bit { InputPort d = ~R[0]; } } Module chip { Instance net Of Mix; AccessLink tap Of STD_1149_1_2001 { BSDLEntity chip; IJTAG { ScanInterface { net.client; } } } }";

/// Its network.
const OF_ALIAS: &str = "R in : 0.0 0.1; R r0 : i0.0.0 i0.0.0; I : ~0.0; out r1";

// ---- tests

const SIGNALS: [(&str, &str, &str); 7] = [
    // A concatenation begins at the left, and position 0 is on the right.
    (
        "; ScanOutPort SO { Source R; } ScanRegister R[3:0] { ScanInSource SI; CaptureSource R[1:0], 2'b01; }",
        "Instance net Of Net;",
        "R in : 1 0 0.0 0.1; out r0",
    ),
    // The rows of a multiplexer, in the order of the text.
    (
        "; ScanOutPort SO { Source M; } ScanRegister S { ScanInSource SI; } ScanRegister A { ScanInSource S; } ScanMux M SelectedBy S { 1'b1 : A; 1'b0 : S; }",
        "Instance net Of Net;",
        "R in : -; R r0 : -; M 0.0 : r1 r0; out m0",
    ),
    // The registers of a cell come before those of the cells in it.
    (
        "; ScanOutPort SO { Source R; } Instance a Of Seg { InputPort SI = SI; } ScanRegister R { ScanInSource a.SO; }",
        "Instance net Of Net;",
        "R r1 : -; R in : -; out r0",
    ),
    // Inputs of the top are 0.
    (
        "; ScanOutPort SO { Source R; } ScanRegister R[1:0] { ScanInSource SI; CaptureSource d; }",
        "DataInPort t[1:0]; Instance net Of Net { InputPort d = ~t[1], t[0]; }",
        "R in : 0 1; out r0",
    ),
    // One inversion, and two of them.
    (
        "{ Source R; } ScanOutPort SO { Source R; } ScanRegister R[1:0] { ScanInSource SI; CaptureSource d; }",
        "Instance p Of Pass { InputPort i = ~net.s[1]; } Instance q Of Pass { InputPort i = net.s[0]; } Instance net Of Net { InputPort d = ~p.o, ~q.o; }",
        "R in : ~0.0 0.1; out r0",
    ),
    // A register that is its own source, through two ports.
    (
        "; ScanOutPort SO { Source R; } Instance a Of Wire { InputPort SI = R; } ScanRegister R { ScanInSource a.SO; }",
        "Instance net Of Net;",
        "R r0 : -; out r0",
    ),
    // An instrument's input, position 0 first, and its output.
    (
        "{ Source R; } ScanOutPort SO { Source R; } ScanRegister R[1:0] { ScanInSource SI; CaptureSource d; }",
        "Instance ins Of Ins { InputPort d = net.s[1]; } Instance net Of Net { InputPort d = ~ins.q; }",
        "R in : ~i0.0.0 ~i0.0.1; I : 0.1; out r0",
    ),
];

#[test]
fn signals_are_followed(rt: HostRuntime) {
    for (parts, top, wanted) in &SIGNALS {
        network(rt.alloc(), parts, top).check(&rt, parts, wanted);
    }
    network_of(rt.alloc(), ALIAS).check(&rt, ALIAS, OF_ALIAS);
}
