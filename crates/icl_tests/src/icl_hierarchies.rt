// The hierarchies of designs.

use crate::texts::{Shown, read};
use icl_elab::{Body, Cell, Hier, Part, Ref, elaborate};
use icl_lexer::Design;
use ij_bits::{List, Tern};
use ij_io::Word;
use ij_runs::Runs;
use ij_text::{Name, name_of};
use std::alloc::Global;

// ---- texts

/// A bit: its cell, part and position, after `~` where it is inverted; or its value.
fn show_ref(shown: &mut Shown, r: Ref) {
    match r {
        Ref::Fixed(false) => shown.text(b"0"),
        Ref::Fixed(true) => shown.text(b"1"),
        Ref::Bit {
            cell,
            part,
            pos,
            inverted,
        } => {
            let mark = if inverted { b"~".as_slice() } else { b"" };
            shown.number(mark, cell);
            shown.number(b".", part);
            shown.number(b".", pos);
        }
    }
}

/// Bits, position 0 first.
fn show_refs(shown: &mut Shown, refs: &Runs<Ref>) {
    for i in 0..refs.len() {
        shown.text(b" ");
        show_ref(shown, refs.get(i));
    }
}

/// A bit, if there is one.
fn show_one(shown: &mut Shown, r: &Option<Ref>) {
    if let Some(r) = r {
        shown.text(b" ");
        show_ref(shown, *r);
    }
}

/// Bits after a word, if there are any.
fn show_all(shown: &mut Shown, word: &[u8], refs: &Option<Runs<Ref>>) {
    if let Some(refs) = refs {
        shown.text(word);
        show_refs(shown, refs);
    }
}

/// Digits, position 0 first.
fn show_digits(shown: &mut Shown, digits: &Tern) {
    for k in 0..digits.len() {
        let digit = match digits.get(k) {
            Some(true) => b"1",
            Some(false) => b"0",
            None => b"x",
        };
        shown.text(digit);
    }
}

fn show_row(shown: &mut Shown, row: &(List<Tern>, Ref)) {
    for value in row.0.as_slice() {
        shown.text(b" ");
        show_digits(shown, value);
    }
    shown.text(b":");
    show_ref(shown, row.1);
}

fn show_rows(shown: &mut Shown, rows: &[(List<Tern>, Ref)]) {
    for row in rows {
        show_row(shown, row);
    }
}

fn show_reset(shown: &mut Shown, reset: &Option<Tern>) {
    if let Some(value) = reset {
        shown.text(b" reset ");
        show_digits(shown, value);
    }
}

fn show_ports(shown: &mut Shown, ports: &[u32]) {
    for port in ports {
        shown.number(b" ", *port);
    }
}

fn show_instructions(shown: &mut Shown, instrs: &[(Name, u32, u32)]) {
    for instr in instrs {
        shown.text(b" ");
        shown.text(instr.0.as_slice());
        shown.number(b"=", instr.1);
        shown.number(b".", instr.2);
    }
}

/// What a part is.
fn word_of(body: &Body) -> &'static [u8] {
    match body {
        Body::ScanIn { .. } => b" scan in",
        Body::ScanOut { .. } => b" scan out",
        Body::DataIn { .. } => b" data in",
        Body::DataOut { .. } => b" data out",
        Body::Control => b" control",
        Body::Register { .. } => b" register",
        Body::Mux { .. } => b" mux",
        Body::Alias { .. } => b" alias",
        Body::Child { .. } => b" cell",
        Body::Interface { .. } => b" interface",
        Body::Link { .. } => b" link",
    }
}

/// What a part names.
fn show_named(shown: &mut Shown, body: &Body) {
    match body {
        Body::ScanIn { bound: r } | Body::ScanOut { source: r } => show_one(shown, r),
        Body::DataIn { bound: refs } | Body::DataOut { source: refs } => show_all(shown, b"", refs),
        Body::Control => {}
        Body::Register {
            scan,
            capture,
            reset,
        } => {
            show_one(shown, scan);
            show_all(shown, b" capture", capture);
            show_reset(shown, reset);
        }
        Body::Mux { select, rows } => {
            show_refs(shown, select);
            shown.text(b" rows");
            show_rows(shown, rows.as_slice());
        }
        Body::Alias { refs } => show_refs(shown, refs),
        Body::Child { cell } => shown.number(b" ", *cell),
        Body::Interface { ports } => show_ports(shown, ports.as_slice()),
        Body::Link { instrs } => show_instructions(shown, instrs.as_slice()),
    }
}

/// A part: its name and indices, what it is, what it names, and its words.
fn show_part(shown: &mut Shown, part: &Part) {
    shown.text(part.name.as_slice());
    shown.number(b"[", part.left);
    shown.number(b":", part.right);
    shown.text(b"]");
    shown.text(word_of(&part.body));
    show_named(shown, &part.body);
    for w in part.words.as_slice() {
        shown.put(&[
            Word::Text(b" "),
            Word::Text(w.0.as_slice()),
            Word::Text(b"="),
        ]);
        show_digits(shown, &w.1);
    }
}

/// The cells: each its name, the module after `:`, and the cell that it is in after `<`.
fn show_cells(shown: &mut Shown, cells: &[Cell]) {
    for cell in cells {
        shown.gap();
        shown.text(cell.name.as_slice());
        shown.text(b":");
        shown.text(cell.module.as_slice());
        if let Some(parent) = cell.parent {
            shown.number(b"<", parent);
        }
    }
}

// ---- designs

/// The hierarchy of a design below a module.
fn below(alloc: Global, design: &Design, top: &str) -> Option<Hier> {
    match name_of(alloc, top.as_bytes()) {
        Ok(top) => elaborate(alloc, design, &top).ok(),
        Err(_) => None,
    }
}

/// The hierarchy of a text below a module.
fn hierarchy(alloc: Global, text: &str, top: &str) -> Option<Hier> {
    match read(alloc, text) {
        Some(design) => below(alloc, &design, top),
        None => None,
    }
}

/// What comes before the items of a row: an instrument, a segment, parameters, and the parts of `chip` up to
/// number 5. The items stand in line 2, and the next part has number 6.
const FRONT: &str =
    "Module Ins { DataInPort d[3:0]; DataOutPort q[3:0]; } Module Seg { ScanInPort SI; ScanOutPort SO { Source S; } ScanRegister S[1:0] { ScanInSource SI; } ScanInterface client { Port SI; Port SO; } } Module Par { Parameter P = 1; LocalParameter L = 2; DataInPort p[$P+$L:0]; } Module chip { ScanInPort SI; DataInPort D[3:0]; ScanRegister R[3:0] { ScanInSource SI; } Instance s Of Seg { InputPort SI = R; } Instance i Of Ins; SelectPort En;";

/// A part of a hierarchy.
fn show_part_of(shown: &mut Shown, hier: &Hier, cell: usize, part: usize) {
    let cells = hier.cells.as_slice();
    if cell < cells.len() {
        let parts = cells[cell].parts.as_slice();
        if part < parts.len() {
            show_part(shown, &parts[part]);
        }
    }
}

/// A part of the hierarchy of a text below `chip`.
fn part_of(alloc: Global, text: &str, cell: usize, part: usize) -> Shown {
    let mut shown = Shown::new(alloc);
    match hierarchy(alloc, text, "chip") {
        Some(hier) => show_part_of(&mut shown, &hier, cell, part),
        None => shown.text(b"no hierarchy"),
    }
    shown
}

/// A part of the design with these items.
fn part_with(alloc: Global, items: &str, cell: usize, part: usize) -> Shown {
    match format!(in alloc; "{FRONT}\n{items}\n}}") {
        Ok(text) => part_of(alloc, text.as_str(), cell, part),
        Err(_) => Shown::new(alloc),
    }
}

/// The cells of a text below a module.
fn cells_of(alloc: Global, text: &str, top: &str) -> Shown {
    let mut shown = Shown::new(alloc);
    match hierarchy(alloc, text, top) {
        Some(hier) => show_cells(&mut shown, hier.cells.as_slice()),
        None => shown.text(b"no hierarchy"),
    }
    shown
}

// ---- tests

/// Texts, their top modules, and their cells.
const CELLS: [(&str, &str, &str); 4] = [
    ("Module chip { }", "chip", ":chip"),
    (
        "Module a { Instance x Of b; Instance y Of c; } Module b { Instance z Of c; } Module c { }",
        "a",
        ":a x:b<0 z:c<1 y:c<0",
    ),
    ("Module a { Instance x Of b; } Module b { }", "b", ":b"),
    (
        "Module a { Instance b Of b { Parameter P = 2; } } Module b { Parameter P = 1 / 0; DataInPort d[1 / ($P - 1):0]; }",
        "a",
        ":a b:b<0",
    ),
];

#[test]
fn instances_are_cells_in_preorder(rt: HostRuntime) {
    for (text, top, wanted) in &CELLS {
        cells_of(rt.alloc(), text, top).check(&rt, text, wanted);
    }
}

/// Items, the number of a cell, that of a part in it, and what it is.
const PARTS: [(&str, usize, usize, &str); 27] = [
    ("", 0, 0, "SI[0:0] scan in"),
    ("", 0, 1, "D[3:0] data in"),
    ("", 0, 2, "R[3:0] register 0.0.0"),
    ("", 0, 3, "s[0:0] cell 1"),
    ("", 0, 5, "En[0:0] control"),
    ("", 1, 0, "SI[0:0] scan in 0.2.0"),
    ("", 1, 1, "SO[0:0] scan out 1.2.0"),
    ("", 1, 3, "client[0:0] interface 0 1"),
    ("", 2, 0, "d[3:0] data in"),
    ("", 2, 1, "q[3:0] data out"),
    (
        "ScanRegister C[0:3] { ScanInSource s.SO; CaptureSource ~R[1:0], 2'b01; ResetValue 4'b1x0; }",
        0,
        6,
        "C[0:3] register 1.1.0 capture 1 0 ~0.2.0 ~0.2.1 reset 0x10",
    ),
    (
        "ScanRegister C[3:0] { ScanInSource R[0:0]; CaptureSource i.q; ResetValue 1'b1, 2'b0x; }",
        0,
        6,
        "C[3:0] register 0.2.0 capture 2.1.0 2.1.1 2.1.2 2.1.3 reset x010",
    ),
    (
        "ScanMux M SelectedBy D[3], R[1] { 2'b00 : SI; 2'b1x | 2'b01 : s.SO; }",
        0,
        6,
        "M[0:0] mux 0.2.1 0.1.3 rows 00:0.0.0 x1 10:1.1.0",
    ),
    (
        "ScanMux M SelectedBy R[0] { 0 | 0 : R[3:0]; 1'b1 : N; } ScanMux N SelectedBy R[0] { 1'bx : M; }",
        0,
        6,
        "M[0:0] mux 0.2.0 rows 0 0:0.2.0 1:0.7.0",
    ),
    (
        "Alias A[4:0] = s.S, R[3], R[1:0];",
        0,
        6,
        "A[4:0] alias 0.2.0 0.2.1 0.2.3 1.2.0 1.2.1",
    ),
    (
        "Parameter N = 'h5; DataOutPort O[3:0] { Source $N; }",
        0,
        6,
        "O[3:0] data out 1 0 1 0",
    ),
    (
        "DataOutPort O[1:4] { Source ~5; }",
        0,
        6,
        "O[1:4] data out 0 1 0 1",
    ),
    (
        "DataOutPort O[3:0] { Source ~2'b01; }",
        0,
        6,
        "O[3:0] data out 0 1 1 1",
    ),
    (
        "ScanOutPort O { Source M; } ScanMux M SelectedBy D[0] { 1'b0 : SI; }",
        0,
        6,
        "O[0:0] scan out 0.7.0",
    ),
    (
        "Instance j Of Ins { InputPort d[3] = R[0]; InputPort d[2:0] = ~D[2:0]; }",
        3,
        0,
        "d[3:0] data in ~0.1.0 ~0.1.1 ~0.1.2 0.2.0",
    ),
    (
        "Instance j Of Ins { InputPort d = R[1:0], 1'b1, ~D[2]; }",
        3,
        0,
        "d[3:0] data in ~0.1.2 1 0.2.0 0.2.1",
    ),
    (
        "Instance t Of Seg { InputPort SI = s.SO; }",
        3,
        0,
        "SI[0:0] scan in 1.1.0",
    ),
    (
        "Parameter W = 3; Instance p Of Par { Parameter P = $W * 2; }",
        3,
        0,
        "p[8:0] data in",
    ),
    (
        "Enum E { on = 4'b1; off = 2'b00, 2'b0x; } ScanRegister X[3:0] { ScanInSource SI; RefEnum E; }",
        0,
        6,
        "X[3:0] register 0.0.0 on=1000 off=x000",
    ),
    (
        "ScanInterface host { Port D; Port SI; }",
        0,
        6,
        "host[0:0] interface 1 0",
    ),
    (
        "AccessLink tap Of STD_1149_1_2013 { BSDLEntity e; IJTAG { ScanInterface { s.client; } } }",
        0,
        6,
        "tap[0:0] link IJTAG=1.3",
    ),
    (
        "Parameter W = 4; ScanRegister Q[$W*2-1:0] { ScanInSource SI; ResetValue 8'hA5; }",
        0,
        6,
        "Q[7:0] register 0.0.0 reset 10100101",
    ),
];

#[test]
fn signals_and_values_are_bits(rt: HostRuntime) {
    for (items, cell, part, wanted) in &PARTS {
        part_with(rt.alloc(), items, *cell, *part).check(&rt, wanted, wanted);
    }
}
