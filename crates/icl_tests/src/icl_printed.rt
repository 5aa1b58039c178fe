// ICL texts, and the texts that are printed of their designs.

use crate::texts::{Shown, read};
use icl_lexer::Design;
use icl_printer::put_design;
use std::alloc::Global;

fn show_design(shown: &mut Shown, design: &Design) {
    if put_design(design, &mut shown.sink).is_err() {
        shown.text(b"refused");
    }
}

/// The text that is printed of the design of a text.
fn printed(alloc: Global, text: &str) -> Shown {
    let mut shown = Shown::new(alloc);
    match read(alloc, text) {
        Some(design) => show_design(&mut shown, &design),
        None => shown.text(b"no design"),
    }
    shown
}

/// An empty body is a semicolon, and parentheses stand where the tree needs them.
const PRINTED: [(&str, &str); 6] = [
    ("", ""),
    (
        "Module a{ScanInPort SI{}}Module b{}",
        "Module a {\nScanInPort SI ;\n}\nModule b {\n}\n",
    ),
    (
        "Module a { LocalParameter p = ((10 - (2 - 3)) + $W) * (4'b1); }",
        "Module a {\nLocalParameter p = ( 10 - ( 2 - 3 ) + $W ) * ( 4'b1 ) ;\n}\n",
    ),
    (
        "Module a { ScanMux m SelectedBy 0 { 1'b0, \"t\" : ~c.SO; } }",
        "Module a {\nScanMux m SelectedBy 0 {\n1'b0 , \"t\" : ~ c . SO ;\n}\n}\n",
    ),
    (
        "Module a { // chip\n  ScanRegister R[7:0] { ScanInSource SI; ResetValue 8'h0F; } }",
        "Module a {\nScanRegister R [ 7 : 0 ] {\nScanInSource SI ;\nResetValue 8'h0F ;\n}\n}\n",
    ),
    (
        "Module fourteen_bytes{ScanMux fifteen_bytes_m SelectedBy 0{1'b0,1'b1,1'bx|2'b11|3'b111:a.bb.cc;}}",
        "Module fourteen_bytes {\nScanMux fifteen_bytes_m SelectedBy 0 {\n1'b0 , 1'b1 , 1'bx | 2'b11 | 3'b111 : a . bb . cc ;\n}\n}\n",
    ),
];

/// What is printed is printed so again.
#[test]
fn designs_are_printed(rt: HostRuntime) {
    for (text, wanted) in &PRINTED {
        printed(rt.alloc(), text).check(&rt, text, wanted);
        printed(rt.alloc(), wanted).check(&rt, wanted, wanted);
    }
}
