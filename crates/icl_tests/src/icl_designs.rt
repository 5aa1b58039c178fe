// ICL texts, and the designs that they have.

use crate::texts::{Shown, read};
use icl_lexer::{Design, Expr, Sign, What};
use std::alloc::Global;

/// The number of items of each module.
fn show_items(shown: &mut Shown, design: &Design) {
    for module in design.modules.as_slice() {
        shown.gap();
        shown.count(b"", module.items.len());
    }
}

fn items_of(alloc: Global, text: &str) -> Shown {
    let mut shown = Shown::new(alloc);
    match read(alloc, text) {
        Some(design) => show_items(&mut shown, &design),
        None => shown.text(b"no design"),
    }
    shown
}

/// Texts, and how many items each of their modules has.
const DESIGNS: [(&str, &str); 10] = [
    ("// nothing\n", ""),
    ("Module Module { Attribute Attribute; } Module b{}", "1 0"),
    (
        "Module a { ScanRegister r { Attribute a; ScanInSource s; Attribute a; } }",
        "1",
    ),
    (
        "Module a { ResetPort r { ActivePolarity 4294967295; } }",
        "1",
    ),
    (
        "Module a { Alias x[3:0] = r.s[1], 2'b0 { AccessTogether; RefEnum e; } }",
        "1",
    ),
    ("Module a { Parameter p = (4'b1) + 1; }", "1"),
    (
        "Module a { ScanMux m SelectedBy ~s { 1'b0 | 1'b1, 2 * 1 : r; 'hF : ~3; } }",
        "1",
    ),
    (
        "Module a { Instance i Of b; Instance j Of b { Parameter p = 1; Attribute x; InputPort i[1] = a.b, c; } }",
        "2",
    ),
    (
        "Module a { Enum e { } Enum f { a = 1, 1; b = 2; } ScanInterface i { Port p; Attribute a = \"b\"; } }",
        "3",
    ),
    (
        "Module a { AccessLink l Of STD_1149_1_2013 { BSDLEntity x; i { ScanInterface { a.b; } } j { ScanInterface { a.b; } } } }",
        "1",
    ),
];

#[test]
fn texts_have_designs(rt: HostRuntime) {
    for (text, wanted) in &DESIGNS {
        items_of(rt.alloc(), text).check(&rt, text, wanted);
    }
}

fn name_of_sign(sign: Sign) -> &'static [u8] {
    match sign {
        Sign::Plus => b"Plus",
        Sign::Minus => b"Minus",
        Sign::Times => b"Times",
        Sign::Over => b"Over",
        Sign::Rest => b"Rest",
    }
}

/// An expression in brackets for each operator, with the columns of the operators and parameters.
fn show_expr(shown: &mut Shown, expr: &Expr) {
    match expr {
        Expr::Decimal(n) => shown.number(b"", *n),
        Expr::Sized(text) => shown.count(b"s", text.as_slice().len()),
        Expr::Quoted(text) => shown.count(b"q", text.as_slice().len()),
        Expr::Param(at, name) => {
            shown.count(b"p", name.as_slice().len());
            shown.number(b"@", at.col);
        }
        Expr::Op(at, sign, a, b) => {
            shown.text(b"[");
            show_expr(shown, a);
            shown.text(name_of_sign(*sign));
            show_expr(shown, b);
            shown.number(b"@", at.col);
            shown.text(b"]");
        }
    }
}

/// The values of the parameters.
fn show_values(shown: &mut Shown, design: &Design) {
    for module in design.modules.as_slice() {
        for item in module.items.as_slice() {
            if let What::Parameter { value, .. } = &item.what {
                show_expr(shown, value);
            }
        }
    }
}

fn values_of(alloc: Global, text: &str) -> Shown {
    let mut shown = Shown::new(alloc);
    if let Some(design) = read(alloc, text) {
        show_values(&mut shown, &design);
    }
    shown
}

const VALUES: [(&str, &str); 3] = [
    (
        "Module a { Parameter p = 1 - 2 - 3; }",
        "[[1Minus2@28]Minus3@32]",
    ),
    (
        "Module a { Parameter p = 1 + 2 * $ab % (4'b1x) / \"a\\\"\"; }",
        "[1Plus[[[2Timesp2@34@32]Rests5@38]Overq3@48]@28]",
    ),
    ("Module a { Parameter p = 1_0; }", "10"),
];

#[test]
fn operators_group_to_the_left(rt: HostRuntime) {
    for (text, wanted) in &VALUES {
        values_of(rt.alloc(), text).check(&rt, text, wanted);
    }
}
