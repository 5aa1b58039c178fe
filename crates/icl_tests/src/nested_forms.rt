// The nested forms of networks.

use crate::network_texts::network_of;
use crate::texts::Shown;
use nest_check::nest;
use net_graph::{Holds, Net};
use net_tree::{Branches, Route, Tree};
use path_planner::plan_law;
use std::alloc::{AllocError, Global};

// ---- texts

/// A place: each row's multiplexer and number, outermost first.
fn show_place(shown: &mut Shown, place: &Branches) {
    for branch in place.as_slice() {
        shown.number(b" ", branch.mux);
        shown.number(b".", branch.row);
    }
    shown.text(b";");
}

/// The places of the registers, and then of the multiplexers.
fn show_places(shown: &mut Shown, net: &Net, tree: &Tree) {
    let mut reg = 0;
    for _reg in net.regs.as_slice() {
        shown.text(b" R");
        show_place(shown, &tree.place_of(reg));
        reg = reg.saturating_add(1);
    }
    let mut mux = 0;
    for _mux in net.muxes.as_slice() {
        shown.text(b" M");
        show_place(shown, &tree.place_of_mux(mux));
        mux = mux.saturating_add(1);
    }
}

/// The places in a network's form.
fn places_of(alloc: Global, source: &str, parts: &str) -> Shown {
    let mut shown = Shown::new(alloc);
    let Ok(net) = network_of(alloc, source, parts) else {
        return shown;
    };
    if let Ok(tree) = nest(alloc, &net) {
        show_places(&mut shown, &net, &tree);
    }
    shown
}

fn show_registers(shown: &mut Shown, regs: &[u32]) {
    for reg in regs {
        shown.number(b" ", *reg);
    }
}

/// The registers on the active path at power-up, as the tree is walked.
#[tactic(auto, using(net_graph::proofs::Widths::started_held))]
fn route_at_power_up(alloc: Global, source: &str, parts: &str) -> Shown {
    let mut shown = Shown::new(alloc);
    let Ok(net) = network_of(alloc, source, parts) else {
        return shown;
    };
    let Ok(tree) = nest(alloc, &net) else {
        return shown;
    };
    let Ok(holds) = Holds::power_up(alloc, &net) else {
        return shown;
    };
    let Ok(mut route) = Route::new(alloc, &net) else {
        return shown;
    };
    plan_law();
    tree.walk(&net, &holds, &mut route);
    show_registers(&mut shown, route.regs().as_slice());
    shown
}

// ---- tests

/// Two segments with bits inside one another, whose select bits have these values at power-up.
fn two_segments(
    alloc: Global,
    outer: char,
    inner: char,
    beside: char,
) -> Result<String, AllocError> {
    format!(in alloc;
        "ScanMux m SelectedBy S {{ 1'b0 : SI; 1'b1 : T; }} ScanMux n SelectedBy T {{ 1'b0 : SI; 1'b1 : A; }} ScanMux o SelectedBy U {{ 1'b0 : B; 1'b1 : C; }} ScanRegister A {{ ScanInSource SI; CaptureSource A; ResetValue 1'b0; }} ScanRegister T {{ ScanInSource n; CaptureSource T; ResetValue 1'b{inner}; }} ScanRegister S {{ ScanInSource m; CaptureSource S; ResetValue 1'b{outer}; }} ScanRegister B {{ ScanInSource S; CaptureSource B; ResetValue 1'b0; }} ScanRegister C {{ ScanInSource S; CaptureSource C; ResetValue 1'b0; }} ScanRegister U {{ ScanInSource o; CaptureSource U; ResetValue 1'b{beside}; }}"
    )
}

/// The route through two such segments.
fn route_with(alloc: Global, outer: char, inner: char, beside: char) -> Shown {
    match two_segments(alloc, outer, inner, beside) {
        Ok(parts) => route_at_power_up(alloc, "U", parts.as_str()),
        Err(_) => Shown::new(alloc),
    }
}

/// Select bits, and the registers of the route: A is register 0, T is 1, S is 2, B is 3, C is 4, U is 5.
const ROUTES: [(char, char, char, &str); 5] = [
    ('0', '0', '0', " 2 3 5"),
    ('0', '1', '0', " 2 3 5"),
    ('1', '0', '0', " 1 2 3 5"),
    ('1', '1', '0', " 0 1 2 3 5"),
    ('1', '1', '1', " 0 1 2 4 5"),
];

#[test]
fn routes_go_along_selected_rows_alone(rt: HostRuntime) {
    for (outer, inner, beside, wanted) in &ROUTES {
        route_with(rt.alloc(), *outer, *inner, *beside).check(&rt, wanted, wanted);
    }
}

const PLACES: [(&str, &str, &str); 4] = [
    // A segment insertion bit.
    (
        "S",
        "ScanMux m SelectedBy S { 1'b0 : SI; 1'b1 : R[0]; } ScanRegister R[3:0] { ScanInSource SI; CaptureSource R; ResetValue 4'b0; } ScanRegister S { ScanInSource m; CaptureSource S; ResetValue 1'b0; }",
        " R 0.1; R; M;",
    ),
    // Registers in series alone.
    (
        "B",
        "ScanRegister A { ScanInSource SI; CaptureSource A; ResetValue 1'b0; } ScanRegister B { ScanInSource A; CaptureSource B; ResetValue 1'b0; }",
        " R; R;",
    ),
    // Three inside one another.
    (
        "S1",
        "ScanMux m SelectedBy S1 { 1'b0 : SI; 1'b1 : S2; } ScanMux n SelectedBy S2 { 1'b0 : SI; 1'b1 : S3; } ScanMux o SelectedBy S3 { 1'b0 : SI; 1'b1 : R[0]; } ScanRegister R[3:0] { ScanInSource SI; CaptureSource R; ResetValue 4'b0; } ScanRegister S3 { ScanInSource o; CaptureSource S3; ResetValue 1'b0; } ScanRegister S2 { ScanInSource n; CaptureSource S2; ResetValue 1'b0; } ScanRegister S1 { ScanInSource m; CaptureSource S1; ResetValue 1'b0; }",
        " R 0.1 1.1 2.1; R 0.1 1.1; R 0.1; R; M; M 0.1; M 0.1 1.1;",
    ),
    // A select bit that is around its multiplexer, in the row of another one.
    (
        "S[0]",
        "ScanMux m SelectedBy S[0] { 1'b0 : SI; 1'b1 : T; } ScanMux n SelectedBy S[1], T { 2'b00 : SI; 2'b11 | 2'b10 : A[0]; } ScanRegister A[1:0] { ScanInSource SI; CaptureSource A; ResetValue 2'b0; } ScanRegister T { ScanInSource n; CaptureSource T; ResetValue 1'b0; } ScanRegister S[1:0] { ScanInSource m; CaptureSource S; ResetValue 2'b0; }",
        " R 0.1 1.1; R 0.1; R; M; M 0.1;",
    ),
];

#[test]
fn networks_are_nested(rt: HostRuntime) {
    for (source, parts, wanted) in &PLACES {
        places_of(rt.alloc(), source, parts).check(&rt, parts, wanted);
    }
}
