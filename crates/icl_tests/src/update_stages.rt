// What update stages hold, the rows that multiplexers are in, and the active paths.
ghost use Rattle.std.specs.Prelude.{IfOk, IsTrue};
ghost use Rattle.net_graph.specs.Held.{AreHolds};
ghost use Rattle.net_graph.specs.Named.{IsBitOf};
ghost use Rattle.net_graph.specs.Nets.{IsNet};

use crate::network_texts::network_of;
use crate::texts::Shown;
use ij_bits::{Buffer, OutOfMemory};
use net_graph::{BitId, Holds, Net, path, path_into, row_of};
use std::alloc::Global;
use std::test::Fail;

// ---- bits

/// The update stages at power-up.
fn power_up(alloc: Global, net: &Net) -> Result<Holds, OutOfMemory>
    ensures held { IfOk result (AreHolds net.now) }
{
    match Holds::power_up(alloc, net) {
        Ok(holds) => Ok(holds),
        Err(_) => Err(OutOfMemory),
    }
}

/// Whether the network has a bit.
#[tactic(auto, using(crate::proofs::Holding::is_bit))]
fn is_there(net: &Net, bit: BitId) -> bool
    ensures { IsTrue result → IsBitOf net.now bit }
{
    let reg = bit.reg as usize;
    if reg >= net.regs.len() {
        return false;
    }
    bit.pos < net.regs.get(reg).width
}

/// A bit that is held, if the network has it.
#[tactic(auto, using(net_graph::proofs::Selecting::is_held))]
fn held(net: &Net, holds: &Holds, bit: BitId) -> Option<bool>
    requires held { AreHolds net.now holds.now }
{
    if is_there(net, bit) {
        Some(holds.get(bit))
    } else {
        None
    }
}

/// Gives a bit a value, if the network has it.
#[tactic(auto, using(net_graph::proofs::Selecting::is_held, crate::proofs::Holding::set_held))]
fn put(net: &Net, holds: &mut Holds, bit: BitId, value: bool)
    requires held { AreHolds net.now holds.old }
    ensures held { AreHolds net.now holds.new }
{
    if is_there(net, bit) {
        holds.set(bit, value);
    }
}

/// Gives the bits of a list their values.
fn put_all(net: &Net, holds: &mut Holds, bits: &[(u32, u32, bool)])
    requires held { AreHolds net.now holds.old }
    ensures held { AreHolds net.now holds.new }
{
    for entry in bits {
        let bit = BitId {
            reg: entry.0,
            pos: entry.1,
        };
        put(net, holds, bit, entry.2);
    }
}

/// A reset of the network.
#[tactic(auto, using(net_graph::proofs::Widths::reset_held))]
fn reset(net: &Net, holds: &mut Holds)
    requires held { AreHolds net.now holds.old }
    ensures held { AreHolds net.now holds.new }
{
    holds.reset(net);
}

/// A bit as a digit, and `?` where the network doesn't have it.
fn show_bit(shown: &mut Shown, net: &Net, holds: &Holds, bit: BitId)
    requires held { AreHolds net.now holds.now }
{
    let digit = match held(net, holds, bit) {
        Some(true) => b"1",
        Some(false) => b"0",
        None => b"?",
    };
    shown.text(digit);
}

fn show_register(shown: &mut Shown, net: &Net, holds: &Holds, reg: u32, width: u32)
    requires held { AreHolds net.now holds.now }
{
    for pos in 0..width {
        show_bit(shown, net, holds, BitId { reg, pos });
    }
    shown.text(b";");
}

/// The bits of the registers, position 0 (nearest scan-out) first.
fn bits_of(alloc: Global, net: &Net, holds: &Holds) -> Shown
    requires held { AreHolds net.now holds.now }
{
    let mut shown = Shown::new(alloc);
    let mut number = 0;
    for reg in net.regs.as_slice() {
        show_register(&mut shown, net, holds, number, reg.width);
        number = number.saturating_add(1);
    }
    shown
}

// ---- paths

fn show_registers(shown: &mut Shown, regs: &[u32]) {
    for reg in regs {
        shown.number(b" ", *reg);
    }
    shown.text(b";");
}

/// The row that each multiplexer is in.
fn show_rows(shown: &mut Shown, net: &Net, holds: &Holds)
    requires well_formed { IsNet net.now }
    requires held { AreHolds net.now holds.now }
{
    for mux in 0..net.muxes.len() {
        match row_of(net, holds, mux as u32) {
            Some(row) => shown.number(b"", row),
            None => shown.text(b"-"),
        }
        shown.text(b" ");
    }
}

/// The active path as `path` gives it.
fn show_path(shown: &mut Shown, alloc: Global, net: &Net, holds: &Holds)
    requires well_formed { IsNet net.now }
    requires held { AreHolds net.now holds.now }
{
    match path(alloc, net, holds) {
        Ok(Some(regs)) => show_registers(shown, regs.as_slice()),
        Ok(None) => shown.text(b"none;"),
        Err(_) => shown.text(b"no memory;"),
    }
}

/// The active path as `path_into` gives it.
fn show_path_into(shown: &mut Shown, alloc: Global, net: &Net, holds: &Holds)
    requires well_formed { IsNet net.now }
    requires held { AreHolds net.now holds.now }
{
    let mut regs = Buffer::new(alloc);
    let Ok(()) = regs.reserve(net.regs.len()) else {
        shown.text(b"no memory;");
        return;
    };
    if path_into(net, holds, &mut regs) {
        show_registers(shown, regs.as_slice());
    } else {
        shown.text(b"none;");
    }
}

/// The rows and the path of a network, from power-up on, after these bits have been set.
fn outcome(alloc: Global, source: &str, parts: &str, bits: &[(u32, u32, bool)]) -> Shown {
    let mut shown = Shown::new(alloc);
    let Ok(net) = network_of(alloc, source, parts) else {
        return shown;
    };
    let Ok(mut holds) = power_up(alloc, &net) else {
        return shown;
    };
    put_all(&net, &mut holds, bits);
    show_rows(&mut shown, &net, &holds);
    show_path(&mut shown, alloc, &net, &holds);
    show_path_into(&mut shown, alloc, &net, &holds);
    shown
}

// ---- tests

const STAGES: &str =
    "ScanRegister A[3:0] { ScanInSource SI; CaptureSource A; ResetValue 4'b1x01; } ScanRegister B[1:0] { ScanInSource A[0]; CaptureSource B; }";

#[test]
fn bits_are_held_set_copied_and_reset(rt: HostRuntime) -> Result<(), Fail> {
    let alloc = rt.alloc();
    let net = network_of(alloc, "B[0]", STAGES)?;
    let mut holds = power_up(alloc, &net)?;
    bits_of(alloc, &net, &holds).check(&rt, "power-up", "1001;00;");
    let bits = [(0, 2, true), (0, 0, false), (0, 3, false), (1, 1, true)];
    put_all(&net, &mut holds, &bits);
    bits_of(alloc, &net, &holds).check(&rt, "set", "0010;01;");
    let copy = holds.copy(alloc)?;
    reset(&net, &mut holds);
    bits_of(alloc, &net, &holds).check(&rt, "reset", "1011;01;");
    bits_of(alloc, &net, &copy).check(&rt, "copy", "0010;01;");
    Ok(())
}

const SIB: &str =
    "ScanMux m SelectedBy S { 1'b0 : SI; 1'b1 : R[0]; } ScanRegister R[3:0] { ScanInSource SI; CaptureSource R; ResetValue 4'b0; } ScanRegister S { ScanInSource m; CaptureSource S; ResetValue 1'b0; }";

/// No row for 00, one for 01, and one for 10 and 11.
const WIDE: &str =
    "ScanMux m SelectedBy S { 2'b01 : SI; 2'b1x : A; } ScanRegister A { ScanInSource SI; CaptureSource A; ResetValue 1'b0; } ScanRegister S[1:0] { ScanInSource m; CaptureSource S; ResetValue 2'b00; }";

/// The second row is a register whose source is the multiplexer.
const ROUND: &str =
    "ScanMux m SelectedBy S { 1'b0 : S; 1'b1 : A; } ScanRegister A { ScanInSource m; CaptureSource A; } ScanRegister S { ScanInSource SI; CaptureSource S; ResetValue 1'b0; }";

/// Outputs and parts of networks, the bits that are set, and the rows and the path.
const PATHS: [(&str, &str, &[(u32, u32, bool)], &str); 8] = [
    ("S", SIB, &[], "0  1; 1;"),
    ("S", SIB, &[(1, 0, true)], "1  0 1; 0 1;"),
    ("S[0]", WIDE, &[], "- none;none;"),
    ("S[0]", WIDE, &[(1, 0, true)], "0  1; 1;"),
    ("S[0]", WIDE, &[(1, 1, true)], "1  0 1; 0 1;"),
    ("S[0]", WIDE, &[(1, 0, true), (1, 1, true)], "1  0 1; 0 1;"),
    ("m", ROUND, &[], "0  1; 1;"),
    ("m", ROUND, &[(1, 0, true)], "1 none;none;"),
];

#[test]
fn paths_are_traced(rt: HostRuntime) {
    for (source, parts, bits, wanted) in &PATHS {
        outcome(rt.alloc(), source, parts, bits).check(&rt, parts, wanted);
    }
}
