// The scans of mux tests, and the rows that a mux may be stuck in unseen.
use crate::network_texts::network_of;
use crate::texts::Shown;
use mux_test::{MuxTest, TestScan};
use nest_check::nest;
use std::alloc::Global;
use svf_writer::{Command, ScanPart};

/// The bits of a part, the last position first.
fn show_bits(shown: &mut Shown, part: &ScanPart) {
    shown.text(b" ");
    for k in (0..part.len()).rev() {
        shown.text(if part.get(k) { b"1" } else { b"0" });
    }
}

/// A scan: its row, and TDI, TDO and MASK.
fn show_scan(shown: &mut Shown, test: &TestScan) {
    shown.number(if test.first { b"!" } else { b" " }, test.branch.mux);
    shown.number(b".", test.branch.row);
    if let Command::Sdr(scan) = &test.scan {
        show_bits(shown, &scan.tdi);
        show_bits(shown, &scan.tdo);
        show_bits(shown, &scan.mask);
    }
    shown.text(b";");
}

/// The next scan of a test. Whether there is one.
fn show_next(shown: &mut Shown, test: &mut MuxTest<'_>) -> bool {
    match test.next() {
        Ok(Some(scan)) => {
            show_scan(shown, &scan);
            true
        }
        Ok(None) => false,
        Err(_) => {
            shown.text(b" no memory");
            false
        }
    }
}

/// The scans that a test gives.
fn show_scans(shown: &mut Shown, test: &mut MuxTest<'_>) {
    for _scan in 0..8193 {
        if !show_next(shown, test) {
            break;
        }
    }
}

/// The rows that are unseen, and the counts.
fn show_end(shown: &mut Shown, test: &MuxTest<'_>) {
    for branch in test.unseen().as_slice() {
        shown.number(b" unseen ", branch.mux);
        shown.number(b".", branch.row);
    }
    shown.count(b" ", test.scan_count());
    shown.count(b" scans of ", test.row_count());
    shown.text(b" rows");
}

/// The test of the network of an ICL text.
fn test_of(alloc: Global, source: &str, parts: &str) -> Shown {
    let mut shown = Shown::new(alloc);
    let Ok(net) = network_of(alloc, source, parts) else {
        return shown;
    };
    let Ok(tree) = nest(alloc, &net) else {
        return shown;
    };
    if let Ok(mut test) = MuxTest::new(alloc, &net, &tree) {
        show_scans(&mut shown, &mut test);
        show_end(&mut shown, &test);
    }
    shown
}

/// Outputs and parts of networks, and the tests of these.
const TESTS: [(&str, &str, &str); 11] = [
    // A segment of four bits after a multiplexer.
    (
        "S",
        "ScanMux m SelectedBy S { 1'b0 : SI; 1'b1 : R[0]; } ScanRegister R[3:0] { ScanInSource SI; CaptureSource R; ResetValue 4'b0; } ScanRegister S { ScanInSource m; CaptureSource S; ResetValue 1'b0; }",
        "!0.0 0100000 1000000 1111110;!0.1 1100000 1000000 1111110; 0.1 00001100000 10000000000 11111100000; 3 scans of 2 rows",
    ),
    // Two registers of one length: a multiplexer that is stuck isn't seen.
    (
        "m",
        "ScanMux m SelectedBy S { 1'b0 : A[0]; 1'b1 : B[0]; } ScanRegister S { ScanInSource SI; CaptureSource S; ResetValue 1'b0; } ScanRegister A[1:0] { ScanInSource S; CaptureSource A; ResetValue 2'b0; } ScanRegister B[1:0] { ScanInSource S; CaptureSource B; ResetValue 2'b0; }",
        "!0.0 000100000 100000000 111111000;!0.1 100100000 100000000 111111000; 0.1 100100000 100000000 111111000; unseen 0.0 unseen 0.1 3 scans of 2 rows",
    ),
    // No multiplexer.
    (
        "R[0]",
        "ScanRegister R[3:0] { ScanInSource SI; CaptureSource R; ResetValue 4'b0; }",
        " 0 scans of 0 rows",
    ),
    // s0[2] m0/s0[1],s0[0](-|m1/s1(m2/s2(r1935[2]|r7338[2]) s2 r7635[2]|r1131[2] r8937[3]) s1)
    (
        "m0",
        "ScanMux m0 SelectedBy r0[1], r0[0] { 2'b00 | 2'b11 : r0[0]; 2'b01 : r7; } ScanMux m1 SelectedBy r7 { 1'b0 : r4[0]; 1'b1 : r6[0]; } ScanMux m2 SelectedBy r3 { 1'b1 : r1[0]; 1'b0 : r2[0]; } ScanRegister r0[1:0] { ScanInSource SI; CaptureSource r0; ResetValue 2'b00; } ScanRegister r1[1:0] { ScanInSource r0[0]; CaptureSource r1; ResetValue 2'b00; } ScanRegister r2[1:0] { ScanInSource r0[0]; CaptureSource r2; ResetValue 2'b00; } ScanRegister r3 { ScanInSource m2; CaptureSource r3; ResetValue 1'b0; } ScanRegister r4[1:0] { ScanInSource r3; CaptureSource r4; ResetValue 2'b00; } ScanRegister r5[1:0] { ScanInSource r0[0]; CaptureSource r5; ResetValue 2'b00; } ScanRegister r6[2:0] { ScanInSource r5[0]; CaptureSource r6; ResetValue 3'b000; } ScanRegister r7 { ScanInSource m1; CaptureSource r7; ResetValue 1'b0; }",
        "!0.0 001000000000000000 100000000000000000 111111111111111100;!0.1 011000000000000000 100000000000000000 111111111111111100; 0.1 010000001000000000000000 100000000000000000000000 111111111111111100000000;!1.0 010000001000000000000000 100000000000000000000000 111111111111111100000000;!1.1 010000011000000000000000 100000000000000000000000 111111111111111100000000; 1.1 010000011000000000000000 100000000000000000000000 111111111111111100000000;!2.0 010000001000000000000000 100000000000000000000000 111111111111111100000000; 2.0 010010001000000000000000 100000000000000000000000 111111111111111100000000; 2.0 010010001000000000000000 100000000000000000000000 111111111111111100000000;!2.1 010000001000000000000000 100000000000000000000000 111111111111111100000000; 2.1 010000001000000000000000 100000000000000000000000 111111111111111100000000; unseen 1.0 unseen 1.1 unseen 2.0 unseen 2.1 11 scans of 6 rows",
    ),
    // s0 m0/s0(r3110[1]|-)
    (
        "m0",
        "ScanMux m0 SelectedBy r0 { 1'b0 : r1; 1'b1 : r0; } ScanRegister r0 { ScanInSource SI; CaptureSource r0; ResetValue 1'b0; } ScanRegister r1 { ScanInSource r0; CaptureSource r1; ResetValue 1'b0; }",
        "!0.0 00100 10000 11100;!0.1 10100 10000 11100; 0.1 1100 1000 1110; 3 scans of 2 rows",
    ),
    // s0 m0/s0(-|m1/s1(m2/s2(r1536[2]|r5433[1]) s2|-) s1) r1835[2]
    (
        "r5[0]",
        "ScanMux m0 SelectedBy r0 { 1'b0 : r0; 1'b1 : r4; } ScanMux m1 SelectedBy r4 { 1'b0 : r3; 1'b1 : r0; } ScanMux m2 SelectedBy r3 { 1'b1 : r1[0]; 1'b0 : r2; } ScanRegister r0 { ScanInSource SI; CaptureSource r0; ResetValue 1'b0; } ScanRegister r1[1:0] { ScanInSource r0; CaptureSource r1; ResetValue 2'b00; } ScanRegister r2 { ScanInSource r0; CaptureSource r2; ResetValue 1'b0; } ScanRegister r3 { ScanInSource m2; CaptureSource r3; ResetValue 1'b0; } ScanRegister r4 { ScanInSource m1; CaptureSource r4; ResetValue 1'b0; } ScanRegister r5[1:0] { ScanInSource m0; CaptureSource r5; ResetValue 2'b00; }",
        "!0.0 000100000000 100000000000 111111111000;!0.1 100100000000 100000000000 111111111000; 0.1 100000100000000 100000000000000 111111111000000;!1.0 100000100000000 100000000000000 111111111000000;!1.1 100100100000000 100000000000000 111111111000000; 1.1 1100100000000 1000000000000 1111111110000;!2.0 1000100000000 1000000000000 1111111110000; 2.0 101000100000000 100000000000000 111111111000000; 2.0 1001000100000000 1000000000000000 1111111110000000;!2.1 1000000100000000 1000000000000000 1111111110000000; 2.1 100000100000000 100000000000000 111111111000000; 11 scans of 6 rows",
    ),
    // r3301[1] m0/s0(-|m1/s1[1],s1[0](r624[1]|-) s1[2]) s0
    (
        "r3",
        "ScanMux m0 SelectedBy r3 { 1'b1 : r0; 1'b0 : r2[0]; } ScanMux m1 SelectedBy r2[1], r2[0] { 2'b01 | 2'b00 : r1; 2'b11 : r0; } ScanRegister r0 { ScanInSource SI; CaptureSource r0; ResetValue 1'b0; } ScanRegister r1 { ScanInSource r0; CaptureSource r1; ResetValue 1'b0; } ScanRegister r2[1:0] { ScanInSource m1; CaptureSource r2; ResetValue 2'b00; } ScanRegister r3 { ScanInSource m0; CaptureSource r3; ResetValue 1'b0; }",
        "!0.0 00001100000 10000000000 11111100000; 0.0 01100000 10000000 11111100;!0.1 00100000 10000000 11111100; 0.1 00000100000 10000000000 11111100000;!1.0 00000100000 10000000000 11111100000;!1.1 00110100000 10000000000 11111100000; 1.1 0110100000 1000000000 1111110000; 7 scans of 4 rows",
    ),
    // m0/s0[1],s0[0](s1 m1/s1(-|m2/s2(-|r8338[1] r6433[1]) s2 r1831[2]) r236[2]|-) s0[2] r6739[1]
    (
        "r7",
        "ScanMux m0 SelectedBy r6[1], r6[0] { 2'b00 : r5[0]; 2'b11 : SI; } ScanMux m1 SelectedBy r0 { 1'b0 : r0; 1'b1 : r4[0]; } ScanMux m2 SelectedBy r3 { 1'b1 : r0; 1'b0 : r2; } ScanRegister r0 { ScanInSource SI; CaptureSource r0; ResetValue 1'b0; } ScanRegister r1 { ScanInSource r0; CaptureSource r1; ResetValue 1'b0; } ScanRegister r2 { ScanInSource r1; CaptureSource r2; ResetValue 1'b0; } ScanRegister r3 { ScanInSource m2; CaptureSource r3; ResetValue 1'b0; } ScanRegister r4[1:0] { ScanInSource r3; CaptureSource r4; ResetValue 2'b00; } ScanRegister r5[1:0] { ScanInSource m1; CaptureSource r5; ResetValue 2'b00; } ScanRegister r6[1:0] { ScanInSource m0; CaptureSource r6; ResetValue 2'b00; } ScanRegister r7 { ScanInSource r6[0]; CaptureSource r7; ResetValue 1'b0; }",
        "!0.0 000000100000000000 100000000000000000 111111111111000000;!0.1 000110100000000000 100000000000000000 111111111111000000; 0.1 110100000000000 100000000000000 111111111111000;!1.0 000100000000000 100000000000000 111111111111000; 1.0 000000100000000000 100000000000000000 111111111111000000;!1.1 100000100000000000 100000000000000000 111111111111000000; 1.1 10000000000100000000000 10000000000000000000000 11111111111100000000000;!2.0 10010000000100000000000 10000000000000000000000 11111111111100000000000; 2.0 110000000100000000000 100000000000000000000 111111111111000000000;!2.1 100000000100000000000 100000000000000000000 111111111111000000000; 2.1 10000000000100000000000 10000000000000000000000 11111111111100000000000; 11 scans of 6 rows",
    ),
    // m0/s0(s1[2] m1/s1[1],s1[0](-|s2 m2/s2(r8634[1] r8633[2]|-) r5937[2])|r1034[2]) s0
    (
        "r6",
        "ScanMux m0 SelectedBy r6 { 1'b0 : m1; 1'b1 : r5[0]; } ScanMux m1 SelectedBy r0[1], r0[0] { 2'b00 : r0[0]; 2'b11 : r4[0]; } ScanMux m2 SelectedBy r1 { 1'b1 : r3[0]; 1'b0 : r1; } ScanRegister r0[1:0] { ScanInSource SI; CaptureSource r0; ResetValue 2'b00; } ScanRegister r1 { ScanInSource r0[0]; CaptureSource r1; ResetValue 1'b0; } ScanRegister r2 { ScanInSource r1; CaptureSource r2; ResetValue 1'b0; } ScanRegister r3[1:0] { ScanInSource r2; CaptureSource r3; ResetValue 2'b00; } ScanRegister r4[1:0] { ScanInSource m2; CaptureSource r4; ResetValue 2'b00; } ScanRegister r5[1:0] { ScanInSource SI; CaptureSource r5; ResetValue 2'b00; } ScanRegister r6 { ScanInSource m0; CaptureSource r6; ResetValue 1'b0; }",
        "!0.0 000100000000000 100000000000000 111111111111000;!0.1 001100000000000 100000000000000 111111111111000; 0.1 001100000000000 100000000000000 111111111111000;!1.0 000100000000000 100000000000000 111111111111000; 1.0 000100000000000 100000000000000 111111111111000;!1.1 110100000000000 100000000000000 111111111111000; 1.1 110000100000000000 100000000000000000 111111111111000000;!2.0 111000100000000000 100000000000000000 111111111111000000; 2.0 111000000100000000000 100000000000000000000 111111111111000000000;!2.1 110000000100000000000 100000000000000000000 111111111111000000000; 2.1 110000100000000000 100000000000000000 111111111111000000; unseen 0.0 unseen 0.1 11 scans of 6 rows",
    ),
    // s0 m0/s0(m1/s1(r326[3]|m2/s2(r6234[1]|r6032[2]) s2) s1|r8336[1] r6134[3])
    (
        "m0",
        "ScanMux m0 SelectedBy r0 { 1'b0 : r5; 1'b1 : r7[0]; } ScanMux m1 SelectedBy r5 { 1'b0 : r1[0]; 1'b1 : r4; } ScanMux m2 SelectedBy r4 { 1'b0 : r2; 1'b1 : r3[0]; } ScanRegister r0 { ScanInSource SI; CaptureSource r0; ResetValue 1'b0; } ScanRegister r1[2:0] { ScanInSource r0; CaptureSource r1; ResetValue 3'b000; } ScanRegister r2 { ScanInSource r0; CaptureSource r2; ResetValue 1'b0; } ScanRegister r3[1:0] { ScanInSource r0; CaptureSource r3; ResetValue 2'b00; } ScanRegister r4 { ScanInSource m2; CaptureSource r4; ResetValue 1'b0; } ScanRegister r5 { ScanInSource m1; CaptureSource r5; ResetValue 1'b0; } ScanRegister r6 { ScanInSource r0; CaptureSource r6; ResetValue 1'b0; } ScanRegister r7[2:0] { ScanInSource r6; CaptureSource r7; ResetValue 3'b000; }",
        "!0.0 0000010000000000000 1000000000000000000 1111111111111100000;!0.1 1000010000000000000 1000000000000000000 1111111111111100000; 0.1 1000010000000000000 1000000000000000000 1111111111111100000;!1.0 0000010000000000000 1000000000000000000 1111111111111100000; 1.0 0000010000000000000 1000000000000000000 1111111111111100000;!1.1 0000110000000000000 1000000000000000000 1111111111111100000; 1.1 000110000000000000 100000000000000000 111111111111110000;!2.0 000110000000000000 100000000000000000 111111111111110000;!2.1 001110000000000000 100000000000000000 111111111111110000; 2.1 0001110000000000000 1000000000000000000 1111111111111100000; unseen 0.0 unseen 0.1 10 scans of 6 rows",
    ),
    // m0/s0(-|m1/s1(s2[2] m2/s2[1],s2[0](-|r2539[1] r4936[2]) r4833[2]|-) s1 r7334[2]) s0
    (
        "r6",
        "ScanMux m0 SelectedBy r6 { 1'b1 : SI; 1'b0 : r5[0]; } ScanMux m1 SelectedBy r4 { 1'b0 : r3[0]; 1'b1 : SI; } ScanMux m2 SelectedBy r0[1], r0[0] { 2'b11 | 2'b10 : r0[0]; 2'b00 : r2[0]; } ScanRegister r0[1:0] { ScanInSource SI; CaptureSource r0; ResetValue 2'b00; } ScanRegister r1 { ScanInSource r0[0]; CaptureSource r1; ResetValue 1'b0; } ScanRegister r2[1:0] { ScanInSource r1; CaptureSource r2; ResetValue 2'b00; } ScanRegister r3[1:0] { ScanInSource m2; CaptureSource r3; ResetValue 2'b00; } ScanRegister r4 { ScanInSource m1; CaptureSource r4; ResetValue 1'b0; } ScanRegister r5[1:0] { ScanInSource r4; CaptureSource r5; ResetValue 2'b00; } ScanRegister r6 { ScanInSource m0; CaptureSource r6; ResetValue 1'b0; }",
        "!0.0 00000000001100000000000 10000000000000000000000 11111111111100000000000; 0.0 1100000000000 1000000000000 1111111111110;!0.1 0100000000000 1000000000000 1111111111110; 0.1 00000000000100000000000 10000000000000000000000 11111111111100000000000;!1.0 00000000000100000000000 10000000000000000000000 11111111111100000000000;!1.1 00000001000100000000000 10000000000000000000000 11111111111100000000000; 1.1 1000100000000000 1000000000000000 1111111111110000;!2.0 0000100000000000 1000000000000000 1111111111110000; 2.0 11000000000100000000000 10000000000000000000000 11111111111100000000000; 2.0 11000000100000000000 10000000000000000000 11111111111100000000;!2.1 00000000100000000000 10000000000000000000 11111111111100000000; 2.1 00000000000100000000000 10000000000000000000000 11111111111100000000000; 12 scans of 6 rows",
    ),
];

#[test]
fn every_row_of_every_mux_is_gone_through(rt: HostRuntime) {
    for (source, parts, wanted) in &TESTS {
        test_of(rt.alloc(), source, parts).check(&rt, parts, wanted);
    }
}
