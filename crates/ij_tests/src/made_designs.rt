// The texts of made designs.

use crate::checks::check_bytes;
use design_maker::{MakeFault, make};
use std::alloc::Global;

/// The ICL text of the smallest design of seed 1.
const ICL: &str = "Module Sib {
Attribute kind = \"segment insertion bit\" ;
ScanInPort SI ;
CaptureEnPort CE ;
ShiftEnPort SE ;
UpdateEnPort UE ;
SelectPort SEL ;
ResetPort RST {
ActivePolarity 0 ;
}
TCKPort TCK ;
ScanOutPort SO {
Source SR ;
}
ScanInterface client {
Port SI ;
Port CE ;
Port SE ;
Port UE ;
Port SEL ;
Port RST ;
Port TCK ;
Port SO ;
}
ScanInPort fromSO ;
ToCaptureEnPort toCE ;
ToShiftEnPort toSE ;
ToUpdateEnPort toUE ;
ToSelectPort toSEL {
Source SR ;
}
ToResetPort toRST ;
ToTCKPort toTCK ;
ScanOutPort toSI {
Source SI ;
}
ScanInterface host {
Port fromSO ;
Port toCE ;
Port toSE ;
Port toUE ;
Port toSEL ;
Port toRST ;
Port toTCK ;
Port toSI ;
}
ScanRegister SR {
ScanInSource m ;
CaptureSource SR ;
ResetValue 1'b0 ;
}
ScanMux m SelectedBy SR {
1'b0 : SI ;
1'b1 : fromSO ;
}
}
Module Ins {
Parameter W = 8 ;
TCKPort TCK ;
DataInPort d [ $W - 1 : 0 ] ;
DataOutPort q [ $W - 1 : 0 ] ;
}
Module Wrap {
Parameter W = 8 ;
ScanInPort SI ;
SelectPort SEL ;
TCKPort TCK ;
ScanOutPort SO {
Source R [ 0 ] ;
}
ScanInterface client {
Port SI ;
Port SEL ;
Port TCK ;
Port SO ;
}
ScanRegister R [ $W - 1 : 0 ] {
ScanInSource SI ;
CaptureSource ins . q ;
DefaultLoadValue $W'b0 ;
ResetValue $W'b0 ;
}
Instance ins Of Ins {
Parameter W = $W ;
InputPort d = R ;
InputPort TCK = TCK ;
}
}
Module Net {
ScanInPort SI ;
ScanOutPort SO {
Source s1_1 . SO ;
}
ScanInterface client {
Port SI ;
Port SO ;
}
Instance s1_1 Of Sib {
InputPort SI = SI ;
InputPort fromSO = s1_2 . SO ;
}
Instance s1_2 Of Sib {
InputPort SI = s1_1 . toSI ;
InputPort fromSO = s1_3 . SO ;
}
Instance s1_3 Of Sib {
InputPort SI = s1_2 . toSI ;
InputPort fromSO = w1 . SO ;
}
Instance w1 Of Wrap {
InputPort SI = s1_3 . toSI ;
InputPort SEL = s1_3 . toSEL ;
Parameter W = 7 ;
}
}
Module chip {
Instance net Of Net ;
AccessLink tap Of STD_1149_1_2001 {
BSDLEntity chip ;
IJTAG {
ScanInterface {
net . client ;
}
}
}
}
";

/// Its procedure.
const PDL: &str = "iProcsForModule chip
iProc p {} {
  iWrite net.w1.ins.d 64
  iApply
  iRunLoop 35
  iRead net.w1.ins.q 99
  iApply
  iWrite net.w1.ins.d 56
  iApply
  iRunLoop 12
  iRead net.w1.ins.q 68
  iApply
}
";

/// Its tables.
const TABLES: &str = "tables 1
instrument net.w1.ins
in d 7
word v 7
out q = v
change do v = d
run do v = v + 1
end
";

/// Its device.
const DEVICE: &str = "device 1\nir 8\nlink tap IJTAG A0\n";

#[test]
fn the_smallest_design_of_a_seed_is_made(rt: HostRuntime) {
    let made = make(rt.alloc(), 1, 1).expect(&rt, "no design is made");
    check_bytes(&rt, "ICL", made.icl.as_slice(), ICL.as_bytes());
    check_bytes(&rt, "PDL", made.pdl.as_slice(), PDL.as_bytes());
    check_bytes(&rt, "device", made.device.as_slice(), DEVICE.as_bytes());
    check_bytes(&rt, "tables", made.tables.as_slice(), TABLES.as_bytes());
}

/// The 64-bit checksum of a text by the algorithm FNV-1a.
fn checksum(text: &[u8]) -> u64 {
    let mut sum = 0xcbf2_9ce4_8422_2325u64;
    for byte in text {
        sum = (sum ^ u64::from(*byte)).wrapping_mul(0x0000_0100_0000_01b3);
    }
    sum
}

/// The checksums of ICL, PDL and tables of a design that can be made.
fn checksums(alloc: Global, seed: u64, size: u64) -> Option<[u64; 3]> {
    match make(alloc, seed, size) {
        Ok(made) => Some([
            checksum(made.icl.as_slice()),
            checksum(made.pdl.as_slice()),
            checksum(made.tables.as_slice()),
        ]),
        Err(_) => None,
    }
}

/// Seed, size, and the checksums of ICL, PDL and tables, by a script that was written after the description
/// of made designs alone.
const CHECKSUMS: [(u64, u64, [u64; 3]); 9] = [
    (
        0,
        2,
        [0x0987a47a0126779c, 0xbb6c7faa70aefd37, 0xc51a3de2363c6bb0],
    ),
    (
        1,
        8,
        [0x8ff0e75bbd3d4869, 0x3aa9b550962a0451, 0x2704a5ca9bb4598d],
    ),
    (
        2,
        8,
        [0xe535e90e246affc1, 0x178d2414069ef5c4, 0x0c8040aac985868b],
    ),
    (
        3,
        8,
        [0x924b9ba077caab5f, 0xdb579bef0ba3373e, 0xea17d398bbd594d7],
    ),
    (
        4,
        8,
        [0x620ad6d8a8213597, 0x8ccbc761ff692453, 0x6dd7d54231710ed3],
    ),
    (
        1655397022404076285,
        2,
        [0x05983f2cd815b3c5, 0x863577ba589a4522, 0xad22ddb70df7eb88],
    ),
    (
        9999999999999999999,
        1,
        [0x71b405719d0019d1, 0x394cf8f9ae0f1578, 0xc9ebbb85a95c9f3e],
    ),
    (
        7,
        64,
        [0x1f314643b9885c96, 0x0f9b16022e7f9891, 0xf999018376d2d653],
    ),
    (
        18446744073709551615,
        64,
        [0x0b22f17a1af9522f, 0x8aa7aed5870fec47, 0x9fc3b02ac1e6cf25],
    ),
];

#[test]
fn designs_of_each_size_have_the_texts_of_their_seed(rt: HostRuntime) {
    for (seed, size, wanted) in &CHECKSUMS {
        let found = checksums(rt.alloc(), *seed, *size);
        assert!(rt;
            found == Some(*wanted),
            "seed {seed}, size {size}: {found:?}"
        );
    }
}

fn is_bad_size(alloc: Global, size: u64) -> bool {
    matches!(make(alloc, 1, size), Err(fault) if fault == MakeFault::BadSize { size })
}

#[test]
fn sizes_outside_1_to_64_are_refused(rt: HostRuntime) {
    for size in [0, 65, u64::MAX] {
        assert!(rt; is_bad_size(rt.alloc(), size), "size {size}");
    }
}
