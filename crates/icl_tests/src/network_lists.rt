// The listings of networks.
use crate::network_texts::network_of;
use crate::texts::Shown;
use nest_check::nest;
use net_list::{ListFormat, put_list};
use std::alloc::Global;

/// The listing of the network of an ICL text.
fn list_of(alloc: Global, source: &str, parts: &str, format: ListFormat) -> Shown {
    let mut shown = Shown::new(alloc);
    let Ok(net) = network_of(alloc, source, parts) else {
        return shown;
    };
    let Ok(tree) = nest(alloc, &net) else {
        return shown;
    };
    if put_list(alloc, &net, &tree, format, &mut shown.sink).is_err() {
        shown.text(b"refused");
    }
    shown
}

/// A register, and nothing else.
const FLAT: (&str, &str) = (
    "R[0]",
    "ScanRegister R[3:0] { ScanInSource SI; CaptureSource R; ResetValue 4'b0; }",
);

/// A segment after an insertion bit, within another one; the select bits of both in one register, and in one
/// each; the outer one open at reset. Registers without reset value, or with one for some bits.
const SHARED: (&str, &str) = (
    "S[0]",
    "ScanMux m0 SelectedBy S[1] { 1'b0 : SI; 1'b1 : A; } ScanMux m1 SelectedBy S[0] { 1'b0 : SI; 1'b1 : R[0]; } ScanRegister R[2:0] { ScanInSource SI; CaptureSource R; } ScanRegister A { ScanInSource m1; CaptureSource A; } ScanRegister S[1:0] { ScanInSource m0; CaptureSource S; ResetValue 2'b00; }",
);

const NESTED: (&str, &str) = (
    "S",
    "ScanMux m0 SelectedBy S { 1'b0 : SI; 1'b1 : T; } ScanMux m1 SelectedBy T { 1'b0 : SI; 1'b1 : R[0]; } ScanRegister R[2:0] { ScanInSource SI; CaptureSource R; ResetValue 3'b1x0; } ScanRegister T { ScanInSource m1; CaptureSource T; ResetValue 1'b0; } ScanRegister S { ScanInSource m0; CaptureSource S; ResetValue 1'b0; }",
);

const OPEN: (&str, &str) = (
    "S",
    "ScanMux m0 SelectedBy S { 1'b0 : SI; 1'b1 : T; } ScanMux m1 SelectedBy T { 1'b0 : SI; 1'b1 : R[0]; } ScanRegister R[2:0] { ScanInSource SI; CaptureSource R; ResetValue 3'b100; } ScanRegister T { ScanInSource m1; CaptureSource T; ResetValue 1'b0; } ScanRegister S { ScanInSource m0; CaptureSource S; ResetValue 1'b1; }",
);

/// A select of two bits, whose register has its left index below the right one, and a row of three values.
const WIDE: (&str, &str) = (
    "m",
    "ScanMux m SelectedBy S[1], S[0] { 2'b00 : S[1]; 2'b1x | 2'b01 : R; } ScanRegister S[0:1] { ScanInSource SI; CaptureSource S; ResetValue 2'b00; } ScanRegister R { ScanInSource S[1]; CaptureSource R; ResetValue 1'b1; }",
);

/// An instrument whose input has drivers of all kinds.
const DRIVEN: (&str, &str) = (
    "U[3]",
    "ScanRegister R[7:4] { ScanInSource SI; CaptureSource R; ResetValue 4'b0; } ScanRegister U[0:3] { ScanInSource R[4]; CaptureSource i.q, i.q; ResetValue 4'b0; } Instance i Of Two { InputPort d = 1'b1, R[7:6], ~R[5:4], U[1:2], U[0], R[4], 2'b00; InputPort e = U[3]; } } Module Two { DataInPort d[10:0]; DataInPort e; DataOutPort q[1:0];",
);

const IN_TEXT: [((&str, &str), &str); 6] = [
    (
        FLAT,
        "register net.R bits 4 reset 0000 depth 0 scans 1\nnetwork registers 1 bits 4 muxes 0 instruments 0 path at reset 4\n",
    ),
    (
        SHARED,
        "register net.R bits 3 reset xxx depth 2 scans 2 in net.m0=1 net.m1=1\nregister net.A bits 1 reset x depth 1 scans 2 in net.m0=1\nregister net.S bits 2 reset 00 depth 0 scans 1 selects net.m0 net.m1\nmux net.m0 rows 2 select net.S[1] depth 0\nrow net.m0=0\nrow net.m0=1\nmux net.m1 rows 2 select net.S[0] depth 1\nrow net.m1=0\nrow net.m1=1\nnetwork registers 3 bits 6 muxes 2 instruments 0 path at reset 2\n",
    ),
    (
        NESTED,
        "register net.R bits 3 reset 1x0 depth 2 scans 3 in net.m0=1 net.m1=1\nregister net.T bits 1 reset 0 depth 1 scans 2 in net.m0=1 selects net.m1\nregister net.S bits 1 reset 0 depth 0 scans 1 selects net.m0\nmux net.m0 rows 2 select net.S[0] depth 0\nrow net.m0=0\nrow net.m0=1\nmux net.m1 rows 2 select net.T[0] depth 1\nrow net.m1=0\nrow net.m1=1\nnetwork registers 3 bits 5 muxes 2 instruments 0 path at reset 1\n",
    ),
    (
        OPEN,
        "register net.R bits 3 reset 100 depth 2 scans 2 in net.m0=1 net.m1=1\nregister net.T bits 1 reset 0 depth 1 scans 1 in net.m0=1 selects net.m1\nregister net.S bits 1 reset 1 depth 0 scans 1 selects net.m0\nmux net.m0 rows 2 select net.S[0] depth 0\nrow net.m0=0\nrow net.m0=1\nmux net.m1 rows 2 select net.T[0] depth 1\nrow net.m1=0\nrow net.m1=1\nnetwork registers 3 bits 5 muxes 2 instruments 0 path at reset 2\n",
    ),
    (
        WIDE,
        "register net.S bits 2 reset 00 depth 0 scans 1 selects net.m\nregister net.R bits 1 reset 1 depth 1 scans 2 in net.m=1x|01\nmux net.m rows 2 select net.S[1] net.S[0] depth 0\nrow net.m=00\nrow net.m=1x|01\nnetwork registers 2 bits 3 muxes 1 instruments 0 path at reset 2\n",
    ),
    (
        DRIVEN,
        "register net.R bits 4 reset 0000 depth 0 scans 1\nregister net.U bits 4 reset 0000 depth 0 scans 1\ninstrument net.i in d 11 from 1,net.R[7:6],~net.R[5:4],net.U[1:2],net.U[0],net.R[4],0,0 in e 1 from net.U[3] out q 2\nnetwork registers 2 bits 8 muxes 0 instruments 1 path at reset 8\n",
    ),
];

#[test]
fn a_listing_is_written_in_text(rt: HostRuntime) {
    for ((source, parts), wanted) in &IN_TEXT {
        list_of(rt.alloc(), source, parts, ListFormat::Text).check(&rt, parts, wanted);
    }
}

const IN_JSON: [((&str, &str), &str); 4] = [
    (
        FLAT,
        "{\"register\":\"net.R\",\"bits\":4,\"reset\":\"0000\",\"depth\":0,\"scans\":1,\"in\":[],\"selects\":[]}\n{\"network\":{\"registers\":1,\"bits\":4,\"muxes\":0,\"instruments\":0,\"path\":4}}\n",
    ),
    (
        SHARED,
        "{\"register\":\"net.R\",\"bits\":3,\"reset\":\"xxx\",\"depth\":2,\"scans\":2,\"in\":[[\"net.m0\",\"1\"],[\"net.m1\",\"1\"]],\"selects\":[]}\n{\"register\":\"net.A\",\"bits\":1,\"reset\":\"x\",\"depth\":1,\"scans\":2,\"in\":[[\"net.m0\",\"1\"]],\"selects\":[]}\n{\"register\":\"net.S\",\"bits\":2,\"reset\":\"00\",\"depth\":0,\"scans\":1,\"in\":[],\"selects\":[\"net.m0\",\"net.m1\"]}\n{\"mux\":\"net.m0\",\"rows\":2,\"select\":[\"net.S[1]\"],\"depth\":0,\"values\":[\"0\",\"1\"]}\n{\"mux\":\"net.m1\",\"rows\":2,\"select\":[\"net.S[0]\"],\"depth\":1,\"values\":[\"0\",\"1\"]}\n{\"network\":{\"registers\":3,\"bits\":6,\"muxes\":2,\"instruments\":0,\"path\":2}}\n",
    ),
    (
        WIDE,
        "{\"register\":\"net.S\",\"bits\":2,\"reset\":\"00\",\"depth\":0,\"scans\":1,\"in\":[],\"selects\":[\"net.m\"]}\n{\"register\":\"net.R\",\"bits\":1,\"reset\":\"1\",\"depth\":1,\"scans\":2,\"in\":[[\"net.m\",\"1x|01\"]],\"selects\":[]}\n{\"mux\":\"net.m\",\"rows\":2,\"select\":[\"net.S[1]\",\"net.S[0]\"],\"depth\":0,\"values\":[\"00\",\"1x|01\"]}\n{\"network\":{\"registers\":2,\"bits\":3,\"muxes\":1,\"instruments\":0,\"path\":2}}\n",
    ),
    (
        DRIVEN,
        "{\"register\":\"net.R\",\"bits\":4,\"reset\":\"0000\",\"depth\":0,\"scans\":1,\"in\":[],\"selects\":[]}\n{\"register\":\"net.U\",\"bits\":4,\"reset\":\"0000\",\"depth\":0,\"scans\":1,\"in\":[],\"selects\":[]}\n{\"instrument\":\"net.i\",\"in\":[{\"port\":\"d\",\"bits\":11,\"from\":\"1,net.R[7:6],~net.R[5:4],net.U[1:2],net.U[0],net.R[4],0,0\"},{\"port\":\"e\",\"bits\":1,\"from\":\"net.U[3]\"}],\"out\":[{\"port\":\"q\",\"bits\":2}]}\n{\"network\":{\"registers\":2,\"bits\":8,\"muxes\":0,\"instruments\":1,\"path\":8}}\n",
    ),
];

#[test]
fn a_listing_is_written_in_json(rt: HostRuntime) {
    for ((source, parts), wanted) in &IN_JSON {
        list_of(rt.alloc(), source, parts, ListFormat::Json).check(&rt, parts, wanted);
    }
}

/// Three insertion bits in a row, each with a segment, whose register drives an instrument.
const SEGMENTS: &str =
    "Instance s1 Of Sib { InputPort SI = SI; InputPort fromSO = w1.SO; } Instance s2 Of Sib { InputPort SI = s1.SO; InputPort fromSO = w2.SO; } Instance s3 Of Sib { InputPort SI = s2.SO; InputPort fromSO = w3.SO; } Instance w1 Of Wrap { InputPort SI = s1.toSI; Parameter W = 4; } Instance w2 Of Wrap { InputPort SI = s2.toSI; } Instance w3 Of Wrap { InputPort SI = s3.toSI; Parameter W = 4; } } Module Sib { ScanInPort SI; ScanOutPort SO { Source SR; } ScanInPort fromSO; ScanOutPort toSI { Source SI; } ScanRegister SR { ScanInSource m; CaptureSource SR; ResetValue 1'b0; } ScanMux m SelectedBy SR { 1'b0 : SI; 1'b1 : fromSO; } } Module Both { Parameter W = 8; DataInPort d[$W-1:0]; DataOutPort q[$W-1:0]; } Module Wrap { Parameter W = 8; ScanInPort SI; ScanOutPort SO { Source R[0]; } ScanRegister R[$W-1:0] { ScanInSource SI; CaptureSource ins.q; ResetValue $W'b0; } Instance ins Of Both { Parameter W = $W; InputPort d = R; }";

/// Their listing.
const OF_SEGMENTS: &str =
    "register net.s1.SR bits 1 reset 0 depth 0 scans 1 selects net.s1.m\nregister net.s2.SR bits 1 reset 0 depth 0 scans 1 selects net.s2.m\nregister net.s3.SR bits 1 reset 0 depth 0 scans 1 selects net.s3.m\nregister net.w1.R bits 4 reset 0000 depth 1 scans 2 in net.s1.m=1\nregister net.w2.R bits 8 reset 00000000 depth 1 scans 2 in net.s2.m=1\nregister net.w3.R bits 4 reset 0000 depth 1 scans 2 in net.s3.m=1\nmux net.s1.m rows 2 select net.s1.SR[0] depth 0\nrow net.s1.m=0\nrow net.s1.m=1\nmux net.s2.m rows 2 select net.s2.SR[0] depth 0\nrow net.s2.m=0\nrow net.s2.m=1\nmux net.s3.m rows 2 select net.s3.SR[0] depth 0\nrow net.s3.m=0\nrow net.s3.m=1\ninstrument net.w1.ins in d 4 from net.w1.R[3:0] out q 4\ninstrument net.w2.ins in d 8 from net.w2.R[7:0] out q 8\ninstrument net.w3.ins in d 4 from net.w3.R[3:0] out q 4\nnetwork registers 6 bits 19 muxes 3 instruments 3 path at reset 3\n";

#[test]
fn segments_and_instruments_are_listed(rt: HostRuntime) {
    list_of(rt.alloc(), "s3.SO", SEGMENTS, ListFormat::Text).check(&rt, SEGMENTS, OF_SEGMENTS);
}
