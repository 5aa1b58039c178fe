// The lines of reports that need no network: compares that differ, and totals.

use crate::checks::{check_text, show_bytes};
use ij_io::SureSink;
use net_graph::{BitId, ReadBit};
use report::{Differ, Totals, put_differ, put_totals};
use std::alloc::Global;

/// A read bit of an iRead on line 7.
const READ_BIT: ReadBit = ReadBit {
    bit: BitId { reg: 0, pos: 2 },
    expect: true,
    read: 1,
    line: 7,
    index: 2,
};

const DIFFERS: [(Differ, &str); 3] = [
    (
        Differ {
            scan: 4,
            bit: 0,
            expect: false,
            found: true,
            read: None,
        },
        "differs scan 4 bit 0 expected 0 read 1\n",
    ),
    (
        Differ {
            scan: 3,
            bit: 12,
            expect: true,
            found: false,
            read: Some(READ_BIT),
        },
        "differs scan 3 bit 12 expected 1 read 0 iread 1 line 7 index 2\n",
    ),
    (
        Differ {
            scan: 0,
            bit: 0,
            expect: true,
            found: false,
            read: Some(READ_BIT),
        },
        "differs iread 1 line 7 index 2 expected 1 read 0\n",
    ),
];

fn line_of_differ(alloc: Global, differ: &Differ) -> SureSink {
    let mut line = SureSink::new(alloc);
    if put_differ(differ, &mut line).is_err() {
        show_bytes(&mut line, b"refused");
    }
    line
}

#[test]
fn compares_that_differ_are_reported_by_scan_or_by_iread(rt: HostRuntime) {
    for (differ, wanted) in &DIFFERS {
        check_text(&rt, wanted, &line_of_differ(rt.alloc(), differ), wanted);
    }
}

const TOTALS: [(Totals, &str); 3] = [
    (
        Totals::Play {
            scans: 4,
            clocks: 1_000_000_000,
            differs: 1,
        },
        "scans 4 clocks 1000000000 differs 1\n",
    ),
    (
        Totals::Direct {
            reads: 8,
            differs: 0,
        },
        "reads 8 differs 0\n",
    ),
    (
        Totals::Made {
            registers: 3,
            muxes: 2,
            instruments: 1,
            groups: 12,
            scans: 40,
            clocks: 999,
            differs: 0,
        },
        "made registers 3 muxes 2 instruments 1 groups 12 scans 40 clocks 999 differs 0\n",
    ),
];

fn line_of_totals(alloc: Global, totals: &Totals) -> SureSink {
    let mut line = SureSink::new(alloc);
    if put_totals(totals, &mut line).is_err() {
        show_bytes(&mut line, b"refused");
    }
    line
}

#[test]
fn totals_are_the_last_line(rt: HostRuntime) {
    for (totals, wanted) in &TOTALS {
        check_text(&rt, wanted, &line_of_totals(rt.alloc(), totals), wanted);
    }
}
