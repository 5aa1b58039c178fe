// Calls that fail while a design is made.
use crate::commands::{Ended, Failing, run};
use ijtag_core::Status;
use std::alloc::Global;

/// The files of a design, in the order in which they are written, and what they hold before.
pub(crate) const FILES: [(&str, &[u8]); 5] = [
    ("t.icl", b"old"),
    ("t.pdl", b"old"),
    ("t.dev", b"old"),
    ("t.tab", b"old"),
    ("t.svf", b"old"),
];

/// No call fails.
pub(crate) const NONE: Failing<'static> = Failing {
    shelf: &[],
    out: &[],
    err: &[],
};

pub(crate) const MAKE: [&str; 4] = ["make", "1", "1", "t"];

/// The line of a failed store: each file is begun by one call, written by the next, and finished by the
/// third.
fn fault_of_store(call: u32) -> &'static [u8] {
    match call {
        1 | 2 | 3 => b"write fault t.icl\n",
        4 | 5 | 6 => b"write fault t.pdl\n",
        7 | 8 | 9 => b"write fault t.dev\n",
        10 | 11 | 12 => b"write fault t.tab\n",
        _ => b"write fault t.svf\n",
    }
}

/// Whether a file holds what it may after a refused call, whose own calls are three from the one of this
/// number on: it is as before until the first of them, and whole from the third on.
pub(crate) fn is_left(
    call: u32,
    first: u32,
    before: &[u8],
    all: Option<&[u8]>,
    held: Option<&[u8]>,
) -> bool {
    let (Some(all), Some(held)) = (all, held) else {
        return false;
    };
    if call > first.wrapping_add(1) {
        held == all
    } else {
        held == before || (call >= first && all.starts_with(held))
    }
}

/// Whether the files before the one of the failed call are whole, and those after it are as before.
fn are_left(whole: &Ended, ended: &Ended, call: u32) -> bool {
    let mut first = 1u32;
    let mut left = true;
    for file in &FILES {
        let all = whole.shelf.file(file.0);
        let held = ended.shelf.file(file.0);
        left = is_left(call, first, file.1, all, held) && left;
        first = first.wrapping_add(3);
    }
    left
}

/// Whether a make whose call of this number fails, of the files, says so and leaves what it may. There are 15
/// calls.
fn is_met(alloc: Global, whole: &Ended, call: u32) -> bool {
    let failing = Failing {
        shelf: &[call],
        out: &[],
        err: &[],
    };
    let ended = run(alloc, &MAKE, &FILES, &failing);
    let said = if call > 15 {
        ended.is(Status::Good, whole.out.bytes(), ended.err.bytes())
    } else {
        ended.is(Status::WriteFault, b"", fault_of_store(call))
    };
    said && are_left(whole, &ended, call)
}

/// Each call of the files fails once, and nothing is printed then.
#[test]
fn each_call_of_the_files_fails_once_in_a_make(rt: HostRuntime) {
    let whole = run(rt.alloc(), &MAKE, &FILES, &NONE);
    for call in 1..20u32 {
        assert!(rt; is_met(rt.alloc(), &whole, call), "call {call}");
    }
}

/// Where the output fails, the five files are whole.
#[test]
fn an_output_that_fails_leaves_the_files(rt: HostRuntime) {
    let whole = run(rt.alloc(), &MAKE, &FILES, &NONE);
    let failing = Failing {
        shelf: &[],
        out: &[1],
        err: &[],
    };
    let ended = run(rt.alloc(), &MAKE, &FILES, &failing);
    assert!(rt;
        ended.is(
            Status::WriteFault,
            ended.out.bytes(),
            b"write fault output\n"
        )
    );
    assert!(rt; are_left(&whole, &ended, 20));
}
