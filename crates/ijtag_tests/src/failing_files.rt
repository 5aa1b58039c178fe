// Calls of files that fail.
use crate::commands::{
    COMMANDS, COMPILE, COUNTER_FILES, Command, Ended, Failing, PLAY, SVF, run, sure_shelf_of, words,
};
use ij_io::SureSink;
use ijtag_core::{Status, ijtag_in_memory};
use std::alloc::Global;

/// Whether a line is this fault of a file.
fn is_line(line: &[u8], fault: &[u8], name: &str) -> bool {
    match line.strip_prefix(fault) {
        Some(rest) => rest.strip_suffix(b"\n") == Some(name.as_bytes()),
        None => false,
    }
}

/// Whether the program ended with a fault of a file, and printed nothing.
fn is_fault(ended: &Ended, status: Status, fault: &[u8], name: &str) -> bool {
    ended.is(status, b"", ended.err.bytes()) && is_line(ended.err.bytes(), fault, name)
}

/// Whether all is there.
fn is_whole(command: &Command<'_>, ended: &Ended) -> bool {
    let held = ended.shelf.file(command.writes).unwrap_or(b"".as_slice());
    ended.is(Status::Good, command.report, b"") && held == command.text
}

/// After this many calls that passed, one failed: a load leaves all, a store leaves a first part of the file,
/// nothing is printed, and there are no other calls.
fn is_met(command: &Command<'_>, passed: usize, ended: &Ended) -> bool {
    let written = ended.shelf.file(command.writes);
    let loads = command.loads.len();
    if passed < loads {
        let name = command.loads[passed];
        written.is_none() && is_fault(ended, Status::ReadFault, b"read fault ", name)
    } else if passed < loads.saturating_add(3) && !command.writes.is_empty() {
        command.text.starts_with(written.unwrap_or(b"".as_slice()))
            && is_fault(ended, Status::WriteFault, b"write fault ", command.writes)
    } else {
        is_whole(command, ended)
    }
}

/// Whether a run is as it should be whose call of this number fails, of the files.
fn fails(alloc: Global, command: &Command<'_>, call: u32) -> bool {
    let failing = Failing {
        shelf: &[call],
        out: &[],
        err: &[],
    };
    let ended = run(alloc, command.words, command.files, &failing);
    is_met(command, call.saturating_sub(1) as usize, &ended)
}

/// Each file is loaded once, in its order, and the one that is written is begun once, gets one piece, and is
/// finished.
#[test]
fn each_call_of_the_files_fails_once(rt: HostRuntime) {
    for command in &COMMANDS {
        for call in 1..9u32 {
            assert!(rt;
                fails(rt.alloc(), command, call),
                "{:?}: call {call}",
                command.words
            );
        }
    }
}

/// Whether a run is good where these calls fail.
fn is_good(alloc: Global, words: &[&str], failing: &Failing<'_>) -> bool {
    let ended = run(alloc, words, &COUNTER_FILES, failing);
    ended.is(Status::Good, ended.out.bytes(), b"")
}

const OF_STREAMS: Failing<'static> = Failing {
    shelf: &[],
    out: &[1],
    err: &[1],
};

const OF_FILES: Failing<'static> = Failing {
    shelf: &[5, 6],
    out: &[],
    err: &[1],
};

/// A compile prints nothing and a play writes no file, so a fault there is never met.
#[test]
fn what_a_command_does_not_use_cannot_stop_it(rt: HostRuntime) {
    assert!(rt; is_good(rt.alloc(), &COMPILE, &OF_STREAMS));
    assert!(rt; is_good(rt.alloc(), &PLAY, &OF_FILES));
}

#[test]
fn sure_files_take_the_whole_text(rt: HostRuntime) {
    let alloc = rt.alloc();
    let words = words(alloc, &COMPILE);
    let mut shelf = sure_shelf_of(alloc, &COUNTER_FILES);
    let mut out = SureSink::new(alloc);
    let mut err = SureSink::new(alloc);
    let status = ijtag_in_memory(alloc, &words, &mut shelf, &mut out, &mut err);
    assert!(rt; status.code() == 0);
    assert!(rt; shelf.file("b.svf") == Some(SVF));
}
