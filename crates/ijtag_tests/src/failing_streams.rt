// Writes of the output and of the error stream that fail.
use crate::commands::{
    COMMANDS, COMPILE, Command, Ended, Failing, Outcome, PLAY, REFUSED_FILES, run,
};
use ijtag_core::Status;
use std::alloc::Global;

/// Where a write failed, the output took a first part of the report. The file that is written is whole.
fn outcome_of(command: &Command<'_>, ended: &Ended) -> Outcome {
    if !command.writes.is_empty() && !ended.has(command.writes, command.text) {
        Outcome::Wrong
    } else if ended.is(Status::Good, command.report, ended.err.bytes()) {
        Outcome::Whole
    } else if ended.is(
        Status::WriteFault,
        ended.out.bytes(),
        b"write fault output\n",
    ) && command.report.starts_with(ended.out.bytes())
    {
        Outcome::Part
    } else {
        Outcome::Wrong
    }
}

/// A run whose write of this number fails, of the output.
fn outcome(alloc: Global, command: &Command<'_>, call: u32) -> Outcome {
    let failing = Failing {
        shelf: &[],
        out: &[call],
        err: &[],
    };
    let ended = run(alloc, command.words, command.files, &failing);
    outcome_of(command, &ended)
}

/// The last write that is met; or one that is wrong.
fn last_met(alloc: Global, command: &Command<'_>) -> Result<u32, u32> {
    let mut last = 0u32;
    for call in 1..60u32 {
        match outcome(alloc, command, call) {
            Outcome::Whole => {}
            Outcome::Part => last = call,
            Outcome::Wrong => return Err(call),
        }
    }
    Ok(last)
}

/// Each write fails once, and those after the last one are never met.
#[test]
fn a_report_that_is_not_taken(rt: HostRuntime) {
    for command in &COMMANDS {
        let last = last_met(rt.alloc(), command);
        let least = if command.report.is_empty() { 0 } else { 2 };
        assert!(rt;
            matches!(last, Ok(n) if n >= least && n < 59),
            "{:?}: {last:?}",
            command.words
        );
    }
}

/// A run that is refused, whose write of this number fails, of the error stream: the status is that of the
/// refusal, and what the stream took is a first part of its line.
fn refused(alloc: Global, words: &[&str], call: u32) -> Outcome {
    let line = b"refused icl Syntax 1:28\n".as_slice();
    let failing = Failing {
        shelf: &[],
        out: &[],
        err: &[call],
    };
    let ended = run(alloc, words, &REFUSED_FILES, &failing);
    if ended.is(Status::Refused, b"", line) {
        Outcome::Whole
    } else if ended.is(Status::Refused, b"", ended.err.bytes())
        && line.starts_with(ended.err.bytes())
    {
        Outcome::Part
    } else {
        Outcome::Wrong
    }
}

/// The last write of the error stream that is met; or one that is wrong.
fn last_refused(alloc: Global, words: &[&str]) -> Result<u32, u32> {
    let mut last = 0u32;
    for call in 1..20u32 {
        match refused(alloc, words, call) {
            Outcome::Whole => {}
            Outcome::Part => last = call,
            Outcome::Wrong => return Err(call),
        }
    }
    Ok(last)
}

/// Each write of the error stream fails once.
#[test]
fn a_fault_of_the_error_stream_changes_no_status(rt: HostRuntime) {
    for words in [COMPILE.as_slice(), &PLAY] {
        let last = last_refused(rt.alloc(), words);
        assert!(rt;
            matches!(last, Ok(n) if n >= 2 && n < 19),
            "{words:?}: {last:?}"
        );
    }
}
