// Calls of files and of streams that find no memory: each call of each command once, until a run meets none.
ghost use Rattle.std.specs.Prelude.{None};

use crate::commands::{
    COMMANDS, COMPILE, Command, Ended as WithFaults, Outcome, PLAY, REFUSED_FILES,
    run as run_with_faults, sure_shelf_of, words,
};
use crate::failing_makes::{FILES, MAKE, NONE, is_left};
use ij_io::{LoadFault, Shelf, Sink, StoreFault, SureShelf, SureSink};
use ijtag_core::{Status, ijtag};
use std::alloc::Global;

/// More calls than any of these runs makes.
const MANY: u32 = 100;

// Counts calls down to the one that finds no memory, which has 1; there is none at 0.
#[derive(Drop)]
struct Countdown {
    left: u32,
}

impl Countdown {
    fn is_out(&mut self) -> bool {
        let left = self.left;
        self.left = left.saturating_sub(1);
        left == 1
    }
}

// Files in memory of which one call finds no memory.
#[derive(Drop)]
struct ShortShelf {
    files: SureShelf,
    until: Countdown,
}

impl Shelf for ShortShelf {
    ghost files = { λ s. None };

    ghost load_faults = { λ s name. 0 };

    ghost store_faults = { λ s name. 0 };

    fn load(&mut self, alloc: Global, name: &str, limit: u32) -> Result<Vec<u8>, LoadFault> {
        if self.until.is_out() {
            return Err(LoadFault::OutOfMemory);
        }
        self.files.load(alloc, name, limit)
    }

    fn begin(&mut self, name: &str) -> Result<(), StoreFault> {
        if self.until.is_out() {
            return Err(StoreFault::OutOfMemory);
        }
        self.files.begin(name)
    }

    fn append(&mut self, name: &str, piece: &[u8]) -> Result<(), StoreFault> {
        if self.until.is_out() {
            return Err(StoreFault::OutOfMemory);
        }
        self.files.append(name, piece)
    }

    fn finish(&mut self, name: &str) -> Result<(), StoreFault> {
        if self.until.is_out() {
            return Err(StoreFault::OutOfMemory);
        }
        self.files.finish(name)
    }
}

// A stream into memory of which one call finds no memory, of `write` and `flush` together.
#[derive(Drop)]
struct ShortSink {
    bytes: SureSink,
    until: Countdown,
}

impl Sink for ShortSink {
    ghost taken = { λ s. None };

    ghost handed = { λ s. None };

    ghost faults = { λ s. 0 };

    fn write(&mut self, piece: &[u8]) -> Result<(), StoreFault> {
        if self.until.is_out() {
            return Err(StoreFault::OutOfMemory);
        }
        self.bytes.write(piece)
    }

    fn flush(&mut self) -> Result<(), StoreFault> {
        if self.until.is_out() {
            return Err(StoreFault::OutOfMemory);
        }
        self.bytes.flush()
    }
}

/// Which call finds no memory, counted from 1: of the files, of the output, and of the error stream. None
/// does at 0.
#[derive(Clone, Copy)]
struct Short {
    shelf: u32,
    out: u32,
    err: u32,
}

impl Short {
    fn of_shelf(shelf: u32) -> Self {
        Short {
            shelf,
            out: 0,
            err: 0,
        }
    }

    fn of_out(out: u32) -> Self {
        Short {
            shelf: 0,
            out,
            err: 0,
        }
    }

    fn of_err(err: u32) -> Self {
        Short {
            shelf: 0,
            out: 0,
            err,
        }
    }
}

// How a run ended, and what is then.
#[derive(Drop)]
struct Ended {
    status: Status,
    files: SureShelf,
    out: SureSink,
    err: SureSink,
}

impl Ended {
    /// Whether the program ended so, and wrote this.
    fn is(&self, status: Status, out: &[u8], err: &[u8]) -> bool {
        self.status == status && self.out.bytes() == out && self.err.bytes() == err
    }

    /// Whether it ended for want of memory, and printed a first part of a report.
    fn is_out_of_memory(&self, report: &[u8]) -> bool {
        self.is(Status::OutOfMemory, self.out.bytes(), b"out of memory\n")
            && report.starts_with(self.out.bytes())
    }
}

fn sink(alloc: Global, left: u32) -> ShortSink {
    ShortSink {
        bytes: SureSink::new(alloc),
        until: Countdown { left },
    }
}

// A run of the program. It has no clause: a test looks at what comes.
fn run(alloc: Global, parts: &[&str], files: &[(&str, &[u8])], short: Short) -> Ended {
    let words = words(alloc, parts);
    let mut shelf = ShortShelf {
        files: sure_shelf_of(alloc, files),
        until: Countdown { left: short.shelf },
    };
    let mut out = sink(alloc, short.out);
    let mut err = sink(alloc, short.err);
    let status = ijtag(alloc, &words, &mut shelf, &mut out, &mut err);
    Ended {
        status,
        files: shelf.files,
        out: out.bytes,
        err: err.bytes,
    }
}

/// Whether a command's files are as before, but for the one that it writes.
fn others_stay(command: &Command<'_>, ended: &Ended) -> bool {
    let mut stay = true;
    for file in command.files {
        let held = ended.files.file(file.0);
        stay = stay && (file.0 == command.writes || held == Some(file.1));
    }
    stay
}

/// Whether the file that a command writes has its text, where it writes one.
fn is_written(command: &Command<'_>, ended: &Ended) -> bool {
    command.writes.is_empty() || ended.files.file(command.writes) == Some(command.text)
}

/// Whether a run without memory says and leaves what it may: its one line; of the report and of the file that
/// is written, which wasn't there before, a first part; and all other files.
fn is_short(command: &Command<'_>, report: &[u8], ended: &Ended) -> bool {
    let held = ended.files.file(command.writes).unwrap_or(b"".as_slice());
    ended.is_out_of_memory(report) && others_stay(command, ended) && command.text.starts_with(held)
}

/// Whether a run met no call without memory, and all is there.
fn is_whole(command: &Command<'_>, ended: &Ended) -> bool {
    ended.is(Status::Good, command.report, b"") && is_written(command, ended)
}

/// A run whose call of this number finds no memory, of the files.
fn outcome_of_shelf(alloc: Global, command: &Command<'_>, call: u32) -> Outcome {
    let ended = run(alloc, command.words, command.files, Short::of_shelf(call));
    if is_whole(command, &ended) {
        Outcome::Whole
    } else if is_short(command, b"", &ended) {
        Outcome::Part
    } else {
        Outcome::Wrong
    }
}

/// The first call of the files that isn't made; or one that is wrong.
fn end_of_shelf(alloc: Global, command: &Command<'_>) -> Result<u32, u32> {
    for call in 1..MANY {
        match outcome_of_shelf(alloc, command, call) {
            Outcome::Whole => return Ok(call),
            Outcome::Part => {}
            Outcome::Wrong => return Err(call),
        }
    }
    Err(MANY)
}

/// Each command but `make` calls its files once for each load, and begins, grows and finishes the one that it
/// writes.
#[test]
fn each_call_of_the_files_finds_no_memory_once(rt: HostRuntime) {
    for command in &COMMANDS {
        let end = end_of_shelf(rt.alloc(), command);
        let first = if command.writes.is_empty() { 1 } else { 4 };
        let wanted = command.loads.len().saturating_add(first);
        assert!(rt;
            matches!(end, Ok(call) if call as usize == wanted),
            "{:?}: {end:?}",
            command.words
        );
    }
}

/// A run whose call of this number finds no memory, of the output. The file is whole.
fn outcome_of_out(alloc: Global, command: &Command<'_>, call: u32) -> Outcome {
    let ended = run(alloc, command.words, command.files, Short::of_out(call));
    if is_whole(command, &ended) {
        Outcome::Whole
    } else if is_short(command, command.report, &ended) && is_written(command, &ended) {
        Outcome::Part
    } else {
        Outcome::Wrong
    }
}

/// The first call of the output that isn't made; or one that is wrong.
fn end_of_out(alloc: Global, command: &Command<'_>) -> Result<u32, u32> {
    for call in 1..MANY {
        match outcome_of_out(alloc, command, call) {
            Outcome::Whole => return Ok(call),
            Outcome::Part => {}
            Outcome::Wrong => return Err(call),
        }
    }
    Err(MANY)
}

/// Each call of the output, until a run meets none; then the file is whole.
#[test]
fn each_call_of_the_output_finds_no_memory_once(rt: HostRuntime) {
    for command in &COMMANDS {
        let end = end_of_out(rt.alloc(), command);
        let least = if command.report.is_empty() { 1 } else { 3 };
        assert!(rt;
            matches!(end, Ok(call) if call >= least),
            "{:?}: {end:?}",
            command.words
        );
    }
}

/// A refused run whose call of this number finds no memory, of the error stream.
fn outcome_of_err(alloc: Global, words: &[&str], call: u32) -> Outcome {
    let line = b"refused icl Syntax 1:28\n".as_slice();
    let ended = run(alloc, words, &REFUSED_FILES, Short::of_err(call));
    if ended.is(Status::Refused, b"", line) {
        Outcome::Whole
    } else if ended.is(Status::OutOfMemory, b"", ended.err.bytes())
        && line.starts_with(ended.err.bytes())
    {
        Outcome::Part
    } else {
        Outcome::Wrong
    }
}

/// The first call of the error stream that isn't made; or one that is wrong.
fn end_of_err(alloc: Global, words: &[&str]) -> Result<u32, u32> {
    for call in 1..MANY {
        match outcome_of_err(alloc, words, call) {
            Outcome::Whole => return Ok(call),
            Outcome::Part => {}
            Outcome::Wrong => return Err(call),
        }
    }
    Err(MANY)
}

/// Each call of the error stream of a refused run: the status is that of want of memory, and what the stream
/// took is a first part of its line.
#[test]
fn each_call_of_the_error_stream_finds_no_memory_once(rt: HostRuntime) {
    for words in [COMPILE.as_slice(), &PLAY] {
        let end = end_of_err(rt.alloc(), words);
        assert!(rt; matches!(end, Ok(call) if call > 2), "{words:?}: {end:?}");
    }
}

/// Whether the files of a make that are finished before this call are whole, and those that aren't begun are
/// as before.
fn are_left(whole: &WithFaults, ended: &Ended, call: u32) -> bool {
    let mut first = 1u32;
    let mut left = true;
    for file in &FILES {
        let all = whole.shelf.file(file.0);
        let held = ended.files.file(file.0);
        left = is_left(call, first, file.1, all, held) && left;
        first = first.wrapping_add(3);
    }
    left
}

/// Whether a make whose call of this number finds no memory, of the files, says so and leaves what it may.
/// There are 15 calls.
fn is_met(alloc: Global, whole: &WithFaults, call: u32) -> bool {
    let ended = run(alloc, &MAKE, &FILES, Short::of_shelf(call));
    let said = if call > 15 {
        ended.is(Status::Good, whole.out.bytes(), ended.err.bytes())
    } else {
        ended.is_out_of_memory(b"")
    };
    said && are_left(whole, &ended, call)
}

/// A made design: three calls for each of its five files.
#[test]
fn each_call_of_a_make_finds_no_memory_once(rt: HostRuntime) {
    let whole = run_with_faults(rt.alloc(), &MAKE, &FILES, &NONE);
    for call in 1..17u32 {
        assert!(rt; is_met(rt.alloc(), &whole, call), "call {call}");
    }
}

/// A make whose call of this number finds no memory, of the output. Its files are whole.
fn outcome_of_make(alloc: Global, whole: &WithFaults, call: u32) -> Outcome {
    let ended = run(alloc, &MAKE, &FILES, Short::of_out(call));
    if !are_left(whole, &ended, MANY) {
        Outcome::Wrong
    } else if ended.is(Status::Good, whole.out.bytes(), ended.err.bytes()) {
        Outcome::Whole
    } else if ended.is_out_of_memory(whole.out.bytes()) {
        Outcome::Part
    } else {
        Outcome::Wrong
    }
}

/// The first call of the output of a make that isn't made; or one that is wrong.
fn end_of_make(alloc: Global, whole: &WithFaults) -> Result<u32, u32> {
    for call in 1..MANY {
        match outcome_of_make(alloc, whole, call) {
            Outcome::Whole => return Ok(call),
            Outcome::Part => {}
            Outcome::Wrong => return Err(call),
        }
    }
    Err(MANY)
}

/// Each call of the output of a make, until a run meets none: its files are whole.
#[test]
fn each_call_of_the_output_of_a_make_finds_no_memory_once(rt: HostRuntime) {
    let whole = run_with_faults(rt.alloc(), &MAKE, &FILES, &NONE);
    let end = end_of_make(rt.alloc(), &whole);
    assert!(rt; matches!(end, Ok(call) if call > 2), "{end:?}");
}
