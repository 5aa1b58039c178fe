// The commands that the tests call, their files, and a run of the program with calls that fail.
use ij_io::{MemShelf, MemSink, SureShelf};
use ijtag_core::{Status, ijtag};
use std::alloc::Global;

/// An instrument that counts run cycles from the moment its input rises, and is done at 100.
const COUNTER: &[u8] =
    b"Module Counter { DataInPort start; DataOutPort done; }\nModule Cell {\n  ScanInPort SI; ScanOutPort SO { Source R[0]; }\n  ScanInterface client { Port SI; Port SO; }\n  DataInPort d; DataOutPort s { Source R[0]; }\n  ScanRegister R[1:0] { ScanInSource SI; CaptureSource d, R[0]; ResetValue 2'b00; }\n}\nModule chip {\n  Instance net Of Cell { InputPort d = cnt.done; }\n  Instance cnt Of Counter { InputPort start = net.s; }\n  AccessLink tap Of STD_1149_1_2001 {\n    BSDLEntity chip; IJTAG { ScanInterface { net.client; } }\n  }\n}\n";

/// It is started, and read after 100 cycles.
const COUNT: &[u8] =
    b"iProcsForModule chip\niProc p {} {\n  iWrite cnt.start 1\n  iApply\n  iRunLoop 100\n  iRead cnt.done 1\n  iApply\n}\n";

pub(crate) const DEVICE: &[u8] = b"device 1\nir 8\nlink tap IJTAG A0\n";

const COUNTER_TABLES: &[u8] =
    b"tables 1\ninstrument cnt\nin start 1\nword n 8 init 0 reset 0\nword go 1 init 0 reset 0\nword fin 1 init 0 reset 0\nout done = fin\nchange when old start = 0, start = 1 do go = 1, n = 0, fin = 0\nrun when go = 1, n = 99 do go = 0, fin = 1, n = 100\nrun when go = 1 do n = n + 1\nend\n";

/// The counter's tables in version 2.
const MIGRATED: &[u8] =
    b"tables 2\ninstrument cnt\nin start 1\nword n 8 init 0 reset 0\nword go 1 init 0 reset 0\nword fin 1 init 0 reset 0\nout done = fin\nchange when old start = 0, start = 1 do go = 1, n = 0, fin = 0\nrun when go = 1, n = 99 do go = 0, fin = 1, n = 100\nrun when go = 1 do n = n + 1\nend\n";

pub(crate) const SVF: &[u8] =
    b"ENDIR IDLE;\nENDDR IDLE;\nSTATE RESET;\nSTATE IDLE;\nSIR 8 TDI (A0);\n! apply 1\nSDR 2 TDI (1);\nRUNTEST 100 TCK;\n! apply 2\nSDR 2 TDI (1) TDO (2) MASK (2);\n";

const REPORT: &[u8] =
    b"register net.R 01\ninstrument cnt n=64 go=0 fin=1 changes 1 runs 100 resets 0\nscans 3 clocks 134 differs 0\n";

/// A chip whose instrument has a memory: at each change of its inputs it stores `d` at `a` and shows what
/// stood there.
pub(crate) const MEMORY: &[u8] =
    b"Module Mem { DataInPort a[3:0]; DataInPort d[7:0]; DataOutPort o[7:0]; }\nModule Net {\n  ScanInPort SI; ScanOutPort SO { Source R[0]; }\n  ScanInterface client { Port SI; Port SO; }\n  DataInPort o[7:0]; DataOutPort a[3:0] { Source R[3:0]; } DataOutPort d[7:0] { Source R[11:4]; }\n  ScanRegister R[11:0] { ScanInSource SI; CaptureSource R[11:8], o; ResetValue 12'b0; }\n}\nModule chip {\n  Instance net Of Net { InputPort o = mem.o; }\n  Instance mem Of Mem { InputPort a = net.a; InputPort d = net.d; }\n  AccessLink tap Of STD_1149_1_2001 {\n    BSDLEntity chip; IJTAG { ScanInterface { net.client; } }\n  }\n}\n";

pub(crate) const MEMORY_TABLES: &[u8] =
    b"tables 2\ninstrument mem\n in a 4\n in d 8\n word q 8\n mem m 12 8\n out o=q\nchange do m[a]=d,q=m[a]\nend\n";

/// Two values are stored at one place, and then one after the memory's end.
const STORE: &[u8] =
    b"iProcsForModule chip\niProc p {} {\n  iWrite mem.a 3\n  iWrite mem.d 0x5A\n  iApply\n  iWrite mem.d 0x11\n  iApply\n  iWrite mem.a 13\n  iApply\n}\n";

const STORED: &[u8] =
    b"register net.R 000100011101\ninstrument mem q=00 m[3]=11 changes 3 runs 0 resets 0\nreads 0 differs 0\n";

/// A register of four bits that a multiplexer leaves out or lets in, and after it the select bit.
const BRANCH: &[u8] =
    b"Module Net {\n  ScanInPort SI; ScanOutPort SO { Source S; }\n  ScanInterface client { Port SI; Port SO; }\n  ScanMux m SelectedBy S { 1'b0 : SI; 1'b1 : R[0]; }\n  ScanRegister R[3:0] { ScanInSource SI; CaptureSource R; ResetValue 4'b0; }\n  ScanRegister S { ScanInSource m; CaptureSource S; ResetValue 1'b0; }\n}\nModule chip {\n  Instance net Of Net;\n  AccessLink tap Of STD_1149_1_2001 {\n    BSDLEntity chip; IJTAG { ScanInterface { net.client; } }\n  }\n}\n";

/// Its test: two rows, and three scans.
const TESTED: &[u8] =
    b"ENDIR IDLE;\nENDDR IDLE;\nSTATE RESET;\nSTATE IDLE;\nSIR 8 TDI (A0);\n! mux net.m row 0\nSDR 7 TDI (20) TDO (40) MASK (7E);\n! mux net.m row 1\nSDR 7 TDI (60) TDO (40) MASK (7E);\nSDR 11 TDI (060) TDO (400) MASK (7E0);\n";

/// A command: its words, the files that there are, the names that it loads in their order, the name that it
/// writes (or an empty one), the text that this file has then, and what is printed.
#[derive(Drop)]
pub(crate) struct Command<'a> {
    pub words: &'a [&'a str],
    pub files: &'a [(&'a str, &'a [u8])],
    pub loads: &'a [&'a str],
    pub writes: &'a str,
    pub text: &'a [u8],
    pub report: &'a [u8],
}

/// The files of the counter.
pub(crate) const COUNTER_FILES: [(&str, &[u8]); 5] = [
    ("a.icl", COUNTER),
    ("a.pdl", COUNT),
    ("a.dev", DEVICE),
    ("a.tab", COUNTER_TABLES),
    ("a.svf", SVF),
];

/// The files of the memory.
const MEMORY_FILES: [(&str, &[u8]); 4] = [
    ("a.icl", MEMORY),
    ("a.pdl", STORE),
    ("a.dev", DEVICE),
    ("a.tab", MEMORY_TABLES),
];

/// The files of the network with a multiplexer.
const BRANCH_FILES: [(&str, &[u8]); 2] = [("a.icl", BRANCH), ("a.dev", DEVICE)];

/// The files of a design that is refused at once.
pub(crate) const REFUSED_FILES: [(&str, &[u8]); 5] = [
    ("a.icl", b"Module chip { ScanRegister }"),
    ("a.pdl", COUNT),
    ("a.dev", DEVICE),
    ("a.tab", COUNTER_TABLES),
    ("a.svf", SVF),
];

pub(crate) const COMPILE: [&str; 7] = ["compile", "a.icl", "a.pdl", "a.dev", "chip", "p", "b.svf"];

pub(crate) const PLAY: [&str; 6] = ["play", "a.svf", "a.icl", "a.dev", "a.tab", "chip"];

const RUN: [&str; 8] = [
    "run", "a.icl", "a.pdl", "a.dev", "a.tab", "chip", "p", "b.svf",
];

pub(crate) const DIRECT: [&str; 7] = ["direct", "a.icl", "a.pdl", "a.dev", "a.tab", "chip", "p"];

const AUDIT: [&str; 7] = ["audit", "a.svf", "a.icl", "a.pdl", "a.dev", "chip", "p"];

/// All commands but `make`.
pub(crate) const COMMANDS: [Command<'static>; 7] = [
    Command {
        words: &COMPILE,
        files: &COUNTER_FILES,
        loads: &["a.icl", "a.pdl", "a.dev"],
        writes: "b.svf",
        text: SVF,
        report: b"",
    },
    Command {
        words: &PLAY,
        files: &COUNTER_FILES,
        loads: &["a.svf", "a.icl", "a.dev", "a.tab"],
        writes: "",
        text: b"",
        report: REPORT,
    },
    Command {
        words: &RUN,
        files: &COUNTER_FILES,
        loads: &["a.icl", "a.pdl", "a.dev", "a.tab"],
        writes: "b.svf",
        text: SVF,
        report: REPORT,
    },
    Command {
        words: &DIRECT,
        files: &MEMORY_FILES,
        loads: &["a.icl", "a.pdl", "a.dev", "a.tab"],
        writes: "",
        text: b"",
        report: STORED,
    },
    Command {
        words: &AUDIT,
        files: &COUNTER_FILES,
        loads: &["a.svf", "a.icl", "a.pdl", "a.dev"],
        writes: "",
        text: b"",
        report: b"audit yes groups 2 scans 3\n",
    },
    Command {
        words: &["migrate", "a.tab", "b.tab"],
        files: &COUNTER_FILES,
        loads: &["a.tab"],
        writes: "b.tab",
        text: MIGRATED,
        report: b"",
    },
    Command {
        words: &["muxtest", "a.icl", "a.dev", "chip", "b.svf"],
        files: &BRANCH_FILES,
        loads: &["a.icl", "a.dev"],
        writes: "b.svf",
        text: TESTED,
        report: b"muxtest scans 3 rows 2 unseen 0\n",
    },
];

/// The calls that fail, by their numbers: of the files, of the output, and of the error stream.
#[derive(Drop)]
pub(crate) struct Failing<'a> {
    pub shelf: &'a [u32],
    pub out: &'a [u32],
    pub err: &'a [u32],
}

/// How a run ended, and what is then.
#[derive(Drop)]
pub(crate) struct Ended {
    pub status: Status,
    pub shelf: MemShelf,
    pub out: MemSink,
    pub err: MemSink,
}

impl Ended {
    /// Whether the program ended so, and wrote this.
    pub(crate) fn is(&self, status: Status, out: &[u8], err: &[u8]) -> bool {
        self.status == status && self.out.bytes() == out && self.err.bytes() == err
    }

    /// Whether a file has this text.
    pub(crate) fn has(&self, name: &str, text: &[u8]) -> bool {
        self.shelf.file(name) == Some(text)
    }
}

/// What a run shows in which one call fails.
#[derive(Clone, Copy)]
pub(crate) enum Outcome {
    /// The call wasn't made, and all is there.
    Whole,
    /// The call was made, and what is is a first part of all.
    Part,
    /// Anything else.
    Wrong,
}

/// Words of a command. Like files and failing calls, one that finds no memory is left out, and then the run
/// isn't as it should be.
pub(crate) fn words(alloc: Global, parts: &[&str]) -> Vec<String> {
    let mut words = Vec::new(alloc);
    for part in parts {
        if let Ok(word) = String::from_str(alloc, part) {
            let _ = words.push(word);
        }
    }
    words
}

fn shelf_of(alloc: Global, files: &[(&str, &[u8])], failing: &[u32]) -> MemShelf {
    let mut shelf = MemShelf::new(alloc);
    for file in files {
        let _ = shelf.put_file(file.0, file.1);
    }
    let _ = shelf.fail_at(failing);
    shelf
}

/// Files in memory whose calls don't fail.
pub(crate) fn sure_shelf_of(alloc: Global, files: &[(&str, &[u8])]) -> SureShelf {
    let mut shelf = SureShelf::new(alloc);
    for file in files {
        let _ = shelf.put_file(file.0, file.1);
    }
    shelf
}

fn sink_of(alloc: Global, failing: &[u32]) -> MemSink {
    let mut sink = MemSink::new(alloc);
    let _ = sink.fail_at(failing);
    sink
}

/// A run of the program. It has no clause: a test looks at what comes.
pub(crate) fn run(
    alloc: Global,
    parts: &[&str],
    files: &[(&str, &[u8])],
    failing: &Failing<'_>,
) -> Ended {
    let words = words(alloc, parts);
    let mut shelf = shelf_of(alloc, files, failing.shelf);
    let mut out = sink_of(alloc, failing.out);
    let mut err = sink_of(alloc, failing.err);
    let status = ijtag(alloc, &words, &mut shelf, &mut out, &mut err);
    Ended {
        status,
        shelf,
        out,
        err,
    }
}
