// A case while it is run.
use ij_io::{MemShelf, MemSink};
use ijtag_core::ijtag;
use std::alloc::Global;
use std::fmt::Write;

/// How a run ended, and what it printed.
#[derive(Drop)]
struct Answer {
    status: u8,
    out: MemSink,
    err: MemSink,
}

/// A run of the program. It has no clause: what comes is compared.
fn run(alloc: Global, words: &Vec<String>, files: &mut MemShelf) -> Answer {
    let mut out = MemSink::new(alloc);
    let mut err = MemSink::new(alloc);
    let status = ijtag(alloc, words, files, &mut out, &mut err);
    Answer {
        status: status.code(),
        out,
        err,
    }
}

/// Tells of a text that isn't the one that is wanted.
fn tell_text(told: &mut String, what: &str, found: Option<&[u8]>, wanted: Option<&[u8]>) {
    if found == wanted {
        return;
    }
    let _ = match found {
        Some(found) => writeln!(told, "  {what} found: {}", found.escape_ascii()),
        None => writeln!(told, "  {what} isn't there"),
    };
    let _ = match wanted {
        Some(wanted) => writeln!(told, "  {what} wanted: {}", wanted.escape_ascii()),
        None => writeln!(told, "  {what} isn't wanted"),
    };
}

/// Tells of a status that isn't the one that is wanted.
fn tell_status(told: &mut String, found: u8, wanted: u8) {
    if found != wanted {
        let _ = writeln!(told, "  status found: {found}\n  status wanted: {wanted}");
    }
}

/// Tells of each file that isn't the one that is wanted.
fn tell_files(told: &mut String, names: &[String], found: &MemShelf, wanted: &MemShelf) {
    for name in names {
        let name = name.as_str();
        tell_text(told, name, found.file(name), wanted.file(name));
    }
}

/// A case: its files, those that are wanted, and its last run with what is wanted of that.
#[derive(Drop)]
pub(crate) struct Trial {
    alloc: Global,
    files: MemShelf,
    wanted: MemShelf,
    names: Vec<String>,
    answer: Option<Answer>,
    pub runs: u32,
    pub status: u8,
    pub out: Vec<u8>,
    pub err: Vec<u8>,
    /// What differs.
    pub told: String,
}

impl Trial {
    pub(crate) fn new(alloc: Global) -> Self {
        Trial {
            alloc,
            files: MemShelf::new(alloc),
            wanted: MemShelf::new(alloc),
            names: Vec::new(alloc),
            answer: None,
            runs: 0,
            status: 0,
            out: Vec::new(alloc),
            err: Vec::new(alloc),
            told: String::new(alloc),
        }
    }

    /// Notes a name whose file is looked at.
    fn look_at(&mut self, name: &str) {
        if let Ok(name) = String::from_str(self.alloc, name) {
            let _ = self.names.push(name);
        }
    }

    /// Puts a file there.
    pub(crate) fn file(&mut self, name: &str, text: &[u8]) {
        self.settle();
        self.look_at(name);
        let _ = self.files.put_file(name, text);
        let _ = self.wanted.put_file(name, text);
    }

    /// The last run is to have written this.
    pub(crate) fn holds(&mut self, name: &str, text: &[u8]) {
        self.look_at(name);
        let _ = self.wanted.put_file(name, text);
    }

    /// The last run is to have written a file.
    pub(crate) fn holds_any(&mut self, name: &str) {
        match self.files.file(name) {
            Some(text) => {
                let _ = self.wanted.put_file(name, text);
            }
            None => tell_text(&mut self.told, name, None, Some(b"any")),
        }
    }

    /// Runs the program.
    pub(crate) fn run(&mut self, words: &Vec<String>) {
        self.settle();
        for word in words {
            self.look_at(word.as_str());
        }
        self.runs = self.runs.saturating_add(1);
        self.answer = Some(run(self.alloc, words, &mut self.files));
    }

    /// Compares what the last run answered and left, if that isn't done.
    pub(crate) fn settle(&mut self) {
        let Some(answer) = self.answer.take() else {
            return;
        };
        tell_status(&mut self.told, answer.status, self.status);
        tell_text(
            &mut self.told,
            "output",
            Some(answer.out.bytes()),
            Some(self.out.as_slice()),
        );
        tell_text(
            &mut self.told,
            "error stream",
            Some(answer.err.bytes()),
            Some(self.err.as_slice()),
        );
        tell_files(
            &mut self.told,
            self.names.as_slice(),
            &self.files,
            &self.wanted,
        );
        self.status = 0;
        self.out.clear();
        self.err.clear();
    }
}
