// Topics and their cases, line by line.
use crate::texts::{Texts, with_row};
use crate::trial::Trial;
use std::alloc::Global;
use std::fmt::Write;
use std::mem;

/// What the text that is read is.
#[derive(Clone, Copy)]
enum Kind {
    Nothing,
    Named,
    File,
    Out,
    Err,
    Holds,
    HoldsAny,
}

/// The text that is read: what it is, its name, what it has so far, and what comes before each line that
/// goes on with it.
#[derive(Drop)]
struct Open {
    kind: Kind,
    name: String,
    text: Vec<u8>,
    front: Option<&'static str>,
}

impl Open {
    fn nothing(alloc: Global) -> Self {
        Open {
            kind: Kind::Nothing,
            name: String::new(alloc),
            text: Vec::new(alloc),
            front: None,
        }
    }
}

/// Reads topics and runs their cases.
#[derive(Drop)]
pub(crate) struct Reader {
    alloc: Global,
    texts: Texts,
    open: Open,
    trial: Trial,
    cases: u32,
    differ: u32,
    report: String,
}

impl Reader {
    pub(crate) fn new(alloc: Global) -> Self {
        Reader {
            alloc,
            texts: Texts::new(alloc),
            open: Open::nothing(alloc),
            trial: Trial::new(alloc),
            cases: 0,
            differ: 0,
            report: String::new(alloc),
        }
    }

    /// Whether a case differs.
    pub(crate) fn differ(&self) -> bool {
        self.differ > 0
    }

    /// What is to be printed since the last call.
    pub(crate) fn report(&mut self) -> String {
        mem::replace(&mut self.report, String::new(self.alloc))
    }

    /// Adds the last line of the report.
    pub(crate) fn totals(&mut self) {
        let (cases, differ) = (self.cases, self.differ);
        let _ = writeln!(self.report, "{cases} cases, {differ} differ");
    }

    /// A topic that can't be read differs.
    pub(crate) fn missing(&mut self, topic: &str) {
        self.differ = self.differ.saturating_add(1);
        let _ = writeln!(self.report, "{topic} can't be read");
    }

    /// Runs the cases of a topic. What is before the first one names texts.
    pub(crate) fn topic(&mut self, topic: &str, text: &str) {
        let before = self.cases;
        for case in text.split("\ncase ") {
            self.case(case);
        }
        let count = self.cases.saturating_sub(before);
        let _ = writeln!(self.report, "{topic}: {count} cases");
    }

    /// Runs a case for each of its rows, or once where it has none. Its first line is its title.
    fn case(&mut self, case: &str) {
        let mut rows = 0u32;
        for line in case.lines() {
            if let Some(row) = line.strip_prefix("  row ") {
                self.row(case, row);
                rows = rows.saturating_add(1);
            }
        }
        if rows == 0 {
            self.row(case, "");
        }
    }

    /// Runs a case for a row.
    fn row(&mut self, case: &str, row: &str) {
        for line in case.lines().skip(1) {
            match with_row(self.alloc, line, row) {
                Ok(line) => self.line(line.as_str()),
                Err(_) => self.note_malformed("out of memory"),
            }
        }
        self.close();
        self.trial.settle();
        let trial = mem::replace(&mut self.trial, Trial::new(self.alloc));
        if trial.runs > 0 {
            self.cases = self.cases.saturating_add(1);
        }
        if !trial.told.is_empty() {
            self.differ = self.differ.saturating_add(1);
            let title = case.lines().next().unwrap_or("");
            let told = trial.told.as_str();
            let _ = write!(self.report, "differs: {title}: {row}\n{told}");
        }
    }

    /// Tells that a case isn't written as it should be.
    fn note_malformed(&mut self, what: &str) {
        let _ = writeln!(self.trial.told, "  {what}");
    }

    /// Reads a line of a case.
    fn line(&mut self, line: &str) {
        if let Some(front) = self.open.front
            && let Some(text) = line.strip_prefix(front)
        {
            return self.more(text);
        }
        self.close();
        let line = line.trim_start();
        let (first, others) = line.split_once(' ').unwrap_or((line, ""));
        match first {
            "text" => self.open(Kind::Named, others, "  "),
            "file" => self.open(Kind::File, others, "    "),
            "out" => self.open(Kind::Out, others, "    "),
            "err" => self.open(Kind::Err, others, "    "),
            "holds" => self.open(Kind::Holds, others, "    "),
            "status" => self.trial.status = others.parse::<u8>().unwrap_or(255),
            "run" => self.run(others),
            "row" | "" => {}
            _ => self.other(line),
        }
    }

    /// Any other line is a comment.
    fn other(&mut self, line: &str) {
        if !line.starts_with('#') {
            self.note_malformed(line);
        }
    }

    /// Adds to the text that is read.
    fn fill(&mut self, text: &str) {
        if !self.texts.fill(text, &mut self.open.text) {
            self.note_malformed(text);
        }
    }

    /// Adds a line to the text that is read. It has a line feed, but where it is one name.
    fn more(&mut self, line: &str) {
        self.fill(line);
        let is_name = line.starts_with('<') && line.ends_with('>') && !line.contains(' ');
        if !is_name {
            let _ = self.open.text.push(b'\n');
        }
    }

    /// Begins to read a text.
    fn open(&mut self, kind: Kind, line: &str, front: &'static str) {
        let Some((name, text)) = line.split_once('=') else {
            let _ = self.open.name.push_str(line);
            self.open.kind = Kind::HoldsAny;
            return;
        };
        let _ = self.open.name.push_str(name.trim_end());
        self.open.kind = kind;
        if text.is_empty() {
            self.open.front = Some(front);
        } else {
            self.fill(text.strip_prefix(' ').unwrap_or(text));
        }
    }

    /// Ends the text that is read.
    fn close(&mut self) {
        let open = mem::replace(&mut self.open, Open::nothing(self.alloc));
        match open.kind {
            Kind::Nothing => {}
            Kind::Named => self.texts.name(open.name.as_str(), open.text.as_slice()),
            Kind::File => self.trial.file(open.name.as_str(), open.text.as_slice()),
            Kind::Out => self.trial.out = open.text,
            Kind::Err => self.trial.err = open.text,
            Kind::Holds => self.trial.holds(open.name.as_str(), open.text.as_slice()),
            Kind::HoldsAny => self.trial.holds_any(open.name.as_str()),
        }
    }

    /// Runs the program with the words of a line.
    fn run(&mut self, line: &str) {
        let mut words = Vec::new(self.alloc);
        for part in line.split_whitespace() {
            let mut bytes = Vec::new(self.alloc);
            if !self.texts.fill(part, &mut bytes) {
                self.note_malformed(part);
            }
            if let Ok(word) = String::from_utf8(bytes) {
                let _ = words.push(word);
            }
        }
        self.trial.run(&words);
    }
}
