// ICL texts, as the tests read them, and the texts that they compare.
use icl_lexer::{Design, lex};
use icl_parser::parse;
use ij_io::{SureSink, Word, put_words};
use std::alloc::Global;
use std::process::Abort;

/// The design of a text that has one.
pub(crate) fn read(alloc: Global, text: &str) -> Option<Design> {
    let text = text.as_bytes();
    if text.len() > 100_000 {
        return None;
    }
    let Ok(tokens) = lex(text) else {
        return None;
    };
    parse(alloc, text, tokens).ok()
}

/// A text that is written in pieces and then compared. A piece that finds no memory is left out, so that the
/// text isn't the one that is wanted.
#[derive(Drop)]
pub(crate) struct Shown {
    pub sink: SureSink,
}

impl Shown {
    pub(crate) fn new(alloc: Global) -> Self {
        Shown {
            sink: SureSink::new(alloc),
        }
    }

    /// Adds words.
    pub(crate) fn put(&mut self, words: &[Word<'_>]) {
        let _ = put_words(&mut self.sink, words);
    }

    /// Adds bytes.
    pub(crate) fn text(&mut self, bytes: &[u8]) {
        self.put(&[Word::Text(bytes)]);
    }

    /// Adds bytes, and a number after them.
    pub(crate) fn number(&mut self, bytes: &[u8], number: u32) {
        self.put(&[Word::Text(bytes), Word::Number(u64::from(number))]);
    }

    /// Adds bytes, and after them how many there are of something.
    pub(crate) fn count(&mut self, bytes: &[u8], count: usize) {
        self.put(&[Word::Text(bytes), Word::Number(count as u64)]);
    }

    /// Adds a blank, but not at the beginning.
    pub(crate) fn gap(&mut self) {
        if !self.sink.bytes().is_empty() {
            self.text(b" ");
        }
    }

    /// It is the text that is wanted for this case.
    pub(crate) fn check(&self, rt: &impl Abort, case: &str, wanted: &str) {
        let found = self.sink.bytes();
        assert!(rt;
            found == wanted.as_bytes(),
            "{case}\n found: {}\nwanted: {wanted}",
            found.escape_ascii()
        );
    }
}
