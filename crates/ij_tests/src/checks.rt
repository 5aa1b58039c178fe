// Texts that are written in pieces and then compared. A call that finds no memory leaves its piece out, so
// that the text isn't the one that is wanted.

use ij_io::{SureSink, Word, put_words};
use std::process::Abort;

/// Adds words to a text.
pub(crate) fn show(text: &mut SureSink, words: &[Word<'_>]) {
    let _ = put_words(text, words);
}

/// Adds bytes to a text.
pub(crate) fn show_bytes(text: &mut SureSink, bytes: &[u8]) {
    show(text, &[Word::Text(bytes)]);
}

/// Adds a blank to a text that isn't empty.
pub(crate) fn show_gap(text: &mut SureSink) {
    if !text.bytes().is_empty() {
        show_bytes(text, b" ");
    }
}

/// The bytes of a case are those that are wanted.
pub(crate) fn check_bytes(rt: &impl Abort, case: &str, found: &[u8], wanted: &[u8]) {
    assert!(rt;
        found == wanted,
        "{case}\n found: {}\nwanted: {}",
        found.escape_ascii(),
        wanted.escape_ascii()
    );
}

/// The text of a case is the one that is wanted.
pub(crate) fn check_text(rt: &impl Abort, case: &str, found: &SureSink, wanted: &str) {
    check_bytes(rt, case, found.bytes(), wanted.as_bytes());
}
