// The texts of cases.
use std::alloc::{AllocError, Global};
use std::collections::BTreeMap;

/// What stands for the parts of a row.
const PARTS: [&str; 9] = [
    "<1>", "<2>", "<3>", "<4>", "<5>", "<6>", "<7>", "<8>", "<9>",
];

/// A line with the parts of a row in their places.
pub(crate) fn with_row(alloc: Global, line: &str, row: &str) -> Result<String, AllocError> {
    let mut filled = String::from_str(alloc, line)?;
    for (name, part) in PARTS.iter().zip(row.split(" => ")) {
        filled = filled.replace(alloc, *name, part)?;
    }
    Ok(filled)
}

/// Adds bytes. Those that find no memory are missing, and then the case differs.
fn put(bytes: &[u8], into: &mut Vec<u8>) {
    let _ = into.extend_from_slice(bytes);
}

/// What a hexadecimal digit counts, and 0 where there is another character.
fn digit(byte: u8) -> u8 {
    match byte {
        b'0'..=b'9' => byte - b'0',
        b'a'..=b'f' => byte - b'a' + 10,
        _ => 0,
    }
}

/// Adds what comes after a `\`: the byte that its first characters say, and the others.
fn put_escape(part: &[u8], into: &mut Vec<u8>) {
    let (byte, others) = match part {
        [b'n', others @ ..] => (b'\n', others),
        [b't', others @ ..] => (b'\t', others),
        [b'r', others @ ..] => (b'\r', others),
        [b'x', high, low, others @ ..] => (digit(*high).wrapping_mul(16) | digit(*low), others),
        _ => (b'\\', part),
    };
    put(&[byte], into);
    put(others, into);
}

/// Adds a text that names no other one.
fn put_plain(text: &str, into: &mut Vec<u8>) {
    let (first, others) = match text.split_once('\\') {
        Some((first, others)) => (first, others),
        None => return put(text.as_bytes(), into),
    };
    put(first.as_bytes(), into);
    for part in others.split('\\') {
        put_escape(part.as_bytes(), into);
    }
}

/// Adds this many times a text that names no other one.
fn put_times(alloc: Global, count: u32, text: &str, into: &mut Vec<u8>) {
    let mut once = Vec::new(alloc);
    put_plain(text, &mut once);
    for _ in 0..count {
        put(once.as_slice(), into);
    }
}

/// The texts that cases name.
#[derive(Drop)]
pub(crate) struct Texts {
    alloc: Global,
    named: BTreeMap<String, Vec<u8>>,
}

impl Texts {
    pub(crate) fn new(alloc: Global) -> Self {
        Texts {
            alloc,
            named: BTreeMap::new(alloc),
        }
    }

    /// Names a text.
    pub(crate) fn name(&mut self, name: &str, text: &[u8]) {
        if let Ok(key) = String::from_str(self.alloc, name)
            && let Ok(text) = text.to_vec(self.alloc)
        {
            let _ = self.named.insert(key, text);
        }
    }

    /// Adds the text of a name, or of this many times a text; tells whether there is one.
    fn put_named(&self, name: &str, into: &mut Vec<u8>) -> bool {
        if let Some((count, text)) = name.split_once(" * ") {
            put_times(self.alloc, count.parse::<u32>().unwrap_or(0), text, into);
            return true;
        }
        match self.named.get(name) {
            Some(text) => {
                put(text.as_slice(), into);
                true
            }
            None => false,
        }
    }

    /// Adds a text, with those that it names in their places; tells whether all of them are there.
    pub(crate) fn fill(&self, text: &str, into: &mut Vec<u8>) -> bool {
        let mut known = true;
        for part in text.split('<') {
            match part.split_once('>') {
                Some((name, plain)) => {
                    known = self.put_named(name, into) && known;
                    put_plain(plain, into);
                }
                None => put_plain(part, into),
            }
        }
        known
    }
}
