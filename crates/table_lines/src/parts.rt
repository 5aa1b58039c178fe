// The parts of a row between commas.
ghost use Rattle.std.specs.Prelude.{◌≡◌, ◌+◌, ◌<◌, ◌≤◌, length, IfSome};
ghost use Rattle.table_lines.specs.Reading.{texts};
ghost use Rattle.table_lines.specs.Said.{parts};
ghost use Rattle.table_lines.specs.Parted.{part_length, part_list};

use crate::word::is;

/// Words up to a comma, and those after it, where there is one.
#[derive(Clone, Copy)]
pub(crate) struct LinePart<'w, 'a> {
    pub front: &'w [&'a [u8]],
    pub after: Option<&'w [&'a [u8]]>,
}

/// How many words come before the first comma.
fn part_len(words: &[&[u8]]) -> usize
    ensures value { result ≡ part_length (texts words.now) }
    ensures within { result ≤ length words.now }
{
    let mut n = 0;
    while n < words.len() {
        if is(words[n], b",") {
            return n;
        }
        n += 1;
    }
    n
}

/// The first part of a row.
pub(crate) fn next_part<'w, 'a>(words: &'w [&'a [u8]]) -> LinePart<'w, 'a>
    ensures parts { part_list result ≡ parts (texts words.now) }
    ensures shorter { IfSome result.after (λ rest. length rest.now < length words.now) }
{
    let (front, after) = words.split_at(part_len(words));
    if after.is_empty() {
        return LinePart { front, after: None };
    }
    let (_, rest) = after.split_at(1);
    LinePart {
        front,
        after: Some(rest),
    }
}
