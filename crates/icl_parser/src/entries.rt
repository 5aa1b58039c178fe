// What comes after others of its kind.
ghost use Rattle.std.specs.Prelude.{◌<◌, ◌≤◌, IfOk, length};
ghost use Rattle.ij_bits.specs.Room.{seen_list};
ghost use Rattle.ij_text.specs.Symbol.{appended};
ghost use Rattle.icl_expressions.specs.Seen.{seen_read, Gives};
ghost use Rattle.icl_expressions.specs.Reading.{Reading, Shrinks, read_put, more, read_many, read_braced};

use icl_expressions::{Parsed, ReadStop, is_next_not_close, push_parsed, read_mark};
use icl_lexer::Cursor;
use ij_bits::{List, pair_if_ok};
use std::alloc::Global;

/// What comes after others of its kind, without a mark between them.
pub(crate) trait Entry: Sized {
    /// The entry without where it lies in memory.
    ghost Plain: { Type 0 };

    ghost view: { Self → Plain };

    /// How it is read.
    ghost reader: { Reading Plain };

    /// Reads it.
    fn read<'a>(alloc: Global, tokens: Cursor<'a>) -> Result<Parsed<'a, Self>, ReadStop>
        ensures shorter { IfOk result (λ r. length r.rest < length tokens.entry) }
        ensures gives { Gives (seen_read view) result (reader tokens.entry) };
}

/// Entries with the next one.
pub(crate) fn read_next_entry<'a, T: Entry + Drop>(
    alloc: Global,
    entries: Parsed<'a, List<T>>,
) -> Result<Parsed<'a, List<T>>, ReadStop>
    ensures shorter { IfOk result (λ r. length r.rest < length entries.entry.rest) }
    ensures gives { Gives (seen_read (seen_list T.view)) result
        (read_put T.reader appended (seen_list T.view entries.entry.value) entries.entry.rest) }
{
    let (values, next) = pair_if_ok(entries.value, T::read(alloc, entries.rest))?;
    Ok(push_parsed(values, next)?)
}

/// Entries with those that follow, up to a `}` or the end of the tokens.
pub(crate) fn read_more_entries<'a, T: Entry + Drop>(
    alloc: Global,
    first: Parsed<'a, List<T>>,
) -> Result<Parsed<'a, List<T>>, ReadStop>
    requires { Shrinks T.reader }
    ensures shorter { IfOk result (λ r. length r.rest ≤ length first.entry.rest) }
    ensures gives { Gives (seen_read (seen_list T.view)) result
        (more T.reader (seen_list T.view first.entry.value) first.entry.rest) }
{
    let mut entries = first;
    while is_next_not_close(&entries.rest) {
        entries = read_next_entry(alloc, entries)?;
    }
    Ok(entries)
}

/// Entries up to a `}` or the end of the tokens.
pub(crate) fn read_many<'a, T: Entry + Drop>(
    alloc: Global,
    tokens: Cursor<'a>,
) -> Result<Parsed<'a, List<T>>, ReadStop>
    requires { Shrinks T.reader }
    ensures shorter { IfOk result (λ r. length r.rest ≤ length tokens.entry) }
    ensures gives { Gives (seen_read (seen_list T.view)) result (read_many T.reader tokens.entry) }
{
    let none = Parsed {
        value: List::new(alloc),
        rest: tokens,
    };
    read_more_entries(alloc, none)
}

/// Entries in braces.
pub(crate) fn read_braced<'a, T: Entry + Drop>(
    alloc: Global,
    tokens: Cursor<'a>,
) -> Result<Parsed<'a, List<T>>, ReadStop>
    requires { Shrinks T.reader }
    ensures shorter { IfOk result (λ r. length r.rest < length tokens.entry) }
    ensures gives { Gives (seen_read (seen_list T.view)) result
        (read_braced (read_many T.reader) tokens.entry) }
{
    let open = read_mark(tokens, b'{')?;
    let entries = read_many(alloc, open.rest)?;
    let (value, close) = pair_if_ok(entries.value, read_mark(entries.rest, b'}'))?;
    Ok(Parsed {
        value,
        rest: close.rest,
    })
}
