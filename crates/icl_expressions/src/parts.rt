// Parts with a mark between them.
ghost use Rattle.std.specs.Prelude.{◌<◌, ◌≤◌, ℕ, List, [], ◌∷◌, IfOk, length};
ghost use Rattle.ij_text.specs.Symbol.{appended};
ghost use Rattle.icl_lexer.specs.Values.{SeenExpr, SeenSig};
ghost use Rattle.icl_lexer.specs.Views.{bytes_of, seen_expr, seen_few, seen_sig};
ghost use Rattle.icl_expressions.specs.Seen.{seen_read, Gives};
ghost use Rattle.icl_expressions.specs.Reading.{Reading, Shrinks, read_put, read_after, more_parted};
ghost use Rattle.icl_expressions.specs.Reading.{read_parted, read_name, read_value, read_sig};

use crate::reading::{Parsed, begins_mark, read_mark, read_name};
use crate::signals::{read_sig, read_value};
use crate::stop::ReadStop;
use icl_lexer::{Cursor, Expr, OneOrMore, Sig, SmallText};
use std::alloc::Global;

/// A part of a text, several of which may stand with a mark between them.
pub trait Parted: Sized {
    /// The part without where it lies in memory.
    ghost Plain: { Type 0 };

    ghost view: { Self → Plain };

    /// How it is read.
    ghost reader: { Reading Plain };

    /// Reads it.
    fn read<'a>(alloc: Global, tokens: Cursor<'a>) -> Result<Parsed<'a, Self>, ReadStop>
        ensures shorter { IfOk result (λ r. length r.rest < length tokens.entry) }
        ensures gives { Gives (seen_read view) result (reader tokens.entry) };
}

/// Parts with the next one, after a mark.
fn read_next_part<'a, T: Parted + Drop>(
    alloc: Global,
    parts: Parsed<'a, OneOrMore<T>>,
    mark: u8,
) -> Result<Parsed<'a, OneOrMore<T>>, ReadStop>
    ensures shorter { IfOk result (λ r. length r.rest < length parts.entry.rest) }
    ensures gives { Gives (seen_read (seen_few T.view)) result
        (read_put (read_after mark T.reader) appended (seen_few T.view parts.entry.value) parts.entry.rest) }
{
    let at = read_mark(parts.rest, mark)?;
    let next = T::read(alloc, at.rest)?;
    Ok(Parsed {
        value: parts.value.with(alloc, next.value)?,
        rest: next.rest,
    })
}

/// A part with those that follow, each after a mark.
pub(crate) fn read_following<'a, T: Parted + Drop>(
    alloc: Global,
    first: Parsed<'a, T>,
    mark: u8,
) -> Result<Parsed<'a, OneOrMore<T>>, ReadStop>
    requires { Shrinks T.reader }
    ensures shorter { IfOk result (λ r. length r.rest ≤ length first.entry.rest) }
    ensures gives { Gives (seen_read (seen_few T.view)) result
        (more_parted mark T.reader (T.view first.entry.value ∷ []) first.entry.rest) }
{
    let mut parts = Parsed {
        value: OneOrMore::one(first.value),
        rest: first.rest,
    };
    while begins_mark(&parts.rest, mark) {
        parts = read_next_part(alloc, parts, mark)?;
    }
    Ok(parts)
}

/// Parts with a mark between them.
pub fn read_parted<'a, T: Parted + Drop>(
    alloc: Global,
    tokens: Cursor<'a>,
    mark: u8,
) -> Result<Parsed<'a, OneOrMore<T>>, ReadStop>
    requires { Shrinks T.reader }
    ensures shorter { IfOk result (λ r. length r.rest < length tokens.entry) }
    ensures gives { Gives (seen_read (seen_few T.view)) result (read_parted mark T.reader tokens.entry) }
{
    let first = T::read(alloc, tokens)?;
    read_following(alloc, first, mark)
}

// ---- the parts of values and signals

/// A name.
impl Parted for SmallText {
    ghost Plain = { List ℕ };

    ghost view = { bytes_of };

    ghost reader = { read_name };

    fn read<'a>(alloc: Global, tokens: Cursor<'a>) -> Result<Parsed<'a, SmallText>, ReadStop> {
        read_name(alloc, tokens)
    }
}

/// A value.
impl Parted for OneOrMore<Expr> {
    ghost Plain = { List SeenExpr };

    ghost view = { seen_few seen_expr };

    ghost reader = { read_value };

    fn read<'a>(
        alloc: Global,
        tokens: Cursor<'a>,
    ) -> Result<Parsed<'a, OneOrMore<Expr>>, ReadStop> {
        read_value(alloc, tokens)
    }
}

/// A signal.
impl Parted for Sig {
    ghost Plain = { SeenSig };

    ghost view = { seen_sig };

    ghost reader = { read_sig };

    fn read<'a>(alloc: Global, tokens: Cursor<'a>) -> Result<Parsed<'a, Sig>, ReadStop> {
        read_sig(alloc, tokens)
    }
}
