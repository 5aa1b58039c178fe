// What each line of a block says, whatever its names mean.
ghost use Rattle.std.specs.Prelude.{◌≡◌, IfOk, option_map};
ghost use Rattle.table_lines.specs.Reading.{texts};
ghost use Rattle.table_lines.specs.Said.{change_line, run_line, line_by, input_line, word_line, memory_line};
ghost use Rattle.table_lines.specs.Said.{output_line, end_line, line};
ghost use Rattle.table_lines.specs.SeenSaid.{seen_row, seen_said};

use crate::said::{SaidLine, SaidRow, row, slice_words, starts};
use crate::word::{decimal, is};
use ij_bits::OutOfMemory;
use ij_text::is_name;
use std::alloc::Global;

fn input_line<'a>(alloc: Global, words: &[&'a [u8]]) -> Result<Option<SaidLine<'a>>, OutOfMemory>
    ensures { IfOk result (λ l. option_map seen_said l ≡ input_line (texts words.now)) }
{
    match words {
        [name, width] => {
            if !is_name(name) {
                return Ok(None);
            }
            match decimal(alloc, width)? {
                Some(width) => Ok(Some(SaidLine::Input { name, width })),
                None => Ok(None),
            }
        }
        _ => Ok(None),
    }
}

fn word_line<'a>(alloc: Global, words: &[&'a [u8]]) -> Result<Option<SaidLine<'a>>, OutOfMemory>
    ensures { IfOk result (λ l. option_map seen_said l ≡ word_line (texts words.now)) }
{
    match words {
        [name, width, rest @ ..] => {
            if !is_name(name) {
                return Ok(None);
            }
            let Some(width) = decimal(alloc, width)? else {
                return Ok(None);
            };
            match starts(alloc, rest)? {
                Some(starts) => Ok(Some(SaidLine::Word {
                    name,
                    width,
                    starts,
                })),
                None => Ok(None),
            }
        }
        _ => Ok(None),
    }
}

fn memory_line<'a>(alloc: Global, words: &[&'a [u8]]) -> Result<Option<SaidLine<'a>>, OutOfMemory>
    ensures { IfOk result (λ l. option_map seen_said l ≡ memory_line (texts words.now)) }
{
    match words {
        [name, depth, width, rest @ ..] => {
            if !is_name(name) {
                return Ok(None);
            }
            let Some(depth) = decimal(alloc, depth)? else {
                return Ok(None);
            };
            let Some(width) = decimal(alloc, width)? else {
                return Ok(None);
            };
            match starts(alloc, rest)? {
                Some(starts) => Ok(Some(SaidLine::Memory {
                    name,
                    depth,
                    width,
                    starts,
                })),
                None => Ok(None),
            }
        }
        _ => Ok(None),
    }
}

fn output_line<'a>(alloc: Global, words: &[&'a [u8]]) -> Result<Option<SaidLine<'a>>, OutOfMemory>
    ensures { IfOk result (λ l. option_map seen_said l ≡ output_line (texts words.now)) }
{
    match words {
        [name, equals, text] => {
            if !(is_name(name) && is(equals, b"=")) {
                return Ok(None);
            }
            match slice_words(alloc, text)? {
                Some(slice) => Ok(Some(SaidLine::Output { name, slice })),
                None => Ok(None),
            }
        }
        _ => Ok(None),
    }
}

fn end_line<'a>(words: &[&[u8]]) -> Option<SaidLine<'a>>
    ensures { option_map seen_said result ≡ end_line (texts words.now) }
{
    match words {
        [] => Some(SaidLine::End),
        _ => None,
    }
}

fn change_line<'a>(row: Option<SaidRow<'a>>) -> Option<SaidLine<'a>>
    ensures { option_map seen_said result ≡ change_line (option_map seen_row row.entry) }
{
    let row = row?;
    Some(SaidLine::Change(row))
}

fn run_line<'a>(row: Option<SaidRow<'a>>) -> Option<SaidLine<'a>>
    ensures { option_map seen_said result ≡ run_line (option_map seen_row row.entry) }
{
    let row = row?;
    Some(SaidLine::Run(row))
}

/// A line of a block, by its first word and the words after it.
fn line_by<'a>(
    alloc: Global,
    second: bool,
    w: &[u8],
    rest: &[&'a [u8]],
) -> Result<Option<SaidLine<'a>>, OutOfMemory>
    ensures { IfOk result (λ l. option_map seen_said l ≡ line_by second w.now (texts rest.now)) }
{
    if is(w, b"in") {
        return input_line(alloc, rest);
    }
    if is(w, b"word") {
        return word_line(alloc, rest);
    }
    if second && is(w, b"mem") {
        return memory_line(alloc, rest);
    }
    if is(w, b"out") {
        return output_line(alloc, rest);
    }
    if is(w, b"change") {
        let row = row(alloc, second, true, rest)?;
        return Ok(change_line(row));
    }
    if is(w, b"run") {
        let row = row(alloc, second, false, rest)?;
        return Ok(run_line(row));
    }
    if is(w, b"end") {
        return Ok(end_line(rest));
    }
    Ok(None)
}

/// A line of a block.
#[tactic(auto, unfolding(crate::specs::Said::line))]
pub fn read_line_of_block<'a>(
    alloc: Global,
    second: bool,
    words: &[&'a [u8]],
) -> Result<Option<SaidLine<'a>>, OutOfMemory>
    ensures { IfOk result (λ l. option_map seen_said l ≡ line second (texts words.now)) }
{
    match words {
        [w, rest @ ..] => line_by(alloc, second, w, rest),
        [] => Ok(None),
    }
}
