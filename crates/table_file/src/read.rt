// The tables of a file.
ghost use Rattle.std.specs.Prelude.{◌≡◌, ◌+◌, ◌^◌, ◌<◌, ◌≤◌, [], length, All, IfOk, OnOk, IsErr, IsErrOf, Ok};
ghost use Rattle.std.specs.Prelude.{Err, None, Some};
ghost use Rattle.ij_text.specs.declared.Place.{Place};
ghost use Rattle.instruments.specs.Models.{IsModel};
ghost use Rattle.instruments.specs.Seen.{seen_model};
ghost use Rattle.table_lines.specs.Reading.{lines_left, seen_line};
ghost use Rattle.table_file.specs.declared.fault.TableFault.{TableFault};
ghost use Rattle.table_file.specs.Answers.{GivesTable, IsSoFar, seen_so_far, seen_tables};
ghost use Rattle.table_file.specs.Tables.{tables, read_lines, next_line, from_head, no_tables, at_end};

use crate::blocks::{ReadBlocks, next_line as one_more_line};
use crate::fault::TableFault;
use crate::table::Table;
use ij_bits::List;
use ij_text::{Names, Place};
use std::alloc::Global;
use table_lines::{end_place, next_line, version, words};

fn no_blocks(alloc: Global) -> ReadBlocks
    ensures value { seen_so_far result ≡ no_tables }
    ensures paths { result.paths ≡ [] }
    ensures so_far { IsSoFar result }
{
    ReadBlocks {
        paths: Names::new(alloc),
        tables: List::new(alloc),
        block: None,
    }
}

/// After the last line no block may be open.
fn at_end(end: Place, so_far: ReadBlocks) -> Result<List<Table>, TableFault>
    ensures { GivesTable seen_tables result
        (at_end end (seen_so_far so_far).tables (seen_so_far so_far).block) }
{
    let ReadBlocks {
        paths,
        tables,
        block,
    } = so_far;
    drop(paths);
    let is_open = block.is_some();
    drop(block);
    if is_open {
        drop(tables);
        return Err(TableFault::TableSyntax { at: end });
    }
    Ok(tables)
}

/// One more line, read from its text.
fn one_line(
    alloc: Global,
    second: bool,
    so_far: &mut ReadBlocks,
    at: Place,
    text: &[u8],
) -> Result<(), TableFault>
    requires so_far { IsSoFar so_far.old }
    requires few { length so_far.old.paths + 1 < 2 ^ 32 }
    ensures value { GivesTable (λ _. seen_so_far so_far.new) result (next_line second
        (seen_so_far so_far.old).tables (seen_so_far so_far.old).block (seen_line at text.now)) }
    ensures still { OnOk result (IsSoFar so_far.new) }
    ensures more { OnOk result (length so_far.new.paths ≤ length so_far.old.paths + 1) }
{
    let words = words(alloc, text)?;
    one_more_line(alloc, second, so_far, at, &words)
}

fn read_lines(
    alloc: Global,
    second: bool,
    end: Place,
    text: &[u8],
    number: u32,
) -> Result<List<Table>, TableFault>
    requires { number + length text.now + 1 < 2 ^ 32 }
    ensures { GivesTable seen_tables result (read_lines second end no_tables (lines_left number text.now)) }
{
    let mut so_far = no_blocks(alloc);
    let mut rest = text;
    let mut number = number;
    while let Some(line) = next_line(rest, number) {
        one_line(alloc, second, &mut so_far, line.at, line.text)?;
        rest = line.rest;
        number = line.number;
    }
    at_end(end, so_far)
}

fn from_head(alloc: Global, end: Place, text: &[u8]) -> Result<List<Table>, TableFault>
    requires { length text.now + 2 < 2 ^ 32 }
    ensures { GivesTable seen_tables result (from_head end (lines_left 1 text.now)) }
{
    let Some(line) = next_line(text, 1) else {
        return Err(TableFault::TableSyntax { at: end });
    };
    let words = words(alloc, line.text)?;
    match version(&words) {
        Some(second) => read_lines(alloc, second, end, line.rest, line.number),
        None => Err(TableFault::TableSyntax { at: line.at }),
    }
}

#[tactic(auto, unfolding(crate::specs::Tables::tables, table_lines::specs::Lines::lines_of, table_lines::specs::Reading::lines_left))]
fn read(alloc: Global, src: &[u8]) -> Result<List<Table>, TableFault>
    requires { length src.now ≤ 134217728 }
    ensures { GivesTable seen_tables result (tables src.now) }
{
    from_head(alloc, end_place(src), src)
}

/// Reads a file of tables, which say what the instruments of a network do: a line `tables 1` or `tables 2`,
/// and then a block for each instrument.
///
/// Fields are separated by spaces and tabs, `#` starts a comment, and lines without fields are passed over. A
/// block has these lines, in this order of kinds:
///
/// ```text
/// instrument PATH
/// in PORT WIDTH
/// word NAME WIDTH [init NUMBER] [reset NUMBER]
/// mem NAME DEPTH WIDTH [init NUMBER] [reset NUMBER]
/// out PORT = NAME            or  out PORT = NAME[L:R]
/// change [when COND, ..] do SET, ..
/// run [when COND, ..] do SET, ..
/// end
/// ```
///
/// COND is `NAME = NUMBER`, and in a change row also `old NAME = NUMBER` for an input before the change; its
/// number may have x. SET is `WORD = AMOUNT` or, in version 2, `MEM[NAME] = AMOUNT`; AMOUNT is a number, a
/// name, `NAME + DECIMAL` or `NAME - DECIMAL`, and for a word in version 2 also `MEM[NAME]`. The line `mem`
/// is in version 2 alone, once a block.
///
/// The first line at fault decides what is refused. In one line the order of the causes is `TableSyntax`,
/// `TableName`, `TableWidth`, `TableLimit`; a second block for a path is `TableTwice`. What is read takes
/// memory by `alloc`; where there is none, the answer is `OutOfMemory`.
///
/// Each table's model is well formed (`IsModel`, `specs/Models.antt` of `instruments`).
///
/// The text has at most 134,217,728 bytes, as any source text; a longer one must not be given.
pub fn read_tables(alloc: Global, src: &[u8]) -> Result<List<Table>, TableFault>
    requires { length src.now ≤ 134217728 }
    ensures ok { IfOk result (λ ts. tables src.now ≡ Ok (seen_tables ts)) }
    ensures models { IfOk result (λ ts. All (λ t. IsModel (seen_model t.model)) ts.items) }
    ensures refused { (fault : TableFault) → tables src.now ≡ Err fault → IsErr result }
    ensures syntax { (at : Place) → IsErrOf result (TableFault.TableSyntax at)
        → tables src.now ≡ Err (TableFault.TableSyntax at) }
    ensures name { (at : Place) → IsErrOf result (TableFault.TableName at)
        → tables src.now ≡ Err (TableFault.TableName at) }
    ensures width { (at : Place) → IsErrOf result (TableFault.TableWidth at)
        → tables src.now ≡ Err (TableFault.TableWidth at) }
    ensures limit { (at : Place) → IsErrOf result (TableFault.TableLimit at)
        → tables src.now ≡ Err (TableFault.TableLimit at) }
    ensures twice { (at : Place) → IsErrOf result (TableFault.TableTwice at)
        → tables src.now ≡ Err (TableFault.TableTwice at) }
{
    read(alloc, src)
}
