// The blocks of a table file, line by line.
ghost use Rattle.std.specs.Prelude.{◌≡◌, ◌+◌, ◌^◌, ◌<◌, ◌≤◌, ◌++◌, ◌∷◌, [], List, map, length, is_some};
ghost use Rattle.std.specs.Prelude.{option_map, IfOk, IfSome, OnOk, MatchOption, Ok, Err, None, Some, false};
ghost use Rattle.ij_text.specs.Numbering.{number_in};
ghost use Rattle.ij_text.specs.declared.Place.{Place};
ghost use Rattle.ij_text.specs.Parts.{split};
ghost use Rattle.instruments.specs.Seen.{seen_model};
ghost use Rattle.table_lines.specs.Reading.{texts};
ghost use Rattle.table_lines.specs.Said.{instrument};
ghost use Rattle.table_lines.specs.SeenSaid.{seen_said};
ghost use Rattle.table_file.specs.Small.{IsSmall};
ghost use Rattle.table_file.specs.Answers.{GivesBlock, GivesTable, IsSoFar, open_path, seen_block};
ghost use Rattle.table_file.specs.Answers.{seen_so_far};
ghost use Rattle.table_file.specs.Tables.{empty, seen_table, rank, width_fault, limit_fault, with_line};
ghost use Rattle.table_file.specs.Tables.{after_line, block_line, new_block, put_block, next_line};

use crate::fault::TableFault;
use crate::growing::with_line;
use crate::limits::{limit_fault, rank};
use crate::names::name_fault;
use crate::table::Table;
use crate::widths::width_fault;
use ij_bits::{List, OutOfMemory};
use ij_text::{Name, Names, Place, name_of};
use instruments::Model;
use std::alloc::Global;
use table_lines::{SaidLine, instrument, read_line_of_block};

/// A block that isn't ended: the kind of its last line, and what its lines said.
#[derive(Drop)]
pub(crate) struct Block {
    pub path: List<Name>,
    pub at: Place,
    pub rank: u32,
    pub model: Model,
}

/// What comes after some lines: the paths of all blocks, whole tables, and a block that isn't ended.
#[derive(Drop)]
pub(crate) struct ReadBlocks {
    pub paths: Names,
    pub tables: List<Table>,
    pub block: Option<Block>,
}

fn empty_model(alloc: Global) -> Model
    ensures { seen_model result ≡ empty }
{
    Model {
        words: List::new(alloc),
        mem: None,
        ins: List::new(alloc),
        outs: List::new(alloc),
        change: List::new(alloc),
        run: List::new(alloc),
    }
}

fn names_of(alloc: Global, words: &[&[u8]]) -> Result<List<Name>, OutOfMemory>
    ensures { IfOk result (λ names. map (λ name. name.items) names.items ≡ texts words.now) }
{
    let mut names = List::new(alloc);
    for word in words {
        names.push(name_of(alloc, word)?)?;
    }
    Ok(names)
}

/// Enters the path of a block; `true` where it stood there before.
fn insert_path(alloc: Global, paths: &mut Names, text: &[u8]) -> Result<bool, OutOfMemory>
    requires { length paths.old + 1 < 2 ^ 32 }
    ensures value { IfOk result (λ twice. twice ≡ is_some (number_in paths.old text.now)) }
    ensures paths { IfOk result (λ twice. twice ≡ false → paths.new ≡ paths.old ++ text.now ∷ []) }
{
    let name = name_of(alloc, text)?;
    if paths.find(&name).is_some() {
        return Ok(true);
    }
    paths.intern(&name)?;
    Ok(false)
}

/// A block of a new path.
fn new_block(
    alloc: Global,
    paths: &mut Names,
    at: Place,
    words: &[&[u8]],
) -> Result<Block, TableFault>
    requires { length paths.old + 1 < 2 ^ 32 }
    ensures value { GivesBlock paths.old at (texts words.now) result }
    ensures paths { IfOk result
        (λ b. map (split 46) paths.new ≡ map (split 46) paths.old ++ (seen_block b).path ∷ []) }
    ensures more { IfOk result (λ b. length paths.new ≤ length paths.old + 1) }
    ensures small { IfOk result (λ b. IsSmall (seen_model b.model)) }
{
    let Some(path) = instrument(alloc, words)? else {
        return Err(TableFault::TableSyntax { at });
    };
    if insert_path(alloc, paths, path.text)? {
        return Err(TableFault::TableTwice { at });
    }
    Ok(Block {
        path: names_of(alloc, &path.names)?,
        at,
        rank: 0,
        model: empty_model(alloc),
    })
}

/// What is at fault in a line of a block.
fn line_fault(at: Place, b: &Block, l: &SaidLine) -> Option<TableFault>
    requires { IsSmall (seen_model b.now.model) }
    ensures value { MatchOption result (after_line at (seen_block b.now) (seen_said l.now) ≡ Ok
        (record (seen_block b.now) {
          rank = rank (seen_said l.now);
          model = with_line (seen_model b.now.model)
              (seen_said l.now);
        })) (λ fault. after_line at (seen_block b.now) (seen_said l.now) ≡ Err fault) }
    ensures width { result ≡ None → width_fault (seen_model b.now.model) (seen_said l.now) ≡ false }
    ensures limit { result ≡ None → limit_fault (seen_model b.now.model) (seen_said l.now) ≡ false }
{
    if rank(l) < b.rank {
        return Some(TableFault::TableSyntax { at });
    }
    if name_fault(&b.model, l) {
        return Some(TableFault::TableName { at });
    }
    if width_fault(&b.model, l) {
        return Some(TableFault::TableWidth { at });
    }
    if limit_fault(&b.model, l) {
        return Some(TableFault::TableLimit { at });
    }
    None
}

/// Adds a line to a block.
fn after_line(alloc: Global, at: Place, b: &mut Block, l: &SaidLine) -> Result<(), TableFault>
    requires { IsSmall (seen_model b.old.model) }
    ensures value { GivesTable (λ _. seen_block b.new) result
        (after_line at (seen_block b.old) (seen_said l.now)) }
    ensures path { OnOk result ((seen_block b.new).path ≡ (seen_block b.old).path) }
    ensures small { OnOk result (IsSmall (seen_model b.new.model)) }
{
    if let Some(fault) = line_fault(at, b, l) {
        return Err(fault);
    }
    b.rank = rank(l);
    Ok(with_line(alloc, &mut b.model, l)?)
}

fn block_line(
    alloc: Global,
    second: bool,
    b: &mut Block,
    at: Place,
    words: &[&[u8]],
) -> Result<(), TableFault>
    requires { IsSmall (seen_model b.old.model) }
    ensures value { GivesTable (λ _. seen_block b.new) result
        (block_line second (seen_block b.old) (record { at = at; words = texts words.now })) }
    ensures path { OnOk result ((seen_block b.new).path ≡ (seen_block b.old).path) }
    ensures small { OnOk result (IsSmall (seen_model b.new.model)) }
{
    match read_line_of_block(alloc, second, words)? {
        Some(l) => after_line(alloc, at, b, &l),
        None => Err(TableFault::TableSyntax { at }),
    }
}

/// The line `end` makes a table of a block; a block that goes on is given back.
fn put_block(tables: &mut List<Table>, b: Block) -> Result<Option<Block>, OutOfMemory>
    ensures value { IfOk result (λ left. put_block (map seen_table tables.old.items) (Ok (seen_block b))
        ≡ Ok (record { tables = map seen_table tables.new.items; block = option_map seen_block left })) }
    ensures paths { IfOk result (λ left. map (λ t. t.path) (map seen_table tables.new.items) ++ open_path left
        ≡ map (λ t. t.path) (map seen_table tables.old.items) ++ (seen_block b).path ∷ []) }
    ensures same { IfOk result (λ left. IfSome left (λ o. o ≡ b)) }
{
    if b.rank != 6 {
        return Ok(Some(b));
    }
    tables.push(Table {
        path: b.path,
        at: b.at,
        model: b.model,
    })?;
    Ok(None)
}

/// The line that begins a block.
fn first_line(
    alloc: Global,
    so_far: &mut ReadBlocks,
    at: Place,
    words: &[&[u8]],
) -> Result<(), TableFault>
    requires listed { map (split 46) so_far.old.paths
        ≡ map (λ t. t.path) (map seen_table so_far.old.tables.items) }
    requires few { length so_far.old.paths + 1 < 2 ^ 32 }
    ensures value { GivesTable (λ _. seen_so_far so_far.new) result
        (put_block (map seen_table so_far.old.tables.items)
        (new_block at (map seen_table so_far.old.tables.items) (instrument (texts words.now)))) }
    ensures still { OnOk result (IsSoFar so_far.new) }
    ensures more { OnOk result (length so_far.new.paths ≤ length so_far.old.paths + 1) }
{
    let block = new_block(alloc, &mut so_far.paths, at, words)?;
    so_far.block = put_block(&mut so_far.tables, block)?;
    Ok(())
}

/// One more line of a block.
fn more_lines(
    alloc: Global,
    second: bool,
    so_far: &mut ReadBlocks,
    block: Block,
    at: Place,
    words: &[&[u8]],
) -> Result<(), TableFault>
    requires listed { map (split 46) so_far.old.paths
        ≡ map (λ t. t.path) (map seen_table so_far.old.tables.items) ++ (seen_block block).path ∷ [] }
    requires small { IsSmall (seen_model block.model) }
    ensures value { GivesTable (λ _. seen_so_far so_far.new) result
        (put_block (map seen_table so_far.old.tables.items)
        (block_line second (seen_block block) (record { at = at; words = texts words.now }))) }
    ensures still { OnOk result (IsSoFar so_far.new) }
    ensures paths { OnOk result (so_far.new.paths ≡ so_far.old.paths) }
{
    let mut block = block;
    block_line(alloc, second, &mut block, at, words)?;
    so_far.block = put_block(&mut so_far.tables, block)?;
    Ok(())
}

/// One more line.
pub(crate) fn next_line(
    alloc: Global,
    second: bool,
    so_far: &mut ReadBlocks,
    at: Place,
    words: &[&[u8]],
) -> Result<(), TableFault>
    requires so_far { IsSoFar so_far.old }
    requires few { length so_far.old.paths + 1 < 2 ^ 32 }
    ensures value { GivesTable (λ _. seen_so_far so_far.new) result (next_line second (seen_so_far
        so_far.old).tables (seen_so_far so_far.old).block (record { at = at; words = texts words.now })) }
    ensures still { OnOk result (IsSoFar so_far.new) }
    ensures more { OnOk result (length so_far.new.paths ≤ length so_far.old.paths + 1) }
{
    match so_far.block.take() {
        None => first_line(alloc, so_far, at, words),
        Some(b) => more_lines(alloc, second, so_far, b, at, words),
    }
}
