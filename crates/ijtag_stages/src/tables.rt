// The instruments' tables.
ghost use Rattle.std.specs.Prelude.{◌≤◌, length, All, IfOk};
ghost use Rattle.instruments.specs.Models.{IsModel};
ghost use Rattle.instruments.specs.Seen.{seen_model};
ghost use Rattle.table_file.specs.Answers.{seen_tables};
ghost use Rattle.ijtag_stages.specs.Follows.{Follows, IsToldAs};
ghost use Rattle.ijtag_stages.specs.TablesText.{tables_text, tables_fault};

use crate::refusal::{Stage, StageFault, refused_at};
use bench_file::{Table, TableFault};
use ij_bits::List;
use std::alloc::Global;

/// How a fault is reported.
fn refusal_of(alloc: Global, fault: TableFault) -> StageFault
    ensures { IsToldAs (tables_fault fault) result }
{
    match fault {
        TableFault::TableSyntax { at } => refused_at(alloc, Stage::Tables, b"TableSyntax", at),
        TableFault::TableName { at } => refused_at(alloc, Stage::Tables, b"TableName", at),
        TableFault::TableWidth { at } => refused_at(alloc, Stage::Tables, b"TableWidth", at),
        TableFault::TableLimit { at } => refused_at(alloc, Stage::Tables, b"TableLimit", at),
        TableFault::TableTwice { at } => refused_at(alloc, Stage::Tables, b"TableTwice", at),
        TableFault::OutOfMemory => StageFault::OutOfMemory,
    }
}

/// The tables of a text. Where a line is at fault, the fault says where and why.
#[tactic(auto, unfolding(crate::specs::TablesText::tables_text))]
pub fn read_tables(alloc: Global, text: &[u8]) -> Result<List<Table>, StageFault>
    requires { length text.now ≤ 134217728 }
    ensures follows { Follows (tables_text text.now) seen_tables result }
    ensures models { IfOk result (λ ts. All (λ t. IsModel (seen_model t.model)) ts.items) }
{
    match bench_file::read_tables(alloc, text) {
        Ok(tables) => Ok(tables),
        Err(fault) => Err(refusal_of(alloc, fault)),
    }
}
