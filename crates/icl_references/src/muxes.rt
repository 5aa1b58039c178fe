// The rows of a multiplexer.
ghost use Rattle.std.specs.Prelude.{length, map, Ok};
ghost use Rattle.ij_text.specs.Options.{same};
ghost use Rattle.ij_text.specs.Numbers.{tern_bits};
ghost use Rattle.icl_lexer.specs.Views.{seen_expr, seen_few, seen_sig, seen_row};
ghost use Rattle.icl_declarations.specs.Faults.{Gives, each};
ghost use Rattle.icl_declarations.specs.Widths.{value_in};
ghost use Rattle.icl_references.specs.Muxes.{mux_role, row_in};
ghost use Rattle.icl_references.specs.Roles.{seen_body, seen_row as seen_choice};
ghost use Rattle.icl_references.specs.Tables.{IsHere, frames_of, here_in};

use crate::hier::{Body, Ref};
use crate::overlaps::{Row, some_meet};
use crate::signals::{scan_signal, select_signals};
use crate::tables::Tables;
use icl_declarations::{ElabFault, value_in};
use icl_lexer::{Expr, MuxRow, OneOrMore, Sig};
use ij_bits::{List, Tern};
use ij_runs::Runs;
use ij_text::Place;
use std::alloc::Global;

/// The values of a row, each as wide as the select.
fn row_values(
    alloc: Global,
    tables: &Tables,
    here: u32,
    at: Place,
    width: u32,
    values: &[OneOrMore<Expr>],
) -> Result<List<Tern>, ElabFault>
    requires { IsHere tables.now here }
    ensures { Gives (λ all. map tern_bits all.items) result (each
        (value_in (here_in tables.now here).frame.params at width) (map (seen_few seen_expr) values.now)) }
{
    let mut all = List::new(alloc);
    for value in values {
        let bits = value_in(alloc, tables.params(here), value.as_slice(), width, at)?;
        all.push(bits)?;
    }
    Ok(all)
}

/// A row.
#[tactic(auto, unfolding(crate::specs::Muxes::row_in))]
fn row_in(
    alloc: Global,
    tables: &Tables,
    here: u32,
    at: Place,
    width: u32,
    row: &MuxRow,
) -> Result<Row, ElabFault>
    requires { IsHere tables.now here }
    ensures { Gives seen_choice result
        (row_in (frames_of tables.now) (here_in tables.now here) at width (seen_row row.now)) }
{
    let values = row_values(alloc, tables, here, at, width, row.values.as_slice())?;
    let source = scan_signal(alloc, tables, here, &row.source)?;
    Ok((values, source))
}

/// The rows in the order of the text.
fn rows_in(
    alloc: Global,
    tables: &Tables,
    here: u32,
    at: Place,
    width: u32,
    rows: &[MuxRow],
) -> Result<List<Row>, ElabFault>
    requires { IsHere tables.now here }
    ensures { Gives (λ all. map seen_choice all.items) result
        (each (row_in (frames_of tables.now) (here_in tables.now here) at width) (map seen_row rows.now)) }
{
    let mut all = List::new(alloc);
    for row in rows {
        let choice = row_in(alloc, tables, here, at, width, row)?;
        all.push(choice)?;
    }
    Ok(all)
}

/// How many bits select a row.
fn select_width(select: &Runs<Ref>) -> Result<u32, ElabFault>
    ensures { Gives same result (Ok (length select.now.items)) }
{
    match u32::try_from(select.len()) {
        Ok(width) => Ok(width),
        Err(_) => Err(ElabFault::OutOfMemory),
    }
}

/// A multiplexer (IEEE 1687-2014, ICL: `ScanMux`) at the place of its item: the bits that select a row, and
/// the rows, no two of which match one value. An x of a row matches 0 and 1. `RowsOverlap` where two rows
/// match one value.
#[tactic(auto, unfolding(crate::specs::Muxes::mux_role))]
pub fn mux_role(
    alloc: Global,
    tables: &Tables,
    here: u32,
    at: Place,
    select: &[Sig],
    rows: &[MuxRow],
) -> Result<Body, ElabFault>
    requires { IsHere tables.now here }
    ensures { Gives seen_body result (mux_role (frames_of tables.now) (here_in tables.now here) at
        (map seen_sig select.now) (map seen_row rows.now)) }
{
    let select = select_signals(alloc, tables, here, at, select)?;
    let width = select_width(&select)?;
    let rows = rows_in(alloc, tables, here, at, width, rows)?;
    if some_meet(alloc, rows.as_slice())? {
        return Err(ElabFault::RowsOverlap { at });
    }
    Ok(Body::Mux { select, rows })
}
