// Paths of names.
ghost use Rattle.std.specs.Prelude.{map, IfOk};
ghost use Rattle.icl_lexer.specs.Views.{bytes_of};
ghost use Rattle.icl_declarations.specs.Faults.{Gives};
ghost use Rattle.icl_references.specs.Names.{path_from};
ghost use Rattle.icl_references.specs.Tables.{IsHere, frames_of, here_in};
ghost use Rattle.icl_references.specs.Targets.{child_named, seen_target, target_named};

use crate::tables::{Member, Tables};
use icl_declarations::ElabFault;
use icl_lexer::SmallText;
use ij_text::Place;
use std::alloc::Global;

/// A part of a cell.
#[derive(Clone, Copy, Drop)]
pub(crate) struct CellMember<'a> {
    /// The cell, by its number.
    pub cell: u32,
    /// The part.
    pub member: Member<'a>,
}

/// The cell of an instance by its name.
fn child_named(
    alloc: Global,
    tables: &Tables,
    here: u32,
    at: Place,
    name: &[u8],
) -> Result<u32, ElabFault>
    requires { IsHere tables.now here }
    ensures there { IfOk result (λ child. IsHere tables.now child) }
    ensures gives { Gives (here_in tables.now) result
        (child_named (frames_of tables.now) (here_in tables.now here) at name.now) }
{
    let member = tables.named(alloc, here, at, name)?;
    tables.cell_of_instance(here, at, member.item)
}

/// A part of a cell by its name.
fn target_named<'a>(
    alloc: Global,
    tables: &Tables<'a>,
    here: u32,
    at: Place,
    name: &[u8],
) -> Result<CellMember<'a>, ElabFault>
    requires { IsHere tables.now here }
    ensures { Gives (seen_target tables.now) result (target_named (here_in tables.now here) at name.now) }
{
    let member = tables.named(alloc, here, at, name)?;
    Ok(CellMember { cell: here, member })
}

/// What a path of names leads to from a cell (IEEE 1687-2014, ICL: names with dots between them): each name
/// but the last one is an instance. `NoName` and `WrongKind` at the first name that leads nowhere.
pub(crate) fn path_from<'a>(
    alloc: Global,
    tables: &Tables<'a>,
    here: u32,
    at: Place,
    path: &[SmallText],
) -> Result<CellMember<'a>, ElabFault>
    requires { IsHere tables.now here }
    ensures { Gives (seen_target tables.now) result
        (path_from (frames_of tables.now) (here_in tables.now here) at (map bytes_of path.now)) }
{
    let (last, front) = match path.split_last() {
        Some(parts) => parts,
        None => return Err(ElabFault::WrongKind { at }),
    };
    let mut cell = here;
    for name in front {
        cell = child_named(alloc, tables, cell, at, name.as_slice())?;
    }
    target_named(alloc, tables, cell, at, last.as_slice())
}
