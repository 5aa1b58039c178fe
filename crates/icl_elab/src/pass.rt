// The second pass: what each part of each cell is.
ghost use Rattle.std.specs.Prelude.{◌≡◌, [], map, IfOk, IfErr, OnOk};
ghost use Rattle.icl_declarations.specs.Faults.{Gives, each};
ghost use Rattle.icl_elab.specs.SecondPass.{cell_found, second_pass};
ghost use Rattle.icl_elab.specs.FoundParts.{part_found};
ghost use Rattle.icl_elab.specs.SeenCells.{head_of_member, head_of_placed, heads_of_cells, heads_of_frame};
ghost use Rattle.icl_elab.specs.SeenCells.{seen_cell_parts, seen_pass, seen_placed};
ghost use Rattle.icl_elab.specs.SeenParts.{seen_found};
ghost use Rattle.icl_references.specs.Tables.{AreTables, IsHere, frames_of, here_in, seen_member};

use crate::bindings::Bindings;
use crate::parts::{Found, part_found};
use icl_declarations::ElabFault;
use icl_references::{Member, Part, Tables};
use ij_text::name_of;
use std::alloc::Global;

/// A part in its cell, and what it binds. What its own instance binds it to comes later.
#[derive(Drop)]
pub(crate) struct Placed {
    /// Its number among the parts.
    pub number: u32,
    /// The part.
    pub part: Part,
    /// What it binds.
    pub bound: Bindings,
}

/// The parts of a cell.
#[derive(Drop)]
pub(crate) struct CellParts {
    pub parts: Vec<Placed>,
}

/// What is found at a part, in its cell.
fn placed_part(alloc: Global, m: &Member, found: Found) -> Result<Placed, ElabFault>
    ensures same { IfOk result (λ p. seen_placed p ≡ seen_found found) }
    ensures head { IfOk result (λ p. head_of_placed p ≡ head_of_member (seen_member m.now)) }
    ensures told { IfErr result (λ e. e ≡ ElabFault.OutOfMemory) }
{
    match name_of(alloc, m.item.name.as_slice()) {
        Ok(name) => Ok(Placed {
            number: m.part,
            part: Part {
                name,
                at: m.item.at,
                left: m.bounds.left,
                right: m.bounds.right,
                body: found.body,
                words: found.words,
            },
            bound: found.bound,
        }),
        Err(_) => {
            drop(found);
            Err(ElabFault::OutOfMemory)
        }
    }
}

/// Adds what these parts of this cell are.
fn add_parts(
    alloc: Global,
    tables: &Tables,
    here: u32,
    members: &[Member],
    parts: &mut Vec<Placed>,
) -> Result<(), ElabFault>
    requires here { IsHere tables.now here }
    requires none { parts.old.items ≡ [] }
    ensures heads { OnOk result
        (map head_of_placed parts.new.items ≡ map head_of_member (map seen_member members.now)) }
    ensures gives { Gives (λ u. map seen_placed parts.new.items) result
        (each (part_found (frames_of tables.now) (here_in tables.now here)) (map seen_member members.now)) }
{
    for m in members {
        let found = part_found(alloc, tables, here, m)?;
        let part = placed_part(alloc, m, found)?;
        parts.push(part)?;
    }
    Ok(())
}

/// What these parts of this cell are.
fn parts_found(
    alloc: Global,
    tables: &Tables,
    here: u32,
    members: &[Member],
) -> Result<Vec<Placed>, ElabFault>
    requires { IsHere tables.now here }
    ensures heads { IfOk result
        (λ parts. map head_of_placed parts.items ≡ map head_of_member (map seen_member members.now)) }
    ensures gives { Gives (λ parts. map seen_placed parts.items) result
        (each (part_found (frames_of tables.now) (here_in tables.now here)) (map seen_member members.now)) }
{
    let mut parts = Vec::new(alloc);
    match add_parts(alloc, tables, here, members, &mut parts) {
        Ok(()) => Ok(parts),
        Err(e) => {
            drop(parts);
            Err(e)
        }
    }
}

/// What the parts of this cell are, in the order of the text.
#[tactic(auto, unfolding(crate::specs::SecondPass::cell_found))]
fn cell_found(alloc: Global, tables: &Tables, here: u32) -> Result<CellParts, ElabFault>
    requires { IsHere tables.now here }
    ensures heads { IfOk result
        (λ c. map head_of_placed c.parts.items ≡ heads_of_frame (here_in tables.now here).frame) }
    ensures gives { Gives seen_cell_parts result
        (cell_found (frames_of tables.now) (here_in tables.now here)) }
{
    let parts = parts_found(alloc, tables, here, tables.members(here))?;
    Ok(CellParts { parts })
}

/// Adds what the parts of the cells are, cell by cell.
#[tactic(auto, unfolding(crate::specs::SecondPass::second_pass))]
fn add_cells(alloc: Global, tables: &Tables, cells: &mut Vec<CellParts>) -> Result<(), ElabFault>
    requires tables { AreTables tables.now }
    requires none { cells.old.items ≡ [] }
    ensures heads { OnOk result (heads_of_cells cells.new.items ≡ map heads_of_frame (frames_of tables.now)) }
    ensures gives { Gives (λ u. seen_pass cells.new.items) result (second_pass (frames_of tables.now)) }
{
    for here in 0..tables.len() {
        let cell = cell_found(alloc, tables, here)?;
        cells.push(cell)?;
    }
    Ok(())
}

/// What the parts of the cells are, cell by cell.
pub(crate) fn second_pass(alloc: Global, tables: &Tables) -> Result<Vec<CellParts>, ElabFault>
    requires { AreTables tables.now }
    ensures heads { IfOk result
        (λ cells. heads_of_cells cells.items ≡ map heads_of_frame (frames_of tables.now)) }
    ensures gives { Gives (λ cells. seen_pass cells.items) result (second_pass (frames_of tables.now)) }
{
    let mut cells = Vec::new(alloc);
    match add_cells(alloc, tables, &mut cells) {
        Ok(()) => Ok(cells),
        Err(e) => {
            drop(cells);
            Err(e)
        }
    }
}
