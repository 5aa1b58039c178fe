// The hierarchy of a design.
ghost use Rattle.std.specs.Prelude.{◌≡◌, ℕ, ◌+◌, ◌<◌, ◌==◌, ◌&&◌, [], map, length, reverse, cond, Some, None};
ghost use Rattle.std.specs.Prelude.{IfOk, IfErr, OnOk};
ghost use Rattle.std.specs.List.{position_from};
ghost use Rattle.std.specs.Option.{option_map};
ghost use Rattle.ij_text.specs.Options.{or_else};
ghost use Rattle.icl_lexer.specs.Views.{seen_design};
ghost use Rattle.icl_frames.specs.Written.{AreWritten};
ghost use Rattle.icl_elab.specs.WellFormed.{IsHierarchy};
ghost use Rattle.icl_declarations.specs.Faults.{Gives};
ghost use Rattle.icl_declarations.specs.Ranges.{width};
ghost use Rattle.icl_frames.specs.SeenFrames.{seen_frame};
ghost use Rattle.icl_references.specs.Names.{is_in};
ghost use Rattle.icl_elab.specs.Hierarchy.{bindings_of, first_ref, hierarchy, is_this_cell, put_together};
ghost use Rattle.icl_elab.specs.Laws.{AreNumbered, AreWired};
ghost use Rattle.icl_elab.specs.Preorder.{AreInstances};
ghost use Rattle.icl_elab.specs.Placing.{part_bindings, cell_with, first_port, rest_ports, home_at, home_in};
ghost use Rattle.icl_elab.specs.Placing.{is_of_cell, made, parent_in, part_with, parts_with, port_of};
ghost use Rattle.icl_elab.specs.Placing.{ports_from, first_ports, other_ports, resolved, seen_cell_ports};
ghost use Rattle.icl_elab.specs.Placing.{seen_ports};
ghost use Rattle.icl_references.specs.Roles.{seen_body, seen_cell, seen_hier, seen_part};
ghost use Rattle.icl_elab.specs.SeenCells.{heads_of_cells, heads_of_frame, seen_pass};
ghost use Rattle.icl_references.specs.Tables.{AreTables, frames_of};

use crate::bindings::Bindings;
use crate::pass::{CellParts, Placed, second_pass};
use icl_declarations::ElabFault;
use icl_frames::{Frame, first_pass};
use icl_lexer::Design;
use icl_references::{Body, Cell, Hier, Part, Ref, Tables};
use ij_bits::{List, OutOfMemory};
use ij_runs::Runs;
use ij_text::{Name, name_of};
use std::alloc::Global;

// ---- where each cell is bound

/// Whether a cell is the parent.
fn is_parent(parent: Option<u32>, cell: u32) -> bool
    ensures { result ≡ is_in parent cell }
{
    match parent {
        Some(parent) => parent == cell,
        None => false,
    }
}

/// Notes that a part of a cell is an instance, if it is one of that cell and none is noted.
fn note_home(tables: &Tables, homes: &mut [Option<usize>], here: u32, child: u32, part: usize)
    requires tables { AreTables tables.now }
    requires long { length homes.old ≡ length (frames_of tables.now) }
    ensures { (c : ℕ) → c < length homes.old → home_at homes.new c ≡ or_else (home_at homes.old c)
        (cond (is_in (parent_in (frames_of tables.now) c) here && child == c) (Some part) None) }
{
    let i = child as usize;
    if i < homes.len() && homes[i].is_none() && is_parent(tables.frame(child).parent, here) {
        homes[i] = Some(part);
    }
}

/// Notes a part of a cell for the cell that it is, if it is an instance.
fn note_part(tables: &Tables, homes: &mut [Option<usize>], here: u32, part: usize, body: &Body)
    requires tables { AreTables tables.now }
    requires long { length homes.old ≡ length (frames_of tables.now) }
    ensures { (c : ℕ) → c < length homes.old
        → home_at homes.new c ≡ or_else (home_at homes.old c) (cond (is_in
        (parent_in (frames_of tables.now) c) here && is_this_cell c (seen_body body.now)) (Some part) None) }
{
    if let Body::Child { cell } = body {
        note_home(tables, homes, here, *cell, part);
    }
}

/// Notes the instances of a cell, of which the first counts for each cell that they are.
fn note_parts(tables: &Tables, homes: &mut [Option<usize>], here: u32, parts: &[Placed])
    requires tables { AreTables tables.now }
    requires long { length homes.old ≡ length (frames_of tables.now) }
    ensures { (c : ℕ) → c < length homes.old → home_at homes.new c ≡ or_else (home_at homes.old c) (cond
        (is_in (parent_in (frames_of tables.now) c) here) (position_from (is_of_cell c) 0 parts.now) None) }
{
    for (k, p) in parts.iter().enumerate() {
        note_part(tables, homes, here, k, &p.part.body);
    }
}

/// This many cells without a home.
fn no_homes(alloc: Global, count: usize) -> Result<Vec<Option<usize>>, OutOfMemory>
    ensures long { IfOk result (λ homes. length homes.items ≡ count) }
    ensures none { IfOk result (λ homes. (c : ℕ) → home_at homes.items c ≡ None) }
{
    let mut homes = Vec::new(alloc);
    for _k in 0..count {
        homes.push(None)?;
    }
    Ok(homes)
}

/// For each cell the number of the part of its parent that is its instance.
fn homes(
    alloc: Global,
    tables: &Tables,
    cells: &[CellParts],
) -> Result<Vec<Option<usize>>, OutOfMemory>
    requires tables { AreTables tables.now }
    requires long { length cells.now ≡ length (frames_of tables.now) }
    ensures long { IfOk result (λ homes. length homes.items ≡ length cells.now) }
    ensures homes { IfOk result (λ homes. (c : ℕ) → c < length cells.now
        → home_at homes.items c ≡ home_in cells.now c (parent_in (frames_of tables.now) c)) }
{
    let mut homes = no_homes(alloc, cells.len())?;
    for here in 0..tables.len() {
        note_parts(tables, &mut homes, here, &cells[here as usize].parts);
    }
    Ok(homes)
}

/// What a part of a cell binds: nothing, if there is no such part.
fn part_bindings<'a>(
    cells: &'a [CellParts],
    nothing: &'a Bindings,
    cell: usize,
    part: usize,
) -> &'a Bindings
    requires { nothing.now ≡ [] }
    ensures { result.now ≡ part_bindings cells.now cell part }
{
    if cell >= cells.len() {
        return nothing;
    }
    let parts = cells[cell].parts.as_slice();
    if part < parts.len() {
        &parts[part].bound
    } else {
        nothing
    }
}

/// What a cell is bound to in its parent, where this part is its instance.
fn bound_in_parent<'a>(
    cells: &'a [CellParts],
    nothing: &'a Bindings,
    parent: Option<u32>,
    home: Option<usize>,
) -> &'a Bindings
    requires { nothing.now ≡ [] }
    ensures { (c : ℕ) → home ≡ home_in cells.now c parent
        → result.now ≡ bindings_of (seen_pass cells.now) c parent }
{
    match parent {
        Some(parent) => match home {
            Some(part) => part_bindings(cells, nothing, parent as usize, part),
            None => nothing,
        },
        None => nothing,
    }
}

// ---- what ports are bound to

/// What a port is, which is bound so; none for every other part.
fn port_bound(alloc: Global, bindings: &Bindings, p: &Placed) -> Result<Option<Body>, ElabFault>
    ensures ok { IfOk result (λ body. option_map seen_body body ≡ port_of bindings.now p.now) }
    ensures told { IfErr result (λ e. e ≡ ElabFault.OutOfMemory) }
{
    match &p.part.body {
        Body::ScanIn { .. } => {
            let refs = bindings.refs_of(alloc, p.number, 1)?;
            Ok(Some(Body::ScanIn {
                bound: first_ref(refs),
            }))
        }
        Body::DataIn { .. } => {
            let wide = part_width(&p.part)?;
            let bound = bindings.refs_of(alloc, p.number, wide)?;
            Ok(Some(Body::DataIn { bound }))
        }
        _ => Ok(None),
    }
}

/// How many bits a part has.
fn part_width(part: &Part) -> Result<u32, ElabFault>
    ensures ok { IfOk result (λ wide. wide
        ≡ width (record { left = part.now.left; right = part.now.right })) }
    ensures told { IfErr result (λ e. e ≡ ElabFault.OutOfMemory) }
{
    // No part that the first pass lets by has more than 65,536.
    match part.left.abs_diff(part.right).checked_add(1) {
        Some(wide) => Ok(wide),
        None => Err(ElabFault::OutOfMemory),
    }
}

/// The one bit that a scan port is bound to, if it is bound.
fn first_ref(refs: Option<Runs<Ref>>) -> Option<Ref>
    ensures { result ≡ option_map (λ refs. first_ref refs.items) refs }
{
    match refs {
        Some(refs) => {
            if refs.len() > 0 {
                Some(refs.get(0))
            } else {
                Some(Ref::Fixed(false))
            }
        }
        None => None,
    }
}

/// Adds what [`bound_cell_ports`] answers.
fn add_cell_ports(
    alloc: Global,
    bindings: &Bindings,
    parts: &[Placed],
    ports: &mut Vec<Option<Body>>,
) -> Result<(), ElabFault>
    requires { ports.old.items ≡ [] }
    ensures ok { OnOk result (seen_ports ports.new.items ≡ map (port_of bindings.now) parts.now) }
    ensures told { IfErr result (λ e. e ≡ ElabFault.OutOfMemory) }
{
    for p in parts {
        let port = port_bound(alloc, bindings, p)?;
        ports.push(port)?;
    }
    Ok(())
}

/// What each part of a cell is as a port, its bits as these bindings have them; nothing where it is none.
fn bound_cell_ports(
    alloc: Global,
    bindings: &Bindings,
    parts: &[Placed],
) -> Result<Vec<Option<Body>>, ElabFault>
    ensures ok { IfOk result (λ ports. seen_ports ports.items ≡ map (port_of bindings.now) parts.now) }
    ensures told { IfErr result (λ e. e ≡ ElabFault.OutOfMemory) }
{
    let mut ports = Vec::new(alloc);
    match add_cell_ports(alloc, bindings, parts, &mut ports) {
        Ok(()) => Ok(ports),
        Err(e) => {
            drop(ports);
            Err(e)
        }
    }
}

/// What the ports of a cell are, bound.
#[derive(Drop)]
struct CellPorts {
    ports: Vec<Option<Body>>,
}

/// Adds what the ports of the cells are, bound, where the homes are known.
fn add_ports(
    alloc: Global,
    tables: &Tables,
    cells: &[CellParts],
    homes: &[Option<usize>],
    nothing: &Bindings,
    all: &mut Vec<CellPorts>,
) -> Result<(), ElabFault>
    requires tables { AreTables tables.now }
    requires long { length cells.now ≡ length (frames_of tables.now) }
    requires home_count { length homes.now ≡ length cells.now }
    requires homes { (c : ℕ) → c < length cells.now
        → home_at homes.now c ≡ home_in cells.now c (parent_in (frames_of tables.now) c) }
    requires nothing { nothing.now ≡ [] }
    requires none { all.old.items ≡ [] }
    ensures ok { OnOk result (map seen_cell_ports all.new.items
        ≡ ports_from (seen_pass cells.now) 0 (frames_of tables.now) cells.now) }
    ensures told { IfErr result (λ e. e ≡ ElabFault.OutOfMemory) }
{
    for here in 0..tables.len() {
        let i = here as usize;
        let bindings = bound_in_parent(cells, nothing, tables.frame(here).parent, homes[i]);
        let ports = bound_cell_ports(alloc, bindings, &cells[i].parts)?;
        all.push(CellPorts { ports })?;
    }
    Ok(())
}

/// What the ports of the cells are, bound.
fn all_ports(
    alloc: Global,
    tables: &Tables,
    cells: &[CellParts],
) -> Result<Vec<CellPorts>, ElabFault>
    requires tables { AreTables tables.now }
    requires long { length cells.now ≡ length (frames_of tables.now) }
    ensures ok { IfOk result (λ all. map seen_cell_ports all.items
        ≡ ports_from (seen_pass cells.now) 0 (frames_of tables.now) cells.now) }
    ensures told { IfErr result (λ e. e ≡ ElabFault.OutOfMemory) }
{
    let homes = homes(alloc, tables, cells)?;
    let nothing = Bindings::new(alloc);
    let mut all = Vec::new(alloc);
    let added = add_ports(alloc, tables, cells, &homes, &nothing, &mut all);
    drop(homes);
    drop(nothing);
    match added {
        Ok(()) => Ok(all),
        Err(e) => {
            drop(all);
            Err(e)
        }
    }
}

// ---- the cells

/// A part with what it is bound to, if it is a port that is bound.
fn with_port(placed: Placed, port: Option<Body>) -> Part
    ensures { seen_part result ≡ part_with placed (option_map seen_body port) }
{
    let mut part = placed.part;
    if let Some(body) = port {
        part.body = body;
    }
    part
}

/// What the next port is, of those that are left.
fn next_port(left: &mut Vec<Option<Body>>) -> Option<Body>
    ensures port { option_map seen_body result ≡ first_port (seen_ports (reverse left.old.items)) }
    ensures rest { seen_ports (reverse left.new.items) ≡ rest_ports (seen_ports (reverse left.old.items)) }
{
    match left.pop() {
        Some(port) => port,
        None => None,
    }
}

/// The parts of a cell with what they are bound to.
fn with_ports(
    alloc: Global,
    placed: Vec<Placed>,
    ports: Vec<Option<Body>>,
) -> Result<List<Part>, OutOfMemory>
    ensures { IfOk result (λ parts. map seen_part parts.items
        ≡ parts_with placed.items (seen_ports ports.items)) }
{
    let mut left = placed;
    let mut ports_left = ports;
    let mut parts = List::new(alloc);
    left.reverse();
    ports_left.reverse();
    while let Some(first) = left.pop() {
        let port = next_port(&mut ports_left);
        parts.push(with_port(first, port))?;
    }
    Ok(parts)
}

/// A cell with what it is bound to.
fn cell_of(
    alloc: Global,
    frame: &Frame,
    placed: Vec<Placed>,
    ports: Vec<Option<Body>>,
) -> Result<Cell, OutOfMemory>
    ensures { IfOk result (λ c. seen_cell c
        ≡ cell_with (seen_frame frame.now) placed.items (seen_ports ports.items)) }
{
    let name = name_of(alloc, frame.name)?;
    let module = name_of(alloc, frame.block.name.as_slice())?;
    let parts = with_ports(alloc, placed, ports)?;
    Ok(Cell {
        name,
        parent: frame.parent,
        module,
        parts,
    })
}

/// The ports of the next cell, of those that are left.
fn next_ports(alloc: Global, left: &mut Vec<CellPorts>) -> Vec<Option<Body>>
    ensures ports { seen_ports result.items ≡ first_ports (map seen_cell_ports (reverse left.old.items)) }
    ensures rest { map seen_cell_ports (reverse left.new.items)
        ≡ other_ports (map seen_cell_ports (reverse left.old.items)) }
{
    match left.pop() {
        Some(c) => c.ports,
        None => Vec::new(alloc),
    }
}

/// The cells with what they are bound to.
fn all_cells(
    alloc: Global,
    tables: &Tables,
    cells: Vec<CellParts>,
    all: Vec<CellPorts>,
) -> Result<List<Cell>, OutOfMemory>
    requires tables { AreTables tables.now }
    requires long { length cells.items ≡ length (frames_of tables.now) }
    ensures { IfOk result (λ out. map seen_cell out.items
        ≡ made (frames_of tables.now) cells.items (map seen_cell_ports all.items)) }
{
    let mut left = cells;
    let mut ports_left = all;
    let mut out = List::new(alloc);
    left.reverse();
    ports_left.reverse();
    let mut here = 0;
    while let Some(cell) = left.pop() {
        let ports = next_ports(alloc, &mut ports_left);
        let cell = cell_of(alloc, tables.frame(here), cell.parts, ports)?;
        out.push(cell)?;
        here += 1;
    }
    Ok(out)
}

/// The hierarchy of cells whose parts are known.
fn put_together(alloc: Global, tables: &Tables, cells: Vec<CellParts>) -> Result<Hier, ElabFault>
    requires tables { AreTables tables.now }
    requires heads { heads_of_cells cells.items ≡ map heads_of_frame (frames_of tables.now) }
    ensures ok { IfOk result (λ h. seen_hier h
        ≡ put_together (frames_of tables.now) (seen_pass cells.items)) }
    ensures told { IfErr result (λ e. e ≡ ElabFault.OutOfMemory) }
{
    match all_ports(alloc, tables, &cells) {
        Ok(all) => {
            let cells = all_cells(alloc, tables, cells, all)?;
            Ok(Hier { cells })
        }
        Err(e) => {
            drop(cells);
            Err(e)
        }
    }
}

/// The hierarchy of these cells.
fn resolved<'a>(alloc: Global, frames: &'a [Frame<'a>]) -> Result<Hier, ElabFault>
    ensures { Gives seen_hier result (resolved (map seen_frame frames.now)) }
{
    let tables = Tables::of(alloc, frames)?;
    match second_pass(alloc, &tables) {
        Ok(cells) => {
            let hier = put_together(alloc, &tables, cells);
            drop(tables);
            hier
        }
        Err(e) => {
            drop(tables);
            Err(e)
        }
    }
}

/// The hierarchy of a design below its top module.
#[tactic(auto, unfolding(crate::specs::Hierarchy::hierarchy))]
fn hierarchy_of(alloc: Global, design: &Design, top: &Name) -> Result<Hier, ElabFault>
    ensures { Gives seen_hier result (hierarchy (seen_design design.now) top.now.items) }
{
    let frames = first_pass(alloc, design.modules.as_slice(), top.as_slice())?;
    let hier = resolved(alloc, &frames);
    drop(frames);
    hier
}

/// The hierarchy of a design below its top module (IEEE 1687-2014, ICL: Module, Instance, Parameter): the
/// instances that are reached, each before those in it, with parameters and ranges as numbers and each signal
/// as single bits. Lists of bits begin at position 0, which is nearest to TDO.
///
/// The first fault that is met is the answer, in two passes over the cells. The first one tells what
/// `first_pass` of `icl_frames` tells. The second goes over the items of each cell in the order of the text,
/// and in an item from left to right, over signals, values, and the names of enumerations, interfaces and
/// links. In a signal the order is `NoName`, `WrongKind`, `BadRange`, with the faults of its numbers where
/// they stand; `WidthDiffers` comes after the whole list of signals or the whole value, and `RowsOverlap`
/// after the rows of a multiplexer. A binding of a port is `NoName`, `WrongKind`, the faults of its range,
/// `DoubleName` at a bit that is bound already, then the faults of its signals, then `WidthDiffers`; a port
/// that is bound at some of its bits alone is `WidthDiffers` at the instance, after its bindings.
/// `OutOfMemory` may come at any point.
///
/// The hierarchy of a design that the grammar gave (`icl_frames::designs_have_icl_names`) is well formed.
pub fn elaborate(alloc: Global, design: &Design, top: &Name) -> Result<Hier, ElabFault>
    ensures gives { Gives seen_hier result (hierarchy (seen_design design.now) top.now.items) }
    ensures wired { IfOk result (λ h. AreWired (seen_hier h)) }
    ensures numbered { IfOk result (λ h. AreNumbered (seen_hier h)) }
    ensures instances { IfOk result (λ h. AreInstances (seen_design design.now) top.now.items (seen_hier h)) }
    ensures well_formed { IfOk result (λ h. AreWritten (seen_design design.now) → IsHierarchy (seen_hier h)) }
{
    hierarchy_of(alloc, design, top)
}
