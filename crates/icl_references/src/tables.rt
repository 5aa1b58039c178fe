// The cells of a design, with tables of their parts.
ghost use Rattle.std.specs.Prelude.{◌≡◌, ◌<◌, ◌^◌, None, map, length, get_or, IfOk, OnOk};
ghost use Rattle.ij_text.specs.Options.{same};
ghost use Rattle.icl_lexer.specs.Views.{seen_what};
ghost use Rattle.icl_declarations.specs.Faults.{Gives};
ghost use Rattle.icl_declarations.specs.Tables.{seen_table};
ghost use Rattle.icl_declarations.specs.Ranges.{one_bit, width};
ghost use Rattle.icl_frames.specs.SeenFrames.{seen_frame};
ghost use Rattle.icl_references.specs.Names.{child_cell, cell_of_instance, known_cell, members, named};
ghost use Rattle.icl_references.specs.Tables.{AreAllChildren, AreCellTables, AreEmpty, AreTables};
ghost use Rattle.icl_references.specs.Tables.{IsCellTable, IsChildAdded, IsFrameAdded, IsHere, frames_in};
ghost use Rattle.icl_references.specs.Tables.{frames_of, here_in, seen_member};

use icl_declarations::{ElabFault, ParamTable};
use icl_frames::{Bounds, Frame, Scope, is_part};
use icl_lexer::{Item, What};
use ij_bits::OutOfMemory;
use ij_text::{Place, name_of};
use std::alloc::Global;

/// A part of a cell.
#[derive(Clone, Copy, Drop)]
pub struct Member<'a> {
    /// Its number among the parts of its module.
    pub part: u32,
    /// Its item.
    pub item: &'a Item,
    /// Its indices.
    pub bounds: Bounds,
}

/// The parts of a cell, by number and by name.
#[derive(Drop)]
pub struct CellTable<'a> {
    pub frame: &'a Frame<'a>,
    pub members: Vec<Member<'a>>,
    pub names: Scope,
}

/// The cells of a design. All that a signal names is found without a search.
#[derive(Drop)]
pub struct Tables<'a> {
    pub cells: Vec<CellTable<'a>>,
    /// For each cell the cells that its instances are, by their names.
    pub children: Vec<Scope>,
}

/// How many bits a part has.
pub fn width_of(b: Bounds) -> Result<u32, ElabFault>
    ensures { Gives same result (Ok (width b)) }
{
    // No part that the first pass lets by has more than 65,536.
    match u32::try_from(icl_frames::width(b)) {
        Ok(width) => Ok(width),
        Err(_) => Err(ElabFault::OutOfMemory),
    }
}

/// The indices of a part: one bit of index 0 past the end.
fn bounds_at(bounds: &[Bounds], part: u32) -> Bounds
    ensures { result ≡ get_or bounds.now part one_bit }
{
    if (part as usize) < bounds.len() {
        bounds[part as usize]
    } else {
        Bounds { left: 0, right: 0 }
    }
}

/// The parts of a cell, by number.
fn members_of<'a>(alloc: Global, frame: &'a Frame<'a>) -> Result<Vec<Member<'a>>, OutOfMemory>
    requires { length frame.now.block.now.items.items < 2 ^ 32 }
    ensures { IfOk result (λ all. map seen_member all.items ≡ members (seen_frame frame.now)) }
{
    let mut all = Vec::new(alloc);
    let mut part = 0;
    for item in frame.block.items.as_slice() {
        if is_part(&item.what) {
            let bounds = bounds_at(frame.bounds.as_slice(), part);
            all.push(Member { part, item, bounds })?;
            part += 1;
        }
    }
    Ok(all)
}

/// The parts of a cell, by number and by name.
fn cell_table<'a>(alloc: Global, frame: &'a Frame<'a>) -> Result<CellTable<'a>, OutOfMemory>
    ensures table { IfOk result (λ c. IsCellTable c) }
    ensures frame { IfOk result (λ c. seen_frame c.frame.now ≡ seen_frame frame.now) }
{
    let items = frame.block.items.as_slice();
    if items.len() >= 0xffff_ffff {
        return Err(OutOfMemory);
    }
    let members = members_of(alloc, frame)?;
    let names = Scope::of(alloc, items)?;
    Ok(CellTable {
        frame,
        members,
        names,
    })
}

/// The parts of each cell.
fn cell_tables<'a>(
    alloc: Global,
    frames: &'a [Frame<'a>],
) -> Result<Vec<CellTable<'a>>, OutOfMemory>
    ensures tables { IfOk result (λ cells. AreCellTables cells.items) }
    ensures frames { IfOk result (λ cells. frames_in cells.items ≡ map seen_frame frames.now) }
{
    let mut cells = Vec::new(alloc);
    for frame in frames {
        let cell = cell_table(alloc, frame)?;
        cells.push(cell)?;
    }
    Ok(cells)
}

/// This many tables without names.
fn empty_child_tables(alloc: Global, count: usize) -> Result<Vec<Scope>, OutOfMemory>
    ensures long { IfOk result (λ all. length all.items ≡ count) }
    ensures none { IfOk result (λ all. AreEmpty all.items) }
{
    let mut all = Vec::new(alloc);
    for _k in 0..count {
        all.push(Scope::new(alloc))?;
    }
    Ok(all)
}

/// Adds a cell to the children of another one.
fn add_child(
    alloc: Global,
    children: &mut Vec<Scope>,
    parent: u32,
    name: &[u8],
    number: u32,
) -> Result<(), OutOfMemory>
    ensures long { length children.new.items ≡ length children.old.items }
    ensures added { OnOk result (IsChildAdded children.old.items children.new.items parent name.now number) }
{
    if (parent as usize) < children.len() {
        let table = &mut children[parent as usize];
        table.add(alloc, name, number)?;
    }
    Ok(())
}

/// Adds a cell to the children of the one that it is in.
fn add_frame(
    alloc: Global,
    children: &mut Vec<Scope>,
    frame: &Frame,
    number: u32,
) -> Result<(), OutOfMemory>
    ensures long { length children.new.items ≡ length children.old.items }
    ensures added { OnOk result
        (IsFrameAdded children.old.items children.new.items (seen_frame frame.now) number) }
{
    if let Some(parent) = frame.parent {
        add_child(alloc, children, parent, frame.name, number)?;
    }
    Ok(())
}

/// For each cell the cells that its instances are, by their names. Of two of one name the first one counts.
fn children_of(alloc: Global, frames: &[Frame]) -> Result<Vec<Scope>, OutOfMemory>
    requires { length frames.now < 2 ^ 32 }
    ensures long { IfOk result (λ all. length all.items ≡ length frames.now) }
    ensures all { IfOk result (λ all. AreAllChildren (map seen_frame frames.now) all.items) }
{
    let mut all = empty_child_tables(alloc, frames.len())?;
    let mut number = 0;
    for frame in frames {
        add_frame(alloc, &mut all, frame, number)?;
        number += 1;
    }
    Ok(all)
}

impl<'a> Tables<'a> {
    /// The tables of these cells.
    pub fn of(alloc: Global, frames: &'a [Frame<'a>]) -> Result<Tables<'a>, ElabFault>
        ensures tables { IfOk result (λ t. AreTables t) }
        ensures gives { Gives frames_of result (Ok (map seen_frame frames.now)) }
    {
        if frames.len() > 0xffff_ffff {
            return Err(ElabFault::OutOfMemory);
        }
        let cells = cell_tables(alloc, frames)?;
        let children = children_of(alloc, frames)?;
        Ok(Tables { cells, children })
    }

    /// How many cells there are.
    pub fn len(&self) -> u32
        requires { AreTables self.now }
        ensures { result ≡ length (frames_of self.now) }
    {
        self.cells.len() as u32
    }

    /// A cell.
    pub fn frame(&self, here: u32) -> &'a Frame<'a>
        requires { IsHere self.now here }
        ensures { seen_frame result.now ≡ (here_in self.now here).frame }
    {
        self.cells[here as usize].frame
    }

    /// The parameters of a cell.
    pub fn params(&self, here: u32) -> &ParamTable
        requires { IsHere self.now here }
        ensures { seen_table result.now ≡ (here_in self.now here).frame.params }
    {
        &self.frame(here).params
    }

    /// The parts of a cell.
    pub fn members(&self, here: u32) -> &[Member<'a>]
        requires { IsHere self.now here }
        ensures { map seen_member result.now ≡ members (here_in self.now here).frame }
    {
        &self.cells[here as usize].members
    }

    /// What a name is in a cell, where signals are looked up (IEEE 1687-2014, ICL): a port, a register, a
    /// multiplexer, an instance or an alias. `NoName` where it is none.
    pub fn named(
        &self,
        alloc: Global,
        here: u32,
        at: Place,
        name: &[u8],
    ) -> Result<Member<'a>, ElabFault>
        requires { IsHere self.now here }
        ensures part { IfOk result (λ m. m.part < length (members (here_in self.now here).frame)) }
        ensures gives { Gives seen_member result (named (here_in self.now here).frame at name.now) }
    {
        let cell = &self.cells[here as usize];
        match cell.names.find(name) {
            Some(part) => Ok(cell.members[part as usize]),
            None => {
                let name = name_of(alloc, name)?;
                Err(ElabFault::NoName { at, name })
            }
        }
    }

    /// The cell of the instance of this name, by its number.
    fn child(&self, here: u32, at: Place, name: &[u8]) -> Result<u32, ElabFault>
        requires { IsHere self.now here }
        ensures there { IfOk result (λ child. IsHere self.now child) }
        ensures gives { Gives (here_in self.now) result
            (known_cell at (child_cell (frames_of self.now) here name.now)) }
    {
        let children = &self.children[here as usize];
        match children.find(name) {
            Some(child) => Ok(child),
            None => Err(ElabFault::WrongKind { at }),
        }
    }

    /// The cell that a part is, by its number. `WrongKind` where the part is no instance.
    pub fn cell_of_instance(&self, here: u32, at: Place, item: &Item) -> Result<u32, ElabFault>
        requires { IsHere self.now here }
        ensures there { IfOk result (λ child. IsHere self.now child) }
        ensures gives { Gives (here_in self.now) result (cell_of_instance (frames_of self.now)
            (here_in self.now here) at item.now.name.items (seen_what item.now.what)) }
    {
        match &item.what {
            What::Child { .. } => self.child(here, at, item.name.as_slice()),
            _ => Err(ElabFault::WrongKind { at }),
        }
    }
}
