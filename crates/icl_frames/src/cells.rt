// The cells of a design in preorder: each instance before those in it.
ghost use Rattle.std.specs.Prelude.{◌≡◌, ◌≤◌, ◌∷◌, ◌++◌, ℕ, List, [], None, map, length, nat_le, IfOk, IfErr};
ghost use Rattle.std.specs.Prelude.{OnOk};
ghost use Rattle.ij_text.specs.Options.{same};
ghost use Rattle.icl_lexer.specs.Views.{seen_item, seen_module};
ghost use Rattle.icl_declarations.specs.Faults.{Gives, refuse_if, over, Limit};
ghost use Rattle.icl_declarations.specs.Scopes.{entry_of};
ghost use Rattle.ij_text.specs.declared.Which.TheVariants.{Cells};
ghost use Rattle.icl_declarations.specs.Tables.{seen_table};
ghost use Rattle.icl_frames.specs.FirstPass.{with_block, parameters, fold_items, cell_counts};
ghost use Rattle.icl_frames.specs.FirstPass.{cell_of_request};
ghost use Rattle.icl_frames.specs.FirstPass.{add_subtree};
ghost use Rattle.icl_frames.specs.FirstPass.{first_pass};
ghost use Rattle.icl_frames.specs.SeenFrames.{names_of, seen_passed, seen_request, seen_frame, seen_entered};
ghost use Rattle.icl_frames.specs.SeenFrames.{seen_progress, seen_stepped, finished_cell, entered_next};
ghost use Rattle.icl_frames.specs.SeenFrames.{add_cell};

use crate::ElabFault;
use crate::frames::{Passed, Request, fold_items};
use crate::instances::known_block;
use crate::params::parameters;
use icl_declarations::{Bounds, Counts, ParamTable, Scope, count_instrument, is_instrument};
use icl_lexer::Module;
use ij_text::{Which, name_of};
use std::alloc::Global;

/// A cell: an instance of a module, or the top.
#[derive(Drop)]
pub struct Frame<'a> {
    /// The instance's name; the top's is empty.
    pub name: &'a [u8],
    /// The number of the cell that it is in, counted from 0; none for the top.
    pub parent: Option<u32>,
    /// Its module.
    pub block: &'a Module,
    /// Its parameters, with the values that its instance binds.
    pub params: ParamTable,
    /// The left and the right index of each of its parts (ports, registers, multiplexers, instances, aliases,
    /// interfaces and links), in the order of the text; 0 and 0 for a part without a range.
    pub bounds: Vec<Bounds>,
}

/// A cell, and the instances that it wants.
#[derive(Drop)]
pub struct Entered<'a> {
    /// The cell.
    pub frame: Frame<'a>,
    /// The instances that it wants.
    pub requests: Vec<Request<'a>>,
    /// What is counted over all cells up to here.
    pub counts: Counts,
}

/// The cells up to here.
#[derive(Drop)]
pub struct Progress<'a> {
    /// The cells.
    pub frames: Vec<Frame<'a>>,
    /// What is counted over them.
    pub counts: Counts,
}

/// What is counted with a cell whose items were passed: an instrument, unless it is the top.
fn cell_counts(parent: Option<u32>, block: &Module, passed: &Passed) -> Result<Counts, ElabFault>
    ensures few { IfOk result (λ c. c.bits ≡ passed.now.counts.bits) }
    ensures gives { Gives same result (cell_counts parent (seen_module block.now)
        (seen_passed (map seen_item block.now.items.items) passed.now)) }
{
    if parent.is_some() && is_instrument(block) {
        count_instrument(block, passed.bounds.as_slice(), passed.counts)
    } else {
        Ok(passed.counts)
    }
}

/// The parameters of a cell of a module, some of which its instance binds.
fn own_parameters(
    alloc: Global,
    given: &ParamTable,
    block: &Module,
) -> Result<ParamTable, ElabFault>
    ensures { Gives seen_table result (parameters (seen_table given.now) (seen_module block.now)) }
{
    parameters(alloc, given, block.items.as_slice())
}

/// The items of a cell of a module.
fn own_items<'a>(
    alloc: Global,
    modules: &'a [Module],
    above: &[&'a Module],
    params: &ParamTable,
    counts: Counts,
    block: &'a Module,
) -> Result<Passed<'a>, ElabFault>
    requires { counts.bits ≤ 4096 }
    ensures few { IfOk result (λ s. s.counts.bits ≤ 4096) }
    ensures gives { Gives (seen_passed (map seen_item block.now.items.items)) result
        (fold_items (map seen_module modules.now) (names_of above.now)
        (seen_table params.now) counts (seen_module block.now)) }
{
    fold_items(
        alloc,
        modules,
        above,
        params,
        counts,
        block.items.as_slice(),
    )
}

/// The cell of an instance whose items were passed, with what is counted up to there.
fn finished_cell<'a>(
    parent: Option<u32>,
    request: &Request<'a>,
    params: ParamTable,
    passed: Passed<'a>,
) -> Result<Entered<'a>, ElabFault>
    ensures few { IfOk result (λ e. e.counts.bits ≡ passed.entry.counts.bits) }
    ensures gives { Gives seen_entered result (finished_cell parent (seen_request request.now)
        (seen_table params)
        (seen_passed (map seen_item request.now.block.now.items.items) passed.entry)) }
{
    match cell_counts(parent, request.block, &passed) {
        Ok(counts) => {
            drop(passed.taken);
            Ok(Entered {
                frame: Frame {
                    name: request.name,
                    parent,
                    block: request.block,
                    params,
                    bounds: passed.bounds,
                },
                requests: passed.requests,
                counts,
            })
        }
        Err(e) => {
            drop(passed);
            drop(params);
            Err(e)
        }
    }
}

/// The cell of an instance, whose module and those around it are `above`, with the instances that it asks for
/// and what is counted with it.
#[tactic(auto, unfolding(crate::specs::FirstPass::cell_of_request))]
fn cell_of_request<'a>(
    alloc: Global,
    modules: &'a [Module],
    above: &[&'a Module],
    parent: Option<u32>,
    counts: Counts,
    request: &Request<'a>,
) -> Result<Entered<'a>, ElabFault>
    requires { counts.bits ≤ 4096 }
    ensures few { IfOk result (λ e. e.counts.bits ≤ 4096) }
    ensures gives { Gives seen_entered result (cell_of_request (map seen_module modules.now)
        (names_of above.now) parent counts (seen_request request.now)) }
{
    let block = request.block;
    let params = own_parameters(alloc, &request.given, block)?;
    match own_items(alloc, modules, above, &params, counts, block) {
        Ok(passed) => finished_cell(parent, request, params, passed),
        Err(e) => {
            drop(params);
            Err(e)
        }
    }
}

/// The number of the next cell, if there is room for one.
fn next_cell(frames: &[Frame]) -> Result<u32, ElabFault>
    ensures number { IfOk result (λ n. n ≡ length (map seen_frame frames.now)) }
    ensures gives { Gives (λ n. tt) result
        (refuse_if (nat_le 8192 (length (map seen_frame frames.now))) (Limit Cells 8192)) }
{
    if frames.len() >= 8192 {
        return Err(ElabFault::Limit {
            which: Which::Cells,
            number: 8192,
        });
    }
    Ok(frames.len() as u32)
}

/// Adds a cell to those before it.
fn add_frame<'a>(frames: &mut Vec<Frame<'a>>, frame: Frame<'a>) -> Result<(), ElabFault>
    ensures ok { OnOk result (map seen_frame frames.new.items
        ≡ map seen_frame frames.old.items ++ seen_frame frame.entry ∷ []) }
    ensures told { IfErr result (λ e. e ≡ ElabFault.OutOfMemory) }
{
    frames.push(frame)?;
    Ok(())
}

/// The cells with one more, and the instances that it wants.
#[derive(Drop)]
pub struct Stepped<'a> {
    /// The cells.
    pub progress: Progress<'a>,
    /// The instances that the last one wants.
    pub requests: Vec<Request<'a>>,
    /// The number of the last one.
    pub cell: u32,
}

/// The cells with one more, which is entered already.
fn push_entered<'a>(
    state: Progress<'a>,
    cell: u32,
    entered: Entered<'a>,
) -> Result<Stepped<'a>, ElabFault>
    ensures ok { IfOk result (λ w. seen_stepped w ≡ record {
      progress =
          record {
            frames = (seen_progress state.entry).frames ++ seen_frame entered.entry.frame ∷ [];
            counts = entered.entry.counts;
          };
      requests = map seen_request entered.entry.requests.items;
    }) }
    ensures counts { IfOk result (λ w. w.progress.counts ≡ entered.entry.counts) }
    ensures number { IfOk result (λ w. w.cell ≡ cell) }
    ensures told { IfErr result (λ e. e ≡ ElabFault.OutOfMemory) }
{
    let mut frames = state.frames;
    match add_frame(&mut frames, entered.frame) {
        Ok(()) => Ok(Stepped {
            progress: Progress {
                frames,
                counts: entered.counts,
            },
            requests: entered.requests,
            cell,
        }),
        Err(e) => {
            drop(frames);
            drop(entered.requests);
            Err(e)
        }
    }
}

/// The number of the next cell, and the cell, as [`cell_of_request`] says.
fn entered_next<'a>(
    alloc: Global,
    modules: &'a [Module],
    above: &[&'a Module],
    parent: Option<u32>,
    state: &Progress<'a>,
    request: &Request<'a>,
) -> Result<(u32, Entered<'a>), ElabFault>
    requires { state.now.counts.bits ≤ 4096 }
    ensures few { IfOk result (λ p. p.1.counts.bits ≤ 4096) }
    ensures number { IfOk result (λ p. p.0 ≡ length (map seen_frame state.now.frames.items)) }
    ensures gives { Gives (λ p. seen_entered p.1) result (entered_next (map seen_module modules.now)
        (names_of above.now) parent (seen_progress state.now) (seen_request request.now)) }
{
    let cell = next_cell(state.frames.as_slice())?;
    let entered = cell_of_request(alloc, modules, above, parent, state.counts, request)?;
    Ok((cell, entered))
}

/// The cells with that of an instance, which is in these modules, its own among them.
#[tactic(auto, unfolding(crate::specs::SeenFrames::add_cell))]
fn add_cell<'a>(
    alloc: Global,
    modules: &'a [Module],
    above: &[&'a Module],
    parent: Option<u32>,
    state: Progress<'a>,
    request: &Request<'a>,
) -> Result<Stepped<'a>, ElabFault>
    requires { state.counts.bits ≤ 4096 }
    ensures few { IfOk result (λ w. w.progress.counts.bits ≤ 4096) }
    ensures number { IfOk result (λ w. w.cell ≡ length (map seen_frame state.entry.frames.items)) }
    ensures gives { Gives seen_stepped result (add_cell (map seen_module modules.now)
        (names_of above.now) parent (seen_progress state.entry) (seen_request request.now)) }
{
    match entered_next(alloc, modules, above, parent, &state, request) {
        Ok((cell, entered)) => push_entered(state, cell, entered),
        Err(e) => {
            drop(state);
            Err(e)
        }
    }
}

/// Adds a module and those above it.
fn add_modules<'a>(
    all: &mut Vec<&'a Module>,
    block: &'a Module,
    above: &[&'a Module],
) -> Result<(), ElabFault>
    requires { all.old.items ≡ [] }
    ensures ok { OnOk result (names_of all.new.items ≡ block.now.name.items ∷ names_of above.now) }
    ensures told { IfErr result (λ e. e ≡ ElabFault.OutOfMemory) }
{
    all.push(block)?;
    for outer in above {
        all.push(*outer)?;
    }
    Ok(())
}

/// The modules that the cells inside a cell of a module stand in: that module and those above it.
fn modules_around<'a>(
    alloc: Global,
    block: &'a Module,
    above: &[&'a Module],
) -> Result<Vec<&'a Module>, ElabFault>
    ensures ok { IfOk result (λ all. names_of all.items ≡ block.now.name.items ∷ names_of above.now) }
    ensures told { IfErr result (λ e. e ≡ ElabFault.OutOfMemory) }
{
    let mut all = Vec::new(alloc);
    match add_modules(&mut all, block, above) {
        Ok(()) => Ok(all),
        Err(e) => {
            drop(all);
            Err(e)
        }
    }
}

/// The cells with that of an instance and all below it, in this many levels.
fn add_subtree<'a>(
    alloc: Global,
    modules: &'a [Module],
    above: &[&'a Module],
    levels: u32,
    parent: Option<u32>,
    state: Progress<'a>,
    request: &Request<'a>,
) -> Result<Progress<'a>, ElabFault>
    requires { state.counts.bits ≤ 4096 }
    ensures few { IfOk result (λ s. s.counts.bits ≤ 4096) }
    ensures gives { Gives seen_progress result (add_subtree levels (map seen_module modules.now)
        (names_of above.now) parent (seen_progress state.entry) (seen_request request.now)) }
{
    if levels == 0 {
        drop(state);
        return Err(ElabFault::Limit {
            which: Which::Hierarchy,
            number: 64,
        });
    }
    let inside = modules_around(alloc, request.block, above)?;
    let stepped = add_cell(alloc, modules, inside.as_slice(), parent, state, request)?;
    let cell = stepped.cell;
    let requests = stepped.requests;
    let mut cells = stepped.progress;
    for wanted in requests.as_slice() {
        cells = add_subtree(
            alloc,
            modules,
            inside.as_slice(),
            levels - 1,
            Some(cell),
            cells,
            wanted,
        )?;
    }
    Ok(cells)
}

/// Adds the names of modules to those before them, from which they differ.
fn note_modules(alloc: Global, seen: &mut Scope, modules: &[Module]) -> Result<(), ElabFault>
    requires { (name : List ℕ) → entry_of seen.old name ≡ None }
    ensures { Gives (λ u. map seen_module modules.now) result
        (over with_block [] (map seen_module modules.now)) }
{
    for block in modules {
        if seen.has(block.name.as_slice()) {
            let name = name_of(alloc, block.name.as_slice())?;
            return Err(ElabFault::DoubleName { at: block.at, name });
        }
        seen.note(alloc, block.name.as_slice())?;
    }
    Ok(())
}

/// Checks that the names of the modules differ. `DoubleName` at the first that is there already.
fn check_modules_differ(alloc: Global, modules: &[Module]) -> Result<(), ElabFault>
    ensures { Gives (λ u. map seen_module modules.now) result
        (over with_block [] (map seen_module modules.now)) }
{
    let mut seen = Scope::new(alloc);
    let noted = note_modules(alloc, &mut seen, modules);
    drop(seen);
    noted
}

/// The cells of a design with this top module, in preorder (IEEE 1687-2014, ICL: Module, Instance,
/// Parameter): the top, which has number 0, and after each cell those of its instances, in the order of the
/// text.
///
/// The first fault on the way is the answer. Two modules of one name are `DoubleName` at the second word
/// `Module`; a top that is no module is `NoModule`. Then each cell, before those in it: `Limit` of
/// `Hierarchy` where it is inside 64 others below the top, or of `Cells` where 8192 cells come before
/// it; its parameters (what `evaluate` of `icl_declarations` tells); its items in the order of the text
/// (`DoubleName` of a name in the module, the faults of its range, `NoModule` of an instance, `InstanceLoop`
/// where a module would stand in itself, `NoName` and `DoubleName` of a parameter that is bound, and `Limit`
/// of register bits and multiplexers); and `Limit` of instruments, their ports and the ports' bits.
/// `OutOfMemory` may come at any point.
#[tactic(auto, unfolding(crate::specs::FirstPass::first_pass))]
pub fn first_pass<'a>(
    alloc: Global,
    modules: &'a [Module],
    top: &[u8],
) -> Result<Vec<Frame<'a>>, ElabFault>
    ensures { Gives (λ frames. map seen_frame frames.items) result
        (first_pass (map seen_module modules.now) top.now) }
{
    check_modules_differ(alloc, modules)?;
    let block = known_block(alloc, modules, top)?;
    let request = Request {
        name: &[],
        block,
        given: ParamTable::new(alloc),
    };
    let nothing = Progress {
        frames: Vec::new(alloc),
        counts: Counts {
            bits: 0,
            muxes: 0,
            instruments: 0,
        },
    };
    let end = add_subtree(alloc, modules, &[], 65, None, nothing, &request);
    drop(request);
    Ok(end?.frames)
}
