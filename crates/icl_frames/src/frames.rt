// The items of a cell, one after another.
ghost use Rattle.std.specs.Prelude.{◌≡◌, ◌≤◌, ◌++◌, ◌∷◌, List, [], map, IfOk, IfErr, OnOk};
ghost use Rattle.std.specs.List.{list_any};
ghost use Rattle.std.specs.Str.{bytes_eq};
ghost use Rattle.ij_text.specs.Options.{same};
ghost use Rattle.icl_lexer.specs.Values.{SeenItem, AChild};
ghost use Rattle.icl_lexer.specs.Views.{seen_what, seen_item, seen_module, seen_bind};
ghost use Rattle.icl_declarations.specs.Faults.{Gives, over};
ghost use Rattle.icl_declarations.specs.Tables.{seen_table};
ghost use Rattle.icl_frames.specs.FirstPass.{request, bounds_of, item_additions, with_added, fold_item};
ghost use Rattle.icl_frames.specs.FirstPass.{nothing_passed};
ghost use Rattle.icl_declarations.specs.Parts.{range_in};
ghost use Rattle.icl_declarations.specs.Ranges.{declared};
ghost use Rattle.icl_declarations.specs.Taken.{AreTaken};
ghost use Rattle.icl_frames.specs.SeenFrames.{seen_request, seen_wanted, names_of, seen_added, seen_passed};

use crate::ElabFault;
use crate::instances::{bound_parameters, known_block};
use icl_declarations::{
    Bounds, Counts, ParamTable, Taken, check_item_names, count_part, declared, is_part,
};
use icl_lexer::{Bind, Item, Module, SmallText, What};
use std::alloc::Global;

/// An instance that is wanted.
#[derive(Drop)]
pub struct Request<'a> {
    /// Its name.
    pub name: &'a [u8],
    /// Its module.
    pub block: &'a Module,
    /// The parameters that it binds.
    pub given: ParamTable,
}

/// What is known after some items of a cell.
#[derive(Drop)]
pub struct Passed<'a> {
    /// Their names.
    pub taken: Taken,
    /// The bounds of the parts among them.
    pub bounds: Vec<Bounds>,
    /// The instances that they want.
    pub requests: Vec<Request<'a>>,
    /// What is counted over all cells up to here.
    pub counts: Counts,
}

/// Whether a module is one of those that a cell is in.
fn is_above(above: &[&Module], name: &[u8]) -> bool
    ensures { result ≡ list_any (bytes_eq name.now) (names_of above.now) }
{
    for block in above {
        if name == block.name.as_slice() {
            return true;
        }
    }
    false
}

/// The instance that a child item wants.
fn child_request<'a>(
    alloc: Global,
    modules: &'a [Module],
    above: &[&Module],
    params: &ParamTable,
    item: &'a Item,
    of: &SmallText,
    binds: &[Bind],
) -> Result<Option<Request<'a>>, ElabFault>
    ensures { Gives seen_wanted result (request (map seen_module modules.now) (names_of above.now)
        (seen_table params.now) (seen_item item.now) (AChild of.now.items (map seen_bind binds.now))) }
{
    let block = known_block(alloc, modules, of.as_slice())?;
    if is_above(above, of.as_slice()) {
        return Err(ElabFault::InstanceLoop { at: item.at });
    }
    let given = bound_parameters(alloc, params, block, binds)?;
    Ok(Some(Request {
        name: item.name.as_slice(),
        block,
        given,
    }))
}

/// The instance that an item wants, if it is one.
fn item_request<'a>(
    alloc: Global,
    modules: &'a [Module],
    above: &[&Module],
    params: &ParamTable,
    item: &'a Item,
) -> Result<Option<Request<'a>>, ElabFault>
    ensures { Gives seen_wanted result (request (map seen_module modules.now) (names_of above.now)
        (seen_table params.now) (seen_item item.now) (seen_what item.now.what)) }
{
    match &item.what {
        What::Child { module: of, binds } => {
            child_request(alloc, modules, above, params, item, of, binds.as_slice())
        }
        _ => Ok(None),
    }
}

/// The bounds that an item declares.
fn declared_by(alloc: Global, params: &ParamTable, what: &What) -> Result<Bounds, ElabFault>
    ensures { Gives same result (declared (seen_table params.now) (range_in (seen_what what.now))) }
{
    match what {
        What::Port { range, .. } => declared(alloc, params, range),
        What::Register { range, .. } => declared(alloc, params, range),
        What::Alias { range, .. } => declared(alloc, params, range),
        _ => Ok(Bounds { left: 0, right: 0 }),
    }
}

/// Adds the bounds of an item to those before it, where it is a part.
fn add_bounds(what: &What, b: Bounds, bounds: &mut Vec<Bounds>) -> Result<(), ElabFault>
    ensures ok { OnOk result (bounds.new.items ≡ bounds.old.items ++ bounds_of (seen_what what.now) b) }
    ensures told { IfErr result (λ e. e ≡ ElabFault.OutOfMemory) }
{
    if is_part(what) {
        bounds.push(b)?;
    }
    Ok(())
}

/// Adds a request to those before it, where one is wanted.
fn add_request<'a>(
    wanted: Option<Request<'a>>,
    requests: &mut Vec<Request<'a>>,
) -> Result<(), ElabFault>
    ensures ok { OnOk result (map seen_request requests.new.items
        ≡ map seen_request requests.old.items ++ seen_wanted wanted.entry) }
    ensures told { IfErr result (λ e. e ≡ ElabFault.OutOfMemory) }
{
    if let Some(r) = wanted {
        requests.push(r)?;
    }
    Ok(())
}

/// What an item adds.
#[derive(Drop)]
pub struct Added<'a> {
    /// Its bounds.
    pub bounds: Bounds,
    /// The instance that it wants.
    pub wanted: Option<Request<'a>>,
    /// What is counted up to here.
    pub counts: Counts,
}

/// What an item adds, after the items with these names.
#[tactic(auto, unfolding(crate::specs::FirstPass::item_additions))]
fn item_additions<'a>(
    alloc: Global,
    modules: &'a [Module],
    above: &[&Module],
    params: &ParamTable,
    taken: &Taken,
    counts: Counts,
    item: &'a Item,
) -> Result<Added<'a>, ElabFault>
    requires { counts.bits ≤ 4096 }
    ensures few { IfOk result (λ a. a.counts.bits ≤ 4096) }
    ensures gives { (items : List SeenItem) → AreTaken taken.now items
        → Gives seen_added result (item_additions (map seen_module modules.now) (names_of above.now)
        (seen_table params.now) items counts (seen_item item.now)) }
{
    check_item_names(alloc, taken, item)?;
    let bounds = declared_by(alloc, params, &item.what)?;
    let wanted = item_request(alloc, modules, above, params, item)?;
    let counts = count_part(counts, bounds, &item.what)?;
    Ok(Added {
        bounds,
        wanted,
        counts,
    })
}

/// Adds what one item more adds to what is known.
fn add<'a>(
    alloc: Global,
    state: &mut Passed<'a>,
    item: &'a Item,
    added: Added<'a>,
) -> Result<(), ElabFault>
    ensures told { IfErr result (λ e. e ≡ ElabFault.OutOfMemory) }
    ensures counts { OnOk result (state.new.counts ≡ added.entry.counts) }
    ensures taken { OnOk result ((items : List SeenItem) → AreTaken state.old.taken items
        → AreTaken state.new.taken (items ++ seen_item item.now ∷ [])) }
    ensures added { OnOk result ((items : List SeenItem) → seen_passed (items ++ seen_item item.now ∷ [])
        state.new ≡ with_added (seen_passed items state.old) (seen_item item.now) (seen_added added.entry)) }
{
    add_request(added.wanted, &mut state.requests)?;
    state.taken.note_item(alloc, item)?;
    add_bounds(&item.what, added.bounds, &mut state.bounds)?;
    state.counts = added.counts;
    Ok(())
}

/// Adds one item more to what is known.
#[tactic(auto, unfolding(crate::specs::FirstPass::fold_item))]
fn add_item<'a>(
    alloc: Global,
    modules: &'a [Module],
    above: &[&Module],
    params: &ParamTable,
    state: &mut Passed<'a>,
    item: &'a Item,
) -> Result<(), ElabFault>
    requires { state.old.counts.bits ≤ 4096 }
    ensures few { OnOk result (state.new.counts.bits ≤ 4096) }
    ensures taken { OnOk result ((items : List SeenItem) → AreTaken state.old.taken items
        → AreTaken state.new.taken (items ++ seen_item item.now ∷ [])) }
    ensures gives { (items : List SeenItem) → AreTaken state.old.taken items → Gives (λ u. seen_passed
        (items ++ seen_item item.now ∷ []) state.new) result (fold_item (map seen_module modules.now)
        (names_of above.now) (seen_table params.now) (seen_passed items state.old) (seen_item item.now)) }
{
    let added = item_additions(
        alloc,
        modules,
        above,
        params,
        &state.taken,
        state.counts,
        item,
    )?;
    add(alloc, state, item, added)
}

/// One item more.
fn fold_item<'a>(
    alloc: Global,
    modules: &'a [Module],
    above: &[&Module],
    params: &ParamTable,
    state: Passed<'a>,
    item: &'a Item,
) -> Result<Passed<'a>, ElabFault>
    requires { state.counts.bits ≤ 4096 }
    ensures few { IfOk result (λ s. s.counts.bits ≤ 4096) }
    ensures taken { IfOk result (λ s. (items : List SeenItem) → AreTaken state.entry.taken items
        → AreTaken s.taken (items ++ seen_item item.now ∷ [])) }
    ensures gives { (items : List SeenItem) → AreTaken state.entry.taken items → Gives
        (seen_passed (items ++ seen_item item.now ∷ [])) result (fold_item (map seen_module modules.now)
        (names_of above.now) (seen_table params.now) (seen_passed items state.entry) (seen_item item.now)) }
{
    let mut state = state;
    match add_item(alloc, modules, above, params, &mut state, item) {
        Ok(()) => Ok(state),
        Err(e) => {
            // Let go of by a call, which is quick to prove.
            drop(state);
            Err(e)
        }
    }
}

/// The items of a module.
pub fn fold_items<'a>(
    alloc: Global,
    modules: &'a [Module],
    above: &[&Module],
    params: &ParamTable,
    counts: Counts,
    items: &'a [Item],
) -> Result<Passed<'a>, ElabFault>
    requires { counts.bits ≤ 4096 }
    ensures few { IfOk result (λ s. s.counts.bits ≤ 4096) }
    ensures gives { Gives (seen_passed (map seen_item items.now)) result
        (over (fold_item (map seen_module modules.now) (names_of above.now) (seen_table params.now))
        (nothing_passed counts) (map seen_item items.now)) }
{
    let mut state = Passed {
        taken: Taken::new(alloc),
        bounds: Vec::new(alloc),
        requests: Vec::new(alloc),
        counts,
    };
    for item in items {
        state = fold_item(alloc, modules, above, params, state, item)?;
    }
    Ok(state)
}
