// The instances that a module declares, and the parameters that they bind.
ghost use Rattle.std.specs.Prelude.{◌≡◌, [], ◌&&◌, map};
ghost use Rattle.std.specs.Option.{option_map};
ghost use Rattle.std.specs.Str.{bytes_eq};
ghost use Rattle.ij_bits.specs.BitLists.{same_bit};
ghost use Rattle.icl_lexer.specs.Values.{ABoundParameter};
ghost use Rattle.icl_lexer.specs.Views.{seen_expr, seen_what, seen_bind, seen_module};
ghost use Rattle.icl_declarations.specs.Faults.{Gives, over};
ghost use Rattle.icl_declarations.specs.Tables.{seen_table};
ghost use Rattle.icl_declarations.specs.Parts.{block_named, is_parameter_that, has_parameter, is_bindable};
ghost use Rattle.icl_frames.specs.FirstPass.{known_block, with_binding};

use crate::ElabFault;
use icl_declarations::{ParamTable, evaluate};
use icl_lexer::{Bind, Expr, Item, Module, SmallText, What};
use ij_text::{Place, name_of};
use std::alloc::Global;

/// The module of this name, if there is one.
pub fn block_named<'a>(modules: &'a [Module], name: &[u8]) -> Option<&'a Module>
    ensures { option_map (λ m. seen_module m.now) result
        ≡ block_named (map seen_module modules.now) name.now }
{
    for block in modules {
        if name == block.name.as_slice() {
            return Some(block);
        }
    }
    None
}

/// The module of this name.
pub fn known_block<'a>(
    alloc: Global,
    modules: &'a [Module],
    name: &[u8],
) -> Result<&'a Module, ElabFault>
    ensures { Gives (λ m. seen_module m.now) result
        (known_block name.now (block_named (map seen_module modules.now) name.now)) }
{
    match block_named(modules, name) {
        Some(block) => Ok(block),
        None => {
            let name = name_of(alloc, name)?;
            Err(ElabFault::NoModule { name })
        }
    }
}

/// Whether an item is a parameter of this name that is local, or isn't.
fn is_parameter_named(item: &Item, is_local: bool, name: &[u8]) -> bool
    ensures { result ≡ (is_parameter_that (same_bit is_local)
        (seen_what item.now.what) && bytes_eq name.now item.now.name.items) }
{
    match &item.what {
        What::Parameter { local, .. } => *local == is_local && name == item.name.as_slice(),
        _ => false,
    }
}

fn has_parameter(block: &Module, is_local: bool, name: &[u8]) -> bool
    ensures { result ≡ has_parameter (same_bit is_local) (seen_module block.now) name.now }
{
    for item in block.items.as_slice() {
        if is_parameter_named(item, is_local, name) {
            return true;
        }
    }
    false
}

/// Whether an instance of a module may bind a parameter of this name.
pub fn is_bindable(block: &Module, name: &[u8]) -> bool
    ensures { result ≡ is_bindable (seen_module block.now) name.now }
{
    has_parameter(block, false, name) && !has_parameter(block, true, name)
}

/// Adds a parameter to those that an instance binds.
fn bind(
    alloc: Global,
    params: &ParamTable,
    block: &Module,
    given: &mut ParamTable,
    at: Place,
    name: &SmallText,
    e: &Expr,
) -> Result<(), ElabFault>
    ensures { Gives (λ u. seen_table given.new) result (with_binding (seen_table params.now) (seen_module
        block.now) (seen_table given.old) (ABoundParameter at name.now.items (seen_expr e.now))) }
{
    if !is_bindable(block, name.as_slice()) {
        let name = name_of(alloc, name.as_slice())?;
        return Err(ElabFault::NoName { at, name });
    }
    if given.find(name.as_slice()).is_some() {
        let name = name_of(alloc, name.as_slice())?;
        return Err(ElabFault::DoubleName { at, name });
    }
    let value = evaluate(alloc, params, e, at)?;
    given.insert(alloc, name.as_slice(), value)?;
    Ok(())
}

/// The parameters that an instance binds, with one more.
fn with_bound(
    alloc: Global,
    params: &ParamTable,
    block: &Module,
    given: ParamTable,
    at: Place,
    name: &SmallText,
    e: &Expr,
) -> Result<ParamTable, ElabFault>
    ensures { Gives seen_table result (with_binding (seen_table params.now) (seen_module block.now)
        (seen_table given) (ABoundParameter at name.now.items (seen_expr e.now))) }
{
    let mut given = given;
    match bind(alloc, params, block, &mut given, at, name, e) {
        Ok(()) => Ok(given),
        Err(e) => {
            drop(given);
            Err(e)
        }
    }
}

/// The parameters that an instance binds, with one more where the binding is one. They are evaluated in the
/// parent.
fn with_binding(
    alloc: Global,
    params: &ParamTable,
    block: &Module,
    given: ParamTable,
    bind: &Bind,
) -> Result<ParamTable, ElabFault>
    ensures { Gives seen_table result (with_binding (seen_table params.now) (seen_module block.now)
        (seen_table given) (seen_bind bind.now)) }
{
    match bind {
        Bind::Parameter { at, name, value } => {
            with_bound(alloc, params, block, given, *at, name, value)
        }
        _ => Ok(given),
    }
}

/// The parameters that an instance binds.
pub fn bound_parameters(
    alloc: Global,
    params: &ParamTable,
    block: &Module,
    binds: &[Bind],
) -> Result<ParamTable, ElabFault>
    ensures { Gives seen_table result
        (over (with_binding (seen_table params.now) (seen_module block.now)) [] (map seen_bind binds.now)) }
{
    let mut given = ParamTable::new(alloc);
    for bind in binds {
        given = with_binding(alloc, params, block, given, bind)?;
    }
    Ok(given)
}
