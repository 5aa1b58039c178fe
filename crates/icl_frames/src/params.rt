// The parameters of a cell.
ghost use Rattle.std.specs.Prelude.{◌≡◌, [], map};
ghost use Rattle.std.specs.Option.{option_map};
ghost use Rattle.icl_lexer.specs.Values.{AParameter};
ghost use Rattle.icl_lexer.specs.Views.{seen_expr, seen_what, seen_item};
ghost use Rattle.icl_declarations.specs.Faults.{Gives, over};
ghost use Rattle.icl_declarations.specs.Values.{seen_value};
ghost use Rattle.icl_declarations.specs.Tables.{seen_table};
ghost use Rattle.icl_frames.specs.FirstPass.{bound_value, param_in, with_parameter};

use crate::ElabFault;
use icl_declarations::{ParamTable, Value, evaluate};
use icl_lexer::{Expr, Item, SmallText, What};
use ij_text::Place;
use std::alloc::Global;

/// The value that a parameter's instance binds it to, if it does and the parameter isn't local.
fn bound_value<'a>(given: &'a ParamTable, local: bool, name: &SmallText) -> Option<&'a Value>
    ensures { option_map (λ v. seen_value v.now) result
        ≡ bound_value (seen_table given.now) local name.now.items }
{
    if local {
        None
    } else {
        given.find(name.as_slice())
    }
}

/// The value of a parameter: the one that is bound, or its own.
fn value_of(
    alloc: Global,
    given: &ParamTable,
    params: &ParamTable,
    at: Place,
    name: &SmallText,
    local: bool,
    e: &Expr,
) -> Result<Value, ElabFault>
    ensures { Gives seen_value result (param_in (seen_table given.now) (seen_table params.now) at
        name.now.items (seen_expr e.now) (bound_value (seen_table given.now) local name.now.items)) }
{
    match bound_value(given, local, name) {
        Some(value) => {
            let value = value.copy(alloc)?;
            Ok(value)
        }
        None => evaluate(alloc, params, e, at),
    }
}

/// Adds a parameter to those of a cell.
fn add_parameter(
    alloc: Global,
    given: &ParamTable,
    params: &mut ParamTable,
    item: &Item,
    local: bool,
    e: &Expr,
) -> Result<(), ElabFault>
    ensures { Gives (λ u. seen_table params.new) result (with_parameter (seen_table given.now)
        (seen_table params.old) (seen_item item.now) (AParameter local (seen_expr e.now))) }
{
    let value = value_of(alloc, given, params, item.at, &item.name, local, e)?;
    params.insert(alloc, item.name.as_slice(), value)?;
    Ok(())
}

/// The parameters with one more, where the item is one.
fn with_parameter(
    alloc: Global,
    given: &ParamTable,
    params: ParamTable,
    item: &Item,
) -> Result<ParamTable, ElabFault>
    ensures { Gives seen_table result (with_parameter (seen_table given.now) (seen_table params)
        (seen_item item.now) (seen_what item.now.what)) }
{
    match &item.what {
        What::Parameter { local, value } => {
            let mut params = params;
            match add_parameter(alloc, given, &mut params, item, *local, value) {
                Ok(()) => Ok(params),
                Err(e) => {
                    drop(params);
                    Err(e)
                }
            }
        }
        _ => Ok(params),
    }
}

/// The parameters of a module with these items, some of which its instance binds.
pub fn parameters(
    alloc: Global,
    given: &ParamTable,
    items: &[Item],
) -> Result<ParamTable, ElabFault>
    ensures { Gives seen_table result (over
        (λ ps item. with_parameter (seen_table given.now) ps item item.what) [] (map seen_item items.now)) }
{
    let mut params = ParamTable::new(alloc);
    for item in items {
        params = with_parameter(alloc, given, params, item)?;
    }
    Ok(params)
}
