// Ranges.
ghost use Rattle.std.specs.Prelude.{◌≡◌, ◌+◌, ◌-◌};
ghost use Rattle.std.specs.Option.{option_map};
ghost use Rattle.ij_text.specs.Options.{same};
ghost use Rattle.icl_lexer.specs.Views.{seen_expr, seen_range};
ghost use Rattle.icl_declarations.specs.Faults.{Gives};
ghost use Rattle.icl_declarations.specs.Tables.{seen_table};
ghost use Rattle.icl_declarations.specs.Ranges.{has_index, position_of, right_end, indices, check_width};
ghost use Rattle.icl_declarations.specs.Ranges.{declared, position_range, named_positions, width};

use crate::expressions::integer;
use crate::fault::ElabFault;
use crate::params::ParamTable;
use icl_lexer::{Expr, Range};
use ij_text::{Place, Which};
use std::alloc::Global;

/// The outermost indices of a declaration, or the two of a range.
#[derive(Clone, Copy, Drop)]
pub struct Bounds {
    /// The index on the left.
    pub left: u32,
    /// The index on the right, that of position 0.
    pub right: u32,
}

/// Positions from a lowest up to a highest one.
#[derive(Clone, Copy, Drop)]
pub struct Stretch {
    /// The lowest position.
    pub low: u32,
    /// The highest position.
    pub high: u32,
}

/// How many indices there are.
pub fn width(b: Bounds) -> u64
    ensures { result ≡ width b }
{
    u64::from(b.left.abs_diff(b.right)) + 1
}

fn has_index(b: Bounds, i: u32) -> bool
    ensures { result ≡ has_index b i }
{
    (b.right <= i && i <= b.left) || (b.left <= i && i <= b.right)
}

fn position_of(b: Bounds, i: u32) -> u32
    ensures { result ≡ position_of b i }
{
    i.abs_diff(b.right)
}

fn right_end(
    alloc: Global,
    params: &ParamTable,
    at: Place,
    left: u32,
    right: &Option<Expr>,
) -> Result<u32, ElabFault>
    ensures { Gives same result (right_end (seen_table params.now) at left (option_map seen_expr right.now)) }
{
    match right {
        Some(e) => integer(alloc, params, e, at),
        None => Ok(left),
    }
}

/// The two indices of a range, which are one in a range of one index.
#[tactic(auto, unfolding(crate::specs::Ranges::indices))]
pub fn indices(alloc: Global, params: &ParamTable, r: &Range) -> Result<Bounds, ElabFault>
    ensures { Gives same result (indices (seen_table params.now) (seen_range r.now)) }
{
    let left = integer(alloc, params, &r.ends.left, r.at)?;
    let right = right_end(alloc, params, r.at, left, &r.ends.right)?;
    Ok(Bounds { left, right })
}

fn check_width(b: Bounds) -> Result<Bounds, ElabFault>
    ensures { Gives same result (check_width b) }
{
    if width(b) > 65536 {
        return Err(ElabFault::Limit {
            which: Which::Width,
            number: 65536,
        });
    }
    Ok(b)
}

/// The outermost indices of a declaration with this range, or without one.
pub fn declared(
    alloc: Global,
    params: &ParamTable,
    range: &Option<Range>,
) -> Result<Bounds, ElabFault>
    ensures { Gives same result (declared (seen_table params.now) (option_map seen_range range.now)) }
{
    match range {
        Some(r) => {
            let b = indices(alloc, params, r)?;
            check_width(b)
        }
        None => Ok(Bounds { left: 0, right: 0 }),
    }
}

fn position_range(at: Place, b: Bounds, i: Bounds) -> Result<Stretch, ElabFault>
    ensures { Gives same result (position_range at b i) }
{
    let low = position_of(b, i.right);
    let high = position_of(b, i.left);
    if has_index(b, i.left) && has_index(b, i.right) && low <= high {
        Ok(Stretch { low, high })
    } else {
        Err(ElabFault::BadRange { at })
    }
}

/// The positions that a reference names of a declaration with these indices: all without a range.
pub fn named_positions(
    alloc: Global,
    params: &ParamTable,
    b: Bounds,
    range: &Option<Range>,
) -> Result<Stretch, ElabFault>
    ensures { Gives same result (named_positions (seen_table params.now) b
        (option_map seen_range range.now)) }
{
    match range {
        Some(r) => {
            let i = indices(alloc, params, r)?;
            position_range(r.at, b, i)
        }
        None => Ok(Stretch {
            low: 0,
            high: b.left.abs_diff(b.right),
        }),
    }
}
