// Parts of a hierarchy by their numbers, and kinds of parts.
ghost use Rattle.std.specs.Prelude.{◌≡◌, map, slice_get, IfOk};
ghost use Rattle.std.specs.List.{list_any};
ghost use Rattle.std.specs.Option.{option_map};
ghost use Rattle.icl_elab.specs.WellFormed.{is_data_port, is_barred_in_instrument, is_instrument};
ghost use Rattle.icl_references.specs.Roles.{part_at, part_width, seen_body, seen_part, seen_cell, seen_hier};
ghost use Rattle.icl_signals.specs.Moves.{is_top};
ghost use Rattle.icl_signals.specs.Kinds.{is_wired, test_of};

use icl_elab::{Body, Cell, Hier, Part};
use ij_bits::OutOfMemory;
use std::alloc::Global;

/// A cell, if there is one of this number. Takes no memory.
pub(crate) fn cell_at<'a>(hier: &'a Hier, cell: u32) -> Option<&'a Cell>
    ensures { option_map (λ c. seen_cell c.now) result ≡ slice_get (seen_hier hier.now) cell }
{
    hier.cells.as_slice().get(cell as usize)
}

/// A part of a cell, if there is one of these numbers. Takes no memory.
pub(crate) fn part_at<'a>(hier: &'a Hier, cell: u32, part: u32) -> Option<&'a Part>
    ensures { option_map (λ p. seen_part p.now) result ≡ part_at (seen_hier hier.now) cell part }
{
    match cell_at(hier, cell) {
        Some(c) => c.parts.as_slice().get(part as usize),
        None => None,
    }
}

/// Whether a cell is the top. Takes no memory.
pub(crate) fn is_top(hier: &Hier, cell: u32) -> bool
    ensures { result ≡ is_top (seen_hier hier.now) cell }
{
    match cell_at(hier, cell) {
        Some(c) => c.parent.is_none(),
        None => true,
    }
}

/// How many bits a part has. Takes no memory.
pub(crate) fn width(part: &Part) -> u64
    ensures { result ≡ part_width (seen_part part.now) }
{
    let left = part.left;
    let right = part.right;
    if left >= right {
        u64::from(left - right) + 1
    } else {
        u64::from(right - left) + 1
    }
}

/// The width of a part as a number of 32 bits: a wider one has no room.
pub(crate) fn width_of(part: &Part) -> Result<u32, OutOfMemory>
    ensures { IfOk result (λ n. n ≡ part_width (seen_part part.now)) }
{
    let wide = width(part);
    if wide > 0xFFFF_FFFF {
        return Err(OutOfMemory);
    }
    Ok(wide as u32)
}

/// What the network numbers: registers, multiplexers, what procedures may name, and outputs and inputs of
/// instruments.
#[derive(Clone, Copy, Drop)]
pub enum Kind {
    /// A scan register.
    Register,
    /// A scan multiplexer.
    Mux,
    /// A register, a data port or an alias.
    Thing,
    /// A `DataOutPort`.
    Output,
    /// A `DataInPort`.
    Input,
}

/// Whether a part is of a kind. Takes no memory.
pub(crate) fn is_of(kind: Kind, body: &Body) -> bool
    ensures { result ≡ test_of kind (seen_body body.now) }
{
    match kind {
        Kind::Register => matches!(body, Body::Register { .. }),
        Kind::Mux => matches!(body, Body::Mux { .. }),
        Kind::Thing => matches!(
            body,
            Body::Register { .. } | Body::DataIn { .. } | Body::DataOut { .. } | Body::Alias { .. }
        ),
        Kind::Output => matches!(body, Body::DataOut { .. }),
        Kind::Input => matches!(body, Body::DataIn { .. }),
    }
}

/// Whether a part is a port that is bound, or has a source: a bit of each other part stands for no other one.
/// Takes no memory.
pub(crate) fn is_wired(body: &Body) -> bool
    ensures { result ≡ is_wired (seen_body body.now) }
{
    match body {
        Body::ScanIn { bound } => bound.is_some(),
        Body::ScanOut { source } => source.is_some(),
        Body::DataIn { bound } => bound.is_some(),
        Body::DataOut { source } => source.is_some(),
        _ => false,
    }
}

fn is_data_port(body: &Body) -> bool
    ensures { result ≡ is_data_port (seen_body body.now) }
{
    matches!(body, Body::DataIn { .. } | Body::DataOut { .. })
}

/// What an instrument may not have.
fn is_barred_in_instrument(body: &Body) -> bool
    ensures { result ≡ is_barred_in_instrument (seen_body body.now) }
{
    match body {
        Body::ScanIn { .. } | Body::ScanOut { .. } | Body::Register { .. } => true,
        Body::Mux { .. } | Body::Child { .. } => true,
        Body::DataOut { source } => source.is_some(),
        _ => false,
    }
}

fn has_data_port(parts: &[Part]) -> bool
    ensures { result ≡ list_any (λ p. is_data_port p.role) (map seen_part parts.now) }
{
    for part in parts {
        if is_data_port(&part.body) {
            return true;
        }
    }
    false
}

fn has_barred_in_instrument(parts: &[Part]) -> bool
    ensures { result ≡ list_any (λ p. is_barred_in_instrument p.role) (map seen_part parts.now) }
{
    for part in parts {
        if is_barred_in_instrument(&part.body) {
            return true;
        }
    }
    false
}

/// Whether a cell is an instrument: data ports alone join it to the network, and it isn't the top. Takes no
/// memory.
pub(crate) fn is_instrument(cell: &Cell) -> bool
    ensures { result ≡ is_instrument (seen_cell cell.now) }
{
    let parts = cell.parts.as_slice();
    cell.parent.is_some() && has_data_port(parts) && !has_barred_in_instrument(parts)
}

/// Which cells are instruments.
pub(crate) fn instrument_flags(alloc: Global, cells: &[Cell]) -> Result<Vec<bool>, OutOfMemory>
    ensures { IfOk result (λ flags. flags.items ≡ map is_instrument (map seen_cell cells.now)) }
{
    let mut flags = Vec::new(alloc);
    for cell in cells {
        flags.push(is_instrument(cell))?;
    }
    Ok(flags)
}
