// The shapes of one item: its wires, its box or its funnel.
ghost use Rattle.std.specs.Prelude.{◌≡◌, ◌+◌, ◌-◌, ◌++◌, ◌∷◌, [], OnOk, IfOk};
ghost use Rattle.net_picture.specs.Layout as layout;
ghost use Rattle.net_picture.specs.Pens as pens;

use crate::layout::is_selected_row;
use crate::numbers::plus;
use crate::pen::{Fan, Pen};
use crate::plan::MuxPlan;
use crate::shape::{RowEnd, Shape};
use ij_bits::OutOfMemory;

/// Where a funnel is: its multiplexer, whether that is on the active path, its left edge and the height
/// of its output.
#[derive(Clone, Copy, Drop)]
struct Funnel {
    mux: u32,
    active: bool,
    x: u64,
    y: u64,
}

/// Draws the wire from a full line to the beginning of the next one, and answers where the next item's wire
/// begins.
fn draw_turn(active: bool, pen: Pen, shapes: &mut Vec<Shape>) -> Result<Pen, OutOfMemory>
    ensures pen { IfOk result (λ next. next ≡ pens.next_wire_start pen) }
    ensures shapes { OnOk result (shapes.new.items ≡ shapes.old.items ++ layout.turn_back active pen) }
{
    if pen.is_full()? {
        let (right, above, below) = (plus(pen.x, 9)?, plus(pen.bottom, 4)?, plus(pen.bottom, 30)?);
        shapes.push(Shape::Wire {
            x: pen.x,
            y: pen.y,
            turn: right,
            to_x: pen.left,
            to_y: above,
            active,
        })?;
        shapes.push(Shape::Wire {
            x: pen.left,
            y: above,
            turn: pen.left,
            to_x: pen.left,
            to_y: below,
            active,
        })?;
    }
    pen.next_wire_start()
}

/// Draws the wire to the next item, and answers where it begins.
pub(crate) fn draw_wire_to(
    active: bool,
    pen: Pen,
    shapes: &mut Vec<Shape>,
) -> Result<Pen, OutOfMemory>
    ensures pen { IfOk result (λ next. next ≡ pens.next_wire_start pen) }
    ensures shapes { OnOk result (shapes.new.items ≡ shapes.old.items ++ layout.wire_to active pen) }
{
    let from = draw_turn(active, pen, shapes)?;
    shapes.push(Shape::Wire {
        x: from.x,
        y: from.y,
        turn: from.x,
        to_x: plus(from.x, 18)?,
        to_y: from.y,
        active,
    })?;
    Ok(from)
}

/// Draws a register after its wire, and answers where it ends.
pub(crate) fn draw_register(
    width: u64,
    active: bool,
    reg: u32,
    pen: Pen,
    shapes: &mut Vec<Shape>,
) -> Result<Pen, OutOfMemory>
    ensures pen { IfOk result (λ next. next ≡ pens.after_register (pens.next_wire_start pen) width) }
    ensures shapes { OnOk result
        (shapes.new.items ≡ shapes.old.items ++ layout.register_drawn active pen reg width) }
{
    let from = draw_wire_to(active, pen, shapes)?;
    shapes.push(Shape::Register {
        reg,
        x: plus(from.x, 18)?,
        y: from.y,
        width,
        active,
    })?;
    from.after_register(width)
}

/// Draws the wire from the place where rows part to the beginning of a row.
pub(crate) fn draw_row_wire(
    active: bool,
    pen: Pen,
    fan: Fan,
    shapes: &mut Vec<Shape>,
) -> Result<(), OutOfMemory>
    ensures { OnOk result (shapes.new.items ≡ shapes.old.items ++ layout.row_wire active pen fan ∷ []) }
{
    shapes.push(Shape::Wire {
        x: plus(pen.x, 18)?,
        y: pen.y,
        turn: plus(pen.x, 26)?,
        to_x: fan.x,
        to_y: fan.y,
        active,
    })?;
    Ok(())
}

/// Draws the wire within a funnel from the row that is selected.
fn draw_selected_row_wire(
    selected: bool,
    funnel: Funnel,
    end: RowEnd,
    shapes: &mut Vec<Shape>,
) -> Result<(), OutOfMemory>
    ensures { OnOk result (shapes.new.items
        ≡ shapes.old.items ++ layout.row_shown selected funnel.active funnel.x funnel.y end) }
{
    if selected {
        shapes.push(Shape::Wire {
            x: funnel.x,
            y: end.y,
            turn: plus(funnel.x, 7)?,
            to_x: plus(funnel.x, 14)?,
            to_y: funnel.y,
            active: funnel.active,
        })?;
    }
    Ok(())
}

/// Draws the wire from the end of row q to the funnel, and the row's select values.
fn draw_row_to_funnel(
    selected: bool,
    funnel: Funnel,
    q: usize,
    end: RowEnd,
    shapes: &mut Vec<Shape>,
) -> Result<(), OutOfMemory>
    ensures { OnOk result (shapes.new.items
        ≡ shapes.old.items ++ layout.row_close selected funnel.active funnel.mux q funnel.x funnel.y end) }
{
    shapes.push(Shape::Wire {
        x: end.x,
        y: end.y,
        turn: end.x,
        to_x: funnel.x,
        to_y: end.y,
        active: funnel.active && selected,
    })?;
    shapes.push(Shape::Values {
        mux: funnel.mux,
        row: q,
        x: funnel.x,
        y: end.y,
    })?;
    draw_selected_row_wire(selected, funnel, end, shapes)
}

/// Draws the wires from the ends of all rows to the funnel.
fn draw_rows_to_funnel(
    row: Option<u32>,
    funnel: Funnel,
    ends: &[RowEnd],
    shapes: &mut Vec<Shape>,
) -> Result<(), OutOfMemory>
    ensures { OnOk result (shapes.new.items
        ≡ shapes.old.items ++ layout.row_closes funnel.active row funnel.mux 0 funnel.x funnel.y ends.now) }
{
    for q in 0..ends.len() {
        draw_row_to_funnel(is_selected_row(row, q), funnel, q, ends[q], shapes)?;
    }
    Ok(())
}

/// Draws the funnel of a multiplexer whose rows are drawn, the wires to it, and its output wire.
pub(crate) fn close_mux(
    part: MuxPlan,
    active: bool,
    mux: u32,
    pen: Pen,
    fan: Fan,
    ends: &[RowEnd],
    shapes: &mut Vec<Shape>,
) -> Result<(), OutOfMemory>
    ensures { OnOk result (shapes.new.items
        ≡ shapes.old.items ++ layout.mux_close active part mux pen fan ends.now) }
{
    let x = fan.funnel(part.values)?;
    let output = plus(x, 14)?;
    shapes.push(Shape::Mux {
        mux,
        x,
        y: pen.y,
        height: fan.last.saturating_sub(pen.y),
        active,
    })?;
    let funnel = Funnel {
        mux,
        active,
        x,
        y: pen.y,
    };
    draw_rows_to_funnel(part.row, funnel, ends, shapes)?;
    shapes.push(Shape::Wire {
        x: output,
        y: pen.y,
        turn: output,
        to_x: plus(output, part.name)?,
        to_y: pen.y,
        active,
    })?;
    Ok(())
}
