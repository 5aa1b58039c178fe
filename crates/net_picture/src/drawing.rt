// The drawing of a network in a state.
ghost use Rattle.std.specs.Prelude.{◌≡◌, All, IfOk};
ghost use Rattle.net_graph.specs.Held.{AreHolds};
ghost use Rattle.net_graph.specs.Nets.{IsNet};
ghost use Rattle.net_tree.specs.Form.{Describes};
ghost use Rattle.net_picture.specs.Drawing.{drawing_of, seen_drawing};
ghost use Rattle.net_picture.specs.There.{IsShapeOf};

use crate::layout::draw_items;
use crate::numbers::plus;
use crate::pen::Pen;
use crate::plan::{has_path, plan_of};
use crate::shape::Shape;
use ij_bits::OutOfMemory;
use net_graph::{Holds, Net};
use net_tree::Tree;
use std::alloc::Global;

/// The size of a view, and where the wire to TDO ends in it.
#[derive(Clone, Copy, Drop)]
pub(crate) struct View {
    pub width: u64,
    pub height: u64,
    pub x: u64,
    pub y: u64,
}

/// What is drawn: its shapes, and its view.
#[derive(Drop)]
pub(crate) struct Drawing {
    pub shapes: Vec<Shape>,
    pub view: View,
}

/// The drawing of a network in a state.
pub(crate) fn drawing_of(
    alloc: Global,
    net: &Net,
    tree: &Tree,
    holds: &Holds,
) -> Result<Drawing, OutOfMemory>
    requires well_formed { IsNet net.now }
    requires form { Describes net.now tree.now }
    requires holds { AreHolds net.now holds.now }
    ensures drawing { IfOk result (λ drawing. seen_drawing drawing ≡ drawing_of net.now holds.now tree.now) }
    ensures there { IfOk result (λ drawing. All (IsShapeOf net.now) drawing.shapes.items) }
{
    let on = has_path(alloc, net, holds)?;
    let plan = plan_of(alloc, net, holds)?;
    let mut shapes = Vec::new(alloc);
    let start = Pen::start_at(48, 36)?;
    let end = draw_items(alloc, &plan, on, tree.entries(), start, &mut shapes)?;
    let x = plus(end.x, 18)?;
    let width = plus(end.right, 66)?;
    let height = plus(end.bottom, 20)?;
    shapes.push(Shape::Wire {
        x: end.x,
        y: end.y,
        turn: end.x,
        to_x: x,
        to_y: end.y,
        active: on,
    })?;
    let view = View {
        width,
        height,
        x,
        y: end.y,
    };
    Ok(Drawing { shapes, view })
}
