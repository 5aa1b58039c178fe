// The shapes of a nested form, from the entries of its tree.
ghost use Rattle.std.specs.Prelude.{◌≡◌, ◌+◌, ◌-◌, ◌<◌, ◌≤◌, ◌&&◌, ◌++◌, ◌∷◌, [], ℕ, List, suc, drop, take};
ghost use Rattle.std.specs.Prelude.{length, IfOk, OnOk};
ghost use Rattle.net_tree.specs.declared.entry.Entry.{Entry};
ghost use Rattle.net_tree.specs.Entries.{entries_of, row_entries, row_count};
ghost use Rattle.net_tree.specs.Form.{Items, Rows};
ghost use Rattle.net_picture.specs.declared.pen.Pen.{Pen};
ghost use Rattle.net_picture.specs.declared.pen.Fan.{Fan};
ghost use Rattle.net_picture.specs.declared.shape.Shape.{Shape};
ghost use Rattle.net_picture.specs.declared.shape.RowEnd.{RowEnd};
ghost use Rattle.net_picture.specs.Layout as layout;
ghost use Rattle.net_picture.specs.Plan.{seen_plan};
ghost use Rattle.net_picture.specs.Walk.{ItemsAreLeft, RowsAreLeft};

use crate::draw::{close_mux, draw_register, draw_row_wire, draw_wire_to};
use crate::pen::{Fan, Pen};
use crate::plan::{MuxPlan, Plan};
use crate::shape::{RowEnd, Shape};
use ij_bits::OutOfMemory;
use net_tree::Entry;
use std::alloc::Global;

/// Items up to an index of the entries are drawn, and have come to this pen.
#[derive(Clone, Copy, Drop)]
struct ItemsDrawn {
    at: usize,
    pen: Pen,
}

/// Rows up to an index of the entries are drawn, and have come so far.
#[derive(Clone, Copy, Drop)]
struct RowsDrawn {
    at: usize,
    fan: Fan,
}

/// A multiplexer whose rows are drawn: whether it is on the active path, the row that it is in, and where its
/// wire begins.
#[derive(Clone, Copy, Drop)]
struct Parting {
    active: bool,
    row: Option<u32>,
    pen: Pen,
}

impl Parting {
    /// Whether row q is on the active path.
    fn is_row_active(self, q: usize) -> bool
        ensures { result ≡ (self.active && layout.is_selected_row self.row q) }
    {
        self.active && is_selected_row(self.row, q)
    }
}

/// Whether a row is the one that is selected.
pub(crate) fn is_selected_row(row: Option<u32>, q: usize) -> bool
    ensures { result ≡ layout.is_selected_row row q }
{
    match row {
        Some(selected) => selected as usize == q,
        None => false,
    }
}

/// Draws a list of items, and answers where it has come to.
#[cycle(form)]
pub(crate) fn draw_items(
    alloc: Global,
    plan: &Plan,
    active: bool,
    entries: &[Entry],
    pen: Pen,
    shapes: &mut Vec<Shape>,
) -> Result<Pen, OutOfMemory>
    ensures { IfOk result (λ end. (form : Items) → entries.now ≡ entries_of form
        → (end ≡ layout.pen_after (seen_plan plan.now) pen form)
        × (shapes.new.items ≡ shapes.old.items ++ layout.drawn (seen_plan plan.now) active pen form)) }
{
    let mut done = ItemsDrawn { at: 0, pen };
    while done.at < entries.len() {
        done = draw_item(alloc, plan, active, entries, done, shapes)?;
    }
    Ok(done.pen)
}

/// Draws the next item.
#[cycle(form)]
fn draw_item(
    alloc: Global,
    plan: &Plan,
    active: bool,
    entries: &[Entry],
    done: ItemsDrawn,
    shapes: &mut Vec<Shape>,
) -> Result<ItemsDrawn, OutOfMemory>
    requires { done.at < length entries.now }
    ensures after { IfOk result (λ next. done.at < next.at) }
    ensures within { IfOk result (λ next. next.at ≤ length entries.now) }
    ensures left { IfOk result (λ next. (end : Pen) (all : List Shape) → ItemsAreLeft (seen_plan plan.now)
        active (drop done.at entries.now) done.pen shapes.old.items end all → ItemsAreLeft
        (seen_plan plan.now) active (drop next.at entries.now) next.pen shapes.new.items end all) }
{
    match entries[done.at] {
        Entry::Reg(reg) => {
            let pen = draw_register(plan.box_of(reg), active, reg, done.pen, shapes)?;
            Ok(ItemsDrawn {
                at: done.at + 1,
                pen,
            })
        }
        Entry::Mux { mux, rows } => {
            draw_mux(alloc, plan, active, mux, rows, entries, done, shapes)
        }
        Entry::Row(_) => Ok(ItemsDrawn {
            at: done.at + 1,
            pen: done.pen,
        }),
    }
}

/// Draws a multiplexer, whose rows follow it.
#[cycle(form)]
fn draw_mux(
    alloc: Global,
    plan: &Plan,
    active: bool,
    mux: u32,
    count: usize,
    entries: &[Entry],
    done: ItemsDrawn,
    shapes: &mut Vec<Shape>,
) -> Result<ItemsDrawn, OutOfMemory>
    requires { done.at < length entries.now }
    ensures after { IfOk result (λ next. done.at < next.at) }
    ensures within { IfOk result (λ next. next.at ≤ length entries.now) }
    ensures drawn { IfOk result (λ next. (rows : Rows) (after : List Entry) → drop (done.at + 1) entries.now
        ≡ row_entries rows ++ after → count ≡ row_count rows → (drop next.at entries.now ≡ after)
        × (next.pen ≡ layout.pen_past (seen_plan plan.now) done.pen mux rows) × (shapes.new.items
        ≡ shapes.old.items ++ layout.mux_drawn (seen_plan plan.now) active done.pen mux rows)) }
{
    let part = plan.mux_of(mux);
    let pen = draw_wire_to(active, done.pen, shapes)?;
    let mut ends = Vec::new(alloc);
    let parting = Parting {
        active,
        row: part.row,
        pen,
    };
    let begun = RowsDrawn {
        at: done.at + 1,
        fan: pen.fan()?,
    };
    let drawn = draw_rows(
        alloc, plan, parting, count, entries, begun, shapes, &mut ends,
    )?;
    close_mux(part, active, mux, pen, drawn.fan, &ends, shapes)?;
    Ok(ItemsDrawn {
        at: drawn.at,
        pen: pen.after_mux(drawn.fan, part.values, part.name)?,
    })
}

/// Draws this many rows, and leaves where each of them ends.
#[cycle(form)]
fn draw_rows(
    alloc: Global,
    plan: &Plan,
    parting: Parting,
    count: usize,
    entries: &[Entry],
    begun: RowsDrawn,
    shapes: &mut Vec<Shape>,
    ends: &mut Vec<RowEnd>,
) -> Result<RowsDrawn, OutOfMemory>
    requires { begun.at ≤ length entries.now }
    ensures after { IfOk result (λ next. begun.at ≤ next.at) }
    ensures within { IfOk result (λ next. next.at ≤ length entries.now) }
    ensures left { IfOk result (λ next. (after : List Entry) (end : Fan) (all : List Shape)
        (all_ends : List RowEnd) → RowsAreLeft (seen_plan plan.now) parting.active parting.row parting.pen 0
        count (drop begun.at entries.now) after begun.fan shapes.old.items ends.old.items end all all_ends
        → RowsAreLeft (seen_plan plan.now) parting.active parting.row parting.pen count 0
        (drop next.at entries.now) after next.fan shapes.new.items ends.new.items end all all_ends) }
{
    let mut done = begun;
    for q in 0..count {
        done = draw_row(alloc, plan, parting, q, entries, done, shapes, ends)?;
    }
    Ok(done)
}

/// Draws row q, and leaves where it ends.
#[cycle(form)]
fn draw_row(
    alloc: Global,
    plan: &Plan,
    parting: Parting,
    q: usize,
    entries: &[Entry],
    done: RowsDrawn,
    shapes: &mut Vec<Shape>,
    ends: &mut Vec<RowEnd>,
) -> Result<RowsDrawn, OutOfMemory>
    requires { done.at ≤ length entries.now }
    ensures after { IfOk result (λ next. done.at ≤ next.at) }
    ensures within { IfOk result (λ next. next.at ≤ length entries.now) }
    ensures left { IfOk result (λ next. (k : ℕ) (after : List Entry) (end : Fan) (all : List Shape)
        (all_ends : List RowEnd) → RowsAreLeft (seen_plan plan.now) parting.active parting.row parting.pen q
        (suc k) (drop done.at entries.now) after done.fan shapes.old.items ends.old.items end all all_ends
        → RowsAreLeft (seen_plan plan.now) parting.active parting.row parting.pen (suc q) k
        (drop next.at entries.now) after next.fan shapes.new.items ends.new.items end all all_ends) }
{
    if entries.len() <= done.at {
        return Ok(done);
    }
    match entries[done.at] {
        Entry::Row(span) => {
            let end = span_end(entries, done.at, span);
            let active = parting.is_row_active(q);
            draw_row_wire(active, parting.pen, done.fan, shapes)?;
            let start = Pen::start_at(done.fan.x, done.fan.y)?;
            let items = &entries[done.at + 1..end];
            let pen = draw_items(alloc, plan, active, items, start, shapes)?;
            ends.push(RowEnd { x: pen.x, y: pen.y })?;
            let fan = done.fan.after_row(pen)?;
            Ok(RowsDrawn { at: end, fan })
        }
        Entry::Reg(_) => Ok(done),
        Entry::Mux { .. } => Ok(done),
    }
}

/// Where a row ends that begins at an index and spans this many entries.
fn span_end(entries: &[Entry], at: usize, span: usize) -> usize
    requires { at < length entries.now }
    ensures after { at < result }
    ensures within { result ≤ length entries.now }
    ensures part { take (result - (at + 1)) (drop (at + 1) entries.now)
        ≡ take span (drop (at + 1) entries.now) }
    ensures rest { drop result entries.now ≡ drop span (drop (at + 1) entries.now) }
{
    let left = entries.len() - at - 1;
    at + 1 + span.min(left)
}
