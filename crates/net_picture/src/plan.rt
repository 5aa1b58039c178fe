// What has to be known of a network and its state before it is drawn.
ghost use Rattle.std.specs.Prelude.{◌≡◌, ◌<◌, [], length, IfOk};
ghost use Rattle.net_graph.specs.Held.{AreHolds};
ghost use Rattle.net_graph.specs.Nets.{IsNet};
ghost use Rattle.net_picture.specs.Plan as plans;

use crate::labels::{box_width, name_room, values_room};
use ij_bits::OutOfMemory;
use net_graph::{Holds, Net, path, register_count, row_of};
use std::alloc::Global;

/// What has to be known of a multiplexer: the room to the left of its funnel, for the select values of its
/// rows, that to the right, for its name, in units of the view, and the row that it is in.
#[derive(Clone, Copy, Drop)]
pub(crate) struct MuxPlan {
    pub values: u64,
    pub name: u64,
    pub row: Option<u32>,
}

/// The width of each register's box, and what has to be known of each multiplexer, by their numbers.
#[derive(Drop)]
pub(crate) struct Plan {
    pub boxes: Vec<u64>,
    pub muxes: Vec<MuxPlan>,
}

impl Plan {
    /// The width of a register's box.
    pub(crate) fn box_of(&self, reg: u32) -> u64
        ensures { result ≡ plans.box_of (plans.seen_plan self.now) reg }
    {
        match self.boxes.get(reg as usize) {
            Some(width) => *width,
            None => 0,
        }
    }

    /// What has to be known of a multiplexer.
    pub(crate) fn mux_of(&self, mux: u32) -> MuxPlan
        ensures { result ≡ plans.mux_of (plans.seen_plan self.now) mux }
    {
        match self.muxes.get(mux as usize) {
            Some(part) => *part,
            None => MuxPlan {
                values: 0,
                name: 0,
                row: None,
            },
        }
    }
}

/// Whether there is an active path.
pub(crate) fn has_path(alloc: Global, net: &Net, holds: &Holds) -> Result<bool, OutOfMemory>
    requires well_formed { IsNet net.now }
    requires holds { AreHolds net.now holds.now }
    ensures { IfOk result (λ on. on ≡ plans.has_path net.now holds.now) }
{
    match path(alloc, net, holds)? {
        Some(registers) => {
            drop(registers);
            Ok(true)
        }
        None => Ok(false),
    }
}

/// The width of each register's box.
fn boxes_of(alloc: Global, net: &Net) -> Result<Vec<u64>, OutOfMemory>
    requires { IsNet net.now }
    ensures { IfOk result (λ boxes. boxes.items ≡ (plans.plan_of net.now []).boxes) }
{
    let mut boxes = Vec::new(alloc);
    let count = register_count(net);
    for reg in 0..count {
        let width = box_width(alloc, net, reg)?;
        boxes.push(width)?;
    }
    Ok(boxes)
}

/// What has to be known of a multiplexer.
fn mux_plan(alloc: Global, net: &Net, holds: &Holds, mux: u32) -> Result<MuxPlan, OutOfMemory>
    requires well_formed { IsNet net.now }
    requires holds { AreHolds net.now holds.now }
    requires there { mux < length net.now.muxes.items }
    ensures { IfOk result (λ part. part ≡ plans.mux_plan net.now holds.now mux) }
{
    let rows = net.muxes.get(mux as usize).rows.as_slice();
    let values = values_room(alloc, rows)?;
    let name = name_room(alloc, net, mux)?;
    Ok(MuxPlan {
        values,
        name,
        row: row_of(net, holds, mux),
    })
}

/// What has to be known of each multiplexer.
fn mux_plans(alloc: Global, net: &Net, holds: &Holds) -> Result<Vec<MuxPlan>, OutOfMemory>
    requires well_formed { IsNet net.now }
    requires holds { AreHolds net.now holds.now }
    ensures { IfOk result (λ muxes. muxes.items ≡ (plans.plan_of net.now holds.now).muxes) }
{
    let mut muxes = Vec::new(alloc);
    for mux in 0..net.muxes.len() {
        let part = mux_plan(alloc, net, holds, mux as u32)?;
        muxes.push(part)?;
    }
    Ok(muxes)
}

/// What has to be known of a network and its state.
pub(crate) fn plan_of(alloc: Global, net: &Net, holds: &Holds) -> Result<Plan, OutOfMemory>
    requires well_formed { IsNet net.now }
    requires holds { AreHolds net.now holds.now }
    ensures { IfOk result (λ plan. plans.seen_plan plan ≡ plans.plan_of net.now holds.now) }
{
    let boxes = boxes_of(alloc, net)?;
    let muxes = mux_plans(alloc, net, holds)?;
    Ok(Plan { boxes, muxes })
}
