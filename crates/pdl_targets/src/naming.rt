// The register bits that a step names.
ghost use Rattle.std.specs.Prelude.{◌≡◌, ◌<◌, ◌^◌, length, None, Some, IfOk};
ghost use Rattle.std.specs.Option.{option_map};
ghost use Rattle.net_graph.specs.Nets.{IsNet, IsThing};
ghost use Rattle.pdl_parser.specs.Views.{seen_target, seen_value};
ghost use Rattle.pdl_targets.specs.Index.{IsIndex};
ghost use Rattle.pdl_targets.specs.Seen.{Finds};
ghost use Rattle.pdl_targets.specs.SeenNamed.{seen_named};
ghost use Rattle.pdl_targets.specs.Targets.{named, read_bits, spots_of, target_thing, thing_at, write_bits};

use crate::fault::TargetFault;
use crate::index::Index;
use crate::register_bits::{reads_of, writes_of};
use crate::things::{spots_of, thing_at};
use crate::values::value_bits;
use ij_bits::{List, Tern};
use ij_text::Place;
use net_graph::{Net, ReadBit, SpotPart, Thing, WriteBit};
use pdl_parser::{Target, Value};
use std::alloc::Global;

/// The bits of a target, and those of its value.
#[derive(Drop)]
pub(crate) struct Named<'a> {
    pub spots: SpotPart<'a>,
    pub values: Tern,
}

/// The thing that a target leads to from a cell.
fn target_thing<'a>(
    alloc: Global,
    net: &'a Net,
    index: &Index,
    at: Place,
    node: u32,
    target: &Target,
) -> Result<&'a Thing, TargetFault>
    requires net { IsNet net.now }
    requires index { IsIndex net.now index.now }
    ensures thing { Finds (λ t. t.now)
        (target_thing at (thing_at net.now node (seen_target target.now).path)) result }
    ensures formed { IfOk result (λ t. IsThing net.now t.now) }
{
    match thing_at(alloc, net, index, node, target.path.as_slice())? {
        Some(thing) => Ok(thing),
        None => Err(TargetFault::NoTarget { at }),
    }
}

/// The bits of a target, and those of its value.
fn named_bits<'a>(
    alloc: Global,
    net: &'a Net,
    index: &Index,
    at: Place,
    node: u32,
    target: &Target,
    value: &Value,
) -> Result<Named<'a>, TargetFault>
    requires net { IsNet net.now }
    requires index { IsIndex net.now index.now }
    ensures named { Finds seen_named
        (named net.now at node (seen_target target.now) (seen_value value.now)) result }
    ensures wide { IfOk result (λ n. length n.values.value.items ≡ length n.spots) }
    ensures few { IfOk result (λ n. length n.spots < 2 ^ 32) }
{
    let thing = target_thing(alloc, net, index, at, node, target)?;
    let spots = spots_of(at, thing, target.range)?;
    let values = value_bits(alloc, at, thing, value, spots.len())?;
    Ok(Named { spots, values })
}

/// The writes of an iWrite.
pub(crate) fn write_bits(
    alloc: Global,
    net: &Net,
    index: &Index,
    at: Place,
    node: u32,
    target: &Target,
    value: &Value,
) -> Result<List<WriteBit>, TargetFault>
    requires net { IsNet net.now }
    requires index { IsIndex net.now index.now }
    ensures { Finds (λ ws. ws.items)
        (write_bits net.now at node (seen_target target.now) (seen_value value.now)) result }
{
    let named = named_bits(alloc, net, index, at, node, target, value)?;
    writes_of(alloc, net, &index.selects, at, &named.spots, &named.values)
}

/// The reads of an iRead without a value.
fn reads_without_value(
    alloc: Global,
    net: &Net,
    index: &Index,
    at: Place,
    node: u32,
    target: &Target,
) -> Result<List<ReadBit>, TargetFault>
    requires net { IsNet net.now }
    requires index { IsIndex net.now index.now }
    ensures { Finds (λ rs. rs.items) (read_bits net.now at node 0 (seen_target target.now) None) result }
{
    let thing = target_thing(alloc, net, index, at, node, target)?;
    let _ = spots_of(at, thing, target.range)?;
    Ok(List::new(alloc))
}

/// The reads of an iRead with a value, which is the one of this number.
fn reads_with_value(
    alloc: Global,
    net: &Net,
    index: &Index,
    at: Place,
    node: u32,
    number: u32,
    target: &Target,
    value: &Value,
) -> Result<List<ReadBit>, TargetFault>
    requires net { IsNet net.now }
    requires index { IsIndex net.now index.now }
    ensures { Finds (λ rs. rs.items)
        (read_bits net.now at node number (seen_target target.now) (Some (seen_value value.now))) result }
{
    let named = named_bits(alloc, net, index, at, node, target, value)?;
    reads_of(
        alloc,
        net,
        &index.selects,
        &index.captors,
        at,
        number,
        &named.spots,
        &named.values,
    )
}

/// The reads of an iRead, which is the one of this number.
pub(crate) fn read_bits(
    alloc: Global,
    net: &Net,
    index: &Index,
    at: Place,
    node: u32,
    number: u32,
    target: &Target,
    value: &Option<Value>,
) -> Result<List<ReadBit>, TargetFault>
    requires net { IsNet net.now }
    requires index { IsIndex net.now index.now }
    ensures { Finds (λ rs. rs.items)
        (read_bits net.now at node number (seen_target target.now) (option_map seen_value value.now)) result }
{
    match value {
        None => reads_without_value(alloc, net, index, at, node, target),
        Some(value) => reads_with_value(alloc, net, index, at, node, number, target, value),
    }
}
