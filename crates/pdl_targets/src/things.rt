// What a target names.
ghost use Rattle.std.specs.Prelude.{◌≡◌, ◌==◌, ◌&&◌, ◌<◌, ◌≤◌, ◌+◌, ◌-◌, ◌++◌, [], length, map, IfOk};
ghost use Rattle.std.specs.Option.{option_map};
ghost use Rattle.std.specs.Str.{bytes_eq};
ghost use Rattle.net_graph.specs.Nets.{IsNet};
ghost use Rattle.pdl_parser.specs.Views.{bytes_of};
ghost use Rattle.pdl_expand.specs.Expansion.{but_last, last, cell, cell_at};
ghost use Rattle.pdl_expand.specs.Values.{cells_of};
ghost use Rattle.pdl_targets.specs.Index.{IsIndex};
ghost use Rattle.pdl_targets.specs.Seen.{Finds};
ghost use Rattle.pdl_targets.specs.Targets.{has_index, position_of, slice_of, spots_of, thing_at, thing_in};

use crate::fault::TargetFault;
use crate::index::{Index, thing_key};
use ij_bits::{List, OutOfMemory};
use ij_text::{Name, Place};
use net_graph::{Net, SpotPart, Thing};
use pdl_expand::put_names;
use std::alloc::Global;

/// The names before the last one.
fn names_before(path: &[Name]) -> &[Name]
    ensures { map bytes_of result.now ≡ but_last (map bytes_of path.now) }
{
    match path {
        [front @ .., _] => front,
        [] => path,
    }
}

/// The last name.
fn last(path: &[Name]) -> &[u8]
    ensures { result.now ≡ last (map bytes_of path.now) }
{
    match path {
        [.., name] => name.as_slice(),
        [] => b"",
    }
}

/// The thing of this name in a cell.
fn thing_in<'a>(things: &'a [Thing], node: u32, name: &[u8]) -> Option<&'a Thing>
    ensures { option_map (λ t. t.now) result ≡ thing_in things.now node name.now }
{
    for thing in things {
        if thing.node == node && thing.name.as_slice() == name {
            return Some(thing);
        }
    }
    None
}

/// Whether a thing is in a cell and has a name.
fn is_named(thing: &Thing, node: u32, name: &[u8]) -> bool
    ensures { result ≡ (thing.now.node == node && bytes_eq thing.now.name.items name.now) }
{
    thing.node == node && thing.name.as_slice() == name
}

/// The thing of this name in a cell, where one is thought to have this number.
fn thing_near<'a>(net: &'a Net, number: u32, node: u32, name: &[u8]) -> Option<&'a Thing>
    requires { IsNet net.now }
    ensures { option_map (λ t. t.now) result ≡ thing_in net.now.things.items node name.now }
{
    let number = number as usize;
    if number < net.things.len() {
        let thing = net.things.get(number);
        if is_named(thing, node, name) {
            return Some(thing);
        }
    }
    thing_in(net.things.as_slice(), node, name)
}

/// The thing of this name in a cell.
fn thing_named<'a>(
    alloc: Global,
    net: &'a Net,
    index: &Index,
    node: u32,
    name: &[u8],
) -> Result<Option<&'a Thing>, OutOfMemory>
    requires { IsNet net.now }
    ensures { IfOk result (λ o. option_map (λ t. t.now) o ≡ thing_in net.now.things.items node name.now) }
{
    let key = thing_key(alloc, node, name)?;
    match index.things.find(&key) {
        Some(number) => Ok(thing_near(net, number, node, name)),
        None => Ok(thing_in(net.things.as_slice(), node, name)),
    }
}

/// The path of a cell.
fn path_of<'a>(net: &'a Net, node: u32, none: &'a [Name]) -> &'a [Name]
    requires { none.now ≡ [] }
    ensures { map bytes_of result.now ≡ (cell (cells_of net.now) node).path }
{
    if (node as usize) < net.nodes.len() {
        net.nodes.get(node as usize).path.as_slice()
    } else {
        none
    }
}

/// The cell that the names before a path's last one lead to, from a cell.
fn cell_of(
    alloc: Global,
    net: &Net,
    index: &Index,
    node: u32,
    path: &[Name],
) -> Result<Option<u32>, OutOfMemory>
    requires { IsIndex net.now index.now }
    ensures { IfOk result (λ o. o ≡ cell_at (cells_of net.now)
        ((cell (cells_of net.now) node).path ++ but_last (map bytes_of path.now))) }
{
    let key = put_names(List::new(alloc), path_of(net, node, &path[..0]))?;
    let key = put_names(key, names_before(path))?;
    Ok(index.cells.find(&key))
}

/// The thing that a path leads to from a cell.
pub(crate) fn thing_at<'a>(
    alloc: Global,
    net: &'a Net,
    index: &Index,
    node: u32,
    path: &[Name],
) -> Result<Option<&'a Thing>, OutOfMemory>
    requires net { IsNet net.now }
    requires index { IsIndex net.now index.now }
    ensures { IfOk result (λ o. option_map (λ t. t.now) o ≡ thing_at net.now node (map bytes_of path.now)) }
{
    match cell_of(alloc, net, index, node, path)? {
        Some(cell) => thing_named(alloc, net, index, cell, last(path)),
        None => Ok(None),
    }
}

/// How far an index is from the right one.
fn position_of(thing: &Thing, i: u32) -> u32
    ensures { result ≡ position_of thing.now i }
{
    i.saturating_sub(thing.right) + thing.right.saturating_sub(i)
}

/// Whether an index lies in the range of a thing.
fn has_index(thing: &Thing, i: u32) -> bool
    ensures { result ≡ has_index thing.now i }
{
    i >= thing.left.min(thing.right) && i <= thing.left.max(thing.right)
}

/// The bits from a left index to a right one, position 0 first.
fn slice_of(at: Place, thing: &Thing, left: u32, right: u32) -> Result<SpotPart<'_>, TargetFault>
    requires { length thing.now.bits.items
        ≡ (thing.now.left - thing.now.right) + (thing.now.right - thing.now.left) + 1 }
    ensures spots { Finds (λ spots. spots) (slice_of at thing.now left right) result }
    ensures few { IfOk result (λ spots. length spots ≤ length thing.now.bits.items) }
{
    let from = position_of(thing, right);
    let to = position_of(thing, left);
    if has_index(thing, left) && has_index(thing, right) && to >= from {
        let _count = thing.bits.len();
        Ok(thing.bits.part(from, to - from + 1))
    } else {
        Err(TargetFault::NoTarget { at })
    }
}

/// The bits of a thing in a range, position 0 first.
pub(crate) fn spots_of(
    at: Place,
    thing: &Thing,
    range: Option<(u32, u32)>,
) -> Result<SpotPart<'_>, TargetFault>
    requires { length thing.now.bits.items
        ≡ (thing.now.left - thing.now.right) + (thing.now.right - thing.now.left) + 1 }
    ensures spots { Finds (λ spots. spots) (spots_of at thing.now range) result }
    ensures few { IfOk result (λ spots. length spots ≤ length thing.now.bits.items) }
{
    match range {
        None => Ok(thing.bits.all()),
        Some((left, right)) => slice_of(at, thing, left, right),
    }
}
