// The names of the cells, in an index.
ghost use Rattle.std.specs.Prelude.{◌≡◌, length, take, IfOk};
ghost use Rattle.net_graph.specs.Nets.{IsNet};
ghost use Rattle.pdl_targets.specs.Index.{IsIndex};

use crate::captors::{Captors, captors_of};
use ij_bits::{List, OutOfMemory};
use ij_text::{Name, Names};
use net_graph::{BitMarks, Net, Thing, selects_of};
use pdl_expand::dotted_paths;
use std::alloc::Global;

/// What is looked up in a network for each step.
#[derive(Drop)]
pub(crate) struct Index {
    /// The dotted paths of the cells.
    pub cells: Names,
    /// The bits that select.
    pub selects: BitMarks,
    /// Which register bits capture a signal.
    pub captors: Captors,
    /// The keys of the things in their order, a hint where a thing is: it is looked at before it is
    /// believed.
    pub things: Names,
}

/// What a thing is looked up by: its name and the cell that it is in.
pub(crate) fn thing_key(alloc: Global, node: u32, name: &[u8]) -> Result<Name, OutOfMemory>
    ensures { IfOk result (λ key. take (length name.now) key.items ≡ name.now) }
{
    let mut bytes = Vec::from_slice(alloc, name)?;
    bytes.extend_from_slice(&node.to_le_bytes())?;
    Ok(List::from(bytes))
}

/// The keys of things, each once.
fn thing_keys(alloc: Global, things: &[Thing]) -> Result<Names, OutOfMemory> {
    let mut names = Names::new(alloc);
    for thing in things {
        let key = thing_key(alloc, thing.node, thing.name.as_slice())?;
        if names.len() < 0xffff_fffe {
            names.intern(&key)?;
        }
    }
    Ok(names)
}

/// The index of a network.
pub(crate) fn index_of(alloc: Global, net: &Net) -> Result<Index, OutOfMemory>
    requires { IsNet net.now }
    ensures { IfOk result (IsIndex net.now) }
{
    pdl_expand::paths_differ();
    let cells = dotted_paths(alloc, net.nodes.as_slice())?;
    let selects = selects_of(alloc, net)?;
    let captors = captors_of(alloc, net)?;
    let things = thing_keys(alloc, net.things.as_slice())?;
    Ok(Index {
        cells,
        selects,
        captors,
        things,
    })
}
