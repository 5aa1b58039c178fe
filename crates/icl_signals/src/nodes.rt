// The nodes of a network: each cell with its path of instance names.
ghost use Rattle.std.specs.Prelude.{◌≡◌, [], map, get_or, Some, None, IfOk};
ghost use Rattle.net_graph.specs.Nets.{path_of};
ghost use Rattle.icl_references.specs.Roles.{seen_cell, seen_hier};
ghost use Rattle.icl_signals.specs.Connecting.{path_with, nodes_of};

use icl_elab::{Cell, Hier};
use ij_bits::{List, OutOfMemory};
use ij_text::{Name, name_of};
use net_graph::Node;
use std::alloc::Global;

/// The path of a node, copied, with room for one name more.
fn path_copy(alloc: Global, path: &[Name]) -> Result<List<Name>, OutOfMemory>
    ensures { IfOk result (λ all. map (λ name. name.items) all.items ≡ map (λ name. name.items) path.now) }
{
    let mut all = List::new(alloc);
    for name in path {
        all.push(name_of(alloc, name.as_slice())?)?;
    }
    Ok(all)
}

/// The path of a node, empty for one that isn't there.
fn path_at(nodes: &[Node], node: u32) -> &[Name]
    ensures { map (λ name. name.items) result.now
        ≡ get_or (map path_of nodes.now) node [] }
{
    match nodes.get(node as usize) {
        Some(node) => node.path.as_slice(),
        None => &[],
    }
}

/// The path of a cell, after those of the cells before it.
fn path_of(alloc: Global, nodes: &[Node], cell: &Cell) -> Result<List<Name>, OutOfMemory>
    ensures { IfOk result (λ path. map (λ name. name.items) path.items
        ≡ path_with (map path_of nodes.now) (seen_cell cell.now) cell.now.parent) }
{
    let Some(parent) = cell.parent else {
        return Ok(List::new(alloc));
    };
    let mut path = path_copy(alloc, path_at(nodes, parent))?;
    path.push(name_of(alloc, cell.name.as_slice())?)?;
    Ok(path)
}

/// The nodes of a hierarchy, by the numbers of its cells.
pub(crate) fn nodes_of(alloc: Global, hier: &Hier) -> Result<List<Node>, OutOfMemory>
    ensures { IfOk result (λ nodes. nodes.items ≡ nodes_of (seen_hier hier.now)) }
{
    let mut nodes = List::new(alloc);
    for cell in hier.cells.as_slice() {
        let path = path_of(alloc, nodes.as_slice(), cell)?;
        let module = name_of(alloc, cell.module.as_slice())?;
        nodes.push(Node { path, module })?;
    }
    Ok(nodes)
}
