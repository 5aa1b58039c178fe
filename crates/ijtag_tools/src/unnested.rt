// The network between the ends that a device's instruction selects, whether it has a nested form or not.
ghost use Rattle.std.specs.Prelude.{◌≡◌, Some, IfOk};
ghost use Rattle.std.specs.Option.{option_map};
ghost use Rattle.icl_frames.specs.Written.{AreWritten};
ghost use Rattle.icl_lexer.specs.Views.{seen_design};
ghost use Rattle.net_graph.specs.Nets.{IsNet};
ghost use Rattle.ijtag_stages.specs.Follows.{Follows};
ghost use Rattle.ijtag_tools.specs.Graphs.{form_or_why, fault_cell, graph_below};
ghost use Rattle.ijtag_stages.specs.Nested.{nest_refusal};
ghost use Rattle.ijtag_stages.specs.Seen.{seen_refusal};
ghost use Rattle.ijtag_tools.specs.SeenGraphs.{seen_graph, seen_unnested};

use icl_lexer::Design;
use ij_bits::OutOfMemory;
use ijtag_stages::{Refusal, StageFault, connect_hierarchy, elaborate_design, refusal_of_nest};
use nest_check::{NestFault, nest};
use net_graph::{Device, Net, Point};
use std::alloc::Global;

/// Why a network has no lawful nested form (IEEE 1687-2014, ICL: `ScanMux`, `SelectedBy`).
#[derive(Drop)]
pub struct Unnested {
    /// The refusal of the stage of the nested form.
    pub refusal: Refusal,
    /// The register or multiplexer that it names, of a bit its register.
    pub cell: Option<Point>,
}

/// A network, and why it has no lawful nested form, where it has none.
#[derive(Drop)]
pub struct Graph {
    /// The network.
    pub net: Net,
    /// Why it has no lawful nested form.
    pub unnested: Option<Unnested>,
}

/// The register or multiplexer that a fault names.
fn cell_of(fault: NestFault) -> Option<Point>
    ensures { result ≡ fault_cell fault }
{
    match fault {
        NestFault::Unreached { cell } => Some(cell),
        NestFault::SelectInside { mux } => Some(Point::Mux(mux)),
        NestFault::SelectShared { bit } => Some(Point::Reg(bit.reg)),
        NestFault::SelectDrives { bit, inst: _ } => Some(Point::Reg(bit.reg)),
        NestFault::SelectNoReset { bit } => Some(Point::Reg(bit.reg)),
        NestFault::ResetUnlisted { mux } => Some(Point::Mux(mux)),
        NestFault::TooDeep { mux } => Some(Point::Mux(mux)),
        NestFault::NotNested => None,
        NestFault::OutOfMemory => None,
    }
}

/// How a fault is reported, and what it names.
fn unnested_by(alloc: Global, net: &Net, fault: NestFault) -> Result<Unnested, OutOfMemory>
    ensures told { IfOk result
        (λ why. nest_refusal net.now fault ≡ Some (seen_refusal why.refusal)) }
    ensures cell { IfOk result (λ why. why.cell ≡ fault_cell fault) }
{
    let cell = cell_of(fault);
    match refusal_of_nest(alloc, net, fault) {
        StageFault::Refused(refusal) => Ok(Unnested { refusal, cell }),
        StageFault::OutOfMemory => Err(OutOfMemory),
    }
}

/// Why a network has no lawful nested form, where it has none.
#[tactic(auto, unfolding(crate::specs::Graphs::form_or_why))]
fn find_why_unnested(alloc: Global, net: &Net) -> Result<Option<Unnested>, StageFault>
    requires { IsNet net.now }
    ensures { Follows (form_or_why net.now) (option_map seen_unnested) result }
{
    match nest(alloc, net) {
        Ok(_form) => Ok(None),
        Err(fault) => {
            let why = unnested_by(alloc, net, fault)?;
            Ok(Some(why))
        }
    }
}

/// The network below the top module of this name, between the ends that the device's instruction selects, and
/// why it has no lawful nested form, where it has none.
#[tactic(auto, unfolding(crate::specs::Graphs::graph_below))]
pub fn read_graph(
    alloc: Global,
    design: &Design,
    top: &str,
    device: &Device,
) -> Result<Graph, StageFault>
    requires { AreWritten (seen_design design.now) }
    ensures follows { Follows (graph_below (seen_design design.now) top.now device.now) seen_graph result }
    ensures well_formed { IfOk result (λ graph. IsNet graph.net) }
{
    let hier = elaborate_design(alloc, design, top)?;
    let net = connect_hierarchy(alloc, &hier, device)?;
    let unnested = find_why_unnested(alloc, &net)?;
    Ok(Graph { net, unnested })
}
