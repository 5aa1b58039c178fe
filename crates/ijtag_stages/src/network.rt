// From the design's modules to the network that is compiled for or played on: the hierarchy, its signals, and
// the nested form.
ghost use Rattle.std.specs.Prelude.{IfOk};
ghost use Rattle.icl_frames.specs.Written.{AreWritten};
ghost use Rattle.icl_lexer.specs.Views.{seen_design};
ghost use Rattle.ijtag_stages.specs.Follows.{Follows};
ghost use Rattle.ijtag_stages.specs.Nested.{IsNested};
ghost use Rattle.ijtag_stages.specs.Networks.{network_below};

use crate::connect::connect_hierarchy;
use crate::elab::elaborate_design;
use crate::nest::nest_network;
use crate::refusal::StageFault;
use icl_lexer::Design;
use net_graph::{Device, Net};
use net_tree::Tree;
use std::alloc::Global;

/// A network with its nested form.
#[derive(Drop)]
pub struct Network {
    /// The network.
    pub net: Net,
    /// Its nested form.
    pub form: Tree,
}

/// The network below the top module of this name, between the ends that the device's instruction selects.
#[tactic(auto, unfolding(crate::specs::Networks::network_below))]
pub fn read_network(
    alloc: Global,
    design: &Design,
    top: &str,
    device: &Device,
) -> Result<Network, StageFault>
    requires { AreWritten (seen_design design.now) }
    ensures follows { Follows
        (network_below (seen_design design.now) top.now device.now) (λ network. network) result }
    ensures nested { IfOk result (λ network. IsNested network.net network.form) }
{
    let hier = elaborate_design(alloc, design, top)?;
    let net = connect_hierarchy(alloc, &hier, device)?;
    let form = nest_network(alloc, &net)?;
    Ok(Network { net, form })
}
