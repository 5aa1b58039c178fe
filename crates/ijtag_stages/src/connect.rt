// The network of the hierarchy (IEEE 1687-2014, ICL: AccessLink).
ghost use Rattle.std.specs.Prelude.{IfOk};
ghost use Rattle.std.specs.Option.{option_map};
ghost use Rattle.icl_elab.specs.WellFormed.{IsHierarchy};
ghost use Rattle.net_graph.specs.Nets.{IsNet};
ghost use Rattle.icl_references.specs.Roles.{seen_hier};
ghost use Rattle.icl_signals.specs.Refusals.{seen_fault};
ghost use Rattle.ijtag_stages.specs.Connected.{connected, connect_refusal};
ghost use Rattle.ijtag_stages.specs.Follows.{Follows, IsToldAs};

use crate::refusal::{Stage, StageFault, refused_at, refused_names};
use icl_elab::Hier;
use icl_signals::{ConnectFault, connect};
use net_graph::{Device, Net};
use std::alloc::Global;

/// How a fault is reported.
fn refusal_of(alloc: Global, fault: ConnectFault) -> StageFault
    ensures { IsToldAs (option_map connect_refusal (seen_fault fault)) result }
{
    match fault {
        ConnectFault::NoLink { link, instr } => {
            refused_names(alloc, Stage::Connect, b"NoLink", link, instr)
        }
        ConnectFault::Undriven { at } => refused_at(alloc, Stage::Connect, b"Undriven", at),
        ConnectFault::SignalLoop { at } => refused_at(alloc, Stage::Connect, b"SignalLoop", at),
        ConnectFault::BadSelect { at } => refused_at(alloc, Stage::Connect, b"BadSelect", at),
        ConnectFault::InstrumentChain { at } => {
            refused_at(alloc, Stage::Connect, b"InstrumentChain", at)
        }
        ConnectFault::OutOfMemory => StageFault::OutOfMemory,
    }
}

/// The network that the device's instruction selects. Where there is none, the fault says where and why.
#[tactic(auto, unfolding(crate::specs::Connected::connected))]
pub fn connect_hierarchy(alloc: Global, hier: &Hier, device: &Device) -> Result<Net, StageFault>
    ensures follows { Follows (connected (seen_hier hier.now) device.now) (λ net. net) result }
    ensures well_formed { IfOk result (λ net. IsHierarchy (seen_hier hier.now) → IsNet net) }
{
    match connect(alloc, hier, &device.link, &device.instr) {
        Ok(net) => Ok(net),
        Err(fault) => Err(refusal_of(alloc, fault)),
    }
}
