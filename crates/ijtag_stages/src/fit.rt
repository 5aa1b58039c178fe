// The tables fit the network.
ghost use Rattle.std.specs.Prelude.{◌≡◌, Some, IfOk, All, length, map};
ghost use Rattle.instruments.specs.Models.{IsModel};
ghost use Rattle.instruments.specs.Seen.{seen_model};
ghost use Rattle.net_graph.specs.Nets.{IsNet};
ghost use Rattle.table_file.specs.Answers.{seen_tables};
ghost use Rattle.ijtag_stages.specs.Fitted.{models_of, fit_refusal};
ghost use Rattle.ijtag_stages.specs.Follows.{Follows, IsToldAs};
ghost use Rattle.ijtag_stages.specs.NetNames.{inst_name};
ghost use Rattle.ijtag_stages.specs.Refusals.{refused_name};

use crate::net_names::inst_name;
use crate::refusal::{Stage, StageFault, refused_at, refused_name};
use bench_file::{FitsFault, Fitted, Table, fits};
use ij_bits::List;
use net_graph::Net;
use std::alloc::Global;

/// A refusal that tells an instrument.
fn refusal_of_inst(alloc: Global, net: &Net, kind: &'static [u8], inst: u32) -> StageFault
    ensures { IsToldAs (Some (refused_name Stage.Fit kind.now (inst_name net.now inst))) result }
{
    match inst_name(alloc, net, inst) {
        Ok(name) => refused_name(alloc, Stage::Fit, kind, name.as_slice()),
        Err(_) => StageFault::OutOfMemory,
    }
}

/// How a fault is reported.
fn refusal_of(alloc: Global, net: &Net, fault: FitsFault) -> StageFault
    ensures { IsToldAs (fit_refusal net.now fault) result }
{
    match fault {
        FitsFault::NoTable { inst } => refusal_of_inst(alloc, net, b"NoTable", inst),
        FitsFault::ExtraTable { at } => refused_at(alloc, Stage::Fit, b"ExtraTable", at),
        FitsFault::PortWidth { inst } => refusal_of_inst(alloc, net, b"PortWidth", inst),
        FitsFault::OutOfMemory => StageFault::OutOfMemory,
    }
}

/// The models of the network's instruments. Where the tables don't fit, the fault says why.
#[tactic(auto, unfolding(crate::specs::Fitted::models_of))]
pub fn fit_tables(alloc: Global, net: &Net, tables: &List<Table>) -> Result<Fitted, StageFault>
    requires net { IsNet net.now }
    requires tables { All (λ t. IsModel (seen_model t.model)) tables.now.items }
    ensures follows { Follows (models_of net.now (seen_tables tables.now)) (λ f. map seen_model f) result }
    ensures count { IfOk result (λ f. length f ≡ length net.now.insts.items) }
    ensures models { IfOk result (λ f. All (λ m. IsModel (seen_model m)) f) }
{
    match fits(alloc, net, tables) {
        Ok(fitted) => Ok(fitted),
        Err(fault) => Err(refusal_of(alloc, net, fault)),
    }
}
