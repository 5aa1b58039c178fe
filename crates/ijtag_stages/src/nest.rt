// The nested form of the network (IEEE 1687-2014, ICL: ScanMux, SelectedBy).
ghost use Rattle.std.specs.Prelude.{◌∷◌, [], Some, codes, IfOk};
ghost use Rattle.net_graph.specs.Nets.{IsNet};
ghost use Rattle.ijtag_stages.specs.Follows.{Follows, IsToldAs};
ghost use Rattle.ijtag_stages.specs.Nested.{IsNested, nested, nest_refusal};
ghost use Rattle.ijtag_stages.specs.NetNames.{cell_name, mux_name, inst_name, bit_arg};
ghost use Rattle.ijtag_stages.specs.Refusals.{Said, refused_name};

use crate::net_names::{bit_arg, cell_name, inst_name, mux_name};
use crate::refusal::{Arg, Stage, StageFault, refused, refused_name, refused_one, refused_two};
use nest_check::{NestFault, nest};
use net_graph::{BitId, Net, Point};
use net_tree::Tree;
use std::alloc::Global;

/// A refusal that tells a register or a mux.
fn refusal_of_cell(alloc: Global, net: &Net, kind: &'static [u8], cell: Point) -> StageFault
    ensures { IsToldAs (Some (refused_name Stage.Nest kind.now (cell_name net.now cell))) result }
{
    match cell_name(alloc, net, cell) {
        Ok(name) => refused_name(alloc, Stage::Nest, kind, name.as_slice()),
        Err(_) => StageFault::OutOfMemory,
    }
}

/// A refusal that tells a bit.
fn refusal_of_bit(alloc: Global, net: &Net, kind: &'static [u8], bit: BitId) -> StageFault
    ensures { IsToldAs (Some
        (record { stage = Stage.Nest; kind = kind.now; args = bit_arg net.now bit ∷ [] })) result }
{
    match bit_arg(alloc, net, bit) {
        Ok(arg) => refused_one(alloc, Stage::Nest, kind, arg),
        Err(_) => StageFault::OutOfMemory,
    }
}

/// The refusal that tells a select bit and the instrument that it drives.
fn refusal_of_drives(alloc: Global, net: &Net, bit: BitId, inst: u32) -> StageFault
    ensures { IsToldAs (Some (record {
      stage = Stage.Nest;
      kind = codes "SelectDrives";
      args = bit_arg net.now bit ∷ Said (inst_name net.now inst) ∷ [];
    })) result }
{
    match (bit_arg(alloc, net, bit), inst_name(alloc, net, inst)) {
        (Ok(bit), Ok(inst)) => {
            refused_two(alloc, Stage::Nest, b"SelectDrives", bit, Arg::Said(inst))
        }
        _ => StageFault::OutOfMemory,
    }
}

/// How a fault of the nested form is reported: its refusal, unless memory ran out.
pub fn refusal_of_nest(alloc: Global, net: &Net, fault: NestFault) -> StageFault
    ensures { IsToldAs (nest_refusal net.now fault) result }
{
    match fault {
        NestFault::Unreached { cell } => refusal_of_cell(alloc, net, b"Unreached", cell),
        NestFault::NotNested => refused(alloc, Stage::Nest, b"NotNested"),
        NestFault::SelectInside { mux } => refusal_of_cell(
            alloc,
            net,
            b"SelectInside",
            Point::Mux(mux),
        ),
        NestFault::SelectShared { bit } => refusal_of_bit(alloc, net, b"SelectShared", bit),
        NestFault::SelectDrives { bit, inst } => refusal_of_drives(alloc, net, bit, inst),
        NestFault::SelectNoReset { bit } => refusal_of_bit(alloc, net, b"SelectNoReset", bit),
        NestFault::ResetUnlisted { mux } => refusal_of_cell(
            alloc,
            net,
            b"ResetUnlisted",
            Point::Mux(mux),
        ),
        NestFault::TooDeep { mux } => refusal_of_cell(alloc, net, b"TooDeep", Point::Mux(mux)),
        NestFault::OutOfMemory => StageFault::OutOfMemory,
    }
}

/// The nested form of a network. Where there is none, or its selects aren't lawful, the fault says why.
#[tactic(auto, unfolding(crate::specs::Nested::nested))]
pub(crate) fn nest_network(alloc: Global, net: &Net) -> Result<Tree, StageFault>
    requires { IsNet net.now }
    ensures follows { Follows (nested net.now) (λ tree. tree) result }
    ensures nested { IfOk result (λ tree. IsNested net.now tree) }
{
    match nest(alloc, net) {
        Ok(tree) => Ok(tree),
        Err(fault) => Err(refusal_of_nest(alloc, net, fault)),
    }
}
