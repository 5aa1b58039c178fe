// The network of a hierarchy.
ghost use Rattle.std.specs.Prelude.{◌≡◌, map, IfOk};
ghost use Rattle.ij_text.specs.Options.{same};
ghost use Rattle.icl_references.specs.Roles.{seen_hier};
ghost use Rattle.icl_declarations.specs.Faults.{each};
ghost use Rattle.icl_elab.specs.WellFormed.{IsHierarchy, is_mux, is_register, is_thing};
ghost use Rattle.net_graph.specs.Nets.{IsNet};
ghost use Rattle.icl_signals.specs.Refusals.{Gives};
ghost use Rattle.icl_signals.specs.Wirings.{IsWiring, cells_of};
ghost use Rattle.icl_signals.specs.Connecting.{entries_that, mux_of, network, network_from, register_of};
ghost use Rattle.icl_signals.specs.Connecting.{thing_of};

use crate::ConnectFault;
use crate::ends::scan_from;
use crate::entries::entries_of;
use crate::finding::with_ends;
use crate::instruments::instruments;
use crate::links::ends;
use crate::muxes::muxes;
use crate::nodes::nodes_of;
use crate::parts::Kind;
use crate::registers::registers;
use crate::things::things;
use crate::wiring::{Wiring, wiring_of};
use icl_elab::{Hier, Ref};
use ij_bits::{List, OutOfMemory, pair_if_ok};
use ij_text::{Name, Place};
use net_graph::{Mux, Net, Reg, Thing};
use std::alloc::Global;

/// The registers.
fn own_registers(alloc: Global, wiring: &Wiring) -> Result<List<Reg>, ConnectFault>
    requires { IsWiring wiring.now }
    ensures { Gives (λ all. all.items) result (each (register_of
        (cells_of wiring.now) wiring.now.entry) (entries_that is_register (cells_of wiring.now))) }
{
    let parts = entries_of(alloc, Kind::Register, wiring.hier)?;
    let regs = registers(alloc, wiring, parts.as_slice());
    drop(parts);
    regs
}

/// The multiplexers.
fn own_muxes(alloc: Global, wiring: &Wiring) -> Result<List<Mux>, ConnectFault>
    requires { IsWiring wiring.now }
    ensures { Gives (λ all. all.items) result
        (each (mux_of (cells_of wiring.now) wiring.now.entry) (entries_that is_mux (cells_of wiring.now))) }
{
    let parts = entries_of(alloc, Kind::Mux, wiring.hier)?;
    let muxes = muxes(alloc, wiring, parts.as_slice());
    drop(parts);
    muxes
}

/// What procedures may name.
fn own_things(alloc: Global, wiring: &Wiring) -> Result<List<Thing>, OutOfMemory>
    requires { IsWiring wiring.now }
    ensures { IfOk result (λ all. all.items ≡ map
        (thing_of (cells_of wiring.now) wiring.now.entry) (entries_that is_thing (cells_of wiring.now))) }
{
    let parts = entries_of(alloc, Kind::Thing, wiring.hier)?;
    let things = things(alloc, wiring, parts.as_slice());
    drop(parts);
    things
}

/// The network whose output a reference leads to, where its signals are followed.
fn network_from(alloc: Global, wiring: &Wiring, at: Place, exit: Ref) -> Result<Net, ConnectFault>
    requires { IsWiring wiring.now }
    ensures { Gives same result (network_from (cells_of wiring.now) wiring.now.entry at exit) }
{
    let out = scan_from(wiring, at, exit)?;
    let regs = own_registers(alloc, wiring)?;
    let scanned = pair_if_ok(regs, own_muxes(alloc, wiring))?;
    let (scanned, insts) = pair_if_ok(scanned, instruments(alloc, wiring))?;
    let nodes = pair_if_ok(insts, nodes_of(alloc, wiring.hier));
    let (scanned, named) = pair_if_ok(scanned, nodes)?;
    let things = pair_if_ok(named, own_things(alloc, wiring));
    let (scanned, (named, things)) = pair_if_ok(scanned, things)?;
    Ok(Net {
        regs: scanned.0,
        muxes: scanned.1,
        insts: named.0,
        out,
        nodes: named.1,
        things,
    })
}

/// The network between the two ends that an instruction selects, or the first fault on the way to it.
#[tactic(auto, unfolding(crate::specs::Connecting::network))]
fn network_of(alloc: Global, hier: &Hier, link: &Name, instr: &Name) -> Result<Net, ConnectFault>
    ensures { Gives same result (network (seen_hier hier.now) link.now.items instr.now.items) }
{
    let ends = ends(alloc, hier, link, instr)?;
    let untraced = wiring_of(alloc, hier, ends.entry)?;
    let wiring = with_ends(alloc, untraced)?;
    let exit = Ref::Bit {
        cell: ends.exit.cell,
        part: ends.exit.part,
        pos: 0,
        inverted: false,
    };
    let net = network_from(alloc, &wiring, ends.exit_place, exit);
    drop(wiring);
    net
}

/// The flat network between the two ends of the interface that an instruction of an access link selects (IEEE
/// 1687-2014, ICL: AccessLink). Each scan source, capture bit, select bit, row, instrument input and thing is
/// where its signal's trace ends. Registers, multiplexers, instruments and things are in the order of the
/// cells, and in a cell in the order of the text.
///
/// The first fault on the way is the answer, in this order: `NoLink` where the top has no such link and
/// instruction, or its interface hasn't exactly one `ScanInPort` and one `ScanOutPort`; then the output's
/// source, the registers (each one's scan source, then what it captures), the multiplexers (each one's select
/// bits, then its rows) and the inputs of instruments, with `Undriven` where a trace ends at nothing that
/// drives it, `SignalLoop` where it comes back to a bit that it left, `BadSelect` where a select bit is no
/// register bit or is inverted, and `InstrumentChain` where an instrument drives an instrument. `OutOfMemory`
/// may come at any point.
///
/// The network of a well formed hierarchy, as `icl_elab::elaborate` gives it of a design that the grammar
/// gave, is well formed.
pub fn connect(alloc: Global, hier: &Hier, link: &Name, instr: &Name) -> Result<Net, ConnectFault>
    ensures gives { Gives same result (network (seen_hier hier.now) link.now.items instr.now.items) }
    ensures well_formed { IfOk result (λ net. IsHierarchy (seen_hier hier.now) → IsNet net) }
{
    network_of(alloc, hier, link, instr)
}
