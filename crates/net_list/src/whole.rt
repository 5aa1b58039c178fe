// The whole listing.
ghost use Rattle.std.specs.Prelude.{OnOk, OnErr};
ghost use Rattle.ij_io.specs.Bytes.{Adds, AddsPart};
ghost use Rattle.ij_io.specs.Causes.{HasCause};
ghost use Rattle.net_graph.specs.Nets.{IsNet};
ghost use Rattle.net_tree.specs.Form.{Describes};
ghost use Rattle.net_tree.specs.Lawful.{IsLawful};
ghost use Rattle.net_list.specs.Listing.{list_text};

use crate::format::ListFormat;
use crate::instrument::put_instruments;
use crate::mux::put_muxes;
use crate::register::put_registers;
use crate::totals::put_totals;
use ij_io::{Sink, StoreFault};
use net_graph::Net;
use net_tree::Tree;
use std::alloc::Global;

/// Writes what a network has, one thing a line: each register, each multiplexer and each instrument, in the
/// network's order, and totals (IEEE 1687-2014, ICL: `ScanRegister`, `ScanMux`, `Instance`).
///
/// A register has its path, bits, reset value (the left bit first, an x where it has none), the number of
/// rows that it is in, the fewest scans from power-up on in which it is first written, these rows
/// (multiplexer and select values, outermost first) and the multiplexers in which it selects; a multiplexer
/// its rows and select values, its select bits and the number of rows around it; an instrument its data
/// ports, and what drives its inputs. Select bits, select values and drivers begin at the left, the highest
/// position.
///
/// # Errors
///
/// `Failed`, where the sink refuses a write, and want of memory. The sink then took some first bytes of the
/// listing.
pub fn put_list<K: Sink>(
    alloc: Global,
    net: &Net,
    tree: &Tree,
    format: ListFormat,
    k: &mut K,
) -> Result<(), StoreFault>
    requires well_formed { IsNet net.now }
    requires form { Describes net.now tree.now }
    requires lawful { IsLawful net.now tree.now }
    ensures whole { OnOk result (Adds (K.taken k.old) (K.taken k.new) (list_text format net.now tree.now)) }
    ensures part { OnErr result
        (AddsPart (K.taken k.old) (K.taken k.new) (list_text format net.now tree.now)) }
    ensures cause { HasCause (K.faults k.old) (K.faults k.new) result StoreFault.Failed }
{
    put_registers(alloc, format, net, tree, k)?;
    put_muxes(format, net, tree, k)?;
    put_instruments(format, net, k)?;
    put_totals(alloc, format, net, k)?;
    Ok(())
}
