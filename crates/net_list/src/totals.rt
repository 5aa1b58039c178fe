// The line of totals.
ghost use Rattle.std.specs.Prelude.{◌≡◌, IfOk, OnOk, OnErr};
ghost use Rattle.ij_io.specs.Bytes.{Adds, AddsPart};
ghost use Rattle.ij_io.specs.Causes.{HasCause};
ghost use Rattle.net_graph.specs.Nets.{IsNet};
ghost use Rattle.net_list.specs.Listing as listing;

use crate::format::{ListFormat, put_count, put_text_or_json};
use crate::instrument::inst_count;
use ij_bits::{Buffer, OutOfMemory};
use ij_io::{Sink, StoreFault};
use net_graph::{Holds, Net, find_path, mux_count, register_count};
use std::alloc::Global;

/// How many bits the registers of a network have.
fn bit_count(net: &Net) -> u32
    requires { IsNet net.now }
    ensures { result ≡ listing.bit_count net.now }
{
    let mut bits = 0;
    for i in 0..net.regs.len() {
        bits += net.regs.get(i).width;
    }
    bits
}

/// How many bits the active path has at power-up.
#[tactic(auto, using(net_graph::proofs::Widths::started_held))]
fn start_path_bits(alloc: Global, net: &Net) -> Result<u32, OutOfMemory>
    requires { IsNet net.now }
    ensures { IfOk result (λ bits. bits ≡ listing.start_path_bits net.now) }
{
    let start = Holds::power_up(alloc, net)?;
    let mut path = Buffer::new(alloc);
    path.reserve(net.regs.len())?;
    find_path(net, &start, &mut path);
    Ok(start.path_bits(path.as_slice()))
}

/// Writes the line of totals, of these numbers.
fn put_line<K: Sink>(
    format: ListFormat,
    regs: u32,
    bits: u32,
    muxes: u32,
    insts: u32,
    path: u32,
    k: &mut K,
) -> Result<(), StoreFault>
    ensures whole { OnOk result
        (Adds (K.taken k.old) (K.taken k.new) (listing.totals_text format regs bits muxes insts path)) }
    ensures part { OnErr result
        (AddsPart (K.taken k.old) (K.taken k.new) (listing.totals_text format regs bits muxes insts path)) }
    ensures cause { HasCause (K.faults k.old) (K.faults k.new) result StoreFault.Failed }
{
    put_count(
        format,
        b"network registers ",
        b"{\"network\":{\"registers\":",
        regs as u64,
        k,
    )?;
    put_count(format, b" bits ", b",\"bits\":", bits as u64, k)?;
    put_count(format, b" muxes ", b",\"muxes\":", muxes as u64, k)?;
    put_count(
        format,
        b" instruments ",
        b",\"instruments\":",
        insts as u64,
        k,
    )?;
    put_count(format, b" path at reset ", b",\"path\":", path as u64, k)?;
    put_text_or_json(format, b"\n", b"}}\n", k)?;
    Ok(())
}

/// Writes the line of totals.
pub(crate) fn put_totals<K: Sink>(
    alloc: Global,
    format: ListFormat,
    net: &Net,
    k: &mut K,
) -> Result<(), StoreFault>
    requires { IsNet net.now }
    ensures whole { OnOk result (Adds (K.taken k.old) (K.taken k.new) (listing.totals_line format net.now)) }
    ensures part { OnErr result
        (AddsPart (K.taken k.old) (K.taken k.new) (listing.totals_line format net.now)) }
    ensures cause { HasCause (K.faults k.old) (K.faults k.new) result StoreFault.Failed }
{
    let path = start_path_bits(alloc, net)?;
    let regs = register_count(net);
    let bits = bit_count(net);
    let muxes = mux_count(net);
    let insts = inst_count(net);
    put_line(format, regs, bits, muxes, insts, path, k)
}
