// The lines of instruments.
ghost use Rattle.std.specs.Prelude.{◌≡◌, ◌<◌, ◌++◌, length, All, OnOk, OnErr};
ghost use Rattle.ij_io.specs.Bytes.{Adds, AddsPart};
ghost use Rattle.ij_io.specs.Causes.{HasCause};
ghost use Rattle.net_graph.specs.Named.{IsInputOf};
ghost use Rattle.net_graph.specs.Nets.{IsNet};
ghost use Rattle.net_list.specs.Forms as forms;
ghost use Rattle.net_list.specs.Lines as lines;
ghost use Rattle.net_list.specs.Listing.{lines_from};

use crate::drivers::put_drivers;
use crate::format::{ListFormat, put_count, put_text_or_json, text_or_json};
use ij_io::{Sink, StoreFault};
use net_graph::{Net, PortIn, PortOut, node_of};
use path_names::{put_instance_path, put_name};

/// Writes a data input and what drives it, after something before it.
fn put_input<K: Sink>(
    format: ListFormat,
    before: &[u8],
    net: &Net,
    port: &PortIn,
    k: &mut K,
) -> Result<(), StoreFault>
    requires well_formed { IsNet net.now }
    requires inputs { All (IsInputOf net.now) port.now.bits.items }
    ensures whole { OnOk result
        (Adds (K.taken k.old) (K.taken k.new) (before.now ++ lines.input_text format net.now port.now)) }
    ensures part { OnErr result
        (AddsPart (K.taken k.old) (K.taken k.new) (before.now ++ lines.input_text format net.now port.now)) }
    ensures cause { HasCause (K.faults k.old) (K.faults k.new) result StoreFault.Failed }
{
    let bits = port.bits.as_slice();
    k.write(before)?;
    put_text_or_json(format, b"in ", b"{\"port\":\"", k)?;
    put_name(&port.name, k)?;
    put_count(format, b" ", b"\",\"bits\":", bits.len() as u64, k)?;
    put_text_or_json(format, b" from ", b",\"from\":\"", k)?;
    put_drivers(net, bits, k)?;
    put_text_or_json(format, b"", b"\"}", k)?;
    Ok(())
}

/// Writes data inputs, with something before the first of them and something between.
fn put_inputs<K: Sink>(
    format: ListFormat,
    between: &[u8],
    first: &[u8],
    net: &Net,
    ports: &[PortIn],
    k: &mut K,
) -> Result<(), StoreFault>
    requires well_formed { IsNet net.now }
    requires inputs { All (λ port. All (IsInputOf net.now) port.bits.items) ports.now }
    ensures whole { OnOk result (Adds (K.taken k.old) (K.taken k.new)
        (forms.items (lines.input_text format net.now) between.now first.now ports.now)) }
    ensures part { OnErr result (AddsPart (K.taken k.old) (K.taken k.new)
        (forms.items (lines.input_text format net.now) between.now first.now ports.now)) }
    ensures cause { HasCause (K.faults k.old) (K.faults k.new) result StoreFault.Failed }
{
    let mut before = first;
    for port in ports {
        put_input(format, before, net, port, k)?;
        before = between;
    }
    Ok(())
}

/// Writes a data output, after something before it.
fn put_output<K: Sink>(
    format: ListFormat,
    before: &[u8],
    port: &PortOut,
    k: &mut K,
) -> Result<(), StoreFault>
    ensures whole { OnOk result
        (Adds (K.taken k.old) (K.taken k.new) (before.now ++ lines.output_text format port.now)) }
    ensures part { OnErr result
        (AddsPart (K.taken k.old) (K.taken k.new) (before.now ++ lines.output_text format port.now)) }
    ensures cause { HasCause (K.faults k.old) (K.faults k.new) result StoreFault.Failed }
{
    k.write(before)?;
    put_text_or_json(format, b"out ", b"{\"port\":\"", k)?;
    put_name(&port.name, k)?;
    put_count(format, b" ", b"\",\"bits\":", port.width as u64, k)?;
    put_text_or_json(format, b"", b"}", k)?;
    Ok(())
}

/// Writes data outputs, with something before the first of them and something between.
fn put_outputs<K: Sink>(
    format: ListFormat,
    between: &[u8],
    first: &[u8],
    ports: &[PortOut],
    k: &mut K,
) -> Result<(), StoreFault>
    ensures whole { OnOk result (Adds (K.taken k.old) (K.taken k.new)
        (forms.items (lines.output_text format) between.now first.now ports.now)) }
    ensures part { OnErr result (AddsPart (K.taken k.old) (K.taken k.new)
        (forms.items (lines.output_text format) between.now first.now ports.now)) }
    ensures cause { HasCause (K.faults k.old) (K.faults k.new) result StoreFault.Failed }
{
    let mut before = first;
    for port in ports {
        put_output(format, before, port, k)?;
        before = between;
    }
    Ok(())
}

/// Writes ports, in JSON in two lists.
fn put_port_lists<K: Sink>(
    format: ListFormat,
    net: &Net,
    ins: &[PortIn],
    outs: &[PortOut],
    k: &mut K,
) -> Result<(), StoreFault>
    requires well_formed { IsNet net.now }
    requires inputs { All (λ port. All (IsInputOf net.now) port.bits.items) ins.now }
    ensures whole { OnOk result
        (Adds (K.taken k.old) (K.taken k.new) (lines.port_lists format net.now ins.now outs.now)) }
    ensures part { OnErr result
        (AddsPart (K.taken k.old) (K.taken k.new) (lines.port_lists format net.now ins.now outs.now)) }
    ensures cause { HasCause (K.faults k.old) (K.faults k.new) result StoreFault.Failed }
{
    let between = text_or_json(format, b" ", b",");
    let first = text_or_json(format, b" ", b"");
    put_text_or_json(format, b"", b",\"in\":[", k)?;
    put_inputs(format, between, first, net, ins, k)?;
    put_text_or_json(format, b"", b"],\"out\":[", k)?;
    put_outputs(format, between, first, outs, k)?;
    put_text_or_json(format, b"", b"]", k)?;
    Ok(())
}

/// Writes the ports of an instrument.
fn put_ports<K: Sink>(format: ListFormat, net: &Net, inst: u32, k: &mut K) -> Result<(), StoreFault>
    requires well_formed { IsNet net.now }
    requires there { inst < length net.now.insts.items }
    ensures whole { OnOk result
        (Adds (K.taken k.old) (K.taken k.new) (lines.ports_text format net.now inst)) }
    ensures part { OnErr result
        (AddsPart (K.taken k.old) (K.taken k.new) (lines.ports_text format net.now inst)) }
    ensures cause { HasCause (K.faults k.old) (K.faults k.new) result StoreFault.Failed }
{
    let it = net.insts.get(inst as usize);
    put_port_lists(format, net, it.ins.as_slice(), it.outs.as_slice(), k)
}

/// Writes the path of an instrument.
fn put_path<K: Sink>(net: &Net, inst: u32, k: &mut K) -> Result<(), StoreFault>
    requires well_formed { IsNet net.now }
    requires there { inst < length net.now.insts.items }
    ensures whole { OnOk result (Adds (K.taken k.old) (K.taken k.new) (lines.instrument_path net.now inst)) }
    ensures part { OnErr result
        (AddsPart (K.taken k.old) (K.taken k.new) (lines.instrument_path net.now inst)) }
    ensures cause { HasCause (K.faults k.old) (K.faults k.new) result StoreFault.Failed }
{
    put_instance_path(net, node_of(net, inst), k)
}

/// Writes the line of an instrument.
fn put_instrument<K: Sink>(
    format: ListFormat,
    net: &Net,
    inst: u32,
    k: &mut K,
) -> Result<(), StoreFault>
    requires well_formed { IsNet net.now }
    requires there { inst < length net.now.insts.items }
    ensures whole { OnOk result
        (Adds (K.taken k.old) (K.taken k.new) (lines.instrument_line format net.now inst)) }
    ensures part { OnErr result
        (AddsPart (K.taken k.old) (K.taken k.new) (lines.instrument_line format net.now inst)) }
    ensures cause { HasCause (K.faults k.old) (K.faults k.new) result StoreFault.Failed }
{
    put_text_or_json(format, b"instrument ", b"{\"instrument\":\"", k)?;
    put_path(net, inst, k)?;
    put_text_or_json(format, b"", b"\"", k)?;
    put_ports(format, net, inst, k)?;
    put_text_or_json(format, b"\n", b"}\n", k)?;
    Ok(())
}

/// How many instruments there are.
pub(crate) fn inst_count(net: &Net) -> u32
    requires { IsNet net.now }
    ensures { result ≡ length net.now.insts.items }
{
    net.insts.len() as u32
}

/// Writes the line of each instrument.
pub(crate) fn put_instruments<K: Sink>(
    format: ListFormat,
    net: &Net,
    k: &mut K,
) -> Result<(), StoreFault>
    requires well_formed { IsNet net.now }
    ensures whole { OnOk result (Adds (K.taken k.old) (K.taken k.new)
        (lines_from (lines.instrument_line format net.now) 0 (length net.now.insts.items))) }
    ensures part { OnErr result (AddsPart (K.taken k.old) (K.taken k.new)
        (lines_from (lines.instrument_line format net.now) 0 (length net.now.insts.items))) }
    ensures cause { HasCause (K.faults k.old) (K.faults k.new) result StoreFault.Failed }
{
    let count = inst_count(net);
    for inst in 0..count {
        put_instrument(format, net, inst, k)?;
    }
    Ok(())
}
