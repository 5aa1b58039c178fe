// What registers capture of instruments, for tooltips.
ghost use Rattle.std.specs.Prelude.{◌≡◌, ◌<◌, Some, length, All, OnOk};
ghost use Rattle.ij_io.specs.Bytes.{Adds};
ghost use Rattle.net_graph.specs.Named.{IsSignalOf};
ghost use Rattle.net_graph.specs.Nets.{IsNet};
ghost use Rattle.net_picture.specs.Captures as captures;

use ij_io::{Sink, StoreFault, SureSink};
use net_graph::{Net, Sig};
use net_list::put_output;

/// What the bits of a register capture, position 0 first.
fn signals_of(net: &Net, reg: u32) -> &[Sig]
    requires well_formed { IsNet net.now }
    requires there { reg < length net.now.regs.items }
    ensures signals { result.now ≡ captures.signals_of net.now reg }
    ensures there { All (IsSignalOf net.now) result.now }
{
    net.regs.get(reg as usize).capture.as_slice()
}

/// Whether two signals are bits of one output of an instrument.
fn is_same_output(a: Sig, b: Sig) -> bool
    ensures { result ≡ captures.is_same_output a b }
{
    match (a, b) {
        (
            Sig::Out {
                inst: i,
                port: p,
                ..
            },
            Sig::Out {
                inst: j,
                port: q,
                ..
            },
        ) => i == j && p == q,
        _ => false,
    }
}

/// Whether the position at its left captures the same output.
fn is_repeated(signals: &[Sig], pos: usize) -> bool
    requires { pos < length signals.now }
    ensures { result ≡ captures.is_repeated signals.now pos }
{
    pos + 1 < signals.len() && is_same_output(signals[pos + 1], signals[pos])
}

/// The signal at a position.
fn captured_at(signals: &[Sig], pos: usize) -> Sig
    requires { pos < length signals.now }
    ensures { result ≡ captures.signal_at signals.now pos }
{
    signals[pos]
}

/// Writes the line of a captured signal, nothing where it is of no instrument.
fn put_line(net: &Net, signal: Sig, text: &mut SureSink) -> Result<(), StoreFault>
    requires well_formed { IsNet net.now }
    requires there { IsSignalOf net.now signal }
    ensures { OnOk result (Adds (Some text.old) (Some text.new) (captures.output_line net.now signal)) }
{
    match signal {
        Sig::Out { inst, port, .. } => {
            text.write(b"\ncaptures ")?;
            put_output(net, inst, port, text)?;
            Ok(())
        }
        _ => text.write(b""),
    }
}

/// Writes the line of a captured signal, nothing where the position at its left has it.
fn put_line_unless(
    net: &Net,
    repeated: bool,
    signal: Sig,
    text: &mut SureSink,
) -> Result<(), StoreFault>
    requires well_formed { IsNet net.now }
    requires there { IsSignalOf net.now signal }
    ensures { OnOk result
        (Adds (Some text.old) (Some text.new) (captures.line_unless net.now repeated signal)) }
{
    if repeated {
        text.write(b"")
    } else {
        put_line(net, signal, text)
    }
}

/// Writes the line of a position.
fn put_capture(
    net: &Net,
    signals: &[Sig],
    pos: usize,
    text: &mut SureSink,
) -> Result<(), StoreFault>
    requires well_formed { IsNet net.now }
    requires signals { All (IsSignalOf net.now) signals.now }
    requires there { pos < length signals.now }
    ensures { OnOk result
        (Adds (Some text.old) (Some text.new) (captures.capture_at net.now signals.now pos)) }
{
    let repeated = is_repeated(signals, pos);
    let signal = captured_at(signals, pos);
    put_line_unless(net, repeated, signal, text)
}

/// Writes the lines of some signals, from the left one on.
fn put_signals(net: &Net, signals: &[Sig], text: &mut SureSink) -> Result<(), StoreFault>
    requires well_formed { IsNet net.now }
    requires signals { All (IsSignalOf net.now) signals.now }
    ensures { OnOk result
        (Adds (Some text.old) (Some text.new) (captures.captures net.now signals.now (length signals.now))) }
{
    for j in 0..signals.len() {
        put_capture(net, signals, signals.len() - 1 - j, text)?;
    }
    Ok(())
}

/// Writes the outputs of instruments that a register captures, each on a line of its own.
pub(crate) fn put_captures(net: &Net, reg: u32, text: &mut SureSink) -> Result<(), StoreFault>
    requires well_formed { IsNet net.now }
    requires there { reg < length net.now.regs.items }
    ensures { OnOk result (Adds (Some text.old) (Some text.new) (captures.captures_text net.now reg)) }
{
    put_signals(net, signals_of(net, reg), text)
}
