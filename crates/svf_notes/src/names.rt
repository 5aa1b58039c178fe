// The names of registers, of their bits and of what they capture.
ghost use Rattle.std.specs.Prelude.{◌≡◌, ◌<◌, Some, get_or, length, map, OnOk};
ghost use Rattle.ij_io.specs.Bytes.{Adds};
ghost use Rattle.net_graph.specs.Named as named;
ghost use Rattle.net_graph.specs.Named.{IsSignalOf};
ghost use Rattle.net_graph.specs.Nets.{IsNet};
ghost use Rattle.report.specs.Paths.{register_path};
ghost use Rattle.svf_notes.specs.Notes.{range_text};
ghost use Rattle.svf_notes.specs.Places as places;

use ij_io::{Sink, StoreFault, SureSink, Word, put_words};
use net_graph::{Net, Sig, thing_of};
use net_list::{output_index, put_bit_name, put_output};
use path_names::put_thing_path;

/// The index of the left bit of a thing, the highest position.
fn left_index(net: &Net, thing: u32) -> u32
    requires { thing < length net.now.things.items }
    ensures { result ≡ get_or (map (λ thing. thing.left) net.now.things.items) thing 0 }
{
    net.things.get(thing as usize).left
}

/// The index of position 0 of a thing.
fn right_index(net: &Net, thing: u32) -> u32
    requires { thing < length net.now.things.items }
    ensures { result ≡ get_or (map (λ thing. thing.right) net.now.things.items) thing 0 }
{
    net.things.get(thing as usize).right
}

/// Writes the path of a register.
pub(crate) fn put_register_path(net: &Net, reg: u32, note: &mut SureSink) -> Result<(), StoreFault>
    requires well_formed { IsNet net.now }
    requires there { reg < length net.now.regs.items }
    ensures { OnOk result (Adds (Some note.old) (Some note.new) (register_path net.now reg)) }
{
    put_thing_path(net, thing_of(net, reg), note)
}

/// Writes the range of a register of more than one bit.
#[tactic(auto, unfolding(ij_io::specs::Words::words_text))]
pub(crate) fn put_range(
    net: &Net,
    reg: u32,
    width: u32,
    note: &mut SureSink,
) -> Result<(), StoreFault>
    requires well_formed { IsNet net.now }
    requires there { reg < length net.now.regs.items }
    ensures { OnOk result (Adds (Some note.old) (Some note.new) (range_text net.now reg width)) }
{
    if width == 1 {
        return note.write(b"");
    }
    let thing = thing_of(net, reg);
    let left = left_index(net, thing);
    let right = right_index(net, thing);
    put_words(
        note,
        &[
            Word::Text(b"["),
            Word::Number(u64::from(left)),
            Word::Text(b":"),
            Word::Number(u64::from(right)),
            Word::Text(b"]"),
        ],
    )
}

/// Writes an index in brackets.
#[tactic(auto, unfolding(ij_io::specs::Words::words_text))]
fn put_index(index: u64, note: &mut SureSink) -> Result<(), StoreFault>
    ensures { OnOk result (Adds (Some note.old) (Some note.new) (places.index_text index)) }
{
    put_words(
        note,
        &[Word::Text(b"["), Word::Number(index), Word::Text(b"]")],
    )
}

/// Writes the name of an output bit of an instrument.
fn put_output_name(
    net: &Net,
    inst: u32,
    port: u32,
    pos: u32,
    note: &mut SureSink,
) -> Result<(), StoreFault>
    requires well_formed { IsNet net.now }
    requires inst { inst < length net.now.insts.items }
    requires port { port < length (named.output_widths net.now inst) }
    ensures { OnOk result (Adds (Some note.old) (Some note.new) (places.output_name net.now inst port pos)) }
{
    let index = output_index(net, inst, port, pos);
    put_output(net, inst, port, note)?;
    put_index(index, note)?;
    Ok(())
}

/// A tilde, for a signal that is a bit's inverse.
fn tilde_if(inverted: bool) -> &'static [u8]
    ensures { result.now ≡ places.tilde_if inverted }
{
    if inverted { b"~" } else { b"" }
}

/// Writes the name of a captured signal.
pub(crate) fn put_signal(net: &Net, signal: Sig, note: &mut SureSink) -> Result<(), StoreFault>
    requires well_formed { IsNet net.now }
    requires there { IsSignalOf net.now signal }
    ensures { OnOk result (Adds (Some note.old) (Some note.new) (places.signal_name net.now signal)) }
{
    match signal {
        Sig::Absent => note.write(b"-"),
        Sig::Zero => note.write(b"0"),
        Sig::One => note.write(b"1"),
        Sig::Bit { bit, inverted } => {
            note.write(tilde_if(inverted))?;
            put_bit_name(net, bit, note)?;
            Ok(())
        }
        Sig::Out {
            inst,
            port,
            pos,
            inverted,
        } => {
            note.write(tilde_if(inverted))?;
            put_output_name(net, inst, port, pos, note)?;
            Ok(())
        }
    }
}
