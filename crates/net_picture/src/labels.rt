// Texts at registers, multiplexers and rows, and the room that they take.
ghost use Rattle.std.specs.Prelude.{◌≡◌, ◌<◌, ◌≤◌, length, max, IfOk, OnOk, OnErr};
ghost use Rattle.ij_io.specs.Bytes.{Adds, AddsPart};
ghost use Rattle.ij_io.specs.Causes.{HasCause};
ghost use Rattle.net_graph.specs.Nets.{IsNet};
ghost use Rattle.net_graph.specs.Named.{width_of};
ghost use Rattle.net_graph.specs.Path.{rows_of};
ghost use Rattle.net_graph.specs.PathNames.{mux_path};
ghost use Rattle.net_list.specs.Forms.{values_text};
ghost use Rattle.net_picture.specs.Labels as labels;

use crate::numbers::{greater, width_for_letters};
use ij_bits::{OutOfMemory, Tern};
use ij_io::{Sink, StoreFault, SureSink, Word, put_words};
use net_graph::{BitId, Net, Row};
use net_list::{index_of, put_register_path, put_values};
use path_names::put_mux_path;
use std::alloc::Global;

/// How many letters are left of a text of this many.
fn short_length(half: usize, letters: usize) -> usize
    requires { half ≤ 100 }
    ensures { result ≡ labels.short_length half letters }
{
    letters.min(2 * half + 2)
}

/// Writes the ends of a text, and two dots in place of its middle.
#[tactic(auto, unfolding(crate::specs::Labels::ends_of, ij_io::specs::Words::words_text))]
fn put_elided<'a, K: Sink>(front: &'a [u8], back: &'a [u8], k: &mut K) -> Result<(), StoreFault>
    ensures whole { OnOk result (Adds (K.taken k.old) (K.taken k.new) (labels.ends_of front.now back.now)) }
    ensures part { OnErr result
        (AddsPart (K.taken k.old) (K.taken k.new) (labels.ends_of front.now back.now)) }
    ensures cause { HasCause (K.faults k.old) (K.faults k.new) result StoreFault.Failed }
{
    put_words(k, &[Word::Text(front), Word::Text(b".."), Word::Text(back)])
}

/// Writes a text, cut in the middle where it is long.
pub(crate) fn put_short<K: Sink>(half: usize, text: &[u8], k: &mut K) -> Result<(), StoreFault>
    requires { half ≤ 100 }
    ensures whole { OnOk result (Adds (K.taken k.old) (K.taken k.new) (labels.short half text.now)) }
    ensures part { OnErr result (AddsPart (K.taken k.old) (K.taken k.new) (labels.short half text.now)) }
    ensures cause { HasCause (K.faults k.old) (K.faults k.new) result StoreFault.Failed }
{
    if text.len() <= 2 * half + 2 {
        return k.write(text);
    }
    put_elided(&text[..half], &text[text.len() - half..], k)
}

/// How many bits a register has.
pub(crate) fn width_of_register(net: &Net, reg: u32) -> u32
    requires well_formed { IsNet net.now }
    requires there { reg < length net.now.regs.items }
    ensures width { result ≡ width_of net.now reg }
    ensures some { 1 ≤ result }
{
    net.regs.get(reg as usize).width
}

/// Writes a left and a right index in brackets.
#[tactic(auto, unfolding(crate::specs::Labels::range_of, ij_io::specs::Words::words_text))]
fn put_range_of<K: Sink>(left: u64, right: u64, k: &mut K) -> Result<(), StoreFault>
    ensures whole { OnOk result (Adds (K.taken k.old) (K.taken k.new) (labels.range_of left right)) }
    ensures part { OnErr result (AddsPart (K.taken k.old) (K.taken k.new) (labels.range_of left right)) }
    ensures cause { HasCause (K.faults k.old) (K.faults k.new) result StoreFault.Failed }
{
    let words = [
        Word::Text(b"["),
        Word::Number(left),
        Word::Text(b":"),
        Word::Number(right),
        Word::Text(b"]"),
    ];
    put_words(k, &words)
}

/// Writes the left and the right index of a register.
fn put_range<K: Sink>(net: &Net, reg: u32, width: u32, k: &mut K) -> Result<(), StoreFault>
    requires well_formed { IsNet net.now }
    requires there { reg < length net.now.regs.items }
    requires width { width ≡ width_of net.now reg }
    requires some { 1 ≤ width }
    ensures whole { OnOk result (Adds (K.taken k.old) (K.taken k.new) (labels.range_text net.now reg)) }
    ensures part { OnErr result (AddsPart (K.taken k.old) (K.taken k.new) (labels.range_text net.now reg)) }
    ensures cause { HasCause (K.faults k.old) (K.faults k.new) result StoreFault.Failed }
{
    let pos = width - 1;
    let left = index_of(net, BitId { reg, pos });
    let right = index_of(net, BitId { reg, pos: 0 });
    put_range_of(left, right, k)
}

/// Writes the left and the right index of a register of several bits.
fn put_range_if<K: Sink>(net: &Net, reg: u32, k: &mut K) -> Result<(), StoreFault>
    requires well_formed { IsNet net.now }
    requires there { reg < length net.now.regs.items }
    ensures whole { OnOk result (Adds (K.taken k.old) (K.taken k.new) (labels.range_if net.now reg)) }
    ensures part { OnErr result (AddsPart (K.taken k.old) (K.taken k.new) (labels.range_if net.now reg)) }
    ensures cause { HasCause (K.faults k.old) (K.faults k.new) result StoreFault.Failed }
{
    let width = width_of_register(net, reg);
    if width == 1 {
        return k.write(b"");
    }
    put_range(net, reg, width, k)
}

/// Writes the path of a register, with its range.
pub(crate) fn put_register_label<K: Sink>(net: &Net, reg: u32, k: &mut K) -> Result<(), StoreFault>
    requires well_formed { IsNet net.now }
    requires there { reg < length net.now.regs.items }
    ensures whole { OnOk result (Adds (K.taken k.old) (K.taken k.new) (labels.register_label net.now reg)) }
    ensures part { OnErr result
        (AddsPart (K.taken k.old) (K.taken k.new) (labels.register_label net.now reg)) }
    ensures cause { HasCause (K.faults k.old) (K.faults k.new) result StoreFault.Failed }
{
    put_register_path(net, reg, k)?;
    put_range_if(net, reg, k)?;
    Ok(())
}

/// The path of a register, with its range.
pub(crate) fn register_label(alloc: Global, net: &Net, reg: u32) -> Result<SureSink, OutOfMemory>
    requires well_formed { IsNet net.now }
    requires there { reg < length net.now.regs.items }
    ensures { IfOk result (λ text. text ≡ labels.register_label net.now reg) }
{
    let mut text = SureSink::new(alloc);
    match put_register_label(net, reg, &mut text) {
        Ok(()) => Ok(text),
        Err(_) => Err(OutOfMemory),
    }
}

/// The path of a multiplexer.
pub(crate) fn mux_label(alloc: Global, net: &Net, mux: u32) -> Result<SureSink, OutOfMemory>
    requires well_formed { IsNet net.now }
    requires there { mux < length net.now.muxes.items }
    ensures { IfOk result (λ text. text ≡ mux_path net.now mux) }
{
    let mut text = SureSink::new(alloc);
    match put_mux_path(net, mux, &mut text) {
        Ok(()) => Ok(text),
        Err(_) => Err(OutOfMemory),
    }
}

/// The select values of a row.
fn values_label(alloc: Global, values: &[Tern]) -> Result<SureSink, OutOfMemory>
    ensures { IfOk result (λ text. text ≡ values_text values.now) }
{
    let mut text = SureSink::new(alloc);
    match put_values(values, &mut text) {
        Ok(()) => Ok(text),
        Err(_) => Err(OutOfMemory),
    }
}

/// The select values of a row, by its number; none for a row that isn't there.
fn values_at(alloc: Global, rows: &[Row], row: usize) -> Result<SureSink, OutOfMemory>
    ensures { IfOk result (λ text. text ≡ labels.row_values rows.now row) }
{
    if row < rows.len() {
        values_label(alloc, rows[row].values.as_slice())
    } else {
        Ok(SureSink::new(alloc))
    }
}

/// The select values of a row of a multiplexer, by their numbers.
pub(crate) fn row_label(
    alloc: Global,
    net: &Net,
    mux: u32,
    row: usize,
) -> Result<SureSink, OutOfMemory>
    requires { mux < length net.now.muxes.items }
    ensures { IfOk result (λ text. text ≡ labels.row_values (rows_of net.now mux) row) }
{
    let rows = net.muxes.get(mux as usize).rows.as_slice();
    values_at(alloc, rows, row)
}

/// How wide a register's box is.
pub(crate) fn box_width(alloc: Global, net: &Net, reg: u32) -> Result<u64, OutOfMemory>
    requires well_formed { IsNet net.now }
    requires there { reg < length net.now.regs.items }
    ensures { IfOk result (λ width. width ≡ labels.box_width net.now reg) }
{
    let text = register_label(alloc, net, reg)?;
    let letters = short_length(19, text.bytes().len());
    Ok(greater(40, width_for_letters(7, letters, 14)?))
}

/// The room for a multiplexer's name.
pub(crate) fn name_room(alloc: Global, net: &Net, mux: u32) -> Result<u64, OutOfMemory>
    requires well_formed { IsNet net.now }
    requires there { mux < length net.now.muxes.items }
    ensures { IfOk result (λ room. room ≡ labels.name_room net.now mux) }
{
    let text = mux_label(alloc, net, mux)?;
    let letters = short_length(9, text.bytes().len());
    width_for_letters(6, letters, 4)
}

/// The room for the select values of a row.
fn row_room(alloc: Global, row: &Row) -> Result<u64, OutOfMemory>
    ensures { IfOk result (λ room. room ≡ labels.row_room row.now) }
{
    let text = values_label(alloc, row.values.as_slice())?;
    let letters = short_length(7, text.bytes().len());
    width_for_letters(6, letters, 10)
}

/// The room for the select values of each of these rows.
pub(crate) fn values_room(alloc: Global, rows: &[Row]) -> Result<u64, OutOfMemory>
    ensures { IfOk result (λ room. room ≡ labels.values_room rows.now) }
{
    let mut room = 10;
    for i in (0..rows.len()).rev() {
        let here = row_room(alloc, &rows[i])?;
        room = greater(here, room);
    }
    Ok(room)
}
