// Tooltips and short labels.
ghost use Rattle.std.specs.Prelude.{◌≡◌, ◌<◌, ◌≤◌, length, All, IfOk, Ok};
ghost use Rattle.net_graph.specs.Nets.{IsNet};
ghost use Rattle.net_list.specs.Lines.{muxes_selected_by};
ghost use Rattle.net_picture.specs.Labels as labels;
ghost use Rattle.net_picture.specs.Svg as svg;

use crate::captures::put_captures;
use crate::labels::{mux_label, put_register_label, put_short, register_label, row_label};
use ij_bits::OutOfMemory;
use ij_io::{Sink, StoreFault, SureSink};
use net_graph::Net;
use net_list::{ListFormat, put_reset, put_rows, put_selected, put_selects, put_width};
use path_names::put_mux_path;
use std::alloc::Global;

/// What was written, or want of memory.
fn or_out_of_memory<T>(written: Result<T, StoreFault>) -> Result<T, OutOfMemory>
    ensures { IfOk result (λ value. written ≡ Ok value) }
{
    match written {
        Ok(value) => Ok(value),
        Err(_) => Err(OutOfMemory),
    }
}

/// A text, cut in the middle where it is long.
fn short(alloc: Global, half: usize, text: &[u8]) -> Result<SureSink, StoreFault>
    requires { half ≤ 100 }
    ensures { IfOk result (λ left. left ≡ labels.short half text.now) }
{
    let mut left = SureSink::new(alloc);
    put_short(half, text, &mut left)?;
    Ok(left)
}

/// What a register's box shows.
pub(crate) fn short_register(alloc: Global, net: &Net, reg: u32) -> Result<SureSink, OutOfMemory>
    requires well_formed { IsNet net.now }
    requires there { reg < length net.now.regs.items }
    ensures { IfOk result (λ text. text ≡ labels.short_register net.now reg) }
{
    let text = register_label(alloc, net, reg)?;
    or_out_of_memory(short(alloc, 19, text.bytes()))
}

/// What is beside a funnel.
pub(crate) fn short_mux(alloc: Global, net: &Net, mux: u32) -> Result<SureSink, OutOfMemory>
    requires well_formed { IsNet net.now }
    requires there { mux < length net.now.muxes.items }
    ensures { IfOk result (λ text. text ≡ labels.short_mux net.now mux) }
{
    let text = mux_label(alloc, net, mux)?;
    or_out_of_memory(short(alloc, 9, text.bytes()))
}

/// What is above the wire of a row.
pub(crate) fn short_values(
    alloc: Global,
    net: &Net,
    mux: u32,
    row: usize,
) -> Result<SureSink, OutOfMemory>
    requires { mux < length net.now.muxes.items }
    ensures { IfOk result (λ text. text ≡ labels.short_values net.now mux row) }
{
    let text = row_label(alloc, net, mux, row)?;
    or_out_of_memory(short(alloc, 7, text.bytes()))
}

/// A register's tooltip.
fn register_title_of(
    alloc: Global,
    net: &Net,
    reg: u32,
    muxes: &[u32],
) -> Result<SureSink, StoreFault>
    requires well_formed { IsNet net.now }
    requires there { reg < length net.now.regs.items }
    requires listed { All (λ m. m < length net.now.muxes.items) muxes.now }
    requires muxes { muxes.now ≡ muxes_selected_by net.now reg }
    ensures { IfOk result (λ text. text ≡ svg.register_title net.now reg) }
{
    let mut text = SureSink::new(alloc);
    put_register_label(net, reg, &mut text)?;
    put_width(ListFormat::Text, net, reg, &mut text)?;
    text.write(b" reset ")?;
    put_reset(net, reg, &mut text)?;
    put_selected(ListFormat::Text, net, reg, muxes, &mut text)?;
    put_captures(net, reg, &mut text)?;
    Ok(text)
}

/// A register's tooltip.
pub(crate) fn register_title(
    alloc: Global,
    net: &Net,
    reg: u32,
    muxes: &[u32],
) -> Result<SureSink, OutOfMemory>
    requires well_formed { IsNet net.now }
    requires there { reg < length net.now.regs.items }
    requires listed { All (λ m. m < length net.now.muxes.items) muxes.now }
    requires muxes { muxes.now ≡ muxes_selected_by net.now reg }
    ensures { IfOk result (λ text. text ≡ svg.register_title net.now reg) }
{
    or_out_of_memory(register_title_of(alloc, net, reg, muxes))
}

/// A multiplexer's tooltip.
fn mux_title_of(alloc: Global, net: &Net, mux: u32) -> Result<SureSink, StoreFault>
    requires well_formed { IsNet net.now }
    requires there { mux < length net.now.muxes.items }
    ensures { IfOk result (λ text. text ≡ svg.mux_title net.now mux) }
{
    let mut text = SureSink::new(alloc);
    put_mux_path(net, mux, &mut text)?;
    text.write(b"\nselect ")?;
    put_selects(ListFormat::Text, net, mux, &mut text)?;
    text.write(b"\n")?;
    put_rows(ListFormat::Text, net, mux, &mut text)?;
    Ok(text)
}

/// A multiplexer's tooltip.
pub(crate) fn mux_title(alloc: Global, net: &Net, mux: u32) -> Result<SureSink, OutOfMemory>
    requires well_formed { IsNet net.now }
    requires there { mux < length net.now.muxes.items }
    ensures { IfOk result (λ text. text ≡ svg.mux_title net.now mux) }
{
    or_out_of_memory(mux_title_of(alloc, net, mux))
}
