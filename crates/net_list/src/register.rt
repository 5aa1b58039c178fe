// The lines of registers.
ghost use Rattle.std.specs.Prelude.{◌≡◌, ◌<◌, ◌==◌, ◌++◌, ◌∷◌, [], cond, length, All, IfOk, OnOk, OnErr};
ghost use Rattle.std.specs.List.{list_any};
ghost use Rattle.ij_io.specs.Bytes.{Adds, AddsPart};
ghost use Rattle.ij_io.specs.Causes.{HasCause};
ghost use Rattle.net_graph.specs.Nets.{IsNet};
ghost use Rattle.net_graph.specs.PathNames.{mux_path};
ghost use Rattle.net_graph.specs.Resets.{start_holds};
ghost use Rattle.net_graph.specs.declared.net.Point.TheVariants as point;
ghost use Rattle.net_tree.specs.Form.{Describes};
ghost use Rattle.net_tree.specs.Lawful.{IsLawful};
ghost use Rattle.net_tree.specs.Places.{place_of};
ghost use Rattle.path_planner.specs.Planning.{IsBranchOf};
ghost use Rattle.net_list.specs.Forms as forms;
ghost use Rattle.net_list.specs.Lines as lines;
ghost use Rattle.net_list.specs.Listing.{lines_from};

use crate::fewest::fewest_scans;
use crate::format::{ListFormat, put_count, put_text_or_json, text_or_json};
use crate::names::{put_mux_name, put_register_path};
use crate::place::put_place;
use crate::values::put_digits;
use ij_bits::{List, OutOfMemory};
use ij_io::{Sink, StoreFault};
use net_graph::{BitId, Branch, Holds, Net, register_count};
use net_tree::Tree;
use std::alloc::Global;

/// Whether some of these bits are a register's.
fn names_register(bits: &[BitId], reg: u32) -> bool
    ensures { result ≡ list_any (λ b. b.reg == reg) bits.now }
{
    for bit in bits {
        if bit.reg == reg {
            return true;
        }
    }
    false
}

/// Whether a register has a select bit of a mux.
fn selects_in(net: &Net, reg: u32, mux: u32) -> bool
    requires { mux < length net.now.muxes.items }
    ensures { result ≡ lines.selects_in net.now reg mux }
{
    names_register(net.muxes.get(mux as usize).select.as_slice(), reg)
}

/// Adds a mux that is selected.
fn push_if_selected(muxes: &mut List<u32>, mux: u32, selected: bool) -> Result<(), OutOfMemory>
    ensures { OnOk result (muxes.new.items ≡ muxes.old.items ++ cond selected (mux ∷ []) []) }
{
    if selected {
        muxes.push(mux)?;
    }
    Ok(())
}

/// The muxes in which a register selects, in the network's order (IEEE 1687-2014, ICL: `SelectedBy`).
pub fn muxes_selected_by(alloc: Global, net: &Net, reg: u32) -> Result<List<u32>, OutOfMemory>
    requires { IsNet net.now }
    ensures muxes { IfOk result (λ muxes. muxes.items ≡ lines.muxes_selected_by net.now reg) }
    ensures there { IfOk result (λ muxes. All (λ m. m < length net.now.muxes.items) muxes.items) }
{
    let mut muxes = List::new(alloc);
    for mux in 0..net.muxes.len() {
        push_if_selected(&mut muxes, mux as u32, selects_in(net, reg, mux as u32))?;
    }
    Ok(muxes)
}

/// Writes the names of muxes, with something before the first of them and something between.
fn put_muxes<K: Sink>(
    format: ListFormat,
    between: &[u8],
    first: &[u8],
    net: &Net,
    muxes: &[u32],
    k: &mut K,
) -> Result<(), StoreFault>
    requires well_formed { IsNet net.now }
    requires there { All (λ m. m < length net.now.muxes.items) muxes.now }
    ensures whole { OnOk result (Adds (K.taken k.old) (K.taken k.new)
        (forms.items (λ m. lines.quoted format (mux_path net.now m)) between.now first.now muxes.now)) }
    ensures part { OnErr result (AddsPart (K.taken k.old) (K.taken k.new)
        (forms.items (λ m. lines.quoted format (mux_path net.now m)) between.now first.now muxes.now)) }
    ensures cause { HasCause (K.faults k.old) (K.faults k.new) result StoreFault.Failed }
{
    let mut before = first;
    for mux in muxes {
        put_mux_name(format, before, net, *mux, k)?;
        before = between;
    }
    Ok(())
}

/// Writes the muxes in which a register selects. The refusals are those of the sink, which then took some
/// first bytes.
pub fn put_selected<K: Sink>(
    format: ListFormat,
    net: &Net,
    reg: u32,
    muxes: &[u32],
    k: &mut K,
) -> Result<(), StoreFault>
    requires well_formed { IsNet net.now }
    requires there { All (λ m. m < length net.now.muxes.items) muxes.now }
    requires muxes { muxes.now ≡ lines.muxes_selected_by net.now reg }
    ensures whole { OnOk result
        (Adds (K.taken k.old) (K.taken k.new) (lines.selects_text format net.now reg)) }
    ensures part { OnErr result
        (AddsPart (K.taken k.old) (K.taken k.new) (lines.selects_text format net.now reg)) }
    ensures cause { HasCause (K.faults k.old) (K.faults k.new) result StoreFault.Failed }
{
    let between = text_or_json(format, b" ", b",");
    let first = text_or_json(format, b" selects ", b"");
    put_text_or_json(format, b"", b",\"selects\":[", k)?;
    put_muxes(format, between, first, net, muxes, k)?;
    put_text_or_json(format, b"", b"]", k)?;
    Ok(())
}

/// Writes how many bits a register has. The refusals are those of the sink, which then took some first bytes.
pub fn put_width<K: Sink>(
    format: ListFormat,
    net: &Net,
    reg: u32,
    k: &mut K,
) -> Result<(), StoreFault>
    requires { reg < length net.now.regs.items }
    ensures whole { OnOk result (Adds (K.taken k.old) (K.taken k.new) (lines.width_text format net.now reg)) }
    ensures part { OnErr result
        (AddsPart (K.taken k.old) (K.taken k.new) (lines.width_text format net.now reg)) }
    ensures cause { HasCause (K.faults k.old) (K.faults k.new) result StoreFault.Failed }
{
    let width = net.regs.get(reg as usize).width;
    put_count(format, b" bits ", b"\",\"bits\":", width as u64, k)
}

/// Writes the reset value of a register, the highest position first. The refusals are those of the sink,
/// which then took some first bytes.
pub fn put_reset<K: Sink>(net: &Net, reg: u32, k: &mut K) -> Result<(), StoreFault>
    requires { reg < length net.now.regs.items }
    ensures whole { OnOk result (Adds (K.taken k.old) (K.taken k.new) (lines.reset_text net.now reg)) }
    ensures part { OnErr result (AddsPart (K.taken k.old) (K.taken k.new) (lines.reset_text net.now reg)) }
    ensures cause { HasCause (K.faults k.old) (K.faults k.new) result StoreFault.Failed }
{
    let value = &net.regs.get(reg as usize).reset;
    put_digits(value, value.len(), k)
}

/// Writes the line of a register that is in these rows, selects in these muxes and is reached in this many
/// scans.
fn put_register_line<K: Sink>(
    format: ListFormat,
    net: &Net,
    reg: u32,
    place: &[Branch],
    scans: usize,
    muxes: &[u32],
    k: &mut K,
) -> Result<(), StoreFault>
    requires well_formed { IsNet net.now }
    requires there { reg < length net.now.regs.items }
    requires rows { All (IsBranchOf net.now) place.now }
    requires listed { All (λ m. m < length net.now.muxes.items) muxes.now }
    requires muxes { muxes.now ≡ lines.muxes_selected_by net.now reg }
    ensures whole { OnOk result
        (Adds (K.taken k.old) (K.taken k.new) (lines.register_text format net.now reg place.now scans)) }
    ensures part { OnErr result
        (AddsPart (K.taken k.old) (K.taken k.new) (lines.register_text format net.now reg place.now scans)) }
    ensures cause { HasCause (K.faults k.old) (K.faults k.new) result StoreFault.Failed }
{
    let depth = place.len() as u64;
    put_text_or_json(format, b"register ", b"{\"register\":\"", k)?;
    put_register_path(net, reg, k)?;
    put_width(format, net, reg, k)?;
    put_text_or_json(format, b" reset ", b",\"reset\":\"", k)?;
    put_reset(net, reg, k)?;
    put_count(format, b" depth ", b"\",\"depth\":", depth, k)?;
    put_count(format, b" scans ", b",\"scans\":", scans as u64, k)?;
    put_place(format, net, place, k)?;
    put_selected(format, net, reg, muxes, k)?;
    put_text_or_json(format, b"\n", b"}\n", k)?;
    Ok(())
}

/// Writes the line of a register.
fn put_register<K: Sink>(
    alloc: Global,
    format: ListFormat,
    net: &Net,
    tree: &Tree,
    start: &Holds,
    reg: u32,
    k: &mut K,
) -> Result<(), StoreFault>
    requires well_formed { IsNet net.now }
    requires form { Describes net.now tree.now }
    requires lawful { IsLawful net.now tree.now }
    requires start { start.now ≡ start_holds net.now }
    requires there { reg < length net.now.regs.items }
    ensures whole { OnOk result
        (Adds (K.taken k.old) (K.taken k.new) (lines.register_line format net.now tree.now reg)) }
    ensures part { OnErr result
        (AddsPart (K.taken k.old) (K.taken k.new) (lines.register_line format net.now tree.now reg)) }
    ensures cause { HasCause (K.faults k.old) (K.faults k.new) result StoreFault.Failed }
{
    let place = tree.place_of(reg);
    let scans = fewest_scans(alloc, net, tree, start, reg, place.as_slice())?;
    let muxes = muxes_selected_by(alloc, net, reg)?;
    put_register_line(
        format,
        net,
        reg,
        place.as_slice(),
        scans,
        muxes.as_slice(),
        k,
    )
}

/// Writes the line of each register.
pub(crate) fn put_registers<K: Sink>(
    alloc: Global,
    format: ListFormat,
    net: &Net,
    tree: &Tree,
    k: &mut K,
) -> Result<(), StoreFault>
    requires well_formed { IsNet net.now }
    requires form { Describes net.now tree.now }
    requires lawful { IsLawful net.now tree.now }
    ensures whole { OnOk result (Adds (K.taken k.old) (K.taken k.new)
        (lines_from (lines.register_line format net.now tree.now) 0 (length net.now.regs.items))) }
    ensures part { OnErr result (AddsPart (K.taken k.old) (K.taken k.new)
        (lines_from (lines.register_line format net.now tree.now) 0 (length net.now.regs.items))) }
    ensures cause { HasCause (K.faults k.old) (K.faults k.new) result StoreFault.Failed }
{
    let start = Holds::power_up(alloc, net)?;
    let count = register_count(net);
    for reg in 0..count {
        put_register(alloc, format, net, tree, &start, reg, k)?;
    }
    Ok(())
}
