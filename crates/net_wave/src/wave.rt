// Waves in a file.
ghost use Rattle.std.specs.Prelude.{◌≡◌, ◌≤◌, ◌++◌, map, All, IfOk, OnOk, OnErr, Some};
ghost use Rattle.std.specs.Option.{option_map};
ghost use Rattle.bench_report.specs.Report.{chip, differs_of};
ghost use Rattle.ij_io.specs.Bytes.{Adds};
ghost use Rattle.ij_io.specs.Causes.{HasCauseAt, SameCounts};
ghost use Rattle.ij_io.specs.Files.{OthersStay, file_at, told_bytes};
ghost use Rattle.ij_io.specs.Pieces.{HoldsPart, IsThere, with_piece};
ghost use Rattle.instruments.specs.Runners.{AreModels};
ghost use Rattle.instruments.specs.Seen.{seen_model};
ghost use Rattle.net_graph.specs.Nets.{IsNet};
ghost use Rattle.net_wave.specs.Changes.{pin_vars};
ghost use Rattle.net_wave.specs.Header.{header};
ghost use Rattle.net_wave.specs.Left.{CanStep, IsPlaying, left_text, some_differs};
ghost use Rattle.net_wave.specs.Moments.{moments_text};
ghost use Rattle.net_wave.specs.Vars.{IsVar, items, vars};
ghost use Rattle.net_wave.specs.Wave.{HoldsSome, is_any, moments_of, wave_text};
ghost use Rattle.tap_machine.specs.declared.Stable.TheVariants.{Reset as InReset};
ghost use Rattle.tap_machine.specs.Play.{pins, scans_in};

use crate::header::add_header;
use crate::items::{vars_of, wave_items};
use crate::playing::Playing;
use crate::var::{Var, WaveKind, Window};
use ij_bits::{List, OutOfMemory};
use ij_io::{Shelf, StoreFault, SureSink, put_last_piece, store_full_piece};
use instruments::Model;
use net_graph::{Device, Net};
use std::alloc::Global;
use svf_writer::Commands;

/// Writes the moments that are left after a piece of a file's text, and finishes the file.
fn put_moments<S: Shelf>(
    alloc: Global,
    playing: &mut Playing,
    name: &str,
    piece: SureSink,
    shelf: &mut S,
) -> Result<(), StoreFault>
    requires playing { IsPlaying playing.old }
    requires there { IsThere (S.files shelf.old) name.now }
    ensures there { OnOk result (IsThere (S.files shelf.new) name.now) }
    ensures whole { OnOk result (Adds (with_piece (S.files shelf.old) name.now piece)
        (told_bytes (S.files shelf.new) name.now) (left_text playing.old)) }
    ensures differs { OnOk result (some_differs playing.new ≡ some_differs playing.old) }
    ensures step { OnOk result (CanStep playing.new) }
    ensures part { OnErr result (HoldsSome (S.files shelf.new) name.now
        (with_piece (S.files shelf.old) name.now piece) (left_text playing.old)) }
    ensures others { OthersStay (S.files shelf.old) (S.files shelf.new) name.now }
    ensures cause { HasCauseAt name.now (S.store_faults shelf.old)
        (S.store_faults shelf.new) result StoreFault.Failed }
    ensures loads { SameCounts (S.load_faults shelf.old) (S.load_faults shelf.new) }
{
    let mut piece = piece;
    while playing.add_next(&mut piece)? {
        piece = store_full_piece(alloc, name, piece, shelf)?;
    }
    put_last_piece(name, &piece, shelf)
}

/// The declarations of a wave, as text, and its variables after the pins.
#[derive(Drop)]
struct Declared {
    text: SureSink,
    vars: List<Var>,
}

/// How many pins there are, which come first.
const PINS: usize = 9;

/// The declarations of a wave, and its variables after the pins.
fn declare(
    alloc: Global,
    kind: WaveKind,
    net: &Net,
    device: &Device,
    models: &List<Model>,
    top: &[u8],
) -> Result<Declared, OutOfMemory>
    requires well_formed { IsNet net.now }
    requires models { AreModels net.now models.now.items }
    ensures text { IfOk result (λ it. it.text ≡ header net.now device.now
        (map seen_model models.now.items) top.now (items kind net.now (map seen_model models.now.items))) }
    ensures vars { IfOk result (λ it. pin_vars ++ it.vars.items
        ≡ vars kind net.now (map seen_model models.now.items)) }
    ensures there { IfOk result (λ it. All (IsVar net.now (map seen_model models.now.items)) it.vars.items) }
{
    let items = wave_items(alloc, kind, net, models)?;
    let mut text = SureSink::new(alloc);
    add_header(net, device, models, top, items.as_slice(), &mut text)?;
    let vars = vars_of(alloc, &items.as_slice()[PINS..])?;
    Ok(Declared { text, vars })
}

/// A play from the first clock of a window on.
fn play<'a>(
    alloc: Global,
    net: &'a Net,
    device: &'a Device,
    models: &'a List<Model>,
    commands: &'a Commands,
    vars: List<Var>,
    window: Window,
) -> Result<Playing<'a>, OutOfMemory>
    requires well_formed { IsNet net.now }
    requires models { AreModels net.now models.now.items }
    requires scans { scans_in commands.now ≤ 1000000000 }
    requires there { All (IsVar net.now (map seen_model models.now.items)) vars.items }
    ensures playing { IfOk result (λ playing. IsPlaying playing) }
    ensures differs { IfOk result (λ playing. some_differs playing
        ≡ is_any (differs_of net.now device.now (map seen_model models.now.items) commands.now)) }
    ensures text { IfOk result (λ playing. left_text playing
        ≡ moments_text (moments_of (chip net.now device.now (map seen_model models.now.items))
        (map seen_model models.now.items) (pin_vars ++ vars.items) (pins InReset 0 commands.now) window)) }
{
    let mut playing = Playing::new(alloc, net, device, models, commands, vars, window)?;
    playing.skip(window.from);
    Ok(playing)
}

/// Writes the waves of a play to a file, from its front, as a VCD file (IEEE 1364-2005, 18.2). `commands` are
/// played from power-up on a device with a scan network and its instruments, of which `models` has one for
/// each, in the network's order. `top` is the name of the outermost scope. Of the text no more than 65,536
/// bytes, the declarations and one clock are kept.
///
/// Clock k is the two times 2k, at which TCK is 0, and 2k + 1, at which it is 1. In both stand the pins of
/// the clock, and what the chip holds before it, so that at a rising edge of TCK one reads what the edge
/// samples; what the clock does is seen at 2k + 2. The time after the last clock of the window shows the
/// state at its end, with TMS and TDI 0. Times are in ns, which says nothing of a frequency, and those that
/// 64 bits can't hold stand as the greatest that they can.
///
/// In the scope of the top stand TCK, TMS, TDI and TDO; `expect`, what TDO is compared with, x where it isn't
/// compared; `differs`, 1 where it is compared and is another bit; `tap`, the state of the TAP controller in
/// the code of IEEE 1149.1-2013; `instruction`, the update stage of the instruction register; `scan` and
/// `bit`, the scan, counted from 1, and the position that are shifted. Scopes for module instances,
/// registers, multiplexers and the words of instruments follow, in the network's order.
///
/// Answers whether a compare of the whole play differs, also where the window ends before.
///
/// # Errors
///
/// - `Failed`: the shelf could not begin the file, write a piece or keep it, and its count of failed stores
///   under this name rose.
/// - `OutOfMemory`: there was no memory for the bench, for the variables or for a piece of the text, or the
///   shelf had none.
///
/// After a refusal the file is as before, or holds some first bytes of the text. Other files and the counts
/// of failed loads stay.
pub fn put_wave_file<S: Shelf>(
    alloc: Global,
    kind: WaveKind,
    net: &Net,
    device: &Device,
    models: &List<Model>,
    top: &[u8],
    commands: &Commands,
    window: Window,
    name: &str,
    shelf: &mut S,
) -> Result<bool, StoreFault>
    requires well_formed { IsNet net.now }
    requires models { AreModels net.now models.now.items }
    requires scans { scans_in commands.now ≤ 1000000000 }
    ensures differs { IfOk result (λ differs. differs
        ≡ is_any (differs_of net.now device.now (map seen_model models.now.items) commands.now)) }
    ensures whole { OnOk result
        (file_at (S.files shelf.new) name.now ≡ option_map (λ _. Some (wave_text kind net.now device.now
        (map seen_model models.now.items) top.now commands.now window)) (S.files shelf.old)) }
    ensures part { OnErr result (HoldsPart (S.files shelf.old) (S.files shelf.new) name.now
        (wave_text kind net.now device.now (map seen_model models.now.items) top.now commands.now window)) }
    ensures others { OthersStay (S.files shelf.old) (S.files shelf.new) name.now }
    ensures cause { HasCauseAt name.now (S.store_faults shelf.old)
        (S.store_faults shelf.new) result StoreFault.Failed }
    ensures loads { SameCounts (S.load_faults shelf.old) (S.load_faults shelf.new) }
{
    let it = declare(alloc, kind, net, device, models, top)?;
    let Declared { text, vars } = it;
    let mut playing = play(alloc, net, device, models, commands, vars, window)?;
    shelf.begin(name)?;
    put_moments(alloc, &mut playing, name, text, shelf)?;
    Ok(playing.finish())
}
