// The command `picture`.
ghost use Rattle.std.specs.Prelude.{◌≡◌, true, Some, IfOk, OnOk};
ghost use Rattle.ij_io.specs.Bytes.{Adds};
ghost use Rattle.net_graph.specs.Held.{AreHolds};
ghost use Rattle.ijtag_stages.specs.Follows.{Follows};
ghost use Rattle.ijtag_work.specs.Using.{IsUsable, seen_accepted, there};
ghost use Rattle.ijtag_tools.specs.Order.{drawing_of, first_drawing, held_before, picture, picture_at};
ghost use Rattle.ijtag_tools.specs.Words.{seen_picture, seen_picture_at};

use crate::words::{PictureAtWords, PictureFormat, PictureWords};
use ij_bits::OutOfMemory;
use ij_io::{Shelf, Sink, StoreFault, SureSink};
use ijtag_core::Effect;
use ijtag_stages::{Stage, StageFault, refused_number};
use ijtag_work::{Accepted, NetworkWords, PlayWords, Stop, Verdict, write_file};
use net_graph::Holds;
use net_picture::{put_dot, put_svg};
use std::alloc::Global;
use svf_notes::holds_at;

/// Writes the drawing of a network in a format, with the active path that these update stages select.
#[tactic(auto, unfolding(crate::specs::Order::drawing_of))]
fn put_picture(
    alloc: Global,
    it: &Accepted,
    holds: &Holds,
    format: PictureFormat,
    text: &mut SureSink,
) -> Result<(), StoreFault>
    requires usable { IsUsable it.now }
    requires holds { AreHolds it.now.network.net holds.now }
    ensures { OnOk result
        (Adds (Some text.old) (Some text.new) (drawing_of format (seen_accepted it.now) holds.now)) }
{
    let net = &it.network.net;
    match format {
        PictureFormat::Svg => put_svg(alloc, net, &it.network.form, holds, text),
        PictureFormat::Dot => put_dot(alloc, net, holds, None, text),
    }
}

/// Draws the network, with the active path that these update stages select.
fn draw(
    alloc: Global,
    it: &Accepted,
    holds: &Holds,
    format: PictureFormat,
) -> Result<SureSink, OutOfMemory>
    requires usable { IsUsable it.now }
    requires holds { AreHolds it.now.network.net holds.now }
    ensures { IfOk result (λ text. text ≡ drawing_of format (seen_accepted it.now) holds.now) }
{
    let mut text = SureSink::new(alloc);
    match put_picture(alloc, it, holds, format, &mut text) {
        Ok(()) => Ok(text),
        Err(_) => Err(OutOfMemory),
    }
}

/// Draws the network, with the active path at power-up.
#[tactic(auto, using(net_graph::proofs::Widths::start_held))]
fn draw_at_power_up(alloc: Global, it: &Accepted) -> Result<SureSink, OutOfMemory>
    requires usable { IsUsable it.now }
    ensures { IfOk result (λ text. text ≡ first_drawing (seen_accepted it.now)) }
{
    let holds = Holds::power_up(alloc, &it.network.net)?;
    draw(alloc, it, &holds, PictureFormat::Svg)
}

/// What the update stages hold before a scan of the play; refused where there is no such scan.
#[tactic(auto, unfolding(crate::specs::Order::held_before))]
fn holds_before_scan(alloc: Global, it: &Accepted, scan: u64) -> Result<Holds, StageFault>
    requires usable { IsUsable it.now }
    requires models { there it.now.models ≡ true }
    requires commands { there it.now.commands ≡ true }
    ensures held { Follows (held_before scan (seen_accepted it.now)) (λ holds. holds) result }
    ensures shape { IfOk result (AreHolds it.now.network.net) }
{
    let net = &it.network.net;
    let models = it.models().models();
    match holds_at(alloc, net, &it.device, models, it.commands(), scan)? {
        Some(holds) => Ok(holds),
        None => Err(refused_number(alloc, Stage::Picture, b"NoScan", scan)),
    }
}

/// Writes the file of the drawing, and prints nothing.
impl<'w> Effect for PictureWords<'w> {
    ghost table_row = { λ words. picture (seen_picture words) };

    type Words = NetworkWords<'w>;

    fn words(&self) -> &Self::Words {
        &self.network
    }

    fn prints(&self) -> bool {
        false
    }

    fn act<'a, S: Shelf, O: Sink>(
        &'a self,
        alloc: Global,
        it: &Accepted,
        shelf: &mut S,
        _out: &mut O,
    ) -> Result<Verdict, Stop<'a>> {
        let text = draw_at_power_up(alloc, it)?;
        match write_file(self.picture, text.bytes(), shelf) {
            Ok(()) => Ok(Verdict::Agrees),
            Err(fault) => Err(Stop::of_file(fault, self.picture)),
        }
    }
}

/// Plays up to a scan, writes the file of the drawing of the network as it is then, and prints nothing.
impl<'w> Effect for PictureAtWords<'w> {
    ghost table_row = { λ words. picture_at (seen_picture_at words) };

    type Words = PlayWords<'w>;

    fn words(&self) -> &Self::Words {
        &self.play
    }

    fn prints(&self) -> bool {
        false
    }

    fn act<'a, S: Shelf, O: Sink>(
        &'a self,
        alloc: Global,
        it: &Accepted,
        shelf: &mut S,
        _out: &mut O,
    ) -> Result<Verdict, Stop<'a>> {
        let holds = holds_before_scan(alloc, it, self.scan)?;
        let text = draw(alloc, it, &holds, self.format)?;
        match write_file(self.picture, text.bytes(), shelf) {
            Ok(()) => Ok(Verdict::Agrees),
            Err(fault) => Err(Stop::of_file(fault, self.picture)),
        }
    }
}
