// A play that is under way, and the notes that are still to come.
ghost use Rattle.std.specs.Prelude.{◌≡◌, ◌≤◌, ◌++◌, ◌∷◌, [], map, IfOk, MatchOption, OnOk};
ghost use Rattle.instruments.specs.Runners.{AreModels};
ghost use Rattle.instruments.specs.Seen.{seen_model};
ghost use Rattle.net_graph.specs.Nets.{IsNet};
ghost use Rattle.svf_notes.specs.Left.{left_scans, IsPlaying};
ghost use Rattle.svf_notes.specs.Notes.{note_text, note_of, played_scans};
ghost use Rattle.tap_machine.specs.Play.{scans_in};

use crate::bits::ScanBits;
use crate::heads::Heads;
use crate::note::put_note;
use crate::scan::next_scan;
use ij_bits::{List, OutOfMemory};
use ij_io::SureSink;
use instruments::Model;
use net_bench::Bench;
use net_graph::{Device, Net};
use std::alloc::Global;
use svf_writer::Commands;
use tap_machine::{Player, Stable};

/// A play of commands on the bench of a network, and the bits of the scan that was shifted last.
#[derive(Drop)]
pub(crate) struct Playing<'a> {
    pub net: &'a Net,
    pub device: &'a Device,
    pub bench: Bench<'a>,
    pub player: Player<'a>,
    pub bits: ScanBits,
    pub heads: Heads<'a>,
}

impl<'a> Playing<'a> {
    /// A play from power-up.
    pub(crate) fn new(
        alloc: Global,
        net: &'a Net,
        device: &'a Device,
        models: &'a List<Model>,
        commands: &'a Commands,
    ) -> Result<Playing<'a>, OutOfMemory>
        requires well_formed { IsNet net.now }
        requires models { AreModels net.now models.now.items }
        requires scans { scans_in commands.now ≤ 1000000000 }
        ensures net { IfOk result (λ playing. playing.net.now ≡ net.now) }
        ensures device { IfOk result (λ playing. playing.device.now ≡ device.now) }
        ensures playing { IfOk result (λ playing. IsPlaying playing) }
        ensures scans { IfOk result (λ playing. left_scans playing
            ≡ played_scans net.now device.now (map seen_model models.now.items) commands.now) }
    {
        let bench = Bench::new(alloc, net, device, models)?;
        let player = Player::new(Stable::Reset, 0, commands);
        Ok(Playing {
            net,
            device,
            bench,
            player,
            bits: ScanBits::new(alloc)?,
            heads: Heads::new(alloc, net)?,
        })
    }

    /// Plays up to the last shift clock of the next scan; answers its number, and `None` where the play ends
    /// first.
    pub(crate) fn next(&mut self) -> Result<Option<u32>, OutOfMemory>
        requires { IsPlaying self.old }
        ensures net { self.new.net.now ≡ self.old.net.now }
        ensures device { self.new.device.now ≡ self.old.device.now }
        ensures playing { IsPlaying self.new }
        ensures scan { IfOk result (λ number. MatchOption number ((left_scans self.old ≡ [])
            × (left_scans self.new ≡ [])) (λ n. left_scans self.old ≡ record {
              number = n;
              bits = self.new.bits.items;
              state = self.new.bench.state;
            } ∷ left_scans self.new)) }
    {
        next_scan(&mut self.player, &mut self.bench, &mut self.bits)
    }

    /// Adds the note of the scan that was shifted last to a piece of a text, by its number.
    pub(crate) fn add_note(&mut self, number: u32, piece: &mut SureSink) -> Result<(), OutOfMemory>
        requires { IsPlaying self.old }
        ensures same { self.new ≡ self.old }
        ensures text { OnOk result
            (piece.new ≡ piece.old ++ note_text (note_of self.old.net.now self.old.device.now
            (record { number = number; bits = self.old.bits.items; state = self.old.bench.state }))) }
    {
        match put_note(
            self.net,
            self.device,
            &self.bench,
            number,
            &self.bits,
            &mut self.heads,
            piece,
        ) {
            Ok(()) => Ok(()),
            Err(_) => Err(OutOfMemory),
        }
    }
}
