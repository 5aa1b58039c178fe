// The pins of a list of commands, one clock or one piece at a time.
ghost use Rattle.std.specs.Prelude.{◌≡◌, ◌+◌, ◌^◌, ◌<◌, ◌≤◌, [], ◌∷◌, ◌++◌, IsNone, IfSome, MatchOption};
ghost use Rattle.tap_machine.specs.Play.{pins, rests_after, scans_in};
ghost use Rattle.tap_machine.specs.Pieces.{piece_pins};

use crate::progress::{HeldBits, Phase, Progress};
use crate::{Piece, Pins, Stable};
use std::marker::Model;
use svf_writer::Commands;

/// A play of SVF commands, clock by clock or in pieces (Serial Vector Format, revision E). It copies no scan
/// and takes no memory.
///
/// Contracts see a record: `pins`, the pins that are still to come, and `rests`, the state in which they
/// leave the controller.
#[derive(Drop)]
pub struct Player<'a> {
    progress: Progress<'a>,
}

impl<'a> Model for Player<'a> {
    ghost use Rattle.tap_machine.specs.Remaining.{Remaining, remaining, IsUnderWay};

    ghost Value = { Remaining };

    ghost view = { λ p. remaining p.progress };

    ghost invariant = { λ p. IsUnderWay p.progress };
}

impl<'a> Player<'a> {
    /// A play of these commands from a state of rest, after this many scans. It takes no memory.
    pub fn new(from: Stable, scans: u32, commands: &'a Commands) -> Player<'a>
        requires { scans + scans_in commands.now < 2 ^ 32 }
        ensures pins { result.pins ≡ pins from scans commands.now }
        ensures rests { result.rests ≡ rests_after from commands.now }
    {
        let nothing = HeldBits {
            len: 0,
            tdi: None,
            mask: None,
        };
        // Its contract says that the commands can be played.
        let _count = commands.len();
        Player {
            progress: Progress {
                commands,
                at: 0,
                rests_in: from,
                scans,
                phase: Phase::Quiet {
                    tms: false,
                    left: 0,
                },
                scan: nothing,
                tdo: None,
                ir: nothing,
                dr: nothing,
            },
        }
    }

    /// What is on the pins at the next clock, and what is expected at TDO; `None` where all were given.
    /// It takes no memory.
    #[tactic(auto, using(crate::proofs::Remains::one_given, crate::proofs::Remains::none_given))]
    pub fn next(&mut self) -> Option<Pins>
        ensures given { MatchOption result (self.old.pins ≡ []) (λ p. self.old.pins ≡ p ∷ self.new.pins) }
        ensures end { IsNone result → self.new.pins ≡ [] }
        ensures rests { self.new.rests ≡ self.old.rests }
    {
        self.progress.next()
    }

    /// The next clocks: up to `most` and up to 64 at once where they shift one scan, else one; `None` where
    /// all were given. It takes no memory.
    pub fn next_piece(&mut self, most: u32) -> Option<Piece>
        ensures given { MatchOption result (self.old.pins ≡ [])
            (λ p. self.old.pins ≡ piece_pins p ++ self.new.pins) }
        ensures end { IsNone result → self.new.pins ≡ [] }
        ensures some { IfSome result (λ p. 1 ≤ p.count) }
        ensures few { IfSome result (λ p. p.count ≤ 64) }
        ensures most { IfSome result (λ p. 2 ≤ p.count → p.count ≤ most) }
        ensures short { IfSome result (λ p. p.bit + p.count < 2 ^ 32) }
        ensures rests { self.new.rests ≡ self.old.rests }
    {
        self.progress.next_piece(most)
    }

    /// The state in which the play rests once all pins were given. It takes no memory.
    pub fn end_state(&self) -> Stable
        requires { self.now.pins ≡ [] }
        ensures { result ≡ self.now.rests }
    {
        self.progress.rests_in
    }
}
