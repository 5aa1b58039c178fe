// A play that is under way, and the moments that are still to come.
ghost use Rattle.std.specs.Prelude.{◌≡◌, ◌≤◌, ◌<◌, ◌++◌, ◌∷◌, ◌||◌, [], cond, false, length, map, take, true};
ghost use Rattle.std.specs.Prelude.{All, IfOk, IfSome, IsNone, IsSome, OnOk};
ghost use Rattle.bench_report.specs.Report.{chip, chip_of, differs_of};
ghost use Rattle.instruments.specs.Runners.{AreModels};
ghost use Rattle.instruments.specs.Seen.{seen_model};
ghost use Rattle.net_bench.specs.Bench.{clock, tdo};
ghost use Rattle.net_graph.specs.Chain.{chain as bits_on, put_chain};
ghost use Rattle.net_graph.specs.Held.{AreHolds};
ghost use Rattle.net_graph.specs.Nets.{IsNet};
ghost use Rattle.net_graph.specs.Path.{route_of};
ghost use Rattle.net_wave.specs.Changes.{Stay, pin_vars, shown_at};
ghost use Rattle.net_wave.specs.Left as left;
ghost use Rattle.net_wave.specs.Left.{IsPlaying};
ghost use Rattle.net_wave.specs.Moments.{moments_text, untold};
ghost use Rattle.net_wave.specs.Values as values;
ghost use Rattle.net_wave.specs.Vars.{IsVar};
ghost use Rattle.net_wave.specs.Wave.{is_any, moments_of};
ghost use Rattle.tap_machine.specs.declared.Stable.TheVariants.{Reset as InReset};
ghost use Rattle.tap_machine.specs.Play.{pins, scans_in};

use crate::digits::differs;
use crate::moments::{add_falling, add_rising};
use crate::scene::{Scene, shown};
use crate::shown::{Shown, after_pins, has_shifts, moves_stages, vars_to_check};
use crate::times::{tick, time_digits};
use crate::var::{Var, Window};
use ij_bits::{List, OutOfMemory};
use ij_io::SureSink;
use instruments::Model;
use net_bench::Bench;
use net_graph::{Device, Holds, Net};
use std::alloc::Global;
use svf_writer::Commands;
use tap_machine::{Pins, Player, Stable, TapState};

/// A clock that shifts nothing, with TMS and TDI 0.
const REST: Pins = Pins {
    tms: false,
    tdi: false,
    expect: None,
    scan: 0,
    bit: 0,
};

/// What is at the pins before the first clock.
const NOTHING: Shown = Shown {
    pins: REST,
    tdo: false,
    tap: TapState::TestLogicReset,
};

/// A play on the bench of a network: its shift stages, the variables after the nine pins with the digits that
/// were written last, those of the instruction, whether none was written yet, the number of the next clock
/// with the digits of its time, how many clocks are still to be written, and whether a compare differed so
/// far. `last` is what the clock before showed at the pins, `pins` a place among the variables from which on
/// there is no pin, `shifts` whether there are shift stages, which are kept only then.
#[derive(Drop)]
pub(crate) struct Playing<'a> {
    pub net: &'a Net,
    pub models: &'a List<Model>,
    pub bench: Bench<'a>,
    pub player: Player<'a>,
    pub stages: Holds,
    pub vars: List<Var>,
    pub told: Vec<List<u8>>,
    pub instruction: List<u8>,
    pub scratch: List<u8>,
    pub first: bool,
    pub last: Shown,
    pub pins: usize,
    pub shifts: bool,
    pub clock: u64,
    pub digits: Vec<u8>,
    pub left: u64,
    pub differs: bool,
}

/// An empty list for each variable.
fn empty_lists(alloc: Global, count: usize) -> Result<Vec<List<u8>>, OutOfMemory>
    ensures { IfOk result (λ told. left.told_of told.items ≡ untold count) }
{
    let mut told = Vec::new(alloc);
    for _k in 0..count {
        told.push(List::new(alloc))?;
    }
    Ok(told)
}

/// Gives the shift stages beside a bench what those of its active path hold, if they changed.
fn copy_shift_stages_if(changed: bool, bench: &Bench, stages: &mut Holds)
    requires { AreHolds bench.now.net stages.old }
    ensures { stages.new ≡ cond changed (put_chain (route_of bench.now.net bench.now.state.holds) (bits_on
        (route_of bench.now.net bench.now.state.holds) bench.now.state.stages) stages.old) stages.old }
{
    if changed {
        bench.copy_path_stages(stages);
    }
}

/// One clock of a bench, and of the shift stages beside it if they are to be kept; answers whether its
/// compare differs.
fn step(bench: &mut Bench, stages: &mut Holds, kept: bool, pins: Pins) -> bool
    requires well_formed { IsNet bench.old.net }
    requires shape { AreHolds bench.old.net stages.old }
    requires stages { kept ≡ true → stages.old ≡ bench.old.state.stages }
    ensures bench { bench.new
        ≡ record bench.old { state = clock (chip_of bench.old) pins.tms pins.tdi bench.old.state } }
    ensures shape { AreHolds bench.old.net stages.new }
    ensures stages { kept ≡ true → stages.new ≡ bench.new.state.stages }
    ensures differs { result ≡ values.differs pins.expect (tdo (chip_of bench.old) bench.old.state) }
{
    let moves = moves_stages(kept, bench.tap());
    let found = bench.clock(pins.tms, pins.tdi);
    copy_shift_stages_if(moves, bench, stages);
    differs(pins.expect, found)
}

/// Whether one of two is so.
fn either(a: bool, b: bool) -> bool
    ensures { result ≡ (a || b) }
{
    a || b
}

impl<'a> Playing<'a> {
    /// A play from power-up of which nothing was written.
    pub(crate) fn new(
        alloc: Global,
        net: &'a Net,
        device: &'a Device,
        models: &'a List<Model>,
        commands: &'a Commands,
        vars: List<Var>,
        window: Window,
    ) -> Result<Playing<'a>, OutOfMemory>
        requires well_formed { IsNet net.now }
        requires models { AreModels net.now models.now.items }
        requires scans { scans_in commands.now ≤ 1000000000 }
        requires there { All (IsVar net.now (map seen_model models.now.items)) vars.items }
        ensures playing { IfOk result (λ playing. IsPlaying playing) }
        ensures first { IfOk result (λ playing. playing.first ≡ true) }
        ensures differs { IfOk result (λ playing. left.some_differs playing
            ≡ is_any (differs_of net.now device.now (map seen_model models.now.items) commands.now)) }
        ensures text { IfOk result (λ playing. left.skipped_text window.from playing
            ≡ moments_text (moments_of (chip net.now device.now (map seen_model models.now.items)) (map
            seen_model models.now.items) (pin_vars ++ vars.items) (pins InReset 0 commands.now) window)) }
    {
        let bench = Bench::new(alloc, net, device, models)?;
        let player = Player::new(Stable::Reset, 0, commands);
        let stages = Holds::zeros(alloc, net)?;
        let told = empty_lists(alloc, vars.len())?;
        let pins = after_pins(vars.as_slice());
        let shifts = has_shifts(vars.as_slice());
        let digits = time_digits(alloc, window.from.saturating_mul(2))?;
        Ok(Playing {
            net,
            models,
            bench,
            player,
            stages,
            vars,
            told,
            instruction: List::new(alloc),
            scratch: List::new(alloc),
            first: true,
            last: NOTHING,
            pins,
            shifts,
            clock: window.from,
            digits,
            left: window.count,
            differs: false,
        })
    }

    /// Plays this many clocks, unless the play ends before, and writes nothing.
    pub(crate) fn skip(&mut self, clocks: u64)
        requires playing { IsPlaying self.old }
        requires first { self.old.first ≡ true }
        ensures playing { IsPlaying self.new }
        ensures text { left.left_text self.new ≡ left.skipped_text clocks self.old }
        ensures differs { left.some_differs self.new ≡ left.some_differs self.old }
    {
        for _k in 0..clocks {
            let Some(pins) = self.player.next() else {
                return;
            };
            let differs = step(&mut self.bench, &mut self.stages, self.shifts, pins);
            self.differs = either(self.differs, differs);
        }
    }

    /// The pins of the next clock, `None` where no more is to be written.
    fn next_pins(&mut self) -> Option<Pins>
        ensures same { self.new ≡ record self.old { player = self.new.player; left = self.new.left } }
        ensures none { IsNone result → take self.old.left self.old.player.pins ≡ [] }
        ensures some { IfSome result
            (λ p. take self.old.left self.old.player.pins ≡ p ∷ take self.new.left self.new.player.pins) }
        ensures fewer { IsSome result → self.new.left < self.old.left }
        ensures kept { IsNone result → self.new.player.pins ≡ self.old.player.pins }
        ensures given { IfSome result (λ p. self.old.player.pins ≡ p ∷ self.new.player.pins) }
    {
        if self.left == 0 {
            return None;
        }
        self.left -= 1;
        self.player.next()
    }

    /// How many variables are to be looked at, from the first on, at a clock that shows something at the
    /// pins.
    fn place(&self, now: &Shown) -> usize
        requires { IsPlaying self.now }
        ensures few { result ≤ length self.now.vars.items }
        ensures all { self.now.first ≡ true → result ≡ length self.now.vars.items }
        ensures stay { self.now.first ≡ false → Stay self.now.last now.now self.now.vars.items result }
    {
        if self.first {
            return self.vars.len();
        }
        vars_to_check(
            self.vars.as_slice(),
            self.pins,
            self.shifts,
            &self.last,
            now,
        )
    }

    /// Adds the moment at which a clock begins.
    fn add_falling(&mut self, pins: Pins, piece: &mut SureSink) -> Result<(), OutOfMemory>
        requires { IsPlaying self.old }
        ensures same { self.new ≡ record self.old {
          told = self.new.told;
          instruction = self.new.instruction;
          scratch = self.new.scratch;
          last = self.new.last;
        } }
        ensures last { self.new.last ≡ shown_at (chip_of self.old.bench) pins self.old.bench.state }
        ensures told { OnOk result (left.before_of self.new ≡ left.values_at self.old pins) }
        ensures text { OnOk result (piece.new ≡ piece.old ++ left.falling_text self.old pins) }
    {
        let now = shown(&self.bench, pins);
        let place = self.place(&now);
        let last = self.last;
        self.last = now;
        let scene = Scene {
            net: self.net,
            models: self.models,
            bench: &self.bench,
            stages: &self.stages,
            shifts: self.shifts,
            pins,
        };
        add_falling(
            &scene,
            self.vars.as_slice(),
            place,
            self.first,
            &last,
            &now,
            self.clock,
            &self.digits,
            &mut self.instruction,
            &mut self.told,
            &mut self.scratch,
            piece,
        )
    }

    /// Adds the moments of a clock, and goes on to the next.
    fn add_clock(&mut self, pins: Pins, piece: &mut SureSink) -> Result<(), OutOfMemory>
        requires { IsPlaying self.old }
        ensures playing { OnOk result (IsPlaying self.new) }
        ensures text { OnOk result (piece.new ≡ piece.old ++ left.clock_text self.old pins) }
        ensures left { OnOk result (left.left_text self.new ≡ left.after_text self.old pins) }
        ensures count { OnOk result (self.new.left ≡ self.old.left) }
        ensures differs { OnOk result (left.some_differs self.new ≡ left.differs_with self.old pins) }
    {
        let clock = self.clock;
        let time = clock.saturating_mul(2);
        let rise = time.saturating_add(1);
        self.add_falling(pins, piece)?;
        tick(time, &mut self.digits)?;
        add_rising(clock, &self.digits, piece)?;
        tick(rise, &mut self.digits)?;
        let differs = step(&mut self.bench, &mut self.stages, self.shifts, pins);
        self.differs = either(self.differs, differs);
        self.first = false;
        self.clock = clock.saturating_add(1);
        Ok(())
    }

    /// Adds the moments of the next clock, or that of the end; answers whether there are more.
    pub(crate) fn add_next(&mut self, piece: &mut SureSink) -> Result<bool, OutOfMemory>
        requires { IsPlaying self.old }
        ensures playing { IfOk result (λ more. more ≡ true → IsPlaying self.new) }
        ensures text { IfOk result (λ more. more ≡ true
            → left.IsFurther piece.old piece.new (left.left_text self.old) (left.left_text self.new)) }
        ensures fewer { IfOk result (λ more. more ≡ true → self.new.left < self.old.left) }
        ensures end { IfOk result (λ more. more ≡ false → piece.new ≡ piece.old ++ left.left_text self.old) }
        ensures differs { OnOk result (left.some_differs self.new ≡ left.some_differs self.old) }
        ensures step { OnOk result (left.CanStep self.new) }
    {
        match self.next_pins() {
            None => {
                self.add_falling(REST, piece)?;
                Ok(false)
            }
            Some(pins) => {
                self.add_clock(pins, piece)?;
                Ok(true)
            }
        }
    }

    /// Plays the clocks that are left, of which nothing is written; answers whether a compare of the whole
    /// play differs.
    pub(crate) fn finish(&mut self) -> bool
        requires { left.CanStep self.old }
        ensures { result ≡ left.some_differs self.old }
    {
        while let Some(pins) = self.player.next() {
            let differs = step(&mut self.bench, &mut self.stages, self.shifts, pins);
            self.differs = either(self.differs, differs);
        }
        self.differs
    }
}
