// The command `wave`.
ghost use Rattle.std.specs.Prelude.{◌≡◌, ◌≤◌, [], true, length, Some, IfOk, OnOk, OnErr};
ghost use Rattle.std.specs.Option.{option_map};
ghost use Rattle.ij_io.specs.Causes.{HasCauseAt, SameCounts};
ghost use Rattle.ij_io.specs.Files.{OthersStay, file_at};
ghost use Rattle.ij_io.specs.Pieces.{HoldsPart};
ghost use Rattle.ijtag_stages.specs.Follows.{Follows};
ghost use Rattle.ijtag_work.specs.Order.{any_differs, differs_at};
ghost use Rattle.ijtag_work.specs.Seen.{differing};
ghost use Rattle.ijtag_work.specs.Using.{IsUsable, seen_accepted, there};
ghost use Rattle.ijtag_tools.specs.Order.{wave, waves_of, window_in, window_of, within};
ghost use Rattle.ijtag_tools.specs.Words.{seen_wave};

use crate::cost::cost_of;
use crate::words::WaveWords;
use ij_io::{Shelf, Sink, StoreFault};
use ijtag_core::Effect;
use ijtag_stages::{Stage, StageFault, refused_number};
use ijtag_work::{Accepted, PlayWords, Stop, Verdict};
use net_wave::{WaveKind, Window, put_wave_file};
use std::alloc::Global;

/// The most clocks that are written: as many as a procedure may run.
const MOST_CLOCKS: u64 = 4_000_000;

/// Refuses clocks that are too many to be written.
fn check_count(alloc: Global, window: Window) -> Result<Window, StageFault>
    ensures { Follows (within window) (λ w. w) result }
{
    if window.count > MOST_CLOCKS {
        return Err(refused_number(alloc, Stage::Wave, b"TooLong", window.count));
    }
    Ok(window)
}

/// The clocks that are written of a play of this many; refused where the first isn't one of them, and where
/// they are too many.
fn check_window(alloc: Global, asked: Option<Window>, clocks: u64) -> Result<Window, StageFault>
    ensures { Follows (window_in asked clocks) (λ w. w) result }
{
    let Some(asked) = asked else {
        let whole = Window {
            from: 0,
            count: clocks,
        };
        return check_count(alloc, whole);
    };
    if asked.from >= clocks {
        return Err(refused_number(alloc, Stage::Wave, b"BadWindow", asked.from));
    }
    let count = asked.count.min(clocks - asked.from);
    let window = Window {
        from: asked.from,
        count,
    };
    check_count(alloc, window)
}

/// The clocks that are written of the play.
#[tactic(auto, unfolding(crate::specs::Order::window_of))]
fn find_window(alloc: Global, it: &Accepted, asked: Option<Window>) -> Result<Window, StageFault>
    requires usable { IsUsable it.now }
    requires commands { there it.now.commands ≡ true }
    ensures { Follows (window_of asked (seen_accepted it.now)) (λ w. w) result }
{
    let clocks = cost_of(it.commands()).clocks;
    check_window(alloc, asked, clocks)
}

/// How a play ends, by whether a compare differs.
fn verdict_of(differs: bool) -> Verdict
    ensures { differing result ≡ differs }
{
    if differs {
        Verdict::Differs
    } else {
        Verdict::Agrees
    }
}

/// Writes the file of the waves, from its front; answers how the whole play ends.
#[tactic(auto, unfolding(crate::specs::Order::waves_of))]
fn write_waves<S: Shelf>(
    alloc: Global,
    it: &Accepted,
    kind: WaveKind,
    top: &str,
    window: Window,
    name: &str,
    shelf: &mut S,
) -> Result<Verdict, StoreFault>
    requires usable { IsUsable it.now }
    requires models { there it.now.models ≡ true }
    requires commands { there it.now.commands ≡ true }
    ensures differs { IfOk result (λ verdict. differing verdict
        ≡ any_differs (differs_at (seen_accepted it.now) (seen_accepted it.now).commands)) }
    ensures whole { OnOk result (file_at (S.files shelf.new) name.now
        ≡ option_map (λ _. Some (waves_of kind top.now window (seen_accepted it.now))) (S.files shelf.old)) }
    ensures part { OnErr result (HoldsPart (S.files shelf.old) (S.files shelf.new) name.now
        (waves_of kind top.now window (seen_accepted it.now))) }
    ensures others { OthersStay (S.files shelf.old) (S.files shelf.new) name.now }
    ensures cause { HasCauseAt name.now (S.store_faults shelf.old)
        (S.store_faults shelf.new) result StoreFault.Failed }
    ensures loads { SameCounts (S.load_faults shelf.old) (S.load_faults shelf.new) }
{
    let net = &it.network.net;
    let models = it.models().models();
    let commands = it.commands();
    let top = top.as_bytes();
    let differs = put_wave_file(
        alloc, kind, net, &it.device, models, top, commands, window, name, shelf,
    )?;
    Ok(verdict_of(differs))
}

/// Writes the waves of the play, prints nothing, and ends as a play does where a compare differs.
impl<'w> Effect for WaveWords<'w> {
    ghost table_row = { λ words. wave (seen_wave words) };

    type Words = PlayWords<'w>;

    fn words(&self) -> &Self::Words {
        &self.play
    }

    fn prints(&self) -> bool {
        false
    }

    fn act<'a, S: Shelf, O: Sink>(
        &'a self,
        alloc: Global,
        it: &Accepted,
        shelf: &mut S,
        _out: &mut O,
    ) -> Result<Verdict, Stop<'a>> {
        let window = find_window(alloc, it, self.window)?;
        match write_waves(
            alloc,
            it,
            self.kind,
            self.play.network.top,
            window,
            self.waves,
            shelf,
        ) {
            Ok(verdict) => Ok(verdict),
            Err(fault) => Err(Stop::of_file(fault, self.waves)),
        }
    }
}
