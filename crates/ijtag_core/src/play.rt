// The command `play`.
ghost use Rattle.std.specs.Prelude.{◌≡◌, true, OnOk, OnErr, IfOk};
ghost use Rattle.ij_io.specs.Bytes.{Adds, AddsPart};
ghost use Rattle.ij_io.specs.Causes.{HasCause};
ghost use Rattle.ijtag_work.specs.Order.{any_differs, differs_at, play, report_of};
ghost use Rattle.ijtag_work.specs.Seen.{differing};
ghost use Rattle.ijtag_work.specs.Using.{IsUsable, seen_accepted, there};
ghost use Rattle.ijtag_work.specs.Words.{seen_play};

use crate::effect::Effect;
use bench_report::put_play;
use ij_io::{Shelf, Sink, StoreFault};
use ijtag_work::{Accepted, PlayWords, Stop, Verdict};
use std::alloc::Global;

/// Plays commands on the bench of a network and writes the report. A refusal leaves a first part of the
/// report.
#[tactic(auto, unfolding(ijtag_work::specs::Order::report_of))]
fn put_lines<O: Sink>(alloc: Global, it: &Accepted, out: &mut O) -> Result<Verdict, StoreFault>
    requires usable { IsUsable it.now }
    requires models { there it.now.models ≡ true }
    requires commands { there it.now.commands ≡ true }
    ensures printed { OnOk result
        (Adds (O.taken out.old) (O.taken out.new) (report_of (seen_accepted it.now))) }
    ensures verdict { IfOk result (λ verdict. differing verdict
        ≡ any_differs (differs_at (seen_accepted it.now) (seen_accepted it.now).commands)) }
    ensures part { OnErr result
        (AddsPart (O.taken out.old) (O.taken out.new) (report_of (seen_accepted it.now))) }
    ensures cause { HasCause (O.faults out.old) (O.faults out.new) result StoreFault.Failed }
{
    let models = it.models();
    let commands = it.commands();
    let net = &it.network.net;
    let differs = put_play(alloc, net, &it.device, models.models(), commands, out)?;
    Ok(Verdict::of_count(differs))
}

/// Plays the SVF text clock by clock from power-up and prints the report. No file changes.
impl<'w> Effect for PlayWords<'w> {
    ghost table_row = { λ words. play (seen_play words) };

    type Words = PlayWords<'w>;

    fn words(&self) -> &Self::Words {
        self
    }

    fn prints(&self) -> bool {
        true
    }

    fn act<'a, S: Shelf, O: Sink>(
        &'a self,
        alloc: Global,
        it: &Accepted,
        _shelf: &mut S,
        out: &mut O,
    ) -> Result<Verdict, Stop<'a>> {
        match put_lines(alloc, it, out) {
            Ok(verdict) => Ok(verdict),
            Err(fault) => Err(Stop::of_output(fault)),
        }
    }
}
