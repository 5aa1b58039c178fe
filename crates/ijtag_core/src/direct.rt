// The command `direct`.
ghost use Rattle.std.specs.Prelude.{◌≡◌, true, OnOk, OnErr, IfOk};
ghost use Rattle.ij_io.specs.Bytes.{Adds, AddsPart};
ghost use Rattle.ij_io.specs.Causes.{HasCause};
ghost use Rattle.ijtag_work.specs.Order.{direct, meaning_of, reads_differ};
ghost use Rattle.ijtag_work.specs.Seen.{differing};
ghost use Rattle.ijtag_work.specs.Using.{IsUsable, seen_accepted, there};
ghost use Rattle.ijtag_work.specs.Words.{seen_direct};

use crate::effect::Effect;
use direct_report::put_direct;
use ij_io::{Shelf, Sink, StoreFault};
use ijtag_work::{Accepted, DirectWords, Stop, Verdict, steps_again};
use merge_order::{bit_steps_are_few, bit_steps_are_of_the_network};
use std::alloc::Global;

/// Runs a procedure by its meaning and writes the report. A refusal leaves a first part of the report.
#[tactic(auto, unfolding(ijtag_work::specs::Order::meaning_of))]
fn put_lines<O: Sink>(alloc: Global, it: &Accepted, out: &mut O) -> Result<Verdict, StoreFault>
    requires usable { IsUsable it.now }
    requires models { there it.now.models ≡ true }
    requires procedure { there it.now.procedure ≡ true }
    ensures printed { OnOk result
        (Adds (O.taken out.old) (O.taken out.new) (meaning_of (seen_accepted it.now))) }
    ensures verdict { IfOk result (λ verdict. differing verdict ≡ reads_differ (seen_accepted it.now)) }
    ensures part { OnErr result
        (AddsPart (O.taken out.old) (O.taken out.new) (meaning_of (seen_accepted it.now))) }
    ensures cause { HasCause (O.faults out.old) (O.faults out.new) result StoreFault.Failed }
{
    bit_steps_are_of_the_network();
    bit_steps_are_few();
    let models = it.models();
    let mut steps = steps_again(alloc, &it.network, it.procedure())?;
    let told = put_direct(alloc, &it.network.net, models.models(), &mut steps, out);
    drop(steps);
    let differs = told?;
    Ok(Verdict::of_count(differs))
}

/// Does what the procedure means, with no chain and no clock, and prints the report. No file changes.
impl<'w> Effect for DirectWords<'w> {
    ghost table_row = { λ words. direct (seen_direct words) };

    type Words = DirectWords<'w>;

    fn words(&self) -> &Self::Words {
        self
    }

    fn prints(&self) -> bool {
        true
    }

    fn act<'a, S: Shelf, O: Sink>(
        &'a self,
        alloc: Global,
        it: &Accepted,
        _shelf: &mut S,
        out: &mut O,
    ) -> Result<Verdict, Stop<'a>> {
        match put_lines(alloc, it, out) {
            Ok(verdict) => Ok(verdict),
            Err(fault) => Err(Stop::of_output(fault)),
        }
    }
}
