// The command `tighten`.
ghost use Rattle.std.specs.Prelude.{◌≡◌, OnOk, OnErr};
ghost use Rattle.ij_io.specs.Bytes.{Adds, AddsPart};
ghost use Rattle.ij_io.specs.Causes.{HasCause};
ghost use Rattle.ijtag_tools.specs.Order.{cost_line, tighten};
ghost use Rattle.ijtag_tools.specs.Planned.{seen_cost};
ghost use Rattle.ijtag_tools.specs.Tight.{NoneTakesFewer};
ghost use Rattle.ijtag_tools.specs.Words.{seen_tighten};

use crate::cost::Cost;
use crate::planned::{none_takes_fewer, tightest};
use crate::words::TightenWords;
use ij_io::{Shelf, Sink, StoreFault, Word, put_words};
use ijtag_core::Effect;
use ijtag_work::{Accepted, ProcedureWords, Stop, Verdict, write_file};
use std::alloc::Global;

/// Prints what commands take, what those of a compile take, and the clocks that any take at least.
#[tactic(auto, unfolding(ij_io::specs::Words::words_text, crate::specs::Order::cost_line))]
fn put_costs<O: Sink>(now: Cost, before: Cost, least: u64, out: &mut O) -> Result<(), StoreFault>
    ensures printed { OnOk result
        (Adds (O.taken out.old) (O.taken out.new) (cost_line (seen_cost now) (seen_cost before) least)) }
    ensures part { OnErr result
        (AddsPart (O.taken out.old) (O.taken out.new) (cost_line (seen_cost now) (seen_cost before) least)) }
    ensures cause { HasCause (O.faults out.old) (O.faults out.new) result StoreFault.Failed }
{
    put_words(
        out,
        &[
            Word::Text(b"scans "),
            Word::Number(now.scans),
            Word::Text(b" clocks "),
            Word::Number(now.clocks),
            Word::Text(b" were scans "),
            Word::Number(before.scans),
            Word::Text(b" clocks "),
            Word::Number(before.clocks),
            Word::Text(b" least "),
            Word::Number(least),
            Word::Text(b"\n"),
        ],
    )
}

/// Writes the SVF file of a text that does what the procedure means, in as few clocks as are found, and
/// prints what it takes.
impl<'w> Effect for TightenWords<'w> {
    ghost table_row = { λ words. tighten (seen_tighten words) };

    ghost promise = { λ _ _ _ it _. NoneTakesFewer it };

    type Words = ProcedureWords<'w>;

    fn words(&self) -> &Self::Words {
        &self.procedure
    }

    fn prints(&self) -> bool {
        true
    }

    fn act<'a, S: Shelf, O: Sink>(
        &'a self,
        alloc: Global,
        it: &Accepted,
        shelf: &mut S,
        out: &mut O,
    ) -> Result<Verdict, Stop<'a>> {
        none_takes_fewer(it);
        let found = tightest(alloc, it, self.how)?;
        match write_file(self.svf, found.svf.bytes(), shelf) {
            Ok(()) => {}
            Err(fault) => return Err(Stop::of_file(fault, self.svf)),
        }
        match put_costs(found.cost, found.before, found.least, out) {
            Ok(()) => Ok(Verdict::Agrees),
            Err(fault) => Err(Stop::of_output(fault)),
        }
    }
}
