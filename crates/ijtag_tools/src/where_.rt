// The command `where`.
ghost use Rattle.std.specs.Prelude.{◌≡◌, true, IfOk};
ghost use Rattle.ijtag_stages.specs.Follows.{Follows};
ghost use Rattle.ijtag_work.specs.Using.{IsUsable, seen_accepted, there};
ghost use Rattle.ijtag_work.specs.Seen.{differing};
ghost use Rattle.ijtag_tools.specs.Order.{answer_at, look_up, place_line};
ghost use Rattle.ijtag_tools.specs.Words.{seen_where};

use crate::words::WhereWords;
use ij_io::{Shelf, Sink, SureSink};
use ijtag_core::Effect;
use ijtag_stages::{Stage, StageFault, refused_number};
use ijtag_work::{Accepted, PlayWords, Stop, Verdict};
use std::alloc::Global;
use svf_notes::{BitAnswer, find_bit};

/// What is at a position of a scan: whether its compare differs, and the line that says so.
#[derive(Drop)]
struct Place {
    verdict: Verdict,
    line: SureSink,
}

/// What is at a position of a scan; refused where there is no such scan or position.
#[tactic(auto, unfolding(crate::specs::Order::answer_at, crate::specs::Order::place_line))]
fn locate_bit(alloc: Global, it: &Accepted, scan: u64, bit: u64) -> Result<Place, StageFault>
    requires usable { IsUsable it.now }
    requires models { there it.now.models ≡ true }
    requires commands { there it.now.commands ≡ true }
    ensures answer { Follows (answer_at scan bit (seen_accepted it.now))
        (λ place. differing place.verdict) result }
    ensures line { IfOk result (λ place. place.line ≡ place_line scan bit (seen_accepted it.now)) }
{
    let net = &it.network.net;
    let models = it.models().models();
    let found = find_bit(alloc, net, &it.device, models, it.commands(), scan, bit)?;
    let verdict = match found.answer {
        BitAnswer::Same => Verdict::Agrees,
        BitAnswer::Differs => Verdict::Differs,
        BitAnswer::NoScan => return Err(refused_number(alloc, Stage::Where, b"NoScan", scan)),
        BitAnswer::NoBit => return Err(refused_number(alloc, Stage::Where, b"NoBit", bit)),
    };
    let line = found.line;
    Ok(Place { verdict, line })
}

/// Prints what is at one position of one scan, and ends as a play does where its compare differs. No file
/// changes.
impl<'w> Effect for WhereWords<'w> {
    ghost table_row = { λ words. look_up (seen_where words) };

    type Words = PlayWords<'w>;

    fn words(&self) -> &Self::Words {
        &self.play
    }

    fn prints(&self) -> bool {
        true
    }

    fn act<'a, S: Shelf, O: Sink>(
        &'a self,
        alloc: Global,
        it: &Accepted,
        _shelf: &mut S,
        out: &mut O,
    ) -> Result<Verdict, Stop<'a>> {
        let place = locate_bit(alloc, it, self.scan, self.bit)?;
        match out.write(place.line.bytes()) {
            Ok(()) => Ok(place.verdict),
            Err(fault) => Err(Stop::of_output(fault)),
        }
    }
}
