// The command `list`.
ghost use Rattle.std.specs.Prelude.{◌≡◌, OnOk, OnErr};
ghost use Rattle.ij_io.specs.Bytes.{Adds, AddsPart};
ghost use Rattle.ij_io.specs.Causes.{HasCause};
ghost use Rattle.ijtag_work.specs.Using.{IsUsable, seen_accepted};
ghost use Rattle.ijtag_tools.specs.Order.{list, listed};
ghost use Rattle.ijtag_tools.specs.Words.{seen_list};

use crate::words::ListWords;
use ij_io::{Shelf, Sink, StoreFault};
use ijtag_core::Effect;
use ijtag_work::{Accepted, NetworkWords, Stop, Verdict};
use net_list::{ListFormat, put_list};
use std::alloc::Global;

/// Writes the listing. A refusal leaves a first part of it.
#[tactic(auto, unfolding(crate::specs::Order::listed))]
fn put_lines<O: Sink>(
    alloc: Global,
    it: &Accepted,
    format: ListFormat,
    out: &mut O,
) -> Result<(), StoreFault>
    requires usable { IsUsable it.now }
    ensures printed { OnOk result
        (Adds (O.taken out.old) (O.taken out.new) (listed format (seen_accepted it.now))) }
    ensures part { OnErr result
        (AddsPart (O.taken out.old) (O.taken out.new) (listed format (seen_accepted it.now))) }
    ensures cause { HasCause (O.faults out.old) (O.faults out.new) result StoreFault.Failed }
{
    put_list(alloc, &it.network.net, &it.network.form, format, out)
}

/// Prints the registers, multiplexers and instruments of the network. No file changes.
impl<'w> Effect for ListWords<'w> {
    ghost table_row = { λ words. list (seen_list words) };

    type Words = NetworkWords<'w>;

    fn words(&self) -> &Self::Words {
        &self.network
    }

    fn prints(&self) -> bool {
        true
    }

    fn act<'a, S: Shelf, O: Sink>(
        &'a self,
        alloc: Global,
        it: &Accepted,
        _shelf: &mut S,
        out: &mut O,
    ) -> Result<Verdict, Stop<'a>> {
        match put_lines(alloc, it, self.format, out) {
            Ok(()) => Ok(Verdict::Agrees),
            Err(fault) => Err(Stop::of_output(fault)),
        }
    }
}
