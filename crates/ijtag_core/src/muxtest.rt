// The command `muxtest`.
ghost use Rattle.std.specs.Prelude.{◌≡◌, ◌∷◌, [], Some, OnOk, OnErr, IfOk, IfErr};
ghost use Rattle.std.specs.Option.{option_map};
ghost use Rattle.ij_io.specs.Bytes.{Adds, AddsPart};
ghost use Rattle.ij_io.specs.Causes.{HasCause, HasCauseAt, SameCounts};
ghost use Rattle.ij_io.specs.Files.{OthersStay, file_at};
ghost use Rattle.ij_io.specs.Pieces.{HoldsPart};
ghost use Rattle.mux_test.specs.Given.{SeenTest};
ghost use Rattle.ijtag_stages.specs.Follows.{Follows};
ghost use Rattle.ijtag_work.specs.Order.{mux_test, test_report_of, test_text_of, within_limit};
ghost use Rattle.ijtag_work.specs.Tested.{HasRightTest, TestsRight};
ghost use Rattle.ijtag_work.specs.Using.{IsUsable, seen_accepted};
ghost use Rattle.ijtag_work.specs.Words.{seen_mux_test};
ghost use Rattle.ijtag_core.specs.Testing.{IsReportOf, IsTestOf};

use crate::effect::Effect;
use ij_io::{Shelf, Sink, StoreFault};
use ijtag_stages::{Stage, StageFault, refused_limit};
use ijtag_work::{Accepted, MuxTestWords, NetworkWords, Stop, Verdict};
use mux_test::{MuxFault, MuxTest, mux_tests_law, put_test_file, put_test_report};
use std::alloc::Global;

/// Plans the test of a network, or refuses one that has too many scans.
#[tactic(auto, unfolding(ijtag_work::specs::Order::within_limit))]
fn plan<'n>(alloc: Global, it: &'n Accepted) -> Result<MuxTest<'n>, StageFault>
    requires { IsUsable it.now }
    ensures follows { Follows (within_limit (seen_accepted it.now)) (λ _. tt) result }
    ensures planned { IfOk result (IsTestOf (seen_accepted it.now)) }
{
    match MuxTest::new(alloc, &it.network.net, &it.network.form) {
        Ok(test) => Ok(test),
        Err(MuxFault::Limit { number }) => {
            Err(refused_limit(alloc, Stage::Muxtest, b"Scans", number as u64))
        }
        Err(MuxFault::OutOfMemory) => Err(StageFault::OutOfMemory),
    }
}

/// What the text of a test does, played.
fn text_tests_right(it: &Accepted)
    requires { IsUsable it.now }
    ensures { (within_limit (seen_accepted it.now)).gives tt → TestsRight (seen_accepted it.now) }
{
    mux_tests_law();
}

/// Writes the file of a test, from its front.
#[tactic(auto, unfolding(ijtag_work::specs::Order::test_text_of))]
fn write_test<'n, S: Shelf>(
    alloc: Global,
    it: &Accepted,
    test: &mut MuxTest<'n>,
    name: &str,
    shelf: &mut S,
) -> Result<(), StoreFault>
    requires usable { IsUsable it.now }
    requires planned { IsTestOf (seen_accepted it.now) test.old }
    ensures whole { OnOk result (file_at (S.files shelf.new) name.now
        ≡ option_map (λ _. Some (test_text_of (seen_accepted it.now))) (S.files shelf.old)) }
    ensures part { OnErr result
        (HoldsPart (S.files shelf.old) (S.files shelf.new) name.now (test_text_of (seen_accepted it.now))) }
    ensures others { OthersStay (S.files shelf.old) (S.files shelf.new) name.now }
    ensures cause { HasCauseAt name.now (S.store_faults shelf.old)
        (S.store_faults shelf.new) result StoreFault.Failed }
    ensures loads { SameCounts (S.load_faults shelf.old) (S.load_faults shelf.new) }
    ensures unseen { test.new.unseen ≡ test.old.unseen }
    ensures scan_count { test.new.scan_count ≡ test.old.scan_count }
    ensures row_count { test.new.row_count ≡ test.old.row_count }
{
    mux_tests_law();
    put_test_file(alloc, &it.network.net, &it.device, test, name, shelf)
}

/// Prints the report of a test.
#[tactic(auto, unfolding(ijtag_work::specs::Order::test_report_of))]
fn print_test<'n, O: Sink>(it: &Accepted, test: &MuxTest<'n>, out: &mut O) -> Result<(), StoreFault>
    requires usable { IsUsable it.now }
    requires planned { IsReportOf (seen_accepted it.now) test.now }
    ensures printed { OnOk result
        (Adds (O.taken out.old) (O.taken out.new) (test_report_of (seen_accepted it.now))) }
    ensures part { OnErr result
        (AddsPart (O.taken out.old) (O.taken out.new) (test_report_of (seen_accepted it.now))) }
    ensures cause { HasCause (O.faults out.old) (O.faults out.new) result StoreFault.Failed }
{
    mux_tests_law();
    put_test_report(&it.network.net, test, out)
}

/// Writes the SVF file of the test of the network's multiplexers, and prints the rows that one may be stuck
/// in unseen, and the counts.
impl<'w> Effect for MuxTestWords<'w> {
    ghost table_row = { λ words. mux_test (seen_mux_test words) };

    ghost promise = { λ words files file it _. HasRightTest files (file (seen_mux_test words).svf) it };

    type Words = NetworkWords<'w>;

    fn words(&self) -> &Self::Words {
        &self.network
    }

    fn prints(&self) -> bool {
        true
    }

    fn act<'a, S: Shelf, O: Sink>(
        &'a self,
        alloc: Global,
        it: &Accepted,
        shelf: &mut S,
        out: &mut O,
    ) -> Result<Verdict, Stop<'a>> {
        let mut test = plan(alloc, it)?;
        text_tests_right(it);
        match write_test(alloc, it, &mut test, self.svf, shelf) {
            Ok(()) => {}
            Err(fault) => return Err(Stop::of_file(fault, self.svf)),
        }
        match print_test(it, &test, out) {
            Ok(()) => Ok(Verdict::Agrees),
            Err(fault) => Err(Stop::of_output(fault)),
        }
    }
}
