// The command `migrate`.
ghost use Rattle.std.specs.Prelude.{◌≡◌, [], ◌∷◌, All, OnErr, IfOk, IfErr};
ghost use Rattle.bench_file.specs.Written.{tables_text};
ghost use Rattle.instruments.specs.Models.{IsModel};
ghost use Rattle.instruments.specs.Seen.{seen_model};
ghost use Rattle.table_file.specs.Answers.{seen_tables};
ghost use Rattle.ijtag_stages.specs.Follows.{Follows};
ghost use Rattle.ijtag_work.specs.Loads.{names_of};
ghost use Rattle.ijtag_work.specs.Follows.{AreTexts, seen_texts};
ghost use Rattle.ijtag_work.specs.Order.{migrate, read_tables_of};
ghost use Rattle.ijtag_work.specs.Runs.{AreFirstWritten, IsDone, IsPartDone, IsStop, OnlyTheseChange};
ghost use Rattle.ijtag_work.specs.Runs.{OnlyTheseRise, counts, seen};
ghost use Rattle.ijtag_work.specs.Seen.{seen_stop, differing};
ghost use Rattle.ijtag_work.specs.Stops.{IsEarly};
ghost use Rattle.ijtag_work.specs.Task.{work};
ghost use Rattle.ijtag_work.specs.Words.{seen_migrate};

use bench_file::Table;
use ij_bits::{List, OutOfMemory};
use ij_io::{Shelf, Sink, SureSink};
use ijtag_stages::{StageFault, read_tables};
use ijtag_work::{MigrateWords, Stop, Verdict, load_files, write_file};
use std::alloc::Global;
use table_writer::put_tables;

/// The tables that the text of the file is accepted as.
fn accept(alloc: Global, texts: &[Vec<u8>]) -> Result<List<Table>, StageFault>
    requires { AreTexts 1 (seen_texts texts.now) }
    ensures follows { Follows (read_tables_of (seen_texts texts.now)) seen_tables result }
    ensures models { IfOk result (λ tables. All (λ t. IsModel (seen_model t.model)) tables.items) }
{
    let [tables] = texts else { unreachable!() };
    read_tables(alloc, tables)
}

/// The text of a file of tables, whole.
fn make_text(alloc: Global, tables: &List<Table>) -> Result<SureSink, OutOfMemory>
    requires { All (λ t. IsModel (seen_model t.model)) tables.now.items }
    ensures { IfOk result (λ text. text ≡ tables_text (seen_tables tables.now)) }
{
    let mut text = SureSink::new(alloc);
    match put_tables(tables, &mut text) {
        Ok(()) => Ok(text),
        Err(_) => Err(OutOfMemory),
    }
}

/// Loads the tables, accepts them, makes their text of version 2, and only then begins the file. It prints
/// nothing.
pub(crate) fn migrate<'a, S: Shelf, O: Sink>(
    alloc: Global,
    words: &MigrateWords<'a>,
    shelf: &mut S,
    _out: &mut O,
) -> Result<Verdict, Stop<'a>>
    ensures done { IfOk result
        (λ verdict. IsDone (work (S.files shelf.old) (migrate (seen_migrate words.now)))
        (seen S.files O.taken shelf.old _out.old)
        (seen S.files O.taken shelf.new _out.new) (differing verdict)) }
    ensures stop { IfErr result (λ stop. IsStop (S.files shelf.old) (migrate (seen_migrate words.now))
        (counts S.load_faults S.store_faults O.faults shelf.old shelf.new _out.old _out.new)
        (seen_stop stop)) }
    ensures early { IfErr result (λ stop. IsEarly (seen_stop stop)
        → AreFirstWritten (migrate (seen_migrate words.now)).begins
        (migrate (seen_migrate words.now)).first_writes (S.files shelf.old) (S.files shelf.new)) }
    ensures part { OnErr result (IsPartDone (S.files shelf.old) (migrate (seen_migrate words.now))
        (seen S.files O.taken shelf.old _out.old) (seen S.files O.taken shelf.new _out.new)) }
    ensures files { OnlyTheseChange (words.now.written.now ∷ []) (S.files shelf.old) (S.files shelf.new) }
    ensures out { _out.new ≡ _out.old }
    ensures loads { OnlyTheseRise (names_of (migrate (seen_migrate words.now)).loads)
        (S.load_faults shelf.old) (S.load_faults shelf.new) }
    ensures stores { OnlyTheseRise (words.now.written.now ∷ [])
        (S.store_faults shelf.old) (S.store_faults shelf.new) }
{
    let texts = load_files(alloc, &words.loads(), shelf)?;
    let tables = accept(alloc, &texts)?;
    let text = make_text(alloc, &tables)?;
    match write_file(words.written, text.bytes(), shelf) {
        Ok(()) => Ok(Verdict::Agrees),
        Err(fault) => Err(Stop::of_file(fault, words.written)),
    }
}
