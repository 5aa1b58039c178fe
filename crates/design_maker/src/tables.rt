// The tables of the instruments of a made design, and the device.
ghost use Rattle.std.specs.Prelude.{◌≡◌, ◌≤◌, ◌++◌, length, OnOk, IfOk};
ghost use Rattle.design_maker.specs.Numbered.{numbered};
ghost use Rattle.design_maker.specs.Tables.{device_text, instrument_table, table_text, tables_text};

use crate::instrument::Instrument;
use ij_bits::{List, OutOfMemory};
use ij_io::{Sink, StoreFault, SureSink, Word, put_words};
use ij_text::{Text, name_of};
use std::alloc::Global;

/// Writes the table of instrument i.
#[tactic(auto, unfolding(crate::specs::Tables::table_text, ij_io::specs::Words::words_text))]
fn put_table(i: u64, width: u32, tables: &mut SureSink) -> Result<(), StoreFault>
    ensures { OnOk result (tables.new ≡ tables.old ++ table_text i width) }
{
    put_words(
        tables,
        &[
            Word::Text(b"instrument net.w"),
            Word::Number(i),
            Word::Text(b".ins\nin d "),
            Word::Number(u64::from(width)),
            Word::Text(b"\nword v "),
            Word::Number(u64::from(width)),
            Word::Text(b"\nout q = v\nchange do v = d\nrun do v = v + 1\nend\n"),
        ],
    )
}

/// Writes the table of each instrument.
fn put_each_table(instruments: &List<Instrument>, tables: &mut SureSink) -> Result<(), StoreFault>
    requires { length instruments.now.items ≤ 64 }
    ensures { OnOk result (tables.new ≡ tables.old ++ numbered instrument_table 1 instruments.now.items) }
{
    for i in 0..instruments.len() {
        put_table(i as u64 + 1, instruments.get(i).width.bits(), tables)?;
    }
    Ok(())
}

/// Writes the tables.
#[tactic(auto, unfolding(crate::specs::Tables::tables_text))]
fn put_tables(instruments: &List<Instrument>, tables: &mut SureSink) -> Result<(), StoreFault>
    requires { length instruments.now.items ≤ 64 }
    ensures { OnOk result (tables.new ≡ tables.old ++ tables_text instruments.now.items) }
{
    tables.write(b"tables 1\n")?;
    put_each_table(instruments, tables)?;
    Ok(())
}

/// The text of the tables.
pub(crate) fn tables_text(
    alloc: Global,
    instruments: &List<Instrument>,
) -> Result<Text, OutOfMemory>
    requires { length instruments.now.items ≤ 64 }
    ensures { IfOk result (λ tables. tables.items ≡ tables_text instruments.now.items) }
{
    let mut tables = SureSink::new(alloc);
    match put_tables(instruments, &mut tables) {
        Ok(()) => name_of(alloc, tables.bytes()),
        Err(_) => Err(OutOfMemory),
    }
}

/// The text of the device.
#[tactic(auto, unfolding(crate::specs::Tables::device_text))]
pub(crate) fn device_text(alloc: Global) -> Result<Text, OutOfMemory>
    ensures { IfOk result (λ device. device.items ≡ device_text) }
{
    name_of(alloc, b"device 1\nir 8\nlink tap IJTAG A0\n")
}
