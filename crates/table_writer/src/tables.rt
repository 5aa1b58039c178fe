// A file of tables.
ghost use Rattle.std.specs.Prelude.{map, All, ◌++◌, OnOk, OnErr};
ghost use Rattle.std.specs.List.{flat_map};
ghost use Rattle.ij_io.specs.Bytes.{Adds, AddsPart};
ghost use Rattle.ij_io.specs.Causes.{HasCause};
ghost use Rattle.instruments.specs.Models.{IsModel};
ghost use Rattle.instruments.specs.Seen.{seen_model};
ghost use Rattle.table_file.specs.Answers.{seen_tables};
ghost use Rattle.table_file.specs.Tables.{seen_table};
ghost use Rattle.bench_file.specs.Written.{path_text, model_text, table_text, tables_text};
ghost use Rattle.table_writer.specs.Pieces.{next_name, instrument_line};

use crate::definition::{put_change, put_ins, put_memory, put_outs_of, put_run, put_words_of};
use ij_bits::List;
use ij_io::{Sink, StoreFault, Word, put_words};
use ij_text::Name;
use instruments::Model;
use table_file::Table;

#[tactic(auto, unfolding(ij_io::specs::Words::words_text))]
fn put_next_name<K: Sink>(name: &Name, k: &mut K) -> Result<(), StoreFault>
    ensures whole { OnOk result (Adds (K.taken k.old) (K.taken k.new) (next_name name.now.items)) }
    ensures part { OnErr result (AddsPart (K.taken k.old) (K.taken k.new) (next_name name.now.items)) }
    ensures cause { HasCause (K.faults k.old) (K.faults k.new) result StoreFault.Failed }
{
    put_words(k, &[Word::Text(b"."), Word::Text(name.as_slice())])
}

fn put_more_names<K: Sink>(names: &[Name], k: &mut K) -> Result<(), StoreFault>
    ensures whole { OnOk result
        (Adds (K.taken k.old) (K.taken k.new) (flat_map (λ name. next_name name.items) names.now)) }
    ensures part { OnErr result
        (AddsPart (K.taken k.old) (K.taken k.new) (flat_map (λ name. next_name name.items) names.now)) }
    ensures cause { HasCause (K.faults k.old) (K.faults k.new) result StoreFault.Failed }
{
    for name in names {
        put_next_name(name, k)?;
    }
    Ok(())
}

fn put_first_names<K: Sink>(first: &Name, rest: &[Name], k: &mut K) -> Result<(), StoreFault>
    ensures whole { OnOk result (Adds (K.taken k.old) (K.taken k.new)
        (first.now.items ++ flat_map (λ name. next_name name.items) rest.now)) }
    ensures part { OnErr result (AddsPart (K.taken k.old) (K.taken k.new)
        (first.now.items ++ flat_map (λ name. next_name name.items) rest.now)) }
    ensures cause { HasCause (K.faults k.old) (K.faults k.new) result StoreFault.Failed }
{
    k.write(first.as_slice())?;
    put_more_names(rest, k)?;
    Ok(())
}

/// Writes the names of a path.
fn put_path<K: Sink>(path: &[Name], k: &mut K) -> Result<(), StoreFault>
    ensures whole { OnOk result
        (Adds (K.taken k.old) (K.taken k.new) (path_text (map (λ name. name.items) path.now))) }
    ensures part { OnErr result
        (AddsPart (K.taken k.old) (K.taken k.new) (path_text (map (λ name. name.items) path.now))) }
    ensures cause { HasCause (K.faults k.old) (K.faults k.new) result StoreFault.Failed }
{
    match path {
        [first, rest @ ..] => put_first_names(first, rest, k),
        [] => Ok(()),
    }
}

/// Writes the line that begins a block.
fn put_instrument<K: Sink>(path: &[Name], k: &mut K) -> Result<(), StoreFault>
    ensures whole { OnOk result
        (Adds (K.taken k.old) (K.taken k.new) (instrument_line (map (λ name. name.items) path.now))) }
    ensures part { OnErr result
        (AddsPart (K.taken k.old) (K.taken k.new) (instrument_line (map (λ name. name.items) path.now))) }
    ensures cause { HasCause (K.faults k.old) (K.faults k.new) result StoreFault.Failed }
{
    k.write(b"instrument ")?;
    put_path(path, k)?;
    k.write(b"\n")?;
    Ok(())
}

/// Writes the lines of a model.
#[tactic(auto, unfolding(bench_file::specs::Written::model_text))]
fn put_model<K: Sink>(m: &Model, k: &mut K) -> Result<(), StoreFault>
    requires { IsModel (seen_model m.now) }
    ensures whole { OnOk result (Adds (K.taken k.old) (K.taken k.new) (model_text (seen_model m.now))) }
    ensures part { OnErr result (AddsPart (K.taken k.old) (K.taken k.new) (model_text (seen_model m.now))) }
    ensures cause { HasCause (K.faults k.old) (K.faults k.new) result StoreFault.Failed }
{
    put_ins(m, k)?;
    put_words_of(m, k)?;
    put_memory(&m.mem, k)?;
    put_outs_of(m, k)?;
    put_change(m, k)?;
    put_run(m, k)?;
    Ok(())
}

/// Writes a block.
#[tactic(auto, unfolding(bench_file::specs::Written::table_text))]
fn put_table<K: Sink>(t: &Table, k: &mut K) -> Result<(), StoreFault>
    requires { IsModel (seen_model t.now.model) }
    ensures whole { OnOk result (Adds (K.taken k.old) (K.taken k.new) (table_text (seen_table t.now))) }
    ensures part { OnErr result (AddsPart (K.taken k.old) (K.taken k.new) (table_text (seen_table t.now))) }
    ensures cause { HasCause (K.faults k.old) (K.faults k.new) result StoreFault.Failed }
{
    put_instrument(t.path.as_slice(), k)?;
    put_model(&t.model, k)?;
    k.write(b"end\n")?;
    Ok(())
}

fn put_blocks<K: Sink>(tables: &[Table], k: &mut K) -> Result<(), StoreFault>
    requires { All (λ t. IsModel (seen_model t.model)) tables.now }
    ensures whole { OnOk result
        (Adds (K.taken k.old) (K.taken k.new) (flat_map (λ t. table_text (seen_table t)) tables.now)) }
    ensures part { OnErr result
        (AddsPart (K.taken k.old) (K.taken k.new) (flat_map (λ t. table_text (seen_table t)) tables.now)) }
    ensures cause { HasCause (K.faults k.old) (K.faults k.new) result StoreFault.Failed }
{
    for t in tables {
        put_table(t, k)?;
    }
    Ok(())
}

fn put_all_blocks<K: Sink>(tables: &List<Table>, k: &mut K) -> Result<(), StoreFault>
    requires { All (λ t. IsModel (seen_model t.model)) tables.now.items }
    ensures whole { OnOk result
        (Adds (K.taken k.old) (K.taken k.new) (flat_map table_text (seen_tables tables.now))) }
    ensures part { OnErr result
        (AddsPart (K.taken k.old) (K.taken k.new) (flat_map table_text (seen_tables tables.now))) }
    ensures cause { HasCause (K.faults k.old) (K.faults k.new) result StoreFault.Failed }
{
    put_blocks(tables.as_slice(), k)
}

/// Writes tables as a file of version 2, with the lines of a block in their order: one space between fields
/// and round `=`, `+` and `-`, and a comma followed by one space. `init` is always written, and `reset` where
/// there is one. An output that is a whole word has no brackets. Numbers are decimal; the number of a
/// condition with x has `0b` and as many digits as bits. It takes no memory itself.
///
/// The models are well formed, as those that [`read_tables`](table_file::read_tables) gives.
///
/// # Errors
///
/// The sink's, which then took some first bytes of the text.
#[tactic(auto, unfolding(bench_file::specs::Written::tables_text))]
pub fn put_tables<K: Sink>(tables: &List<Table>, k: &mut K) -> Result<(), StoreFault>
    requires { All (λ t. IsModel (seen_model t.model)) tables.now.items }
    ensures whole { OnOk result
        (Adds (K.taken k.old) (K.taken k.new) (tables_text (seen_tables tables.now))) }
    ensures part { OnErr result
        (AddsPart (K.taken k.old) (K.taken k.new) (tables_text (seen_tables tables.now))) }
    ensures cause { HasCause (K.faults k.old) (K.faults k.new) result StoreFault.Failed }
{
    k.write(b"tables 2\n")?;
    put_all_blocks(tables, k)?;
    Ok(())
}
