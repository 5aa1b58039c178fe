// The lines of instruments.
ghost use Rattle.std.specs.Prelude.{◌<◌, ◌≤◌, map, length, option_map, Some, OnOk, OnErr, All};
ghost use Rattle.std.specs.Prelude.{IfSome};
ghost use Rattle.ij_io.specs.Bytes.{Adds, AddsPart};
ghost use Rattle.ij_io.specs.Causes.{HasCause};
ghost use Rattle.instruments.specs.Models.{IsModel, IsWord, IsMemory};
ghost use Rattle.instruments.specs.Runners.{running_of};
ghost use Rattle.instruments.specs.Seen.{seen_word, seen_memory, seen_model};
ghost use Rattle.net_graph.specs.Nets.{IsNet};
ghost use Rattle.report.specs.Instruments.{word_text, words_from, entry_if, entry_text, index_text};
ghost use Rattle.report.specs.Instruments.{memory_text, counts_text, instrument_text};

use crate::number::put_hex_number;
use crate::path::put_instrument_path;
use ij_bits::List;
use ij_io::{Sink, StoreFault, Word, put_words};
use instruments::{Counts, Machine, MemDef, Model, Runner, WordDef};
use net_graph::Net;
use path_names::put_name;

/// Writes a word.
fn put_word<K: Sink>(word: &WordDef, number: u64, k: &mut K) -> Result<(), StoreFault>
    requires { word.now.width ≤ 64 }
    ensures whole { OnOk result
        (Adds (K.taken k.old) (K.taken k.new) (word_text word.now.name.items word.now.width number)) }
    ensures part { OnErr result
        (AddsPart (K.taken k.old) (K.taken k.new) (word_text word.now.name.items word.now.width number)) }
    ensures cause { HasCause (K.faults k.old) (K.faults k.new) result StoreFault.Failed }
{
    k.write(b" ")?;
    put_name(&word.name, k)?;
    k.write(b"=")?;
    put_hex_number(word.width, number, k)?;
    Ok(())
}

/// Writes the words.
fn put_numbers<K: Sink>(
    words: &List<WordDef>,
    machine: &Machine,
    k: &mut K,
) -> Result<(), StoreFault>
    requires few { length words.now.items ≤ 8 }
    requires words { All IsWord (map seen_word words.now.items) }
    ensures whole { OnOk result (Adds (K.taken k.old) (K.taken k.new)
        (words_from machine.now.words 0 (map seen_word words.now.items))) }
    ensures part { OnErr result (AddsPart (K.taken k.old) (K.taken k.new)
        (words_from machine.now.words 0 (map seen_word words.now.items))) }
    ensures cause { HasCause (K.faults k.old) (K.faults k.new) result StoreFault.Failed }
{
    for i in 0..words.len() {
        put_word(words.get(i), machine.word(i as u32), k)?;
    }
    Ok(())
}

/// Writes an entry of a memory.
fn put_entry<K: Sink>(memory: &MemDef, index: u32, number: u64, k: &mut K) -> Result<(), StoreFault>
    requires { memory.now.width ≤ 64 }
    ensures whole { OnOk result (Adds (K.taken k.old) (K.taken k.new)
        (entry_text memory.now.name.items memory.now.width index number)) }
    ensures part { OnErr result (AddsPart (K.taken k.old) (K.taken k.new)
        (entry_text memory.now.name.items memory.now.width index number)) }
    ensures cause { HasCause (K.faults k.old) (K.faults k.new) result StoreFault.Failed }
{
    k.write(b" ")?;
    put_name(&memory.name, k)?;
    put_index(index, k)?;
    put_hex_number(memory.width, number, k)?;
    Ok(())
}

/// Writes an index in brackets, and an equals sign.
#[tactic(auto, unfolding(ij_io::specs::Words::words_text))]
fn put_index<K: Sink>(index: u32, k: &mut K) -> Result<(), StoreFault>
    ensures whole { OnOk result (Adds (K.taken k.old) (K.taken k.new) (index_text index)) }
    ensures part { OnErr result (AddsPart (K.taken k.old) (K.taken k.new) (index_text index)) }
    ensures cause { HasCause (K.faults k.old) (K.faults k.new) result StoreFault.Failed }
{
    put_words(
        k,
        &[
            Word::Text(b"["),
            Word::Number(u64::from(index)),
            Word::Text(b"]="),
        ],
    )
}

/// Writes an entry of a memory, unless it is 0.
fn put_entry_if<K: Sink>(
    memory: &MemDef,
    index: u32,
    number: u64,
    k: &mut K,
) -> Result<(), StoreFault>
    requires { memory.now.width ≤ 64 }
    ensures whole { OnOk result (Adds (K.taken k.old) (K.taken k.new)
        (entry_if memory.now.name.items memory.now.width index number)) }
    ensures part { OnErr result (AddsPart (K.taken k.old) (K.taken k.new)
        (entry_if memory.now.name.items memory.now.width index number)) }
    ensures cause { HasCause (K.faults k.old) (K.faults k.new) result StoreFault.Failed }
{
    if number == 0 {
        return Ok(());
    }
    put_entry(memory, index, number, k)
}

/// Writes the entries of a memory that aren't 0.
fn put_entries<K: Sink>(memory: &MemDef, machine: &Machine, k: &mut K) -> Result<(), StoreFault>
    requires { IsMemory (seen_memory memory.now) }
    ensures whole { OnOk result (Adds (K.taken k.old) (K.taken k.new)
        (memory_text machine.now.memory (Some (seen_memory memory.now)))) }
    ensures part { OnErr result (AddsPart (K.taken k.old) (K.taken k.new)
        (memory_text machine.now.memory (Some (seen_memory memory.now)))) }
    ensures cause { HasCause (K.faults k.old) (K.faults k.new) result StoreFault.Failed }
{
    for i in 0..memory.depth {
        put_entry_if(memory, i, machine.mem(i), k)?;
    }
    Ok(())
}

/// Writes the entries of the memory, if there is one, that aren't 0.
fn put_memory<K: Sink>(
    memory: &Option<MemDef>,
    machine: &Machine,
    k: &mut K,
) -> Result<(), StoreFault>
    requires { IfSome (option_map seen_memory memory.now) IsMemory }
    ensures whole { OnOk result (Adds (K.taken k.old) (K.taken k.new)
        (memory_text machine.now.memory (option_map seen_memory memory.now))) }
    ensures part { OnErr result (AddsPart (K.taken k.old) (K.taken k.new)
        (memory_text machine.now.memory (option_map seen_memory memory.now))) }
    ensures cause { HasCause (K.faults k.old) (K.faults k.new) result StoreFault.Failed }
{
    match memory {
        Some(memory) => put_entries(memory, machine, k),
        None => Ok(()),
    }
}

/// Writes how often each kind of event came.
#[tactic(auto, unfolding(ij_io::specs::Words::words_text))]
fn put_counts<K: Sink>(counts: Counts, k: &mut K) -> Result<(), StoreFault>
    ensures whole { OnOk result (Adds (K.taken k.old) (K.taken k.new) (counts_text counts)) }
    ensures part { OnErr result (AddsPart (K.taken k.old) (K.taken k.new) (counts_text counts)) }
    ensures cause { HasCause (K.faults k.old) (K.faults k.new) result StoreFault.Failed }
{
    put_words(
        k,
        &[
            Word::Text(b" changes "),
            Word::Number(counts.changes),
            Word::Text(b" runs "),
            Word::Number(counts.runs),
            Word::Text(b" resets "),
            Word::Number(counts.resets),
            Word::Text(b"\n"),
        ],
    )
}

/// Writes the line of an instrument: `instrument PATH W=H M[I]=H changes C runs R resets T`, each word in the
/// order of the model, then each entry of the memory that isn't 0, in upper-case hexadecimal digits, as many
/// as the width takes (IEEE 1687-2014, ICL: `Instance`). It takes no memory itself.
///
/// # Errors
///
/// The sink's, which then took some first bytes of the line.
pub fn put_instrument<K: Sink>(
    net: &Net,
    model: &Model,
    inst: u32,
    runner: &Runner,
    k: &mut K,
) -> Result<(), StoreFault>
    requires well_formed { IsNet net.now }
    requires model { IsModel (seen_model model.now) }
    requires there { inst < length net.now.insts.items }
    ensures whole { OnOk result (Adds (K.taken k.old) (K.taken k.new)
        (instrument_text net.now (seen_model model.now) inst (running_of runner.now))) }
    ensures part { OnErr result (AddsPart (K.taken k.old) (K.taken k.new)
        (instrument_text net.now (seen_model model.now) inst (running_of runner.now))) }
    ensures cause { HasCause (K.faults k.old) (K.faults k.new) result StoreFault.Failed }
{
    k.write(b"instrument ")?;
    put_instrument_path(net, inst, k)?;
    put_numbers(&model.words, &runner.machine, k)?;
    put_memory(&model.mem, &runner.machine, k)?;
    put_counts(runner.counts, k)?;
    Ok(())
}
