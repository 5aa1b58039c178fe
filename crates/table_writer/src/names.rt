// The names of a model's words, inputs and memory.
ghost use Rattle.std.specs.Prelude.{◌≡◌, ◌≤◌, option_map, OnOk, OnErr};
ghost use Rattle.ij_io.specs.Bytes.{Adds, AddsPart};
ghost use Rattle.ij_io.specs.Causes.{HasCause};
ghost use Rattle.instruments.specs.Models.{IsModel, word_width, input_width, operand_width};
ghost use Rattle.instruments.specs.Seen.{seen_memory, seen_model};
ghost use Rattle.bench_file.specs.Written.{word_name, input_name, memory_name, operand_text, entry_text};
ghost use Rattle.table_writer.specs.Pieces.{old_mark, operand_name};

use ij_io::{Sink, StoreFault, Word, put_words};
use instruments::{MemDef, Model, Operand};

pub(crate) fn word_name(m: &Model, k: u32) -> &[u8]
    ensures { result.now ≡ word_name (seen_model m.now) k }
{
    let k = k as usize;
    if k < m.words.len() {
        m.words.get(k).name.as_slice()
    } else {
        &[]
    }
}

fn input_name(m: &Model, k: u32) -> &[u8]
    ensures { result.now ≡ input_name (seen_model m.now) k }
{
    let k = k as usize;
    if k < m.ins.len() {
        m.ins.get(k).name.as_slice()
    } else {
        &[]
    }
}

fn memory_name(mem: &Option<MemDef>) -> &[u8]
    ensures { result.now ≡ memory_name (option_map seen_memory mem.now) }
{
    match mem {
        Some(d) => d.name.as_slice(),
        None => &[],
    }
}

/// What comes before the name of an input before a change.
pub(crate) fn old_mark(o: Operand) -> &'static [u8]
    ensures { result.now ≡ old_mark o }
{
    match o {
        Operand::Word(_) => b"",
        Operand::Input(_) => b"",
        Operand::Old(_) => b"old ",
    }
}

pub(crate) fn operand_name(m: &Model, o: Operand) -> &[u8]
    ensures { result.now ≡ operand_name (seen_model m.now) o }
{
    match o {
        Operand::Word(k) => word_name(m, k),
        Operand::Input(k) => input_name(m, k),
        Operand::Old(k) => input_name(m, k),
    }
}

/// The width of a word.
pub(crate) fn word_width(m: &Model, k: u32) -> u32
    requires { IsModel (seen_model m.now) }
    ensures value { result ≡ word_width (seen_model m.now) k }
    ensures few { result ≤ 64 }
{
    let k = k as usize;
    if k < m.words.len() {
        m.words.get(k).width
    } else {
        0
    }
}

fn input_width(m: &Model, k: u32) -> u32
    requires { IsModel (seen_model m.now) }
    ensures value { result ≡ input_width (seen_model m.now) k }
    ensures few { result ≤ 64 }
{
    let k = k as usize;
    if k < m.ins.len() {
        m.ins.get(k).width
    } else {
        0
    }
}

pub(crate) fn operand_width(m: &Model, o: Operand) -> u32
    requires { IsModel (seen_model m.now) }
    ensures value { result ≡ operand_width (seen_model m.now) o }
    ensures few { result ≤ 64 }
{
    match o {
        Operand::Word(k) => word_width(m, k),
        Operand::Input(k) => input_width(m, k),
        Operand::Old(k) => input_width(m, k),
    }
}

/// Writes an operand.
#[tactic(auto, unfolding(ij_io::specs::Words::words_text))]
pub(crate) fn put_operand<K: Sink>(m: &Model, o: Operand, k: &mut K) -> Result<(), StoreFault>
    ensures whole { OnOk result (Adds (K.taken k.old) (K.taken k.new) (operand_text (seen_model m.now) o)) }
    ensures part { OnErr result
        (AddsPart (K.taken k.old) (K.taken k.new) (operand_text (seen_model m.now) o)) }
    ensures cause { HasCause (K.faults k.old) (K.faults k.new) result StoreFault.Failed }
{
    put_words(
        k,
        &[Word::Text(old_mark(o)), Word::Text(operand_name(m, o))],
    )
}

/// Writes an entry of the memory.
#[tactic(auto, unfolding(ij_io::specs::Words::words_text))]
pub(crate) fn put_entry<K: Sink>(m: &Model, index: Operand, k: &mut K) -> Result<(), StoreFault>
    ensures whole { OnOk result (Adds (K.taken k.old) (K.taken k.new) (entry_text (seen_model m.now) index)) }
    ensures part { OnErr result
        (AddsPart (K.taken k.old) (K.taken k.new) (entry_text (seen_model m.now) index)) }
    ensures cause { HasCause (K.faults k.old) (K.faults k.new) result StoreFault.Failed }
{
    put_words(
        k,
        &[
            Word::Text(memory_name(&m.mem)),
            Word::Text(b"["),
            Word::Text(old_mark(index)),
            Word::Text(operand_name(m, index)),
            Word::Text(b"]"),
        ],
    )
}
