// Inputs, words, the memory and outputs.
ghost use Rattle.std.specs.Prelude.{option_map, Some, codes, OnOk, OnErr};
ghost use Rattle.std.specs.List.{flat_map};
ghost use Rattle.ij_io.specs.Bytes.{Adds, AddsPart};
ghost use Rattle.ij_io.specs.Causes.{HasCause};
ghost use Rattle.instruments.specs.Models.{IsModel};
ghost use Rattle.instruments.specs.Seen.{seen_word, seen_memory, seen_port, seen_out, seen_row, seen_model};
ghost use Rattle.bench_file.specs.Written.{reset_text, input_text, word_text, memory_text, bounds_text};
ghost use Rattle.bench_file.specs.Written.{out_text, row_text};
ghost use Rattle.table_writer.specs.Pieces.{word_front, memory_front, out_front};

use crate::names::{word_name, word_width};
use crate::row::put_row;
use ij_io::{Sink, StoreFault, Word, put_words};
use instruments::{MemDef, Model, OutDef, PortDef, RowDef, WordDef};

#[tactic(auto, unfolding(ij_io::specs::Words::words_text))]
fn put_input<K: Sink>(d: &PortDef, k: &mut K) -> Result<(), StoreFault>
    ensures whole { OnOk result (Adds (K.taken k.old) (K.taken k.new) (input_text (seen_port d.now))) }
    ensures part { OnErr result (AddsPart (K.taken k.old) (K.taken k.new) (input_text (seen_port d.now))) }
    ensures cause { HasCause (K.faults k.old) (K.faults k.new) result StoreFault.Failed }
{
    let width = u64::from(d.width);
    put_words(
        k,
        &[
            Word::Text(b"in "),
            Word::Text(d.name.as_slice()),
            Word::Text(b" "),
            Word::Number(width),
            Word::Text(b"\n"),
        ],
    )
}

fn put_inputs<K: Sink>(ins: &[PortDef], k: &mut K) -> Result<(), StoreFault>
    ensures whole { OnOk result
        (Adds (K.taken k.old) (K.taken k.new) (flat_map (λ d. input_text (seen_port d)) ins.now)) }
    ensures part { OnErr result
        (AddsPart (K.taken k.old) (K.taken k.new) (flat_map (λ d. input_text (seen_port d)) ins.now)) }
    ensures cause { HasCause (K.faults k.old) (K.faults k.new) result StoreFault.Failed }
{
    for d in ins {
        put_input(d, k)?;
    }
    Ok(())
}

/// Writes the number at a reset, if there is one.
#[tactic(auto, unfolding(ij_io::specs::Words::words_text))]
fn put_maybe_reset<K: Sink>(reset: Option<u64>, k: &mut K) -> Result<(), StoreFault>
    ensures whole { OnOk result (Adds (K.taken k.old) (K.taken k.new) (reset_text reset)) }
    ensures part { OnErr result (AddsPart (K.taken k.old) (K.taken k.new) (reset_text reset)) }
    ensures cause { HasCause (K.faults k.old) (K.faults k.new) result StoreFault.Failed }
{
    match reset {
        Some(n) => put_words(k, &[Word::Text(b" reset "), Word::Number(n)]),
        None => Ok(()),
    }
}

#[tactic(auto, unfolding(ij_io::specs::Words::words_text))]
fn put_word_front<K: Sink>(d: &WordDef, k: &mut K) -> Result<(), StoreFault>
    ensures whole { OnOk result (Adds (K.taken k.old) (K.taken k.new) (word_front (seen_word d.now))) }
    ensures part { OnErr result (AddsPart (K.taken k.old) (K.taken k.new) (word_front (seen_word d.now))) }
    ensures cause { HasCause (K.faults k.old) (K.faults k.new) result StoreFault.Failed }
{
    put_words(
        k,
        &[
            Word::Text(b"word "),
            Word::Text(d.name.as_slice()),
            Word::Text(b" "),
            Word::Number(u64::from(d.width)),
            Word::Text(b" init "),
            Word::Number(d.init),
        ],
    )
}

fn put_word<K: Sink>(d: &WordDef, k: &mut K) -> Result<(), StoreFault>
    ensures whole { OnOk result (Adds (K.taken k.old) (K.taken k.new) (word_text (seen_word d.now))) }
    ensures part { OnErr result (AddsPart (K.taken k.old) (K.taken k.new) (word_text (seen_word d.now))) }
    ensures cause { HasCause (K.faults k.old) (K.faults k.new) result StoreFault.Failed }
{
    put_word_front(d, k)?;
    put_maybe_reset(d.reset, k)?;
    k.write(b"\n")?;
    Ok(())
}

fn put_all_words<K: Sink>(words: &[WordDef], k: &mut K) -> Result<(), StoreFault>
    ensures whole { OnOk result
        (Adds (K.taken k.old) (K.taken k.new) (flat_map (λ d. word_text (seen_word d)) words.now)) }
    ensures part { OnErr result
        (AddsPart (K.taken k.old) (K.taken k.new) (flat_map (λ d. word_text (seen_word d)) words.now)) }
    ensures cause { HasCause (K.faults k.old) (K.faults k.new) result StoreFault.Failed }
{
    for d in words {
        put_word(d, k)?;
    }
    Ok(())
}

/// Writes a memory, up to the end of its line.
#[tactic(auto, unfolding(ij_io::specs::Words::words_text))]
fn put_memory_front<K: Sink>(d: &MemDef, k: &mut K) -> Result<(), StoreFault>
    ensures whole { OnOk result (Adds (K.taken k.old) (K.taken k.new) (memory_front (seen_memory d.now))) }
    ensures part { OnErr result
        (AddsPart (K.taken k.old) (K.taken k.new) (memory_front (seen_memory d.now))) }
    ensures cause { HasCause (K.faults k.old) (K.faults k.new) result StoreFault.Failed }
{
    put_words(
        k,
        &[
            Word::Text(b"mem "),
            Word::Text(d.name.as_slice()),
            Word::Text(b" "),
            Word::Number(u64::from(d.depth)),
            Word::Text(b" "),
            Word::Number(u64::from(d.width)),
            Word::Text(b" init "),
            Word::Number(d.init),
        ],
    )
}

fn put_memory_line<K: Sink>(d: &MemDef, k: &mut K) -> Result<(), StoreFault>
    ensures whole { OnOk result
        (Adds (K.taken k.old) (K.taken k.new) (memory_text (Some (seen_memory d.now)))) }
    ensures part { OnErr result
        (AddsPart (K.taken k.old) (K.taken k.new) (memory_text (Some (seen_memory d.now)))) }
    ensures cause { HasCause (K.faults k.old) (K.faults k.new) result StoreFault.Failed }
{
    put_memory_front(d, k)?;
    put_maybe_reset(d.reset, k)?;
    k.write(b"\n")?;
    Ok(())
}

/// Writes the memory, if there is one.
pub(crate) fn put_memory<K: Sink>(mem: &Option<MemDef>, k: &mut K) -> Result<(), StoreFault>
    ensures whole { OnOk result
        (Adds (K.taken k.old) (K.taken k.new) (memory_text (option_map seen_memory mem.now))) }
    ensures part { OnErr result
        (AddsPart (K.taken k.old) (K.taken k.new) (memory_text (option_map seen_memory mem.now))) }
    ensures cause { HasCause (K.faults k.old) (K.faults k.new) result StoreFault.Failed }
{
    match mem {
        Some(d) => put_memory_line(d, k),
        None => Ok(()),
    }
}

/// Writes the bounds of a slice; a whole word is without them.
#[tactic(auto, unfolding(ij_io::specs::Words::words_text))]
fn put_bounds<K: Sink>(width: u32, left: u32, right: u32, k: &mut K) -> Result<(), StoreFault>
    ensures whole { OnOk result (Adds (K.taken k.old) (K.taken k.new) (bounds_text width left right)) }
    ensures part { OnErr result (AddsPart (K.taken k.old) (K.taken k.new) (bounds_text width left right)) }
    ensures cause { HasCause (K.faults k.old) (K.faults k.new) result StoreFault.Failed }
{
    if u64::from(left) + 1 == u64::from(width) && right == 0 {
        return Ok(());
    }
    put_words(
        k,
        &[
            Word::Text(b"["),
            Word::Number(u64::from(left)),
            Word::Text(b":"),
            Word::Number(u64::from(right)),
            Word::Text(b"]"),
        ],
    )
}

#[tactic(auto, unfolding(ij_io::specs::Words::words_text))]
fn put_out_front<'x, K: Sink>(m: &'x Model, d: &'x OutDef, k: &mut K) -> Result<(), StoreFault>
    ensures whole { OnOk result
        (Adds (K.taken k.old) (K.taken k.new) (out_front (seen_model m.now) (seen_out d.now))) }
    ensures part { OnErr result
        (AddsPart (K.taken k.old) (K.taken k.new) (out_front (seen_model m.now) (seen_out d.now))) }
    ensures cause { HasCause (K.faults k.old) (K.faults k.new) result StoreFault.Failed }
{
    put_words(
        k,
        &[
            Word::Text(b"out "),
            Word::Text(d.name.as_slice()),
            Word::Text(b" = "),
            Word::Text(word_name(m, d.word)),
        ],
    )
}

fn put_out<K: Sink>(m: &Model, d: &OutDef, k: &mut K) -> Result<(), StoreFault>
    requires { IsModel (seen_model m.now) }
    ensures whole { OnOk result
        (Adds (K.taken k.old) (K.taken k.new) (out_text (seen_model m.now) (seen_out d.now))) }
    ensures part { OnErr result
        (AddsPart (K.taken k.old) (K.taken k.new) (out_text (seen_model m.now) (seen_out d.now))) }
    ensures cause { HasCause (K.faults k.old) (K.faults k.new) result StoreFault.Failed }
{
    put_out_front(m, d, k)?;
    put_bounds(word_width(m, d.word), d.left, d.right, k)?;
    k.write(b"\n")?;
    Ok(())
}

fn put_outs<K: Sink>(m: &Model, outs: &[OutDef], k: &mut K) -> Result<(), StoreFault>
    requires { IsModel (seen_model m.now) }
    ensures whole { OnOk result (Adds (K.taken k.old) (K.taken k.new)
        (flat_map (λ d. out_text (seen_model m.now) (seen_out d)) outs.now)) }
    ensures part { OnErr result (AddsPart (K.taken k.old) (K.taken k.new)
        (flat_map (λ d. out_text (seen_model m.now) (seen_out d)) outs.now)) }
    ensures cause { HasCause (K.faults k.old) (K.faults k.new) result StoreFault.Failed }
{
    for d in outs {
        put_out(m, d, k)?;
    }
    Ok(())
}

fn put_rows<K: Sink>(m: &Model, kind: &[u8], rows: &[RowDef], k: &mut K) -> Result<(), StoreFault>
    requires { IsModel (seen_model m.now) }
    ensures whole { OnOk result (Adds (K.taken k.old) (K.taken k.new)
        (flat_map (λ row. row_text (seen_model m.now) kind.now (seen_row row)) rows.now)) }
    ensures part { OnErr result (AddsPart (K.taken k.old) (K.taken k.new)
        (flat_map (λ row. row_text (seen_model m.now) kind.now (seen_row row)) rows.now)) }
    ensures cause { HasCause (K.faults k.old) (K.faults k.new) result StoreFault.Failed }
{
    for row in rows {
        put_row(m, kind, row, k)?;
    }
    Ok(())
}

/// Writes the inputs of a model.
pub(crate) fn put_ins<K: Sink>(m: &Model, k: &mut K) -> Result<(), StoreFault>
    ensures whole { OnOk result
        (Adds (K.taken k.old) (K.taken k.new) (flat_map input_text (seen_model m.now).ins)) }
    ensures part { OnErr result
        (AddsPart (K.taken k.old) (K.taken k.new) (flat_map input_text (seen_model m.now).ins)) }
    ensures cause { HasCause (K.faults k.old) (K.faults k.new) result StoreFault.Failed }
{
    put_inputs(m.ins.as_slice(), k)
}

/// Writes the words of a model.
pub(crate) fn put_words_of<K: Sink>(m: &Model, k: &mut K) -> Result<(), StoreFault>
    ensures whole { OnOk result
        (Adds (K.taken k.old) (K.taken k.new) (flat_map word_text (seen_model m.now).words)) }
    ensures part { OnErr result
        (AddsPart (K.taken k.old) (K.taken k.new) (flat_map word_text (seen_model m.now).words)) }
    ensures cause { HasCause (K.faults k.old) (K.faults k.new) result StoreFault.Failed }
{
    put_all_words(m.words.as_slice(), k)
}

/// Writes the outputs of a model.
pub(crate) fn put_outs_of<K: Sink>(m: &Model, k: &mut K) -> Result<(), StoreFault>
    requires { IsModel (seen_model m.now) }
    ensures whole { OnOk result (Adds (K.taken k.old) (K.taken k.new)
        (flat_map (out_text (seen_model m.now)) (seen_model m.now).outs)) }
    ensures part { OnErr result (AddsPart (K.taken k.old) (K.taken k.new)
        (flat_map (out_text (seen_model m.now)) (seen_model m.now).outs)) }
    ensures cause { HasCause (K.faults k.old) (K.faults k.new) result StoreFault.Failed }
{
    put_outs(m, m.outs.as_slice(), k)
}

/// Writes the rows of change events.
pub(crate) fn put_change<K: Sink>(m: &Model, k: &mut K) -> Result<(), StoreFault>
    requires { IsModel (seen_model m.now) }
    ensures whole { OnOk result (Adds (K.taken k.old) (K.taken k.new)
        (flat_map (row_text (seen_model m.now) (codes "change")) (seen_model m.now).change)) }
    ensures part { OnErr result (AddsPart (K.taken k.old) (K.taken k.new)
        (flat_map (row_text (seen_model m.now) (codes "change")) (seen_model m.now).change)) }
    ensures cause { HasCause (K.faults k.old) (K.faults k.new) result StoreFault.Failed }
{
    put_rows(m, b"change", m.change.as_slice(), k)
}

/// Writes the rows of run events.
pub(crate) fn put_run<K: Sink>(m: &Model, k: &mut K) -> Result<(), StoreFault>
    requires { IsModel (seen_model m.now) }
    ensures whole { OnOk result (Adds (K.taken k.old) (K.taken k.new)
        (flat_map (row_text (seen_model m.now) (codes "run")) (seen_model m.now).run)) }
    ensures part { OnErr result (AddsPart (K.taken k.old) (K.taken k.new)
        (flat_map (row_text (seen_model m.now) (codes "run")) (seen_model m.now).run)) }
    ensures cause { HasCause (K.faults k.old) (K.faults k.new) result StoreFault.Failed }
{
    put_rows(m, b"run", m.run.as_slice(), k)
}
