// The procedure of a made design.
ghost use Rattle.std.specs.Prelude.{◌≡◌, ◌*◌, ◌≤◌, ◌<◌, ◌++◌, length, map, OnOk, IfOk};
ghost use Rattle.design_maker.specs.Procedure.{after_turn, drawn_turn, procedure_text, turn_text, turns_text};
ghost use Rattle.design_maker.specs.Procedure.{word_at, run, written};

use crate::draws::draw;
use crate::instrument::Instrument;
use ij_bits::{List, OutOfMemory};
use ij_io::{Sink, StoreFault, SureSink, Word, put_words};
use ij_text::{Text, name_of};
use rand_pcg::Lcg64Xsh32;
use std::alloc::Global;

/// What a turn draws.
#[derive(Clone, Copy, Drop)]
pub(crate) struct Turn {
    /// The place of the instrument.
    pub at: usize,
    /// The number that is written.
    pub value: u32,
    /// The cycles of the run.
    pub cycles: u32,
}

/// Draws a turn: the instrument, then the number, then the cycles.
fn draw_turn(instruments: &List<Instrument>, g: &mut Lcg64Xsh32) -> Turn
    requires some { 1 ≤ length instruments.now.items }
    ensures drawn { (result, g.new) ≡ drawn_turn instruments.now.items g.old }
    ensures there { result.at < length instruments.now.items }
{
    let at = draw(g, instruments.len() as u64) as usize;
    let value = draw(g, instruments.get(at).width.numbers()) as u32;
    let cycles = draw(g, 50) as u32;
    Turn { at, value, cycles }
}

/// Cycles of a run, which all instruments count.
fn run_all(cycles: u32, instruments: &mut List<Instrument>)
    ensures { instruments.new.items ≡ map (run cycles) instruments.old.items }
{
    for i in 0..instruments.len() {
        instruments.set(i, instruments.get(i).run(cycles));
    }
}

/// A turn is done: an instrument is written, and all run. Answers the number that it then holds.
fn do_turn(turn: &Turn, instruments: &mut List<Instrument>) -> u32
    requires { turn.now.at < length instruments.old.items }
    ensures state { instruments.new.items ≡ after_turn turn.now instruments.old.items }
    ensures word { result ≡ word_at instruments.new.items turn.now.at }
{
    let changed = instruments.get(turn.at).written(turn.value);
    instruments.set(turn.at, changed);
    run_all(turn.cycles, instruments);
    instruments.get(turn.at).word
}

/// Writes the commands of a turn, where the instrument then holds this word.
#[tactic(auto, unfolding(crate::specs::Procedure::turn_text, ij_io::specs::Words::words_text))]
fn put_turn(turn: &Turn, word: u32, pdl: &mut SureSink) -> Result<(), StoreFault>
    requires { turn.now.at < 64 }
    ensures { OnOk result (pdl.new ≡ pdl.old ++ turn_text turn.now word) }
{
    let place = turn.at as u64 + 1;
    put_words(
        pdl,
        &[
            Word::Text(b"  iWrite net.w"),
            Word::Number(place),
            Word::Text(b".ins.d "),
            Word::Number(u64::from(turn.value)),
            Word::Text(b"\n  iApply\n  iRunLoop "),
            Word::Number(u64::from(turn.cycles)),
            Word::Text(b"\n  iRead net.w"),
            Word::Number(place),
            Word::Text(b".ins.q "),
            Word::Number(u64::from(word)),
            Word::Text(b"\n  iApply\n"),
        ],
    )
}

/// Writes two turns for each instrument.
fn put_turns(
    instruments: &mut List<Instrument>,
    g: &mut Lcg64Xsh32,
    pdl: &mut SureSink,
) -> Result<(), StoreFault>
    requires some { 1 ≤ length instruments.old.items }
    requires few { length instruments.old.items ≤ 64 }
    ensures { OnOk result
        (pdl.new ≡ pdl.old ++ turns_text (2 * length instruments.old.items) instruments.old.items g.old) }
{
    for i in 0..2 * instruments.len() {
        let turn = draw_turn(instruments, g);
        let word = do_turn(&turn, instruments);
        put_turn(&turn, word, pdl)?;
    }
    Ok(())
}

/// Writes the procedure.
#[tactic(auto, unfolding(crate::specs::Procedure::procedure_text))]
fn put_procedure(
    instruments: &mut List<Instrument>,
    g: &mut Lcg64Xsh32,
    pdl: &mut SureSink,
) -> Result<(), StoreFault>
    requires some { 1 ≤ length instruments.old.items }
    requires few { length instruments.old.items ≤ 64 }
    ensures { OnOk result (pdl.new ≡ pdl.old ++ procedure_text instruments.old.items g.old) }
{
    pdl.write(b"iProcsForModule chip\niProc p {} {\n")?;
    put_turns(instruments, g, pdl)?;
    pdl.write(b"}\n")?;
    Ok(())
}

/// The text of the procedure.
pub(crate) fn procedure_text(
    alloc: Global,
    instruments: &mut List<Instrument>,
    g: &mut Lcg64Xsh32,
) -> Result<Text, OutOfMemory>
    requires some { 1 ≤ length instruments.old.items }
    requires few { length instruments.old.items ≤ 64 }
    ensures { IfOk result (λ pdl. pdl.items ≡ procedure_text instruments.old.items g.old) }
{
    let mut pdl = SureSink::new(alloc);
    match put_procedure(instruments, g, &mut pdl) {
        Ok(()) => name_of(alloc, pdl.bytes()),
        Err(_) => Err(OutOfMemory),
    }
}
