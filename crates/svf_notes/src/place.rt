// One position of one scan.
ghost use Rattle.std.specs.Prelude.{◌≡◌, ◌==◌, ◌<◌, ◌≤◌, ◌++◌, ◌∷◌, Some, length, map, IfOk, IfSome, OnOk};
ghost use Rattle.ij_io.specs.Bytes.{Adds};
ghost use Rattle.instruments.specs.Runners.{AreModels};
ghost use Rattle.instruments.specs.Seen.{seen_model};
ghost use Rattle.net_graph.specs.Chain.{IsRoute};
ghost use Rattle.net_graph.specs.Held.{IsHeld};
ghost use Rattle.net_graph.specs.Named.{IsBitOf, IsSignalOf};
ghost use Rattle.net_graph.specs.Nets.{IsNet};
ghost use Rattle.net_graph.specs.Signals.{capture_signal};
ghost use Rattle.svf_notes.specs.Left.{left_scans, IsPlaying};
ghost use Rattle.svf_notes.specs.Notes as notes;
ghost use Rattle.svf_notes.specs.Places as places;
ghost use Rattle.tap_machine.specs.Play.{scans_in};

use crate::digits::{differs, digit, expected_digit};
use crate::instruction::register_name;
use crate::names::put_signal;
use crate::note::{ScanTarget, path_len, target};
use crate::playing::Playing;
use crate::scan::Shifted;
use ij_bits::{List, OutOfMemory};
use ij_io::{Sink, StoreFault, SureSink, Word, put_words};
use instruments::Model;
use net_bench::{Bench, DataRegister};
use net_graph::{BitId, Device, Holds, Net, Sig};
use net_list::put_bit_name;
use std::alloc::Global;
use svf_writer::Commands;

/// What is known of one position of one scan.
#[derive(Clone, Copy, Debug, PartialEq, Eq)]
pub enum BitAnswer {
    /// Nothing is compared there, or what is found is what is expected.
    Same,
    /// Another bit is found there than is expected.
    Differs,
    /// There is no scan of this number.
    NoScan,
    /// The scan has no such position.
    NoBit,
}

/// One position of one scan.
#[derive(Drop)]
pub struct FoundBit {
    /// What is known of it.
    pub answer: BitAnswer,
    /// The line that says so; nothing where there is no such scan or no such position.
    pub line: SureSink,
}

/// The register bit at a position of a path, if it is that long.
fn path_bit_at(holds: &Holds, path: &[u32], at: u64) -> Option<BitId>
    requires { IsRoute (length holds.now) path.now }
    ensures bit { result ≡ places.path_bit_at holds.now path.now at }
    ensures there { IfSome result (λ bit. bit.reg < length holds.now) }
    ensures within { IfSome result (λ bit. IsHeld holds.now bit) }
{
    let mut left = at;
    for i in 0..path.len() {
        let reg = path[i];
        let width = holds.register(reg).len();
        if left < u64::from(width) {
            return Some(BitId {
                reg,
                pos: left as u32,
            });
        }
        left -= u64::from(width);
    }
    None
}

/// What a register bit captures.
fn capture_of(net: &Net, bit: BitId) -> Sig
    requires well_formed { IsNet net.now }
    requires there { IsBitOf net.now bit }
    ensures signal { result ≡ capture_signal net.now bit }
    ensures there { IsSignalOf net.now result }
{
    *net.regs.get(bit.reg as usize).capture.get(bit.pos as usize)
}

/// Writes a register bit, and what it captures.
fn put_register_bit(net: &Net, bit: BitId, line: &mut SureSink) -> Result<(), StoreFault>
    requires well_formed { IsNet net.now }
    requires there { IsBitOf net.now bit }
    ensures { OnOk result (Adds (Some line.old) (Some line.new) (places.register_text net.now (Some bit))) }
{
    line.write(b" register ")?;
    put_bit_name(net, bit, line)?;
    line.write(b" captures ")?;
    put_signal(net, capture_of(net, bit), line)?;
    Ok(())
}

/// Writes where a bit of a scan of the network comes to stand.
fn put_on_path(
    net: &Net,
    bench: &Bench,
    len: u32,
    at: u64,
    line: &mut SureSink,
) -> Result<(), StoreFault>
    requires well_formed { IsNet net.now }
    requires net { bench.now.net ≡ net.now }
    ensures { OnOk result
        (Adds (Some line.old) (Some line.new) (places.on_path net.now bench.now.state.holds len at)) }
{
    if len != path_len(net, bench) {
        return line.write(b" no register");
    }
    match path_bit_at(bench.holds(), bench.path(), at) {
        None => line.write(b""),
        Some(bit) => put_register_bit(net, bit, line),
    }
}

/// Writes what is at a bit.
fn put_values(bit: Shifted, line: &mut SureSink) -> Result<(), StoreFault>
    ensures { OnOk result (Adds (Some line.old) (Some line.new) (places.values_text bit)) }
{
    line.write(b" writes ")?;
    line.write(&[digit(bit.tdi)])?;
    line.write(b" expects ")?;
    line.write(&[expected_digit(bit.expect)])?;
    line.write(b" finds ")?;
    line.write(&[digit(bit.found), b'\n'])?;
    Ok(())
}

/// Whether a bit differs.
fn answer_of(bit: Shifted) -> BitAnswer
    ensures { result ≡ places.bit_answer (Some bit) }
{
    if differs(bit) {
        BitAnswer::Differs
    } else {
        BitAnswer::Same
    }
}

/// Writes the number of a scan and a position in it.
#[tactic(auto, unfolding(ij_io::specs::Words::words_text))]
fn put_position(number: u32, at: u64, line: &mut SureSink) -> Result<(), StoreFault>
    ensures { OnOk result (Adds (Some line.old) (Some line.new) (places.position_text number at)) }
{
    put_words(
        line,
        &[
            Word::Text(b"scan "),
            Word::Number(u64::from(number)),
            Word::Text(b" bit "),
            Word::Number(at),
        ],
    )
}

/// Writes what a scan of this many bits goes through, and of the network where a bit of it comes to stand.
fn put_target(
    net: &Net,
    bench: &Bench,
    len: u32,
    at: u64,
    line: &mut SureSink,
) -> Result<(), StoreFault>
    requires well_formed { IsNet net.now }
    requires net { bench.now.net ≡ net.now }
    ensures { OnOk result (Adds (Some line.old) (Some line.new) (places.target_place net.now
        bench.now.state.holds len at (notes.target bench.now.device bench.now.state))) }
{
    match target(bench) {
        ScanTarget::Instruction => line.write(b" instruction"),
        ScanTarget::Data(DataRegister::Network) => put_on_path(net, bench, len, at, line),
        ScanTarget::Data(register) => line.write(register_name(register)),
    }
}

/// Writes the line of a bit of the scan that was shifted last, which has this number and this many bits.
fn put_line(
    playing: &Playing,
    number: u32,
    at: u64,
    bit: Shifted,
    line: &mut SureSink,
) -> Result<(), StoreFault>
    requires { IsPlaying playing.now }
    ensures { OnOk result (Adds (Some line.old) (Some line.new)
        (places.bit_line playing.now.net.now playing.now.device.now (record
        { number = number; bits = playing.now.bits.items; state = playing.now.bench.state }) at bit)) }
{
    put_position(number, at, line)?;
    put_target(playing.net, &playing.bench, playing.bits.len(), at, line)?;
    put_values(bit, line)?;
    Ok(())
}

/// The line of a bit of the scan that was shifted last, by its number.
fn line_of(
    alloc: Global,
    playing: &Playing,
    number: u32,
    at: u64,
    bit: Shifted,
) -> Result<SureSink, OutOfMemory>
    requires { IsPlaying playing.now }
    ensures { IfOk result (λ line. line ≡ places.bit_line playing.now.net.now playing.now.device.now
        (record { number = number; bits = playing.now.bits.items; state = playing.now.bench.state }) at bit) }
{
    let mut line = SureSink::new(alloc);
    match put_line(playing, number, at, bit, &mut line) {
        Ok(()) => Ok(line),
        Err(_) => Err(OutOfMemory),
    }
}

/// What is known of a position of the scan that was shifted last, by its number.
fn found_bit_at(
    alloc: Global,
    playing: &Playing,
    number: u32,
    at: u64,
) -> Result<FoundBit, OutOfMemory>
    requires { IsPlaying playing.now }
    ensures answer { IfOk result (λ found. found.answer ≡ places.scan_answer at
        (Some (record { number = number; bits = playing.now.bits.items; state = playing.now.bench.state }))) }
    ensures line { IfOk result (λ found. found.line
        ≡ places.scan_text playing.now.net.now playing.now.device.now at
        (Some (record { number = number; bits = playing.now.bits.items; state = playing.now.bench.state }))) }
{
    match playing.bits.get(at) {
        None => Ok(FoundBit {
            answer: BitAnswer::NoBit,
            line: SureSink::new(alloc),
        }),
        Some(bit) => Ok(FoundBit {
            answer: answer_of(bit),
            line: line_of(alloc, playing, number, at, bit)?,
        }),
    }
}

/// What is known of a position of the scan of a number, among those that are left.
fn find_in(
    alloc: Global,
    playing: &mut Playing,
    scan: u64,
    at: u64,
) -> Result<FoundBit, OutOfMemory>
    requires { IsPlaying playing.old }
    ensures answer { IfOk result
        (λ found. found.answer ≡ places.scan_answer at (places.scan_numbered scan (left_scans playing.old))) }
    ensures line { IfOk result (λ found. found.line ≡ places.scan_text playing.old.net.now
        playing.old.device.now at (places.scan_numbered scan (left_scans playing.old))) }
{
    while let Some(number) = playing.next()? {
        if u64::from(number) == scan {
            return found_bit_at(alloc, playing, number, at);
        }
    }
    Ok(FoundBit {
        answer: BitAnswer::NoScan,
        line: SureSink::new(alloc),
    })
}

/// What is known of one position of one scan of a play (Serial Vector Format, revision E: SIR, SDR; IEEE
/// 1687-2014: active scan path). `commands` are played from power-up on a device with a scan network and its
/// instruments, of which `models` has one for each, in the network's order. Scans are counted from 1 over SIR
/// and SDR alike; position 0 is shifted first.
///
/// The line is `scan N bit K PLACE writes B expects E finds F` and a line feed. PLACE is
/// `register BIT captures SIGNAL` in a scan of the network that is as long as its active path, and
/// `no register` in one that isn't; `instruction`, `identity` or `bypass` in any other scan. SIGNAL is what
/// the register bit captures: a register bit, an output bit of an instrument, either with `~` before where it
/// is inverted, a constant 0 or 1, or `-` where there is none. E is `-` where nothing is compared.
///
/// # Errors
///
/// `OutOfMemory`, where there is no memory for the bench, for the bits of one scan or for the line.
pub fn find_bit(
    alloc: Global,
    net: &Net,
    device: &Device,
    models: &List<Model>,
    commands: &Commands,
    scan: u64,
    bit: u64,
) -> Result<FoundBit, OutOfMemory>
    requires well_formed { IsNet net.now }
    requires models { AreModels net.now models.now.items }
    requires scans { scans_in commands.now ≤ 1000000000 }
    ensures answer { IfOk result (λ found. found.answer
        ≡ places.where_answer net.now device.now (map seen_model models.now.items) commands.now scan bit) }
    ensures line { IfOk result (λ found. found.line
        ≡ places.where_text net.now device.now (map seen_model models.now.items) commands.now scan bit) }
{
    let mut playing = Playing::new(alloc, net, device, models, commands)?;
    find_in(alloc, &mut playing, scan, bit)
}
