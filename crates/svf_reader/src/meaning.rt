// What commands do.
ghost use Rattle.std.specs.Prelude.{◌≡◌, ◌+◌, ◌^◌, ◌<◌, ◌∷◌, option_map};
ghost use Rattle.svf_writer.specs.SeenCommands.{seen_scan, seen_command};
ghost use Rattle.svf_reader.specs.Answers.{Gives, part_value, scan_value};
ghost use Rattle.svf_reader.specs.Commands.{Runs, command_of_words, scan};
ghost use Rattle.svf_reader.specs.Reading.{words_of};
ghost use Rattle.svf_reader.specs.Meaning.{last_length, with_length, other_length, tdi_missing, scan_clocks};
ghost use Rattle.svf_reader.specs.Meaning.{with_leaving_clock, emit_within_clock_limit, scan_command};
ghost use Rattle.svf_reader.specs.Meaning.{scanned};
ghost use Rattle.svf_reader.specs.Meaning.{effect_of, if_parsed, read_command};
ghost use Rattle.svf_reader.specs.Seen.{Leaves, digits_of, seen_parts, seen_parsed};
ghost use Rattle.svf_reader.specs.Texts.{plain};

use crate::fault::SvfCause;
use crate::grammar::{parsed_by, parts};
use crate::hex::text_part;
use crate::left_out::left_out;
use crate::parsed::{Parsed, PartTexts, Register};
use crate::pieces::{Piece, next_word};
use crate::so_far::ReadSoFar;
use crate::words::{eq_ignore_case, number};
use ij_text::{CLOCK_LIMIT, SCAN_LIMIT, name_of};
use std::alloc::Global;
use svf_writer::{Command, Scan, ScanPart};

#[inline(always)]
#[tactic(auto, unfolding(crate::specs::Answers::part_value, crate::specs::Meaning::hex_value))]
fn part_of(alloc: Global, len: u32, text: Option<&[u8]>) -> Result<ScanPart, SvfCause>
    ensures { Gives (λ p. p) result (part_value len (option_map (λ t. digits_of t.now) text.entry)) }
{
    match text {
        None => Ok(ScanPart::absent()),
        Some(text) => text_part(alloc, len, text),
    }
}

/// The scan of a length with these parts.
#[tactic(auto, unfolding(crate::specs::Answers::scan_value))]
fn scan_with(alloc: Global, len: u32, parts: &PartTexts<'_>) -> Result<Scan, SvfCause>
    ensures { Gives seen_scan result (scan_value len (seen_parts parts.now)) }
{
    let tdi = part_of(alloc, len, parts.tdi)?;
    let tdo = part_of(alloc, len, parts.tdo)?;
    let mask = part_of(alloc, len, parts.mask)?;
    let smask = part_of(alloc, len, parts.smask)?;
    Ok(Scan {
        len,
        tdi,
        tdo,
        mask,
        smask,
    })
}

fn last_length(register: Register, kept: ReadSoFar) -> Option<u32>
    ensures { result ≡ last_length register kept }
{
    match register {
        Register::Instruction => kept.ir,
        Register::Data => kept.dr,
    }
}

fn with_length(register: Register, len: u32, kept: ReadSoFar) -> ReadSoFar
    ensures { result ≡ with_length register len kept }
{
    let last = Some(len);
    match register {
        Register::Instruction => ReadSoFar { ir: last, ..kept },
        Register::Data => ReadSoFar { dr: last, ..kept },
    }
}

/// Whether the last scan had another length, or there was none.
fn other_length(last: Option<u32>, len: u32) -> bool
    ensures { result ≡ other_length last len }
{
    match last {
        None => true,
        Some(n) => n != len,
    }
}

/// Whether a scan has no TDI of its own, and none to take.
fn tdi_missing(last: Option<u32>, len: u32, parts: &PartTexts<'_>) -> bool
    ensures { result ≡ tdi_missing last len (seen_parts parts.now) }
{
    parts.tdi.is_none() && other_length(last, len)
}

fn scan_clocks(register: Register, len: u32) -> u64
    ensures { result ≡ scan_clocks register len }
{
    match register {
        Register::Instruction => u64::from(len) + 6,
        Register::Data => u64::from(len) + 5,
    }
}

/// One clock more where Test-Logic-Reset is left.
fn with_leaving_clock(kept: ReadSoFar, n: u64) -> u64
    requires { n < 2 ^ 60 }
    ensures { result ≡ with_leaving_clock kept n }
{
    if kept.in_reset { n + 1 } else { n }
}

fn scan_command(register: Register, scan: Scan) -> Command
    ensures { seen_command result ≡ scan_command register (seen_scan scan) }
{
    match register {
        Register::Instruction => Command::Sir(scan),
        Register::Data => Command::Sdr(scan),
    }
}

/// Leaves a command after this many more clocks.
#[inline(always)]
fn emit_within_clock_limit(
    kept: ReadSoFar,
    in_reset: bool,
    n: u64,
    command: Command,
    out: &mut Option<Command>,
) -> Result<ReadSoFar, SvfCause>
    requires { n < 2 ^ 61 }
    ensures { Leaves out.new result (emit_within_clock_limit kept in_reset n (seen_command command)) }
{
    let clocks = u64::from(kept.clocks) + n;
    if clocks > u64::from(CLOCK_LIMIT) {
        drop(command);
        return Err(SvfCause::SvfLimit);
    }
    drop(out.replace(command));
    let clocks = clocks as u32;
    Ok(ReadSoFar {
        in_reset,
        clocks,
        ..kept
    })
}

/// What a scan of a length with these parts comes to.
#[tactic(auto, unfolding(crate::specs::Meaning::scanned))]
fn scanned(
    alloc: Global,
    kept: ReadSoFar,
    register: Register,
    len: u64,
    parts: &PartTexts<'_>,
    out: &mut Option<Command>,
) -> Result<ReadSoFar, SvfCause>
    ensures { Leaves out.new result (scanned kept register len (seen_parts parts.now)) }
{
    if len > u64::from(SCAN_LIMIT) {
        return Err(SvfCause::SvfLimit);
    }
    let len = len as u32;
    let scan = scan_with(alloc, len, parts)?;
    if tdi_missing(last_length(register, kept), len, parts) {
        drop(scan);
        return Err(SvfCause::TdiMissing);
    }
    let clocks = with_leaving_clock(kept, scan_clocks(register, len));
    emit_within_clock_limit(
        with_length(register, len, kept),
        false,
        clocks,
        scan_command(register, scan),
        out,
    )
}

#[tactic(auto, unfolding(crate::specs::Meaning::effect_of))]
fn run(kept: ReadSoFar, cycles: u64, out: &mut Option<Command>) -> Result<ReadSoFar, SvfCause>
    ensures { Leaves out.new result (effect_of kept (Runs cycles)) }
{
    if cycles > u64::from(CLOCK_LIMIT) {
        return Err(SvfCause::SvfLimit);
    }
    let clocks = with_leaving_clock(kept, cycles);
    emit_within_clock_limit(kept, false, clocks, Command::Run(cycles as u32), out)
}

/// What a scan comes to, of which this is the text after the first word.
#[tactic(auto, unfolding(crate::specs::Commands::scan, crate::specs::Meaning::effect_of))]
fn scan(
    alloc: Global,
    kept: ReadSoFar,
    register: Register,
    text: &[u8],
    out: &mut Option<Command>,
) -> Result<ReadSoFar, SvfCause>
    ensures { Leaves out.new result (if_parsed kept (scan register (words_of text.now))) }
{
    let Some(word) = next_word(text) else {
        return Err(SvfCause::SvfSyntax);
    };
    let len = number(word.piece).unwrap_or(0);
    match &parts(word.rest) {
        Some(parts) if len > 0 => scanned(alloc, kept, register, len, parts, out),
        _ => Err(SvfCause::SvfSyntax),
    }
}

/// What a command other than a scan does.
#[tactic(auto, unfolding(crate::specs::Meaning::effect_of))]
fn effect_of(
    kept: ReadSoFar,
    parsed: Parsed,
    out: &mut Option<Command>,
) -> Result<ReadSoFar, SvfCause>
    ensures { Leaves out.new result (effect_of kept (seen_parsed parsed)) }
{
    match parsed {
        Parsed::Reset => emit_within_clock_limit(kept, true, 5, Command::Reset, out),
        Parsed::Idle => {
            let clocks = with_leaving_clock(kept, 0);
            emit_within_clock_limit(kept, false, clocks, Command::Idle, out)
        }
        Parsed::Run(cycles) => run(kept, cycles, out),
        Parsed::Nothing => {
            drop(out.take());
            Ok(kept)
        }
    }
}

/// What a command comes to, by its first word and the text after it.
#[tactic(auto, unfolding(crate::specs::Commands::command_of_words, crate::specs::Commands::parsed_by))]
fn command_of_words(
    alloc: Global,
    kept: ReadSoFar,
    first: Piece<'_>,
    out: &mut Option<Command>,
) -> Result<ReadSoFar, SvfCause>
    ensures { Leaves out.new result
        (if_parsed kept (command_of_words (first.entry.piece.now ∷ words_of first.entry.rest.now))) }
{
    if eq_ignore_case(first.piece, b"SIR") {
        scan(alloc, kept, Register::Instruction, first.rest, out)
    } else if eq_ignore_case(first.piece, b"SDR") {
        scan(alloc, kept, Register::Data, first.rest, out)
    } else {
        match parsed_by(first.piece, first.rest) {
            None => Err(SvfCause::SvfSyntax),
            Some(parsed) => effect_of(kept, parsed, out),
        }
    }
}

/// What a command comes to, of which this is the text, and whether its `;` is there: what is kept after it,
/// and in `out` the command, if it acts on the controller.
#[tactic(auto, unfolding(crate::specs::Meaning::read_command, crate::specs::Reading::words_of))]
pub(crate) fn read_command(
    alloc: Global,
    kept: ReadSoFar,
    ended: bool,
    text: &[u8],
    out: &mut Option<Command>,
) -> Result<ReadSoFar, SvfCause>
    ensures { Leaves out.new result (read_command kept ended (plain text.now)) }
{
    let Some(first) = next_word(text) else {
        return Err(SvfCause::SvfSyntax);
    };
    if let Some(word) = left_out(first) {
        return Err(SvfCause::LeftOut(name_of(alloc, word)?));
    }
    if !ended {
        return Err(SvfCause::SvfSyntax);
    }
    command_of_words(alloc, kept, first, out)
}
