// Whole texts.
ghost use Rattle.std.specs.Prelude.{◌≡◌, ℕ, ◌+◌, ◌-◌, ◌≤◌, ◌∷◌, ◌++◌, [], length, option_map, MatchOption};
ghost use Rattle.std.specs.Prelude.{IfSome, OnOk, IfOk, IfErr, IsErrOf, IsErr, Ok, Err};
ghost use Rattle.ij_bits.specs.Room.{Listed};
ghost use Rattle.ij_text.specs.declared.Place.{Place};
ghost use Rattle.svf_writer.specs.Fits.{AreFit};
ghost use Rattle.svf_writer.specs.SeenCommands.{seen_command};
ghost use Rattle.svf_reader.specs.Answers.{AtPlace, Refuses, IsRefused};
ghost use Rattle.svf_reader.specs.Meaning.{Refusal, LeftOut, SvfSyntax, SvfLimit, HexWide, TdiMissing};
ghost use Rattle.svf_reader.specs.Meaning.{listed, svf};
ghost use Rattle.ij_text.specs.Places.{place_at};
ghost use Rattle.svf_reader.specs.Commands.{is_scan};
ghost use Rattle.svf_reader.specs.Texts.{plain, texts, words, blanks};

use crate::bytes::{Class, long_run_len, run_len};
use crate::fault::{SvfCause, SvfFault};
use crate::meaning::read_command;
use crate::pieces::{Piece, next_word};
use crate::so_far::ReadSoFar;
use crate::words::eq_ignore_case;
use ij_bits::OutOfMemory;
use ij_text::{Place, SVF_LIMIT, place_at};
use std::alloc::Global;
use svf_writer::{Command, Commands};

/// The text before the next `;` that is in no comment, if there is one, and the text after that `;`. So
/// it cuts an SVF text into its commands, with the comments between them. It takes no memory.
pub fn next_text<'a>(text: &'a [u8]) -> Option<Piece<'a>>
    ensures value { MatchOption result (texts (plain text.now) ≡ plain text.now ∷ [])
        (λ p. texts (plain text.now) ≡ plain p.piece.now ∷ texts (plain p.rest.now)) }
    ensures whole { IfSome result (λ p. text.now ≡ p.piece.now ++ 59 ∷ p.rest.now) }
    ensures lengths { IfSome result (λ p. length p.piece.now + 1 + length p.rest.now ≡ length text.now) }
{
    let (piece, after) = text.split_at(long_run_len(text, Class::Command));
    if after.is_empty() {
        return None;
    }
    let (_, rest) = after.split_at(1);
    Some(Piece { piece, rest })
}

/// Whether a command is a scan, an SIR or an SDR, of which this is the text before its `;` (Serial Vector
/// Format, revision E). It takes no memory.
#[tactic(auto, unfolding(crate::specs::Reading::words_of))]
pub fn is_scan(text: &[u8]) -> bool
    ensures { result ≡ is_scan (words (plain text.now)) }
{
    match next_word(text) {
        None => false,
        Some(word) => eq_ignore_case(word.piece, b"SIR") || eq_ignore_case(word.piece, b"SDR"),
    }
}

/// A refusal at a place.
fn refused_at(refused: SvfCause, at: Place) -> SvfFault
    ensures { AtPlace refused at result }
{
    match refused {
        SvfCause::LeftOut(word) => SvfFault::LeftOut { at, word },
        SvfCause::SvfSyntax => SvfFault::SvfSyntax { at },
        SvfCause::SvfLimit => SvfFault::SvfLimit { at },
        SvfCause::HexWide => SvfFault::HexWide { at },
        SvfCause::TdiMissing => SvfFault::TdiMissing { at },
        SvfCause::OutOfMemory => SvfFault::OutOfMemory,
    }
}

/// The place of the first byte of a command, of which this is the text, and from which on this many bytes are
/// left.
fn command_place(src: &[u8], left: usize, text: &[u8]) -> Place
    requires short { length src.now ≤ SVF_LIMIT }
    requires within { left ≤ length src.now }
    requires part { length text.now ≤ left }
    ensures { result ≡ place_at src.now (length src.now - left + blanks (plain text.now)) }
{
    place_at(src, src.len() - left + run_len(text, Class::Gap))
}

/// Moves a command to the end of the list, if there is one.
fn add(commands: &mut Commands, out: &mut Option<Command>) -> Result<(), OutOfMemory>
    requires { AreFit (commands.old ++ listed (option_map seen_command out.old)) }
    ensures ok { OnOk result (commands.new ≡ commands.old ++ listed (option_map seen_command out.old)) }
{
    if let Some(command) = out.take() {
        commands.push(command)?;
    }
    Ok(())
}

/// Adds the commands of a text to none, or answers its refusal. Each command comes by way of `command`.
fn read_into(
    alloc: Global,
    src: &[u8],
    commands: &mut Commands,
    command: &mut Option<Command>,
) -> Result<(), SvfFault>
    requires short { length src.now ≤ SVF_LIMIT }
    requires none { commands.old ≡ [] }
    ensures ok { OnOk result (svf src.now ≡ Ok commands.new) }
    ensures fault { IfErr result (λ fault. Refuses src.now fault) }
{
    let mut kept = ReadSoFar {
        ir: None,
        dr: None,
        in_reset: true,
        clocks: 0,
    };
    let mut rest = src;
    while let Some(next) = next_text(rest) {
        kept = match read_command(alloc, kept, true, next.piece, command) {
            Ok(kept) => kept,
            Err(refused) => {
                let at = command_place(src, rest.len(), next.piece);
                return Err(refused_at(refused, at));
            }
        };
        add(commands, command)?;
        rest = next.rest;
    }
    match next_word(rest) {
        None => Ok(()),
        Some(_) => match read_command(alloc, kept, false, rest, command) {
            Ok(_) => Ok(()),
            Err(refused) => {
                let at = command_place(src, rest.len(), rest);
                Err(refused_at(refused, at))
            }
        },
    }
}

/// The commands of a text, or its refusal.
fn read(alloc: Global, src: &[u8]) -> Result<Commands, SvfFault>
    requires { length src.now ≤ SVF_LIMIT }
    ensures ok { IfOk result (λ commands. svf src.now ≡ Ok commands) }
    ensures fault { IfErr result (λ fault. Refuses src.now fault) }
{
    let mut commands = Commands::new(alloc);
    let mut command = None;
    let read = read_into(alloc, src, &mut commands, &mut command);
    drop(command);
    match read {
        Ok(()) => Ok(commands),
        Err(fault) => {
            drop(commands);
            Err(fault)
        }
    }
}

/// Reads an SVF text (Serial Vector Format, revision E): its commands in order, without those that have no
/// effect here.
///
/// Read are SIR and SDR with TDI, TDO, MASK and SMASK, STATE RESET and STATE IDLE, RUNTEST by TCK; and
/// without effect HDR, HIR, TDR and TIR of length 0, ENDDR and ENDIR to IDLE, FREQUENCY, and TRST OFF, ABSENT
/// and Z. Words are read in either case, and blanks and comments may stand between them and in hexadecimal
/// texts. In each list of bits position 0 is the lowest bit of the last digit, so the one that is shifted
/// first.
///
/// The first command at fault decides what is refused, and the fault's place is this command's first byte,
/// which is the `;` where nothing else is. In one command the order of the causes is `LeftOut`,
/// `SvfSyntax`, `SvfLimit` for the length of a scan, `HexWide`, `TdiMissing`, and `SvfLimit` for the clocks.
/// The list takes memory by `alloc`; where there is none, the answer is `OutOfMemory`.
///
/// The text has at most 134,217,728 bytes, as an SVF file may have here; a longer one must not be given.
pub fn read_svf(alloc: Global, src: &[u8]) -> Result<Commands, SvfFault>
    requires { length src.now ≤ SVF_LIMIT }
    ensures ok { IfOk result (λ commands. svf src.now ≡ Ok commands) }
    ensures refused { (refusal : Refusal) → svf src.now ≡ Err refusal → IsErr result }
    ensures left_out { (at : Place) (word : Listed ℕ) → IsErrOf result (SvfFault.LeftOut at word)
        → IsRefused src.now (LeftOut word.items) at }
    ensures syntax { (at : Place) → IsErrOf result (SvfFault.SvfSyntax at) → IsRefused src.now SvfSyntax at }
    ensures hex_wide { (at : Place) → IsErrOf result (SvfFault.HexWide at) → IsRefused src.now HexWide at }
    ensures tdi_missing { (at : Place) → IsErrOf result (SvfFault.TdiMissing at)
        → IsRefused src.now TdiMissing at }
    ensures limit { (at : Place) → IsErrOf result (SvfFault.SvfLimit at) → IsRefused src.now SvfLimit at }
{
    read(alloc, src)
}
