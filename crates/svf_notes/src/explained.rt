// SVF texts with notes.
ghost use Rattle.std.specs.Prelude.{◌≡◌, ◌≤◌, ◌+◌, ◌-◌, ◌^◌, ◌++◌, ◌∷◌, [], drop, length, map, min, true};
ghost use Rattle.std.specs.Prelude.{IfOk, OnOk, OnErr, Some};
ghost use Rattle.std.specs.Option.{option_map};
ghost use Rattle.ij_io.specs.Bytes.{Adds};
ghost use Rattle.ij_io.specs.Causes.{HasCauseAt, SameCounts};
ghost use Rattle.ij_io.specs.Files.{OthersStay, file_at, told_bytes};
ghost use Rattle.ij_io.specs.Pieces.{HoldsPart, IsThere, with_piece};
ghost use Rattle.instruments.specs.Runners.{AreModels};
ghost use Rattle.instruments.specs.Seen.{seen_model};
ghost use Rattle.net_graph.specs.Nets.{IsNet};
ghost use Rattle.svf_notes.specs.Explained as explained;
ghost use Rattle.svf_notes.specs.Left.{left_notes, IsPlaying};
ghost use Rattle.svf_reader.specs.Commands.{is_scan as is_scan_of};
ghost use Rattle.svf_reader.specs.Texts.{plain, words};
ghost use Rattle.tap_machine.specs.Play.{scans_in};

use crate::playing::Playing;
use ij_bits::{List, OutOfMemory};
use ij_io::{Shelf, Sink, StoreFault, SureSink, put_last_piece, store_full_piece};
use instruments::Model;
use net_graph::{Device, Net};
use std::alloc::Global;
use svf_reader::{is_scan, next_text};
use svf_writer::Commands;

/// Adds some bytes to a piece of a text.
fn add(bytes: &[u8], piece: &mut SureSink) -> Result<(), OutOfMemory>
    ensures { OnOk result (piece.new ≡ piece.old ++ bytes.now) }
{
    match piece.write(bytes) {
        Ok(()) => Ok(()),
        Err(_) => Err(OutOfMemory),
    }
}

/// The line feed that closes a note, unless the text goes on with one.
fn closing_line_feed(rest: &[u8]) -> &'static [u8]
    ensures { result.now ≡ explained.closing_line_feed rest.now }
{
    match rest {
        [b'\n', ..] => b"",
        _ => b"\n",
    }
}

/// Adds the note of the next scan, before the rest of the text.
fn add_next_note(
    playing: &mut Playing,
    rest: &[u8],
    piece: &mut SureSink,
) -> Result<(), OutOfMemory>
    requires { IsPlaying playing.old }
    ensures text { OnOk result
        (piece.new ≡ piece.old ++ explained.note_at true (left_notes playing.old) rest.now) }
    ensures left { OnOk result (left_notes playing.new ≡ drop 1 (left_notes playing.old)) }
    ensures playing { IsPlaying playing.new }
{
    match playing.next()? {
        None => Ok(()),
        Some(number) => {
            playing.add_note(number, piece)?;
            add(closing_line_feed(rest), piece)?;
            Ok(())
        }
    }
}

/// Adds what comes after the `;` of a command, before the rest of the text.
fn add_note(
    playing: &mut Playing,
    scans: bool,
    rest: &[u8],
    piece: &mut SureSink,
) -> Result<(), OutOfMemory>
    requires { IsPlaying playing.old }
    ensures text { OnOk result
        (piece.new ≡ piece.old ++ explained.note_at scans (left_notes playing.old) rest.now) }
    ensures left { OnOk result (left_notes playing.new
        ≡ explained.notes_left scans (left_notes playing.old)) }
    ensures playing { IsPlaying playing.new }
{
    if scans {
        add_next_note(playing, rest, piece)
    } else {
        Ok(())
    }
}

/// Adds a command with its `;`, and its note, before the rest of the text.
fn add_command(
    playing: &mut Playing,
    command: &[u8],
    rest: &[u8],
    piece: &mut SureSink,
) -> Result<(), OutOfMemory>
    requires { IsPlaying playing.old }
    ensures text { OnOk result (piece.new ≡ piece.old ++ (command.now ++ 59 ∷ []
        ++ explained.note_at (is_scan_of (words (plain command.now))) (left_notes playing.old) rest.now)) }
    ensures left { OnOk result (left_notes playing.new
        ≡ explained.notes_left (is_scan_of (words (plain command.now))) (left_notes playing.old)) }
    ensures playing { IsPlaying playing.new }
{
    add(command, piece)?;
    add(b";", piece)?;
    add_note(playing, is_scan(command), rest, piece)
}

/// Writes a text with the notes that are left after a piece of a file's text, and finishes the file. After a
/// refusal the file holds some first bytes.
fn put_text<S: Shelf>(
    alloc: Global,
    playing: &mut Playing,
    src: &[u8],
    name: &str,
    piece: SureSink,
    shelf: &mut S,
) -> Result<(), StoreFault>
    requires playing { IsPlaying playing.old }
    requires there { IsThere (S.files shelf.old) name.now }
    ensures there { OnOk result (IsThere (S.files shelf.new) name.now) }
    ensures whole { OnOk result (Adds (with_piece (S.files shelf.old) name.now piece)
        (told_bytes (S.files shelf.new) name.now) (explained.explained (left_notes playing.old) src.now)) }
    ensures part { OnErr result (explained.HoldsSome (S.files shelf.new) name.now (with_piece
        (S.files shelf.old) name.now piece) (explained.explained (left_notes playing.old) src.now)) }
    ensures others { OthersStay (S.files shelf.old) (S.files shelf.new) name.now }
    ensures cause { HasCauseAt name.now (S.store_faults shelf.old)
        (S.store_faults shelf.new) result StoreFault.Failed }
    ensures loads { SameCounts (S.load_faults shelf.old) (S.load_faults shelf.new) }
{
    let mut piece = piece;
    let mut rest = src;
    while let Some(next) = next_text(rest) {
        add_command(playing, next.piece, next.rest, &mut piece)?;
        piece = store_full_piece(alloc, name, piece, shelf)?;
        rest = next.rest;
    }
    add(rest, &mut piece)?;
    put_last_piece(name, &piece, shelf)
}

/// The length of what comes after the `;` of a command, at most `u64::MAX`.
fn note_len(
    alloc: Global,
    playing: &mut Playing,
    scans: bool,
    rest: &[u8],
) -> Result<u64, OutOfMemory>
    requires { IsPlaying playing.old }
    ensures len { IfOk result
        (λ n. n ≡ min (length (explained.note_at scans (left_notes playing.old) rest.now)) (2 ^ 64 - 1)) }
    ensures left { OnOk result (left_notes playing.new
        ≡ explained.notes_left scans (left_notes playing.old)) }
    ensures playing { IsPlaying playing.new }
{
    let mut note = SureSink::new(alloc);
    add_note(playing, scans, rest, &mut note)?;
    Ok(note.bytes().len() as u64)
}

/// The length of a text with the notes that are left, at most `u64::MAX`.
fn text_len(alloc: Global, playing: &mut Playing, src: &[u8]) -> Result<u64, OutOfMemory>
    requires { IsPlaying playing.old }
    ensures { IfOk result
        (λ n. n ≡ min (length (explained.explained (left_notes playing.old) src.now)) (2 ^ 64 - 1)) }
{
    let mut rest = src;
    let mut len = 0u64;
    while let Some(next) = next_text(rest) {
        let command = next.piece.len() as u64 + 1;
        let note = note_len(alloc, playing, is_scan(next.piece), next.rest)?;
        len = len.saturating_add(command).saturating_add(note);
        rest = next.rest;
    }
    Ok(len.saturating_add(rest.len() as u64))
}

/// How many bytes [`put_explained_file`] writes, at most `u64::MAX`. It plays, and keeps no more of the text
/// than one note and what rows begin with.
///
/// # Errors
///
/// `OutOfMemory`, where there is no memory for the bench, for the bits of one scan, for what rows begin with
/// or for one note.
pub fn explained_len(
    alloc: Global,
    net: &Net,
    device: &Device,
    models: &List<Model>,
    commands: &Commands,
    src: &[u8],
) -> Result<u64, OutOfMemory>
    requires well_formed { IsNet net.now }
    requires models { AreModels net.now models.now.items }
    requires scans { scans_in commands.now ≤ 1000000000 }
    ensures { IfOk result (λ n. n ≡ min (length (explained.explained_text net.now device.now
        (map seen_model models.now.items) commands.now src.now)) (2 ^ 64 - 1)) }
{
    let mut playing = Playing::new(alloc, net, device, models, commands)?;
    text_len(alloc, &mut playing, src)
}

/// Writes an SVF text once more to a file, from its front, byte for byte, with a note after the `;` of each
/// scan (Serial Vector Format, revision E: comments, SIR, SDR). `commands` are those of the text; they are
/// played from power-up on a device with a scan network and its instruments, of which `models` has one for
/// each, in the network's order. Of the new text no more than 65,536 bytes, a command and its note are kept,
/// and what the row of each register began with, up to 256 bytes.
///
/// A note is lines that begin with `!:`. The first has the scan's number, counted from 1 over SIR and SDR
/// alike, and what the scan goes through: an instruction, in hexadecimal digits, and what it selects; the
/// network's active path with its length; or the bypass or identity register. A scan of the network that is
/// as long as its path has a line more for each register on the path, the one nearest scan-in first: its
/// positions in the scan, the highest first, of which position 0 is shifted first; its name, with its range
/// where it has more than one bit; what is written, and `as before` where its update stage holds that
/// already; what is expected where MASK is 1, and `-` where it is 0; and where some bit differs, what is
/// found. Values begin at the highest position.
///
/// # Errors
///
/// - `Failed`: the shelf could not begin the file, write a piece or keep it, and its count of failed stores
///   under this name rose.
/// - `OutOfMemory`: there was no memory for the bench, for the bits of one scan, for what rows begin with or
///   for a piece of the text, or the shelf had none.
///
/// After a refusal the file is as before, or holds some first bytes of the text. Other files and the counts
/// of failed loads stay.
pub fn put_explained_file<S: Shelf>(
    alloc: Global,
    net: &Net,
    device: &Device,
    models: &List<Model>,
    commands: &Commands,
    src: &[u8],
    name: &str,
    shelf: &mut S,
) -> Result<(), StoreFault>
    requires well_formed { IsNet net.now }
    requires models { AreModels net.now models.now.items }
    requires scans { scans_in commands.now ≤ 1000000000 }
    ensures whole { OnOk result (file_at (S.files shelf.new) name.now
        ≡ option_map (λ _. Some (explained.explained_text net.now device.now
        (map seen_model models.now.items) commands.now src.now)) (S.files shelf.old)) }
    ensures part { OnErr result
        (HoldsPart (S.files shelf.old) (S.files shelf.new) name.now (explained.explained_text net.now
        device.now (map seen_model models.now.items) commands.now src.now)) }
    ensures others { OthersStay (S.files shelf.old) (S.files shelf.new) name.now }
    ensures cause { HasCauseAt name.now (S.store_faults shelf.old)
        (S.store_faults shelf.new) result StoreFault.Failed }
    ensures loads { SameCounts (S.load_faults shelf.old) (S.load_faults shelf.new) }
{
    let mut playing = Playing::new(alloc, net, device, models, commands)?;
    let piece = SureSink::new(alloc);
    shelf.begin(name)?;
    put_text(alloc, &mut playing, src, name, piece, shelf)
}
