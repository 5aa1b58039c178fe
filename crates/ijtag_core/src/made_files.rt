// The files of a made design.
ghost use Rattle.std.specs.Prelude.{◌≡◌, Some, [], ◌∷◌, map, OnOk, OnErr, IfErr};
ghost use Rattle.std.specs.Option.{option_map};
ghost use Rattle.retargeter.specs.Files.{HoldsPart};
ghost use Rattle.ij_io.specs.Causes.{SameCounts};
ghost use Rattle.ij_io.specs.Files.{file_at, OthersStay};
ghost use Rattle.ijtag_stages.specs.Follows.{Follows};
ghost use Rattle.ijtag_work.specs.Command.{made_names};
ghost use Rattle.ijtag_work.specs.Order.{taken, taken_one, written_as};
ghost use Rattle.ijtag_work.specs.Runs.{AllHold, HoldInTurn, OnlyTheseRise};
ghost use Rattle.ijtag_work.specs.Seen.{seen_stop};
ghost use Rattle.ijtag_core.specs.Files.{AreApart, IsWriteStopOf, OthersAllStay, file_names, seen_file};
ghost use Rattle.ijtag_core.specs.Files.{text_of, texts_of};

use design_maker::Made;
use ij_io::Shelf;
use ij_text::SOURCE_LIMIT;
use ijtag_stages::{Stage, StageFault, refused_name};
use ijtag_work::{MadeName, Stop, write_file};
use std::alloc::Global;

/// A file of a made design.
#[derive(Clone, Copy)]
pub(crate) struct MadeFile<'a, 't> {
    /// Its name.
    pub name: MadeName<'a>,
    /// Its text.
    pub text: &'t [u8],
}

/// The four files of a made design, in the order in which they are written.
pub(crate) fn files_of<'a, 't>(stem: &'a str, made: &'t Made) -> [MadeFile<'a, 't>; 4]
    ensures { map seen_file result ≡ written_as (made_names stem.now) (texts_of made.now) }
{
    [
        MadeFile {
            name: MadeName {
                stem,
                ending: ".icl",
            },
            text: made.icl.as_slice(),
        },
        MadeFile {
            name: MadeName {
                stem,
                ending: ".pdl",
            },
            text: made.pdl.as_slice(),
        },
        MadeFile {
            name: MadeName {
                stem,
                ending: ".dev",
            },
            text: made.device.as_slice(),
        },
        MadeFile {
            name: MadeName {
                stem,
                ending: ".tab",
            },
            text: made.tables.as_slice(),
        },
    ]
}

/// Writes a file from its front. After a refusal it is as before, or holds some first bytes.
fn write_one<'a, S: Shelf>(
    alloc: Global,
    file: &MadeFile<'a, '_>,
    shelf: &mut S,
) -> Result<(), Stop<'a>>
    ensures whole { OnOk result (file_at (S.files shelf.new) (seen_file file.now).name
        ≡ option_map (λ _. Some (seen_file file.now).bytes) (S.files shelf.old)) }
    ensures part { OnErr result (HoldsPart (S.files shelf.old) (S.files shelf.new)
        (seen_file file.now).name (seen_file file.now).bytes) }
    ensures others { OthersStay (S.files shelf.old) (S.files shelf.new) (seen_file file.now).name }
    ensures stop { IfErr result (λ stop. IsWriteStopOf ((seen_file file.now).name ∷ [])
        (S.store_faults shelf.old) (S.store_faults shelf.new) (seen_stop stop)) }
    ensures loads { SameCounts (S.load_faults shelf.old) (S.load_faults shelf.new) }
    ensures stores { OnlyTheseRise ((seen_file file.now).name ∷ [])
        (S.store_faults shelf.old) (S.store_faults shelf.new) }
{
    let name = file.name.text(alloc)?;
    match write_file(name.as_str(), file.text, shelf) {
        Ok(()) => Ok(()),
        Err(fault) => Err(Stop::of_made(fault, file.name)),
    }
}

/// Writes these files, one after the other. After a refusal each is as before, or holds some first bytes.
pub(crate) fn write_each<'a, S: Shelf>(
    alloc: Global,
    files: &[MadeFile<'a, '_>],
    shelf: &mut S,
) -> Result<(), Stop<'a>>
    requires { AreApart (map seen_file files.now) }
    ensures whole { OnOk result (AllHold (map seen_file files.now) (S.files shelf.old) (S.files shelf.new)) }
    ensures part { OnErr result
        (HoldInTurn (map seen_file files.now) (S.files shelf.old) (S.files shelf.new)) }
    ensures others { OthersAllStay (file_names (map seen_file files.now))
        (S.files shelf.old) (S.files shelf.new) }
    ensures stop { IfErr result (λ stop. IsWriteStopOf (file_names (map seen_file files.now))
        (S.store_faults shelf.old) (S.store_faults shelf.new) (seen_stop stop)) }
    ensures loads { SameCounts (S.load_faults shelf.old) (S.load_faults shelf.new) }
    ensures stores { OnlyTheseRise (file_names (map seen_file files.now))
        (S.store_faults shelf.old) (S.store_faults shelf.new) }
{
    match files {
        [] => Ok(()),
        [first, rest @ ..] => {
            write_one(alloc, first, shelf)?;
            write_each(alloc, rest, shelf)?;
            Ok(())
        }
    }
}

/// Tests that a text is no longer than a file may be that is loaded.
#[tactic(auto, unfolding(ijtag_work::specs::Order::taken_one))]
fn check_length(alloc: Global, file: &MadeFile<'_, '_>) -> Result<(), StageFault>
    ensures { Follows (taken_one (seen_file file.now)) (λ _. text_of file.now) result }
{
    if file.text.len() > SOURCE_LIMIT as usize {
        let name = file.name.text(alloc)?;
        return Err(refused_name(alloc, Stage::File, b"Long", name.as_bytes()));
    }
    Ok(())
}

/// Tests that these texts are no longer than files may be that are loaded.
pub(crate) fn check_lengths(alloc: Global, files: &[MadeFile<'_, '_>]) -> Result<(), StageFault>
    ensures { Follows (taken (map seen_file files.now)) (λ _. map text_of files.now) result }
{
    match files {
        [] => Ok(()),
        [first, rest @ ..] => {
            check_length(alloc, first)?;
            check_lengths(alloc, rest)?;
            Ok(())
        }
    }
}
