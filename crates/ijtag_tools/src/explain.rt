// The command `explain`.
ghost use Rattle.std.specs.Prelude.{◌≡◌, ◌≤◌, true, length, Some, Ok, OnOk, OnErr};
ghost use Rattle.std.specs.Option.{option_map};
ghost use Rattle.ij_io.specs.Causes.{HasCauseAt, SameCounts};
ghost use Rattle.ij_io.specs.Files.{OthersStay, file_at};
ghost use Rattle.ij_io.specs.Pieces.{HoldsPart};
ghost use Rattle.ijtag_stages.specs.Follows.{Follows};
ghost use Rattle.ijtag_work.specs.Using.{IsUsable, seen_accepted, there};
ghost use Rattle.svf_reader.specs.Meaning.{svf};
ghost use Rattle.ijtag_tools.specs.Order.{explain, explained_of, is_readable};
ghost use Rattle.ijtag_tools.specs.Promises.{HoldsSameCommands};
ghost use Rattle.ijtag_tools.specs.Words.{seen_explain};

use crate::words::ExplainWords;
use ij_io::{Shelf, Sink, StoreFault};
use ijtag_core::{Effect, SVF_LIMIT};
use ijtag_stages::{Stage, StageFault, refused};
use ijtag_work::{Accepted, PlayWords, Stop, Verdict};
use std::alloc::Global;
use svf_notes::{explained_commands_stay, explained_len, explained_len_bound, put_explained_file};

/// Refuses a text with notes that is too long to be read again. It is played only where the lengths of its
/// scans don't tell that it is short.
#[tactic(auto, unfolding(crate::specs::Order::is_readable, crate::specs::Order::explained_of))]
fn check_length(alloc: Global, it: &Accepted) -> Result<(), StageFault>
    requires usable { IsUsable it.now }
    requires models { there it.now.models ≡ true }
    requires text { there it.now.svf ≡ true }
    requires commands { there it.now.commands ≡ true }
    ensures { Follows (is_readable (seen_accepted it.now)) (λ _. tt) result }
{
    let net = &it.network.net;
    let most = explained_len_bound(
        alloc,
        net,
        &it.device,
        it.models().models(),
        it.commands(),
        it.svf_text(),
    )?;
    if most <= u64::from(SVF_LIMIT) {
        return Ok(());
    }
    let len = explained_len(
        alloc,
        net,
        &it.device,
        it.models().models(),
        it.commands(),
        it.svf_text(),
    )?;
    if len > u64::from(SVF_LIMIT) {
        return Err(refused(alloc, Stage::Explain, b"TooLong"));
    }
    Ok(())
}

/// Writes the file of the text with its notes, from its front.
#[tactic(auto, unfolding(crate::specs::Order::explained_of))]
fn write_notes<S: Shelf>(
    alloc: Global,
    it: &Accepted,
    name: &str,
    shelf: &mut S,
) -> Result<(), StoreFault>
    requires usable { IsUsable it.now }
    requires models { there it.now.models ≡ true }
    requires text { there it.now.svf ≡ true }
    requires commands { there it.now.commands ≡ true }
    ensures whole { OnOk result (file_at (S.files shelf.new) name.now
        ≡ option_map (λ _. Some (explained_of (seen_accepted it.now))) (S.files shelf.old)) }
    ensures part { OnErr result
        (HoldsPart (S.files shelf.old) (S.files shelf.new) name.now (explained_of (seen_accepted it.now))) }
    ensures others { OthersStay (S.files shelf.old) (S.files shelf.new) name.now }
    ensures cause { HasCauseAt name.now (S.store_faults shelf.old)
        (S.store_faults shelf.new) result StoreFault.Failed }
    ensures loads { SameCounts (S.load_faults shelf.old) (S.load_faults shelf.new) }
{
    let net = &it.network.net;
    put_explained_file(
        alloc,
        net,
        &it.device,
        it.models().models(),
        it.commands(),
        it.svf_text(),
        name,
        shelf,
    )
}

/// A reader of SVF finds the same commands in the text with its notes.
#[tactic(auto, unfolding(crate::specs::Order::explained_of))]
fn notes_change_no_command(it: &Accepted)
    requires usable { IsUsable it.now }
    requires text { there it.now.svf ≡ true }
    ensures read { svf (seen_accepted it.now).svf ≡ Ok (seen_accepted it.now).commands }
    ensures again { svf (explained_of (seen_accepted it.now)) ≡ Ok (seen_accepted it.now).commands }
{
    explained_commands_stay();
    let _text = it.svf_text();
}

/// Writes the SVF text once more, with notes on its scans, and prints nothing.
impl<'w> Effect for ExplainWords<'w> {
    ghost table_row = { λ words. explain (seen_explain words) };

    ghost promise = { λ words files file it _. HoldsSameCommands files (file (seen_explain words).new) it };

    type Words = PlayWords<'w>;

    fn words(&self) -> &Self::Words {
        &self.play
    }

    fn prints(&self) -> bool {
        false
    }

    fn act<'a, S: Shelf, O: Sink>(
        &'a self,
        alloc: Global,
        it: &Accepted,
        shelf: &mut S,
        _out: &mut O,
    ) -> Result<Verdict, Stop<'a>> {
        check_length(alloc, it)?;
        notes_change_no_command(it);
        match write_notes(alloc, it, self.new_svf, shelf) {
            Ok(()) => Ok(Verdict::Agrees),
            Err(fault) => Err(Stop::of_file(fault, self.new_svf)),
        }
    }
}
