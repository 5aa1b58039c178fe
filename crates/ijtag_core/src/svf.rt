// The SVF of a procedure: as a text, and as a file.
ghost use Rattle.std.specs.Prelude.{◌≡◌, ◌≤◌, ◌⊎◌, List, ℕ, true, length, IfOk, IsErrOf, OnOk, OnErr};
ghost use Rattle.ij_io.specs.Causes.{HasCauseAt, SameCounts};
ghost use Rattle.ij_io.specs.Files.{OthersStay};
ghost use Rattle.svf_writer.specs.SeenCommands.{SeenCommand};
ghost use Rattle.tap_machine.specs.declared.Stable.TheVariants.{Reset as InReset};
ghost use Rattle.tap_machine.specs.Play.{pins, scans_in};
ghost use Rattle.ijtag_work.specs.Filed.{HasPlans, IsFiled, IsPartFiled};
ghost use Rattle.ijtag_work.specs.Order.{commands_of, written_text};
ghost use Rattle.ijtag_work.specs.Using.{IsUsable, seen_accepted, there};
ghost use Rattle.ijtag_core.specs.Svf.{HasCommands};

use headline::procedures_are_plannable;
use ij_bits::OutOfMemory;
use ij_io::{Shelf, StoreFault, SureSink};
use ijtag_stages::read_svf;
use ijtag_work::{Accepted, steps_again, write_file};
use merge_order::{bit_steps_are_few, bit_steps_are_of_the_network};
use retargeter::{put_svf, put_svf_file};
use std::alloc::Global;
use svf_writer::Commands;

/// The SVF text of an accepted procedure, whole.
#[tactic(auto, unfolding(ijtag_work::specs::Order::written_text))]
pub fn make_svf(alloc: Global, it: &Accepted) -> Result<SureSink, OutOfMemory>
    requires usable { IsUsable it.now }
    requires procedure { there it.now.procedure ≡ true }
    ensures text { IfOk result (λ svf. (written_text (seen_accepted it.now)).gives svf) }
    ensures plans { OnOk result (HasPlans (seen_accepted it.now)) }
{
    bit_steps_are_of_the_network();
    bit_steps_are_few();
    procedures_are_plannable();
    let mut svf = SureSink::new(alloc);
    let network = &it.network;
    let mut steps = steps_again(alloc, network, it.procedure())?;
    let told = put_svf(
        alloc,
        &network.net,
        &network.form,
        &it.device,
        &mut steps,
        &mut svf,
    );
    drop(steps);
    match told {
        Ok(()) => Ok(svf),
        Err(_) => Err(OutOfMemory),
    }
}

/// Writes the SVF file of an accepted procedure from its front, and keeps one piece of it at a time. After a
/// refusal the file is as before, or holds some first bytes.
pub(crate) fn write_svf<S: Shelf>(
    alloc: Global,
    it: &Accepted,
    name: &str,
    shelf: &mut S,
) -> Result<(), StoreFault>
    requires usable { IsUsable it.now }
    requires procedure { there it.now.procedure ≡ true }
    ensures whole { OnOk result
        (IsFiled (written_text (seen_accepted it.now)) (S.files shelf.old) (S.files shelf.new) name.now) }
    ensures part { OnErr result ((S.files shelf.new ≡ S.files shelf.old) ⊎ IsPartFiled
        (written_text (seen_accepted it.now)) (S.files shelf.old) (S.files shelf.new) name.now) }
    ensures text { IsErrOf result StoreFault.Failed
        → (bytes : List ℕ) × (written_text (seen_accepted it.now)).gives bytes }
    ensures others { OthersStay (S.files shelf.old) (S.files shelf.new) name.now }
    ensures cause { HasCauseAt name.now (S.store_faults shelf.old)
        (S.store_faults shelf.new) result StoreFault.Failed }
    ensures loads { SameCounts (S.load_faults shelf.old) (S.load_faults shelf.new) }
{
    bit_steps_are_of_the_network();
    bit_steps_are_few();
    procedures_are_plannable();
    let network = &it.network;
    let mut steps = steps_again(alloc, network, it.procedure())?;
    let told = put_svf_file(
        alloc,
        &network.net,
        &network.form,
        &it.device,
        &mut steps,
        name,
        shelf,
    );
    drop(steps);
    told
}

/// The commands of a written SVF text, in which a reader finds some: only want of memory is an error.
#[tactic(auto, unfolding(ijtag_work::specs::Order::commands_of))]
pub fn read_commands(alloc: Global, bytes: &[u8]) -> Result<Commands, OutOfMemory>
    requires short { length bytes.now ≤ 134217728 }
    requires written { (found : List SeenCommand) × (commands_of bytes.now).gives found }
    ensures given { IfOk result (λ commands. (commands_of bytes.now).gives commands) }
    ensures clocks { IfOk result (λ commands. length (pins InReset 0 commands) ≤ 1000000000) }
    ensures scans { IfOk result (λ commands. scans_in commands ≤ 1000000000) }
{
    match read_svf(alloc, bytes) {
        Ok(commands) => Ok(commands),
        Err(_) => Err(OutOfMemory),
    }
}

/// Writes the SVF file of an accepted procedure, and gives the commands that a reader finds in its text.
/// After a refusal the file is as before, or holds some first bytes.
pub(crate) fn write_commands<S: Shelf>(
    alloc: Global,
    it: &Accepted,
    name: &str,
    shelf: &mut S,
) -> Result<Commands, StoreFault>
    requires usable { IsUsable it.now }
    requires procedure { there it.now.procedure ≡ true }
    ensures whole { IfOk result
        (HasCommands (written_text (seen_accepted it.now)) (S.files shelf.old) (S.files shelf.new) name.now) }
    ensures clocks { IfOk result (λ commands. length (pins InReset 0 commands) ≤ 1000000000) }
    ensures scans { IfOk result (λ commands. scans_in commands ≤ 1000000000) }
    ensures part { OnErr result ((S.files shelf.new ≡ S.files shelf.old) ⊎ IsPartFiled
        (written_text (seen_accepted it.now)) (S.files shelf.old) (S.files shelf.new) name.now) }
    ensures text { IsErrOf result StoreFault.Failed
        → (bytes : List ℕ) × (written_text (seen_accepted it.now)).gives bytes }
    ensures others { OthersStay (S.files shelf.old) (S.files shelf.new) name.now }
    ensures cause { HasCauseAt name.now (S.store_faults shelf.old)
        (S.store_faults shelf.new) result StoreFault.Failed }
    ensures loads { SameCounts (S.load_faults shelf.old) (S.load_faults shelf.new) }
{
    let svf = make_svf(alloc, it)?;
    let bytes = svf.bytes();
    write_file(name, bytes, shelf)?;
    let commands = read_commands(alloc, bytes)?;
    Ok(commands)
}
