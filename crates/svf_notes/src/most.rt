// How long a text with notes can become, without a play.
ghost use Rattle.std.specs.Prelude.{◌≡◌, ◌≤◌, ◌<◌, ◌+◌, ◌-◌, ◌*◌, ◌^◌, Some, length, map, min, IfOk, OnOk};
ghost use Rattle.ij_io.specs.Bytes.{Adds};
ghost use Rattle.instruments.specs.Seen.{seen_model};
ghost use Rattle.net_graph.specs.Nets.{IsNet};
ghost use Rattle.svf_notes.specs.Explained as explained;
ghost use Rattle.svf_notes.specs.Most as most;
ghost use Rattle.svf_writer.specs.SeenCommands.{seen_command};
ghost use Rattle.tap_machine.specs.Play.{scans_in};

use crate::names::{put_range, put_register_path};
use ij_bits::{List, OutOfMemory};
use ij_io::{StoreFault, SureSink};
use instruments::Model;
use net_graph::{Device, Net, register_count};
use std::alloc::Global;
use svf_writer::{Command, Commands};

/// Writes the path and the range of a register.
fn put_register_name(net: &Net, reg: u32, name: &mut SureSink) -> Result<(), StoreFault>
    requires well_formed { IsNet net.now }
    requires there { reg < length net.now.regs.items }
    ensures { OnOk result (Adds (Some name.old) (Some name.new) (most.named net.now reg)) }
{
    put_register_path(net, reg, name)?;
    put_range(net, reg, net.regs.get(reg as usize).width, name)?;
    Ok(())
}

/// The length of a register's path and range.
fn register_name_len(alloc: Global, net: &Net, reg: u32) -> Result<u64, OutOfMemory>
    requires well_formed { IsNet net.now }
    requires there { reg < length net.now.regs.items }
    ensures { IfOk result (λ len. len ≡ length (most.named net.now reg)) }
{
    let mut name = SureSink::new(alloc);
    match put_register_name(net, reg, &mut name) {
        Ok(()) => Ok(name.bytes().len() as u64),
        Err(_) => Err(OutOfMemory),
    }
}

/// The greatest length of a register's path and range.
fn longest_name(alloc: Global, net: &Net) -> Result<u64, OutOfMemory>
    requires well_formed { IsNet net.now }
    ensures { IfOk result (λ longest. most.AreNamedWithin net.now (length net.now.regs.items) longest) }
{
    let count = register_count(net);
    let mut longest = 0u64;
    for reg in 0..count {
        longest = longest.max(register_name_len(alloc, net, reg)?);
    }
    Ok(longest)
}

/// At least as many bytes as the rows of a scan of this many bits have for its registers' names and words.
fn names_len_bound(regs: u64, name: u64, bits: u32) -> u64
    ensures { min (min bits regs * (51 + name)) (2 ^ 64 - 1) ≤ result }
{
    u64::from(bits)
        .min(regs)
        .saturating_mul(name.saturating_add(51))
}

/// At least as many bytes as the note of a scan of this many bits has.
fn scan_note_len_bound(device: &Device, regs: u64, name: u64, bits: u32) -> u64
    ensures { min (most.most_of_scan device.now regs name bits) (2 ^ 64 - 1) ≤ result }
{
    let _ir = device.ir;
    let digits = 77 + 3 * u64::from(bits);
    digits.saturating_add(names_len_bound(regs, name, bits))
}

/// At least as many bytes as the note of a command has, if it is a scan.
fn command_note_len_bound(device: &Device, regs: u64, name: u64, command: &Command) -> u64
    ensures { min (most.most_of_command device.now regs name (seen_command command.now)) (2 ^ 64 - 1)
        ≤ result }
{
    match command {
        Command::Sir(scan) => scan_note_len_bound(device, regs, name, scan.len),
        Command::Sdr(scan) => scan_note_len_bound(device, regs, name, scan.len),
        Command::Reset => 0,
        Command::Idle => 0,
        Command::Run(_) => 0,
    }
}

/// At least as many bytes as all notes have.
fn notes_len_bound(device: &Device, regs: u64, name: u64, commands: &Commands) -> u64
    ensures { min (most.most_of device.now regs name commands.now) (2 ^ 64 - 1) ≤ result }
{
    let mut sum = 0u64;
    for i in 0..commands.len() {
        sum = sum.saturating_add(command_note_len_bound(device, regs, name, commands.get(i)));
    }
    sum
}

/// At least as many bytes as [`put_explained_file`](crate::put_explained_file) writes, told by the lengths of
/// the scans and the names of the registers: nothing is played. Where no such number fits, it is `u64::MAX`.
///
/// # Errors
///
/// `OutOfMemory`, where there is no memory for a register's name.
pub fn explained_len_bound(
    alloc: Global,
    net: &Net,
    device: &Device,
    models: &List<Model>,
    commands: &Commands,
    src: &[u8],
) -> Result<u64, OutOfMemory>
    requires well_formed { IsNet net.now }
    requires scans { scans_in commands.now ≤ 1000000000 }
    ensures { IfOk result (λ n. min (length (explained.explained_text net.now device.now
        (map seen_model models.now.items) commands.now src.now)) (2 ^ 64 - 1) ≤ n) }
{
    let _ = models;
    // Its contract says that the commands can be played.
    let _count = commands.len();
    let name = longest_name(alloc, net)?;
    let count = register_count(net);
    let notes = notes_len_bound(device, u64::from(count), name, commands);
    Ok(notes.saturating_add(src.len() as u64))
}
