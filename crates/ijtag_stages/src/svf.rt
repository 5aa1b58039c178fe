// The SVF text (Serial Vector Format, revision E).
ghost use Rattle.std.specs.Prelude.{◌≤◌, length, IfOk};
ghost use Rattle.tap_machine.specs.declared.Stable.TheVariants.{Reset as InReset};
ghost use Rattle.tap_machine.specs.Play.{pins, scans_in};
ghost use Rattle.ijtag_stages.specs.Follows.{Follows, IsToldAs};
ghost use Rattle.ijtag_stages.specs.SvfText.{svf_text, svf_fault};

use crate::laws::read_commands_are_playable;
use crate::refusal::{Stage, StageFault, refused_at, refused_word};
use std::alloc::Global;
use svf_reader::SvfFault;
use svf_writer::Commands;

/// How a fault is reported.
fn refusal_of(alloc: Global, fault: SvfFault) -> StageFault
    ensures { IsToldAs (svf_fault fault) result }
{
    match fault {
        SvfFault::LeftOut { at, word } => refused_word(alloc, Stage::Svf, b"LeftOut", at, word),
        SvfFault::SvfSyntax { at } => refused_at(alloc, Stage::Svf, b"SvfSyntax", at),
        SvfFault::SvfLimit { at } => refused_at(alloc, Stage::Svf, b"SvfLimit", at),
        SvfFault::HexWide { at } => refused_at(alloc, Stage::Svf, b"HexWide", at),
        SvfFault::TdiMissing { at } => refused_at(alloc, Stage::Svf, b"TdiMissing", at),
        SvfFault::OutOfMemory => StageFault::OutOfMemory,
    }
}

/// The commands of an SVF text. Where a command is at fault, the fault says where and why.
#[tactic(auto, unfolding(crate::specs::SvfText::svf_text))]
pub fn read_svf(alloc: Global, text: &[u8]) -> Result<Commands, StageFault>
    requires { length text.now ≤ 134217728 }
    ensures follows { Follows (svf_text text.now) (λ commands. commands) result }
    ensures clocks { IfOk result (λ commands. length (pins InReset 0 commands) ≤ 1000000000) }
    ensures scans { IfOk result (λ commands. scans_in commands ≤ 1000000000) }
{
    read_commands_are_playable();
    match svf_reader::read_svf(alloc, text) {
        Ok(commands) => Ok(commands),
        Err(fault) => Err(refusal_of(alloc, fault)),
    }
}
