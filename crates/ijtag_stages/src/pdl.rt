// The PDL text (IEEE 1687-2014, PDL level 0).
ghost use Rattle.std.specs.Prelude.{◌≤◌, ◌<◌, ◌^◌, length, IfOk};
ghost use Rattle.ij_text.specs.Numbering.{AreDistinct};
ghost use Rattle.pdl_parser.specs.Grammar.{full_names};
ghost use Rattle.pdl_parser.specs.Refusals.{seen_fault};
ghost use Rattle.pdl_parser.specs.Views.{seen_procs};
ghost use Rattle.ijtag_stages.specs.Follows.{Follows, IsToldAs};
ghost use Rattle.ijtag_stages.specs.PdlText.{pdl_text, pdl_refusal};

use crate::refusal::{Stage, StageFault, refused_at, refused_word};
use pdl_parser::{PdlFault, Procs, names_differ, parse_pdl};
use std::alloc::Global;

/// How a fault is reported.
fn refusal_of(alloc: Global, fault: PdlFault) -> StageFault
    ensures { IsToldAs (pdl_refusal (seen_fault fault)) result }
{
    match fault {
        PdlFault::LeftOut { at, word } => refused_word(alloc, Stage::Pdl, b"LeftOut", at, word),
        PdlFault::NotInLevel0 { at } => refused_at(alloc, Stage::Pdl, b"NotInLevel0", at),
        PdlFault::BadNumber { at } => refused_at(alloc, Stage::Pdl, b"BadNumber", at),
        PdlFault::TooWide { at } => refused_at(alloc, Stage::Pdl, b"TooWide", at),
        PdlFault::ProcTwice { at } => refused_at(alloc, Stage::Pdl, b"ProcTwice", at),
        PdlFault::NoArg { at, name } => refused_word(alloc, Stage::Pdl, b"NoArg", at, name),
        PdlFault::PdlSyntax { at } => refused_at(alloc, Stage::Pdl, b"PdlSyntax", at),
        PdlFault::OutOfMemory => StageFault::OutOfMemory,
    }
}

/// The procedures of a PDL text. Where it isn't one, the fault says where and why.
#[tactic(auto, unfolding(crate::specs::PdlText::pdl_text))]
pub fn read_pdl(alloc: Global, text: &[u8]) -> Result<Procs, StageFault>
    requires { length text.now ≤ 134217728 }
    ensures follows { Follows (pdl_text text.now) seen_procs result }
    ensures distinct { IfOk result (λ p. AreDistinct (full_names (seen_procs p))) }
    ensures few { IfOk result (λ p. length p.procs.items < 2 ^ 32) }
{
    names_differ();
    match parse_pdl(alloc, text) {
        Ok(procs) => Ok(procs),
        Err(fault) => Err(refusal_of(alloc, fault)),
    }
}
