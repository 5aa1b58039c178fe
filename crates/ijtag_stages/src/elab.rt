// The hierarchy of the design (IEEE 1687-2014, ICL).
ghost use Rattle.std.specs.Prelude.{◌≡◌, IfOk};
ghost use Rattle.std.specs.Option.{option_map};
ghost use Rattle.icl_elab.specs.WellFormed.{IsHierarchy};
ghost use Rattle.icl_frames.specs.Written.{AreWritten};
ghost use Rattle.icl_lexer.specs.Views.{seen_design};
ghost use Rattle.icl_declarations.specs.Faults.{seen_fault};
ghost use Rattle.icl_references.specs.Roles.{seen_hier};
ghost use Rattle.ijtag_stages.specs.Follows.{Follows, IsToldAs};
ghost use Rattle.ijtag_stages.specs.Elaborated.{elaborated, elab_refusal, which_name};

use crate::refusal::{Stage, StageFault, refused_at, refused_limit, refused_name, refused_word};
use icl_elab::{ElabFault, Hier, elaborate};
use icl_lexer::Design;
use ij_text::{Name, Which, name_of};
use std::alloc::Global;

/// The name of a limit.
#[tactic(auto, unfolding(crate::specs::Elaborated::which_name))]
pub(crate) fn which_name(which: Which) -> &'static [u8]
    ensures { result.now ≡ which_name which }
{
    match which {
        Which::Hierarchy => b"Hierarchy",
        Which::Cells => b"Cells",
        Which::ScanBits => b"ScanBits",
        Which::Muxes => b"Muxes",
        Which::Instruments => b"Instruments",
        Which::Ports => b"Ports",
        Which::PortBits => b"PortBits",
        Which::Width => b"Width",
        Which::Groups => b"Groups",
        Which::RunLoop => b"RunLoop",
        Which::RunCycles => b"RunCycles",
    }
}

/// How a fault is reported.
fn refusal_of(alloc: Global, fault: ElabFault) -> StageFault
    ensures { IsToldAs (option_map elab_refusal (seen_fault fault)) result }
{
    match fault {
        ElabFault::NoModule { name } => {
            refused_name(alloc, Stage::Elab, b"NoModule", name.as_slice())
        }
        ElabFault::NoName { at, name } => refused_word(alloc, Stage::Elab, b"NoName", at, name),
        ElabFault::DoubleName { at, name } => {
            refused_word(alloc, Stage::Elab, b"DoubleName", at, name)
        }
        ElabFault::NoParameter { at, name } => {
            refused_word(alloc, Stage::Elab, b"NoParameter", at, name)
        }
        ElabFault::DivideByZero { at } => refused_at(alloc, Stage::Elab, b"DivideByZero", at),
        ElabFault::BadNumber { at } => refused_at(alloc, Stage::Elab, b"BadNumber", at),
        ElabFault::BadRange { at } => refused_at(alloc, Stage::Elab, b"BadRange", at),
        ElabFault::WidthDiffers { at } => refused_at(alloc, Stage::Elab, b"WidthDiffers", at),
        ElabFault::WrongKind { at } => refused_at(alloc, Stage::Elab, b"WrongKind", at),
        ElabFault::RowsOverlap { at } => refused_at(alloc, Stage::Elab, b"RowsOverlap", at),
        ElabFault::InstanceLoop { at } => refused_at(alloc, Stage::Elab, b"InstanceLoop", at),
        ElabFault::Limit { which, number } => {
            refused_limit(alloc, Stage::Elab, which_name(which), number)
        }
        ElabFault::OutOfMemory => StageFault::OutOfMemory,
    }
}

/// The hierarchy below the top module of this name.
#[tactic(auto, unfolding(crate::specs::Elaborated::elaborated))]
fn elaborate_below(alloc: Global, design: &Design, top: &Name) -> Result<Hier, StageFault>
    ensures follows { Follows (elaborated (seen_design design.now) top.now.items) seen_hier result }
    ensures well_formed { IfOk result (λ h. AreWritten (seen_design design.now) → IsHierarchy (seen_hier h)) }
{
    match elaborate(alloc, design, top) {
        Ok(hier) => Ok(hier),
        Err(fault) => Err(refusal_of(alloc, fault)),
    }
}

/// The hierarchy below the top module of this name. Where there is none, the fault says where and why.
pub fn elaborate_design(alloc: Global, design: &Design, top: &str) -> Result<Hier, StageFault>
    ensures follows { Follows (elaborated (seen_design design.now) top.now) seen_hier result }
    ensures well_formed { IfOk result (λ h. AreWritten (seen_design design.now) → IsHierarchy (seen_hier h)) }
{
    let top = name_of(alloc, top.as_bytes())?;
    let hier = elaborate_below(alloc, design, &top)?;
    Ok(hier)
}
