// The SVF file of all bit steps of a procedure.
ghost use Rattle.std.specs.Prelude.{◌≡◌, ◌<◌, ◌≤◌, ◌+◌, ◌^◌, All, None, Option, List, ℕ, length, OnOk, OnErr};
ghost use Rattle.ij_io.specs.Causes.{HasCauseAt, SameCounts};
ghost use Rattle.ij_io.specs.Files.{OthersStay, told_bytes};
ghost use Rattle.net_graph.specs.Devices.{IsDevice};
ghost use Rattle.pdl_targets.specs.Laws.{rounds_in};
ghost use Rattle.headline.specs.Retargeting.{IsRetargetable};
ghost use Rattle.headline.specs.Rounds.{StepIsPlannable};
ghost use Rattle.retargeter.specs.Scripts.{AreFew, HasScript, ScriptIsRight, WritesSteps, WritesStepsPart};
ghost use Rattle.retargeter.specs.Files.{HoldsScript, HoldsScriptPart};
ghost use Rattle.ij_io.specs.Pieces.{HoldsFront, IsThere, with_piece};

use crate::retargeter::Retargeter;
use headline::planned_steps_law;
use ij_io::{Shelf, StoreFault, SureSink, put_last_piece, store_full_piece};
use merge_order::{BitSteps, next_step};
use net_graph::{Device, Net};
use net_tree::Tree;
use std::alloc::Global;
use svf_writer::put_preface;

/// Writes the bit steps that are left of a procedure after a piece, and finishes the file. After a refusal
/// the file holds some first bytes.
fn put_steps<'a, 'b, S: Shelf>(
    alloc: Global,
    session: &mut Retargeter<'a>,
    steps: &mut BitSteps<'b>,
    name: &str,
    piece: SureSink,
    shelf: &mut S,
) -> Result<(), StoreFault>
    requires plannable { All (StepIsPlannable session.old.net session.old.form) steps.old.steps }
    requires few_rounds { rounds_in steps.old.steps ≤ 4096 }
    requires few_steps { session.old.applies + length steps.old.steps < 2 ^ 32 }
    requires there { IsThere (S.files shelf.old) name.now }
    ensures there { OnOk result (IsThere (S.files shelf.new) name.now) }
    ensures whole { OnOk result (WritesSteps session.old steps.old.steps
        (with_piece (S.files shelf.old) name.now piece) (told_bytes (S.files shelf.new) name.now)) }
    ensures part { OnErr result ((text : Option (List ℕ)) × WritesStepsPart session.old steps.old.steps
        (with_piece (S.files shelf.old) name.now piece) text × HoldsFront (S.files shelf.new) name.now text) }
    ensures others { OthersStay (S.files shelf.old) (S.files shelf.new) name.now }
    ensures cause { HasCauseAt name.now (S.store_faults shelf.old)
        (S.store_faults shelf.new) result StoreFault.Failed }
    ensures loads { SameCounts (S.load_faults shelf.old) (S.load_faults shelf.new) }
{
    let mut piece = piece;
    while let Some(step) = next_step(steps)? {
        session.put_step(&step, &mut piece)?;
        piece = store_full_piece(alloc, name, piece, shelf)?;
    }
    put_last_piece(name, &piece, shelf)
}

/// Writes the preface and the bit steps.
fn put_script<'b, S: Shelf>(
    alloc: Global,
    net: &Net,
    tree: &Tree,
    device: &Device,
    steps: &mut BitSteps<'b>,
    name: &str,
    shelf: &mut S,
) -> Result<(), StoreFault>
    requires network { IsRetargetable net.now tree.now }
    requires device { IsDevice device.now }
    requires plannable { All (StepIsPlannable net.now tree.now) steps.old.steps }
    requires few { AreFew steps.old.steps }
    ensures whole { OnOk result (HoldsScript net.now tree.now device.now steps.old.steps
        (S.files shelf.old) (S.files shelf.new) name.now) }
    ensures part { OnErr result (HoldsScriptPart net.now tree.now device.now steps.old.steps
        (S.files shelf.old) (S.files shelf.new) name.now) }
    ensures others { OthersStay (S.files shelf.old) (S.files shelf.new) name.now }
    ensures cause { HasCauseAt name.now (S.store_faults shelf.old)
        (S.store_faults shelf.new) result StoreFault.Failed }
    ensures loads { SameCounts (S.load_faults shelf.old) (S.load_faults shelf.new) }
{
    let mut session = Retargeter::new(alloc, net, tree, device)?;
    let mut piece = SureSink::new(alloc);
    put_preface(device, &mut piece)?;
    shelf.begin(name)?;
    put_steps(alloc, &mut session, steps, name, piece, shelf)
}

/// Writes the SVF of a procedure's bit steps on a network to a file, from its front (IEEE 1687-2014, PDL
/// level 0; Serial Vector Format, revision E): what [`crate::procedure::put_svf`] writes to a sink. No bit
/// step is kept, and of the text no more than one bit step's and 65,536 bytes.
///
/// The file is begun only when there is memory for a scan. The text is a function of the network, its nested
/// form, the device and the bit steps. Played clock by clock from power-up, it does the bit steps, whatever
/// the instruments do, and each round with as few scans as can be (`right`).
///
/// # Errors
///
/// - `Failed`: the shelf could not begin the file, write a piece or finish the file, and its count of failed
///   stores under this name rose.
/// - `OutOfMemory`: there was no memory for a bit step, for its plans or for their text, or the shelf had
///   none.
///
/// After a refusal the file is as before, or holds some first bytes of the text. Other files and the counts
/// of failed loads stay.
pub fn put_svf_file<'b, S: Shelf>(
    alloc: Global,
    net: &Net,
    tree: &Tree,
    device: &Device,
    steps: &mut BitSteps<'b>,
    name: &str,
    shelf: &mut S,
) -> Result<(), StoreFault>
    requires network { IsRetargetable net.now tree.now }
    requires device { IsDevice device.now }
    requires no_fault { steps.old.fault ≡ None }
    requires plannable { All (StepIsPlannable net.now tree.now) steps.old.steps }
    requires few { AreFew steps.old.steps }
    ensures text { HasScript net.now tree.now device.now steps.old.steps }
    ensures whole { OnOk result (HoldsScript net.now tree.now device.now steps.old.steps
        (S.files shelf.old) (S.files shelf.new) name.now) }
    ensures part { OnErr result (HoldsScriptPart net.now tree.now device.now steps.old.steps
        (S.files shelf.old) (S.files shelf.new) name.now) }
    ensures others { OthersStay (S.files shelf.old) (S.files shelf.new) name.now }
    ensures cause { HasCauseAt name.now (S.store_faults shelf.old)
        (S.store_faults shelf.new) result StoreFault.Failed }
    ensures loads { SameCounts (S.load_faults shelf.old) (S.load_faults shelf.new) }
    ensures right { ScriptIsRight net.now tree.now device.now steps.old.steps }
{
    planned_steps_law();
    put_script(alloc, net, tree, device, steps, name, shelf)
}
