// Whether a procedure has a fault.
ghost use Rattle.std.specs.Prelude.{◌≡◌, ◌<◌, ◌^◌, None, IfOk, IfErr, length, map};
ghost use Rattle.ij_text.specs.Numbering.{AreDistinct};
ghost use Rattle.net_graph.specs.Nets.{IsNet};
ghost use Rattle.pdl_parser.specs.Grammar.{full_names};
ghost use Rattle.pdl_parser.specs.Views.{seen_proc};
ghost use Rattle.merge_order.specs.BitSteps.{bit_steps};
ghost use Rattle.merge_order.specs.Seen.{EndsIn};

use crate::step_fault::StepFault;
use crate::steps::BitSteps;
use net_graph::Net;
use net_tree::Tree;
use pdl_parser::Proc;
use std::alloc::Global;

/// Goes through the bit steps that are left and keeps none.
#[tactic(auto, using(crate::proofs::StepRefusing::refused_ends))]
fn drain_steps(steps: &mut BitSteps) -> Result<(), StepFault>
    ensures passes { IfOk result (λ u. steps.old.fault ≡ None) }
    ensures refused { IfErr result (EndsIn steps.old.fault) }
{
    while let Some(_step) = steps.next()? {}
    Ok(())
}

/// Goes through the bit steps of a procedure of the top module and keeps none. The conditions are those of
/// [`BitSteps::new`].
///
/// # Errors
///
/// The fault in which the bit steps end, exactly where they do; or want of memory.
#[tactic(auto, using(crate::proofs::StepRefusing::refused_ends))]
pub fn check(
    alloc: Global,
    procs: &[Proc],
    net: &Net,
    tree: &Tree,
    name: &[u8],
) -> Result<(), StepFault>
    requires procs { AreDistinct (full_names (map seen_proc procs.now)) }
    requires few_procs { length procs.now < 2 ^ 32 }
    requires net { IsNet net.now }
    ensures passes { IfOk result
        (λ u. (bit_steps (map seen_proc procs.now) net.now tree.now name.now).fault ≡ None) }
    ensures refused { IfErr result
        (EndsIn (bit_steps (map seen_proc procs.now) net.now tree.now name.now).fault) }
{
    let mut steps = BitSteps::new(alloc, procs, net, tree, name)?;
    let passed = drain_steps(&mut steps);
    // What is let go of is let go of by a call: the prover goes through its parts once.
    drop(steps);
    passed
}
