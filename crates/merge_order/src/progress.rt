// How far a procedure has come.
ghost use Rattle.std.specs.Prelude.{◌≡◌, ◌<◌, ◌≤◌, ◌+◌, ◌^◌, [], Some, None, MatchOption, IsNone, IfOk};
ghost use Rattle.std.specs.Prelude.{IfErr, OnOk, OnErr, length, map};
ghost use Rattle.ij_text.specs.Numbering.{AreDistinct};
ghost use Rattle.net_graph.specs.Nets.{IsNet};
ghost use Rattle.net_graph.specs.SeenSteps as bits;
ghost use Rattle.pdl_expand.specs.SeenSteps.{RefusesLeft, given_first, nothing_left as no_step};
ghost use Rattle.pdl_expand.specs.Values.{seen_step};
ghost use Rattle.pdl_parser.specs.Grammar.{full_names};
ghost use Rattle.pdl_parser.specs.Views.{seen_proc};
ghost use Rattle.merge_order.specs.BitSteps.{bit_steps, given_first_bit, nothing_left};
ghost use Rattle.merge_order.specs.Seen.{Refuses, of_feed};
ghost use Rattle.merge_order.specs.SeenProgress.{StepsLeft, IsUnderWay, Moves, bits_after, left_of};
ghost use Rattle.merge_order.specs.SeenProgress.{with_pending};

use crate::fault::FeedFault;
use crate::feeder::Feeder;
use crate::step_fault::StepFault;
use net_graph::{BitStep, Net};
use net_tree::Tree;
use pdl_expand::{ExpandFault, Step, Steps};
use pdl_parser::Proc;
use std::alloc::Global;

/// What one move of a procedure comes to.
#[derive(Drop)]
pub(crate) enum Move {
    /// A step was taken in.
    Went,
    /// To the end.
    Ended,
}

/// How far a procedure has come: the steps that are left, and what came of those that were taken in.
#[derive(Drop)]
pub(crate) struct Progress<'a> {
    pub steps: Steps<'a>,
    pub feeder: Feeder<'a>,
    /// A step that was given and isn't taken in yet: it was refused, or memory ran out.
    pub pending: Option<Step>,
}

/// A procedure of the top module at its begin.
pub(crate) fn begun<'a>(
    alloc: Global,
    procs: &'a [Proc],
    net: &'a Net,
    tree: &'a Tree,
    name: &[u8],
) -> Result<Progress<'a>, StepFault>
    requires procs { AreDistinct (full_names (map seen_proc procs.now)) }
    requires few_procs { length procs.now < 2 ^ 32 }
    requires net { IsNet net.now }
    ensures under_way { IfOk result IsUnderWay }
    ensures given { IfOk result
        (λ p. left_of p ≡ bit_steps (map seen_proc procs.now) net.now tree.now name.now) }
    ensures refused { IfErr result (Refuses (bit_steps (map seen_proc procs.now) net.now tree.now name.now)) }
{
    let steps = Steps::new(alloc, procs, net, name)?;
    Ok(Progress {
        steps,
        feeder: Feeder::new(alloc, net, tree),
        pending: None,
    })
}

/// Takes out the next step that isn't taken in, or `None` at the end.
fn take<'a>(steps: &mut Steps<'a>, pending: &mut Option<Step>) -> Result<Option<Step>, ExpandFault>
    ensures taken { IfOk result (λ o. MatchOption o (with_pending pending.old steps.old ≡ no_step)
        (λ s. with_pending pending.old steps.old ≡ given_first (seen_step s) steps.new)) }
    ensures end { IfOk result (λ o. IsNone o → steps.new ≡ no_step) }
    ensures none { OnOk result (pending.new ≡ None) }
    ensures refused { IfErr result (RefusesLeft (with_pending pending.old steps.old)) }
    ensures stays { OnErr result (with_pending pending.new steps.new ≡ with_pending pending.old steps.old) }
{
    match pending.take() {
        Some(step) => Ok(Some(step)),
        None => steps.next(),
    }
}

/// Hands a step that was taken out to the feeder, where no bit step is ready. Where the step is refused it is
/// pending again.
fn feed<'a>(
    feeder: &mut Feeder<'a>,
    pending: &mut Option<Step>,
    step: Step,
) -> Result<(), FeedFault>
    requires few { feeder.old.state.queue.asked + 1 < 2 ^ 32 }
    requires none_ready { feeder.old.ready ≡ [] }
    ensures given { OnOk result ((more : StepsLeft)
        → bits_after feeder.old (given_first (seen_step step) more) ≡ bits_after feeder.new more) }
    ensures asked { OnOk result (feeder.new.state.queue.asked ≤ feeder.old.state.queue.asked + 1) }
    ensures none { OnOk result (pending.new ≡ pending.old) }
    ensures refused { IfErr result (λ e. (more : StepsLeft)
        → Refuses (bits_after feeder.old (given_first (seen_step step) more)) (of_feed e)) }
    ensures kept { OnErr result (pending.new ≡ Some step) }
    ensures stays { OnErr result (feeder.new ≡ feeder.old) }
{
    match feeder.feed(&step) {
        Ok(()) => {
            drop(step);
            Ok(())
        }
        Err(fault) => {
            drop(pending.replace(step));
            Err(fault)
        }
    }
}

impl<'a> Progress<'a> {
    /// Takes in a step, where no bit step is ready.
    fn advance(&mut self) -> Result<Move, StepFault>
        requires under_way { IsUnderWay self.old }
        requires none_ready { self.old.feeder.ready ≡ [] }
        ensures under_way { IsUnderWay self.new }
        ensures moves { IfOk result (Moves self.old self.new) }
        ensures refused { IfErr result (Refuses (left_of self.old)) }
        ensures stays { OnErr result (left_of self.new ≡ left_of self.old) }
    {
        match take(&mut self.steps, &mut self.pending)? {
            Some(step) => {
                feed(&mut self.feeder, &mut self.pending, step)?;
                Ok(Move::Went)
            }
            None => {
                self.feeder.finish()?;
                Ok(Move::Ended)
            }
        }
    }

    /// The next bit step, or `None` at the end.
    pub fn next(&mut self) -> Result<Option<BitStep>, StepFault>
        requires { IsUnderWay self.old }
        ensures under_way { IsUnderWay self.new }
        ensures given { IfOk result (λ o. MatchOption o (left_of self.old ≡ nothing_left)
            (λ s. left_of self.old ≡ given_first_bit (bits.seen_step s) (left_of self.new))) }
        ensures end { IfOk result (λ o. IsNone o → left_of self.new ≡ nothing_left) }
        ensures refused { IfErr result (Refuses (left_of self.old)) }
        ensures stays { OnErr result (left_of self.new ≡ left_of self.old) }
    {
        loop {
            if let Some(step) = self.feeder.take() {
                return Ok(Some(step));
            }
            match self.advance()? {
                Move::Went => {}
                Move::Ended => return Ok(None),
            }
        }
    }
}
