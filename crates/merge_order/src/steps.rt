// The bit steps of a procedure, one after the other.
ghost use Rattle.std.specs.Prelude.{◌≡◌, ◌<◌, ◌^◌, MatchOption, IsNone, IfOk, IfErr, OnErr, length, map};
ghost use Rattle.ij_text.specs.Numbering.{AreDistinct};
ghost use Rattle.net_graph.specs.Nets.{IsNet};
ghost use Rattle.net_graph.specs.SeenSteps.{seen_step};
ghost use Rattle.pdl_parser.specs.Grammar.{full_names};
ghost use Rattle.pdl_parser.specs.Views.{seen_proc};
ghost use Rattle.merge_order.specs.BitSteps.{bit_steps, given_first_bit, nothing_left};
ghost use Rattle.merge_order.specs.Seen.{Refuses};

use crate::progress::{Progress, begun};
use crate::step_fault::StepFault;
use net_graph::{BitStep, Net};
use net_tree::Tree;
use pdl_parser::Proc;
use std::alloc::Global;
use std::marker::Model;

/// The bit steps of a procedure of the top module, one after the other (IEEE 1687-2014, PDL level 0).
///
/// Contracts see what is left: the `steps` up to the end of the procedure or up to the `fault` in which they
/// end. The fault of a step comes before that of a later command, and a missing iApply comes only at the end
/// of the procedure.
pub struct BitSteps<'a> {
    progress: Progress<'a>,
}

impl<'a> Model for BitSteps<'a> {
    ghost use Rattle.merge_order.specs.BitSteps.{BitStepsOf};
    ghost use Rattle.merge_order.specs.SeenProgress.{IsUnderWay, left_of};

    ghost Value = { BitStepsOf };

    ghost view = { λ b. left_of b.progress };

    ghost invariant = { λ b. IsUnderWay b.progress };
}

/// Written out, so that a crate that drops bit steps calls this, and doesn't prove the drop of each part of
/// them again.
impl Drop for BitSteps<'_> {
    fn drop(self) {
        let BitSteps { progress: _ } = self;
    }
}

impl<'a> BitSteps<'a> {
    /// The bit steps of a procedure of the top module, which is that of the net's first cell. The net is well
    /// formed, the tree is its nested form, and no two procedures of one module have one name.
    ///
    /// # Errors
    ///
    /// The fault of a procedure that can't begin: [`StepFault::Expand`] with `NoProc` where it isn't there,
    /// and with `ArgCount` where it has arguments, at line 0.
    pub fn new(
        alloc: Global,
        procs: &'a [Proc],
        net: &'a Net,
        tree: &'a Tree,
        name: &[u8],
    ) -> Result<BitSteps<'a>, StepFault>
        requires procs { AreDistinct (full_names (map seen_proc procs.now)) }
        requires few_procs { length procs.now < 2 ^ 32 }
        requires net { IsNet net.now }
        ensures given { IfOk result (λ b. b ≡ bit_steps (map seen_proc procs.now) net.now tree.now name.now) }
        ensures refused { IfErr result
            (Refuses (bit_steps (map seen_proc procs.now) net.now tree.now name.now)) }
    {
        Ok(BitSteps {
            progress: begun(alloc, procs, net, tree, name)?,
        })
    }

    /// The next bit step, or `None` exactly at the end of the procedure. A fault is answered again by each
    /// later call. After want of memory the same bit steps are left.
    ///
    /// # Errors
    ///
    /// At each command, in the order in which they are executed: [`StepFault::Expand`] where the procedure
    /// can't go on (see `Steps::next`), else [`StepFault::Feed`] where the step can't be taken in (see
    /// `Feeder::feed`). At the end [`StepFault::Feed`] with the `Unapplied` of an iWrite or an iRead without
    /// an iApply after it. The bit steps of an iMerge come at its end, in the order of its turns, so before a
    /// fault inside of it none of them is given.
    pub fn next(&mut self) -> Result<Option<BitStep>, StepFault>
        ensures given { IfOk result (λ o. MatchOption o (self.old ≡ nothing_left)
            (λ s. self.old ≡ given_first_bit (seen_step s) self.new)) }
        ensures end { IfOk result (λ o. IsNone o → self.new ≡ nothing_left) }
        ensures refused { IfErr result (Refuses self.old) }
        ensures stays { OnErr result (self.new ≡ self.old) }
    {
        self.progress.next()
    }
}
