// The bit steps of a procedure with merges, one after the other.
ghost use Rattle.std.specs.Prelude.{◌≡◌, ◌<◌, ◌+◌, ◌^◌, [], ◌∷◌, IsNone, MatchOption, OnOk, OnErr, IfErr};
ghost use Rattle.net_graph.specs.Nets.{IsNet};
ghost use Rattle.net_graph.specs.SeenSteps.{seen_step as seen_bits};
ghost use Rattle.pdl_expand.specs.Values.{seen_step};
ghost use Rattle.pdl_targets.specs.Binding.{finish};
ghost use Rattle.pdl_targets.specs.Seen.{Finishes};
ghost use Rattle.pdl_targets.specs.SeenPlaces.{places_in};
ghost use Rattle.merge_order.specs.Feeding as feeding;
ghost use Rattle.merge_order.specs.SeenFaults.{Refuses};
ghost use Rattle.merge_order.specs.SeenFeeder.{following};

use crate::fault::FeedFault;
use crate::feeding::Feed;
use net_graph::{BitStep, Net};
use net_tree::Tree;
use pdl_expand::Step;
use pdl_targets::TargetFault;
use std::alloc::Global;
use std::marker::Model;

/// Takes in the steps of a procedure and gives its bit steps (IEEE 1687-2014, PDL level 0). Those of an
/// iMerge are ready at its end, in the order of its turns; all others at once.
///
/// Contracts see the network, its nested form, the state that the steps so far lead to, and the bit steps
/// that are ready.
#[derive(Drop)]
pub struct Feeder<'a> {
    feed: Feed<'a>,
}

impl<'a> Model for Feeder<'a> {
    ghost use Rattle.std.specs.Coded.{codes};
    ghost use Rattle.net_tree.specs.FormCode.{form_code};
    ghost use Rattle.merge_order.specs.SeenFeeder.{AFeeder, HasItsTree, seen_feed};

    ghost Value = { AFeeder };

    ghost coded = { Prim.hlevel (codes, form_code) };

    ghost view = { λ f. seen_feed f.feed };

    ghost invariant = { λ f. HasItsTree f.feed };
}

impl<'a> Feeder<'a> {
    /// No step yet, on a network that is well formed, and whose nested form the tree is. Takes no memory.
    pub fn new(alloc: Global, net: &'a Net, tree: &'a Tree) -> Self
        requires { IsNet net.now }
        ensures { result ≡ record { net = net.now; form = tree.now; state = feeding.begin; ready = [] } }
    {
        Feeder {
            feed: Feed::new(alloc, net, tree),
        }
    }

    /// Takes in a step. Its bit step, if it has one, is ready at once, or at the end of the iMerge around it.
    /// After a refusal, also for want of memory, all is as it was. The iReads that were taken in, with this
    /// step, are fewer than 2^32. The limits of rounds and run cycles count the steps as they are taken in,
    /// before their order is changed.
    ///
    /// # Errors
    ///
    /// The first of these: [`FeedFault::MergeInside`] exactly at an `iMerge -begin` within an iMerge;
    /// [`FeedFault::MergeReset`] exactly at an iReset within one; [`FeedFault::Target`] with `Unapplied`
    /// exactly where an iWrite or an iRead before of an iMerge, or in a branch of one, has no iApply after it
    /// there; then those of `Binder::feed`.
    pub fn feed(&mut self, step: &Step) -> Result<(), FeedFault>
        requires { self.old.state.queue.asked + 1 < 2 ^ 32 }
        ensures given { OnOk result (following self.old.ready (feeding.feed self.old.net (places_in
            self.old.form) self.old.state (seen_step step.now)) ≡ feeding.Is self.new.state self.new.ready) }
        ensures refused { IfErr result (Refuses
            (feeding.feed self.old.net (places_in self.old.form) self.old.state (seen_step step.now))) }
        ensures stays { OnErr result (self.new ≡ self.old) }
        ensures net { self.new.net ≡ self.old.net }
        ensures form { self.new.form ≡ self.old.form }
    {
        self.feed.feed(step)
    }

    /// Takes out the first bit step that is ready, or answers `None` exactly where none is. Takes no memory.
    pub fn take(&mut self) -> Option<BitStep>
        ensures given { MatchOption result (self.old.ready ≡ [])
            (λ s. self.old.ready ≡ seen_bits s ∷ self.new.ready) }
        ensures end { IsNone result → self.new.ready ≡ [] }
        ensures others { self.new ≡ record self.old { ready = self.new.ready } }
    {
        self.feed.take()
    }

    /// Ends the steps. Takes no memory.
    ///
    /// # Errors
    ///
    /// [`TargetFault::Unapplied`] exactly where an iWrite or an iRead came after the last iApply, with the
    /// place of the first.
    pub fn finish(&self) -> Result<(), TargetFault>
        ensures { Finishes (finish self.now.state.queue) result }
    {
        self.feed.finish()
    }
}
