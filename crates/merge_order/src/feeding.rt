// What was taken in, and what is ready.
ghost use Rattle.std.specs.Prelude.{◌≡◌, ◌<◌, ◌+◌, ◌^◌, [], ◌∷◌, IsNone, Some, None, MatchOption, OnOk};
ghost use Rattle.std.specs.Prelude.{OnErr, IfErr};
ghost use Rattle.net_graph.specs.Nets.{IsNet};
ghost use Rattle.net_graph.specs.SeenSteps.{seen_step as seen_bits};
ghost use Rattle.pdl_expand.specs.Values.{seen_step};
ghost use Rattle.pdl_targets.specs.Binding.{feed as bound, finish};
ghost use Rattle.pdl_targets.specs.Seen.{Finishes};
ghost use Rattle.pdl_targets.specs.SeenPlaces.{places_in};
ghost use Rattle.merge_order.specs.Feeding as feeding;
ghost use Rattle.merge_order.specs.SeenFaults.{Refuses};
ghost use Rattle.merge_order.specs.SeenFeeder.{Feeds, HasItsTree, following, seen_begun, seen_feed};
ghost use Rattle.merge_order.specs.SeenTurns.{seen_steps};

use crate::fault::FeedFault;
use crate::named::Named;
use crate::turns::merged_by;
use ij_bits::{Buffer, List, OutOfMemory};
use ij_text::Place;
use net_graph::{BitStep, Net};
use net_tree::Tree;
use pdl_expand::{Action, Step};
use pdl_targets::{Binder, TargetFault};
use std::alloc::Global;
use std::collections::VecDeque;
use std::mem::replace;

/// A merge that is begun.
#[derive(Drop)]
pub(crate) struct Begun {
    /// The bit steps of each branch that has ended.
    pub branches: Buffer<List<BitStep>>,
    /// The bit steps of the next branch.
    pub next: Buffer<BitStep>,
}

impl Begun {
    /// A merge without a branch. Takes no memory.
    fn new(alloc: Global) -> Self
        ensures { seen_begun result ≡ record { branches = []; next = [] } }
    {
        Begun {
            branches: Buffer::new(alloc),
            next: Buffer::new(alloc),
        }
    }

    /// Ends a branch. After want of memory all is as before.
    fn end_branch(&mut self, alloc: Global) -> Result<(), OutOfMemory>
        ensures ok { OnOk result (seen_begun self.new ≡ feeding.branch_ended (seen_begun self.old)) }
        ensures err { OnErr result (seen_begun self.new ≡ seen_begun self.old) }
    {
        self.branches.reserve(1)?;
        let branch = replace(&mut self.next, Buffer::new(alloc));
        self.branches.push_reserved(branch.into_list());
        Ok(())
    }

    /// Binds a step, whose bit step waits for the end of the merge.
    fn bind(&mut self, binder: &mut Binder, step: &Step) -> Result<(), FeedFault>
        requires { binder.old.queue.asked + 1 < 2 ^ 32 }
        ensures given { OnOk result (feeding.answered (Some (seen_begun self.old))
            (bound binder.old.net (places_in binder.old.form) binder.old.queue (seen_step step.now))
            ≡ feeding.Is (record { queue = binder.new.queue; merging = Some (seen_begun self.new) }) []) }
        ensures refused { IfErr result (Refuses (feeding.answered (Some (seen_begun self.old))
            (bound binder.old.net (places_in binder.old.form) binder.old.queue (seen_step step.now)))) }
        ensures queue { OnErr result (binder.new.queue ≡ binder.old.queue) }
        ensures stays { OnErr result (seen_begun self.new ≡ seen_begun self.old) }
        ensures net { binder.new.net ≡ binder.old.net }
        ensures form { binder.new.form ≡ binder.old.form }
    {
        self.next.reserve(1)?;
        if let Some(given) = binder.feed(step)? {
            self.next.push_reserved(given);
        }
        Ok(())
    }
}

/// Binds a step, whose bit step is ready at once.
fn bind(binder: &mut Binder, ready: &mut VecDeque<BitStep>, step: &Step) -> Result<(), FeedFault>
    requires { binder.old.queue.asked + 1 < 2 ^ 32 }
    ensures given { OnOk result (following (seen_steps ready.old.items) (feeding.answered None
        (bound binder.old.net (places_in binder.old.form) binder.old.queue (seen_step step.now)))
        ≡ feeding.Is (record { queue = binder.new.queue; merging = None }) (seen_steps ready.new.items)) }
    ensures refused { IfErr result (Refuses (feeding.answered None
        (bound binder.old.net (places_in binder.old.form) binder.old.queue (seen_step step.now)))) }
    ensures queue { OnErr result (binder.new.queue ≡ binder.old.queue) }
    ensures stays { OnErr result (seen_steps ready.new.items ≡ seen_steps ready.old.items) }
    ensures net { binder.new.net ≡ binder.old.net }
    ensures form { binder.new.form ≡ binder.old.form }
{
    ready.reserve(1)?;
    if let Some(given) = binder.feed(step)? {
        ready.push_back_reserved(given);
    }
    Ok(())
}

/// The bit steps of a procedure with merges.
#[derive(Drop)]
pub(crate) struct Feed<'a> {
    pub alloc: Global,
    pub tree: &'a Tree,
    pub binder: Binder<'a>,
    /// The merge that is begun, if one is.
    pub merging: Option<Begun>,
    /// The tables by which the iApplys of a turn are joined. They are kept from one merge to the next, so
    /// that a merge costs what it names.
    pub named: Named,
    /// The bit steps that are ready, in order.
    pub ready: VecDeque<BitStep>,
}

impl<'a> Feed<'a> {
    /// Nothing yet. Takes no memory.
    pub fn new(alloc: Global, net: &'a Net, tree: &'a Tree) -> Self
        requires { IsNet net.now }
        ensures begin { seen_feed result
            ≡ record { net = net.now; form = tree.now; state = feeding.begin; ready = [] } }
        ensures tree { HasItsTree result }
    {
        Feed {
            alloc,
            tree,
            binder: Binder::new(alloc, net, tree),
            merging: None,
            named: Named::new(alloc),
            ready: VecDeque::new(alloc),
        }
    }

    /// Begins a merge. Takes no memory.
    fn begin_merge(&mut self, at: Place) -> Result<(), FeedFault>
        requires tree { HasItsTree self.old }
        ensures answer { Feeds (feeding.begin_merge at (seen_feed self.old).state)
            (seen_feed self.old) (seen_feed self.new) result }
        ensures stays { OnErr result (seen_feed self.new ≡ seen_feed self.old) }
        ensures net { self.new.binder.net ≡ self.old.binder.net }
        ensures form { self.new.binder.form ≡ self.old.binder.form }
        ensures tree { HasItsTree self.new }
    {
        match self.merging {
            Some(_) => Err(FeedFault::MergeInside { at }),
            None => {
                self.binder.finish()?;
                drop(self.merging.replace(Begun::new(self.alloc)));
                Ok(())
            }
        }
    }

    /// Ends a branch of a merge.
    fn end_branch(&mut self) -> Result<(), FeedFault>
        requires tree { HasItsTree self.old }
        ensures answer { Feeds (feeding.end_branch (seen_feed self.old).state)
            (seen_feed self.old) (seen_feed self.new) result }
        ensures stays { OnErr result (seen_feed self.new ≡ seen_feed self.old) }
        ensures net { self.new.binder.net ≡ self.old.binder.net }
        ensures form { self.new.binder.form ≡ self.old.binder.form }
        ensures tree { HasItsTree self.new }
    {
        match &mut self.merging {
            None => Ok(()),
            Some(begun) => {
                self.binder.finish()?;
                begun.end_branch(self.alloc)?;
                Ok(())
            }
        }
    }

    /// Ends a merge, whose bit steps are ready then.
    fn end_merge(&mut self) -> Result<(), OutOfMemory>
        requires tree { HasItsTree self.old }
        ensures ready { OnOk result (following (seen_feed self.old).ready
            (feeding.end_merge (places_in self.old.binder.form) (seen_feed self.old).state)
            ≡ feeding.Is (seen_feed self.new).state (seen_feed self.new).ready) }
        ensures stays { OnErr result (seen_feed self.new ≡ seen_feed self.old) }
        ensures net { self.new.binder.net ≡ self.old.binder.net }
        ensures form { self.new.binder.form ≡ self.old.binder.form }
        ensures tree { HasItsTree self.new }
    {
        if let Some(begun) = &self.merging {
            let steps = merged_by(
                self.alloc,
                self.tree,
                &mut self.named,
                begun.branches.as_slice(),
            )?;
            let mut steps = VecDeque::from(steps.into_vec());
            self.ready.append(&mut steps)?;
            drop(self.merging.take());
        }
        Ok(())
    }

    /// Takes in an iReset.
    fn reset(&mut self, step: &Step) -> Result<(), FeedFault>
        requires tree { HasItsTree self.old }
        requires few { self.old.binder.queue.asked + 1 < 2 ^ 32 }
        ensures answer { Feeds (feeding.reset self.old.binder.net (places_in self.old.binder.form) (seen_feed
            self.old).state (seen_step step.now)) (seen_feed self.old) (seen_feed self.new) result }
        ensures stays { OnErr result (seen_feed self.new ≡ seen_feed self.old) }
        ensures net { self.new.binder.net ≡ self.old.binder.net }
        ensures form { self.new.binder.form ≡ self.old.binder.form }
        ensures tree { HasItsTree self.new }
    {
        match self.merging {
            Some(_) => Err(FeedFault::MergeReset { at: step.at }),
            None => bind(&mut self.binder, &mut self.ready, step),
        }
    }

    /// Takes in a step that is bound to register bits.
    fn bind(&mut self, step: &Step) -> Result<(), FeedFault>
        requires tree { HasItsTree self.old }
        requires few { self.old.binder.queue.asked + 1 < 2 ^ 32 }
        ensures answer { Feeds (feeding.bind_step self.old.binder.net (places_in self.old.binder.form)
            (seen_feed self.old).state (seen_step step.now))
            (seen_feed self.old) (seen_feed self.new) result }
        ensures stays { OnErr result (seen_feed self.new ≡ seen_feed self.old) }
        ensures net { self.new.binder.net ≡ self.old.binder.net }
        ensures form { self.new.binder.form ≡ self.old.binder.form }
        ensures tree { HasItsTree self.new }
    {
        match &mut self.merging {
            Some(begun) => begun.bind(&mut self.binder, step),
            None => bind(&mut self.binder, &mut self.ready, step),
        }
    }

    /// Takes in a step. After a refusal all is as before.
    pub fn feed(&mut self, step: &Step) -> Result<(), FeedFault>
        requires tree { HasItsTree self.old }
        requires few { self.old.binder.queue.asked + 1 < 2 ^ 32 }
        ensures answer { Feeds (feeding.feed self.old.binder.net (places_in self.old.binder.form) (seen_feed
            self.old).state (seen_step step.now)) (seen_feed self.old) (seen_feed self.new) result }
        ensures stays { OnErr result (seen_feed self.new ≡ seen_feed self.old) }
        ensures net { self.new.binder.net ≡ self.old.binder.net }
        ensures form { self.new.binder.form ≡ self.old.binder.form }
        ensures tree { HasItsTree self.new }
    {
        match &step.what {
            Action::MergeBegin => self.begin_merge(step.at),
            Action::BranchEnd => self.end_branch(),
            Action::MergeEnd => Ok(self.end_merge()?),
            Action::Reset => self.reset(step),
            _ => self.bind(step),
        }
    }

    /// Takes out the first bit step that is ready.
    pub fn take(&mut self) -> Option<BitStep>
        requires { HasItsTree self.old }
        ensures given { MatchOption result (seen_steps self.old.ready.items ≡ [])
            (λ s. seen_steps self.old.ready.items ≡ seen_bits s ∷ seen_steps self.new.ready.items) }
        ensures others { seen_feed self.new
            ≡ record (seen_feed self.old) { ready = (seen_feed self.new).ready } }
        ensures end { IsNone result → seen_steps self.new.ready.items ≡ [] }
        ensures tree { HasItsTree self.new }
    {
        self.ready.pop_front()
    }

    /// Ends the steps.
    pub fn finish(&self) -> Result<(), TargetFault>
        ensures { Finishes (finish self.now.binder.queue) result }
    {
        self.binder.finish()
    }
}
