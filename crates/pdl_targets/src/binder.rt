// Steps bound to register bits, one after the other.
ghost use Rattle.std.specs.Prelude.{◌≡◌, ◌<◌, ◌+◌, ◌^◌, Some, IfOk, IfErr, OnErr};
ghost use Rattle.std.specs.Option.{option_map, IfSome};
ghost use Rattle.net_graph.specs.Nets.{IsNet};
ghost use Rattle.net_graph.specs.SeenSteps as bit_steps;
ghost use Rattle.pdl_expand.specs.Values.{seen_step};
ghost use Rattle.pdl_parser.specs.Views.{seen_target, seen_value};
ghost use Rattle.pdl_targets.specs.Binding.{empty, feed, finish, with_reads, with_writes, nothing_done};
ghost use Rattle.pdl_targets.specs.Index.{IsIndex};
ghost use Rattle.pdl_targets.specs.Seen.{Finishes, Refuses};
ghost use Rattle.pdl_targets.specs.SeenBinder.{IsMade, queue_in};
ghost use Rattle.pdl_targets.specs.SeenGathered.{Binds, IsKept, seen_gathered};
ghost use Rattle.pdl_targets.specs.SeenPlaces.{places_in};
ghost use Rattle.pdl_targets.specs.Targets.{Is, found_then, read_bits, write_bits};

use crate::fault::TargetFault;
use crate::gather::Gathered;
use crate::index::{Index, index_of};
use crate::laws::bits_are_of_the_network;
use crate::naming::{read_bits, write_bits};
use ij_bits::OutOfMemory;
use ij_text::Place;
use net_graph::{BitStep, Net};
use net_tree::Tree;
use pdl_expand::{Action, Step};
use pdl_parser::{Target, Value};
use std::alloc::Global;
use std::marker::Model;

/// Takes in an iWrite.
fn write(
    alloc: Global,
    net: &Net,
    index: &Index,
    gathered: &mut Gathered,
    at: Place,
    node: u32,
    target: &Target,
    value: &Value,
) -> Result<Option<BitStep>, TargetFault>
    requires net { IsNet net.now }
    requires index { IsIndex net.now index.now }
    requires kept { IsKept net.now gathered.old }
    ensures answer { Binds (found_then (write_bits net.now at node (seen_target target.now)
        (seen_value value.now)) (λ ws. nothing_done (with_writes (seen_gathered gathered.old) at ws)))
        (seen_gathered gathered.new) result }
    ensures stays { OnErr result (seen_gathered gathered.new ≡ seen_gathered gathered.old) }
    ensures kept { IsKept net.now gathered.new }
{
    bits_are_of_the_network();
    let writes = write_bits(alloc, net, index, at, node, target, value)?;
    gathered.write(net, at, writes.as_slice())?;
    Ok(None)
}

/// Takes in an iRead.
fn read(
    alloc: Global,
    net: &Net,
    index: &Index,
    gathered: &mut Gathered,
    at: Place,
    node: u32,
    target: &Target,
    value: &Option<Value>,
) -> Result<Option<BitStep>, TargetFault>
    requires net { IsNet net.now }
    requires index { IsIndex net.now index.now }
    requires few { gathered.old.asked + 1 < 2 ^ 32 }
    requires kept { IsKept net.now gathered.old }
    ensures answer { Binds (found_then (read_bits net.now at node (gathered.old.asked + 1)
        (seen_target target.now) (option_map seen_value value.now)) (λ rs. nothing_done
        (with_reads (seen_gathered gathered.old) at rs))) (seen_gathered gathered.new) result }
    ensures stays { OnErr result (seen_gathered gathered.new ≡ seen_gathered gathered.old) }
    ensures kept { IsKept net.now gathered.new }
{
    bits_are_of_the_network();
    let number = gathered.asked + 1;
    let reads = read_bits(alloc, net, index, at, node, number, target, value)?;
    gathered.read(net, at, reads.as_slice())?;
    Ok(None)
}

/// What a step makes of the queue, and its bit step.
fn bind(
    alloc: Global,
    net: &Net,
    tree: &Tree,
    index: &Index,
    gathered: &mut Gathered,
    step: &Step,
) -> Result<Option<BitStep>, TargetFault>
    requires net { IsNet net.now }
    requires index { IsIndex net.now index.now }
    requires few { gathered.old.asked + 1 < 2 ^ 32 }
    requires kept { IsKept net.now gathered.old }
    ensures answer { Binds (feed net.now (places_in tree.now) (seen_gathered gathered.old)
        (seen_step step.now)) (seen_gathered gathered.new) result }
    ensures stays { OnErr result (seen_gathered gathered.new ≡ seen_gathered gathered.old) }
    ensures kept { IsKept net.now gathered.new }
{
    let at = step.at;
    let node = step.node;
    match &step.what {
        Action::Write { target, value } => write(
            alloc, net, index, gathered, at, node, target, value,
        ),
        Action::Read { target, value } => read(
            alloc, net, index, gathered, at, node, target, value,
        ),
        Action::Apply => gathered.apply(alloc, at, tree),
        Action::RunLoop(value) => gathered.run_value(at, value),
        Action::Reset => Ok(Some(BitStep::Reset)),
        Action::MergeBegin | Action::BranchEnd | Action::MergeEnd => Ok(None),
    }
}

/// What a binder has from its first step on.
#[derive(Drop)]
pub(crate) struct Made {
    pub index: Index,
    pub gathered: Gathered,
}

/// The index of a network, and nothing gathered yet.
fn made_for(alloc: Global, net: &Net) -> Result<Made, OutOfMemory>
    requires { IsNet net.now }
    ensures made { IfOk result (IsMade net.now) }
    ensures empty { IfOk result (λ m. seen_gathered m.gathered ≡ empty) }
{
    Ok(Made {
        index: index_of(alloc, net)?,
        gathered: Gathered::new(alloc, net)?,
    })
}

/// What a binder has, which is made where there is none yet.
fn made_or_new(alloc: Global, net: &Net, made: Option<Made>) -> Result<Made, OutOfMemory>
    requires net { IsNet net.now }
    requires made { IfSome made (IsMade net.now) }
    ensures made { IfOk result (IsMade net.now) }
    ensures queue { IfOk result (λ m. seen_gathered m.gathered ≡ queue_in made) }
    ensures none { OnErr result (queue_in made ≡ empty) }
{
    match made {
        Some(made) => Ok(made),
        None => made_for(alloc, net),
    }
}

/// Puts back what a binder has. What stood there is let go of here, apart from what the caller has in hand.
fn put_back(place: &mut Option<Made>, made: Made)
    ensures { place.new ≡ Some made }
{
    *place = Some(made);
}

/// Binds the steps of a procedure to single register bits (IEEE 1687-2014, PDL level 0: iWrite, iRead,
/// iApply, iRunLoop, iReset).
///
/// Contracts see the network, its nested form, and the queue: what came since the last iApply.
#[derive(Drop)]
pub struct Binder<'a> {
    alloc: Global,
    net: &'a Net,
    tree: &'a Tree,
    /// Made at the first step.
    made: Option<Made>,
}

impl<'a> Model for Binder<'a> {
    ghost use Rattle.std.specs.Option.{IfSome};
    ghost use Rattle.std.specs.Coded.{codes};
    ghost use Rattle.net_graph.specs.Nets.{IsNet};
    ghost use Rattle.net_tree.specs.FormCode.{form_code};
    ghost use Rattle.pdl_targets.specs.SeenBinder.{ABinder, IsMade, queue_in};

    ghost Value = { ABinder };

    ghost coded = { Prim.hlevel (codes, form_code) };

    ghost view = { λ b. record { net = b.net.now; form = b.tree.now; queue = queue_in b.made } };

    ghost invariant = { λ b. IsNet b.net.now × IfSome b.made (IsMade b.net.now) };
}

impl<'a> Binder<'a> {
    /// An empty queue for the steps of a procedure on a network, which is well formed, and whose nested form
    /// the tree is. Takes no memory.
    pub fn new(alloc: Global, net: &'a Net, tree: &'a Tree) -> Self
        requires { IsNet net.now }
        ensures { result ≡ record { net = net.now; form = tree.now; queue = empty } }
    {
        Binder {
            alloc,
            net,
            tree,
            made: None,
        }
    }

    /// Takes in a step. A write or a read joins the queue; an iApply gives the rounds of the queue, or `None`
    /// where it names no bit, and empties it; an iRunLoop gives its cycles, or `None` where they are 0. After
    /// a refusal the queue is as it was. The iReads that were taken in, with this step, are fewer than 2^32.
    ///
    /// # Errors
    ///
    /// At an iWrite or an iRead the first of these: [`TargetFault::NoTarget`], [`TargetFault::NoValue`],
    /// [`TargetFault::ValueWide`]; then for each bit that isn't x, from position 0 on,
    /// [`TargetFault::NotWritable`] or [`TargetFault::NotReadable`], and [`TargetFault::SelectTarget`]. At an
    /// iApply [`TargetFault::Limit`] where its rounds would be more than 4096 with those before. At an
    /// iRunLoop [`TargetFault::BadCount`], and [`TargetFault::Limit`] above 1,000,000 cycles, or above
    /// 4,000,000 with those before.
    pub fn feed(&mut self, step: &Step) -> Result<Option<BitStep>, TargetFault>
        requires { self.old.queue.asked + 1 < 2 ^ 32 }
        ensures given { IfOk result
            (λ o. feed self.old.net (places_in self.old.form) self.old.queue (seen_step step.now)
            ≡ Is (record { queue = self.new.queue; step = option_map bit_steps.seen_step o })) }
        ensures refused { IfErr result
            (Refuses (feed self.old.net (places_in self.old.form) self.old.queue (seen_step step.now))) }
        ensures stays { OnErr result (self.new.queue ≡ self.old.queue) }
        ensures net { self.new.net ≡ self.old.net }
        ensures form { self.new.form ≡ self.old.form }
    {
        let mut made = made_or_new(self.alloc, self.net, self.made.take())?;
        let answer = bind(
            self.alloc,
            self.net,
            self.tree,
            &made.index,
            &mut made.gathered,
            step,
        );
        put_back(&mut self.made, made);
        answer
    }

    /// Ends the steps. Takes no memory.
    ///
    /// # Errors
    ///
    /// [`TargetFault::Unapplied`] exactly where an iWrite or an iRead came after the last iApply, with the
    /// place of the first.
    pub fn finish(&self) -> Result<(), TargetFault>
        ensures { Finishes (finish self.now.queue) result }
    {
        match &self.made {
            Some(made) => made.gathered.finish(),
            None => Ok(()),
        }
    }
}
