// The bit steps of the procedure (IEEE 1687-2014, PDL level 0).
ghost use Rattle.std.specs.Prelude.{◌≡◌, ◌<◌, ◌^◌, ◌∷◌, [], Some, None, OnOk, codes, length};
ghost use Rattle.std.specs.Option.{option_map};
ghost use Rattle.merge_order.specs.BitSteps.{bit_steps};
ghost use Rattle.merge_order.specs.Seen.{expand_fault, feed_fault};
ghost use Rattle.ij_text.specs.Numbering.{AreDistinct};
ghost use Rattle.net_graph.specs.Nets.{IsNet};
ghost use Rattle.pdl_parser.specs.Grammar.{full_names};
ghost use Rattle.pdl_parser.specs.Views.{seen_procs};
ghost use Rattle.pdl_targets.specs.Seen.{fault_of as target_fault};
ghost use Rattle.ijtag_stages.specs.Elaborated.{which_name};
ghost use Rattle.ijtag_stages.specs.Follows.{Follows, IsToldAs};
ghost use Rattle.ijtag_stages.specs.NetNames.{bit_arg};
ghost use Rattle.ijtag_stages.specs.Procedure.{procedure, expand_refusal, fault_of, feed_refusal};
ghost use Rattle.ijtag_stages.specs.Procedure.{target_refusal, step_refusal};
ghost use Rattle.ijtag_stages.specs.Refusals.{At, Num, Said};

use crate::elab::which_name;
use crate::net_names::bit_arg;
use crate::network::Network;
use crate::refusal::{
    Arg, Stage, StageFault, refused_at, refused_three, refused_two, refused_word,
};
use ij_text::{Place, Which, name_of};
use merge_order::{FeedFault, StepFault, check};
use net_graph::{BitId, Net};
use pdl_expand::ExpandFault;
use pdl_parser::Procs;
use pdl_targets::TargetFault;
use std::alloc::Global;

/// How a fault of calls and prefixes is reported.
fn refusal_of_expand(alloc: Global, fault: ExpandFault) -> StageFault
    ensures { IsToldAs (option_map expand_refusal (expand_fault fault)) result }
{
    match fault {
        ExpandFault::NoProc { at, name } => refused_word(alloc, Stage::Pdl, b"NoProc", at, name),
        ExpandFault::ArgCount { at } => refused_at(alloc, Stage::Pdl, b"ArgCount", at),
        ExpandFault::TooManySteps { at } => refused_at(alloc, Stage::Pdl, b"TooManySteps", at),
        ExpandFault::NoName { at, name } => refused_word(alloc, Stage::Pdl, b"NoName", at, name),
        ExpandFault::CallDepth { at } => refused_at(alloc, Stage::Pdl, b"CallDepth", at),
        ExpandFault::OutOfMemory => StageFault::OutOfMemory,
    }
}

/// A refusal of a step at a register bit.
fn refusal_of_bit(alloc: Global, net: &Net, at: Place, bit: BitId) -> StageFault
    ensures { IsToldAs (Some (record {
      stage = Stage.Pdl;
      kind = codes "SelectTarget";
      args = At at ∷ bit_arg net.now bit ∷ [];
    })) result }
{
    match bit_arg(alloc, net, bit) {
        Ok(arg) => refused_two(alloc, Stage::Pdl, b"SelectTarget", Arg::At(at), arg),
        Err(_) => StageFault::OutOfMemory,
    }
}

/// A refusal of a step at a limit.
fn refusal_of_limit(alloc: Global, at: Place, which: Which, number: u64) -> StageFault
    ensures { IsToldAs (Some (record {
      stage = Stage.Pdl;
      kind = codes "Limit";
      args = At at ∷ Said (which_name which) ∷ Num number ∷ [];
    })) result }
{
    match name_of(alloc, which_name(which)) {
        Ok(name) => refused_three(
            alloc,
            Stage::Pdl,
            b"Limit",
            Arg::At(at),
            Arg::Said(name),
            Arg::Num(number),
        ),
        Err(_) => StageFault::OutOfMemory,
    }
}

/// How a fault of targets is reported.
fn refusal_of_target(alloc: Global, net: &Net, fault: TargetFault) -> StageFault
    ensures { IsToldAs (option_map (target_refusal net.now) (target_fault fault)) result }
{
    match fault {
        TargetFault::NoTarget { at } => refused_at(alloc, Stage::Pdl, b"NoTarget", at),
        TargetFault::NoValue { at } => refused_at(alloc, Stage::Pdl, b"NoValue", at),
        TargetFault::ValueWide { at } => refused_at(alloc, Stage::Pdl, b"ValueWide", at),
        TargetFault::NotWritable { at } => refused_at(alloc, Stage::Pdl, b"NotWritable", at),
        TargetFault::NotReadable { at } => refused_at(alloc, Stage::Pdl, b"NotReadable", at),
        TargetFault::SelectTarget { at, bit } => refusal_of_bit(alloc, net, at, bit),
        TargetFault::BadCount { at } => refused_at(alloc, Stage::Pdl, b"BadCount", at),
        TargetFault::Limit { at, which, number } => refusal_of_limit(alloc, at, which, number),
        TargetFault::Unapplied { at } => refused_at(alloc, Stage::Pdl, b"Unapplied", at),
        TargetFault::OutOfMemory => StageFault::OutOfMemory,
    }
}

/// How a fault of a step is reported.
fn refusal_of_feed(alloc: Global, net: &Net, fault: FeedFault) -> StageFault
    ensures { IsToldAs (option_map (feed_refusal net.now) (feed_fault fault)) result }
{
    match fault {
        FeedFault::MergeInside { at } => refused_at(alloc, Stage::Pdl, b"MergeInside", at),
        FeedFault::MergeReset { at } => refused_at(alloc, Stage::Pdl, b"MergeReset", at),
        FeedFault::Target(fault) => refusal_of_target(alloc, net, fault),
        FeedFault::OutOfMemory => StageFault::OutOfMemory,
    }
}

/// How a fault of a procedure is reported.
fn refusal_of(alloc: Global, net: &Net, fault: StepFault) -> StageFault
    ensures { IsToldAs (option_map (step_refusal net.now) (fault_of fault)) result }
{
    match fault {
        StepFault::Expand(fault) => refusal_of_expand(alloc, fault),
        StepFault::Feed(fault) => refusal_of_feed(alloc, net, fault),
        StepFault::OutOfMemory => StageFault::OutOfMemory,
    }
}

/// Follows the procedure of this name to its end, and keeps none of its bit steps. Where it doesn't come to
/// its end, the fault says where and why.
#[tactic(auto, unfolding(crate::specs::Procedure::procedure))]
pub fn check_procedure(
    alloc: Global,
    procs: &Procs,
    network: &Network,
    name: &str,
) -> Result<(), StageFault>
    requires net { IsNet network.now.net }
    requires distinct { AreDistinct (full_names (seen_procs procs.now)) }
    requires few { length procs.now.procs.items < 2 ^ 32 }
    ensures follows { Follows (procedure (seen_procs procs.now) network.now name.now)
        (λ _. (bit_steps (seen_procs procs.now) network.now.net network.now.form name.now).steps) result }
    ensures ends { OnOk result
        ((bit_steps (seen_procs procs.now) network.now.net network.now.form name.now).fault ≡ None) }
{
    match check(
        alloc,
        procs.procs.as_slice(),
        &network.net,
        &network.form,
        name.as_bytes(),
    ) {
        Ok(()) => Ok(()),
        Err(fault) => Err(refusal_of(alloc, &network.net, fault)),
    }
}
