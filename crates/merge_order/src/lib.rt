//! The bit steps of a procedure of a network, one after the other (IEEE 1687-2014, PDL level 0): its calls
//! are replaced by what they do, targets are bound to register bits, and the branches of an iMerge advance
//! turn by turn, where what their iApplys do in one turn is joined where it can be.
//!
//! The laws at the end say what the branches of an iMerge keep in it.
#![tactic(auto)]

ghost use Rattle.merge_order.specs.MergeLaws.{InstrumentsSeeTheirBranch, MergesDoEachBranch, MergesHaveTurns};
ghost use Rattle.merge_order.specs.MergeLaws.{ReadsOfOneStay, WritesOfOneStay};

mod around;
mod bit_sets;
mod checking;
mod copies;
mod fault;
mod feeder;
mod feeding;
mod joining;
mod laws;
mod named;
mod next;
mod progress;
mod step_fault;
mod step_laws;
mod steps;
mod turns;

pub use checking::check;
pub use fault::FeedFault;
pub use feeder::Feeder;
pub use laws::{
    fed_steps_are_few, fed_steps_are_of_the_network, merges_add_no_work, merges_are_of_the_network,
    merges_do_their_branches, merges_of_one_branch, steps_without_merges_are_bound,
};
pub use next::next_step;
pub use step_fault::StepFault;
pub use step_laws::{bit_steps_are_bound, bit_steps_are_few, bit_steps_are_of_the_network};
pub use steps::BitSteps;
pub use turns::merged;

/// The law of branches: it carries no code, its clauses say what is proved of a merge of bit steps (IEEE
/// 1687-2014, PDL level 0: iMerge).
///
/// - `turns`: whatever steps are taken in, the branches of a merge have iApplys and runs of a clock or more,
///   and no reset: so what follows holds of each of them.
/// - `each`: a merge does each bit step of a branch by one of its own, one after the other: an iApply with
///   all its writes and reads, round by round, and a run with at least its clocks.
/// - `writes`: what one branch alone writes, such as a bit that no other branch names, is written in the
///   merge as often, in the same order and with the same values.
/// - `reads`: and what one branch alone reads is read so.
pub fn branches_keep_their_order()
    ensures turns { MergesHaveTurns }
    ensures each { MergesDoEachBranch }
    ensures writes { WritesOfOneStay }
    ensures reads { ReadsOfOneStay }
{}

/// The law of instruments at a merge: where no other branch writes a register bit that feeds an instrument's
/// inputs, the instrument has, in order and with the numbers at its inputs, the change events that this
/// branch alone would give it, from whatever state the merge begins in. It may have more run cycles (IEEE
/// 1687-2014, PDL level 0: iMerge; hardware rules: instruments).
pub fn instruments_see_their_branch()
    ensures { InstrumentsSeeTheirBranch }
{}
