// What follows for merges.
ghost use Rattle.merge_order.specs.Laws.{FedCyclesAreFew, FedRoundsAreFew, FedRunsAreShort, FedStepsAreFew};
ghost use Rattle.merge_order.specs.Laws.{FedStepsAreOfTheNetwork, FedStepsHavePaths, MergedCyclesAreFew};
ghost use Rattle.merge_order.specs.Laws.{MergedRoundsAreFew, MergedRunsAreShort, MergedStepsAreFew};
ghost use Rattle.merge_order.specs.Laws.{MergedStepsAreOfTheNetwork, MergedStepsHavePaths};
ghost use Rattle.merge_order.specs.Laws.{MergesHaveEachRead, MergesHaveEachWrite, NoBranchDoesNothing};
ghost use Rattle.merge_order.specs.Laws.{OneBranchStays, OthersAreBound};

/// Merges of few branches (IEEE 1687-2014, PDL level 0: iMerge):
///
/// - `one`: a merge of one branch does what the branch does.
/// - `none`: a merge of no branch does nothing.
pub fn merges_of_one_branch()
    ensures one { OneBranchStays }
    ensures none { NoBranchDoesNothing }
{}

/// The bit steps of a merge in their network, where those of its branches are so:
///
/// - `steps`: each writes and reads data bits of the network, each bit once in a round.
/// - `paths`: each round of an iApply names something, and its registers can be on one path (IEEE 1687-2014,
///   ScanMux).
pub fn merges_are_of_the_network()
    ensures steps { MergedStepsAreOfTheNetwork }
    ensures paths { MergedStepsHavePaths }
{}

/// A merge does in its iApplys each write and each read of its branches, as often as they do it together.
pub fn merges_do_their_branches()
    ensures writes { MergesHaveEachWrite }
    ensures reads { MergesHaveEachRead }
{}

/// A merge asks for no more than its branches together:
///
/// - `steps`: bit steps.
/// - `rounds`: rounds of all their iApplys.
/// - `cycles`: cycles of all their iRunLoops.
/// - `runs`: no run is longer than the longest of a branch.
pub fn merges_add_no_work()
    ensures steps { MergedStepsAreFew }
    ensures rounds { MergedRoundsAreFew }
    ensures cycles { MergedCyclesAreFew }
    ensures runs { MergedRunsAreShort }
{}

/// The bit steps that become ready of the steps of a procedure, in their network:
///
/// - `steps`: each writes and reads data bits of a well formed network, each bit once in a round.
/// - `paths`: each round of an iApply names something, and its registers can be on one path (IEEE 1687-2014,
///   ScanMux).
pub fn fed_steps_are_of_the_network()
    ensures steps { FedStepsAreOfTheNetwork }
    ensures paths { FedStepsHavePaths }
{}

/// What becomes ready of the steps of a procedure without merges is what binding gives, so what holds of
/// these holds of them.
pub fn steps_without_merges_are_bound()
    ensures { OthersAreBound }
{}

/// How much the steps of a procedure with merges can ask for:
///
/// - `steps`: at most as many bit steps as there are steps.
/// - `rounds`: at most 4096 rounds of all iApplys.
/// - `cycles`: at most 4,000,000 cycles of all iRunLoops.
/// - `runs`: at most 1,000,000 cycles of one iRunLoop.
pub fn fed_steps_are_few()
    ensures steps { FedStepsAreFew }
    ensures rounds { FedRoundsAreFew }
    ensures cycles { FedCyclesAreFew }
    ensures runs { FedRunsAreShort }
{}
