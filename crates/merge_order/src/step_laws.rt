// What follows for the bit steps of a procedure.
ghost use Rattle.merge_order.specs.StepLaws.{StepsAreFed, StepsAreBound, BitStepsAreOfTheNetwork};
ghost use Rattle.merge_order.specs.StepLaws.{BitStepsHavePaths, BitStepsAreFew, BitRoundsAreFew};
ghost use Rattle.merge_order.specs.StepLaws.{BitCyclesAreFew, BitRunsAreShort};

/// The bit steps of a procedure (IEEE 1687-2014, PDL level 0):
///
/// - `fed`: they are what becomes ready of the steps of its expansion, those of an iMerge in the order of its
///   turns.
/// - `alone`: without an iMerge they are what binding makes of these steps.
pub fn bit_steps_are_bound()
    ensures fed { StepsAreFed }
    ensures alone { StepsAreBound }
{}

/// Bit steps in their network:
///
/// - `steps`: each one writes and reads data bits of a well formed network, each bit once in a round.
/// - `paths`: each round of an iApply names something, and its registers can be on one path (IEEE 1687-2014,
///   ScanMux).
pub fn bit_steps_are_of_the_network()
    ensures steps { BitStepsAreOfTheNetwork }
    ensures paths { BitStepsHavePaths }
{}

/// How much a procedure can ask for:
///
/// - `steps`: at most 100,000 bit steps.
/// - `rounds`: at most 4096 rounds of all its iApplys.
/// - `cycles`: at most 4,000,000 cycles of all its iRunLoops.
/// - `runs`: at most 1,000,000 cycles of one iRunLoop.
pub fn bit_steps_are_few()
    ensures steps { BitStepsAreFew }
    ensures rounds { BitRoundsAreFew }
    ensures cycles { BitCyclesAreFew }
    ensures runs { BitRunsAreShort }
{}
