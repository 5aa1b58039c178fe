// What follows for the cells of a network, and for the steps of a procedure.
ghost use Rattle.pdl_expand.specs.Laws.{PathsDiffer, StepsAreFew};

/// No two cells of a well formed network have one dotted path (IEEE 1687-2014: a path is instance names with
/// dots between them, and no name has a dot). So what a procedure names by such a path is one cell at most.
pub fn paths_differ()
    ensures { PathsDiffer }
{}

/// A procedure has at most 100,000 steps: at most this many commands are executed, and each gives one step at
/// most, an `iCall` in a merge the end of its branch.
pub fn steps_are_few()
    ensures { StepsAreFew }
{}
