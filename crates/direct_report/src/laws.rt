// What the report consists of.
ghost use Rattle.direct_report.specs.Laws.{OrderKeepsReads, ReadsAreFew, StepsComeInOrder, TheEndComesLast};

/// The report of a direct meaning, part by part:
///
/// - `steps`: it is the lines of the first step and then the report of the steps after it.
/// - `end`: with no step left it is what registers and instruments hold, and the totals.
/// - `order`: the reads of a round, put in order, are the same reads, each once.
/// - `few`: a round reads at most 4096 bits.
pub fn direct_report_law()
    ensures steps { StepsComeInOrder }
    ensures end { TheEndComesLast }
    ensures order { OrderKeepsReads }
    ensures few { ReadsAreFew }
{}
