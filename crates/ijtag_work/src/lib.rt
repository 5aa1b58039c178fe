//! The work of each command: the words that name it, the files that it loads, what their texts are accepted
//! as, what it leaves, and how a run of it may end. `specs/Order` has the order of work of each command, and
//! `ijtag_core` follows it. [`runs_are_meant`] says what a run of a procedure on the bench and its direct
//! meaning have in common.
#![tactic(auto)]

ghost use Rattle.ijtag_work.specs.Laws.{ComparesAreNamed, DiffersAreNamed, MeaningsAreCounted};
ghost use Rattle.ijtag_work.specs.Laws.{ReadsAreCompared, RunsDifferAlike};

mod accepted;
mod audited;
mod decided;
mod follow;
mod inputs;
mod load;
mod names;
mod number;
mod status;
mod stop;
mod words;
mod write;

pub use accepted::{Accepted, Procedure, Texts, accept};
pub use audited::own_texts_pass;
pub use decided::{texts_are_decided, works_are_decided, works_are_total};
pub use follow::steps_again;
use headline::{planned_scripts_law, planned_steps_law};
pub use inputs::{AuditWords, DirectWords, Inputs, NetworkWords, PlayWords, ProcedureWords};
pub use load::{Load, load_files};
pub use names::MadeName;
use net_bench::events_are_counted;
pub use number::read_number;
use run_report::places_are_one;
pub use status::{Status, Verdict};
pub use stop::{Stop, report};
pub use words::{
    CommandWords, CompileWords, MakeWords, MigrateWords, MuxTestWords, RunWords, read_words,
};
pub use write::write_file;

/// The law of runs: it carries no code, its clauses say what is proved of the definitions.
///
/// - `counted`: a direct meaning that counts the events of instruments is that which keeps the lists of them,
///   counted.
/// - `alike`: where bytes are the SVF of a procedure's bit steps, some compare of their play from power-up
///   differs exactly where some read of the procedure's direct meaning does, whatever the instruments are. So
///   `run` and `direct` tell a difference together.
/// - `compared`: a play of planned steps from power-up compares their reads, each at its place, with the
///   value that the direct meaning finds for it, and nothing else: see `AreComparedAt`.
/// - `named`: so each compare of this play is of one read: the one that is at its scan and position, with
///   its expectation and the value that the direct meaning finds for it: see `IsNamed`.
/// - `differs`: so it is for each compare that differs where bytes are the SVF of a procedure's bit steps, by
///   the places of any plans of these steps: `run` names the very read whose value differs.
pub fn runs_are_meant()
    ensures counted { MeaningsAreCounted }
    ensures alike { RunsDifferAlike }
    ensures compared { ReadsAreCompared }
    ensures named { ComparesAreNamed }
    ensures differs { DiffersAreNamed }
{
    events_are_counted();
    planned_scripts_law();
    planned_steps_law();
    places_are_one();
}

/// A run and the direct meaning of its procedure differ together: the clause `alike` of [`runs_are_meant`]
/// alone.
pub fn runs_differ_alike()
    ensures { RunsDifferAlike }
{
    runs_are_meant();
}
