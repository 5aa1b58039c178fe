// The line that tells what an audit says.
ghost use Rattle.std.specs.Prelude.{◌≡◌, OnOk, OnErr};
ghost use Rattle.svf_audit.specs.Report.{cause_name, yes_text, no_text, answer_text, is_yes};
ghost use Rattle.ij_io.specs.Bytes.{Adds, AddsPart};
ghost use Rattle.ij_io.specs.Causes.{HasCause};

use crate::answer::{Audit, Cause};
use ij_io::{Sink, StoreFault, Word, put_words};

/// How a cause is printed.
fn cause_name(cause: Cause) -> &'static [u8]
    ensures { result.now ≡ cause_name cause }
{
    match cause {
        Cause::Length => b"Length",
        Cause::Compare => b"Compare",
        Cause::Select => b"Select",
        Cause::Step => b"Step",
        Cause::Write => b"Write",
        Cause::Read => b"Read",
        Cause::Run => b"Run",
        Cause::Reset => b"Reset",
        Cause::End => b"End",
    }
}

/// Whether an audit says yes.
pub(crate) fn is_yes(answer: &Audit) -> bool
    ensures { result ≡ is_yes answer.now }
{
    match answer {
        Audit::Yes(_) => true,
        Audit::No { .. } => false,
    }
}

/// Writes the line of a yes, for this many rounds of a procedure and scans of SVF.
#[tactic(auto, unfolding(crate::specs::Report::yes_text, ij_io::specs::Words::words_text))]
fn put_yes<K: Sink>(rounds: u64, scans: u64, k: &mut K) -> Result<(), StoreFault>
    ensures whole { OnOk result (Adds (K.taken k.old) (K.taken k.new) (yes_text rounds scans)) }
    ensures part { OnErr result (AddsPart (K.taken k.old) (K.taken k.new) (yes_text rounds scans)) }
    ensures cause { HasCause (K.faults k.old) (K.faults k.new) result StoreFault.Failed }
{
    put_words(
        k,
        &[
            Word::Text(b"audit yes groups "),
            Word::Number(rounds),
            Word::Text(b" scans "),
            Word::Number(scans),
            Word::Text(b"\n"),
        ],
    )
}

/// Writes the line of a no, with the scans up to the command at fault and with it, and the cause's name.
#[tactic(auto, unfolding(crate::specs::Report::no_text, ij_io::specs::Words::words_text))]
fn put_no<'a, K: Sink>(scan: u64, cause: &'a [u8], k: &mut K) -> Result<(), StoreFault>
    ensures whole { OnOk result (Adds (K.taken k.old) (K.taken k.new) (no_text scan cause.now)) }
    ensures part { OnErr result (AddsPart (K.taken k.old) (K.taken k.new) (no_text scan cause.now)) }
    ensures cause { HasCause (K.faults k.old) (K.faults k.new) result StoreFault.Failed }
{
    put_words(
        k,
        &[
            Word::Text(b"audit no scan "),
            Word::Number(scan),
            Word::Text(b" "),
            Word::Text(cause),
            Word::Text(b"\n"),
        ],
    )
}

/// Writes the line that tells what an audit says, for this many rounds of a procedure and scans of SVF.
pub(crate) fn put_answer<K: Sink>(
    answer: &Audit,
    rounds: usize,
    scans: u32,
    k: &mut K,
) -> Result<(), StoreFault>
    ensures whole { OnOk result (Adds (K.taken k.old) (K.taken k.new) (answer_text rounds scans answer.now)) }
    ensures part { OnErr result
        (AddsPart (K.taken k.old) (K.taken k.new) (answer_text rounds scans answer.now)) }
    ensures cause { HasCause (K.faults k.old) (K.faults k.new) result StoreFault.Failed }
{
    match answer {
        Audit::Yes(_) => put_yes(rounds as u64, scans as u64, k),
        Audit::No { scan, cause } => put_no(*scan as u64, cause_name(*cause), k),
    }
}
