// An audit, printed.
ghost use Rattle.std.specs.Prelude.{◌≡◌, ◌≤◌, All, None, not, IfOk, OnOk, OnErr};
ghost use Rattle.svf_audit.specs.Report.{audit_text, says_no};
ghost use Rattle.ij_io.specs.Bytes.{Adds, AddsPart};
ghost use Rattle.ij_io.specs.Causes.{HasCause};
ghost use Rattle.net_graph.specs.Nets.{IsNet};
ghost use Rattle.net_graph.specs.Steps.{IsStep};
ghost use Rattle.pdl_targets.specs.Laws.{rounds_in};
ghost use Rattle.svf_audit.specs.Audit.{audit};
ghost use Rattle.tap_machine.specs.Play.{scans_in};

use crate::audit::audit_svf;
use crate::counts::round_count;
use crate::line::{is_yes, put_answer};
use crate::listed::list_steps;
use ij_io::{Sink, StoreFault};
use merge_order::BitSteps;
use net_graph::{Device, Net};
use std::alloc::Global;
use svf_writer::Commands;
use tap_machine::scan_count;

/// Audits the commands of some SVF for the bit steps of a procedure (IEEE 1687-2014, PDL level 0; Serial
/// Vector Format, revision E), and writes one line that tells what the audit says. Answers whether it says
/// yes.
///
/// # Errors
///
/// - `Failed`: the sink failed, and its count of faults rose.
/// - `OutOfMemory`: there was no memory, or the sink had none.
///
/// After a refusal the sink took some first bytes of the line, maybe none.
pub fn put_audit<K: Sink>(
    alloc: Global,
    net: &Net,
    device: &Device,
    steps: &mut BitSteps<'_>,
    commands: &Commands,
    k: &mut K,
) -> Result<bool, StoreFault>
    requires well_formed { IsNet net.now }
    requires no_fault { steps.old.fault ≡ None }
    requires steps { All (IsStep net.now) steps.old.steps }
    requires few_rounds { rounds_in steps.old.steps ≤ 4096 }
    requires few_scans { scans_in commands.now ≤ 1000000000 }
    ensures whole { OnOk result
        (Adds (K.taken k.old) (K.taken k.new) (audit_text net.now device.now steps.old.steps commands.now)) }
    ensures yes { IfOk result
        (λ yes. says_no (audit net.now device.now steps.old.steps commands.now) ≡ not yes) }
    ensures part { OnErr result (AddsPart (K.taken k.old) (K.taken k.new)
        (audit_text net.now device.now steps.old.steps commands.now)) }
    ensures cause { HasCause (K.faults k.old) (K.faults k.new) result StoreFault.Failed }
{
    let steps = list_steps(alloc, steps)?;
    let answer = audit_svf(alloc, net, device, &steps, commands)?;
    let rounds = round_count(steps.as_slice());
    put_answer(&answer, rounds, scan_count(commands), k)?;
    Ok(is_yes(&answer))
}
