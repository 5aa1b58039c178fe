// Whether SVF does what bit steps ask for.
ghost use Rattle.std.specs.Prelude.{◌+◌, ◌<◌, ◌^◌, [], All, map, IfErr, IfOk, OnOk};
ghost use Rattle.net_graph.specs.Nets.{IsNet};
ghost use Rattle.net_graph.specs.SeenSteps.{seen_step};
ghost use Rattle.net_graph.specs.Steps.{IsStep};
ghost use Rattle.svf_writer.specs.Fits.{AreFitAfter};
ghost use Rattle.tap_machine.specs.Play.{scans_in};
ghost use Rattle.svf_audit.specs.Audit.{Says, audit, audit_from};
ghost use Rattle.svf_audit.specs.Auditing.{AreNoted, Ends, IsAuditor, IsNo, state_of};
ghost use Rattle.svf_audit.specs.LastParts.{last_length};

use crate::answer::{Audit, Cause};
use crate::auditor::{Auditor, Halt};
use ij_bits::{List, OutOfMemory};
use net_graph::{BitStep, Device, Net};
use std::alloc::Global;
use std::mem::swap;
use svf_writer::Commands;
use tap_machine::scans_of;

/// What comes of the audit after all commands.
fn end_audit(alloc: Global, auditor: &mut Auditor<'_>) -> Audit
    requires { IsAuditor auditor.old }
    ensures { Ends result auditor.old }
{
    if auditor.is_done() {
        let mut readings = List::new(alloc);
        swap(&mut readings, &mut auditor.readings);
        Audit::Yes(readings)
    } else {
        Audit::No {
            scan: auditor.scans,
            cause: Cause::End,
        }
    }
}

/// What comes of the audit where it goes no further, after this many scans.
fn stopped(halt: Halt, scan: u32) -> Result<Audit, OutOfMemory>
    ensures { IfOk result (IsNo halt scan) }
{
    match halt {
        Halt::OutOfMemory => Err(OutOfMemory),
        Halt::Cause(cause) => Ok(Audit::No { scan, cause }),
    }
}

/// Why an audit goes no further, and how many scans there are up to there.
#[derive(Clone, Copy, Drop)]
pub(crate) struct AuditStop {
    pub halt: Halt,
    pub scan: u32,
}

/// Takes all commands, one after the other, as far as the audit goes.
fn step_all<'a>(auditor: &mut Auditor<'a>, commands: &'a Commands) -> Result<(), AuditStop>
    requires sound { IsAuditor auditor.old }
    requires noted { AreNoted auditor.old [] }
    requires fit { AreFitAfter (last_length auditor.old.ir) (last_length auditor.old.dr) commands.now }
    requires few { auditor.old.scans + scans_in commands.now < 2 ^ 32 }
    ensures sound { OnOk result (IsAuditor auditor.new) }
    ensures ok { OnOk result ((answer : Audit) → Ends answer auditor.new → Says answer (audit_from
        auditor.old.registers.net.now auditor.old.device.now (state_of auditor.old []) commands.now)) }
    ensures err { IfErr result (λ s. (answer : Audit) → IsNo s.halt s.scan answer → Says answer (audit_from
        auditor.old.registers.net.now auditor.old.device.now (state_of auditor.old []) commands.now)) }
{
    for i in 0..commands.len() {
        let command = commands.get(i);
        if let Err(halt) = auditor.step(command) {
            return Err(AuditStop {
                halt,
                scan: auditor.scans + scans_of(command),
            });
        }
    }
    Ok(())
}

/// Takes all commands, and answers what comes of the audit.
fn audited<'a>(
    alloc: Global,
    auditor: &mut Auditor<'a>,
    commands: &'a Commands,
) -> Result<Audit, OutOfMemory>
    requires sound { IsAuditor auditor.old }
    requires noted { AreNoted auditor.old [] }
    requires fit { AreFitAfter (last_length auditor.old.ir) (last_length auditor.old.dr) commands.now }
    requires few { auditor.old.scans + scans_in commands.now < 2 ^ 32 }
    ensures { IfOk result (λ answer. Says answer (audit_from auditor.old.registers.net.now
        auditor.old.device.now (state_of auditor.old []) commands.now)) }
{
    match step_all(auditor, commands) {
        Ok(()) => Ok(end_audit(alloc, auditor)),
        Err(stop) => stopped(stop.halt, stop.scan),
    }
}

/// Tells whether the commands of some SVF do what the bit steps of a procedure ask for (IEEE 1687-2014, PDL
/// level 0; Serial Vector Format, revision E), without playing them.
///
/// # Errors
///
/// [`OutOfMemory`] where there is no memory.
pub fn audit_svf(
    alloc: Global,
    net: &Net,
    device: &Device,
    steps: &List<BitStep>,
    commands: &Commands,
) -> Result<Audit, OutOfMemory>
    requires net { IsNet net.now }
    requires steps { All (IsStep net.now) (map seen_step steps.now.items) }
    requires few { scans_in commands.now < 2 ^ 32 }
    ensures { IfOk result
        (λ answer. Says answer (audit net.now device.now (map seen_step steps.now.items) commands.now)) }
{
    // Its contract says that the commands can be played.
    let _count = commands.len();
    let mut auditor = Auditor::new(alloc, net, device, steps)?;
    let answer = audited(alloc, &mut auditor, commands);
    // What is let go of is let go of by a call: the prover goes through its parts once.
    drop(auditor);
    answer
}
