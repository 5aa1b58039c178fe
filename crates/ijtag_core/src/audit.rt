// The command `audit`.
ghost use Rattle.std.specs.Prelude.{◌≡◌, ◌≤◌, false, true, All, OnOk, OnErr, IfOk};
ghost use Rattle.ij_io.specs.Bytes.{Adds, AddsPart};
ghost use Rattle.ij_io.specs.Causes.{HasCause};
ghost use Rattle.svf_audit.specs.Audit.{audit as audit_commands};
ghost use Rattle.svf_audit.specs.Report.{says_no};
ghost use Rattle.ijtag_work.specs.Audited.{DoAsMeant, PlayAsMeant};
ghost use Rattle.ijtag_work.specs.Order.{audit, line_of, verdict_of};
ghost use Rattle.ijtag_work.specs.Seen.{differing};
ghost use Rattle.ijtag_work.specs.Using.{IsUsable, seen_accepted, there};
ghost use Rattle.ijtag_work.specs.Words.{seen_audit};

use crate::effect::Effect;
use ij_io::{Shelf, Sink, StoreFault};
use ijtag_work::{Accepted, AuditWords, Stop, Verdict, steps_again};
use merge_order::{bit_steps_are_few, bit_steps_are_of_the_network};
use std::alloc::Global;
use svf_audit::{audits_law, put_audit};
use svf_writer::Commands;

/// Audits commands and writes the line. A refusal leaves a first part of it.
#[tactic(auto, unfolding(ijtag_work::specs::Order::line_of))]
fn put_line<O: Sink>(alloc: Global, it: &Accepted, out: &mut O) -> Result<Verdict, StoreFault>
    requires usable { IsUsable it.now }
    requires commands { there it.now.commands ≡ true }
    requires procedure { there it.now.procedure ≡ true }
    ensures printed { OnOk result
        (Adds (O.taken out.old) (O.taken out.new) (line_of (seen_accepted it.now))) }
    ensures verdict { IfOk result
        (λ verdict. differing verdict ≡ says_no (verdict_of (seen_accepted it.now))) }
    ensures part { OnErr result
        (AddsPart (O.taken out.old) (O.taken out.new) (line_of (seen_accepted it.now))) }
    ensures cause { HasCause (O.faults out.old) (O.faults out.new) result StoreFault.Failed }
{
    bit_steps_are_of_the_network();
    bit_steps_are_few();
    let commands = it.commands();
    let mut steps = steps_again(alloc, &it.network, it.procedure())?;
    let told = put_audit(
        alloc,
        &it.network.net,
        &it.device,
        &mut steps,
        commands,
        out,
    );
    drop(steps);
    let yes = told?;
    if yes {
        Ok(Verdict::Agrees)
    } else {
        Ok(Verdict::Differs)
    }
}

/// What an audit says yes of does, played, all that the steps mean. It runs nothing.
pub fn a_yes_does_as_meant(it: &Accepted, commands: &Commands)
    requires usable { IsUsable it.now }
    requires procedure { there it.now.procedure ≡ true }
    ensures { says_no
        (audit_commands it.now.network.net it.now.device (seen_accepted it.now).steps commands.now) ≡ false
        → DoAsMeant (seen_accepted it.now) commands.now }
{
    audits_law();
    bit_steps_are_of_the_network();
    // Its contract says that the commands can be played.
    let _count = commands.len();
}

/// So it is of the commands that are audited.
fn yes_plays_as_meant(it: &Accepted)
    requires usable { IsUsable it.now }
    requires commands { there it.now.commands ≡ true }
    requires procedure { there it.now.procedure ≡ true }
    ensures { says_no (verdict_of (seen_accepted it.now)) ≡ false → PlayAsMeant (seen_accepted it.now) }
{
    a_yes_does_as_meant(it, it.commands());
}

/// Audits the SVF text for the procedure and prints what the audit says. No file changes.
impl<'w> Effect for AuditWords<'w> {
    ghost table_row = { λ words. audit (seen_audit words) };

    ghost promise = { λ _ _ _ it differs. differs ≡ false → PlayAsMeant it };

    type Words = AuditWords<'w>;

    fn words(&self) -> &Self::Words {
        self
    }

    fn prints(&self) -> bool {
        true
    }

    fn act<'a, S: Shelf, O: Sink>(
        &'a self,
        alloc: Global,
        it: &Accepted,
        _shelf: &mut S,
        out: &mut O,
    ) -> Result<Verdict, Stop<'a>> {
        yes_plays_as_meant(it);
        match put_line(alloc, it, out) {
            Ok(verdict) => Ok(verdict),
            Err(fault) => Err(Stop::of_output(fault)),
        }
    }
}
