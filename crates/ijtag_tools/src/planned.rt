// The SVF texts of a procedure: the one that a compile writes, and one that is planned as a whole.
ghost use Rattle.std.specs.Prelude.{◌≡◌, ◌≤◌, false, not, true, length, IfOk, IfSome, Ok};
ghost use Rattle.svf_audit.specs.Audit.{audit as audit_commands};
ghost use Rattle.svf_audit.specs.Report.{says_no};
ghost use Rattle.svf_reader.specs.Meaning.{svf};
ghost use Rattle.tap_machine.specs.declared.Stable.TheVariants.{Reset as InReset};
ghost use Rattle.tap_machine.specs.Play.{pins, scans_in};
ghost use Rattle.ijtag_work.specs.Using.{IsUsable, seen_accepted, there};
ghost use Rattle.ijtag_tools.specs.Planned.{IsCompiled, IsSound, IsTightened};
ghost use Rattle.ijtag_tools.specs.Tight.{NoneTakesFewer, least_of};

use crate::cost::{Cost, cost_of};
use ij_bits::OutOfMemory;
use ij_io::SureSink;
use ijtag_core::{SVF_LIMIT, a_yes_does_as_meant, make_svf, read_commands};
use ijtag_stages::{StageFault, read_svf};
use ijtag_work::{Accepted, own_texts_pass, steps_again};
use least_clocks::{least, least_law};
use merge_order::{bit_steps_are_few, bit_steps_are_of_the_network};
use std::alloc::Global;
use svf_audit::put_audit;
use svf_writer::Commands;
use tight_planner::{How, tight_text};

/// An SVF text, and what its commands take.
#[derive(Drop)]
pub struct Planned {
    /// The text.
    pub svf: SureSink,
    /// What its commands take.
    pub cost: Cost,
}

/// The text that is written, what its commands take, what those of a compile take, and what any take at
/// least.
#[derive(Drop)]
pub struct Tightened {
    /// The text.
    pub svf: SureSink,
    /// What its commands take.
    pub cost: Cost,
    /// What those of the text that a compile writes take.
    pub before: Cost,
    /// The clocks that any commands take at least of which the audit says yes.
    pub least: u64,
}

/// Whether the audit says yes of commands for the accepted procedure.
fn is_audit_yes(alloc: Global, it: &Accepted, commands: &Commands) -> Result<bool, OutOfMemory>
    requires usable { IsUsable it.now }
    requires procedure { there it.now.procedure ≡ true }
    requires few { scans_in commands.now ≤ 1000000000 }
    ensures { IfOk result (λ yes. says_no (audit_commands it.now.network.net it.now.device
        (seen_accepted it.now).steps commands.now) ≡ not yes) }
{
    bit_steps_are_of_the_network();
    bit_steps_are_few();
    let mut line = SureSink::new(alloc);
    let mut steps = steps_again(alloc, &it.network, it.procedure())?;
    let told = put_audit(
        alloc,
        &it.network.net,
        &it.device,
        &mut steps,
        commands,
        &mut line,
    );
    drop(steps);
    match told {
        Ok(yes) => Ok(yes),
        Err(_) => Err(OutOfMemory),
    }
}

/// The text that a compile writes.
fn compiled(alloc: Global, it: &Accepted) -> Result<Planned, OutOfMemory>
    requires usable { IsUsable it.now }
    requires procedure { there it.now.procedure ≡ true }
    ensures { IfOk result (IsCompiled (seen_accepted it.now)) }
{
    own_texts_pass();
    let svf = make_svf(alloc, it)?;
    let commands = read_commands(alloc, svf.bytes())?;
    a_yes_does_as_meant(it, &commands);
    let cost = cost_of(&commands);
    Ok(Planned { svf, cost })
}

/// The commands that a reader finds in a text, where it finds some.
#[tactic(auto, unfolding(ijtag_stages::specs::SvfText::svf_text))]
fn read_if_svf(alloc: Global, text: &[u8]) -> Result<Option<Commands>, OutOfMemory>
    ensures found { IfOk result (λ found. IfSome found (λ commands. svf text.now ≡ Ok commands)) }
    ensures clocks { IfOk result
        (λ found. IfSome found (λ commands. length (pins InReset 0 commands) ≤ 1000000000)) }
    ensures scans { IfOk result (λ found. IfSome found (λ commands. scans_in commands ≤ 1000000000)) }
{
    if text.len() > SVF_LIMIT as usize {
        return Ok(None);
    }
    match read_svf(alloc, text) {
        Ok(commands) => Ok(Some(commands)),
        Err(StageFault::Refused(_)) => Ok(None),
        Err(StageFault::OutOfMemory) => Err(OutOfMemory),
    }
}

/// A text of any make, where its commands do what the procedure means.
fn audited(alloc: Global, it: &Accepted, svf: SureSink) -> Result<Option<Planned>, OutOfMemory>
    requires usable { IsUsable it.now }
    requires procedure { there it.now.procedure ≡ true }
    ensures { IfOk result (λ found. IfSome found (IsSound (seen_accepted it.now))) }
{
    let Some(commands) = read_if_svf(alloc, svf.bytes())? else {
        return Ok(None);
    };
    if !is_audit_yes(alloc, it, &commands)? {
        return Ok(None);
    }
    a_yes_does_as_meant(it, &commands);
    let cost = cost_of(&commands);
    Ok(Some(Planned { svf, cost }))
}

/// The text that is planned as a whole, where there is one whose commands do what the procedure means.
fn plan_whole(alloc: Global, it: &Accepted, how: How) -> Result<Option<Planned>, OutOfMemory>
    requires usable { IsUsable it.now }
    requires procedure { there it.now.procedure ≡ true }
    ensures { IfOk result (λ found. IfSome found (IsSound (seen_accepted it.now))) }
{
    let network = &it.network;
    let mut steps = steps_again(alloc, network, it.procedure())?;
    let told = tight_text(
        alloc,
        &network.net,
        &network.form,
        &it.device,
        &mut steps,
        how,
    );
    drop(steps);
    match told? {
        Some(svf) => audited(alloc, it, svf),
        None => Ok(None),
    }
}

/// No commands of which the audit says yes for the accepted procedure take fewer clocks than its bound.
pub fn none_takes_fewer(it: &Accepted)
    requires usable { IsUsable it.now }
    requires procedure { there it.now.procedure ≡ true }
    ensures { NoneTakesFewer (seen_accepted it.now) }
{
    bit_steps_are_of_the_network();
    least_law();
    let _procedure = it.procedure();
}

/// The clocks that any commands take at least of which the audit says yes.
fn least_of(alloc: Global, it: &Accepted) -> Result<u64, OutOfMemory>
    requires usable { IsUsable it.now }
    requires procedure { there it.now.procedure ≡ true }
    ensures { IfOk result (λ clocks. clocks ≡ least_of (seen_accepted it.now)) }
{
    bit_steps_are_of_the_network();
    bit_steps_are_few();
    let network = &it.network;
    let mut steps = steps_again(alloc, network, it.procedure())?;
    let told = least(alloc, &network.net, &network.form, &it.device, &mut steps);
    drop(steps);
    told
}

/// The text that is written: the one that is planned as a whole, where it takes no more than the one that a
/// compile writes.
pub fn tightest(alloc: Global, it: &Accepted, how: How) -> Result<Tightened, OutOfMemory>
    requires usable { IsUsable it.now }
    requires procedure { there it.now.procedure ≡ true }
    ensures { IfOk result (IsTightened (seen_accepted it.now)) }
{
    let least = least_of(alloc, it)?;
    let compiled = compiled(alloc, it)?;
    let before = compiled.cost;
    if let Some(planned) = plan_whole(alloc, it, how)? {
        let cost = planned.cost;
        if cost.is_within(before) {
            return Ok(Tightened {
                svf: planned.svf,
                cost,
                before,
                least,
            });
        }
    }
    Ok(Tightened {
        svf: compiled.svf,
        cost: before,
        before,
        least,
    })
}
