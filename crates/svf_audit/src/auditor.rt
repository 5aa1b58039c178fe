// How far an audit has come.
ghost use Rattle.std.specs.Prelude.{◌≡◌, ◌+◌, ◌<◌, ◌^◌, ◌∷◌, ◌++◌, ◌||◌, [], None, Some, true, false, All};
ghost use Rattle.std.specs.Prelude.{length, map, not, IfErr, IfOk, IsFalse, IsTrue, OnErr, OnOk};
ghost use Rattle.std.specs.List.{list_any};
ghost use Rattle.std.specs.Option.{is_some};
ghost use Rattle.net_graph.specs.Chain.{chain};
ghost use Rattle.net_graph.specs.Nets.{IsNet};
ghost use Rattle.net_graph.specs.Path.{is_select};
ghost use Rattle.net_graph.specs.SeenSteps.{seen_group, seen_step};
ghost use Rattle.net_graph.specs.Steps.{IsGroup, IsStep};
ghost use Rattle.svf_writer.specs.Fits.{FitsAfter, HasLength};
ghost use Rattle.svf_writer.specs.SeenCommands.{seen_command, seen_scan, SDR, SIR, Reset as StateReset};
ghost use Rattle.svf_writer.specs.SeenCommands.{Run as RunTest};
ghost use Rattle.tap_machine.specs.Play.{after_scan, is_empty, scans_in};
ghost use Rattle.net_graph.specs.Numbered.{HaveMarks};
ghost use Rattle.svf_audit.specs.declared.answer.Cause.TheVariants as causes;
ghost use Rattle.svf_audit.specs.declared.auditor.Halt.TheVariants as halts;
ghost use Rattle.svf_audit.specs.Audit.{do_group as do_due, reset as reset_by, scan as scan_of, start};
ghost use Rattle.svf_audit.specs.Audit.{step as step_of};
ghost use Rattle.svf_audit.specs.Auditing.{do_scan_work as act_of, last_dr, last_ir, state_of, AreNoted};
ghost use Rattle.svf_audit.specs.Auditing.{DidAct};
ghost use Rattle.svf_audit.specs.Auditing.{DidGroup, DidReach, DidReset, DidScan, Does, FitsNext, Follows};
ghost use Rattle.svf_audit.specs.Auditing.{IsAuditor, Stops};
ghost use Rattle.svf_audit.specs.LastParts.{last_length, looked_for, seen_last, AreLastParts};
ghost use Rattle.svf_audit.specs.Left.{work_left, IsWithin};
ghost use Rattle.svf_audit.specs.Registers.{path_in, AreFound, AreRegisters, AreShifted, AreStill};
ghost use Rattle.svf_audit.specs.Work.{due};

use crate::answer::Cause;
use crate::last_parts::{LastParts, compares_some, is_number, no_last_parts, parts_after};
use crate::left::Left;
use crate::registers::Registers;
use crate::scan::{does_reads, does_writes, some_data};
use ij_bits::{List, OutOfMemory};
use net_graph::{BitMarks, BitStep, Device, Group, Net, marks_law};
use std::alloc::Global;
use svf_writer::{Command, Scan, ScanPart};
use tap_machine::Stable;

/// Why an audit goes no further.
#[derive(Clone, Copy, Drop)]
pub(crate) enum Halt {
    /// There is no memory.
    OutOfMemory,
    /// The command at hand is at fault.
    Cause(Cause),
}

impl From<OutOfMemory> for Halt {
    ghost from_gives = { λ _ halt. halt ≡ halts.OutOfMemory };

    fn from(_: OutOfMemory) -> Halt {
        Halt::OutOfMemory
    }
}

/// An audit under way: the registers, whether the link's instruction is in force, where the controller rests,
/// what is kept for SIR and for SDR, the scans so far, those of them that did groups with reads, and the work
/// that is left.
#[derive(Drop)]
pub(crate) struct Auditor<'a> {
    pub device: &'a Device,
    pub registers: Registers<'a>,
    pub linked: bool,
    pub rest: Stable,
    pub ir: LastParts<'a>,
    pub dr: LastParts<'a>,
    pub scans: u32,
    pub readings: List<u32>,
    pub left: Left<'a>,
    /// A mark for each bit of the network, which says the place of a bit among those looked up.
    pub marks: BitMarks,
}

/// A group that a scan does is noted, where it has reads.
fn note(readings: &mut List<u32>, scan: u32, group: &Group) -> Result<(), OutOfMemory>
    ensures { OnOk result (readings.new.items ≡ elim (is_empty group.now.reads.items)
        [ true ↦ readings.old.items | false ↦ readings.old.items ++ scan ∷ [] ]) }
{
    if group.reads.is_empty() {
        return Ok(());
    }
    readings.push(scan)
}

/// Whether the scan at hand does a group, and why not.
fn does(
    r: &Registers,
    marks: &mut BitMarks,
    kept: &LastParts,
    tdo: &ScanPart,
    group: &Group,
) -> Result<(), Cause>
    requires sound { AreRegisters r.now }
    requires found { AreFound r.now }
    requires shifted { AreShifted r.now }
    requires marks { HaveMarks r.now.net.now marks.old }
    requires kept { AreLastParts kept.now }
    requires tdo { HasLength kept.now.len tdo.now }
    requires fits { kept.now.len ≡ length (chain (path_in r.now) r.now.holds) }
    requires group { IsGroup r.now.net.now (seen_group group.now) }
    ensures does { Does r.now (looked_for kept.now tdo.now) (seen_group group.now) result }
    ensures marks { HaveMarks r.now.net.now marks.new }
{
    let bits = r.bits.as_slice();
    let moved = r.moved.as_slice();
    if !does_writes(r.net, &r.selects, marks, moved, &r.after, group) {
        return Err(Cause::Write);
    }
    if !does_reads(r.net, marks, kept, tdo, r.path.as_slice(), bits, group) {
        return Err(Cause::Read);
    }
    Ok(())
}

/// A mark for each bit of a network.
fn blank_marks(alloc: Global, net: &Net) -> Result<BitMarks, OutOfMemory>
    ensures { IfOk result (HaveMarks net.now) }
{
    marks_law();
    BitMarks::zeros(alloc, net)
}

impl<'a> Auditor<'a> {
    /// An audit at power-up.
    pub fn new(
        alloc: Global,
        net: &'a Net,
        device: &'a Device,
        steps: &'a List<BitStep>,
    ) -> Result<Auditor<'a>, OutOfMemory>
        requires net { IsNet net.now }
        requires steps { All (IsStep net.now) (map seen_step steps.now.items) }
        ensures sound { IfOk result IsAuditor }
        ensures net { IfOk result (λ a. a.registers.net.now ≡ net.now) }
        ensures device { IfOk result (λ a. a.device.now ≡ device.now) }
        ensures state { IfOk result
            (λ a. state_of a [] ≡ start net.now device.now (map seen_step steps.now.items)) }
        ensures noted { IfOk result (λ a. AreNoted a []) }
        ensures ir { IfOk result (λ a. last_length a.ir ≡ None) }
        ensures dr { IfOk result (λ a. last_length a.dr ≡ None) }
    {
        let marks = blank_marks(alloc, net)?;
        let registers = Registers::new(alloc, net)?;
        Ok(Auditor {
            device,
            registers,
            linked: false,
            rest: Stable::Reset,
            ir: no_last_parts(),
            dr: no_last_parts(),
            scans: 0,
            readings: List::new(alloc),
            left: Left::all(steps),
            marks,
        })
    }

    /// An instruction scan.
    fn load_instruction(&mut self, scan: &'a Scan) -> Result<(), Halt>
        requires sound { IsAuditor self.old }
        requires fits { FitsAfter (last_length self.old.ir) (seen_scan scan.now) }
        requires few { self.old.scans + 1 < 2 ^ 32 }
        ensures ok { OnOk result
            (Follows (λ net device a. step_of net device a (SIR (seen_scan scan.now))) self.old self.new) }
        ensures err { IfErr result
            (Stops (λ net device a. step_of net device a (SIR (seen_scan scan.now))) self.old) }
        ensures scans { OnErr result (self.new.scans ≡ self.old.scans) }
        ensures more { OnOk result (self.new.scans ≡ self.old.scans + 1) }
        ensures ir { OnOk result (last_length self.new.ir ≡ Some scan.now.len) }
        ensures dr { OnOk result (last_length self.new.dr ≡ last_length self.old.dr) }
    {
        let kept = parts_after(self.ir, scan);
        if scan.len != self.device.ir {
            return Err(Halt::Cause(Cause::Length));
        }
        if compares_some(&kept, &scan.tdo) {
            return Err(Halt::Cause(Cause::Compare));
        }
        self.linked = is_number(&kept, self.device.opcode);
        self.rest = Stable::Idle;
        self.ir = kept;
        self.scans += 1;
        Ok(())
    }

    /// Whether the scan at hand changes or compares a data bit.
    fn acts_on_data(&self, kept: &LastParts, tdo: &ScanPart) -> bool
        requires sound { AreRegisters self.now.registers }
        requires kept { AreLastParts kept.now }
        requires tdo { HasLength kept.now.len tdo.now }
        ensures { result ≡ (list_any (λ b. not (is_select self.now.registers.net.now b))
            self.now.registers.moved.items || list_any is_some (looked_for kept.now tdo.now)) }
    {
        let r = &self.registers;
        some_data(r.net, &r.selects, r.moved.as_slice()) || compares_some(kept, tdo)
    }

    /// The scan at hand does the group that is due.
    fn do_group(&mut self, kept: &LastParts, scan: &Scan) -> Result<(), Halt>
        requires sound { AreRegisters self.old.registers }
        requires found { AreFound self.old.registers }
        requires shifted { AreShifted self.old.registers }
        requires kept { AreLastParts kept.now }
        requires next { seen_last kept.now ≡ after_scan (seen_last self.old.dr) (seen_scan scan.now) }
        requires tdo { HasLength kept.now.len scan.now.tdo }
        requires fits { kept.now.len ≡ length (chain (path_in self.old.registers) self.old.registers.holds) }
        requires within { IsWithin self.old.left }
        requires steps { All (IsStep self.old.registers.net.now)
            (map seen_step self.old.left.steps.now.items) }
        requires marks { HaveMarks self.old.registers.net.now self.old.marks }
        requires few { self.old.scans + 1 < 2 ^ 32 }
        ensures ok { OnOk result (DidGroup self.old self.new (seen_scan scan.now)) }
        ensures err { IfErr result (Stops
            (λ net device a. do_due net device a (seen_scan scan.now) self.old.registers.after) self.old) }
        ensures others { self.new
            ≡ record self.old { readings = self.new.readings; left = self.new.left; marks = self.new.marks } }
        ensures marks { HaveMarks self.old.registers.net.now self.new.marks }
        ensures within { OnOk result (IsWithin self.new.left) }
        ensures steps { self.new.left.steps ≡ self.old.left.steps }
    {
        let Some(group) = self.left.due_group(&self.registers.holds) else {
            return Err(Halt::Cause(Cause::Step));
        };
        if let Err(cause) = does(&self.registers, &mut self.marks, kept, &scan.tdo, group) {
            return Err(Halt::Cause(cause));
        }
        note(&mut self.readings, self.scans + 1, group)?;
        self.left.finish_piece();
        Ok(())
    }

    /// What the scan at hand does: nothing, where it changes and compares no data bit, or the group that is
    /// due.
    fn do_scan_work(&mut self, kept: &LastParts, scan: &Scan) -> Result<(), Halt>
        requires sound { AreRegisters self.old.registers }
        requires found { AreFound self.old.registers }
        requires shifted { AreShifted self.old.registers }
        requires kept { AreLastParts kept.now }
        requires next { seen_last kept.now ≡ after_scan (seen_last self.old.dr) (seen_scan scan.now) }
        requires tdo { HasLength kept.now.len scan.now.tdo }
        requires fits { kept.now.len ≡ length (chain (path_in self.old.registers) self.old.registers.holds) }
        requires within { IsWithin self.old.left }
        requires steps { All (IsStep self.old.registers.net.now)
            (map seen_step self.old.left.steps.now.items) }
        requires marks { HaveMarks self.old.registers.net.now self.old.marks }
        requires few { self.old.scans + 1 < 2 ^ 32 }
        ensures ok { OnOk result (DidAct self.old self.new (seen_scan scan.now)) }
        ensures err { IfErr result (Stops
            (λ net device a. act_of net device a (seen_scan scan.now) self.old.registers.after) self.old) }
        ensures others { self.new
            ≡ record self.old { readings = self.new.readings; left = self.new.left; marks = self.new.marks } }
        ensures marks { HaveMarks self.old.registers.net.now self.new.marks }
        ensures within { OnOk result (IsWithin self.new.left) }
        ensures steps { self.new.left.steps ≡ self.old.left.steps }
    {
        if !self.acts_on_data(kept, &scan.tdo) {
            return Ok(());
        }
        self.do_group(kept, scan)
    }

    /// A data scan of the network.
    fn scan(&mut self, kept: &LastParts, scan: &Scan) -> Result<(), Halt>
        requires sound { IsAuditor self.old }
        requires kept { AreLastParts kept.now }
        requires next { seen_last kept.now ≡ after_scan (seen_last self.old.dr) (seen_scan scan.now) }
        requires tdo { HasLength kept.now.len scan.now.tdo }
        requires few { self.old.scans + 1 < 2 ^ 32 }
        ensures ok { OnOk result (DidScan self.old self.new (seen_scan scan.now)) }
        ensures err { IfErr result
            (Stops (λ net device a. scan_of net device a (seen_scan scan.now)) self.old) }
        ensures others { self.new ≡ record self.old {
          registers = self.new.registers;
          readings = self.new.readings;
          left = self.new.left;
          marks = self.new.marks;
        } }
        ensures marks { HaveMarks self.old.registers.net.now self.new.marks }
        ensures net { self.new.registers.net.now ≡ self.old.registers.net.now }
        ensures sound { OnOk result (AreRegisters self.new.registers) }
        ensures still { OnOk result (AreStill self.new.registers) }
        ensures within { OnOk result (IsWithin self.new.left) }
        ensures steps { self.new.left.steps ≡ self.old.left.steps }
    {
        self.registers.find();
        if kept.len != self.registers.len() {
            return Err(Halt::Cause(Cause::Length));
        }
        self.registers.shift(kept);
        if !self.registers.have_rows() {
            return Err(Halt::Cause(Cause::Select));
        }
        if let Err(halt) = self.do_scan_work(kept, scan) {
            return Err(halt);
        }
        self.registers.update();
        Ok(())
    }

    /// A data scan, whether it reaches the network or not.
    fn scan_if_reached(&mut self, kept: &LastParts, scan: &Scan) -> Result<(), Halt>
        requires sound { IsAuditor self.old }
        requires kept { AreLastParts kept.now }
        requires next { seen_last kept.now ≡ after_scan (seen_last self.old.dr) (seen_scan scan.now) }
        requires tdo { HasLength kept.now.len scan.now.tdo }
        requires few { self.old.scans + 1 < 2 ^ 32 }
        ensures ok { OnOk result (DidReach self.old self.new (seen_scan scan.now)) }
        ensures err { IfErr result
            (Stops (λ net device a. step_of net device a (SDR (seen_scan scan.now))) self.old) }
        ensures others { self.new ≡ record self.old {
          registers = self.new.registers;
          readings = self.new.readings;
          left = self.new.left;
          marks = self.new.marks;
        } }
        ensures marks { HaveMarks self.old.registers.net.now self.new.marks }
        ensures net { self.new.registers.net.now ≡ self.old.registers.net.now }
        ensures sound { OnOk result (AreRegisters self.new.registers) }
        ensures still { OnOk result (AreStill self.new.registers) }
        ensures within { OnOk result (IsWithin self.new.left) }
        ensures steps { self.new.left.steps ≡ self.old.left.steps }
    {
        if self.linked {
            return self.scan(kept, scan);
        }
        if compares_some(kept, &scan.tdo) {
            return Err(Halt::Cause(Cause::Compare));
        }
        Ok(())
    }

    /// A data scan.
    fn data_scan(&mut self, scan: &'a Scan) -> Result<(), Halt>
        requires sound { IsAuditor self.old }
        requires fits { FitsAfter (last_length self.old.dr) (seen_scan scan.now) }
        requires few { self.old.scans + 1 < 2 ^ 32 }
        ensures ok { OnOk result
            (Follows (λ net device a. step_of net device a (SDR (seen_scan scan.now))) self.old self.new) }
        ensures err { IfErr result
            (Stops (λ net device a. step_of net device a (SDR (seen_scan scan.now))) self.old) }
        ensures scans { OnErr result (self.new.scans ≡ self.old.scans) }
        ensures more { OnOk result (self.new.scans ≡ self.old.scans + 1) }
        ensures ir { OnOk result (last_length self.new.ir ≡ last_length self.old.ir) }
        ensures dr { OnOk result (last_length self.new.dr ≡ Some scan.now.len) }
    {
        let kept = parts_after(self.dr, scan);
        if let Err(halt) = self.scan_if_reached(&kept, scan) {
            return Err(halt);
        }
        self.rest = Stable::Idle;
        self.dr = kept;
        self.scans += 1;
        Ok(())
    }

    /// Does the work of a reset, and answers whether it is due. It is none where the controller rests in
    /// Test-Logic-Reset already.
    fn do_reset(&mut self) -> bool
        requires sound { IsAuditor self.old }
        ensures done { IsTrue result → DidReset self.old self.new }
        ensures none { IsFalse result → Stops
            (λ net device a. reset_by net device self.old.rest a) self.old (halts.Cause causes.Reset) }
        ensures others { self.new ≡ record self.old { left = self.new.left } }
        ensures within { IsWithin self.new.left }
        ensures steps { self.new.left.steps ≡ self.old.left.steps }
    {
        match self.rest {
            Stable::Reset => true,
            Stable::Idle => self.left.do_reset(&self.registers.holds),
        }
    }

    /// A reset.
    fn reset(&mut self) -> Result<(), Halt>
        requires sound { IsAuditor self.old }
        ensures ok { OnOk result
            (Follows (λ net device a. step_of net device a StateReset) self.old self.new) }
        ensures err { IfErr result (Stops (λ net device a. step_of net device a StateReset) self.old) }
        ensures scans { self.new.scans ≡ self.old.scans }
        ensures ir { self.new.ir ≡ self.old.ir }
        ensures dr { self.new.dr ≡ self.old.dr }
    {
        if !self.do_reset() {
            return Err(Halt::Cause(Cause::Reset));
        }
        self.registers.reset();
        self.linked = false;
        self.rest = Stable::Reset;
        Ok(())
    }

    /// A run.
    fn run(&mut self, cycles: u32) -> Result<(), Halt>
        requires sound { IsAuditor self.old }
        ensures ok { OnOk result
            (Follows (λ net device a. step_of net device a (RunTest cycles)) self.old self.new) }
        ensures err { IfErr result (Stops (λ net device a. step_of net device a (RunTest cycles)) self.old) }
        ensures scans { self.new.scans ≡ self.old.scans }
        ensures ir { self.new.ir ≡ self.old.ir }
        ensures dr { self.new.dr ≡ self.old.dr }
    {
        if !self.left.do_cycles(&self.registers.holds, cycles) {
            return Err(Halt::Cause(Cause::Run));
        }
        self.rest = Stable::Idle;
        Ok(())
    }

    /// The next command.
    pub fn step(&mut self, command: &'a Command) -> Result<(), Halt>
        requires sound { IsAuditor self.old }
        requires fits { FitsNext (last_length self.old.ir)
            (last_length self.old.dr) (seen_command command.now) }
        requires few { self.old.scans + scans_in (seen_command command.now ∷ []) < 2 ^ 32 }
        ensures ok { OnOk result
            (Follows (λ net device a. step_of net device a (seen_command command.now)) self.old self.new) }
        ensures err { IfErr result
            (Stops (λ net device a. step_of net device a (seen_command command.now)) self.old) }
        ensures scans { OnErr result (self.new.scans ≡ self.old.scans) }
        ensures more { OnOk result (self.new.scans
            ≡ self.old.scans + scans_in (seen_command command.now ∷ [])) }
        ensures ir { OnOk result (last_length self.new.ir
            ≡ last_ir (last_length self.old.ir) (seen_command command.now)) }
        ensures dr { OnOk result (last_length self.new.dr
            ≡ last_dr (last_length self.old.dr) (seen_command command.now)) }
    {
        match command {
            Command::Sir(scan) => self.load_instruction(scan),
            Command::Sdr(scan) => self.data_scan(scan),
            Command::Reset => self.reset(),
            Command::Idle => {
                self.rest = Stable::Idle;
                Ok(())
            },
            Command::Run(cycles) => self.run(*cycles),
        }
    }

    /// Whether nothing is due.
    pub fn is_done(&mut self) -> bool
        requires sound { IsAuditor self.old }
        ensures done { result ≡ is_empty (due self.old.registers.holds (work_left self.old.left)) }
        ensures scans { self.new.scans ≡ self.old.scans }
        ensures readings { self.new.readings ≡ self.old.readings }
    {
        self.left.is_done(&self.registers.holds)
    }
}
