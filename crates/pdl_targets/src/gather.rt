// What was gathered since the last iApply, and what a step makes of it.
ghost use Rattle.std.specs.Prelude.{◌≡◌, ◌<◌, ◌≤◌, ◌+◌, ◌^◌, length, map, All, IfOk, OnOk, OnErr};
ghost use Rattle.std.specs.Option.{option_map};
ghost use Rattle.net_graph.specs.declared.net.Net.{Net as ANet};
ghost use Rattle.net_graph.specs.Named.{IsBitOf};
ghost use Rattle.net_graph.specs.SeenSteps.{seen_group, seen_step};
ghost use Rattle.pdl_parser.specs.Views.{seen_value};
ghost use Rattle.pdl_targets.specs.Binding.{applied, apply, empty, finish, first_of, run, run_of, run_value};
ghost use Rattle.pdl_targets.specs.Binding.{with_reads, with_writes};
ghost use Rattle.pdl_targets.specs.Laws.{AreEachOnce};
ghost use Rattle.pdl_targets.specs.Rounds.{groups};
ghost use Rattle.pdl_targets.specs.Seen.{Finishes};
ghost use Rattle.pdl_targets.specs.SeenGathered.{Binds, IsKept, IsLimited, applied_queue, seen_gathered};
ghost use Rattle.pdl_targets.specs.SeenPlaces.{places_in};

use crate::fault::TargetFault;
use crate::groups::groups;
use crate::queue::{mention_read, mention_written, put_reads, put_writes};
use crate::rows::RowSets;
use ij_bits::{Buffer, List, OutOfMemory};
use ij_text::{Number, Place, Which};
use net_graph::{BitMarks, BitStep, Group, Net, ReadBit, WriteBit, marks_law};
use net_tree::Tree;
use pdl_parser::Value;
use std::alloc::Global;

/// What came since the last iApply, and what was counted from the begin on.
#[derive(Drop)]
pub(crate) struct Gathered {
    /// The writes, each bit once.
    pub writes: Buffer<WriteBit>,
    /// The reads, each bit once.
    pub reads: Buffer<ReadBit>,
    /// The registers of both, in the order of their first mention.
    pub registers: Buffer<u32>,
    /// Where the write of a bit is.
    pub write_marks: BitMarks,
    /// Where the read of a bit is.
    pub read_marks: BitMarks,
    /// Where a register is.
    pub register_marks: BitMarks,
    /// In which rounds of the last iApply the rows around its registers are.
    pub rows: RowSets,
    /// The place of the first iWrite or iRead.
    pub pending: Option<Place>,
    /// How many iReads there were.
    pub asked: u32,
    /// How many rounds there were: at most 4096.
    pub rounds: u32,
    /// How many run cycles there were: at most 4,000,000.
    pub cycles: u32,
}

/// The bit step of an iApply with these groups.
fn step_of(groups: List<Group>) -> Option<BitStep>
    ensures { option_map seen_step result ≡ applied (map seen_group groups.items) }
{
    if groups.is_empty() {
        None
    } else {
        Some(BitStep::Apply(groups))
    }
}

/// The bit step of an iRunLoop.
fn run_of(cycles: u32) -> Option<BitStep>
    ensures { option_map seen_step result ≡ run_of cycles }
{
    if cycles == 0 {
        None
    } else {
        Some(BitStep::Run(cycles))
    }
}

/// The place of the first of some commands.
fn first_of(first: Option<Place>, at: Place) -> Option<Place>
    ensures { result ≡ first_of first at }
{
    match first {
        Some(_) => first,
        None => Some(at),
    }
}

/// Makes room for this many more; fewer than 2^32 are there then.
fn room_for<T>(list: &mut Buffer<T>, more: usize) -> Result<(), OutOfMemory>
    ensures items { list.new.items ≡ list.old.items }
    ensures room { OnOk result (more ≤ list.new.spare) }
    ensures few { OnOk result (length list.old.items + more < 2 ^ 32) }
{
    if list.len() >= 0x7fff_ffff || more >= 0x7fff_ffff {
        return Err(OutOfMemory);
    }
    list.reserve(more)
}

impl Gathered {
    /// Nothing yet.
    pub fn new(alloc: Global, net: &Net) -> Result<Self, OutOfMemory>
        ensures empty { IfOk result (λ g. seen_gathered g ≡ empty) }
        ensures kept { IfOk result (IsKept net.now) }
    {
        marks_law();
        Ok(Gathered {
            writes: Buffer::new(alloc),
            reads: Buffer::new(alloc),
            registers: Buffer::new(alloc),
            write_marks: BitMarks::zeros(alloc, net)?,
            read_marks: BitMarks::zeros(alloc, net)?,
            register_marks: BitMarks::zeros(alloc, net)?,
            rows: RowSets::new(alloc),
            pending: None,
            asked: 0,
            rounds: 0,
            cycles: 0,
        })
    }

    /// Takes in the writes of a step. After want of memory all is as before.
    pub fn write(&mut self, net: &Net, at: Place, writes: &[WriteBit]) -> Result<(), OutOfMemory>
        requires kept { IsKept net.now self.old }
        requires bits { All (λ w. IsBitOf net.now w.bit) writes.now }
        ensures ok { OnOk result (seen_gathered self.new
            ≡ with_writes (seen_gathered self.old) at writes.now) }
        ensures err { OnErr result (seen_gathered self.new ≡ seen_gathered self.old) }
        ensures kept { IsKept net.now self.new }
    {
        room_for(&mut self.writes, writes.len())?;
        room_for(&mut self.registers, writes.len())?;
        put_writes(net, &mut self.write_marks, &mut self.writes, writes);
        mention_written(net, &mut self.register_marks, &mut self.registers, writes);
        self.pending = first_of(self.pending, at);
        Ok(())
    }

    /// Takes in the reads of a step. After want of memory all is as before.
    pub fn read(&mut self, net: &Net, at: Place, reads: &[ReadBit]) -> Result<(), OutOfMemory>
        requires few { self.old.asked + 1 < 2 ^ 32 }
        requires kept { IsKept net.now self.old }
        requires bits { All (λ r. IsBitOf net.now r.bit) reads.now }
        ensures ok { OnOk result (seen_gathered self.new ≡ with_reads (seen_gathered self.old) at reads.now) }
        ensures err { OnErr result (seen_gathered self.new ≡ seen_gathered self.old) }
        ensures kept { IsKept net.now self.new }
    {
        room_for(&mut self.reads, reads.len())?;
        room_for(&mut self.registers, reads.len())?;
        put_reads(net, &mut self.read_marks, &mut self.reads, reads);
        mention_read(net, &mut self.register_marks, &mut self.registers, reads);
        self.pending = first_of(self.pending, at);
        self.asked += 1;
        Ok(())
    }

    /// Empties the queue, whose groups are this many.
    fn applied(&mut self, count: u32)
        requires { self.old.rounds + count < 2 ^ 32 }
        ensures queue { seen_gathered self.new ≡ applied_queue (seen_gathered self.old) count }
        ensures kept { (net : ANet) → IsKept net self.old
            → self.old.rounds + count ≤ 4096 → IsKept net self.new }
    {
        self.writes.clear();
        self.reads.clear();
        self.registers.clear();
        self.pending = None;
        self.rounds += count;
    }

    /// The rounds of an iApply.
    pub fn apply(
        &mut self,
        alloc: Global,
        at: Place,
        tree: &Tree,
    ) -> Result<Option<BitStep>, TargetFault>
        requires limited { IsLimited self.old }
        requires once { AreEachOnce self.old.registers.items }
        ensures answer { Binds (apply at (seen_gathered self.old)
            (groups (places_in tree.now) self.old.writes.items self.old.reads.items self.old.registers.items))
            (seen_gathered self.new) result }
        ensures stays { OnErr result (seen_gathered self.new ≡ seen_gathered self.old) }
        ensures kept { (net : ANet) → IsKept net self.old → IsKept net self.new }
    {
        let groups = groups(
            alloc,
            tree,
            &mut self.rows,
            &self.register_marks,
            self.writes.as_slice(),
            self.reads.as_slice(),
            self.registers.as_slice(),
        )?;
        let count = groups.len();
        if count > 4096 - self.rounds as usize {
            return Err(TargetFault::Limit {
                at,
                which: Which::Groups,
                number: 4096,
            });
        }
        self.applied(count as u32);
        Ok(step_of(groups))
    }

    /// The run of an iRunLoop. Takes no memory.
    fn run(&mut self, at: Place, cycles: u128) -> Result<Option<BitStep>, TargetFault>
        requires { IsLimited self.old }
        ensures answer { Binds (run at (seen_gathered self.old) cycles) (seen_gathered self.new) result }
        ensures stays { OnErr result (seen_gathered self.new ≡ seen_gathered self.old) }
        ensures kept { (net : ANet) → IsKept net self.old → IsKept net self.new }
    {
        if cycles > 1_000_000 {
            return Err(TargetFault::Limit {
                at,
                which: Which::RunLoop,
                number: 1_000_000,
            });
        }
        let cycles = cycles as u32;
        if self.cycles + cycles > 4_000_000 {
            return Err(TargetFault::Limit {
                at,
                which: Which::RunCycles,
                number: 4_000_000,
            });
        }
        self.cycles += cycles;
        Ok(run_of(cycles))
    }

    /// The run of an iRunLoop with this value. Takes no memory.
    pub fn run_value(&mut self, at: Place, value: &Value) -> Result<Option<BitStep>, TargetFault>
        requires { IsLimited self.old }
        ensures answer { Binds (run_value at (seen_gathered self.old) (seen_value value.now))
            (seen_gathered self.new) result }
        ensures stays { OnErr result (seen_gathered self.new ≡ seen_gathered self.old) }
        ensures kept { (net : ANet) → IsKept net self.old → IsKept net self.new }
    {
        match value {
            Value::Number(Number::Decimal(cycles)) => self.run(at, *cycles),
            _ => Err(TargetFault::BadCount { at }),
        }
    }

    /// Refuses where no iApply followed an iWrite or an iRead. Takes no memory.
    pub fn finish(&self) -> Result<(), TargetFault>
        ensures { Finishes (finish (seen_gathered self.now)) result }
    {
        match self.pending {
            Some(at) => Err(TargetFault::Unapplied { at }),
            None => Ok(()),
        }
    }
}
