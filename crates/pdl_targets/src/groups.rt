// The groups of an iApply, one for each round.
ghost use Rattle.std.specs.Prelude.{◌≡◌, [], map, true, IfOk, OnOk};
ghost use Rattle.net_graph.specs.SeenSteps.{seen_group};
ghost use Rattle.net_graph.specs.Path.{is_in};
ghost use Rattle.pdl_targets.specs.Laws.{AreEachOnce};
ghost use Rattle.pdl_targets.specs.Rounds.{groups};
ghost use Rattle.pdl_targets.specs.SeenPlaces.{places_in};
ghost use Rattle.pdl_targets.specs.SeenRounds.{AreGroups, AreOnceInAll, IsRoundOf, TakesRead, TakesWrite};
ghost use Rattle.pdl_targets.specs.SeenRounds.{seen_groups, seen_rounds, with_read, with_write};

use crate::rounds::rounds;
use crate::rows::RowSets;
use ij_bits::{List, OutOfMemory};
use net_graph::{BitId, BitMarks, Group, ReadBit, WriteBit};
use net_tree::Tree;
use std::alloc::Global;

/// Where a register is thought to stand: in which round, and at which place there.
#[derive(Clone, Copy, Drop)]
struct Hint {
    round: usize,
    place: usize,
}

/// Where registers are thought to stand, in the order of their marks. A hint is looked at before it is
/// believed.
#[derive(Drop)]
struct Hints<'a> {
    marks: &'a BitMarks,
    hints: Vec<Hint>,
}

/// Which hint is that of a register, whose mark counts from 1.
fn hint_number(marks: &BitMarks, register: u32) -> usize {
    let first = BitId {
        reg: register,
        pos: 0,
    };
    marks.get(first).saturating_sub(1) as usize
}

/// Notes where the registers of a round stand.
fn note_round(marks: &BitMarks, hints: &mut [Hint], round: usize, registers: &[u32]) {
    for place in 0..registers.len() {
        let number = hint_number(marks, registers[place]);
        if number < hints.len() {
            hints[number] = Hint { round, place };
        }
    }
}

/// The hints for this many registers, which are in these rounds.
fn hints_of<'a>(
    alloc: Global,
    marks: &'a BitMarks,
    rounds: &[List<u32>],
    count: usize,
) -> Result<Hints<'a>, OutOfMemory> {
    let mut hints = vec![in alloc; Hint { round: 0, place: 0 }; count]?;
    for round in 0..rounds.len() {
        note_round(marks, &mut hints, round, rounds[round].as_slice());
    }
    Ok(Hints { marks, hints })
}

/// Where a register is thought to stand.
fn hint_for(hints: &Hints, register: u32) -> Hint {
    let number = hint_number(hints.marks, register);
    if number < hints.hints.len() {
        hints.hints[number]
    } else {
        Hint { round: 0, place: 0 }
    }
}

/// Whether a register is in a round.
fn is_in(round: &[u32], register: u32) -> bool
    ensures { result ≡ is_in round.now register }
{
    for one in round {
        if *one == register {
            return true;
        }
    }
    false
}

/// Whether a register is at a place of a round.
fn is_at(round: &[u32], place: usize, register: u32) -> bool
    ensures { result ≡ true → is_in round.now register ≡ true }
{
    place < round.len() && round[place] == register
}

/// The first of some rounds that a register is in. It is asked where a hint is wrong.
fn round_among(rounds: &[List<u32>], register: u32) -> Option<usize>
    ensures { IsRoundOf (seen_rounds rounds.now) register result }
{
    for k in 0..rounds.len() {
        if is_in(rounds[k].as_slice(), register) {
            return Some(k);
        }
    }
    None
}

/// A round that a register is in, which is thought to stand there.
fn round_of(rounds: &[List<u32>], hint: Hint, register: u32) -> Option<usize>
    ensures { IsRoundOf (seen_rounds rounds.now) register result }
{
    let k = hint.round;
    if k < rounds.len() && is_at(rounds[k].as_slice(), hint.place, register) {
        return Some(k);
    }
    round_among(rounds, register)
}

/// Puts a write into a group.
fn put_write(groups: &mut Vec<Group>, k: usize, write: WriteBit) -> Result<(), OutOfMemory>
    ensures { OnOk result (seen_groups groups.new.items ≡ with_write (seen_groups groups.old.items) k write) }
{
    if k < groups.len() {
        groups[k].writes.push(write)?;
    }
    Ok(())
}

/// Puts a read into a group.
fn put_read(groups: &mut Vec<Group>, k: usize, read: ReadBit) -> Result<(), OutOfMemory>
    ensures { OnOk result (seen_groups groups.new.items ≡ with_read (seen_groups groups.old.items) k read) }
{
    if k < groups.len() {
        groups[k].reads.push(read)?;
    }
    Ok(())
}

/// Puts a write into the group of its round.
fn place_write(
    rounds: &[List<u32>],
    hints: &Hints,
    groups: &mut Vec<Group>,
    write: WriteBit,
) -> Result<(), OutOfMemory>
    requires { AreOnceInAll (seen_rounds rounds.now) }
    ensures { OnOk result (TakesWrite (seen_rounds rounds.now) write groups.old.items groups.new.items) }
{
    let register = write.bit.reg;
    match round_of(rounds, hint_for(hints, register), register) {
        Some(k) => put_write(groups, k, write),
        None => Ok(()),
    }
}

/// Puts a read into the group of its round.
fn place_read(
    rounds: &[List<u32>],
    hints: &Hints,
    groups: &mut Vec<Group>,
    read: ReadBit,
) -> Result<(), OutOfMemory>
    requires { AreOnceInAll (seen_rounds rounds.now) }
    ensures { OnOk result (TakesRead (seen_rounds rounds.now) read groups.old.items groups.new.items) }
{
    let register = read.bit.reg;
    match round_of(rounds, hint_for(hints, register), register) {
        Some(k) => put_read(groups, k, read),
        None => Ok(()),
    }
}

/// Puts each write into the group of its round.
fn place_writes(
    rounds: &[List<u32>],
    hints: &Hints,
    groups: &mut Vec<Group>,
    writes: &[WriteBit],
) -> Result<(), OutOfMemory>
    requires once { AreOnceInAll (seen_rounds rounds.now) }
    requires none { AreGroups (seen_rounds rounds.now) [] [] groups.old.items }
    ensures { OnOk result (AreGroups (seen_rounds rounds.now) writes.now [] groups.new.items) }
{
    for write in writes {
        place_write(rounds, hints, groups, *write)?;
    }
    Ok(())
}

/// Puts each read into the group of its round, with the writes.
fn place_reads(
    rounds: &[List<u32>],
    hints: &Hints,
    groups: &mut Vec<Group>,
    _writes: &[WriteBit],
    reads: &[ReadBit],
) -> Result<(), OutOfMemory>
    requires once { AreOnceInAll (seen_rounds rounds.now) }
    requires none { AreGroups (seen_rounds rounds.now) _writes.now [] groups.old.items }
    ensures { OnOk result (AreGroups (seen_rounds rounds.now) _writes.now reads.now groups.new.items) }
{
    for read in reads {
        place_read(rounds, hints, groups, *read)?;
    }
    Ok(())
}

/// An empty group for each round.
fn no_groups(alloc: Global, rounds: &[List<u32>]) -> Result<Vec<Group>, OutOfMemory>
    ensures { IfOk result (λ gs. AreGroups (seen_rounds rounds.now) [] [] gs.items) }
{
    let mut groups = Vec::new(alloc);
    for _round in rounds {
        groups.push(Group {
            writes: List::new(alloc),
            reads: List::new(alloc),
        })?;
    }
    Ok(groups)
}

/// The groups of a queue, one for each of these rounds.
fn groups_in(
    alloc: Global,
    rounds: &[List<u32>],
    hints: &Hints,
    writes: &[WriteBit],
    reads: &[ReadBit],
) -> Result<List<Group>, OutOfMemory>
    requires { AreOnceInAll (seen_rounds rounds.now) }
    ensures { IfOk result (λ gs. AreGroups (seen_rounds rounds.now) writes.now reads.now gs.items) }
{
    let mut groups = no_groups(alloc, rounds)?;
    place_writes(rounds, hints, &mut groups, writes)?;
    place_reads(rounds, hints, &mut groups, writes, reads)?;
    Ok(List::from(groups))
}

/// The groups of a queue, one for each round. The table is emptied first. The marks of the registers are
/// their places, counted from 1.
pub(crate) fn groups(
    alloc: Global,
    tree: &Tree,
    rows: &mut RowSets,
    marks: &BitMarks,
    writes: &[WriteBit],
    reads: &[ReadBit],
    registers: &[u32],
) -> Result<List<Group>, OutOfMemory>
    requires { AreEachOnce registers.now }
    ensures { IfOk result (λ gs. map seen_group gs.items
        ≡ groups (places_in tree.now) writes.now reads.now registers.now) }
{
    let rounds = rounds(alloc, tree, rows, registers)?;
    let hints = hints_of(alloc, marks, &rounds, registers.len())?;
    groups_in(alloc, &rounds, &hints, writes, reads)
}
