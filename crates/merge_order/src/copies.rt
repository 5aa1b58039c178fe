// Copies of rounds.
ghost use Rattle.std.specs.Prelude.{◌≡◌, ◌++◌, IfOk, OnOk};
ghost use Rattle.pdl_targets.specs.SeenRounds.{seen_groups};
ghost use Rattle.net_graph.specs.SeenSteps.{seen_group};
ghost use Rattle.merge_order.specs.Merge as merge;

use ij_bits::{List, OutOfMemory};
use net_graph::{Group, ReadBit, WriteBit};
use std::alloc::Global;

/// Puts writes after others.
fn add_writes(writes: &mut List<WriteBit>, more: &[WriteBit]) -> Result<(), OutOfMemory>
    ensures { OnOk result (writes.new.items ≡ writes.old.items ++ more.now) }
{
    for write in more {
        writes.push(*write)?;
    }
    Ok(())
}

/// Puts reads after others.
fn add_reads(reads: &mut List<ReadBit>, more: &[ReadBit]) -> Result<(), OutOfMemory>
    ensures { OnOk result (reads.new.items ≡ reads.old.items ++ more.now) }
{
    for read in more {
        reads.push(*read)?;
    }
    Ok(())
}

/// Puts the writes and reads of a round after those of another.
pub(crate) fn add_group(group: &mut Group, other: &Group) -> Result<(), OutOfMemory>
    ensures { OnOk result (seen_group group.new ≡ merge.both (seen_group group.old) (seen_group other.now)) }
{
    add_writes(&mut group.writes, other.writes.as_slice())?;
    add_reads(&mut group.reads, other.reads.as_slice())?;
    Ok(())
}

/// A copy of a round.
pub(crate) fn copied(alloc: Global, group: &Group) -> Result<Group, OutOfMemory>
    ensures { IfOk result (λ g. seen_group g ≡ seen_group group.now) }
{
    let mut copy = Group {
        writes: List::new(alloc),
        reads: List::new(alloc),
    };
    add_group(&mut copy, group)?;
    Ok(copy)
}

/// Copies of rounds.
pub(crate) fn copied_rounds(alloc: Global, rounds: &[Group]) -> Result<Vec<Group>, OutOfMemory>
    ensures { IfOk result (λ gs. seen_groups gs.items ≡ seen_groups rounds.now) }
{
    let mut copies = Vec::new(alloc);
    for round in rounds {
        copies.push(copied(alloc, round)?)?;
    }
    Ok(copies)
}
