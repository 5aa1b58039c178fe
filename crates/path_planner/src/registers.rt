// The registers that a group names.
ghost use Rattle.std.specs.Prelude.{◌≡◌, [], map, IfOk, OnOk};
ghost use Rattle.net_graph.specs.Groups.{registers_of};
ghost use Rattle.net_graph.specs.SeenSteps.{seen_group};
ghost use Rattle.path_planner.specs.Registers.{last_reg_is, add_register, add_registers};

use ij_bits::{List, OutOfMemory};
use net_graph::{Group, ReadBit, WriteBit};
use std::alloc::Global;

/// Whether the last of some registers is this one.
fn last_reg_is(regs: &[u32], reg: u32) -> bool
    ensures { result ≡ last_reg_is regs.now reg }
{
    match regs {
        [.., last] => *last == reg,
        [] => false,
    }
}

/// Adds a register, unless it came last.
fn add_register(regs: &mut List<u32>, reg: u32) -> Result<(), OutOfMemory>
    ensures { OnOk result (regs.new.items ≡ add_register regs.old.items reg) }
{
    if !last_reg_is(regs.as_slice(), reg) {
        regs.push(reg)?;
    }
    Ok(())
}

/// Adds the registers of written bits.
fn add_written(regs: &mut List<u32>, bits: &[WriteBit]) -> Result<(), OutOfMemory>
    ensures { OnOk result (regs.new.items ≡ add_registers regs.old.items (map (λ w. w.bit.reg) bits.now)) }
{
    for w in bits {
        add_register(regs, w.bit.reg)?;
    }
    Ok(())
}

/// Adds the registers of read bits.
fn add_read(regs: &mut List<u32>, bits: &[ReadBit]) -> Result<(), OutOfMemory>
    ensures { OnOk result (regs.new.items ≡ add_registers regs.old.items (map (λ r. r.bit.reg) bits.now)) }
{
    for r in bits {
        add_register(regs, r.bit.reg)?;
    }
    Ok(())
}

/// The registers that a group names, once for bits of one register that follow each other.
pub(crate) fn registers_named(alloc: Global, group: &Group) -> Result<List<u32>, OutOfMemory>
    ensures { IfOk result (λ regs. regs.items ≡ add_registers [] (registers_of (seen_group group.now))) }
{
    let mut regs = List::new(alloc);
    add_written(&mut regs, group.writes.as_slice())?;
    add_read(&mut regs, group.reads.as_slice())?;
    Ok(regs)
}
