// The rows around the registers of a round.
ghost use Rattle.std.specs.Prelude.{◌≡◌, ◌++◌, ◌||◌, Bool, flat_map, Some, true, IfOk, OnOk};
ghost use Rattle.std.specs.List.{list_any};
ghost use Rattle.net_graph.specs.declared.branch.Branch.{Branch as ABranch};
ghost use Rattle.net_graph.specs.SeenSteps.{seen_group};
ghost use Rattle.pdl_targets.specs.SeenPlaces.{places_in};
ghost use Rattle.merge_order.specs.RowsAround.{HasLast};
ghost use Rattle.merge_order.specs.Tables.{SameRows, rows_around};

use ij_bits::{List, OutOfMemory};
use net_graph::{Branch, Group, ReadBit, WriteBit};
use net_tree::Tree;
use std::alloc::Global;

/// Puts rows after others.
fn add_rows(rows: &mut List<Branch>, more: &[Branch]) -> Result<(), OutOfMemory>
    ensures { OnOk result (rows.new.items ≡ rows.old.items ++ more.now) }
{
    for row in more {
        rows.push(*row)?;
    }
    Ok(())
}

/// Rows around registers, and the last register, if there is one.
#[derive(Drop)]
pub(crate) struct RowsAround {
    pub rows: List<Branch>,
    pub last: Option<u32>,
}

impl RowsAround {
    /// Whether a register is the last one.
    fn is_last(&self, register: u32) -> bool
        ensures { result ≡ true → self.now.last ≡ Some register }
    {
        match self.last {
            Some(last) => last == register,
            None => false,
        }
    }

    /// Adds the rows around a register, if it isn't the last one.
    fn add(&mut self, tree: &Tree, register: u32) -> Result<(), OutOfMemory>
        requires { HasLast (places_in tree.now) self.old }
        ensures rows { OnOk result ((test : ABranch → Bool) → list_any test self.new.rows.items
            ≡ (list_any test self.old.rows.items || list_any test (places_in tree.now register))) }
        ensures last { OnOk result (HasLast (places_in tree.now) self.new) }
    {
        if self.is_last(register) {
            return Ok(());
        }
        add_rows(&mut self.rows, tree.place_of(register).as_slice())?;
        self.last = Some(register);
        Ok(())
    }

    /// Adds the rows around the registers of some writes.
    fn add_written(&mut self, tree: &Tree, writes: &[WriteBit]) -> Result<(), OutOfMemory>
        requires { HasLast (places_in tree.now) self.old }
        ensures rows { OnOk result ((test : ABranch → Bool)
            → list_any test self.new.rows.items ≡ (list_any test self.old.rows.items || list_any test
            (flat_map (λ w. places_in tree.now w.bit.reg) writes.now))) }
        ensures last { OnOk result (HasLast (places_in tree.now) self.new) }
    {
        for write in writes {
            self.add(tree, write.bit.reg)?;
        }
        Ok(())
    }

    /// Adds the rows around the registers of some reads.
    fn add_read(&mut self, tree: &Tree, reads: &[ReadBit]) -> Result<(), OutOfMemory>
        requires { HasLast (places_in tree.now) self.old }
        ensures rows { OnOk result ((test : ABranch → Bool)
            → list_any test self.new.rows.items ≡ (list_any test self.old.rows.items || list_any test
            (flat_map (λ r. places_in tree.now r.bit.reg) reads.now))) }
        ensures last { OnOk result (HasLast (places_in tree.now) self.new) }
    {
        for read in reads {
            self.add(tree, read.bit.reg)?;
        }
        Ok(())
    }
}

/// The rows around the registers that a round names. A register is looked up once for bits of it that follow
/// each other.
pub(crate) fn rows_around(
    alloc: Global,
    tree: &Tree,
    group: &Group,
) -> Result<List<Branch>, OutOfMemory>
    ensures { IfOk result
        (λ rows. SameRows rows.items (rows_around (places_in tree.now) (seen_group group.now))) }
{
    let mut around = RowsAround {
        rows: List::new(alloc),
        last: None,
    };
    around.add_written(tree, group.writes.as_slice())?;
    around.add_read(tree, group.reads.as_slice())?;
    Ok(around.rows)
}
