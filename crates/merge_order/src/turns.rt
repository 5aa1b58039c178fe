// The bit steps of a merge, turn by turn.
ghost use Rattle.std.specs.Prelude.{◌≡◌, ◌++◌, [], ◌∷◌, map, IfOk, OnOk};
ghost use Rattle.net_graph.specs.SeenSteps.{Apply, seen_step};
ghost use Rattle.pdl_targets.specs.Binding.{run_of};
ghost use Rattle.pdl_targets.specs.SeenPlaces.{places_in};
ghost use Rattle.merge_order.specs.Merge as merge;
ghost use Rattle.merge_order.specs.SeenJoins.{seen_applies, seen_joins};
ghost use Rattle.merge_order.specs.SeenTurns.{seen_heads, seen_lists, seen_slices, seen_steps};

use crate::joining::all_joins;
use crate::named::Named;
use ij_bits::{List, OutOfMemory};
use net_graph::{BitStep, Group};
use net_tree::Tree;
use std::alloc::Global;
use std::cmp::max;

/// Puts a bit step after iApplys, each by its rounds, if it is one.
fn add_apply<'a>(applies: &mut Vec<&'a [Group]>, step: &'a BitStep) -> Result<(), OutOfMemory>
    ensures { OnOk result (seen_applies applies.new.items
        ≡ seen_applies applies.old.items ++ merge.applies_in (seen_step step.now ∷ [])) }
{
    if let BitStep::Apply(rounds) = step {
        applies.push(rounds.as_slice())?;
    }
    Ok(())
}

/// The iApplys of a turn, each by its rounds.
fn applies_in<'a>(alloc: Global, heads: &[&'a BitStep]) -> Result<Vec<&'a [Group]>, OutOfMemory>
    ensures { IfOk result (λ v. seen_applies v.items ≡ merge.applies_in (seen_heads heads.now)) }
{
    let mut applies = Vec::new(alloc);
    for step in heads {
        add_apply(&mut applies, step)?;
    }
    Ok(applies)
}

/// The cycles that a bit step runs.
fn cycles_of(step: &BitStep) -> u32
    ensures { result ≡ merge.cycles_of (seen_step step.now) }
{
    match step {
        BitStep::Run(cycles) => *cycles,
        _ => 0,
    }
}

/// The most cycles that a branch runs in a turn.
fn longest_run(heads: &[&BitStep]) -> u32
    ensures { result ≡ merge.longest_run (seen_heads heads.now) }
{
    let mut longest = 0;
    for step in heads {
        longest = max(longest, cycles_of(step));
    }
    longest
}

/// Puts joins after bit steps, each as one iApply.
fn put_joins(joins: Vec<Vec<Group>>, steps: &mut List<BitStep>) -> Result<(), OutOfMemory>
    ensures { OnOk result (seen_steps steps.new.items
        ≡ seen_steps steps.old.items ++ map Apply (seen_joins joins.items)) }
{
    for join in joins {
        steps.push(BitStep::Apply(List::from(join)))?;
    }
    Ok(())
}

/// Puts a run after bit steps, unless it has no cycle.
fn put_run(cycles: u32, steps: &mut List<BitStep>) -> Result<(), OutOfMemory>
    ensures { OnOk result (seen_steps steps.new.items
        ≡ seen_steps steps.old.items ++ merge.if_any (run_of cycles)) }
{
    if cycles > 0 {
        steps.push(BitStep::Run(cycles))?;
    }
    Ok(())
}

/// The joins of a turn.
fn turn_joins(
    alloc: Global,
    tree: &Tree,
    named: &mut Named,
    heads: &[&BitStep],
) -> Result<Vec<Vec<Group>>, OutOfMemory>
    ensures { IfOk result (λ js. seen_joins js.items
        ≡ merge.all_joins (places_in tree.now) (merge.applies_in (seen_heads heads.now))) }
{
    let applies = applies_in(alloc, heads)?;
    all_joins(alloc, tree, named, &applies)
}

/// Puts a turn after bit steps.
fn put_turn(
    alloc: Global,
    tree: &Tree,
    named: &mut Named,
    heads: &[&BitStep],
    steps: &mut List<BitStep>,
) -> Result<(), OutOfMemory>
    ensures { OnOk result (seen_steps steps.new.items
        ≡ seen_steps steps.old.items ++ merge.turn (places_in tree.now) (seen_heads heads.now)) }
{
    let joins = turn_joins(alloc, tree, named, heads)?;
    put_joins(joins, steps)?;
    put_run(longest_run(heads), steps)
}

/// The bit steps of a turn, and what is left of the branches after it.
#[derive(Drop)]
struct Turn<'a> {
    heads: Vec<&'a BitStep>,
    left: Vec<&'a [BitStep]>,
}

impl<'a> Turn<'a> {
    /// Takes the first bit step of a branch, if it has one.
    fn take(&mut self, branch: &'a [BitStep]) -> Result<(), OutOfMemory>
        ensures heads { OnOk result (seen_heads self.new.heads.items
            ≡ seen_heads self.old.heads.items ++ merge.firsts (seen_steps branch.now ∷ [])) }
        ensures left { OnOk result (seen_slices self.new.left.items
            ≡ seen_slices self.old.left.items ++ merge.later (seen_steps branch.now ∷ [])) }
    {
        if let [first, left @ ..] = branch {
            self.heads.push(first)?;
            self.left.push(left)?;
        }
        Ok(())
    }
}

/// The next turn of some branches.
fn next_turn<'a>(alloc: Global, branches: &[&'a [BitStep]]) -> Result<Turn<'a>, OutOfMemory>
    ensures heads { IfOk result (λ t. seen_heads t.heads.items ≡ merge.firsts (seen_slices branches.now)) }
    ensures left { IfOk result (λ t. seen_slices t.left.items ≡ merge.later (seen_slices branches.now)) }
{
    let mut turn = Turn {
        heads: Vec::new(alloc),
        left: Vec::new(alloc),
    };
    for branch in branches {
        turn.take(branch)?;
    }
    Ok(turn)
}

/// References to branches.
fn branch_references<'a>(
    alloc: Global,
    branches: &'a [List<BitStep>],
) -> Result<Vec<&'a [BitStep]>, OutOfMemory>
    ensures { IfOk result (λ v. seen_slices v.items ≡ seen_lists branches.now) }
{
    let mut all = Vec::new(alloc);
    for branch in branches {
        all.push(branch.as_slice())?;
    }
    Ok(all)
}

/// Puts the bit steps of a merge of these branches after none.
fn put_merged(
    alloc: Global,
    tree: &Tree,
    named: &mut Named,
    branches: &[List<BitStep>],
    steps: &mut List<BitStep>,
) -> Result<(), OutOfMemory>
    requires { steps.old.items ≡ [] }
    ensures { OnOk result (seen_steps steps.new.items
        ≡ merge.merged (places_in tree.now) (seen_lists branches.now)) }
{
    let mut left = branch_references(alloc, branches)?;
    while !left.is_empty() {
        let turn = next_turn(alloc, &left)?;
        put_turn(alloc, tree, named, &turn.heads, steps)?;
        left = turn.left;
    }
    Ok(())
}

/// The bit steps of a merge of these branches. The tables may be those of an earlier merge.
pub(crate) fn merged_by(
    alloc: Global,
    tree: &Tree,
    named: &mut Named,
    branches: &[List<BitStep>],
) -> Result<List<BitStep>, OutOfMemory>
    ensures { IfOk result (λ l. seen_steps l.items
        ≡ merge.merged (places_in tree.now) (seen_lists branches.now)) }
{
    let mut steps = List::new(alloc);
    match put_merged(alloc, tree, named, branches, &mut steps) {
        Ok(()) => Ok(steps),
        Err(fault) => {
            drop(steps);
            Err(fault)
        }
    }
}

/// The bit steps of a merge of these branches.
pub fn merged(
    alloc: Global,
    tree: &Tree,
    branches: &[List<BitStep>],
) -> Result<List<BitStep>, OutOfMemory>
    ensures { IfOk result (λ l. seen_steps l.items
        ≡ merge.merged (places_in tree.now) (seen_lists branches.now)) }
{
    let mut named = Named::new(alloc);
    merged_by(alloc, tree, &mut named, branches)
}
