// The joins of a turn.
ghost use Rattle.std.specs.Prelude.{◌≡◌, ◌≤◌, ◌++◌, ◌∷◌, [], true, false, length, IfOk, OnOk};
ghost use Rattle.net_graph.specs.SeenSteps.{seen_group};
ghost use Rattle.pdl_targets.specs.SeenPlaces.{places_in};
ghost use Rattle.pdl_targets.specs.SeenRounds.{seen_groups};
ghost use Rattle.merge_order.specs.Insertion.{is_closed, join_at, put_at, put_apply, put_round, with_round};
ghost use Rattle.merge_order.specs.Merge as merge;
ghost use Rattle.merge_order.specs.Named.{Tells};
ghost use Rattle.merge_order.specs.SeenJoins.{seen_applies, seen_joins};

use crate::around::rows_around;
use crate::copies::{add_group, copied, copied_rounds};
use crate::named::Named;
use ij_bits::OutOfMemory;
use net_graph::Group;
use net_tree::Tree;
use std::alloc::Global;

/// How many joins there are. 2^32 of them count as want of memory.
fn count_of(joins: &[Vec<Group>]) -> Result<u32, OutOfMemory>
    ensures { IfOk result (λ n. n ≡ length joins.now) }
{
    u32::try_from(joins.len()).map_err(|_| OutOfMemory)
}

/// Puts a round into the round of a join that has one.
fn add_round(join: &mut [Group], round: &Group) -> Result<(), OutOfMemory>
    ensures { is_closed (seen_groups join.old) ≡ false
        → OnOk result (seen_groups join.new ≡ with_round (seen_groups join.old) (seen_group round.now)) }
{
    match join {
        [group] => add_group(group, round),
        _ => Ok(()),
    }
}

/// A join of one round.
fn join_of_round(alloc: Global, round: &Group) -> Result<Vec<Group>, OutOfMemory>
    ensures { IfOk result (λ j. seen_groups j.items ≡ seen_group round.now ∷ []) }
{
    let mut join = Vec::with_capacity(alloc, 1)?;
    join.push_reserved(copied(alloc, round)?);
    Ok(join)
}

/// Puts a round into the join of this number, or after the joins.
fn put_at(
    alloc: Global,
    joins: &mut Vec<Vec<Group>>,
    place: u32,
    round: &Group,
) -> Result<(), OutOfMemory>
    ensures { place ≤ length joins.old.items
        → is_closed (join_at (seen_joins joins.old.items) place) ≡ false → OnOk result
        (seen_joins joins.new.items ≡ put_at place (seen_group round.now) (seen_joins joins.old.items)) }
{
    let place = place as usize;
    if place < joins.len() {
        let join = &mut joins[place];
        add_round(join, round)?;
    } else {
        // The room comes first: no end of this function lets go of a join.
        joins.reserve(1)?;
        joins.push_reserved(join_of_round(alloc, round)?);
    }
    Ok(())
}

/// Puts a round into the first join that can take it, or after the joins.
fn put_round(
    alloc: Global,
    tree: &Tree,
    named: &mut Named,
    joins: &mut Vec<Vec<Group>>,
    round: &Group,
) -> Result<(), OutOfMemory>
    requires { Tells (places_in tree.now) named.old (seen_joins joins.old.items) }
    ensures joins { OnOk result (seen_joins joins.new.items
        ≡ put_round (places_in tree.now) (seen_group round.now) (seen_joins joins.old.items)) }
    ensures tells { OnOk result (Tells (places_in tree.now) named.new (seen_joins joins.new.items)) }
{
    let around = rows_around(alloc, tree, round)?;
    let count = count_of(joins)?;
    let place = named.first_join(round, around.as_slice(), count);
    named.add(round, around.as_slice(), place)?;
    put_at(alloc, joins, place, round)?;
    Ok(())
}

/// Puts the rounds of an iApply after the joins: none, or more than one.
fn put_rounds(
    alloc: Global,
    _tree: &Tree,
    named: &mut Named,
    joins: &mut Vec<Vec<Group>>,
    rounds: &[Group],
) -> Result<(), OutOfMemory>
    requires tells { Tells (places_in _tree.now) named.old (seen_joins joins.old.items) }
    requires closed { is_closed (seen_groups rounds.now) ≡ true }
    ensures joins { OnOk result
        (seen_joins joins.new.items ≡ seen_joins joins.old.items ++ seen_groups rounds.now ∷ []) }
    ensures tells { OnOk result (Tells (places_in _tree.now) named.new (seen_joins joins.new.items)) }
{
    let count = count_of(joins)?;
    named.close(count)?;
    joins.push(copied_rounds(alloc, rounds)?)?;
    Ok(())
}

/// Puts an iApply into the first join that can take it, or after the joins.
fn put_apply(
    alloc: Global,
    tree: &Tree,
    named: &mut Named,
    joins: &mut Vec<Vec<Group>>,
    rounds: &[Group],
) -> Result<(), OutOfMemory>
    requires { Tells (places_in tree.now) named.old (seen_joins joins.old.items) }
    ensures joins { OnOk result (seen_joins joins.new.items
        ≡ put_apply (places_in tree.now) (seen_joins joins.old.items) (seen_groups rounds.now)) }
    ensures tells { OnOk result (Tells (places_in tree.now) named.new (seen_joins joins.new.items)) }
{
    match rounds {
        [round] => put_round(alloc, tree, named, joins, round),
        _ => put_rounds(alloc, tree, named, joins, rounds),
    }
}

/// The joins of these iApplys.
pub(crate) fn all_joins(
    alloc: Global,
    tree: &Tree,
    named: &mut Named,
    applies: &[&[Group]],
) -> Result<Vec<Vec<Group>>, OutOfMemory>
    ensures { IfOk result (λ js. seen_joins js.items
        ≡ merge.all_joins (places_in tree.now) (seen_applies applies.now)) }
{
    named.clear();
    let mut joins = Vec::new(alloc);
    for rounds in applies {
        put_apply(alloc, tree, named, &mut joins, rounds)?;
    }
    Ok(joins)
}
