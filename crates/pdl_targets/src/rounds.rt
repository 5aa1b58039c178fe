// The rounds of an iApply.
ghost use Rattle.std.specs.Prelude.{◌≡◌, [], ◌∷◌, length, IfOk, OnOk};
ghost use Rattle.pdl_targets.specs.Insertion.{AreExcluded, put_at, put_in};
ghost use Rattle.pdl_targets.specs.Rounds.{rounds};
ghost use Rattle.pdl_targets.specs.SeenPlaces.{places_in};
ghost use Rattle.pdl_targets.specs.SeenRounds.{seen_rounds};
ghost use Rattle.pdl_targets.specs.Rows.{excluded_at};

use crate::rows::RowSets;
use ij_bits::{List, OutOfMemory};
use net_tree::Tree;
use std::alloc::Global;

/// How many rounds there are. 2^32 of them count as want of memory.
fn count_of(rounds: &[List<u32>]) -> Result<u32, OutOfMemory>
    ensures { IfOk result (λ count. count ≡ length rounds.now) }
{
    match u32::try_from(rounds.len()) {
        Ok(count) => Ok(count),
        Err(_) => Err(OutOfMemory),
    }
}

/// A round of one register.
fn round_of(alloc: Global, register: u32) -> Result<List<u32>, OutOfMemory>
    ensures { IfOk result (λ round. round.items ≡ register ∷ []) }
{
    let mut round = List::new(alloc);
    round.push(register)?;
    Ok(round)
}

/// Puts a register into a round, or into one of its own after the last.
fn put_at(
    alloc: Global,
    rounds: &mut Vec<List<u32>>,
    k: usize,
    register: u32,
) -> Result<(), OutOfMemory>
    ensures { OnOk result (seen_rounds rounds.new.items ≡ put_at (seen_rounds rounds.old.items) k register) }
{
    if k < rounds.len() {
        rounds[k].push(register)?;
        return Ok(());
    }
    rounds.push(round_of(alloc, register)?)?;
    Ok(())
}

/// Puts a register into the first round with none of whose registers it clashes, or into a round of its own.
/// The table says in which rounds the rows around their registers are.
fn put_in(
    alloc: Global,
    tree: &Tree,
    rows: &mut RowSets,
    rounds: &mut Vec<List<u32>>,
    register: u32,
) -> Result<(), OutOfMemory>
    requires { AreExcluded (places_in tree.now) (seen_rounds rounds.old.items) (excluded_at rows.old) }
    ensures put { OnOk result (seen_rounds rounds.new.items
        ≡ put_in (places_in tree.now) (seen_rounds rounds.old.items) register) }
    ensures rows { OnOk result
        (AreExcluded (places_in tree.now) (seen_rounds rounds.new.items) (excluded_at rows.new)) }
{
    let place = tree.place_of(register);
    let count = count_of(rounds)?;
    let k = rows.first_open_round(place.as_slice(), count);
    rows.add_all(place.as_slice(), k)?;
    put_at(alloc, rounds, k as usize, register)?;
    Ok(())
}

/// The rounds of registers. The table is emptied first.
pub(crate) fn rounds(
    alloc: Global,
    tree: &Tree,
    rows: &mut RowSets,
    registers: &[u32],
) -> Result<Vec<List<u32>>, OutOfMemory>
    ensures { IfOk result (λ list. seen_rounds list.items ≡ rounds (places_in tree.now) registers.now) }
{
    rows.clear();
    let mut list = Vec::new(alloc);
    for register in registers {
        put_in(alloc, tree, rows, &mut list, *register)?;
    }
    Ok(list)
}
