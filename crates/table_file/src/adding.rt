// What a line whose faults were ruled out says of a model.
ghost use Rattle.std.specs.Prelude.{◌≡◌, ◌-◌, ◌^◌, ◌<◌, ◌≤◌, map, length, IfOk, IfSome, All};
ghost use Rattle.instruments.specs.Seen.{seen_out, seen_row as seen_model_row, seen_model};
ghost use Rattle.table_file.specs.Tables.{known, operand_of, cond_width, cond_said, slot_said, amount_said};
ghost use Rattle.table_file.specs.Tables.{set_said, row_said, out_said};
ghost use Rattle.table_lines.specs.SeenSaid.{seen_slot, seen_cond, seen_slice, seen_amount, seen_set};
ghost use Rattle.table_lines.specs.SeenSaid.{seen_row};
ghost use Rattle.instruments.specs.Models.{word_width};
ghost use Rattle.table_file.specs.Small.{AreNarrow, IsFewAmount};

use crate::names::{cond_operand, operand_named};
use crate::widths::{cond_width, known, slice_word, word_width};
use ij_bits::{List, OutOfMemory};
use ij_text::name_of;
use instruments::{Amount, Cond, Model, Operand, OutDef, RowDef, Set, Slot};
use std::alloc::Global;
use table_lines::{
    SaidAmount, SaidCond, SaidRow, SaidSet, SaidSlot, Slice, care_in, plain_number, value_in,
};

/// The operand of a name; one that isn't there comes only in a line whose names are at fault.
fn operand_of(m: &Model, name: &[u8]) -> Operand
    requires words { length m.now.words.items ≤ 8 }
    requires ins { length m.now.ins.items ≤ 16 }
    ensures { result ≡ operand_of (seen_model m.now) name.now }
{
    known(operand_named(m, name))
}

/// The width of what a condition compares.
fn compared_width(m: &Model, c: &SaidCond) -> u32
    requires words { length m.now.words.items ≤ 8 }
    requires ins { length m.now.ins.items ≤ 16 }
    requires narrow { AreNarrow (seen_model m.now) }
    ensures value { result ≡ cond_width (seen_model m.now) (seen_cond c.now) }
    ensures few { result ≤ 64 }
{
    cond_width(m, c)
}

/// A condition, its number being none that is wide.
fn cond_said(m: &Model, c: &SaidCond) -> Cond
    requires words { length m.now.words.items ≤ 8 }
    requires ins { length m.now.ins.items ≤ 16 }
    requires narrow { AreNarrow (seen_model m.now) }
    ensures { result ≡ cond_said (seen_model m.now) (seen_cond c.now) }
{
    let width = compared_width(m, c);
    Cond {
        of: known(cond_operand(m, c)),
        value: value_in(&c.number, width),
        care: care_in(&c.number, width),
    }
}

fn slot_said(m: &Model, slot: &SaidSlot) -> Slot
    requires words { length m.now.words.items ≤ 8 }
    requires ins { length m.now.ins.items ≤ 16 }
    ensures { result ≡ slot_said (seen_model m.now) (seen_slot slot.now) }
{
    match slot {
        SaidSlot::Word(name) => Slot::Word(slice_word(m, name)),
        SaidSlot::Entry(e) => Slot::Entry(operand_of(m, e.index)),
    }
}

fn amount_said(m: &Model, amount: &SaidAmount) -> Amount
    requires words { length m.now.words.items ≤ 8 }
    requires ins { length m.now.ins.items ≤ 16 }
    requires few { IsFewAmount (seen_amount amount.now) }
    ensures { result ≡ amount_said (seen_model m.now) (seen_amount amount.now) }
{
    match amount {
        SaidAmount::Number(n) => Amount::Number(plain_number(n)),
        SaidAmount::Copy(name) => Amount::Copy(operand_of(m, name)),
        SaidAmount::Plus(name, n) => Amount::Plus(operand_of(m, name), *n as u64),
        SaidAmount::Minus(name, n) => Amount::Minus(operand_of(m, name), *n as u64),
        SaidAmount::Entry(e) => Amount::Entry(operand_of(m, e.index)),
    }
}

fn set_said(m: &Model, x: &SaidSet) -> Set
    requires words { length m.now.words.items ≤ 8 }
    requires ins { length m.now.ins.items ≤ 16 }
    requires few { IsFewAmount (seen_amount x.now.amount) }
    ensures { result ≡ set_said (seen_model m.now) (seen_set x.now) }
{
    Set {
        slot: slot_said(m, &x.slot),
        amount: amount_said(m, &x.amount),
    }
}

fn conds_said(alloc: Global, m: &Model, conds: &[SaidCond]) -> Result<List<Cond>, OutOfMemory>
    requires words { length m.now.words.items ≤ 8 }
    requires ins { length m.now.ins.items ≤ 16 }
    requires narrow { AreNarrow (seen_model m.now) }
    ensures { IfOk result (λ cs. cs.items ≡ map (cond_said (seen_model m.now)) (map seen_cond conds.now)) }
{
    let mut all = List::new(alloc);
    for c in conds {
        all.push(cond_said(m, c))?;
    }
    Ok(all)
}

fn sets_said(alloc: Global, m: &Model, sets: &[SaidSet]) -> Result<List<Set>, OutOfMemory>
    requires words { length m.now.words.items ≤ 8 }
    requires ins { length m.now.ins.items ≤ 16 }
    requires few { All (λ x. IsFewAmount (seen_amount x.amount)) sets.now }
    ensures { IfOk result (λ xs. xs.items ≡ map (set_said (seen_model m.now)) (map seen_set sets.now)) }
{
    let mut all = List::new(alloc);
    for x in sets {
        all.push(set_said(m, x))?;
    }
    Ok(all)
}

/// A row whose numbers fit.
pub(crate) fn row_said(alloc: Global, m: &Model, row: &SaidRow) -> Result<RowDef, OutOfMemory>
    requires words { length m.now.words.items ≤ 8 }
    requires ins { length m.now.ins.items ≤ 16 }
    requires narrow { AreNarrow (seen_model m.now) }
    requires few { All (λ x. IsFewAmount (seen_amount x.amount)) row.now.sets.items }
    ensures { IfOk result (λ r. seen_model_row r ≡ row_said (seen_model m.now) (seen_row row.now)) }
{
    Ok(RowDef {
        conds: conds_said(alloc, m, &row.conds)?,
        sets: sets_said(alloc, m, &row.sets)?,
    })
}

/// The index of the highest bit of a word.
fn last_index(m: &Model, word: u32) -> u32
    ensures { result ≡ word_width (seen_model m.now) word - 1 }
{
    word_width(m, word).saturating_sub(1)
}

/// An output, its slice being within its word.
pub(crate) fn out_said(
    alloc: Global,
    m: &Model,
    name: &[u8],
    slice: &Slice,
) -> Result<OutDef, OutOfMemory>
    requires words { length m.now.words.items ≤ 8 }
    requires few { IfSome slice.now.bounds (λ b. (b.0 < 2 ^ 32) × (b.1 < 2 ^ 32)) }
    ensures { IfOk result (λ d. seen_out d
        ≡ out_said (seen_model m.now) name.now (seen_slice slice.now).word (seen_slice slice.now).bounds) }
{
    let name = name_of(alloc, name)?;
    let word = slice_word(m, slice.word);
    match slice.bounds {
        Some((left, right)) => Ok(OutDef {
            name,
            word,
            left: left as u32,
            right: right as u32,
        }),
        None => Ok(OutDef {
            name,
            word,
            left: last_index(m, word),
            right: 0,
        }),
    }
}
