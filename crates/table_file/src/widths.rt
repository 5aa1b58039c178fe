// Numbers and names of a table line that don't fit a width.
ghost use Rattle.std.specs.Prelude.{◌≡◌, ◌<◌, ◌≤◌, ◌||◌, map, length, option_map, unwrap_or};
ghost use Rattle.std.specs.List.{list_any};
ghost use Rattle.instruments.specs.Seen.{seen_memory, seen_model};
ghost use Rattle.instruments.specs.After.{memory_width};
ghost use Rattle.instruments.specs.Models.{word_width, input_width, operand_width};
ghost use Rattle.table_lines.specs.Words.{is_wide};
ghost use Rattle.table_file.specs.Tables.{known, word_named, name_width, cond_width, slot_width};
ghost use Rattle.table_file.specs.Tables.{starts_above, bounds_outside, amount_wide, row_width_fault};
ghost use Rattle.table_file.specs.Tables.{width_fault};
ghost use Rattle.table_lines.specs.SeenSaid.{seen_slot, seen_amount, seen_cond, seen_set, seen_row};
ghost use Rattle.table_lines.specs.SeenSaid.{seen_starts, seen_said};

use crate::names::{cond_operand, operand_named, word_named};
use instruments::{MemDef, Model, Operand};
use table_lines::{
    SaidAmount, SaidCond, SaidLine, SaidRow, SaidSet, SaidSlot, StartNumbers, is_decimal_above,
    is_number_above, is_wide,
};

pub(crate) fn word_width(m: &Model, k: u32) -> u32
    ensures { result ≡ word_width (seen_model m.now) k }
{
    let k = k as usize;
    if k < m.words.len() {
        m.words.get(k).width
    } else {
        0
    }
}

fn input_width(m: &Model, k: u32) -> u32
    ensures { result ≡ input_width (seen_model m.now) k }
{
    let k = k as usize;
    if k < m.ins.len() {
        m.ins.get(k).width
    } else {
        0
    }
}

fn memory_width(mem: &Option<MemDef>) -> u32
    ensures { result ≡ memory_width (option_map seen_memory mem.now) }
{
    match mem {
        Some(d) => d.width,
        None => 0,
    }
}

fn operand_width(m: &Model, of: Operand) -> u32
    ensures { result ≡ operand_width (seen_model m.now) of }
{
    match of {
        Operand::Word(k) => word_width(m, k),
        Operand::Input(k) => input_width(m, k),
        Operand::Old(k) => input_width(m, k),
    }
}

/// The operand of a name; one that isn't there comes only in a line whose names are at fault.
pub(crate) fn known(of: Option<Operand>) -> Operand
    ensures { result ≡ known of }
{
    match of {
        Some(of) => of,
        None => Operand::Word(0),
    }
}

fn name_width(m: &Model, name: &[u8]) -> u32
    requires words { length m.now.words.items ≤ 8 }
    requires ins { length m.now.ins.items ≤ 16 }
    ensures { result ≡ name_width (seen_model m.now) name.now }
{
    operand_width(m, known(operand_named(m, name)))
}

pub(crate) fn cond_width(m: &Model, c: &SaidCond) -> u32
    requires words { length m.now.words.items ≤ 8 }
    requires ins { length m.now.ins.items ≤ 16 }
    ensures { result ≡ cond_width (seen_model m.now) (seen_cond c.now) }
{
    operand_width(m, known(cond_operand(m, c)))
}

fn slot_width(m: &Model, slot: &SaidSlot) -> u32
    requires words { length m.now.words.items ≤ 8 }
    ensures { result ≡ slot_width (seen_model m.now) (seen_slot slot.now) }
{
    match slot {
        SaidSlot::Word(name) => match word_named(m, name) {
            Some(k) => word_width(m, k),
            None => word_width(m, 0),
        },
        SaidSlot::Entry(_) => memory_width(&m.mem),
    }
}

fn amount_wide(m: &Model, width: u32, amount: &SaidAmount) -> bool
    requires words { length m.now.words.items ≤ 8 }
    requires ins { length m.now.ins.items ≤ 16 }
    ensures { result ≡ amount_wide (seen_model m.now) width (seen_amount amount.now) }
{
    match amount {
        SaidAmount::Number(n) => is_number_above(n, u128::from(width)),
        SaidAmount::Copy(name) => name_width(m, name) != width,
        SaidAmount::Plus(name, n) => {
            name_width(m, name) != width || is_decimal_above(*n, u128::from(width))
        }
        SaidAmount::Minus(name, n) => {
            name_width(m, name) != width || is_decimal_above(*n, u128::from(width))
        }
        SaidAmount::Entry(_) => memory_width(&m.mem) != width,
    }
}

fn cond_wide(m: &Model, c: &SaidCond) -> bool
    requires words { length m.now.words.items ≤ 8 }
    requires ins { length m.now.ins.items ≤ 16 }
    ensures { result ≡ is_wide (cond_width (seen_model m.now) (seen_cond c.now)) (seen_cond c.now).number }
{
    is_wide(&c.number, cond_width(m, c))
}

fn set_wide(m: &Model, x: &SaidSet) -> bool
    requires words { length m.now.words.items ≤ 8 }
    requires ins { length m.now.ins.items ≤ 16 }
    ensures { result ≡ amount_wide (seen_model m.now)
        (slot_width (seen_model m.now) (seen_slot x.now.slot)) (seen_amount x.now.amount) }
{
    amount_wide(m, slot_width(m, &x.slot), &x.amount)
}

fn any_cond_wide(m: &Model, conds: &[SaidCond]) -> bool
    requires words { length m.now.words.items ≤ 8 }
    requires ins { length m.now.ins.items ≤ 16 }
    ensures { result
        ≡ list_any (λ c. is_wide (cond_width (seen_model m.now) c) c.number) (map seen_cond conds.now) }
{
    for c in conds {
        if cond_wide(m, c) {
            return true;
        }
    }
    false
}

fn any_set_wide(m: &Model, sets: &[SaidSet]) -> bool
    requires words { length m.now.words.items ≤ 8 }
    requires ins { length m.now.ins.items ≤ 16 }
    ensures { result ≡ list_any (λ x. amount_wide (seen_model m.now)
        (slot_width (seen_model m.now) x.slot) x.amount) (map seen_set sets.now) }
{
    for x in sets {
        if set_wide(m, x) {
            return true;
        }
    }
    false
}

fn row_width_fault(m: &Model, row: &SaidRow) -> bool
    requires words { length m.now.words.items ≤ 8 }
    requires ins { length m.now.ins.items ≤ 16 }
    ensures { result ≡ row_width_fault (seen_model m.now) (seen_row row.now) }
{
    any_cond_wide(m, &row.conds) || any_set_wide(m, &row.sets)
}

fn starts_above(width: u128, s: &StartNumbers) -> bool
    ensures { result ≡ starts_above width (seen_starts s.now) }
{
    if is_number_above(&s.init, width) {
        return true;
    }
    match &s.reset {
        Some(n) => is_number_above(n, width),
        None => false,
    }
}

fn bounds_outside(width: u32, bounds: Option<(u128, u128)>) -> bool
    ensures { result ≡ bounds_outside width bounds }
{
    match bounds {
        Some((left, right)) => u128::from(width) <= left || left < right,
        None => false,
    }
}

/// The number of the word of a slice; one that isn't there comes only in a line whose names are at fault.
pub(crate) fn slice_word(m: &Model, name: &[u8]) -> u32
    requires { length m.now.words.items ≤ 8 }
    ensures { result ≡ unwrap_or (word_named (seen_model m.now) name.now) 0 }
{
    match word_named(m, name) {
        Some(k) => k,
        None => 0,
    }
}

/// Whether a number, a slice or a name of a line doesn't fit its width.
pub(crate) fn width_fault(m: &Model, l: &SaidLine) -> bool
    requires words { length m.now.words.items ≤ 8 }
    requires ins { length m.now.ins.items ≤ 16 }
    ensures { result ≡ width_fault (seen_model m.now) (seen_said l.now) }
{
    match l {
        SaidLine::Input { .. } => false,
        SaidLine::Word { width, starts, .. } => starts_above(*width, starts),
        SaidLine::Memory { width, starts, .. } => starts_above(*width, starts),
        SaidLine::Output { slice, .. } => {
            bounds_outside(word_width(m, slice_word(m, slice.word)), slice.bounds)
        }
        SaidLine::Change(row) => row_width_fault(m, row),
        SaidLine::Run(row) => row_width_fault(m, row),
        SaidLine::End => false,
    }
}
