// What the names of a table line mean, and which of them are at fault.
ghost use Rattle.std.specs.Prelude.{◌≡◌, ◌+◌, ◌<◌, ◌≤◌, ◌||◌, not, map, length, option_map, is_some, IfSome};
ghost use Rattle.std.specs.List.{list_any};
ghost use Rattle.instruments.specs.Seen.{seen_word, seen_port, seen_memory, seen_out, seen_model};
ghost use Rattle.instruments.specs.Models.{memory_names, names};
ghost use Rattle.table_file.specs.Tables.{named, stands_in, word_named, input_named, operand_named};
ghost use Rattle.table_file.specs.Tables.{cond_operand, no_operand, no_entry, no_slot, no_amount, target};
ghost use Rattle.table_file.specs.Tables.{row_name_fault, name_fault, has_twice};
ghost use Rattle.table_lines.specs.SeenSaid.{seen_entry, seen_slot, seen_amount, seen_cond, seen_set};
ghost use Rattle.table_lines.specs.SeenSaid.{seen_row, seen_said};

use instruments::{MemDef, Model, Operand, OutDef, PortDef, WordDef};
use table_lines::{SaidAmount, SaidCond, SaidEntry, SaidLine, SaidRow, SaidSet, SaidSlot, is};

/// The number of the word of a name.
fn find_word(words: &[WordDef], name: &[u8]) -> Option<usize>
    ensures value { result ≡ named name.now (map (λ d. d.name) (map seen_word words.now)) }
    ensures there { IfSome result (λ k. k < length words.now) }
{
    for i in 0..words.len() {
        if is(words[i].name.as_slice(), name) {
            return Some(i);
        }
    }
    None
}

/// The number of the input of a name.
fn find_input(ins: &[PortDef], name: &[u8]) -> Option<usize>
    ensures value { result ≡ named name.now (map (λ d. d.name) (map seen_port ins.now)) }
    ensures there { IfSome result (λ k. k < length ins.now) }
{
    for i in 0..ins.len() {
        if is(ins[i].name.as_slice(), name) {
            return Some(i);
        }
    }
    None
}

fn has_out(outs: &[OutDef], name: &[u8]) -> bool
    ensures { result ≡ stands_in name.now (map (λ d. d.name) (map seen_out outs.now)) }
{
    for d in outs {
        if is(d.name.as_slice(), name) {
            return true;
        }
    }
    false
}

fn names_memory(mem: &Option<MemDef>, name: &[u8]) -> bool
    ensures { result ≡ stands_in name.now (memory_names (option_map seen_memory mem.now)) }
{
    match mem {
        Some(d) => is(d.name.as_slice(), name),
        None => false,
    }
}

/// The number of the word of a name.
pub(crate) fn word_named(m: &Model, name: &[u8]) -> Option<u32>
    requires { length m.now.words.items ≤ 8 }
    ensures value { result ≡ word_named (seen_model m.now) name.now }
    ensures there { IfSome result (λ k. k < length m.now.words.items) }
{
    let k = find_word(m.words.as_slice(), name)?;
    Some(k as u32)
}

/// The number of the input of a name.
pub(crate) fn input_named(m: &Model, name: &[u8]) -> Option<u32>
    requires { length m.now.ins.items ≤ 16 }
    ensures value { result ≡ input_named (seen_model m.now) name.now }
    ensures there { IfSome result (λ k. k < length m.now.ins.items) }
{
    let k = find_input(m.ins.as_slice(), name)?;
    Some(k as u32)
}

/// The word or input of a name.
pub(crate) fn operand_named(m: &Model, name: &[u8]) -> Option<Operand>
    requires words { length m.now.words.items ≤ 8 }
    requires ins { length m.now.ins.items ≤ 16 }
    ensures { result ≡ operand_named (seen_model m.now) name.now }
{
    if let Some(k) = word_named(m, name) {
        return Some(Operand::Word(k));
    }
    match input_named(m, name) {
        Some(k) => Some(Operand::Input(k)),
        None => None,
    }
}

/// The operand of a condition.
pub(crate) fn cond_operand(m: &Model, c: &SaidCond) -> Option<Operand>
    requires words { length m.now.words.items ≤ 8 }
    requires ins { length m.now.ins.items ≤ 16 }
    ensures { result ≡ cond_operand (seen_model m.now) (seen_cond c.now) }
{
    if !c.old {
        return operand_named(m, c.name);
    }
    match input_named(m, c.name) {
        Some(k) => Some(Operand::Old(k)),
        None => None,
    }
}

fn no_operand(m: &Model, name: &[u8]) -> bool
    requires words { length m.now.words.items ≤ 8 }
    requires ins { length m.now.ins.items ≤ 16 }
    ensures { result ≡ no_operand (seen_model m.now) name.now }
{
    operand_named(m, name).is_none()
}

fn no_entry(m: &Model, e: &SaidEntry) -> bool
    requires words { length m.now.words.items ≤ 8 }
    requires ins { length m.now.ins.items ≤ 16 }
    ensures { result ≡ no_entry (seen_model m.now) (seen_entry e.now) }
{
    !names_memory(&m.mem, e.memory) || no_operand(m, e.index)
}

fn no_slot(m: &Model, slot: &SaidSlot) -> bool
    requires words { length m.now.words.items ≤ 8 }
    requires ins { length m.now.ins.items ≤ 16 }
    ensures { result ≡ no_slot (seen_model m.now) (seen_slot slot.now) }
{
    match slot {
        SaidSlot::Word(name) => word_named(m, name).is_none(),
        SaidSlot::Entry(e) => no_entry(m, e),
    }
}

fn no_amount(m: &Model, amount: &SaidAmount) -> bool
    requires words { length m.now.words.items ≤ 8 }
    requires ins { length m.now.ins.items ≤ 16 }
    ensures { result ≡ no_amount (seen_model m.now) (seen_amount amount.now) }
{
    match amount {
        SaidAmount::Number(_) => false,
        SaidAmount::Copy(name) => no_operand(m, name),
        SaidAmount::Plus(name, _) => no_operand(m, name),
        SaidAmount::Minus(name, _) => no_operand(m, name),
        SaidAmount::Entry(e) => no_entry(m, e),
    }
}

fn cond_fault(m: &Model, c: &SaidCond) -> bool
    requires words { length m.now.words.items ≤ 8 }
    requires ins { length m.now.ins.items ≤ 16 }
    ensures { result ≡ not (is_some (cond_operand (seen_model m.now) (seen_cond c.now))) }
{
    cond_operand(m, c).is_none()
}

fn set_fault(m: &Model, x: &SaidSet) -> bool
    requires words { length m.now.words.items ≤ 8 }
    requires ins { length m.now.ins.items ≤ 16 }
    ensures { result ≡ (no_slot (seen_model m.now) (seen_slot x.now.slot) || no_amount
        (seen_model m.now) (seen_amount x.now.amount)) }
{
    no_slot(m, &x.slot) || no_amount(m, &x.amount)
}

fn any_cond_fault(m: &Model, conds: &[SaidCond]) -> bool
    requires words { length m.now.words.items ≤ 8 }
    requires ins { length m.now.ins.items ≤ 16 }
    ensures { result
        ≡ list_any (λ c. not (is_some (cond_operand (seen_model m.now) c))) (map seen_cond conds.now) }
{
    for c in conds {
        if cond_fault(m, c) {
            return true;
        }
    }
    false
}

fn any_set_fault(m: &Model, sets: &[SaidSet]) -> bool
    requires words { length m.now.words.items ≤ 8 }
    requires ins { length m.now.ins.items ≤ 16 }
    ensures { result ≡ list_any (λ x. no_slot (seen_model m.now) x.slot || no_amount
        (seen_model m.now) x.amount) (map seen_set sets.now) }
{
    for x in sets {
        if set_fault(m, x) {
            return true;
        }
    }
    false
}

/// The name of what is set.
fn target<'a>(slot: &SaidSlot<'a>) -> &'a [u8]
    ensures { result.now ≡ target (seen_slot slot.now) }
{
    match slot {
        SaidSlot::Word(name) => name,
        SaidSlot::Entry(e) => e.memory,
    }
}

fn is_target(name: &[u8], sets: &[SaidSet]) -> bool
    ensures { result ≡ stands_in name.now (map (λ x. target x.slot) (map seen_set sets.now)) }
{
    for x in sets {
        if is(target(&x.slot), name) {
            return true;
        }
    }
    false
}

/// Whether two assignments set the same word, or both the memory.
fn set_twice(sets: &[SaidSet]) -> bool
    ensures { result ≡ has_twice (map (λ x. target x.slot) (map seen_set sets.now)) }
{
    for i in 0..sets.len() {
        if is_target(target(&sets[i].slot), &sets[i + 1..]) {
            return true;
        }
    }
    false
}

fn row_name_fault(m: &Model, row: &SaidRow) -> bool
    requires words { length m.now.words.items ≤ 8 }
    requires ins { length m.now.ins.items ≤ 16 }
    ensures { result ≡ row_name_fault (seen_model m.now) (seen_row row.now) }
{
    any_cond_fault(m, &row.conds) || any_set_fault(m, &row.sets) || set_twice(&row.sets)
}

fn has_word(words: &[WordDef], name: &[u8]) -> bool
    ensures { result ≡ stands_in name.now (map (λ d. d.name) (map seen_word words.now)) }
{
    for d in words {
        if is(d.name.as_slice(), name) {
            return true;
        }
    }
    false
}

fn has_input(ins: &[PortDef], name: &[u8]) -> bool
    ensures { result ≡ stands_in name.now (map (λ d. d.name) (map seen_port ins.now)) }
{
    for d in ins {
        if is(d.name.as_slice(), name) {
            return true;
        }
    }
    false
}

/// Whether an input, a word or the memory has a name.
fn is_taken(m: &Model, name: &[u8]) -> bool
    ensures { result ≡ stands_in name.now (names (seen_model m.now)) }
{
    has_input(m.ins.as_slice(), name)
        || has_word(m.words.as_slice(), name)
        || names_memory(&m.mem, name)
}

/// Whether a name of a line is at fault.
pub(crate) fn name_fault(m: &Model, l: &SaidLine) -> bool
    requires words { length m.now.words.items ≤ 8 }
    requires ins { length m.now.ins.items ≤ 16 }
    ensures { result ≡ name_fault (seen_model m.now) (seen_said l.now) }
{
    match l {
        SaidLine::Input { name, .. } => is_taken(m, name),
        SaidLine::Word { name, .. } => is_taken(m, name),
        SaidLine::Memory { name, .. } => is_taken(m, name),
        SaidLine::Output { name, slice } => {
            has_out(m.outs.as_slice(), name) || word_named(m, slice.word).is_none()
        }
        SaidLine::Change(row) => row_name_fault(m, row),
        SaidLine::Run(row) => row_name_fault(m, row),
        SaidLine::End => false,
    }
}
