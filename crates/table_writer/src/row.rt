// Rows.
ghost use Rattle.std.specs.Prelude.{◌≡◌, ◌<◌, ◌≤◌, ◌==◌, ◌++◌, map, codes, OnOk, OnErr};
ghost use Rattle.std.specs.Int.{bit_at};
ghost use Rattle.std.specs.List.{flat_map};
ghost use Rattle.ij_io.specs.Bytes.{Adds, AddsPart};
ghost use Rattle.ij_io.specs.Causes.{HasCause};
ghost use Rattle.ij_bits.specs.BitLists.{bits_of};
ghost use Rattle.instruments.specs.Models.{IsModel};
ghost use Rattle.instruments.specs.Seen.{seen_model, seen_row};
ghost use Rattle.bench_file.specs.Written.{digit, digits, compared_text, cond_text, slot_text, amount_text};
ghost use Rattle.bench_file.specs.Written.{set_text, when_text, parted, row_text};
ghost use Rattle.table_writer.specs.Pieces.{sum_text, next_cond, next_set};

use crate::names::{old_mark, operand_name, operand_width, put_entry, put_operand, word_name};
use ij_bits::bit_of_number;
use ij_io::{Sink, StoreFault, Word, put_decimal, put_words};
use instruments::{Amount, Cond, Model, Operand, RowDef, Set, Slot};

/// The digit of a bit, `x` where it doesn't count.
fn digit(value: bool, care: bool) -> u8
    ensures { result ≡ digit value care }
{
    if !care {
        b'x'
    } else if value {
        b'1'
    } else {
        b'0'
    }
}

fn digit_at(value: u64, care: u64, i: u32) -> u8
    requires { i < 64 }
    ensures { result ≡ digit (bit_at value i == 1) (bit_at care i == 1) }
{
    digit(bit_of_number(value, i), bit_of_number(care, i))
}

/// Writes a digit for each bit, the highest first.
fn put_digits<K: Sink>(width: u32, value: u64, care: u64, k: &mut K) -> Result<(), StoreFault>
    requires { width ≤ 64 }
    ensures whole { OnOk result
        (Adds (K.taken k.old) (K.taken k.new) (digits (bits_of width value) (bits_of width care))) }
    ensures part { OnErr result
        (AddsPart (K.taken k.old) (K.taken k.new) (digits (bits_of width value) (bits_of width care))) }
    ensures cause { HasCause (K.faults k.old) (K.faults k.new) result StoreFault.Failed }
{
    for j in 0..width {
        k.write(&[digit_at(value, care, width - 1 - j)])?;
    }
    Ok(())
}

/// Writes the number of a condition that has x.
fn put_number_with_x<K: Sink>(
    width: u32,
    value: u64,
    care: u64,
    k: &mut K,
) -> Result<(), StoreFault>
    requires { width ≤ 64 }
    ensures whole { OnOk result (Adds (K.taken k.old) (K.taken k.new)
        (codes "0b" ++ digits (bits_of width value) (bits_of width care))) }
    ensures part { OnErr result (AddsPart (K.taken k.old) (K.taken k.new)
        (codes "0b" ++ digits (bits_of width value) (bits_of width care))) }
    ensures cause { HasCause (K.faults k.old) (K.faults k.new) result StoreFault.Failed }
{
    k.write(b"0b")?;
    put_digits(width, value, care, k)?;
    Ok(())
}

/// Writes the number of a condition.
fn put_compared<K: Sink>(width: u32, value: u64, care: u64, k: &mut K) -> Result<(), StoreFault>
    requires { width ≤ 64 }
    ensures whole { OnOk result (Adds (K.taken k.old) (K.taken k.new) (compared_text width value care)) }
    ensures part { OnErr result (AddsPart (K.taken k.old) (K.taken k.new) (compared_text width value care)) }
    ensures cause { HasCause (K.faults k.old) (K.faults k.new) result StoreFault.Failed }
{
    if u128::from(care) == (1u128 << width) - 1 {
        put_decimal(value, k)
    } else {
        put_number_with_x(width, value, care, k)
    }
}

fn put_cond<K: Sink>(m: &Model, c: &Cond, k: &mut K) -> Result<(), StoreFault>
    requires { IsModel (seen_model m.now) }
    ensures whole { OnOk result (Adds (K.taken k.old) (K.taken k.new) (cond_text (seen_model m.now) c.now)) }
    ensures part { OnErr result
        (AddsPart (K.taken k.old) (K.taken k.new) (cond_text (seen_model m.now) c.now)) }
    ensures cause { HasCause (K.faults k.old) (K.faults k.new) result StoreFault.Failed }
{
    put_operand(m, c.of, k)?;
    k.write(b" = ")?;
    put_compared(operand_width(m, c.of), c.value, c.care, k)?;
    Ok(())
}

/// Writes a condition after another one.
fn put_next_cond<K: Sink>(m: &Model, c: &Cond, k: &mut K) -> Result<(), StoreFault>
    requires { IsModel (seen_model m.now) }
    ensures whole { OnOk result (Adds (K.taken k.old) (K.taken k.new) (next_cond (seen_model m.now) c.now)) }
    ensures part { OnErr result
        (AddsPart (K.taken k.old) (K.taken k.new) (next_cond (seen_model m.now) c.now)) }
    ensures cause { HasCause (K.faults k.old) (K.faults k.new) result StoreFault.Failed }
{
    k.write(b", ")?;
    put_cond(m, c, k)?;
    Ok(())
}

fn put_more_conds<K: Sink>(m: &Model, conds: &[Cond], k: &mut K) -> Result<(), StoreFault>
    requires { IsModel (seen_model m.now) }
    ensures whole { OnOk result
        (Adds (K.taken k.old) (K.taken k.new) (flat_map (next_cond (seen_model m.now)) conds.now)) }
    ensures part { OnErr result
        (AddsPart (K.taken k.old) (K.taken k.new) (flat_map (next_cond (seen_model m.now)) conds.now)) }
    ensures cause { HasCause (K.faults k.old) (K.faults k.new) result StoreFault.Failed }
{
    for c in conds {
        put_next_cond(m, c, k)?;
    }
    Ok(())
}

fn put_first_conds<K: Sink>(
    m: &Model,
    first: &Cond,
    rest: &[Cond],
    k: &mut K,
) -> Result<(), StoreFault>
    requires { IsModel (seen_model m.now) }
    ensures whole { OnOk result (Adds (K.taken k.old) (K.taken k.new) (codes " when "
        ++ (cond_text (seen_model m.now) first.now ++ flat_map (next_cond (seen_model m.now)) rest.now))) }
    ensures part { OnErr result (AddsPart (K.taken k.old) (K.taken k.new) (codes " when "
        ++ (cond_text (seen_model m.now) first.now ++ flat_map (next_cond (seen_model m.now)) rest.now))) }
    ensures cause { HasCause (K.faults k.old) (K.faults k.new) result StoreFault.Failed }
{
    k.write(b" when ")?;
    put_cond(m, first, k)?;
    put_more_conds(m, rest, k)?;
    Ok(())
}

/// Writes the conditions; without one there is no `when`.
fn put_when<K: Sink>(m: &Model, conds: &[Cond], k: &mut K) -> Result<(), StoreFault>
    requires { IsModel (seen_model m.now) }
    ensures whole { OnOk result
        (Adds (K.taken k.old) (K.taken k.new) (when_text (seen_model m.now) conds.now)) }
    ensures part { OnErr result
        (AddsPart (K.taken k.old) (K.taken k.new) (when_text (seen_model m.now) conds.now)) }
    ensures cause { HasCause (K.faults k.old) (K.faults k.new) result StoreFault.Failed }
{
    match conds {
        [first, rest @ ..] => put_first_conds(m, first, rest, k),
        [] => Ok(()),
    }
}

fn put_slot<K: Sink>(m: &Model, slot: Slot, k: &mut K) -> Result<(), StoreFault>
    ensures whole { OnOk result (Adds (K.taken k.old) (K.taken k.new) (slot_text (seen_model m.now) slot)) }
    ensures part { OnErr result
        (AddsPart (K.taken k.old) (K.taken k.new) (slot_text (seen_model m.now) slot)) }
    ensures cause { HasCause (K.faults k.old) (K.faults k.new) result StoreFault.Failed }
{
    match slot {
        Slot::Word(w) => k.write(word_name(m, w)),
        Slot::Entry(index) => put_entry(m, index, k),
    }
}

/// Writes a sum or a difference.
#[tactic(auto, unfolding(ij_io::specs::Words::words_text))]
fn put_sum<'x, K: Sink>(
    m: &'x Model,
    from: Operand,
    sign: &'x [u8],
    n: u64,
    k: &mut K,
) -> Result<(), StoreFault>
    ensures whole { OnOk result
        (Adds (K.taken k.old) (K.taken k.new) (sum_text (seen_model m.now) from sign.now n)) }
    ensures part { OnErr result
        (AddsPart (K.taken k.old) (K.taken k.new) (sum_text (seen_model m.now) from sign.now n)) }
    ensures cause { HasCause (K.faults k.old) (K.faults k.new) result StoreFault.Failed }
{
    put_words(
        k,
        &[
            Word::Text(old_mark(from)),
            Word::Text(operand_name(m, from)),
            Word::Text(sign),
            Word::Number(n),
        ],
    )
}

fn put_amount<K: Sink>(m: &Model, amount: Amount, k: &mut K) -> Result<(), StoreFault>
    ensures whole { OnOk result
        (Adds (K.taken k.old) (K.taken k.new) (amount_text (seen_model m.now) amount)) }
    ensures part { OnErr result
        (AddsPart (K.taken k.old) (K.taken k.new) (amount_text (seen_model m.now) amount)) }
    ensures cause { HasCause (K.faults k.old) (K.faults k.new) result StoreFault.Failed }
{
    match amount {
        Amount::Number(n) => put_decimal(n, k),
        Amount::Copy(from) => put_operand(m, from, k),
        Amount::Plus(from, n) => put_sum(m, from, b" + ", n, k),
        Amount::Minus(from, n) => put_sum(m, from, b" - ", n, k),
        Amount::Entry(index) => put_entry(m, index, k),
    }
}

fn put_set<K: Sink>(m: &Model, x: &Set, k: &mut K) -> Result<(), StoreFault>
    ensures whole { OnOk result (Adds (K.taken k.old) (K.taken k.new) (set_text (seen_model m.now) x.now)) }
    ensures part { OnErr result
        (AddsPart (K.taken k.old) (K.taken k.new) (set_text (seen_model m.now) x.now)) }
    ensures cause { HasCause (K.faults k.old) (K.faults k.new) result StoreFault.Failed }
{
    put_slot(m, x.slot, k)?;
    k.write(b" = ")?;
    put_amount(m, x.amount, k)?;
    Ok(())
}

fn put_next_set<K: Sink>(m: &Model, x: &Set, k: &mut K) -> Result<(), StoreFault>
    ensures whole { OnOk result (Adds (K.taken k.old) (K.taken k.new) (next_set (seen_model m.now) x.now)) }
    ensures part { OnErr result
        (AddsPart (K.taken k.old) (K.taken k.new) (next_set (seen_model m.now) x.now)) }
    ensures cause { HasCause (K.faults k.old) (K.faults k.new) result StoreFault.Failed }
{
    k.write(b", ")?;
    put_set(m, x, k)?;
    Ok(())
}

fn put_more_sets<K: Sink>(m: &Model, sets: &[Set], k: &mut K) -> Result<(), StoreFault>
    ensures whole { OnOk result
        (Adds (K.taken k.old) (K.taken k.new) (flat_map (next_set (seen_model m.now)) sets.now)) }
    ensures part { OnErr result
        (AddsPart (K.taken k.old) (K.taken k.new) (flat_map (next_set (seen_model m.now)) sets.now)) }
    ensures cause { HasCause (K.faults k.old) (K.faults k.new) result StoreFault.Failed }
{
    for x in sets {
        put_next_set(m, x, k)?;
    }
    Ok(())
}

fn put_first_sets<K: Sink>(
    m: &Model,
    first: &Set,
    rest: &[Set],
    k: &mut K,
) -> Result<(), StoreFault>
    ensures whole { OnOk result (Adds (K.taken k.old) (K.taken k.new)
        (set_text (seen_model m.now) first.now ++ flat_map (next_set (seen_model m.now)) rest.now)) }
    ensures part { OnErr result (AddsPart (K.taken k.old) (K.taken k.new)
        (set_text (seen_model m.now) first.now ++ flat_map (next_set (seen_model m.now)) rest.now)) }
    ensures cause { HasCause (K.faults k.old) (K.faults k.new) result StoreFault.Failed }
{
    put_set(m, first, k)?;
    put_more_sets(m, rest, k)?;
    Ok(())
}

fn put_sets<K: Sink>(m: &Model, sets: &[Set], k: &mut K) -> Result<(), StoreFault>
    ensures whole { OnOk result (Adds (K.taken k.old) (K.taken k.new)
        (parted (codes ", ") (map (set_text (seen_model m.now)) sets.now))) }
    ensures part { OnErr result (AddsPart (K.taken k.old) (K.taken k.new)
        (parted (codes ", ") (map (set_text (seen_model m.now)) sets.now))) }
    ensures cause { HasCause (K.faults k.old) (K.faults k.new) result StoreFault.Failed }
{
    match sets {
        [first, rest @ ..] => put_first_sets(m, first, rest, k),
        [] => Ok(()),
    }
}

/// Writes a row of a kind.
pub(crate) fn put_row<K: Sink>(
    m: &Model,
    kind: &[u8],
    row: &RowDef,
    k: &mut K,
) -> Result<(), StoreFault>
    requires { IsModel (seen_model m.now) }
    ensures whole { OnOk result
        (Adds (K.taken k.old) (K.taken k.new) (row_text (seen_model m.now) kind.now (seen_row row.now))) }
    ensures part { OnErr result
        (AddsPart (K.taken k.old) (K.taken k.new) (row_text (seen_model m.now) kind.now (seen_row row.now))) }
    ensures cause { HasCause (K.faults k.old) (K.faults k.new) result StoreFault.Failed }
{
    k.write(kind)?;
    put_when(m, row.conds.as_slice(), k)?;
    k.write(b" do ")?;
    put_sets(m, row.sets.as_slice(), k)?;
    k.write(b"\n")?;
    Ok(())
}
