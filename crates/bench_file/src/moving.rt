// Rows by the order of an instrument's inputs.
ghost use Rattle.std.specs.Prelude.{◌≡◌, ◌<◌, ◌≤◌, [], map, length, get_or, unwrap_or, IfOk, IfSome};
ghost use Rattle.instruments.specs.Seen.{seen_port, seen_row};
ghost use Rattle.table_file.specs.Tables.{named};
ghost use Rattle.bench_file.specs.Fits.{in_port, input_names, moved, operand_moved, cond_moved, slot_moved};
ghost use Rattle.bench_file.specs.Fits.{amount_moved, set_moved, row_moved};

use ij_bits::{List, OutOfMemory};
use instruments::{Amount, Cond, Operand, PortDef, RowDef, Set, Slot};
use net_graph::PortIn;
use std::alloc::Global;
use table_lines::is;

/// The number of the input of a name.
fn find_port(ports: &[PortIn], name: &[u8]) -> Option<usize>
    ensures value { result ≡ named name.now (input_names (map in_port ports.now)) }
    ensures there { IfSome result (λ k. k < length ports.now) }
{
    for i in 0..ports.len() {
        if is(ports[i].name.as_slice(), name) {
            return Some(i);
        }
    }
    None
}

/// The number of the input of a name, 0 where there is none.
fn port_number(ports: &[PortIn], name: &[u8]) -> u32
    requires { length ports.now ≤ 16 }
    ensures { result ≡ unwrap_or (named name.now (input_names (map in_port ports.now))) 0 }
{
    match find_port(ports, name) {
        Some(k) => k as u32,
        None => 0,
    }
}

/// The name of an input, empty where there is none.
fn name_at(ins: &[PortDef], k: u32) -> &[u8]
    ensures { result.now ≡ get_or (input_names (map seen_port ins.now)) k [] }
{
    let k = k as usize;
    if k < ins.len() {
        ins[k].name.as_slice()
    } else {
        &[]
    }
}

/// The number that an input has among an instrument's.
fn moved(k: u32, old: &[PortDef], new: &[PortIn]) -> u32
    requires { length new.now ≤ 16 }
    ensures { result ≡ moved (map seen_port old.now) (map in_port new.now) k }
{
    port_number(new, name_at(old, k))
}

fn operand_moved(o: Operand, old: &[PortDef], new: &[PortIn]) -> Operand
    requires { length new.now ≤ 16 }
    ensures { result ≡ operand_moved (map seen_port old.now) (map in_port new.now) o }
{
    match o {
        Operand::Word(k) => Operand::Word(k),
        Operand::Input(k) => Operand::Input(moved(k, old, new)),
        Operand::Old(k) => Operand::Old(moved(k, old, new)),
    }
}

fn cond_moved(c: &Cond, old: &[PortDef], new: &[PortIn]) -> Cond
    requires { length new.now ≤ 16 }
    ensures { result ≡ cond_moved (map seen_port old.now) (map in_port new.now) c.now }
{
    Cond {
        of: operand_moved(c.of, old, new),
        value: c.value,
        care: c.care,
    }
}

fn slot_moved(s: Slot, old: &[PortDef], new: &[PortIn]) -> Slot
    requires { length new.now ≤ 16 }
    ensures { result ≡ slot_moved (map seen_port old.now) (map in_port new.now) s }
{
    match s {
        Slot::Word(k) => Slot::Word(k),
        Slot::Entry(index) => Slot::Entry(operand_moved(index, old, new)),
    }
}

fn amount_moved(a: Amount, old: &[PortDef], new: &[PortIn]) -> Amount
    requires { length new.now ≤ 16 }
    ensures { result ≡ amount_moved (map seen_port old.now) (map in_port new.now) a }
{
    match a {
        Amount::Number(n) => Amount::Number(n),
        Amount::Copy(from) => Amount::Copy(operand_moved(from, old, new)),
        Amount::Plus(from, n) => Amount::Plus(operand_moved(from, old, new), n),
        Amount::Minus(from, n) => Amount::Minus(operand_moved(from, old, new), n),
        Amount::Entry(index) => Amount::Entry(operand_moved(index, old, new)),
    }
}

fn set_moved(x: &Set, old: &[PortDef], new: &[PortIn]) -> Set
    requires { length new.now ≤ 16 }
    ensures { result ≡ set_moved (map seen_port old.now) (map in_port new.now) x.now }
{
    Set {
        slot: slot_moved(x.slot, old, new),
        amount: amount_moved(x.amount, old, new),
    }
}

fn conds_moved(
    alloc: Global,
    conds: &[Cond],
    old: &[PortDef],
    new: &[PortIn],
) -> Result<List<Cond>, OutOfMemory>
    requires { length new.now ≤ 16 }
    ensures { IfOk result (λ l. l.items
        ≡ map (cond_moved (map seen_port old.now) (map in_port new.now)) conds.now) }
{
    let mut all = List::new(alloc);
    for c in conds {
        all.push(cond_moved(c, old, new))?;
    }
    Ok(all)
}

fn sets_moved(
    alloc: Global,
    sets: &[Set],
    old: &[PortDef],
    new: &[PortIn],
) -> Result<List<Set>, OutOfMemory>
    requires { length new.now ≤ 16 }
    ensures { IfOk result (λ l. l.items
        ≡ map (set_moved (map seen_port old.now) (map in_port new.now)) sets.now) }
{
    let mut all = List::new(alloc);
    for x in sets {
        all.push(set_moved(x, old, new))?;
    }
    Ok(all)
}

fn row_moved(
    alloc: Global,
    row: &RowDef,
    old: &[PortDef],
    new: &[PortIn],
) -> Result<RowDef, OutOfMemory>
    requires { length new.now ≤ 16 }
    ensures { IfOk result (λ r. seen_row r
        ≡ row_moved (map seen_port old.now) (map in_port new.now) (seen_row row.now)) }
{
    Ok(RowDef {
        conds: conds_moved(alloc, row.conds.as_slice(), old, new)?,
        sets: sets_moved(alloc, row.sets.as_slice(), old, new)?,
    })
}

/// Rows whose operands name the inputs of an instrument in its own order.
pub(crate) fn rows_moved(
    alloc: Global,
    rows: &[RowDef],
    old: &[PortDef],
    new: &[PortIn],
) -> Result<List<RowDef>, OutOfMemory>
    requires { length new.now ≤ 16 }
    ensures { IfOk result (λ l. map seen_row l.items
        ≡ map (row_moved (map seen_port old.now) (map in_port new.now)) (map seen_row rows.now)) }
{
    let mut all = List::new(alloc);
    for row in rows {
        all.push(row_moved(alloc, row, old, new)?)?;
    }
    Ok(all)
}
