// Lists of values in runs: what is at each position, and which part of a run begins there.

use crate::texts::Shown;
use icl_elab::Ref;
use ij_bits::OutOfMemory;
use ij_runs::{Follow, Runs};
use std::alloc::Global;

/// A bit of a part.
fn bit(part: u32, pos: u32) -> Ref {
    Ref::Bit {
        cell: 0,
        part,
        pos,
        inverted: false,
    }
}

/// Adds a value: a constant, or the part and position of a bit.
fn show(shown: &mut Shown, r: Ref) {
    match r {
        Ref::Fixed(false) => shown.text(b"F"),
        Ref::Fixed(true) => shown.text(b"T"),
        Ref::Bit { part, pos, .. } => {
            shown.number(b"", part);
            shown.number(b".", pos);
        }
    }
}

/// The values of a list, and after each how many from there on are one run.
fn show_all(shown: &mut Shown, runs: &Runs<Ref>) {
    for i in 0..runs.len() {
        shown.gap();
        show(shown, runs.get(i));
        let part = runs.part_at(i);
        show(shown, part.first.after(part.from));
        shown.number(b"*", part.len);
    }
}

/// A list of three runs, the first of two pushes.
fn three_runs(alloc: Global) -> Result<Runs<Ref>, OutOfMemory> {
    let mut runs = Runs::new(alloc);
    runs.push_run(bit(1, 3), 2)?;
    runs.push(bit(1, 5))?;
    runs.push_run(bit(2, 6), 0)?;
    runs.push_run(Ref::Fixed(true), 2)?;
    runs.push(bit(2, 0))?;
    Ok(runs)
}

const THREE: &str = "1.31.3*3 1.41.4*2 1.51.5*1 TT*2 TT*1 2.02.0*1";

#[test]
fn a_run_goes_on_where_the_next_value_follows(rt: HostRuntime) -> Result<(), OutOfMemory> {
    let mut shown = Shown::new(rt.alloc());
    show_all(&mut shown, &three_runs(rt.alloc())?);
    shown.check(&rt, "three runs", THREE);
    Ok(())
}

#[test]
fn lists_are_put_together(rt: HostRuntime) -> Result<(), OutOfMemory> {
    let mut runs = Runs::new(rt.alloc());
    runs.push(bit(1, 2))?;
    runs.append(&three_runs(rt.alloc())?)?;
    runs.push(bit(2, 1))?;
    let mut shown = Shown::new(rt.alloc());
    show_all(&mut shown, &runs);
    shown.check(
        &rt,
        "together",
        "1.21.2*4 1.31.3*3 1.41.4*2 1.51.5*1 TT*2 TT*1 2.02.0*2 2.12.1*1",
    );
    Ok(())
}

/// What is refused: positions past those of 32 bits, and more values than 32 bits count.
const REFUSED: [(u32, u32); 2] = [(u32::MAX, 2), (0, u32::MAX)];

#[test]
fn what_cannot_be_counted_is_refused(rt: HostRuntime) -> Result<(), OutOfMemory> {
    let mut runs = three_runs(rt.alloc())?;
    for (pos, count) in &REFUSED {
        assert!(&rt;
            runs.push_run(bit(1, *pos), *count).is_err(),
            "{count} bits from {pos}"
        );
    }
    let mut shown = Shown::new(rt.alloc());
    show_all(&mut shown, &runs);
    shown.check(&rt, "after refusals", THREE);
    Ok(())
}
