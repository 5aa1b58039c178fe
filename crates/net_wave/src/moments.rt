// The moments of one clock, as text.
ghost use Rattle.std.specs.Prelude.{◌≡◌, ◌≤◌, ◌+◌, ◌*◌, ◌++◌, ◌∷◌, [], cond, decimal, false, true, length};
ghost use Rattle.std.specs.Prelude.{map, All, OnOk};
ghost use Rattle.std.specs.List.{flat_map, list_any};
ghost use Rattle.bench_report.specs.Report.{chip_of};
ghost use Rattle.instruments.specs.Seen.{seen_model};
ghost use Rattle.net_wave.specs.Changes.{Stay, WasTold, is_shift, later_changes, may_change as can_change};
ghost use Rattle.net_wave.specs.Changes.{pin_digits, pin_vars, pins_text, shown_at};
ghost use Rattle.net_wave.specs.Left.{IsScene, told_of};
ghost use Rattle.net_wave.specs.Moments as moments;
ghost use Rattle.net_wave.specs.Values as values;
ghost use Rattle.net_wave.specs.Vars.{IsVar};

use crate::codes::add_code;
use crate::digits::add_value_text;
use crate::pins::{add_levels, add_scan};
use crate::scene::Scene;
use crate::shown::{Shown, may_change};
use crate::texts::add;
use crate::var::Var;
use ij_bits::{List, OutOfMemory};
use ij_io::SureSink;
use std::mem::swap;

/// Adds the new digits of a variable, by its number.
fn add_change(number: u64, digits: &[u8], piece: &mut SureSink) -> Result<(), OutOfMemory>
    ensures { OnOk result
        (piece.new ≡ piece.old ++ moments.change_text (record { number = number; digits = digits.now })) }
{
    add_value_text(digits, piece)?;
    add_code(number, piece)?;
    add(b"\n", piece)?;
    Ok(())
}

/// Adds the digits of a variable, if they are written first or are others than were written last, and keeps
/// them as written.
fn add_if_new(
    number: u64,
    first: bool,
    told: &mut List<u8>,
    now: &mut List<u8>,
    piece: &mut SureSink,
) -> Result<(), OutOfMemory>
    ensures told { OnOk result (told.new.items ≡ now.old.items) }
    ensures text { OnOk result (piece.new ≡ piece.old
        ++ flat_map moments.change_text (moments.change_if first number told.old.items now.old.items)) }
{
    if first || told.as_slice() != now.as_slice() {
        add_change(number, now.as_slice(), piece)?;
        swap(told, now);
    }
    Ok(())
}

/// Adds a variable, by its number, if it is written first or has changed, and keeps what is written. What it
/// is now is found in `scratch`.
fn add_var(
    scene: &Scene,
    var: Var,
    number: u64,
    first: bool,
    changes: bool,
    told: &mut List<u8>,
    scratch: &mut List<u8>,
    piece: &mut SureSink,
) -> Result<(), OutOfMemory>
    requires scene { IsScene scene.now }
    requires there { IsVar scene.now.net.now (map seen_model scene.now.models.now.items) var }
    requires kept { scene.now.shifts ≡ false → is_shift var ≡ false }
    requires stays { first ≡ false → changes ≡ false
        → told.old.items ≡ values.value (chip_of scene.now.bench.now)
        (map seen_model scene.now.models.now.items) var scene.now.pins scene.now.bench.now.state }
    ensures told { OnOk result (told.new.items ≡ values.value (chip_of scene.now.bench.now)
        (map seen_model scene.now.models.now.items) var scene.now.pins scene.now.bench.now.state) }
    ensures text { OnOk result (piece.new ≡ piece.old ++ flat_map moments.change_text
        (moments.change_if first number told.old.items (values.value (chip_of scene.now.bench.now)
        (map seen_model scene.now.models.now.items) var scene.now.pins scene.now.bench.now.state))) }
{
    if !first && !changes {
        return Ok(());
    }
    scratch.clear();
    scene.add_value(var, scratch)?;
    add_if_new(number, first, told, scratch, piece)?;
    Ok(())
}

/// Adds the variables after the pins that are new at a clock, and keeps what is written. Those from `place`
/// on stay.
fn add_changes(
    scene: &Scene,
    vars: &[Var],
    place: usize,
    first: bool,
    last: &Shown,
    now: &Shown,
    told: &mut Vec<List<u8>>,
    scratch: &mut List<u8>,
    piece: &mut SureSink,
) -> Result<(), OutOfMemory>
    requires scene { IsScene scene.now }
    requires there { All (IsVar scene.now.net.now (map seen_model scene.now.models.now.items)) vars.now }
    requires kept { scene.now.shifts ≡ false → list_any is_shift vars.now ≡ false }
    requires same { length told.old.items ≡ length vars.now }
    requires place { place ≤ length vars.now }
    requires all { first ≡ true → place ≡ length vars.now }
    requires now { now.now ≡ shown_at (chip_of scene.now.bench.now) scene.now.pins scene.now.bench.now.state }
    requires stay { first ≡ false → Stay last.now now.now vars.now place }
    requires known { first ≡ false → WasTold (chip_of scene.now.bench.now) (map seen_model
        scene.now.models.now.items) vars.now (told_of told.old.items) last.now scene.now.bench.now.state }
    ensures told { OnOk result (told_of told.new.items ≡ values.values (chip_of scene.now.bench.now)
        (map seen_model scene.now.models.now.items) vars.now scene.now.pins scene.now.bench.now.state) }
    ensures text { OnOk result (piece.new ≡ piece.old ++ flat_map moments.change_text
        (later_changes first (told_of told.old.items) (values.values (chip_of scene.now.bench.now)
        (map seen_model scene.now.models.now.items) vars.now scene.now.pins scene.now.bench.now.state))) }
{
    for i in 0..place {
        let changes = may_change(last, now, vars[i]);
        add_var(
            scene,
            vars[i],
            i as u64 + 10,
            first,
            changes,
            &mut told[i],
            scratch,
            piece,
        )?;
    }
    Ok(())
}

/// Adds some words, if they are wanted.
fn add_words_if(wanted: bool, words: &[u8], piece: &mut SureSink) -> Result<(), OutOfMemory>
    ensures { OnOk result (piece.new ≡ piece.old ++ cond wanted words.now []) }
{
    if wanted {
        add(words, piece)
    } else {
        add(b"", piece)
    }
}

/// Adds the fall of TCK and the pins that are new at a clock, and keeps what is written of the instruction.
fn add_pins(
    scene: &Scene,
    first: bool,
    last: &Shown,
    now: &Shown,
    instruction: &mut List<u8>,
    scratch: &mut List<u8>,
    piece: &mut SureSink,
) -> Result<(), OutOfMemory>
    requires scene { IsScene scene.now }
    requires now { now.now ≡ shown_at (chip_of scene.now.bench.now) scene.now.pins scene.now.bench.now.state }
    requires known { first ≡ false
        → WasTold (chip_of scene.now.bench.now) (map seen_model scene.now.models.now.items)
        (Var.Instruction ∷ []) (instruction.old.items ∷ []) last.now scene.now.bench.now.state }
    ensures told { OnOk result (instruction.new.items
        ≡ values.bits_digits scene.now.bench.now.state.ir_hold) }
    ensures text { OnOk result (piece.new ≡ piece.old ++ pins_text first last.now now.now
        instruction.old.items (values.bits_digits scene.now.bench.now.state.ir_hold)) }
{
    add_levels(first, last, now, piece)?;
    let loads = may_change(last, now, Var::Instruction);
    add_var(
        scene,
        Var::Instruction,
        7,
        first,
        loads,
        instruction,
        scratch,
        piece,
    )?;
    add_scan(first, last, now, piece)?;
    Ok(())
}

/// Adds the moment at which TCK falls, the time of which has these digits, after a #. `last` and `now` are
/// what the clock before and this one show at the pins.
pub(crate) fn add_falling(
    scene: &Scene,
    vars: &[Var],
    place: usize,
    first: bool,
    last: &Shown,
    now: &Shown,
    clock: u64,
    digits: &[u8],
    instruction: &mut List<u8>,
    told: &mut Vec<List<u8>>,
    scratch: &mut List<u8>,
    piece: &mut SureSink,
) -> Result<(), OutOfMemory>
    requires scene { IsScene scene.now }
    requires there { All (IsVar scene.now.net.now (map seen_model scene.now.models.now.items)) vars.now }
    requires kept { scene.now.shifts ≡ false → list_any is_shift vars.now ≡ false }
    requires same { length told.old.items ≡ length vars.now }
    requires place { place ≤ length vars.now }
    requires all { first ≡ true → place ≡ length vars.now }
    requires digits { digits.now ≡ 35 ∷ decimal (moments.counted (2 * clock)) }
    requires now { now.now ≡ shown_at (chip_of scene.now.bench.now) scene.now.pins scene.now.bench.now.state }
    requires stay { first ≡ false → Stay last.now now.now vars.now place }
    requires known { first ≡ false → WasTold (chip_of scene.now.bench.now)
        (map seen_model scene.now.models.now.items) (pin_vars ++ vars.now) (pin_digits last.now
        instruction.old.items ++ told_of told.old.items) last.now scene.now.bench.now.state }
    ensures told { OnOk result (pin_digits now.now instruction.new.items ++ told_of told.new.items
        ≡ values.values (chip_of scene.now.bench.now) (map seen_model scene.now.models.now.items)
        (pin_vars ++ vars.now) scene.now.pins scene.now.bench.now.state) }
    ensures text { OnOk result (piece.new ≡ piece.old ++ moments.moment_text
        (moments.falling first clock (pin_digits last.now instruction.old.items ++ told_of told.old.items)
        (values.values (chip_of scene.now.bench.now) (map seen_model scene.now.models.now.items)
        (pin_vars ++ vars.now) scene.now.pins scene.now.bench.now.state))) }
{
    add(digits, piece)?;
    add_words_if(first, b"\n$dumpvars", piece)?;
    add_pins(scene, first, last, now, instruction, scratch, piece)?;
    add_changes(scene, vars, place, first, last, now, told, scratch, piece)?;
    add_words_if(first, b"$end\n", piece)?;
    Ok(())
}

/// Adds the moment at which TCK rises, the time of which has these digits, after a #.
pub(crate) fn add_rising(clock: u64, digits: &[u8], piece: &mut SureSink) -> Result<(), OutOfMemory>
    requires digits { digits.now ≡ 35 ∷ decimal (moments.counted (2 * clock + 1)) }
    ensures { OnOk result (piece.new ≡ piece.old ++ moments.moment_text (moments.rising clock)) }
{
    add(digits, piece)?;
    add(b"\n1!\n", piece)
}
