// What may change from one clock to the next.
ghost use Rattle.std.specs.Prelude.{◌≡◌, ◌+◌, ◌<◌, ◌≤◌, ◌&&◌, ℕ, cond, false, get_or, length};
ghost use Rattle.std.specs.List.{list_any};
ghost use Rattle.net_wave.specs.Changes as changes;
ghost use Rattle.net_wave.specs.Header.{is_pin};

use crate::digits::{differs, expect_digit, tap_code};
use crate::var::{Var, is_pin};
use tap_machine::{Pins, TapState};

/// What a clock shows at the pins: what the player puts there and compares, TDO, and the state in which the
/// clock begins.
#[derive(Clone, Copy, Drop)]
pub(crate) struct Shown {
    pub pins: Pins,
    pub tdo: bool,
    pub tap: TapState,
}

/// Whether update stages of the network change where a clock ends in a state.
fn changes_update_stages(tap: TapState) -> bool
    ensures { result ≡ changes.changes_update_stages tap }
{
    match tap {
        TapState::UpdateDr => true,
        TapState::TestLogicReset => true,
        _ => false,
    }
}

/// Whether the instruction changes where a clock ends in a state.
fn changes_instruction(tap: TapState) -> bool
    ensures { result ≡ changes.changes_instruction tap }
{
    match tap {
        TapState::UpdateIr => true,
        TapState::TestLogicReset => true,
        _ => false,
    }
}

/// Whether a state is Run-Test/Idle.
fn is_idle(tap: TapState) -> bool
    ensures { result ≡ changes.is_idle tap }
{
    match tap {
        TapState::RunTestIdle => true,
        _ => false,
    }
}

/// Whether instruments have an event in a clock from one state to another.
fn has_instrument_event(before: TapState, now: TapState) -> bool
    ensures { result ≡ changes.has_instrument_event before now }
{
    changes_update_stages(now) || (is_idle(before) && is_idle(now))
}

/// Whether a clock that begins in a state changes shift stages of the network.
fn changes_shift_stages(tap: TapState) -> bool
    ensures { result ≡ changes.changes_shift_stages tap }
{
    match tap {
        TapState::CaptureDr => true,
        TapState::ShiftDr => true,
        _ => false,
    }
}

/// Whether a variable may have another value at a clock than at the one before it.
pub(crate) fn may_change(before: &Shown, now: &Shown, var: Var) -> bool
    ensures { result ≡ changes.may_change before.now now.now var }
{
    match var {
        Var::Tms => before.pins.tms != now.pins.tms,
        Var::Tdi => before.pins.tdi != now.pins.tdi,
        Var::Tdo => before.tdo != now.tdo,
        Var::Expect => expect_digit(before.pins.expect) != expect_digit(now.pins.expect),
        Var::Differs => {
            differs(before.pins.expect, before.tdo) != differs(now.pins.expect, now.tdo)
        }
        Var::Tap => tap_code(before.tap) != tap_code(now.tap),
        Var::Instruction => changes_instruction(now.tap),
        Var::Scan => before.pins.scan != now.pins.scan,
        Var::Bit => before.pins.bit != now.pins.bit,
        Var::Update(_) => changes_update_stages(now.tap),
        Var::Shift(_) => changes_shift_stages(before.tap),
        Var::OnPath(_) => changes_update_stages(now.tap),
        Var::Row(_) => changes_update_stages(now.tap),
        Var::Input(_, _) => has_instrument_event(before.tap, now.tap),
        Var::Output(_, _) => has_instrument_event(before.tap, now.tap),
        Var::Word(_, _) => has_instrument_event(before.tap, now.tap),
    }
}

/// Whether a variable is a shift stage.
fn is_shift(var: Var) -> bool
    ensures { result ≡ changes.is_shift var }
{
    match var {
        Var::Shift(_) => true,
        _ => false,
    }
}

/// The place after a variable if that is a pin, and the earlier one if not.
fn pins_end_after(var: Var, i: usize, place: usize) -> usize
    requires { i < usize.MAX }
    ensures { result ≡ cond (is_pin var) (i + 1) place }
{
    if is_pin(var) { i + 1 } else { place }
}

/// A place from which on no variable is a pin.
pub(crate) fn after_pins(vars: &[Var]) -> usize
    ensures few { result ≤ length vars.now }
    ensures rest { (k : ℕ) → result ≤ k → k < length vars.now → is_pin (get_or vars.now k Var.Tms) ≡ false }
{
    let mut place = 0;
    for i in 0..vars.len() {
        place = pins_end_after(vars[i], i, place);
    }
    place
}

/// Whether there are shift stages among some variables.
pub(crate) fn has_shifts(vars: &[Var]) -> bool
    ensures { result ≡ list_any changes.is_shift vars.now }
{
    for var in vars {
        if is_shift(*var) {
            return true;
        }
    }
    false
}

/// Whether shift stages change at a clock that begins in a state, if they are kept.
pub(crate) fn moves_stages(kept: bool, tap: TapState) -> bool
    ensures { result ≡ (kept && changes.changes_shift_stages tap) }
{
    kept && changes_shift_stages(tap)
}

/// How many variables are to be looked at, from the first on: those after them stay from a clock to the next.
/// `pins` is a place from which on there is no pin, and without `shifts` there are no shift stages.
pub(crate) fn vars_to_check(
    vars: &[Var],
    pins: usize,
    shifts: bool,
    before: &Shown,
    now: &Shown,
) -> usize
    requires few { pins ≤ length vars.now }
    requires pins { (k : ℕ) → pins ≤ k → k < length vars.now → is_pin (get_or vars.now k Var.Tms) ≡ false }
    requires shifts { shifts ≡ false → list_any changes.is_shift vars.now ≡ false }
    ensures few { result ≤ length vars.now }
    ensures rest { changes.Stay before.now now.now vars.now result }
{
    if has_instrument_event(before.tap, now.tap) {
        return vars.len();
    }
    if moves_stages(shifts, before.tap) {
        return vars.len();
    }
    pins
}
