// Following a signal bit to where its trace ends.
ghost use Rattle.std.specs.Prelude.{◌≡◌, ◌<◌, ◌≤◌, ℕ};
ghost use Rattle.ij_bits.specs.BitLists.{flip_if};
ghost use Rattle.icl_references.specs.Roles.{seen_body, seen_refs};
ghost use Rattle.icl_signals.specs.Wirings.{IsWiring, cells_of};
ghost use Rattle.icl_references.specs.RefRuns.{ref_after};
ghost use Rattle.icl_signals.specs.TrueEnds.{IsTrueEnd};
ghost use Rattle.icl_signals.specs.Alike.{end_after, next_bit, next_ref, wire_after};
ghost use Rattle.icl_signals.specs.Moves.{driver_of, role_move, one_ref, ref_in, is_instrument_cell};
ghost use Rattle.icl_signals.specs.Moves.{is_entry};
ghost use Rattle.icl_signals.specs.Traces.{follow, trace};
ghost use Rattle.std.specs.Option.{option_map};

use crate::alike::alike;
use crate::found::{known_end, turned_end};
use crate::parts::{is_top, part_at};
use crate::wires::{Driver, End, Wire};
use crate::wiring::Wiring;
use icl_elab::{Body, Ref};
use ij_runs::Runs;

fn one_ref(signal: Option<Ref>) -> Driver
    ensures { result ≡ one_ref signal }
{
    match signal {
        Some(r) => Driver::Another(r),
        None => Driver::NothingAtAll,
    }
}

/// The bit at a position, if there are any.
fn ref_in(refs: &Option<Runs<Ref>>, pos: u32) -> Driver
    ensures { result ≡ ref_in (option_map seen_refs refs.now) pos }
{
    match refs {
        Some(refs) => {
            if (pos as usize) < refs.len() {
                Driver::Another(refs.get(pos as usize))
            } else {
                Driver::NothingAtAll
            }
        }
        None => Driver::NothingAtAll,
    }
}

/// What a bit of a part stands for, where the part's cell may be the top or an instrument.
fn role_move(top: bool, instrument: bool, body: &Body, pos: u32) -> Driver
    ensures { result ≡ role_move top instrument (seen_body body.now) pos }
{
    match body {
        Body::Register { .. } => Driver::ARegisterBit,
        Body::Mux { .. } => Driver::AMuxOutput,
        Body::ScanIn { bound } => one_ref(*bound),
        Body::ScanOut { source } => one_ref(*source),
        Body::DataIn { bound } => {
            if top {
                Driver::AFreeInput
            } else {
                ref_in(bound, pos)
            }
        }
        Body::DataOut { source } => match source {
            Some(_) => ref_in(source, pos),
            None => {
                if instrument {
                    Driver::AnInstrumentOutput
                } else {
                    Driver::NothingAtAll
                }
            }
        },
        _ => Driver::NothingAtAll,
    }
}

fn is_instrument_cell(wiring: &Wiring, cell: u32) -> bool
    requires { IsWiring wiring.now }
    ensures { result ≡ is_instrument_cell (cells_of wiring.now) cell }
{
    match wiring.instruments.get(cell as usize) {
        Some(flag) => *flag,
        None => false,
    }
}

pub(crate) fn is_entry(entry: Wire, wire: Wire) -> bool
    ensures { result ≡ is_entry entry wire }
{
    wire.cell == entry.cell && wire.part == entry.part
}

/// What a bit stands for. Takes no memory.
#[tactic(auto, unfolding(crate::specs::Moves::driver_of))]
pub(crate) fn next_move(wiring: &Wiring, wire: Wire) -> Driver
    requires { IsWiring wiring.now }
    ensures { result ≡ driver_of (cells_of wiring.now) wiring.now.entry wire }
{
    if is_entry(wiring.entry, wire) {
        return Driver::TheEntry;
    }
    let top = is_top(wiring.hier, wire.cell);
    let instrument = is_instrument_cell(wiring, wire.cell);
    match part_at(wiring.hier, wire.cell, wire.part) {
        Some(part) => role_move(top, instrument, &part.body, wire.pos),
        None => Driver::NothingAtAll,
    }
}

pub(crate) fn flipped(turned: bool, inverted: bool) -> bool
    ensures { result ≡ flip_if turned inverted }
{
    if turned { !inverted } else { inverted }
}

/// The next bit of a trace, or its end.
#[derive(Clone, Copy, Drop)]
pub enum NextBit {
    /// The trace ends so.
    Ended(End),
    /// It goes on at this bit.
    At {
        /// The bit.
        wire: Wire,
        /// Whether the inverse of the bit is meant.
        inverted: bool,
    },
}

/// What a reference, inverted or not, leads to.
fn follow_ref(inverted: bool, r: Ref) -> NextBit
    ensures { result ≡ next_ref inverted r }
{
    match r {
        Ref::Fixed(b) => NextBit::Ended(End::AtConstant(flipped(inverted, b))),
        Ref::Bit {
            cell,
            part,
            pos,
            inverted: turned,
        } => NextBit::At {
            wire: Wire { cell, part, pos },
            inverted: flipped(turned, inverted),
        },
    }
}

/// One move of a trace. Takes no memory.
pub(crate) fn one_move(wiring: &Wiring, inverted: bool, wire: Wire) -> NextBit
    requires { IsWiring wiring.now }
    ensures { result ≡ next_bit inverted wire (driver_of (cells_of wiring.now) wiring.now.entry wire) }
{
    match next_move(wiring, wire) {
        Driver::Another(r) => follow_ref(inverted, r),
        stands => NextBit::Ended(End::AtBit {
            wire,
            inverted,
            stands,
        }),
    }
}

/// Where the traces of bits side by side end, so side by side: the end of the first one, and how many there
/// are.
#[derive(Clone, Copy, Drop)]
pub struct EndRun {
    /// The end of the first one.
    pub(crate) end: End,
    /// How many there are.
    pub(crate) count: u32,
}

/// Where the traces of bits side by side end, inverted or not, of so many bits from one on. Takes no memory.
fn follow(wiring: &Wiring, inverted: bool, wire: Wire, count: u32) -> EndRun
    requires wiring { IsWiring wiring.now }
    requires count { 1 ≤ count }
    ensures some { 1 ≤ result.count }
    ensures few { result.count ≤ count }
    ensures value { (k : ℕ) → k < result.count
        → follow (cells_of wiring.now) wiring.now.entry wiring.now.looks inverted (wire_after k wire)
        ≡ end_after k result.end }
    ensures told { (k : ℕ) → k < result.count
        → IsTrueEnd (cells_of wiring.now) wiring.now.entry (end_after k result.end) }
{
    let mut inverted = inverted;
    let mut wire = wire;
    let mut count = count;
    for _look in 0..wiring.looks {
        count = alike(wiring, wire, count);
        match one_move(wiring, inverted, wire) {
            NextBit::Ended(end) => return EndRun { end, count },
            NextBit::At {
                wire: other,
                inverted: turned,
            } => {
                wire = other;
                inverted = turned;
            }
        }
    }
    EndRun {
        end: End::InLoop,
        count,
    }
}

/// Where the traces of bits side by side end, inverted or not, of so many bits from one on: as it was found,
/// if it was. Takes no memory.
fn ends_from(wiring: &Wiring, inverted: bool, wire: Wire, count: u32) -> EndRun
    requires wiring { IsWiring wiring.now }
    requires count { 1 ≤ count }
    ensures some { 1 ≤ result.count }
    ensures few { result.count ≤ count }
    ensures value { (k : ℕ) → k < result.count
        → follow (cells_of wiring.now) wiring.now.entry wiring.now.looks inverted (wire_after k wire)
        ≡ end_after k result.end }
    ensures told { (k : ℕ) → k < result.count
        → IsTrueEnd (cells_of wiring.now) wiring.now.entry (end_after k result.end) }
{
    match known_end(wiring, wiring.ends.as_slice(), wire) {
        Some(run) => {
            if run.found.looks <= wiring.looks {
                EndRun {
                    end: turned_end(inverted, run.found.end),
                    count: run.count.min(count),
                }
            } else {
                follow(wiring, inverted, wire, count)
            }
        }
        None => follow(wiring, inverted, wire, count),
    }
}

/// Where the traces of a reference and of those after it end, of so many, side by side. Takes no memory.
#[tactic(auto, unfolding(crate::specs::Traces::trace))]
pub(crate) fn traces(wiring: &Wiring, r: Ref, count: u32) -> EndRun
    requires wiring { IsWiring wiring.now }
    requires count { 1 ≤ count }
    ensures some { 1 ≤ result.count }
    ensures few { result.count ≤ count }
    ensures value { (k : ℕ) → k < result.count
        → trace (cells_of wiring.now) wiring.now.entry (ref_after k r) ≡ end_after k result.end }
    ensures told { (k : ℕ) → k < result.count
        → IsTrueEnd (cells_of wiring.now) wiring.now.entry (end_after k result.end) }
{
    match r {
        Ref::Fixed(b) => EndRun {
            end: End::AtConstant(b),
            count,
        },
        Ref::Bit {
            cell,
            part,
            pos,
            inverted,
        } => ends_from(
            wiring,
            flipped(inverted, false),
            Wire { cell, part, pos },
            count,
        ),
    }
}

/// Where the trace of a reference ends. Takes no memory.
pub(crate) fn trace(wiring: &Wiring, r: Ref) -> End
    requires { IsWiring wiring.now }
    ensures value { result ≡ trace (cells_of wiring.now) wiring.now.entry r }
    ensures told { IsTrueEnd (cells_of wiring.now) wiring.now.entry result }
{
    traces(wiring, r, 1).end
}
