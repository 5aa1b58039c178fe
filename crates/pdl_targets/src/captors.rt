// Which register bits capture a signal, in an index.
ghost use Rattle.std.specs.Prelude.{◌≡◌, ◌<◌, ℕ, ◌^◌, length, All, IfOk, OnOk};
ghost use Rattle.ij_text.specs.Options.{or_else};
ghost use Rattle.net_graph.specs.declared.net.Sig.{Sig as ASignal};
ghost use Rattle.net_graph.specs.Nets.{IsNet};
ghost use Rattle.pdl_targets.specs.Captors.{Adds, AreCaptors, captors_in, captured, first_captor, picked};
ghost use Rattle.pdl_targets.specs.Captors.{slot, slot_of};
ghost use Rattle.pdl_targets.specs.Targets.{capturing, captured_from, compared};

use crate::picks::{Picked, capture_of, flip_if, is_inverted, picked_if_captures, same_source};
use ij_bits::{List, OutOfMemory};
use net_graph::{BitId, Net, Reg, Sig, Spot};
use std::alloc::Global;

/// A register bit, and what it captures.
#[derive(Clone, Copy, Drop)]
pub(crate) struct Captor {
    pub bit: BitId,
    pub signal: Sig,
}

/// Which register bits capture a signal: its slot lists them, in net order and then by position, with those
/// of the other signals of that slot.
#[derive(Drop)]
pub(crate) struct Captors {
    pub slots: Vec<List<Captor>>,
}

/// The slot of a bit of a register, or of an output of an instrument: a number below the prime 8191. Within
/// the limits two bits of one register or instrument have different slots.
fn slot(owner: u32, port: u32, pos: u32) -> usize
    ensures { result ≡ slot owner port pos }
{
    ((owner as u64 * 1031 + port as u64 * 67 + pos as u64) % 8191) as usize
}

/// The slot of a signal, and of its inverse. Constants have a slot of their own.
fn slot_of(signal: Sig) -> usize
    ensures { result ≡ slot_of signal }
{
    match signal {
        Sig::Bit { bit, inverted: _ } => slot(bit.reg, 0, bit.pos),
        Sig::Out {
            inst,
            port,
            pos,
            inverted: _,
        } => slot(inst, port, pos),
        Sig::Absent | Sig::Zero | Sig::One => 8191,
    }
}

/// The register bit, if it captures a signal or its inverse.
fn picked(captor: Captor, signal: Sig) -> Option<Picked>
    ensures { result ≡ picked captor signal }
{
    if same_source(captor.signal, signal) {
        Some(Picked {
            bit: captor.bit,
            inverted: flip_if(is_inverted(captor.signal), is_inverted(signal)),
        })
    } else {
        None
    }
}

/// The first of some register bits that captures a signal or its inverse.
fn first_captor(captors: &[Captor], signal: Sig) -> Option<Picked>
    ensures { result ≡ first_captor captors.now signal }
{
    for captor in captors {
        let found = picked(*captor, signal);
        if found.is_some() {
            return found;
        }
    }
    None
}

/// The first register bit that the slot of a signal lists for it.
fn captured(slots: &[List<Captor>], signal: Sig) -> Option<Picked>
    ensures { result ≡ captured slots.now signal }
{
    let slot = slot_of(signal);
    if slot < slots.len() {
        first_captor(slots[slot].as_slice(), signal)
    } else {
        None
    }
}

/// Makes a table long enough for a slot.
fn grow_slots(alloc: Global, slots: &mut Vec<List<Captor>>, slot: usize) -> Result<(), OutOfMemory>
    ensures same { OnOk result ((k : ℕ) → captors_in slots.new.items k ≡ captors_in slots.old.items k) }
    ensures long { OnOk result (slot < length slots.new.items) }
{
    'longer: while slots.len() <= slot {
        slots.push(List::new(alloc))?;
    }
    Ok(())
}

/// Adds a register bit after the others of its slot.
fn add_captor(
    alloc: Global,
    slots: &mut Vec<List<Captor>>,
    captor: Captor,
) -> Result<(), OutOfMemory>
    ensures { OnOk result (Adds slots.old.items slots.new.items captor) }
{
    let slot = slot_of(captor.signal);
    grow_slots(alloc, slots, slot)?;
    slots[slot].push(captor)?;
    Ok(())
}

/// Adds the bits of a register, position 0 first.
fn add_register(
    alloc: Global,
    slots: &mut Vec<List<Captor>>,
    reg: u32,
    captures: &[Sig],
) -> Result<(), OutOfMemory>
    requires { length captures.now < 2 ^ 32 }
    ensures { OnOk result ((s : ASignal) → captured slots.new.items s
        ≡ or_else (captured slots.old.items s) (capturing reg 0 captures.now s)) }
{
    for pos in 0..captures.len() {
        let signal = captures[pos];
        let pos = pos as u32;
        let bit = BitId { reg, pos };
        add_captor(alloc, slots, Captor { bit, signal })?;
    }
    Ok(())
}

/// The bits of all registers, in net order and then by position.
fn slots_of(alloc: Global, regs: &[Reg]) -> Result<Vec<List<Captor>>, OutOfMemory>
    requires few { length regs.now < 2 ^ 32 }
    requires short { All (λ reg. length reg.capture.items < 2 ^ 32) regs.now }
    ensures { IfOk result (λ slots. (s : ASignal) → captured slots.items s ≡ captured_from 0 regs.now s) }
{
    let mut slots = Vec::new(alloc);
    for reg in 0..regs.len() {
        add_register(alloc, &mut slots, reg as u32, regs[reg].capture.as_slice())?;
    }
    Ok(slots)
}

/// The index of a network.
pub(crate) fn captors_of(alloc: Global, net: &Net) -> Result<Captors, OutOfMemory>
    requires { IsNet net.now }
    ensures { IfOk result (λ captors. AreCaptors net.now captors.slots.items) }
{
    let slots = slots_of(alloc, net.regs.as_slice())?;
    Ok(Captors { slots })
}

/// The register bit that a read compares.
pub(crate) fn compared(net: &Net, captors: &Captors, spot: Spot) -> Option<Picked>
    requires { AreCaptors net.now captors.now.slots.items }
    ensures { result ≡ compared net.now spot }
{
    match spot {
        Spot::Held(bit) => picked_if_captures(bit, capture_of(net, bit)),
        Spot::Inward(signal) | Spot::Outward(signal) => captured(&captors.slots, signal),
    }
}
