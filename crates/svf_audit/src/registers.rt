// The scan registers of a network, before and after a scan.
ghost use Rattle.std.specs.Prelude.{◌≡◌, ◌+◌, ◌<◌, ◌≤◌, ◌++◌, [], true, false, length, drop, map};
ghost use Rattle.std.specs.Prelude.{vec_capacity, All, IfOk};
ghost use Rattle.std.specs.List.{list_all, list_any};
ghost use Rattle.net_graph.specs.declared.net.BitId.{BitId as ABit};
ghost use Rattle.net_graph.specs.Chain.{IsRoute, chain};
ghost use Rattle.net_graph.specs.Held.{IsHeld};
ghost use Rattle.net_graph.specs.Named.{bits_from};
ghost use Rattle.net_graph.specs.Nets.{IsNet};
ghost use Rattle.net_graph.specs.Path.{is_select, same_place};
ghost use Rattle.net_graph.specs.Resets.{reset_holds, start_holds};
ghost use Rattle.net_graph.specs.Signals.{hold_at};
ghost use Rattle.svf_audit.specs.Audit.{bits_on, has_row};
ghost use Rattle.svf_audit.specs.LastParts.{AreLastParts, seen_tdi};
ghost use Rattle.svf_audit.specs.Registers.{path_in, to_move, AreFound, AreListed, AreRegisters, AreShifted};
ghost use Rattle.svf_audit.specs.Registers.{AreStill, IsTurned};

use crate::last_parts::{LastParts, tdi_at, tdi_number};
use crate::scan::{have_rows, some_select};
use ij_bits::{Bits, Buffer, List, OutOfMemory};
use net_graph::{BitId, BitMarks, Holds, Net, find_path, selects_of};
use std::alloc::Global;
use std::mem::swap;

/// The most bits that a network has.
const MOST_BITS: u32 = 4096;

/// The scan registers: what they hold, the active path, nearest scan-out first, its bits and what these hold;
/// and what the registers hold after the scan at hand, with the bits that it changes. The bits are those of
/// the path at every time, as the width of a register stays.
#[derive(Drop)]
pub(crate) struct Registers<'a> {
    pub net: &'a Net,
    /// A mark at each bit that selects.
    pub selects: BitMarks,
    pub holds: Holds,
    pub path: Buffer<u32>,
    /// Room for the next path.
    pub next: Buffer<u32>,
    pub bits: Vec<BitId>,
    pub chain: Bits,
    /// Whether these three are those of the active path.
    pub found: bool,
    /// Whether it is known that each mux has a row for its select value.
    pub listed: bool,
    pub after: Holds,
    pub moved: Buffer<BitId>,
}

/// Adds the bits of a register.
fn add_bits(reg: u32, width: u32, bits: &mut Vec<BitId>)
    requires room { length bits.old.items + width ≤ vec_capacity bits.old }
    ensures items { bits.new.items ≡ bits.old.items ++ bits_from reg 0 width }
    ensures room { vec_capacity bits.new ≡ vec_capacity bits.old }
{
    for pos in 0..width {
        bits.push_reserved(BitId { reg, pos });
    }
}

/// Keeps of the bits of a path those of the registers with which another path begins as well, and answers how
/// many registers these are.
fn keep_common_front(path: &[u32], old: &[u32], holds: &Holds, bits: &mut Vec<BitId>) -> usize
    requires route { IsRoute (length holds.now) path.now }
    requires known { bits.old.items ≡ bits_on holds.now old.now }
    ensures within { result ≤ length path.now }
    ensures items { bits.new.items ++ bits_on holds.now (drop result path.now) ≡ bits_on holds.now path.now }
    ensures route { IsRoute (length holds.now) (drop result path.now) }
    ensures room { vec_capacity bits.new ≡ vec_capacity bits.old }
{
    let mut same = 0;
    let mut kept = 0;
    while same < path.len() && same < old.len() && path[same] == old[same] {
        kept += holds.register(path[same]).len() as usize;
        same += 1;
    }
    bits.truncate(kept);
    same
}

/// Makes the bits of a path those of another.
fn find_bits(path: &[u32], old: &[u32], holds: &Holds, bits: &mut Vec<BitId>)
    requires route { IsRoute (length holds.now) path.now }
    requires known { bits.old.items ≡ bits_on holds.now old.now }
    requires room { length (bits_on holds.now path.now) ≤ vec_capacity bits.old }
    ensures items { bits.new.items ≡ bits_on holds.now path.now }
    ensures room { vec_capacity bits.new ≡ vec_capacity bits.old }
{
    for i in keep_common_front(path, old, holds, bits)..path.len() {
        add_bits(path[i], holds.register(path[i]).len(), bits);
    }
}

/// Leaves what the bits of a path hold in a list.
fn find_chain(path: &[u32], holds: &Holds, into: &mut Bits)
    requires route { IsRoute (length holds.now) path.now }
    requires few { length (chain path.now holds.now) ≤ 4096 }
    requires room { length (chain path.now holds.now) ≤ length into.old.items + into.old.spare }
    ensures items { into.new.items ≡ chain path.now holds.now }
    ensures room { length into.new.items + into.new.spare ≡ length into.old.items + into.old.spare }
{
    into.clear();
    for reg in path {
        let bits = holds.register(*reg);
        into.append_part_reserved(bits, 0, bits.len());
    }
}

/// Makes bits hold what they hold in another list, from which no other bit differs.
fn put_bits(bits: &[BitId], from: &Holds, into: &mut Holds)
    requires shape { map length into.old ≡ map length from.now }
    requires there { All (IsHeld from.now) bits.now }
    requires others { (b : ABit) → list_any (same_place b) bits.now ≡ false
        → hold_at into.old b ≡ hold_at from.now b }
    ensures { into.new ≡ from.now }
{
    for bit in bits {
        into.set(*bit, from.get(*bit));
    }
}

/// An empty path, with room for this many registers.
fn room_for_path(alloc: Global, n: usize) -> Result<Buffer<u32>, OutOfMemory>
    ensures room { IfOk result (λ path. n ≤ length path.items + path.spare) }
    ensures empty { IfOk result (λ path. path.items ≡ []) }
{
    let mut path = Buffer::new(alloc);
    path.reserve(n)?;
    Ok(path)
}

/// No bits, and room for those of every path.
fn room_for_bits(alloc: Global) -> Result<Buffer<BitId>, OutOfMemory>
    ensures { IfOk result (λ bits. 4096 ≤ length bits.items + bits.spare) }
{
    let mut bits = Buffer::new(alloc);
    bits.reserve(MOST_BITS as usize)?;
    Ok(bits)
}

/// What the registers hold at power-up, twice.
#[derive(Drop)]
struct TwoHolds {
    first: Holds,
    second: Holds,
}

/// What the registers of a network hold at power-up, twice.
fn power_up(alloc: Global, net: &Net) -> Result<TwoHolds, OutOfMemory>
    requires { IsNet net.now }
    ensures first { IfOk result (λ h. h.first ≡ start_holds net.now) }
    ensures second { IfOk result (λ h. h.second ≡ start_holds net.now) }
{
    let first = Holds::power_up(alloc, net)?;
    match Holds::power_up(alloc, net) {
        Ok(second) => Ok(TwoHolds { first, second }),
        Err(fault) => {
            drop(first);
            Err(fault)
        }
    }
}

/// Room for two paths, and for the bits of every path.
#[derive(Drop)]
struct Rooms {
    path: Buffer<u32>,
    next: Buffer<u32>,
    bits: Vec<BitId>,
    chain: Bits,
    moved: Buffer<BitId>,
}

/// Room for two paths of this many registers, and for the bits of every path.
fn room_for_all(alloc: Global, n: usize) -> Result<Rooms, OutOfMemory>
    ensures path { IfOk result (λ r. n ≤ length r.path.items + r.path.spare) }
    ensures no_path { IfOk result (λ r. r.path.items ≡ []) }
    ensures next { IfOk result (λ r. n ≤ length r.next.items + r.next.spare) }
    ensures bits { IfOk result (λ r. 4096 ≤ vec_capacity r.bits) }
    ensures no_bits { IfOk result (λ r. r.bits.items ≡ []) }
    ensures chain { IfOk result (λ r. 4096 ≤ length r.chain.items + r.chain.spare) }
    ensures moved { IfOk result (λ r. 4096 ≤ length r.moved.items + r.moved.spare) }
{
    let path = room_for_path(alloc, n)?;
    let next = room_for_path(alloc, n)?;
    let bits = Vec::with_capacity(alloc, MOST_BITS as usize)?;
    let chain = Bits::with_room(alloc, MOST_BITS)?;
    let moved = room_for_bits(alloc)?;
    Ok(Rooms {
        path,
        next,
        bits,
        chain,
        moved,
    })
}

impl<'a> Registers<'a> {
    /// The registers at power-up.
    pub fn new(alloc: Global, net: &'a Net) -> Result<Registers<'a>, OutOfMemory>
        requires { IsNet net.now }
        ensures net { IfOk result (λ r. r.net.now ≡ net.now) }
        ensures holds { IfOk result (λ r. r.holds ≡ start_holds net.now) }
        ensures sound { IfOk result AreRegisters }
        ensures still { IfOk result AreStill }
    {
        let selects = selects_of(alloc, net)?;
        let holds = power_up(alloc, net)?;
        let rooms = room_for_all(alloc, net.regs.len())?;
        Ok(Registers {
            net,
            selects,
            holds: holds.first,
            path: rooms.path,
            next: rooms.next,
            bits: rooms.bits,
            chain: rooms.chain,
            found: false,
            listed: false,
            after: holds.second,
            moved: rooms.moved,
        })
    }

    /// Finds the active path, where it isn't known.
    pub fn find(&mut self)
        requires sound { AreRegisters self.old }
        requires still { AreStill self.old }
        ensures sound { AreRegisters self.new }
        ensures still { AreStill self.new }
        ensures found { AreFound self.new }
        ensures chain { self.new.chain.items ≡ chain (path_in self.new) self.new.holds }
        ensures net { self.new.net.now ≡ self.old.net.now }
        ensures holds { self.new.holds ≡ self.old.holds }
    {
        if self.found {
            return;
        }
        find_path(self.net, &self.holds, &mut self.next);
        let path = self.next.as_slice();
        find_bits(path, self.path.as_slice(), &self.holds, &mut self.bits);
        find_chain(path, &self.holds, &mut self.chain);
        swap(&mut self.path, &mut self.next);
        self.found = true;
    }

    /// How many bits the active path has.
    pub fn len(&self) -> u32
        requires sound { AreRegisters self.now }
        requires found { AreFound self.now }
        ensures { result ≡ length (chain (path_in self.now) self.now.holds) }
    {
        self.bits.len() as u32
    }

    /// Puts one bit of TDI on the path.
    fn set_tdi_bit(&mut self, kept: &LastParts, k: u32)
        requires kept { AreLastParts kept.now }
        requires turned { IsTurned self.old (seen_tdi kept.now) k }
        requires within { k < length self.old.chain.items }
        ensures turned { IsTurned self.new (seen_tdi kept.now) (k + 1) }
        ensures moves { to_move self.new (seen_tdi kept.now) (k + 1)
            ≡ to_move self.old (seen_tdi kept.now) k }
        ensures length { length self.new.chain.items ≡ length self.old.chain.items }
        ensures others { self.new
            ≡ record self.old { chain = self.new.chain; after = self.new.after; moved = self.new.moved } }
    {
        let value = tdi_at(kept, k);
        if self.chain.get(k) == value {
            return;
        }
        let bit = self.bits[k as usize];
        self.chain.set(k, value);
        self.after.set(bit, value);
        self.moved.push_reserved(bit);
    }

    /// Puts bits of TDI on the path, one after the other.
    fn set_tdi_bits(&mut self, kept: &LastParts, from: u32, n: u32)
        requires kept { AreLastParts kept.now }
        requires turned { IsTurned self.old (seen_tdi kept.now) from }
        requires within { from + n ≤ length self.old.chain.items }
        ensures turned { IsTurned self.new (seen_tdi kept.now) (from + n) }
        ensures moves { to_move self.new (seen_tdi kept.now) (from + n)
            ≡ to_move self.old (seen_tdi kept.now) from }
        ensures length { length self.new.chain.items ≡ length self.old.chain.items }
        ensures others { self.new
            ≡ record self.old { chain = self.new.chain; after = self.new.after; moved = self.new.moved } }
    {
        for i in 0..n {
            self.set_tdi_bit(kept, from + i);
        }
    }

    /// Puts at most 64 bits of TDI on the path. Nothing is done where they are there already.
    fn set_tdi_word(&mut self, kept: &LastParts, from: u32, n: u32)
        requires kept { AreLastParts kept.now }
        requires few { n ≤ 64 }
        requires turned { IsTurned self.old (seen_tdi kept.now) from }
        requires within { from + n ≤ length self.old.chain.items }
        ensures turned { IsTurned self.new (seen_tdi kept.now) (from + n) }
        ensures moves { to_move self.new (seen_tdi kept.now) (from + n)
            ≡ to_move self.old (seen_tdi kept.now) from }
        ensures length { length self.new.chain.items ≡ length self.old.chain.items }
        ensures others { self.new
            ≡ record self.old { chain = self.new.chain; after = self.new.after; moved = self.new.moved } }
    {
        if self.chain.number(from, n) == tdi_number(kept, from, n) {
            return;
        }
        self.set_tdi_bits(kept, from, n);
    }

    /// Puts TDI on the path.
    fn set_tdi_on_path(&mut self, kept: &LastParts)
        requires kept { AreLastParts kept.now }
        requires turned { IsTurned self.old (seen_tdi kept.now) 0 }
        ensures turned { IsTurned self.new (seen_tdi kept.now) (length self.old.chain.items) }
        ensures moves { to_move self.new (seen_tdi kept.now) (length self.old.chain.items)
            ≡ to_move self.old (seen_tdi kept.now) 0 }
        ensures others { self.new
            ≡ record self.old { chain = self.new.chain; after = self.new.after; moved = self.new.moved } }
    {
        let n = self.chain.len();
        for word in 0..n.div_ceil(64) {
            let from = 64 * word;
            self.set_tdi_word(kept, from, (n - from).min(64));
        }
    }

    /// Puts TDI on the path: what the registers hold after the scan, and which bits change. What they hold
    /// stays.
    pub fn shift(&mut self, kept: &LastParts)
        requires sound { AreRegisters self.old }
        requires still { AreStill self.old }
        requires found { AreFound self.old }
        requires chain { self.old.chain.items ≡ chain (path_in self.old) self.old.holds }
        requires kept { AreLastParts kept.now }
        requires fits { kept.now.len ≡ length (chain (path_in self.old) self.old.holds) }
        ensures sound { AreRegisters self.new }
        ensures found { AreFound self.new }
        ensures shifted { AreShifted self.new }
        ensures listed { AreListed self.new }
        ensures tdi { self.new.chain.items ≡ seen_tdi kept.now }
        ensures net { self.new.net.now ≡ self.old.net.now }
        ensures holds { self.new.holds ≡ self.old.holds }
    {
        self.moved.clear();
        self.set_tdi_on_path(kept);
    }

    /// Whether a bit that selects changes.
    fn changes_select(&self) -> bool
        requires { AreRegisters self.now }
        ensures { result ≡ list_any (is_select self.now.net.now) self.now.moved.items }
    {
        some_select(self.net, &self.selects, self.moved.as_slice())
    }

    /// Whether each mux has a row for the select value that it gets.
    pub fn have_rows(&self) -> bool
        requires sound { AreRegisters self.now }
        requires found { AreFound self.now }
        requires shifted { AreShifted self.now }
        requires listed { AreListed self.now }
        ensures { result ≡ list_all (has_row self.now.after) self.now.net.now.muxes.items }
    {
        if self.listed && !self.changes_select() {
            return true;
        }
        have_rows(self.net, &self.after)
    }

    /// The update: the registers hold what was shifted in.
    pub fn update(&mut self)
        requires sound { AreRegisters self.old }
        requires found { AreFound self.old }
        requires shifted { AreShifted self.old }
        requires rows { list_all (has_row self.old.after) self.old.net.now.muxes.items ≡ true }
        ensures sound { AreRegisters self.new }
        ensures still { AreStill self.new }
        ensures net { self.new.net.now ≡ self.old.net.now }
        ensures holds { self.new.holds ≡ self.old.after }
    {
        self.found = !self.changes_select();
        self.listed = true;
        put_bits(self.moved.as_slice(), &self.after, &mut self.holds);
    }

    /// A reset: each bit with a reset value takes it.
    pub fn reset(&mut self)
        requires sound { AreRegisters self.old }
        requires still { AreStill self.old }
        ensures sound { AreRegisters self.new }
        ensures still { AreStill self.new }
        ensures net { self.new.net.now ≡ self.old.net.now }
        ensures holds { self.new.holds ≡ reset_holds self.old.net.now self.old.holds }
    {
        self.found = false;
        self.listed = false;
        self.holds.reset(self.net);
        self.after.reset(self.net);
    }
}
