// The bits of a named thing.
ghost use Rattle.std.specs.Prelude.{◌≡◌, ◌+◌, ◌<◌, ◌≤◌, [], ◌++◌, length, take, drop, get_or, IsTrue};
ghost use Rattle.std.specs.Prelude.{OnOk, OnErr};
ghost use Rattle.ij_runs.specs.Runs.{following};
ghost use Rattle.net_graph.specs.declared.net.Spot.{Spot as ASpot};
ghost use Rattle.net_graph.specs.SpotRuns.{bit_after, sig_after, sig_room, spot_after, spot_room, none_after};
ghost use Rattle.net_graph.specs.SpotRuns.{both_after};

use crate::net::{BitId, Sig, Spot};
use ij_bits::OutOfMemory;
use ij_runs::{Follow, Runs};
use std::alloc::Global;
use std::marker::Model;

/// The bits of a named thing, position 0 first, fewer than 2^32. A bit that follows the one before it takes
/// no memory, so a port takes as much as it has sources, however wide it is.
///
/// Contracts see a record: `items`, the bits.
#[derive(Drop)]
pub struct Spots {
    runs: Runs<Spot>,
}

impl Model for Spots {
    ghost use Rattle.net_graph.specs.Spotted.{Spotted};

    ghost Value = { Spotted };

    ghost view = { λ s. record { items = s.runs.items } };
}

/// The signal this many positions after one.
fn sig_after(sig: Sig, n: u32) -> Sig
    requires { n ≤ sig_room sig }
    ensures { result ≡ sig_after n sig }
{
    match sig {
        Sig::Absent | Sig::Zero | Sig::One => sig,
        Sig::Bit { bit, inverted } => Sig::Bit {
            bit: BitId {
                reg: bit.reg,
                pos: bit.pos + n,
            },
            inverted,
        },
        Sig::Out {
            inst,
            port,
            pos,
            inverted,
        } => Sig::Out {
            inst,
            port,
            pos: pos + n,
            inverted,
        },
    }
}

/// Whether a signal is the one this many positions after one.
fn is_sig_after(sig: Sig, n: u32, other: Sig) -> bool
    ensures { IsTrue result → other ≡ sig_after n sig }
{
    match (sig, other) {
        (Sig::Absent, Sig::Absent) | (Sig::Zero, Sig::Zero) | (Sig::One, Sig::One) => true,
        (
            Sig::Bit { bit, inverted },
            Sig::Bit {
                bit: other,
                inverted: turned,
            },
        ) => inverted == turned && is_bit_after(bit, n, other),
        (
            Sig::Out {
                inst,
                port,
                pos,
                inverted,
            },
            Sig::Out {
                inst: other,
                port: by,
                pos: at,
                inverted: turned,
            },
        ) => inst == other && port == by && inverted == turned && is_number_after(pos, n, at),
        _ => false,
    }
}

/// Whether a number is this many above one.
fn is_number_after(from: u32, n: u32, other: u32) -> bool
    ensures { IsTrue result → other ≡ from + n }
{
    from <= other && other - from == n
}

/// Whether a bit is this many positions after one.
fn is_bit_after(bit: BitId, n: u32, other: BitId) -> bool
    ensures { IsTrue result → other ≡ bit_after n bit }
{
    bit.reg == other.reg && is_number_after(bit.pos, n, other.pos)
}

/// Whether this many positions can be counted after a signal's.
fn sig_reaches(sig: Sig, n: u32) -> bool
    ensures { IsTrue result → n ≤ sig_room sig }
{
    match sig {
        Sig::Absent | Sig::Zero | Sig::One => true,
        Sig::Bit { bit, .. } => n <= u32::MAX - bit.pos,
        Sig::Out { pos, .. } => n <= u32::MAX - pos,
    }
}

/// After a bit comes the one at the next position, after a constant or no source the same one.
impl Follow for Spot {
    ghost after = { spot_after };

    ghost room = { spot_room };

    ghost stays = { none_after };

    ghost composes = { both_after };

    fn after(self, n: u32) -> Spot {
        match self {
            Spot::Held(bit) => Spot::Held(BitId {
                reg: bit.reg,
                pos: bit.pos + n,
            }),
            Spot::Inward(sig) => Spot::Inward(sig_after(sig, n)),
            Spot::Outward(sig) => Spot::Outward(sig_after(sig, n)),
        }
    }

    fn reaches(self, n: u32) -> bool {
        match self {
            Spot::Held(bit) => n <= u32::MAX - bit.pos,
            Spot::Inward(sig) | Spot::Outward(sig) => sig_reaches(sig, n),
        }
    }

    fn is_after(self, n: u32, value: Spot) -> bool {
        match (self, value) {
            (Spot::Held(bit), Spot::Held(other)) => is_bit_after(bit, n, other),
            (Spot::Inward(sig), Spot::Inward(other)) => is_sig_after(sig, n, other),
            (Spot::Outward(sig), Spot::Outward(other)) => is_sig_after(sig, n, other),
            _ => false,
        }
    }
}

impl Spots {
    /// No bits, to which `alloc` adds. Takes no memory.
    pub fn new(alloc: Global) -> Self
        ensures { result.items ≡ [] }
    {
        Spots {
            runs: Runs::new(alloc),
        }
    }

    /// How many bits there are. Takes no memory.
    pub fn len(&self) -> u32
        ensures { result ≡ length self.now.items }
    {
        self.runs.len() as u32
    }

    /// Adds a bit and those after it, `count` in all. After a refusal the bits are as they were.
    ///
    /// # Errors
    ///
    /// `OutOfMemory`, also where so many can't follow the bit, or there would be more than 32 bits count.
    pub fn push_run(&mut self, first: Spot, count: u32) -> Result<(), OutOfMemory>
        ensures ok { OnOk result (self.new.items ≡ self.old.items ++ following spot_after first count) }
        ensures err { OnErr result (self.new.items ≡ self.old.items) }
    {
        self.runs.push_run(first, count)
    }

    /// The bit at a position. Takes no memory.
    pub fn get(&self, i: u32) -> Spot
        requires { i < length self.now.items }
        ensures { (any : ASpot) → result ≡ get_or self.now.items i any }
    {
        self.runs.get(i as usize)
    }

    /// All bits. Takes no memory.
    pub fn all(&self) -> SpotPart<'_>
        ensures { result ≡ self.now.items }
    {
        SpotPart {
            spots: self,
            from: 0,
            len: self.len(),
        }
    }

    /// This many bits from a position on. Takes no memory.
    pub fn part(&self, from: u32, len: u32) -> SpotPart<'_>
        requires { from + len ≤ length self.now.items }
        ensures { result ≡ take len (drop from self.now.items) }
    {
        let _all = self.len();
        SpotPart {
            spots: self,
            from,
            len,
        }
    }
}

/// Some of the bits of a named thing, position 0 first.
///
/// Contracts see the list of these bits.
#[derive(Drop)]
pub struct SpotPart<'a> {
    spots: &'a Spots,
    from: u32,
    len: u32,
}

impl<'a> Model for SpotPart<'a> {
    ghost use Rattle.std.specs.Prelude.{◌≤◌, ◌+◌, ◌<◌, ◌^◌, List, length, take, drop};
    ghost use Rattle.net_graph.specs.declared.net.Spot.{Spot};

    ghost Value = { List Spot };

    ghost view = { λ p. take p.len (drop p.from p.spots.now.items) };

    ghost invariant = { λ p. (p.from + p.len ≤ length p.spots.now.items) × (p.from + p.len < 2 ^ 32) };
}

impl<'a> SpotPart<'a> {
    /// How many bits there are. Takes no memory.
    pub fn len(&self) -> u32
        ensures { result ≡ length self.now }
    {
        self.len
    }

    /// The bit at a position. Takes no memory.
    pub fn get(&self, i: u32) -> Spot
        requires { i < length self.now }
        ensures { (any : ASpot) → result ≡ get_or self.now i any }
    {
        self.spots.get(self.from + i)
    }
}
