// The instruments of a made design.
ghost use Rattle.std.specs.Prelude.{◌≡◌, ◌^◌, ◌<◌, ◌≤◌, length, IfOk};
ghost use Rattle.design_maker.specs.Instruments.{drawn_instrument, drawn_instruments};
ghost use Rattle.design_maker.specs.Procedure.{run, written};

use crate::draws::draw;
use ij_bits::{List, OutOfMemory};
use rand_pcg::Lcg64Xsh32;
use std::alloc::Global;
use std::marker::Model;

/// A number of bits, 32 at most.
#[derive(Clone, Copy, Drop)]
pub(crate) struct Width {
    bits: u32,
}

impl Model for Width {
    ghost use Rattle.std.specs.Prelude.{ℕ, ◌≤◌};

    ghost Value = { ℕ };

    ghost view = { λ w. w.bits };

    ghost inverse = { λ n. record { bits = n } };

    ghost invariant = { λ w. w.bits ≤ 32 };
}

impl Width {
    /// The width of this many bits.
    pub fn new(bits: u32) -> Self
        requires { bits ≤ 32 }
        ensures { result ≡ bits }
    {
        Width { bits }
    }

    /// How many bits.
    pub fn bits(self) -> u32
        ensures { result ≡ self }
    {
        self.bits
    }

    /// How many numbers have that many bits.
    pub fn numbers(self) -> u64
        ensures count { result ≡ 2 ^ self }
        ensures some { 1 ≤ result }
        ensures few { result ≤ 4294967296 }
    {
        1 << self.bits
    }
}

/// An instrument of a made design, with the register before it.
#[derive(Clone, Copy, Drop)]
pub(crate) struct Instrument {
    /// The width of its input, its word and its output.
    pub width: Width,
    /// How many SIBs stand one inside the other round its register.
    pub sibs: u32,
    /// The number that it holds.
    pub word: u32,
    /// The number at its input.
    pub input: u32,
}

impl Instrument {
    /// A number comes to its input. Where that is another one, it takes it in.
    pub fn written(self, value: u32) -> Instrument
        ensures { result ≡ written value self }
    {
        let word = if value == self.input {
            self.word
        } else {
            value
        };
        Instrument {
            word,
            input: value,
            ..self
        }
    }

    /// Some cycles of Run-Test/Idle, which it counts.
    pub fn run(self, cycles: u32) -> Instrument
        ensures { result ≡ run cycles self }
    {
        let sum = u64::from(self.word) + u64::from(cycles);
        Instrument {
            word: (sum % self.width.numbers()) as u32,
            ..self
        }
    }
}

/// Draws an instrument: a width of 1 to 32 bits, then 1 to 4 SIBs.
fn draw_instrument(g: &mut Lcg64Xsh32) -> Instrument
    ensures { (result, g.new) ≡ drawn_instrument g.old }
{
    let width = Width::new(1 + draw(g, 32) as u32);
    let sibs = 1 + draw(g, 4) as u32;
    Instrument {
        width,
        sibs,
        word: 0,
        input: 0,
    }
}

/// Draws this many instruments.
pub(crate) fn draw_instruments(
    alloc: Global,
    size: usize,
    g: &mut Lcg64Xsh32,
) -> Result<List<Instrument>, OutOfMemory>
    ensures drawn { IfOk result (λ instruments. (instruments.items, g.new) ≡ drawn_instruments size g.old) }
    ensures count { IfOk result (λ instruments. length instruments.items ≡ size) }
{
    let mut instruments = List::new(alloc);
    for i in 0..size {
        instruments.push(draw_instrument(g))?;
    }
    Ok(instruments)
}
