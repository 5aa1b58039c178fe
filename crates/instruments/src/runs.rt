// Signals in a run: bits of one register, or of one output, position after position.
ghost use Rattle.std.specs.Prelude.{◌≡◌, ◌+◌, ◌<◌, ◌≤◌, IsTrue, drop, length, take};
ghost use Rattle.ij_bits.specs.BitLists.{number_of};
ghost use Rattle.net_graph.specs.Signals.{bits_at};
ghost use Rattle.instruments.specs.Runs.{output_run, register_run};

use net_graph::{BitId, Holds, Sig};

/// Whether signals are the bits of a register from a bit on.
pub(crate) fn is_register_run(sigs: &[Sig], from: BitId) -> bool
    ensures { IsTrue result → sigs.now ≡ register_run from.reg from.pos (length sigs.now) }
{
    match sigs {
        [
            Sig::Bit {
                bit,
                inverted: false,
            },
            rest @ ..,
        ] => {
            bit.reg == from.reg
                && bit.pos == from.pos
                && bit.pos < u32::MAX
                && is_register_run(
                    rest,
                    BitId {
                        reg: bit.reg,
                        pos: bit.pos + 1,
                    },
                )
        },
        [_, ..] => false,
        [] => true,
    }
}

/// Whether signals are the bits of an instrument's output from a position on.
pub(crate) fn is_output_run(sigs: &[Sig], of: u32, at: u32, from: u32) -> bool
    ensures { IsTrue result → sigs.now ≡ output_run of at from (length sigs.now) }
{
    match sigs {
        [
            Sig::Out {
                inst,
                port,
                pos,
                inverted: false,
            },
            rest @ ..,
        ] => {
            *inst == of
                && *port == at
                && *pos == from
                && from < u32::MAX
                && is_output_run(rest, of, at, from + 1)
        },
        [_, ..] => false,
        [] => true,
    }
}

/// The number of `n` bits of a register from a bit on, that one the lowest.
pub(crate) fn register_number(from: BitId, n: u32, holds: &Holds) -> u64
    requires few { n ≤ 64 }
    requires some { 1 ≤ n }
    requires within { from.pos + n ≤ length (bits_at holds.now from.reg) }
    ensures { result ≡ number_of (take n (drop from.pos (bits_at holds.now from.reg))) }
{
    holds.register(from.reg).number(from.pos, n)
}
