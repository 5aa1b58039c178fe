// Which register bit a bit of a target stands for.
ghost use Rattle.std.specs.Prelude.{◌≡◌};
ghost use Rattle.ij_bits.specs.BitLists.{flip_if};
ghost use Rattle.net_graph.specs.Path.{same_place};
ghost use Rattle.net_graph.specs.Signals.{capture_signal};
ghost use Rattle.pdl_targets.specs.Marked.{AreSelects};
ghost use Rattle.pdl_targets.specs.Targets.{picked_if_captures, is_inverted, same_source, select_compared};
ghost use Rattle.pdl_targets.specs.Targets.{written};

use net_graph::{BitId, BitMarks, Net, Sig, Spot, is_marked_select, same_place};

/// A register bit, and whether a bit of a target is its inverse.
#[derive(Clone, Copy, Drop)]
pub struct Picked {
    /// The register bit.
    pub bit: BitId,
    /// Whether the target's bit is its inverse.
    pub inverted: bool,
}

/// A bit, inverted or not.
pub(crate) fn flip_if(flip: bool, bit: bool) -> bool
    ensures { result ≡ flip_if flip bit }
{
    if flip { !bit } else { bit }
}

/// The register bit that a write sets.
pub(crate) fn written(spot: Spot) -> Option<Picked>
    ensures { result ≡ written spot }
{
    match spot {
        Spot::Held(bit) => Some(Picked {
            bit,
            inverted: false,
        }),
        Spot::Inward(Sig::Bit { bit, inverted }) => Some(Picked { bit, inverted }),
        Spot::Inward(_) | Spot::Outward(_) => None,
    }
}

/// Whether two signals are one, or each other's inverse.
pub(crate) fn same_source(a: Sig, b: Sig) -> bool
    ensures { result ≡ same_source a b }
{
    match a {
        Sig::Bit { bit, inverted: _ } => match b {
            Sig::Bit {
                bit: other,
                inverted: _,
            } => same_place(bit, other),
            _ => false,
        },
        Sig::Out {
            inst,
            port,
            pos,
            inverted: _,
        } => match b {
            Sig::Out {
                inst: other,
                port: that,
                pos: at,
                inverted: _,
            } => inst == other && port == that && pos == at,
            _ => false,
        },
        _ => false,
    }
}

/// Whether a signal is an inverse.
pub(crate) fn is_inverted(signal: Sig) -> bool
    ensures { result ≡ is_inverted signal }
{
    match signal {
        Sig::Bit { bit: _, inverted } => inverted,
        Sig::Out {
            inst: _,
            port: _,
            pos: _,
            inverted,
        } => inverted,
        Sig::Absent | Sig::Zero | Sig::One => false,
    }
}

/// What a register bit captures.
pub(crate) fn capture_of(net: &Net, bit: BitId) -> Sig
    ensures { result ≡ capture_signal net.now bit }
{
    let reg = bit.reg as usize;
    let pos = bit.pos as usize;
    if reg < net.regs.len() && pos < net.regs.get(reg).capture.len() {
        *net.regs.get(reg).capture.get(pos)
    } else {
        Sig::Absent
    }
}

/// A register bit that captures something.
pub(crate) fn picked_if_captures(bit: BitId, signal: Sig) -> Option<Picked>
    ensures { result ≡ picked_if_captures bit signal }
{
    match signal {
        Sig::Absent => None,
        _ => Some(Picked {
            bit,
            inverted: false,
        }),
    }
}

/// The select bit by which a read of a register bit is refused.
pub(crate) fn select_compared(net: &Net, selects: &BitMarks, bit: BitId) -> Option<BitId>
    requires { AreSelects net.now selects.now }
    ensures { result ≡ select_compared net.now bit }
{
    if is_marked_select(net, selects, bit) {
        return Some(bit);
    }
    match capture_of(net, bit) {
        Sig::Bit { bit, inverted: _ } if is_marked_select(net, selects, bit) => Some(bit),
        _ => None,
    }
}
