// What a scan is packed into.
ghost use Rattle.std.specs.Prelude.{◌≤◌, IfOk};
ghost use Rattle.net_graph.specs.Nets.{IsNet};
ghost use Rattle.retargeter.specs.Room.{HasScanRoom};

use ij_bits::{Bits, OutOfMemory};
use net_graph::Net;
use std::alloc::Global;

/// The bits of a scan, position 0 (nearest TDO) first, in room that is made once.
#[derive(Drop)]
pub(crate) struct Buffers {
    /// What is shifted in.
    pub tdi: Bits,
    /// What is expected.
    pub tdo: Bits,
    /// Where that is compared.
    pub mask: Bits,
}

/// The greatest number of scan bits that a network has.
const SCAN_BITS: u32 = 4096;

/// No bits, and room for those of any network.
fn bits_with_room(alloc: Global) -> Result<Bits, OutOfMemory>
    ensures { IfOk result (λ bits. 4096 ≤ bits.spare) }
{
    let mut bits = Bits::zeros(alloc, 0)?;
    bits.reserve(SCAN_BITS)?;
    Ok(bits)
}

impl Buffers {
    /// Room for the scans of a network.
    pub fn new(alloc: Global, _net: &Net) -> Result<Self, OutOfMemory>
        requires well_formed { IsNet _net.now }
        ensures { IfOk result (HasScanRoom _net.now) }
    {
        Ok(Buffers {
            tdi: bits_with_room(alloc)?,
            tdo: bits_with_room(alloc)?,
            mask: bits_with_room(alloc)?,
        })
    }
}
