// Where reads stand in scans.
ghost use Rattle.std.specs.Prelude.{◌≡◌, ◌==◌, ◌&&◌, ◌++◌, ◌<◌, ◌^◌, All, length, map, reverse, OnOk};
ghost use Rattle.net_graph.specs.Chain.{chain};
ghost use Rattle.net_graph.specs.Named.{IsBitOf};
ghost use Rattle.net_graph.specs.Resets.{zero_holds};
ghost use Rattle.run_report.specs.Places.{read_at};
ghost use Rattle.run_report.specs.Noting.{place_on};

use ij_bits::{List, OutOfMemory};
use net_graph::{Net, ReadBit};
use scan_packer::position;

/// A read with the scan and the position at which it is compared.
#[derive(Clone, Copy, Drop)]
pub(crate) struct ReadPlace {
    /// The scan, counted from 1 over all scan commands.
    pub scan: u32,
    /// The position in the scan. Position 0 is the first at TDO.
    pub bit: u32,
    /// What is read.
    pub read: ReadBit,
}

impl ReadPlace {
    /// Whether it is at this position of this scan.
    fn is_at(&self, scan: u32, bit: u32) -> bool
        ensures { result ≡ ((self.now.scan == scan) && (self.now.bit == bit)) }
    {
        self.scan == scan && self.bit == bit
    }
}

/// Notes where reads stand in the scan of a path.
pub(crate) fn note_reads(
    places: &mut List<ReadPlace>,
    net: &Net,
    path: &[u32],
    scan: u32,
    reads: &[ReadBit],
) -> Result<(), OutOfMemory>
    requires there { All (λ r. r < length net.now.regs.items) path.now }
    requires bits { All (λ r. IsBitOf net.now r.bit) reads.now }
    requires short { length (chain (reverse path.now) (zero_holds net.now)) < 2 ^ 32 }
    ensures { OnOk result (places.new.items
        ≡ places.old.items ++ map (place_on net.now (reverse path.now) scan) reads.now) }
{
    for read in reads {
        places.push(ReadPlace {
            scan,
            bit: position(net, path, read.bit),
            read: *read,
        })?;
    }
    Ok(())
}

/// The read at a position of a scan.
pub(crate) fn find(places: &[ReadPlace], scan: u32, bit: u32) -> Option<ReadBit>
    ensures { result ≡ read_at places.now scan bit }
{
    for place in places {
        if place.is_at(scan, bit) {
            return Some(place.read);
        }
    }
    None
}
