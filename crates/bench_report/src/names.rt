// Which iRead a compare is.
ghost use Rattle.std.specs.Prelude.{◌≡◌, ℕ, None, IfOk};
ghost use Rattle.bench_report.specs.Report.{Names};

use ij_bits::OutOfMemory;
use net_graph::ReadBit;

/// Tells which iRead a compare of a play is (IEEE 1687-2014, PDL level 0: iRead), where it is known.
pub trait ReadNames {
    /// Whether these are the iReads of all compares, by scan and by position in the scan.
    ghost AreNames: { Self → Names → Type 0 };

    /// The iRead of the compare at a position of a scan, if there is one. Scans are counted from 1, and
    /// position 0 is the first at TDO. In whatever order it is asked, the answers are the same.
    ///
    /// # Errors
    ///
    /// `OutOfMemory`: there was no memory to find it.
    fn read_at(&mut self, scan: u32, bit: u32) -> Result<Option<ReadBit>, OutOfMemory>
        ensures found { IfOk result (λ read. (names : Names)
            → AreNames self.old names → read ≡ names scan bit) }
        ensures same { (names : Names) → AreNames self.old names → AreNames self.new names };
}

/// Of SVF alone no iRead is known.
#[derive(Drop)]
pub(crate) struct NoNames;

impl ReadNames for NoNames {
    ghost AreNames = { λ _ names. (scan bit : ℕ) → names scan bit ≡ None };

    fn read_at(&mut self, _scan: u32, _bit: u32) -> Result<Option<ReadBit>, OutOfMemory> {
        Ok(None)
    }
}
