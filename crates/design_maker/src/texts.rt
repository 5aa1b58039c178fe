// The four texts of a made design.
ghost use Rattle.std.specs.Prelude.{◌≡◌, ◌<◌, ◌≤◌, ◌⊎◌, ℕ, length, IfOk, IsErrOf};
ghost use Rattle.icl_printer.specs.Canonical.{design_text};
ghost use Rattle.design_maker.specs.Network.{made_design};
ghost use Rattle.design_maker.specs.Procedure.{procedure_text};
ghost use Rattle.design_maker.specs.Tables.{device_text, tables_text};
ghost use Rattle.design_maker.specs.Texts.{made_icl, made_pdl, made_tables};
ghost use Rattle.design_maker.specs.declared.texts.MakeFault.TheVariants as fault;

use crate::draws::generator;
use crate::instrument::{Instrument, draw_instruments};
use crate::network::made_design;
use crate::procedure::procedure_text;
use crate::tables::{device_text, tables_text};
use icl_printer::put_design;
use ij_bits::{List, OutOfMemory};
use ij_io::SureSink;
use ij_text::{Text, name_of};
use std::alloc::Global;
use thiserror::Error;

/// The most instruments of a made design.
pub const SIZE_LIMIT: u64 = 64;

/// The texts of a made design.
#[derive(Drop)]
pub struct Made {
    /// The network, below the module `chip` (IEEE 1687-2014, ICL). It is what
    /// [`put_design`](icl_printer::put_design) writes of the design.
    pub icl: Text,
    /// The procedure `p` of the module `chip` (IEEE 1687-2014, PDL level 0).
    pub pdl: Text,
    /// The device (IEEE 1149.1-2013), in this project's own format.
    pub device: Text,
    /// What the instruments do, in this project's own format.
    pub tables: Text,
}

/// Why no design is made.
#[derive(Clone, Copy, Debug, PartialEq, Eq, Error)]
pub enum MakeFault {
    /// The size isn't a number of instruments from 1 to 64.
    #[error("the size is not 1 to 64")]
    BadSize { size: u64 },
    /// There was no memory.
    #[error("out of memory")]
    OutOfMemory,
}

impl From<OutOfMemory> for MakeFault {
    ghost from_gives = { λ _ e. e ≡ fault.OutOfMemory };

    fn from(_: OutOfMemory) -> Self {
        MakeFault::OutOfMemory
    }
}

/// The text of the design with these instruments.
fn icl_text(alloc: Global, instruments: &List<Instrument>) -> Result<Text, OutOfMemory>
    requires { length instruments.now.items ≤ 64 }
    ensures { IfOk result (λ text. text.items ≡ design_text (made_design instruments.now.items)) }
{
    let design = made_design(alloc, instruments)?;
    let mut icl = SureSink::new(alloc);
    match put_design(&design, &mut icl) {
        Ok(()) => name_of(alloc, icl.bytes()),
        Err(_) => Err(OutOfMemory),
    }
}

/// Makes a design of `size` instruments, a procedure on it, its device and the tables of its instruments
/// (IEEE 1687-2014, ICL and PDL level 0; IEEE 1149.1-2013). The numbers in it are drawn from the generator
/// `Lcg64Xsh32` of `seed`: the same seed and size give the same texts.
///
/// Each instrument has 1 to 32 bits and comes after 1 to 4 SIBs. The procedure writes and reads one
/// instrument in each of its `2 * size` turns.
///
/// # Errors
///
/// `BadSize` exactly where `size` is 0 or more than 64, and `OutOfMemory` where there is no memory for the
/// texts.
pub fn make(alloc: Global, seed: u64, size: u64) -> Result<Made, MakeFault>
    ensures icl { IfOk result (λ made. made.icl.items ≡ made_icl seed size) }
    ensures pdl { IfOk result (λ made. made.pdl.items ≡ made_pdl seed size) }
    ensures device { IfOk result (λ made. made.device.items ≡ device_text) }
    ensures tables { IfOk result (λ made. made.tables.items ≡ made_tables seed size) }
    ensures sized { IfOk result (λ _. (1 ≤ size) × (size ≤ 64)) }
    ensures refused { (size < 1) ⊎ (64 < size) → IsErrOf result (MakeFault.BadSize size) }
    ensures cause { (n : ℕ) → IsErrOf result (MakeFault.BadSize n) → (n ≡ size) × ((size < 1) ⊎ (64 < size)) }
{
    if size < 1 || SIZE_LIMIT < size {
        return Err(MakeFault::BadSize { size });
    }
    let mut g = generator(seed);
    let mut instruments = draw_instruments(alloc, size as usize, &mut g)?;
    let icl = icl_text(alloc, &instruments)?;
    let tables = tables_text(alloc, &instruments)?;
    let pdl = procedure_text(alloc, &mut instruments, &mut g)?;
    let device = device_text(alloc)?;
    Ok(Made {
        icl,
        pdl,
        device,
        tables,
    })
}
