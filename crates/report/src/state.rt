// What the registers and the instruments hold.
ghost use Rattle.std.specs.Prelude.{◌≡◌, ◌++◌, map, length, OnOk, OnErr};
ghost use Rattle.ij_io.specs.Bytes.{Adds, AddsPart};
ghost use Rattle.ij_io.specs.Causes.{HasCause};
ghost use Rattle.instruments.specs.Runners.{insts_of, AreModels};
ghost use Rattle.instruments.specs.Seen.{seen_model};
ghost use Rattle.net_graph.specs.Held.{AreHolds};
ghost use Rattle.net_graph.specs.Nets.{IsNet};
ghost use Rattle.report.specs.Instruments.{instruments_text};
ghost use Rattle.report.specs.Registers.{registers_text};

use crate::instrument::put_instrument;
use crate::register::put_registers;
use ij_bits::List;
use ij_io::{Sink, StoreFault};
use instruments::{Model, Runner};
use net_graph::{Holds, Net};

/// Writes the line of each instrument.
fn put_instruments<K: Sink>(
    net: &Net,
    models: &List<Model>,
    runners: &[Runner],
    k: &mut K,
) -> Result<(), StoreFault>
    requires well_formed { IsNet net.now }
    requires models { AreModels net.now models.now.items }
    requires runners { length runners.now ≡ length models.now.items }
    ensures whole { OnOk result (Adds (K.taken k.old) (K.taken k.new)
        (instruments_text net.now (map seen_model models.now.items) (insts_of runners.now))) }
    ensures part { OnErr result (AddsPart (K.taken k.old) (K.taken k.new)
        (instruments_text net.now (map seen_model models.now.items) (insts_of runners.now))) }
    ensures cause { HasCause (K.faults k.old) (K.faults k.new) result StoreFault.Failed }
{
    for i in 0..models.len() {
        put_instrument(net, models.get(i), i as u32, &runners[i], k)?;
    }
    Ok(())
}

/// Writes what each register and each instrument holds: the lines of the registers, then those of the
/// instruments, each with the model at its place. It takes no memory itself.
///
/// # Errors
///
/// The sink's, which then took some first bytes of the lines.
pub fn put_state<K: Sink>(
    net: &Net,
    models: &List<Model>,
    holds: &Holds,
    runners: &[Runner],
    k: &mut K,
) -> Result<(), StoreFault>
    requires well_formed { IsNet net.now }
    requires models { AreModels net.now models.now.items }
    requires holds { AreHolds net.now holds.now }
    requires runners { length runners.now ≡ length models.now.items }
    ensures whole { OnOk result (Adds (K.taken k.old) (K.taken k.new) (registers_text net.now holds.now
        ++ instruments_text net.now (map seen_model models.now.items) (insts_of runners.now))) }
    ensures part { OnErr result (AddsPart (K.taken k.old) (K.taken k.new) (registers_text net.now holds.now
        ++ instruments_text net.now (map seen_model models.now.items) (insts_of runners.now))) }
    ensures cause { HasCause (K.faults k.old) (K.faults k.new) result StoreFault.Failed }
{
    put_registers(net, holds, k)?;
    put_instruments(net, models, runners, k)?;
    Ok(())
}
