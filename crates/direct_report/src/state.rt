// What the registers and the instruments hold.
ghost use Rattle.std.specs.Prelude.{◌≡◌, ◌++◌, map, OnOk, OnErr};
ghost use Rattle.ij_io.specs.Bytes.{Adds, AddsPart};
ghost use Rattle.ij_io.specs.Causes.{HasCause};
ghost use Rattle.instruments.specs.Seen.{seen_model};
ghost use Rattle.net_graph.specs.Nets.{IsNet};
ghost use Rattle.report.specs.Instruments.{instruments_text};
ghost use Rattle.report.specs.Registers.{registers_text};
ghost use Rattle.instruments.specs.Runners.{AreModels};

use ij_bits::List;
use ij_io::{Sink, StoreFault};
use instruments::Model;
use net_graph::Net;
use pdl_meaning::DataState;
use report::put_state;

/// Writes what each register and each instrument holds.
pub(crate) fn put_values<K: Sink>(
    net: &Net,
    models: &List<Model>,
    values: &DataState,
    k: &mut K,
) -> Result<(), StoreFault>
    requires well_formed { IsNet net.now }
    requires models { AreModels net.now models.now.items }
    requires net { values.now.net ≡ net.now }
    requires values { values.now.models ≡ models.now.items }
    ensures whole { OnOk result (Adds (K.taken k.old) (K.taken k.new) (registers_text net.now values.now.holds
        ++ instruments_text net.now (map seen_model models.now.items) values.now.insts)) }
    ensures part { OnErr result (AddsPart (K.taken k.old) (K.taken k.new) (registers_text net.now
        values.now.holds ++ instruments_text net.now (map seen_model models.now.items) values.now.insts)) }
    ensures cause { HasCause (K.faults k.old) (K.faults k.new) result StoreFault.Failed }
{
    put_state(net, models, values.holds(), values.runners(), k)
}
