// What a bench holds.
ghost use Rattle.std.specs.Prelude.{◌≡◌, map, OnOk, OnErr};
ghost use Rattle.ij_io.specs.Bytes.{Adds, AddsPart};
ghost use Rattle.ij_io.specs.Causes.{HasCause};
ghost use Rattle.instruments.specs.Seen.{seen_model};
ghost use Rattle.instruments.specs.Runners.{AreModels};
ghost use Rattle.net_graph.specs.Nets.{IsNet};
ghost use Rattle.bench_report.specs.Report.{state_text};

use ij_bits::List;
use ij_io::{Sink, StoreFault};
use instruments::Model;
use net_bench::Bench;
use net_graph::Net;

/// Writes what each register and each instrument holds.
pub(crate) fn put_state<K: Sink>(
    net: &Net,
    models: &List<Model>,
    bench: &Bench,
    k: &mut K,
) -> Result<(), StoreFault>
    requires well_formed { IsNet net.now }
    requires models { AreModels net.now models.now.items }
    requires net { bench.now.net ≡ net.now }
    requires bench { bench.now.models ≡ models.now.items }
    ensures whole { OnOk result (Adds (K.taken k.old) (K.taken k.new)
        (state_text net.now (map seen_model models.now.items) bench.now.state)) }
    ensures part { OnErr result (AddsPart (K.taken k.old) (K.taken k.new)
        (state_text net.now (map seen_model models.now.items) bench.now.state)) }
    ensures cause { HasCause (K.faults k.old) (K.faults k.new) result StoreFault.Failed }
{
    report::put_state(net, models, bench.holds(), bench.runners(), k)
}
