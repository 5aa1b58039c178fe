// The paths of instruments.
ghost use Rattle.std.specs.Prelude.{◌<◌, length, OnOk, OnErr};
ghost use Rattle.ij_io.specs.Bytes.{Adds, AddsPart};
ghost use Rattle.ij_io.specs.Causes.{HasCause};
ghost use Rattle.net_graph.specs.Nets.{IsNet};
ghost use Rattle.report.specs.Paths.{instrument_path};

use ij_io::{Sink, StoreFault};
use net_graph::{Net, node_of};
use path_names::put_instance_path;

/// Writes the path of an instrument: the names of its node, joined by dots.
pub(crate) fn put_instrument_path<K: Sink>(
    net: &Net,
    inst: u32,
    k: &mut K,
) -> Result<(), StoreFault>
    requires well_formed { IsNet net.now }
    requires there { inst < length net.now.insts.items }
    ensures whole { OnOk result (Adds (K.taken k.old) (K.taken k.new) (instrument_path net.now inst)) }
    ensures part { OnErr result (AddsPart (K.taken k.old) (K.taken k.new) (instrument_path net.now inst)) }
    ensures cause { HasCause (K.faults k.old) (K.faults k.new) result StoreFault.Failed }
{
    put_instance_path(net, node_of(net, inst), k)
}
