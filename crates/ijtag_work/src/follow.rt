// A procedure that was followed to its end, once more.
ghost use Rattle.std.specs.Prelude.{◌≡◌, IfOk};
ghost use Rattle.merge_order.specs.BitSteps.{bit_steps};
ghost use Rattle.net_graph.specs.Nets.{IsNet};
ghost use Rattle.pdl_parser.specs.Views.{seen_procs};
ghost use Rattle.ijtag_work.specs.Using.{ComesToItsEnd};

use crate::accepted::Procedure;
use ij_bits::OutOfMemory;
use ijtag_stages::Network;
use merge_order::BitSteps;
use std::alloc::Global;

/// The bit steps of a procedure once more, one at each call. They were followed to their end before.
pub fn steps_again<'a>(
    alloc: Global,
    network: &'a Network,
    procedure: &'a Procedure,
) -> Result<BitSteps<'a>, OutOfMemory>
    requires net { IsNet network.now.net }
    requires ends { ComesToItsEnd network.now procedure.now }
    ensures { IfOk result (λ steps. steps ≡ bit_steps
        (seen_procs procedure.now.procs) network.now.net network.now.form procedure.now.name.items) }
{
    BitSteps::new(
        alloc,
        procedure.procs.procs.as_slice(),
        &network.net,
        &network.form,
        procedure.name.as_slice(),
    )
    .map_err(|_| OutOfMemory)
}
