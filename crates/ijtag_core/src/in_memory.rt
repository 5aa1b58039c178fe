// Runs in memory.
ghost use Rattle.std.specs.Prelude.{Some, IfSome};
ghost use Rattle.ij_io.specs.SureShelf.{sure_files_in};
ghost use Rattle.ijtag_core.specs.InMemory.{in_memory};
ghost use Rattle.ijtag_stages.specs.Refusals.{Refusal};
ghost use Rattle.ijtag_work.specs.Command.{command_in};
ghost use Rattle.ijtag_work.specs.Ends.{IfDone, IsRun, world};
ghost use Rattle.ijtag_work.specs.Headline.{LeavesRightSvf};
ghost use Rattle.ijtag_work.specs.Leaves.{Leaves};
ghost use Rattle.ijtag_work.specs.Order.{task};
ghost use Rattle.ijtag_work.specs.Runs.{IsOrMemory, status_if};
ghost use Rattle.ijtag_work.specs.Stops.{usage_text};
ghost use Rattle.ijtag_work.specs.Task.{work};

use crate::top::ijtag;
use ij_io::{SureShelf, SureSink};
use ijtag_work::Status;
use std::alloc::Global;

/// Runs the program over files and streams in memory. Nothing fails there but for want of memory, so what is
/// accepted is done. A file that isn't there is read as an empty one.
pub fn ijtag_in_memory(
    alloc: Global,
    words: &Vec<String>,
    shelf: &mut SureShelf,
    out: &mut SureSink,
    err: &mut SureSink,
) -> Status
    ensures headline { IfDone result (λ differs. LeavesRightSvf (Some (sure_files_in shelf.old))
        (λ name. Some (sure_files_in shelf.new name)) differs (command_in words.now.items)) }
    ensures run { IsRun in_memory task usage_text (command_in words.now.items)
        (world shelf.old out.old err.old) (world shelf.new out.new err.new) result }
    ensures complete { IfSome (command_in words.now.items) (λ command. (leaves : Leaves)
        → (work (Some (sure_files_in shelf.old)) (task command)).gives leaves
        → IsOrMemory result (status_if leaves.differs)) }
    ensures refuses { IfSome (command_in words.now.items) (λ command. (refusal : Refusal)
        → (work (Some (sure_files_in shelf.old)) (task command)).refuses refusal
        → IsOrMemory result Status.Refused) }
{
    ijtag(alloc, words, shelf, out, err)
}
