// The table of commands.
ghost use Rattle.ijtag_work.specs.Audited.{IsPromised};
ghost use Rattle.ijtag_work.specs.Command.{Command as NamedCommand};
ghost use Rattle.ijtag_work.specs.Order.{task as task_named};
ghost use Rattle.std.specs.Prelude.{◌≡◌};
ghost use Rattle.ijtag_work.specs.Runs.{AreSettled};
ghost use Rattle.ijtag_work.specs.Stops.{usage_text};
ghost use Rattle.ijtag_work.specs.Words.{seen_command};

use crate::effect::accept_and_act;
use crate::make::make;
use crate::migrate::migrate;
use crate::program::Command;
use ij_io::{Shelf, Sink};
use ijtag_work::{CommandWords, Stop, Verdict, works_are_decided};
use std::alloc::Global;

impl<'w> Command for CommandWords<'w> {
    ghost Named = { NamedCommand };

    ghost named = { seen_command };

    ghost task = { task_named };

    ghost promise = { IsPromised };

    ghost usage_text = { usage_text };

    fn usage() -> &'static [u8]
        ensures { result.now ≡ usage_text }
    {
        b"usage: ijtag compile|play|run|direct|make|migrate|audit|muxtest\n"
    }

    fn works_settle()
        ensures { AreSettled task_named }
    {
        works_are_decided();
    }

    fn run<'a, S: Shelf, O: Sink>(
        &'a self,
        alloc: Global,
        shelf: &mut S,
        out: &mut O,
    ) -> Result<Verdict, Stop<'a>> {
        match self {
            CommandWords::Compile(it) => accept_and_act(alloc, it, shelf, out),
            CommandWords::Play(it) => accept_and_act(alloc, it, shelf, out),
            CommandWords::Direct(it) => accept_and_act(alloc, it, shelf, out),
            CommandWords::Run(it) => accept_and_act(alloc, it, shelf, out),
            CommandWords::Make(it) => make(alloc, it, shelf, out),
            CommandWords::Migrate(it) => migrate(alloc, it, shelf, out),
            CommandWords::Audit(it) => accept_and_act(alloc, it, shelf, out),
            CommandWords::MuxTest(it) => accept_and_act(alloc, it, shelf, out),
        }
    }
}
