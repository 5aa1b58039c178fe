// The table of commands.
ghost use Rattle.std.specs.Prelude.{◌≡◌};
ghost use Rattle.ijtag_work.specs.Runs.{AreSettled};
ghost use Rattle.ijtag_tools.specs.Command.{Command as NamedCommand, usage_text};
ghost use Rattle.ijtag_tools.specs.Order.{task as task_named};
ghost use Rattle.ijtag_tools.specs.Promises.{IsPromised};
ghost use Rattle.ijtag_tools.specs.Words.{seen_command};

use crate::graph::draw_graph;
use crate::words::ToolWords;
use ij_io::{Shelf, Sink};
use ijtag_core::{Command, accept_and_act};
use ijtag_stages::stages_are_decided;
use ijtag_work::{Stop, Verdict, texts_are_decided};
use std::alloc::Global;

impl<'w> Command for ToolWords<'w> {
    ghost Named = { NamedCommand };

    ghost named = { seen_command };

    ghost task = { task_named };

    ghost promise = { IsPromised };

    ghost usage_text = { usage_text };

    fn usage() -> &'static [u8]
        ensures { result.now ≡ usage_text }
    {
        b"usage: ijtag-tools list text|json ICL DEVICE TOP\n       \
          ijtag-tools explain SVF ICL DEVICE TABLES TOP NEW\n       \
          ijtag-tools where SVF ICL DEVICE TABLES TOP SCAN BIT\n       \
          ijtag-tools picture svg|dot ICL DEVICE TOP NEW [SVF TABLES SCAN]\n       \
          ijtag-tools tighten full|lean|late ICL PDL DEVICE TOP PROC NEW\n       \
          ijtag-tools wave pins|state|all SVF ICL DEVICE TABLES TOP NEW [FROM COUNT]\n"
    }

    fn works_settle()
        ensures { AreSettled task_named }
    {
        texts_are_decided();
        stages_are_decided();
    }

    fn run<'a, S: Shelf, O: Sink>(
        &'a self,
        alloc: Global,
        shelf: &mut S,
        out: &mut O,
    ) -> Result<Verdict, Stop<'a>> {
        match self {
            ToolWords::List(it) => accept_and_act(alloc, it, shelf, out),
            ToolWords::Explain(it) => accept_and_act(alloc, it, shelf, out),
            ToolWords::Where(it) => accept_and_act(alloc, it, shelf, out),
            ToolWords::Picture(it) => accept_and_act(alloc, it, shelf, out),
            ToolWords::Graph(it) => draw_graph(alloc, it, shelf, out),
            ToolWords::PictureAt(it) => accept_and_act(alloc, it, shelf, out),
            ToolWords::Tighten(it) => accept_and_act(alloc, it, shelf, out),
            ToolWords::Wave(it) => accept_and_act(alloc, it, shelf, out),
        }
    }
}
