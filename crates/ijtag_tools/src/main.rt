//! The second program, `ijtag-tools`: what engineers ask next of a network and of a procedure. Its commands
//! accept their texts as those of `ijtag` do, and are run as they are.
#![tactic(auto)]

mod commands;
mod cost;
mod explain;
mod graph;
mod list;
mod picture;
mod planned;
mod tighten;
mod top;
mod unnested;
mod wave;
mod where_;
mod words;

use crate::top::ijtag_tools;
use ij_io::{HostShelf, HostSink};
use ijtag_core::{Status, host_words};
use std::io::BufWriter;
use std::process::ExitCode;

fn main(rt: HostRuntime) -> ExitCode {
    let Ok(words) = host_words(&rt) else {
        return ExitCode::from(Status::OutOfMemory.code());
    };
    let alloc = rt.alloc();
    let Ok(stdout) = BufWriter::new(alloc, rt.stdout()) else {
        return ExitCode::from(Status::OutOfMemory.code());
    };
    let mut shelf = HostShelf::new(rt, alloc);
    let mut out = HostSink::new(stdout);
    let mut err = HostSink::new(rt.stderr());
    let status = ijtag_tools(alloc, &words, &mut shelf, &mut out, &mut err);
    ExitCode::from(status.code())
}
