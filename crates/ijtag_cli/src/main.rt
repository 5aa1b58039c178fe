//! The program: the words of the command line, real files, and the standard streams.
#![tactic(auto)]

use ij_io::{HostShelf, HostSink};
use ijtag_core::{Status, host_words, ijtag};
use std::io::BufWriter;
use std::process::ExitCode;

fn main(rt: HostRuntime) -> ExitCode {
    let Ok(words) = host_words(&rt) else {
        return ExitCode::from(Status::OutOfMemory.code());
    };
    let alloc = rt.alloc();
    let Ok(stdout) = BufWriter::new(alloc, rt.stdout()) else {
        return ExitCode::from(Status::OutOfMemory.code());
    };
    let mut shelf = HostShelf::new(rt, alloc);
    let mut out = HostSink::new(stdout);
    let mut err = HostSink::new(rt.stderr());
    let status = ijtag(alloc, &words, &mut shelf, &mut out, &mut err);
    ExitCode::from(status.code())
}
