//! Writes the SVF of a procedure's bit steps on any network, step by step (IEEE 1687-2014, PDL level 0;
//! Serial Vector Format, revision E): to a sink, or to a file piece by piece.
#![tactic(auto)]

mod buffers;
mod file_procedure;
mod procedure;
mod retargeter;
mod rounds;
mod scan;
mod scans;

pub use file_procedure::put_svf_file;
pub use procedure::put_svf;
pub use retargeter::Retargeter;
