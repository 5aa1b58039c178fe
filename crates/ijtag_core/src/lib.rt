//! The program as a function of its words, over any files and streams: `compile` a procedure to SVF, `play`
//! an SVF file, `run` both, `direct` what a procedure means, `make` a design that is run, `migrate` a file of
//! tables, `audit` an SVF file for a procedure, `muxtest` a network that may have a multiplexer that is
//! stuck.
//!
//! A command that accepts texts is an [`Effect`], and [`accept_and_act`] is its run; a program is a table of
//! [`Command`]s, and [`run_program`] says how a run of any of them ends. `specs/Order` of `ijtag_work` has
//! the table of this program.
#![tactic(auto)]

mod audit;
mod commands;
mod compile;
mod direct;
mod effect;
mod host;
mod in_memory;
mod made_design;
mod made_files;
mod made_rounds;
mod made_svf;
mod made_totals;
mod make;
mod migrate;
mod muxtest;
mod play;
mod program;
mod run;
mod svf;
mod top;

pub use audit::a_yes_does_as_meant;
pub use effect::{Effect, accept_and_act};
pub use host::host_words;
pub use ij_text::{SOURCE_LIMIT, SVF_LIMIT};
pub use ijtag_work::{Status, own_texts_pass, works_are_decided};
pub use in_memory::ijtag_in_memory;
pub use program::{Command, run_program};
pub use svf::{make_svf, read_commands};
pub use top::ijtag;
