//! The printed lines of a report: compares that differ, registers, instruments and totals.
#![tactic(auto)]

mod differ;
mod instrument;
mod number;
mod path;
mod register;
mod state;
mod totals;

pub use differ::{Differ, put_differ};
pub use register::{put_register, put_registers, width_of};
pub use state::put_state;
pub use totals::{Totals, put_totals};
