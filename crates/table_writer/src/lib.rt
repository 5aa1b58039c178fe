//! Writes tables as a file of version 2.
#![tactic(auto)]

mod definition;
mod laws;
mod names;
mod row;
mod tables;

pub use laws::tables_are_read_again;
pub use tables::put_tables;
