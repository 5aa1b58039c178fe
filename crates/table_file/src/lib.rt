//! The tables of a file: what each instrument of a network does.
#![tactic(auto)]

mod adding;
mod blocks;
mod fault;
mod growing;
mod laws;
mod limits;
mod names;
mod read;
mod table;
mod widths;

pub use fault::TableFault;
pub use laws::tables_are_models;
pub use read::read_tables;
pub use table::Table;
