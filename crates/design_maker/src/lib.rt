//! Designs of any size that a number decides: a network of instruments after SIBs, a procedure that writes
//! and reads them, their tables and a device (IEEE 1687-2014, ICL and PDL level 0).
//!
//! `specs/Texts` has the four texts of a seed and a size, over what is drawn (`Draws`), the instruments
//! (`Instruments`), the design (`Parts`, `Modules`, `Network`), the procedure (`Procedure`) and the tables
//! (`Tables`).
#![tactic(auto)]

mod draws;
mod instrument;
mod items;
mod modules;
mod network;
mod procedure;
mod signals;
mod tables;
mod texts;

pub use texts::{Made, MakeFault, SIZE_LIMIT, make};
