//! What references, values and rows of an instance name (IEEE 1687-2014, ICL): paths of names, signals bit by
//! bit, multiplexers. And the hierarchy, which is made of them.
#![tactic(auto)]

mod bits;
mod hier;
mod muxes;
mod overlaps;
mod paths;
mod signals;
mod sources;
mod tables;
mod values;

pub use hier::{Body, Cell, Hier, Part, Ref};
pub use muxes::mux_role;
pub use signals::{alias_signals, control_signals, data_signals, scan_signal, select_signals};
pub use tables::{CellTable, Member, Tables, width_of};
