//! What a module of ICL declares, and the values of ICL (IEEE 1687-2014): the kinds of a module's items,
//! their names, which differ among themselves, the indices of a range, and what is counted over all cells;
//! numbers with and without a size, parameters, expressions, and values in a width.
//!
//! Each call on values answers the value that `specs/` defines, or the first fault that is met on the way to
//! it.
#![tactic(auto)]

mod counts;
mod digits;
mod expressions;
mod fault;
mod fitting;
mod integers;
mod kinds;
mod naming;
mod params;
mod ranges;
mod scope;
mod sized;
mod taken;
mod value;
mod widths;

pub use counts::{Counts, count_instrument, count_part, is_data_port, is_instrument};
pub use expressions::{evaluate, fault_place, integer};
pub use fault::ElabFault;
pub use kinds::{
    is_child, is_data_in_port, is_data_out_port, is_enum, is_input, is_interface, is_link, is_mux,
    is_part, is_register, is_scan_in_port, is_scan_out, is_signal,
};
pub use naming::check_item_names;
pub use params::ParamTable;
pub use ranges::{Bounds, Stretch, declared, indices, named_positions, width};
pub use scope::Scope;
pub use taken::Taken;
pub use value::Value;
pub use widths::{fit_sized, fit_unsized, integer_bits, value_in};
