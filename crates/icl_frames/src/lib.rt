//! The cells of a design of ICL (IEEE 1687-2014): its instances below a top module, in preorder, each with
//! its parameters and the indices of its parts as numbers.
#![tactic(auto)]

mod cells;
mod frames;
mod instances;
mod laws;
mod params;

pub use cells::{Frame, first_pass};
pub use frames::{Added, Passed, Request, fold_items};
pub use icl_declarations::{
    Bounds, Counts, ElabFault, Scope, Stretch, Taken, check_item_names, count_instrument,
    count_part, declared, indices, is_child, is_data_in_port, is_data_out_port, is_data_port,
    is_enum, is_input, is_instrument, is_interface, is_link, is_mux, is_part, is_register,
    is_scan_in_port, is_scan_out, is_signal, named_positions, width,
};
pub use instances::{block_named, bound_parameters, is_bindable, known_block};
pub use laws::{
    designs_have_icl_names, frames_are_preorder, frames_are_tree, frames_are_within_limits,
    frames_have_icl_names,
};
pub use params::parameters;
