//! The listing of a scan network: its registers, multiplexers and instruments, in text or JSON.
#![tactic(auto)]

ghost use Rattle.net_list.specs.Fewest.{ScansAreFewest};

mod drivers;
mod fewest;
mod format;
mod instrument;
mod mux;
mod names;
mod outputs;
mod place;
mod register;
mod totals;
mod values;
mod whole;

pub use format::ListFormat;
pub use mux::{put_rows, put_selects};
pub use names::{index_of, put_bit_name, put_register_path};
pub use outputs::{output_index, put_output};
pub use register::{muxes_selected_by, put_reset, put_selected, put_width};
pub use values::put_values;
pub use whole::put_list;

/// What is proved of the numbers of scans in a listing: it carries no code, its clause says what holds of the
/// definitions.
///
/// No sequence of scans from power-up on brings a register onto the active path sooner than the listing says,
/// and one brings it there as soon (IEEE 1687-2014: active scan path).
pub fn list_law()
    ensures fewest { ScansAreFewest }
{}
