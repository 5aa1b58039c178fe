//! Reads SVF (Serial Vector Format, revision E): the commands of the profile, whatever tool wrote them.
#![tactic(auto)]

mod bytes;
mod fault;
mod grammar;
mod hex;
mod laws;
mod left_out;
mod meaning;
mod parsed;
mod pieces;
mod reading;
mod so_far;
mod words;

pub use fault::SvfFault;
pub use laws::{
    commands_are_read_again, read_commands_are_within_limits, read_commands_fit,
    scripts_are_read_again,
};
pub use pieces::Piece;
pub use reading::{is_scan, next_text, read_svf};
