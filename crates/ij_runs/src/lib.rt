//! Lists of values, many of which follow the one before them: the memory grows with the others alone.
#![tactic(auto)]

mod follow;
mod runs;

pub use follow::Follow;
pub use runs::{RunPart, Runs};
