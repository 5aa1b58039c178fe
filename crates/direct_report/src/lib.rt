//! Prints the direct meaning of a procedure's bit steps, step by step.
#![tactic(auto)]

mod laws;
mod marking;
mod play;
mod reads;
mod round;
mod state;
mod whole;

pub use laws::direct_report_law;
pub use play::DirectPlay;
pub use whole::put_direct;
