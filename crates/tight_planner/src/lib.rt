//! A procedure's SVF planned as a whole, for the fewest clocks (IEEE 1687-2014, PDL level 0; Serial Vector
//! Format, revision E).
//!
//! Select registers of a scan multiplexer stand in lists around it, so they are on the active path whenever
//! it is. At each scan with a multiplexer on the path, the row that it has at its next one is therefore free:
//! closing a segment never costs a scan, and keeping it open never pays. Scans are coupled by first openings
//! alone: below a multiplexer nothing can be set before its row was on the path once since power-up or the
//! last reset.
//!
//! Nothing is proved of the text but that the planner is safe and ends. Whoever writes it has it audited
//! first.
#![tactic(auto)]

mod access;
mod chip;
mod how;
mod measures;
mod needs;
mod openings;
mod rest;
mod rows;
mod scanning;
mod segments;
mod stop;
mod stretch;
mod tight;
mod visits;

pub use how::How;
pub use tight::tight_text;
