//! Prints a run of a procedure: the play of its SVF on the bench, in which each compare that differs names
//! its iRead.
//!
//! Which iRead each compare is follows from its scan and its position in the scan (IEEE 1687-2014, PDL level
//! 0: iRead; Serial Vector Format, revision E).
#![tactic(auto)]

mod cursor;
mod laws;
mod names;
mod place;
mod run;
mod scans;

pub use laws::places_are_one;
pub use names::ReadPlaces;
pub use run::put_run;
