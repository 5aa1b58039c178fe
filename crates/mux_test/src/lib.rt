//! The test of a network's scan muxes: a marker is taken through every row of every mux (IEEE 1687-2014:
//! ScanMux).
#![tactic(auto)]

mod detour;
mod fault;
mod file;
mod judge;
mod known;
mod law;
mod planned;
mod report;
mod stuck;
mod test;

pub use fault::MuxFault;
pub use file::put_test_file;
pub use law::mux_tests_law;
pub use report::put_test_report;
pub use test::{MuxTest, TestScan};
