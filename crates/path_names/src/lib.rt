//! The written paths of what is in a network: instances, registers, data ports, aliases and scan
//! multiplexers.
#![tactic(auto)]

mod paths;

pub use paths::{put_instance_path, put_mux_path, put_name, put_thing_path};
