//! Reads ICL (IEEE 1687-2014, the part that this compiler reads): the design of a list of tokens.
#![tactic(auto)]

mod bodies;
mod entries;
mod fault;
mod items;
mod laws;
mod links;
mod modules;
mod parsing;
mod words;

pub use fault::ParseFault;
pub use laws::{designs_are_one, refusals_are_one};
pub use parsing::parse;
