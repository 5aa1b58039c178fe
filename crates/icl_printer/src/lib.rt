//! The text of an ICL design (IEEE 1687-2014, the part that this compiler reads).
//!
//! `specs/Canonical` has the tokens that each part of a design is printed with, and `specs/Layout` how they
//! are laid out.
#![tactic(auto)]

mod bodies;
mod design;
mod expressions;
mod items;
mod laws;
mod parts;
mod properties;
mod put;
mod signals;
mod token;

pub use design::put_design;
pub use laws::{designs_are_read_again, printed_tokens_derive_the_design};
