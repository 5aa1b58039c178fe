//! The drawing of a scan network, with the active path of a state.
#![tactic(auto)]

mod captures;
mod dot;
mod draw;
mod drawing;
mod labels;
mod laws;
mod layout;
mod met;
mod numbers;
mod pen;
mod plan;
mod shape;
mod svg;
mod texts;

pub use dot::put_dot;
pub use laws::{graph_laws, picture_laws};
pub use svg::put_svg;
