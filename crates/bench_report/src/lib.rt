//! Plays SVF commands on the bench of any network, and prints what came of it: a report, or one line with the
//! size of the network and the totals of the play.
#![tactic(auto)]

mod compares;
mod made_line;
mod made_play;
mod names;
mod play;
mod state;

pub use made_line::put_made;
pub use names::ReadNames;
pub use play::{put_named_play, put_play};
