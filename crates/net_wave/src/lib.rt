//! The waves of a play: what happens at the pins, in the TAP controller and on the chip, clock by clock (IEEE
//! 1364-2005, 18.2: VCD files).
#![tactic(auto)]

mod codes;
mod digits;
mod header;
mod items;
mod laws;
mod moments;
mod names;
mod pins;
mod playing;
mod scene;
mod shapes;
mod shown;
mod texts;
mod times;
mod var;
mod wave;

pub use laws::{
    codes_differ, declarations_are_read, files_are_read, halves_are_read, moments_are_read,
    moments_replay, scopes_are_paths, scopes_are_read, tck_is_read, vars_are_whole, waves_are_read,
    widths_agree,
};
pub use var::{WaveKind, Window};
pub use wave::put_wave_file;
