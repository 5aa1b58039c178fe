//! Tests of the program where a call of a file or of a stream fails: what it says then, and what is. What
//! it answers to texts is in the cases of `ijtag_answers`.
#![tactic(auto)]

#[cfg(test)]
mod commands;
#[cfg(test)]
mod direct_values;
#[cfg(test)]
mod failing_files;
#[cfg(test)]
mod failing_makes;
#[cfg(test)]
mod failing_streams;
#[cfg(test)]
mod short_memory;

/// It does nothing: the tests are run, and not the program.
fn main() {}
