//! Tests of what all else is on, on texts that are in tables: lists of bits, names and numbers; files
//! and streams, in memory and of the host; the readers of procedures and SVF, and what writes SVF; the TAP
//! controller and players, clock by clock; the lines of reports; made designs.
#![tactic(auto)]

#[cfg(test)]
mod bit_lists;
#[cfg(test)]
mod calls;
#[cfg(test)]
mod checks;
#[cfg(test)]
mod files_and_streams;
#[cfg(test)]
mod host_files;
#[cfg(test)]
mod made_designs;
#[cfg(test)]
mod names_and_numbers;
#[cfg(test)]
mod pdl_texts;
#[cfg(test)]
mod report_lines;
#[cfg(test)]
mod svf_texts;
#[cfg(test)]
mod tap_walks;
#[cfg(test)]
mod written_svf;
