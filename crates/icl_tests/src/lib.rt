//! Tests of the readers of ICL, of what prints it again, of lists in runs, and of the calls over scan
//! networks, on networks of ICL texts that are in tables.
#![tactic(auto)]

#[cfg(test)]
mod icl_designs;
#[cfg(test)]
mod icl_hierarchies;
#[cfg(test)]
mod icl_networks;
#[cfg(test)]
mod icl_printed;
#[cfg(test)]
mod icl_tokens;
#[cfg(test)]
mod mux_tests;
#[cfg(test)]
mod nested_forms;
#[cfg(test)]
mod network_lists;
#[cfg(test)]
mod network_pictures;
mod network_texts;
#[cfg(test)]
mod runs;
#[cfg(test)]
mod texts;
#[cfg(test)]
mod update_stages;
