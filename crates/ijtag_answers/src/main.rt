//! Calls the program over files in memory, case by case, and compares what it answers. Each word is the name
//! of a topic, a file of cases; DEVELOPING says how one is written. It prints how many cases each topic has,
//! and after a case that differs what was found.
#![tactic(auto)]

mod reader;
mod texts;
mod trial;

use crate::reader::Reader;
use ijtag_core::host_words;
use std::fs;
use std::process::ExitCode;
use std::rt::Files;

/// Runs the cases of a topic, and prints what comes of them.
fn run_topic<R: Files + Print + AllocGlobal>(rt: &R, reader: &mut Reader, topic: &str) {
    match fs::read_to_string(rt, topic) {
        Ok(text) => reader.topic(topic, text.as_str()),
        Err(_) => reader.missing(topic),
    }
    let _ = rt.print(reader.report());
}

fn main(rt: HostRuntime) -> ExitCode {
    let Ok(topics) = host_words(&rt) else {
        return ExitCode::from(1);
    };
    let mut reader = Reader::new(rt.alloc());
    for topic in &topics {
        run_topic(&rt, &mut reader, topic.as_str());
    }
    reader.totals();
    let _ = rt.print(reader.report());
    ExitCode::from(u8::from(reader.differ()))
}
