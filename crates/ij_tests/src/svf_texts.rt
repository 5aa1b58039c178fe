// SVF texts, and the commands that they have.

use crate::checks::{check_text, show, show_bytes};
use ij_io::{SureSink, Word};
use std::alloc::Global;
use svf_reader::read_svf;
use svf_writer::{Command, Commands, Scan, ScanPart};

/// A part of a scan, by its lowest hexadecimal digit.
fn show_part(text: &mut SureSink, name: &[u8], part: &ScanPart) {
    if !part.is_given() {
        return;
    }
    let mut digit = 0u8;
    for k in 0..part.len().min(4) {
        if part.get(k) {
            digit |= 1 << k;
        }
    }
    let digit = [b"0123456789ABCDEF"[usize::from(digit % 16)]];
    show(
        text,
        &[
            Word::Text(b" "),
            Word::Text(name),
            Word::Text(b" "),
            Word::Text(&digit),
        ],
    );
}

/// A scan, with the lowest hexadecimal digit of each part that is in it.
fn show_scan(text: &mut SureSink, name: &[u8], scan: &Scan) {
    show(
        text,
        &[
            Word::Text(name),
            Word::Text(b" "),
            Word::Number(u64::from(scan.len)),
        ],
    );
    show_part(text, b"TDI", &scan.tdi);
    show_part(text, b"TDO", &scan.tdo);
    show_part(text, b"MASK", &scan.mask);
    show_part(text, b"SMASK", &scan.smask);
}

fn show_command(text: &mut SureSink, command: &Command) {
    match command {
        Command::Sir(it) => show_scan(text, b"SIR", it),
        Command::Sdr(it) => show_scan(text, b"SDR", it),
        Command::Reset => show_bytes(text, b"RESET"),
        Command::Idle => show_bytes(text, b"IDLE"),
        Command::Run(n) => show(text, &[Word::Text(b"RUN "), Word::Number(u64::from(*n))]),
    }
}

fn show_commands(text: &mut SureSink, commands: &Commands) {
    for i in 0..commands.len() {
        show_command(text, commands.get(i));
        show_bytes(text, b";");
    }
}

/// The commands of a text, each with a `;`.
fn commands_of(alloc: Global, svf: &[u8]) -> SureSink {
    let mut text = SureSink::new(alloc);
    if svf.len() <= 1000 {
        match read_svf(alloc, svf) {
            Ok(commands) => show_commands(&mut text, &commands),
            Err(_) => show_bytes(&mut text, b"refused"),
        }
    } else {
        show_bytes(&mut text, b"too long");
    }
    text
}

const TEXTS: [(&str, &str); 9] = [
    ("", ""),
    (
        "HDR 0;\nSIR 8 TDI (A0);\nSDR 4 TDI (5);\nSDR 4 TDO (5);\n",
        "SIR 8 TDI 0;SDR 4 TDI 5;SDR 4 TDO 5;",
    ),
    ("SDR 65536 TDI (0);", "SDR 65536 TDI 0;"),
    ("SDR 64 TDI (008000000000000001);", "SDR 64 TDI 1;"),
    ("SDR 65 TDI (10000000000000001);", "SDR 65 TDI 1;"),
    ("RUNTEST 999999999 TCK;", "RUN 999999999;"),
    (
        "TRST OFF;FREQUENCY;FREQUENCY 1.0e6 HZ;ENDDR IDLE;ENDIR IDLE;",
        "",
    ),
    (
        "sir 8 tdi ( A ! 1\n 0);SDR 6 SMASK(3)TDO(2a)TDI(01)mask(f);SDR 6;",
        "SIR 8 TDI 0;SDR 6 TDI 1 TDO A MASK F SMASK 3;SDR 6;",
    ),
    (
        "State Reset;RUNTEST 12 TCK;state idle;",
        "RESET;RUN 12;IDLE;",
    ),
];

#[test]
fn texts_have_commands(rt: HostRuntime) {
    for (text, wanted) in &TEXTS {
        check_text(&rt, text, &commands_of(rt.alloc(), text.as_bytes()), wanted);
    }
}
