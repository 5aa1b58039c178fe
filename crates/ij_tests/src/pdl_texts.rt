// PDL texts, and the procedures that they have.

use crate::checks::{check_text, show, show_bytes, show_gap};
use ij_io::{SureSink, Word};
use pdl_parser::{Proc, parse_pdl};
use std::alloc::Global;

/// How many arguments and commands each procedure has.
fn show_procedures(text: &mut SureSink, procs: &[Proc]) {
    for proc in procs {
        show_gap(text);
        show(
            text,
            &[
                Word::Number(proc.args.len() as u64),
                Word::Text(b":"),
                Word::Number(proc.body.len() as u64),
            ],
        );
    }
}

/// The procedures of a text.
fn procedures_of(alloc: Global, pdl: &[u8]) -> SureSink {
    let mut text = SureSink::new(alloc);
    if pdl.len() <= 1000 {
        match parse_pdl(alloc, pdl) {
            Ok(procs) => show_procedures(&mut text, procs.procs.as_slice()),
            Err(_) => show_bytes(&mut text, b"refused"),
        }
    } else {
        show_bytes(&mut text, b"too long");
    }
    text
}

/// Texts, and how many arguments and commands each of their procedures has.
const TEXTS: [(&str, &str); 12] = [
    ("", ""),
    (
        "iPDLLevel 0 -version STD_1687_2014\r\niProcsForModule m\r\niProc p {a\r\n b} {\r\n  iWrite net.R[3:0] $a; iApply\r\n}\r\n",
        "2:2",
    ),
    (
        "iProcsForModule m\niProc p {} {}\niProcsForModule n\niProc p {} {}",
        "0:0 0:0",
    ),
    (
        "iProcsForModule m\niProc p {a} {\niWrite R 0b0101\niRead R 0x0_f\niRead R on\niApply\n}",
        "1:4",
    ),
    (
        "iProcsForModule m\niProc p {a} {\niRunLoop 5 -tck; iReset; iPrefix a.b; iPrefix -\n}",
        "1:4",
    ),
    (
        "iProcsForModule m\niProc p {a} {\niWrite \\\n R 1\n}",
        "1:1",
    ),
    (
        "iProcsForModule m\niProc p {a} {\n# c \\\n foo\niApply; # d\n}",
        "1:1",
    ),
    (
        "iProcsForModule m\niProc p {a} {\niNote -status \"a } ; \\\" # \"; iNote \"\"\n}",
        "1:2",
    ),
    (
        "iProcsForModule m\niProc p {a} {\niMerge -begin\niCall a.q $a 5 on\niNote \"x\"\n;iMerge -end\n}",
        "1:4",
    ),
    (
        "iProcsForModule m\niProc p {a} {\niWrite R 340282366920938463463374607431768211455\n}",
        "1:1",
    ),
    (
        "iProcsForModule m\niProc p {a} {\niWrite R[4294967295] 1\n}",
        "1:1",
    ),
    ("iProcsForModule m\niProc p {a} {\niCall q $a\n}", "1:1"),
];

#[test]
fn texts_have_procedures(rt: HostRuntime) {
    for (text, wanted) in &TEXTS {
        check_text(
            &rt,
            text,
            &procedures_of(rt.alloc(), text.as_bytes()),
            wanted,
        );
    }
}
