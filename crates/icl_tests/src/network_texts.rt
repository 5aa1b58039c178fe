// The networks of ICL texts.
ghost use Rattle.std.specs.Prelude.{◌≤◌, length, IfOk};
ghost use Rattle.icl_frames.specs.Written.{AreWritten};
ghost use Rattle.icl_lexer.specs.Views.{seen_design};
ghost use Rattle.net_graph.specs.Nets.{IsNet};

use icl_elab::elaborate;
use icl_frames::designs_have_icl_names;
use icl_lexer::{Design, lex, tokens_are_in_the_text};
use icl_parser::parse;
use icl_signals::connect;
use ij_text::{Name, name_of};
use net_graph::Net;
use std::alloc::Global;

/// The design of a text.
fn design_of(alloc: Global, text: &[u8]) -> Result<Design, &'static str>
    requires { length text.now ≤ 134217728 }
    ensures written { IfOk result (λ design. AreWritten (seen_design design)) }
{
    designs_have_icl_names();
    tokens_are_in_the_text();
    let Ok(tokens) = lex(text) else {
        return Err("the text is not cut");
    };
    let Ok(design) = parse(alloc, text, tokens) else {
        return Err("the text is no design");
    };
    Ok(design)
}

/// The network of a design below a module, at a link.
fn linked(
    alloc: Global,
    design: &Design,
    top: &Name,
    link: &Name,
    instr: &Name,
) -> Result<Net, &'static str>
    ensures well_formed { IfOk result (λ net. AreWritten (seen_design design.now) → IsNet net) }
{
    let Ok(hier) = elaborate(alloc, design, top) else {
        return Err("the design has no hierarchy");
    };
    match connect(alloc, &hier, link, instr) {
        Ok(net) => Ok(net),
        Err(_) => Err("the hierarchy has no network"),
    }
}

/// The network of a design below its module `chip`, at its link `tap`.
fn connected(alloc: Global, design: &Design) -> Result<Net, &'static str>
    ensures well_formed { IfOk result (λ net. AreWritten (seen_design design.now) → IsNet net) }
{
    let Ok(top) = name_of(alloc, b"chip") else {
        return Err("no memory");
    };
    let Ok(link) = name_of(alloc, b"tap") else {
        return Err("no memory");
    };
    match name_of(alloc, b"IJTAG") {
        Ok(instr) => linked(alloc, design, &top, &link, &instr),
        Err(_) => Err("no memory"),
    }
}

/// The network of a text.
fn network_in(alloc: Global, text: &[u8]) -> Result<Net, &'static str>
    ensures well_formed { IfOk result IsNet }
{
    if text.len() > 100_000 {
        return Err("the text is too long");
    }
    match design_of(alloc, text) {
        Ok(design) => connected(alloc, &design),
        Err(why) => Err(why),
    }
}

/// What comes before the parts of the module `Net`, and after them.
const FRONT: &str =
    "Module Ins { DataInPort d; } Module Net { ScanInterface client { Port SI; Port SO; } ScanInPort SI; ScanOutPort SO { Source";

const BACK: &str =
    "} Module chip { Instance net Of Net; AccessLink tap Of STD_1149_1_2001 { BSDLEntity chip; IJTAG { ScanInterface { net.client; } } } }";

/// The network of a module `Net` whose output has this source, and these parts.
pub fn network_of(alloc: Global, source: &str, parts: &str) -> Result<Net, &'static str>
    ensures well_formed { IfOk result IsNet }
{
    match format!(in alloc; "{FRONT} {source}; }}\n{parts} {BACK}") {
        Ok(text) => network_in(alloc, text.as_bytes()),
        Err(_) => Err("no memory"),
    }
}
