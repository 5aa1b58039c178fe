// The ICL text (IEEE 1687-2014).
ghost use Rattle.std.specs.Prelude.{◌≤◌, length, IfOk, Some};
ghost use Rattle.icl_frames.specs.Written.{AreWritten};
ghost use Rattle.icl_lexer.specs.Views.{seen_design};
ghost use Rattle.ijtag_stages.specs.Follows.{Follows, IsToldAs};
ghost use Rattle.ijtag_stages.specs.IclText.{icl_text, icl_tokens, icl_design, lex_refusal, parse_refusal};

use crate::refusal::{Stage, StageFault, refused_at, refused_word};
use icl_frames::designs_have_icl_names;
use icl_lexer::{Cursor, Design, LexFault, lex, tokens_are_in_the_text};
use icl_parser::{ParseFault, parse};
use std::alloc::Global;

/// How a fault of the tokens is reported.
fn refusal_of_lex(alloc: Global, fault: LexFault) -> StageFault
    ensures { IsToldAs (Some (lex_refusal fault)) result }
{
    match fault {
        LexFault::BadByte { at } => refused_at(alloc, Stage::Icl, b"BadByte", at),
        LexFault::OpenComment { at } => refused_at(alloc, Stage::Icl, b"OpenComment", at),
        LexFault::OpenText { at } => refused_at(alloc, Stage::Icl, b"OpenText", at),
    }
}

/// How a fault of the grammar is reported.
fn refusal_of_parse(alloc: Global, fault: ParseFault) -> StageFault
    ensures { IsToldAs (parse_refusal fault) result }
{
    match fault {
        ParseFault::LeftOut { at, word } => refused_word(alloc, Stage::Icl, b"LeftOut", at, word),
        ParseFault::ExprLimit { at } => refused_at(alloc, Stage::Icl, b"ExprLimit", at),
        ParseFault::Syntax { at } => refused_at(alloc, Stage::Icl, b"Syntax", at),
        ParseFault::OutOfMemory => StageFault::OutOfMemory,
    }
}

/// The tokens of a text.
#[tactic(auto, unfolding(crate::specs::IclText::icl_tokens))]
fn read_tokens<'a>(alloc: Global, text: &'a [u8]) -> Result<Cursor<'a>, StageFault>
    requires { length text.now ≤ 134217728 }
    ensures { Follows (icl_tokens text.now) (λ tokens. tokens) result }
{
    match lex(text) {
        Ok(tokens) => Ok(tokens),
        Err(fault) => Err(refusal_of_lex(alloc, fault)),
    }
}

/// What the grammar makes of the tokens of a text.
#[tactic(auto, unfolding(crate::specs::IclText::icl_design))]
fn read_modules<'a>(alloc: Global, text: &[u8], tokens: Cursor<'a>) -> Result<Design, StageFault>
    requires { length text.now ≤ 134217728 }
    ensures { Follows (icl_design text.now tokens.entry) seen_design result }
{
    match parse(alloc, text, tokens) {
        Ok(design) => Ok(design),
        Err(fault) => Err(refusal_of_parse(alloc, fault)),
    }
}

/// The design of an ICL text (IEEE 1687-2014, the part that is read here). Where it isn't one, the fault says
/// where and why.
#[tactic(auto, unfolding(crate::specs::IclText::icl_text))]
pub fn read_icl(alloc: Global, text: &[u8]) -> Result<Design, StageFault>
    requires { length text.now ≤ 134217728 }
    ensures follows { Follows (icl_text text.now) seen_design result }
    ensures written { IfOk result (λ design. AreWritten (seen_design design)) }
{
    designs_have_icl_names();
    tokens_are_in_the_text();
    let tokens = read_tokens(alloc, text)?;
    let design = read_modules(alloc, text, tokens)?;
    Ok(design)
}
