// Parsing a text.
ghost use Rattle.std.specs.Prelude.{◌≡◌, ◌≤◌, ◌-◌, IfOk, IfErr, OnErr, IsErrOf, drop, length};
ghost use Rattle.ij_text.specs.Places.{end_of};
ghost use Rattle.icl_lexer.specs.Lexemes.{tok};
ghost use Rattle.icl_lexer.specs.Modules.{design};
ghost use Rattle.icl_lexer.specs.Views.{seen_design};
ghost use Rattle.icl_parser.specs.Refusals.{Blocks, IsFaultAt, IsFaultOf, OnRefusal};

use crate::fault::ParseFault;
use crate::modules::read_design;
use crate::words::is_left_out;
use icl_expressions::ReadStop;
use icl_lexer::{Cursor, Design, Lexeme, Limit};
use ij_bits::OutOfMemory;
use ij_text::{end_of, name_of};
use std::alloc::Global;

/// The fault at a token, which a limit may bar. Takes memory for a word that is left out alone.
fn fault_at(alloc: Global, t: &Lexeme, why: Option<Limit>) -> Result<ParseFault, OutOfMemory>
    ensures { IfOk result (IsFaultAt (tok t.now) why) }
{
    let at = t.at;
    if why.is_some() {
        return Ok(ParseFault::ExprLimit { at });
    }
    if t.is_name() && is_left_out(t.text) {
        let word = name_of(alloc, t.text)?;
        return Ok(ParseFault::LeftOut { at, word });
    }
    Ok(ParseFault::Syntax { at })
}

/// The fault where these tokens are left of a text.
fn fault(
    alloc: Global,
    src: &[u8],
    rest: &Cursor,
    why: Option<Limit>,
) -> Result<ParseFault, OutOfMemory>
    requires { length src.now ≤ 134217728 }
    ensures { IfOk result (IsFaultOf (end_of src.now) rest.now why) }
{
    match rest.first() {
        Some(t) => fault_at(alloc, &t, why),
        None => Ok(ParseFault::Syntax { at: end_of(src) }),
    }
}

/// All tokens but the first one.
fn after_first<'a>(tokens: &Cursor<'a>) -> Cursor<'a>
    ensures { result ≡ drop 1 tokens.now }
{
    match tokens.again().next() {
        Some((_, rest)) => rest,
        None => tokens.again(),
    }
}

/// The tokens from where this many are left.
fn rest_of<'a>(tokens: Cursor<'a>, left: usize) -> Cursor<'a>
    ensures { result ≡ drop (length tokens.entry - left) tokens.entry }
{
    let mut rest = tokens;
    while rest.len() > left {
        rest = after_first(&rest);
    }
    rest
}

/// The design that these tokens make (IEEE 1687-2014, as far as it is read here). They are those that
/// [`icl_lexer::lex`] gives of the text; the text itself is looked at for its end alone. Takes memory by
/// `alloc`, for the design or for the word of a fault.
///
/// The text has at most 134,217,728 bytes. An ICL file may have 16,777,216.
///
/// # Errors
///
/// A text that isn't in the grammar is refused at the first token after which no continuation is in it, and a
/// text that ends too early at its end, the place after its last byte: [`ParseFault::LeftOut`] where this
/// token is a word that this compiler leaves out, [`ParseFault::ExprLimit`] where it is the 65th opening
/// parenthesis inside one another or the 257th operator of one expression, and [`ParseFault::Syntax`]
/// otherwise. [`ParseFault::OutOfMemory`] may come at any text.
pub fn parse(alloc: Global, src: &[u8], tokens: Cursor<'_>) -> Result<Design, ParseFault>
    requires length { length src.now ≤ 134217728 }
    // What is answered is derived.
    ensures found { IfOk result (λ d. design.derives tokens.entry (seen_design d)) }
    // What is derived is answered, unless memory runs out.
    ensures only { (d : Blocks) → design.derives tokens.entry d
        → IfOk result (λ found. seen_design found ≡ d) }
    ensures accepted { (d : Blocks) → design.derives tokens.entry d
        → OnErr result (IsErrOf result ParseFault.OutOfMemory) }
    // Each other answer is the fault where the text leaves the grammar.
    ensures refused { IfErr result (OnRefusal src.now tokens.entry) }
{
    let start = tokens.again();
    match read_design(alloc, tokens) {
        Ok(modules) => Ok(Design { modules }),
        Err(ReadStop::Memory) => Err(ParseFault::OutOfMemory),
        Err(ReadStop::At(left, why)) => {
            let rest = rest_of(start, left);
            Err(fault(alloc, src, &rest, why)?)
        }
    }
}
