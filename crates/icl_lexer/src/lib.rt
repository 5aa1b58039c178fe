//! The words and the syntax of ICL (IEEE 1687-2014, the part that this compiler reads): [`lex`] cuts a text
//! into tokens, [`Design`] is the tree of a text, and `specs/` has the grammar that says which tokens give
//! which tree.
//!
//! The grammar is a relation between lists of tokens and trees, one definition for each production (`Grammar`
//! and `Modules`). A tree appears there as a plain value, without where its parts lie in memory; `Views` has
//! the value of each tree.
#![tactic(auto)]

mod bytes;
mod cursor;
mod fault;
mod laws;
mod lexeme;
mod lexing;
mod one_or_more;
mod pieces;
mod small_text;
mod state;
mod token;
mod tree;
mod words;

pub use cursor::Cursor;
pub use fault::LexFault;
pub use laws::{texts_are_cut_or_at_fault, tokenization_is_unique, tokens_are_in_the_text};
pub use lexeme::Lexeme;
pub use lexing::lex;
pub use one_or_more::OneOrMore;
pub use small_text::SmallText;
pub use token::{PieceKind, TokenKind};
pub use tree::{
    Bind, Design, Ends, EnumWord, Expr, Item, LinkInstr, LinkKind, Module, MuxRow, PortKind, Prop,
    Range, Sig, SigWhat, Sign, What,
};
pub use words::{BindKeyword, BodyKind, ItemKeyword, Limit, MemberKeyword, PropKeyword};
