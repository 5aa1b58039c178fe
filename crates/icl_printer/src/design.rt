// Modules and designs.
ghost use Rattle.std.specs.Prelude.{OnOk, OnErr};
ghost use Rattle.ij_io.specs.Bytes.{Adds, AddsPart};
ghost use Rattle.ij_io.specs.Causes.{HasCause};
ghost use Rattle.icl_lexer.specs.Views.{seen_design};
ghost use Rattle.icl_printer.specs.Canonical.{design_text};

use crate::put::{Put, put_all};
use crate::token::{Piece, put_tokens};
use icl_lexer::{Design, Module};
use ij_io::{Sink, StoreFault};

/// A module.
impl Put for Module {
    ghost use Rattle.icl_lexer.specs.Values.{SeenModule};
    ghost use Rattle.icl_lexer.specs.Views.{seen_module};
    ghost use Rattle.icl_printer.specs.Canonical.{module_tokens};

    ghost Plain = { SeenModule };

    ghost view = { seen_module };

    ghost tokens = { module_tokens };

    fn put<K: Sink>(&self, k: &mut K) -> Result<(), StoreFault> {
        put_tokens(
            &[
                Piece::Word(b"Module"),
                Piece::Name(&self.name),
                Piece::Mark(b'{'),
            ],
            k,
        )?;
        put_all(&self.items, k)?;
        put_tokens(&[Piece::Mark(b'}')], k)?;
        Ok(())
    }
}

/// Writes the text of a design (ICL, IEEE 1687-2014): its tokens in order, with one space between two of
/// them, but with a line end in place of the space after `;`, `{` and `}`. An operand is in parentheses
/// only where the tree couldn't otherwise have it, as the right one of `a - (b - c)`, and a sized number that
/// is an operand. A body without properties, and an instance without bindings, is written as `;`. A design
/// without modules has no text.
///
/// A design that was read, and is written so, is read again from that text, places aside.
///
/// The refusals are those of the sink, which then took some first bytes of the text. It takes no memory
/// itself.
#[tactic(auto, unfolding(crate::specs::Canonical::tokens_of))]
pub fn put_design<K: Sink>(design: &Design, k: &mut K) -> Result<(), StoreFault>
    ensures whole { OnOk result
        (Adds (K.taken k.old) (K.taken k.new) (design_text (seen_design design.now))) }
    ensures part { OnErr result
        (AddsPart (K.taken k.old) (K.taken k.new) (design_text (seen_design design.now))) }
    ensures cause { HasCause (K.faults k.old) (K.faults k.new) result StoreFault.Failed }
{
    put_all(&design.modules, k)?;
    Ok(())
}
