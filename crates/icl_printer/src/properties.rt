// The properties of a body.
ghost use Rattle.std.specs.Prelude.{[], ◌∷◌, ◌++◌, OnOk, OnErr};
ghost use Rattle.ij_io.specs.Bytes.{Adds, AddsPart};
ghost use Rattle.ij_io.specs.Causes.{HasCause};
ghost use Rattle.icl_printer.specs.Layout.{word, mark, layout};

use crate::put::{Put, put_word};
use crate::token::{Piece, put_tokens};
use icl_lexer::Prop;
use ij_io::{Sink, StoreFault};

/// Writes a property's word, what comes after it, and `;`.
fn put_property<T: Put, K: Sink>(name: &[u8], part: &T, k: &mut K) -> Result<(), StoreFault>
    ensures whole { OnOk result (Adds (K.taken k.old) (K.taken k.new)
        (layout (word name.now ∷ (T.tokens (T.view part.now) ++ (mark 59 ∷ []))))) }
    ensures part { OnErr result (AddsPart (K.taken k.old) (K.taken k.new)
        (layout (word name.now ∷ (T.tokens (T.view part.now) ++ (mark 59 ∷ []))))) }
    ensures cause { HasCause (K.faults k.old) (K.faults k.new) result StoreFault.Failed }
{
    put_word(name, k)?;
    part.put(k)?;
    put_tokens(&[Piece::Mark(b';')], k)?;
    Ok(())
}

/// A property.
impl Put for Prop {
    ghost use Rattle.icl_lexer.specs.Values.{SeenProp};
    ghost use Rattle.icl_lexer.specs.Views.{seen_prop};
    ghost use Rattle.icl_printer.specs.Canonical.{property_tokens};

    ghost Plain = { SeenProp };

    ghost view = { seen_prop };

    ghost tokens = { property_tokens };

    fn put<K: Sink>(&self, k: &mut K) -> Result<(), StoreFault> {
        match self {
            Prop::Source(sigs) => put_property(b"Source", sigs, k)?,
            Prop::LaunchEdge(edge) => put_property(b"LaunchEdge", edge, k)?,
            Prop::DefaultLoadValue(value) => put_property(b"DefaultLoadValue", value, k)?,
            Prop::RefEnum(name) => put_property(b"RefEnum", name, k)?,
            Prop::ActivePolarity(n) => put_tokens(
                &[
                    Piece::Word(b"ActivePolarity"),
                    Piece::Decimal(*n),
                    Piece::Mark(b';'),
                ],
                k,
            )?,
            Prop::ScanInSource(sig) => put_property(b"ScanInSource", sig, k)?,
            Prop::CaptureSource(sigs) => put_property(b"CaptureSource", sigs, k)?,
            Prop::ResetValue(value) => put_property(b"ResetValue", value, k)?,
            Prop::AccessTogether => put_tokens(
                &[Piece::Word(b"AccessTogether"), Piece::Mark(b';')],
                k,
            )?,
        }
        Ok(())
    }
}
