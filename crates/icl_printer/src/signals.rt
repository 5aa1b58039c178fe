// Names and signals.
use crate::put::{Put, put_mark_if, put_separated};
use crate::token::{Piece, put_tokens};
use icl_lexer::{OneOrMore, Sig, SigWhat, SmallText};
use ij_bits::List;
use ij_io::{Sink, StoreFault};

/// A name.
impl Put for SmallText {
    ghost use Rattle.std.specs.Prelude.{ℕ, List};
    ghost use Rattle.icl_lexer.specs.Views.{bytes_of};
    ghost use Rattle.icl_printer.specs.Canonical.{name_tokens};

    ghost Plain = { List ℕ };

    ghost view = { bytes_of };

    ghost tokens = { name_tokens };

    fn put<K: Sink>(&self, k: &mut K) -> Result<(), StoreFault> {
        put_tokens(&[Piece::Name(self)], k)?;
        Ok(())
    }
}

/// A path.
impl Put for OneOrMore<SmallText> {
    ghost use Rattle.std.specs.Prelude.{ℕ, List};
    ghost use Rattle.icl_lexer.specs.Views.{bytes_of, seen_few};
    ghost use Rattle.icl_printer.specs.Canonical.{name_tokens, separated};

    ghost Plain = { List (List ℕ) };

    ghost view = { seen_few bytes_of };

    ghost tokens = { separated 46 name_tokens };

    fn put<K: Sink>(&self, k: &mut K) -> Result<(), StoreFault> {
        put_separated(b'.', self.as_slice(), k)?;
        Ok(())
    }
}

/// A number, or a path.
impl Put for SigWhat {
    ghost use Rattle.icl_lexer.specs.Values.{SeenSigWhat};
    ghost use Rattle.icl_lexer.specs.Views.{seen_sig_what};
    ghost use Rattle.icl_printer.specs.Canonical.{meant_tokens};

    ghost Plain = { SeenSigWhat };

    ghost view = { seen_sig_what };

    ghost tokens = { meant_tokens };

    fn put<K: Sink>(&self, k: &mut K) -> Result<(), StoreFault> {
        match self {
            SigWhat::Value(number) => number.put(k)?,
            SigWhat::Named { path, range } => {
                path.put(k)?;
                range.put(k)?;
            }
        }
        Ok(())
    }
}

/// A signal.
impl Put for Sig {
    ghost use Rattle.icl_lexer.specs.Values.{SeenSig};
    ghost use Rattle.icl_lexer.specs.Views.{seen_sig};
    ghost use Rattle.icl_printer.specs.Canonical.{signal_tokens};

    ghost Plain = { SeenSig };

    ghost view = { seen_sig };

    ghost tokens = { signal_tokens };

    fn put<K: Sink>(&self, k: &mut K) -> Result<(), StoreFault> {
        put_mark_if(self.inverted, b'~', k)?;
        self.what.put(k)?;
        Ok(())
    }
}

/// Signals, the leftmost first.
impl Put for List<Sig> {
    ghost use Rattle.std.specs.Prelude.{List};
    ghost use Rattle.icl_lexer.specs.Values.{SeenSig};
    ghost use Rattle.ij_bits.specs.Room.{seen_list};
    ghost use Rattle.icl_lexer.specs.Views.{seen_sig};
    ghost use Rattle.icl_printer.specs.Canonical.{signals_tokens};

    ghost Plain = { List SeenSig };

    ghost view = { seen_list seen_sig };

    ghost tokens = { signals_tokens };

    fn put<K: Sink>(&self, k: &mut K) -> Result<(), StoreFault> {
        put_separated(b',', self.as_slice(), k)?;
        Ok(())
    }
}
