// Rows, bindings, words of an `Enum` and instructions of a link.
ghost use Rattle.std.specs.Prelude.{OnOk, OnErr};
ghost use Rattle.ij_io.specs.Bytes.{Adds, AddsPart};
ghost use Rattle.ij_io.specs.Causes.{HasCause};
ghost use Rattle.std.specs.Option.{option_map};
ghost use Rattle.ij_bits.specs.Room.{seen_list};
ghost use Rattle.icl_printer.specs.Layout.{layout};
ghost use Rattle.icl_printer.specs.Canonical.{attribute_tokens, port_binding_tokens};
ghost use Rattle.icl_printer.specs.Canonical.{parameter_binding_tokens};
ghost use Rattle.icl_lexer.specs.Views.{seen_expr, seen_range, seen_sig};

use crate::put::{Put, put_if_there_after, put_separated};
use crate::token::{Piece, put_tokens};
use icl_lexer::{Bind, EnumWord, Expr, LinkInstr, MuxRow, OneOrMore, Range, Sig, SmallText};
use ij_bits::List;
use ij_io::{Sink, StoreFault};

/// The values that select a row.
impl Put for OneOrMore<OneOrMore<Expr>> {
    ghost use Rattle.std.specs.Prelude.{List};
    ghost use Rattle.icl_lexer.specs.Values.{SeenExpr};
    ghost use Rattle.icl_lexer.specs.Views.{seen_expr, seen_few};
    ghost use Rattle.icl_printer.specs.Canonical.{separated, value_tokens};

    ghost Plain = { List (List SeenExpr) };

    ghost view = { seen_few (seen_few seen_expr) };

    ghost tokens = { separated 124 value_tokens };

    fn put<K: Sink>(&self, k: &mut K) -> Result<(), StoreFault> {
        put_separated(b'|', self.as_slice(), k)?;
        Ok(())
    }
}

/// A row of a multiplexer.
impl Put for MuxRow {
    ghost use Rattle.icl_lexer.specs.Values.{SeenRow};
    ghost use Rattle.icl_lexer.specs.Views.{seen_row};
    ghost use Rattle.icl_printer.specs.Canonical.{row_tokens};

    ghost Plain = { SeenRow };

    ghost view = { seen_row };

    ghost tokens = { row_tokens };

    fn put<K: Sink>(&self, k: &mut K) -> Result<(), StoreFault> {
        self.values.put(k)?;
        put_tokens(&[Piece::Mark(b':')], k)?;
        self.source.put(k)?;
        put_tokens(&[Piece::Mark(b';')], k)?;
        Ok(())
    }
}

/// Writes an attribute.
pub(crate) fn put_attribute<K: Sink>(
    name: &SmallText,
    value: &Option<Expr>,
    k: &mut K,
) -> Result<(), StoreFault>
    ensures whole { OnOk result (Adds (K.taken k.old) (K.taken k.new)
        (layout (attribute_tokens name.now.items (option_map seen_expr value.now)))) }
    ensures part { OnErr result (AddsPart (K.taken k.old) (K.taken k.new)
        (layout (attribute_tokens name.now.items (option_map seen_expr value.now)))) }
    ensures cause { HasCause (K.faults k.old) (K.faults k.new) result StoreFault.Failed }
{
    put_tokens(&[Piece::Word(b"Attribute"), Piece::Name(name)], k)?;
    put_if_there_after(b'=', value, k)?;
    put_tokens(&[Piece::Mark(b';')], k)?;
    Ok(())
}

/// Writes what an input port is bound to.
fn put_port_binding<K: Sink>(
    name: &SmallText,
    range: &Option<Range>,
    sigs: &List<Sig>,
    k: &mut K,
) -> Result<(), StoreFault>
    ensures whole { OnOk result (Adds (K.taken k.old) (K.taken k.new) (layout (port_binding_tokens
        name.now.items (option_map seen_range range.now) (seen_list seen_sig sigs.now)))) }
    ensures part { OnErr result (AddsPart (K.taken k.old) (K.taken k.new) (layout (port_binding_tokens
        name.now.items (option_map seen_range range.now) (seen_list seen_sig sigs.now)))) }
    ensures cause { HasCause (K.faults k.old) (K.faults k.new) result StoreFault.Failed }
{
    put_tokens(&[Piece::Word(b"InputPort"), Piece::Name(name)], k)?;
    range.put(k)?;
    put_tokens(&[Piece::Mark(b'=')], k)?;
    sigs.put(k)?;
    put_tokens(&[Piece::Mark(b';')], k)?;
    Ok(())
}

/// Writes the value that a parameter is bound to.
fn put_parameter_binding<K: Sink>(
    name: &SmallText,
    value: &Expr,
    k: &mut K,
) -> Result<(), StoreFault>
    ensures whole { OnOk result (Adds (K.taken k.old) (K.taken k.new)
        (layout (parameter_binding_tokens name.now.items (seen_expr value.now)))) }
    ensures part { OnErr result (AddsPart (K.taken k.old) (K.taken k.new)
        (layout (parameter_binding_tokens name.now.items (seen_expr value.now)))) }
    ensures cause { HasCause (K.faults k.old) (K.faults k.new) result StoreFault.Failed }
{
    put_tokens(
        &[
            Piece::Word(b"Parameter"),
            Piece::Name(name),
            Piece::Mark(b'='),
        ],
        k,
    )?;
    value.put(k)?;
    put_tokens(&[Piece::Mark(b';')], k)?;
    Ok(())
}

/// What an instance binds.
impl Put for Bind {
    ghost use Rattle.icl_lexer.specs.Values.{SeenBind};
    ghost use Rattle.icl_lexer.specs.Views.{seen_bind};
    ghost use Rattle.icl_printer.specs.Canonical.{binding_tokens};

    ghost Plain = { SeenBind };

    ghost view = { seen_bind };

    ghost tokens = { binding_tokens };

    fn put<K: Sink>(&self, k: &mut K) -> Result<(), StoreFault> {
        match self {
            Bind::Port {
                name,
                range,
                sigs,
                ..
            } => put_port_binding(name, range, sigs, k)?,
            Bind::Parameter { name, value, .. } => put_parameter_binding(name, value, k)?,
            Bind::Attribute { name, value } => put_attribute(name, value, k)?,
        }
        Ok(())
    }
}

/// A word of an `Enum`.
impl Put for EnumWord {
    ghost use Rattle.icl_lexer.specs.Values.{SeenEnumWord};
    ghost use Rattle.icl_lexer.specs.Views.{seen_enum_word};
    ghost use Rattle.icl_printer.specs.Canonical.{enum_tokens};

    ghost Plain = { SeenEnumWord };

    ghost view = { seen_enum_word };

    ghost tokens = { enum_tokens };

    fn put<K: Sink>(&self, k: &mut K) -> Result<(), StoreFault> {
        self.name.put(k)?;
        put_tokens(&[Piece::Mark(b'=')], k)?;
        self.value.put(k)?;
        put_tokens(&[Piece::Mark(b';')], k)?;
        Ok(())
    }
}

/// An instruction of a link.
impl Put for LinkInstr {
    ghost use Rattle.icl_lexer.specs.Values.{SeenLinkInstr};
    ghost use Rattle.icl_lexer.specs.Views.{seen_instr};
    ghost use Rattle.icl_printer.specs.Canonical.{instruction_tokens};

    ghost Plain = { SeenLinkInstr };

    ghost view = { seen_instr };

    ghost tokens = { instruction_tokens };

    fn put<K: Sink>(&self, k: &mut K) -> Result<(), StoreFault> {
        put_tokens(
            &[
                Piece::Name(&self.name),
                Piece::Mark(b'{'),
                Piece::Word(b"ScanInterface"),
                Piece::Mark(b'{'),
            ],
            k,
        )?;
        put_tokens(
            &[
                Piece::Name(&self.cell),
                Piece::Mark(b'.'),
                Piece::Name(&self.interface),
            ],
            k,
        )?;
        put_tokens(
            &[Piece::Mark(b';'), Piece::Mark(b'}'), Piece::Mark(b'}')],
            k,
        )?;
        Ok(())
    }
}
