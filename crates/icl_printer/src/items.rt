// Items, modules and designs.
ghost use Rattle.std.specs.Prelude.{◌≡◌, OnOk, OnErr};
ghost use Rattle.ij_bits.specs.Room.{seen_list};
ghost use Rattle.ij_io.specs.Bytes.{Adds, AddsPart};
ghost use Rattle.ij_io.specs.Causes.{HasCause};
ghost use Rattle.icl_lexer.specs.Words.{link_word};
ghost use Rattle.icl_printer.specs.Layout.{layout};
ghost use Rattle.icl_printer.specs.Canonical.{mux_tokens, child_tokens, words_tokens, parameter_tokens};
ghost use Rattle.icl_printer.specs.Canonical.{parameter_word, interface_tokens, in_turn, member_tokens};
ghost use Rattle.icl_printer.specs.Canonical.{link_tokens};
ghost use Rattle.icl_lexer.specs.Views.{bytes_of, seen_bind, seen_enum_word, seen_expr, seen_instr, seen_row};
ghost use Rattle.icl_lexer.specs.Views.{seen_sig};

use crate::bodies::{put_alias, put_named, put_port, put_register};
use crate::parts::put_attribute;
use crate::put::{Put, put_all, put_braced};
use crate::token::{Piece, put_tokens};
use icl_lexer::{Bind, EnumWord, Expr, Item, LinkInstr, LinkKind, MuxRow, Sig, SmallText, What};
use ij_bits::List;
use ij_io::{Sink, StoreFault};

/// Writes a scan multiplexer.
fn put_mux<K: Sink>(
    name: &SmallText,
    select: &List<Sig>,
    rows: &List<MuxRow>,
    k: &mut K,
) -> Result<(), StoreFault>
    ensures whole { OnOk result (Adds (K.taken k.old) (K.taken k.new)
        (layout (mux_tokens name.now.items (seen_list seen_sig select.now) (seen_list seen_row rows.now)))) }
    ensures part { OnErr result (AddsPart (K.taken k.old) (K.taken k.new)
        (layout (mux_tokens name.now.items (seen_list seen_sig select.now) (seen_list seen_row rows.now)))) }
    ensures cause { HasCause (K.faults k.old) (K.faults k.new) result StoreFault.Failed }
{
    put_tokens(
        &[
            Piece::Word(b"ScanMux"),
            Piece::Name(name),
            Piece::Word(b"SelectedBy"),
        ],
        k,
    )?;
    select.put(k)?;
    put_tokens(&[Piece::Mark(b'{')], k)?;
    put_all(rows, k)?;
    put_tokens(&[Piece::Mark(b'}')], k)?;
    Ok(())
}

/// Writes an instance.
fn put_child<K: Sink>(
    name: &SmallText,
    of: &SmallText,
    binds: &List<Bind>,
    k: &mut K,
) -> Result<(), StoreFault>
    ensures whole { OnOk result (Adds (K.taken k.old) (K.taken k.new)
        (layout (child_tokens name.now.items of.now.items (seen_list seen_bind binds.now)))) }
    ensures part { OnErr result (AddsPart (K.taken k.old) (K.taken k.new)
        (layout (child_tokens name.now.items of.now.items (seen_list seen_bind binds.now)))) }
    ensures cause { HasCause (K.faults k.old) (K.faults k.new) result StoreFault.Failed }
{
    put_named(b"Instance", name, k)?;
    put_named(b"Of", of, k)?;
    put_braced(binds, k)?;
    Ok(())
}

/// Writes an enumeration.
fn put_words<K: Sink>(name: &SmallText, words: &List<EnumWord>, k: &mut K) -> Result<(), StoreFault>
    ensures whole { OnOk result (Adds (K.taken k.old) (K.taken k.new)
        (layout (words_tokens name.now.items (seen_list seen_enum_word words.now)))) }
    ensures part { OnErr result (AddsPart (K.taken k.old) (K.taken k.new)
        (layout (words_tokens name.now.items (seen_list seen_enum_word words.now)))) }
    ensures cause { HasCause (K.faults k.old) (K.faults k.new) result StoreFault.Failed }
{
    put_tokens(
        &[Piece::Word(b"Enum"), Piece::Name(name), Piece::Mark(b'{')],
        k,
    )?;
    put_all(words, k)?;
    put_tokens(&[Piece::Mark(b'}')], k)?;
    Ok(())
}

/// The word of a parameter.
fn parameter_word_of(local: bool) -> &'static [u8]
    ensures { result.now ≡ parameter_word local }
{
    if local {
        b"LocalParameter"
    } else {
        b"Parameter"
    }
}

/// Writes a parameter.
fn put_parameter<K: Sink>(
    name: &SmallText,
    local: bool,
    value: &Expr,
    k: &mut K,
) -> Result<(), StoreFault>
    ensures whole { OnOk result (Adds (K.taken k.old) (K.taken k.new)
        (layout (parameter_tokens name.now.items local (seen_expr value.now)))) }
    ensures part { OnErr result (AddsPart (K.taken k.old) (K.taken k.new)
        (layout (parameter_tokens name.now.items local (seen_expr value.now)))) }
    ensures cause { HasCause (K.faults k.old) (K.faults k.new) result StoreFault.Failed }
{
    put_named(parameter_word_of(local), name, k)?;
    put_tokens(&[Piece::Mark(b'=')], k)?;
    value.put(k)?;
    put_tokens(&[Piece::Mark(b';')], k)?;
    Ok(())
}

/// Writes the ports of an interface.
fn put_ports<K: Sink>(ports: &List<SmallText>, k: &mut K) -> Result<(), StoreFault>
    ensures whole { OnOk result (Adds (K.taken k.old) (K.taken k.new)
        (layout (in_turn member_tokens (seen_list bytes_of ports.now)))) }
    ensures part { OnErr result (AddsPart (K.taken k.old) (K.taken k.new)
        (layout (in_turn member_tokens (seen_list bytes_of ports.now)))) }
    ensures cause { HasCause (K.faults k.old) (K.faults k.new) result StoreFault.Failed }
{
    for port in ports.as_slice() {
        put_tokens(
            &[Piece::Word(b"Port"), Piece::Name(port), Piece::Mark(b';')],
            k,
        )?;
    }
    Ok(())
}

/// Writes a scan interface.
fn put_interface<K: Sink>(
    name: &SmallText,
    ports: &List<SmallText>,
    k: &mut K,
) -> Result<(), StoreFault>
    ensures whole { OnOk result (Adds (K.taken k.old) (K.taken k.new)
        (layout (interface_tokens name.now.items (seen_list bytes_of ports.now)))) }
    ensures part { OnErr result (AddsPart (K.taken k.old) (K.taken k.new)
        (layout (interface_tokens name.now.items (seen_list bytes_of ports.now)))) }
    ensures cause { HasCause (K.faults k.old) (K.faults k.new) result StoreFault.Failed }
{
    put_tokens(
        &[
            Piece::Word(b"ScanInterface"),
            Piece::Name(name),
            Piece::Mark(b'{'),
        ],
        k,
    )?;
    put_ports(ports, k)?;
    put_tokens(&[Piece::Mark(b'}')], k)?;
    Ok(())
}

/// The word of an access standard.
fn standard_of(kind: LinkKind) -> &'static [u8]
    ensures { result.now ≡ link_word kind }
{
    match kind {
        LinkKind::Std2001 => b"STD_1149_1_2001",
        LinkKind::Std2013 => b"STD_1149_1_2013",
    }
}

/// Writes an access link.
fn put_link<K: Sink>(
    name: &SmallText,
    kind: LinkKind,
    entity: &SmallText,
    instrs: &List<LinkInstr>,
    k: &mut K,
) -> Result<(), StoreFault>
    ensures whole { OnOk result (Adds (K.taken k.old) (K.taken k.new)
        (layout (link_tokens name.now.items kind entity.now.items (seen_list seen_instr instrs.now)))) }
    ensures part { OnErr result (AddsPart (K.taken k.old) (K.taken k.new)
        (layout (link_tokens name.now.items kind entity.now.items (seen_list seen_instr instrs.now)))) }
    ensures cause { HasCause (K.faults k.old) (K.faults k.new) result StoreFault.Failed }
{
    put_named(b"AccessLink", name, k)?;
    put_tokens(
        &[
            Piece::Word(b"Of"),
            Piece::Word(standard_of(kind)),
            Piece::Mark(b'{'),
        ],
        k,
    )?;
    put_named(b"BSDLEntity", entity, k)?;
    put_tokens(&[Piece::Mark(b';')], k)?;
    put_all(instrs, k)?;
    put_tokens(&[Piece::Mark(b'}')], k)?;
    Ok(())
}

/// An item.
impl Put for Item {
    ghost use Rattle.icl_lexer.specs.Values.{SeenItem};
    ghost use Rattle.icl_lexer.specs.Views.{seen_item};
    ghost use Rattle.icl_printer.specs.Canonical.{thing_tokens};

    ghost Plain = { SeenItem };

    ghost view = { seen_item };

    ghost tokens = { thing_tokens };

    fn put<K: Sink>(&self, k: &mut K) -> Result<(), StoreFault> {
        let name = &self.name;
        match &self.what {
            What::Port { kind, range, props } => put_port(*kind, name, range, props, k)?,
            What::Register { range, props } => put_register(name, range, props, k)?,
            What::Mux { select, rows } => put_mux(name, select, rows, k)?,
            What::Child { module, binds } => put_child(name, module, binds, k)?,
            What::Alias { range, sigs, props } => put_alias(name, range, sigs, props, k)?,
            What::Words { words } => put_words(name, words, k)?,
            What::Parameter { local, value } => put_parameter(name, *local, value, k)?,
            What::Interface { ports } => put_interface(name, ports, k)?,
            What::Link {
                kind,
                entity,
                instrs,
            } => put_link(name, *kind, entity, instrs, k)?,
            What::Attribute { value } => put_attribute(name, value, k)?,
        }
        Ok(())
    }
}
