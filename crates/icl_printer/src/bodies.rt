// Items with a body: ports, registers and aliases.
ghost use Rattle.std.specs.Prelude.{◌≡◌, [], ◌∷◌, OnOk, OnErr};
ghost use Rattle.std.specs.Option.{option_map};
ghost use Rattle.ij_bits.specs.Room.{seen_list};
ghost use Rattle.ij_io.specs.Bytes.{Adds, AddsPart};
ghost use Rattle.ij_io.specs.Causes.{HasCause};
ghost use Rattle.icl_lexer.specs.Words.{port_word};
ghost use Rattle.icl_printer.specs.Layout.{word, layout};
ghost use Rattle.icl_printer.specs.Canonical.{port_tokens, register_tokens, alias_tokens};
ghost use Rattle.icl_lexer.specs.Views.{seen_prop, seen_range, seen_sig};

use crate::put::{Put, put_braced};
use crate::token::{Piece, put_tokens};
use icl_lexer::{PortKind, Prop, Range, Sig, SmallText};
use ij_bits::List;
use ij_io::{Sink, StoreFault};

/// The word of a kind of port.
fn word_of(kind: PortKind) -> &'static [u8]
    ensures { result.now ≡ port_word kind }
{
    match kind {
        PortKind::ScanInPort => b"ScanInPort",
        PortKind::ScanOutPort => b"ScanOutPort",
        PortKind::DataInPort => b"DataInPort",
        PortKind::DataOutPort => b"DataOutPort",
        PortKind::SelectPort => b"SelectPort",
        PortKind::CaptureEnPort => b"CaptureEnPort",
        PortKind::ShiftEnPort => b"ShiftEnPort",
        PortKind::UpdateEnPort => b"UpdateEnPort",
        PortKind::ResetPort => b"ResetPort",
        PortKind::TCKPort => b"TCKPort",
        PortKind::TMSPort => b"TMSPort",
        PortKind::TRSTPort => b"TRSTPort",
        PortKind::ClockPort => b"ClockPort",
        PortKind::ToSelectPort => b"ToSelectPort",
        PortKind::ToCaptureEnPort => b"ToCaptureEnPort",
        PortKind::ToShiftEnPort => b"ToShiftEnPort",
        PortKind::ToUpdateEnPort => b"ToUpdateEnPort",
        PortKind::ToResetPort => b"ToResetPort",
        PortKind::ToTCKPort => b"ToTCKPort",
        PortKind::ToTMSPort => b"ToTMSPort",
        PortKind::ToTRSTPort => b"ToTRSTPort",
        PortKind::ToClockPort => b"ToClockPort",
        PortKind::ToIRSelectPort => b"ToIRSelectPort",
    }
}

/// Writes a word of the grammar and a name after it.
pub(crate) fn put_named<K: Sink>(text: &[u8], name: &SmallText, k: &mut K) -> Result<(), StoreFault>
    ensures whole { OnOk result
        (Adds (K.taken k.old) (K.taken k.new) (layout (word text.now ∷ word name.now.items ∷ []))) }
    ensures part { OnErr result
        (AddsPart (K.taken k.old) (K.taken k.new) (layout (word text.now ∷ word name.now.items ∷ []))) }
    ensures cause { HasCause (K.faults k.old) (K.faults k.new) result StoreFault.Failed }
{
    put_tokens(&[Piece::Word(text), Piece::Name(name)], k)?;
    Ok(())
}

/// Writes a port.
pub(crate) fn put_port<K: Sink>(
    kind: PortKind,
    name: &SmallText,
    range: &Option<Range>,
    props: &List<Prop>,
    k: &mut K,
) -> Result<(), StoreFault>
    ensures whole { OnOk result (Adds (K.taken k.old) (K.taken k.new) (layout (port_tokens name.now.items kind
        (option_map seen_range range.now) (seen_list seen_prop props.now)))) }
    ensures part { OnErr result (AddsPart (K.taken k.old) (K.taken k.new) (layout (port_tokens name.now.items
        kind (option_map seen_range range.now) (seen_list seen_prop props.now)))) }
    ensures cause { HasCause (K.faults k.old) (K.faults k.new) result StoreFault.Failed }
{
    put_named(word_of(kind), name, k)?;
    range.put(k)?;
    put_braced(props, k)?;
    Ok(())
}

/// Writes a scan register.
pub(crate) fn put_register<K: Sink>(
    name: &SmallText,
    range: &Option<Range>,
    props: &List<Prop>,
    k: &mut K,
) -> Result<(), StoreFault>
    ensures whole { OnOk result (Adds (K.taken k.old) (K.taken k.new) (layout
        (register_tokens name.now.items (option_map seen_range range.now) (seen_list seen_prop props.now)))) }
    ensures part { OnErr result (AddsPart (K.taken k.old) (K.taken k.new) (layout
        (register_tokens name.now.items (option_map seen_range range.now) (seen_list seen_prop props.now)))) }
    ensures cause { HasCause (K.faults k.old) (K.faults k.new) result StoreFault.Failed }
{
    put_named(b"ScanRegister", name, k)?;
    range.put(k)?;
    put_braced(props, k)?;
    Ok(())
}

/// Writes an alias.
pub(crate) fn put_alias<K: Sink>(
    name: &SmallText,
    range: &Option<Range>,
    sigs: &List<Sig>,
    props: &List<Prop>,
    k: &mut K,
) -> Result<(), StoreFault>
    ensures whole { OnOk result (Adds (K.taken k.old) (K.taken k.new) (layout (alias_tokens name.now.items
        (option_map seen_range range.now) (seen_list seen_sig sigs.now) (seen_list seen_prop props.now)))) }
    ensures part { OnErr result (AddsPart (K.taken k.old) (K.taken k.new) (layout (alias_tokens name.now.items
        (option_map seen_range range.now) (seen_list seen_sig sigs.now) (seen_list seen_prop props.now)))) }
    ensures cause { HasCause (K.faults k.old) (K.faults k.new) result StoreFault.Failed }
{
    put_named(b"Alias", name, k)?;
    range.put(k)?;
    put_tokens(&[Piece::Mark(b'=')], k)?;
    sigs.put(k)?;
    put_braced(props, k)?;
    Ok(())
}
