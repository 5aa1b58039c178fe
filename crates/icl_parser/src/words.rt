// The words by which the parts of a text are told apart.
ghost use Rattle.std.specs.Prelude.{◌≡◌, Option};
ghost use Rattle.std.specs.Str.{bytes_eq};
ghost use Rattle.icl_lexer.specs.Lexemes.{tok};
ghost use Rattle.icl_lexer.specs.Tokens.{is_left_out};
ghost use Rattle.icl_lexer.specs.Words.{data_port_named, control_port_named, to_port_named, port_named};
ghost use Rattle.icl_lexer.specs.Words.{other_item_named, item_named, prop_named, bind_named, member_named};
ghost use Rattle.icl_lexer.specs.Words.{link_named};
ghost use Rattle.icl_lexer.specs.Grammar.{prop_word_at};
ghost use Rattle.icl_lexer.specs.Modules.{item_word_at, bind_word_at, member_word_at, link_kind_at};

use icl_lexer::{BindKeyword, ItemKeyword, Lexeme, LinkKind, MemberKeyword, PortKind, PropKeyword};

/// Whether a text is a word.
fn is(text: &[u8], word: &[u8]) -> bool
    ensures { result ≡ bytes_eq text.now word.now }
{
    text == word
}

/// Scan ports and data ports.
#[tactic(auto, unfolding(icl_lexer::specs::Words::data_port_named))]
fn data_port(text: &[u8]) -> Option<PortKind>
    ensures { result ≡ data_port_named text.now }
{
    if is(text, b"ScanInPort") {
        Some(PortKind::ScanInPort)
    } else if is(text, b"ScanOutPort") {
        Some(PortKind::ScanOutPort)
    } else if is(text, b"DataInPort") {
        Some(PortKind::DataInPort)
    } else if is(text, b"DataOutPort") {
        Some(PortKind::DataOutPort)
    } else {
        None
    }
}

/// Control ports.
#[tactic(auto, unfolding(icl_lexer::specs::Words::control_port_named))]
fn control_port(text: &[u8]) -> Option<PortKind>
    ensures { result ≡ control_port_named text.now }
{
    if is(text, b"SelectPort") {
        Some(PortKind::SelectPort)
    } else if is(text, b"CaptureEnPort") {
        Some(PortKind::CaptureEnPort)
    } else if is(text, b"ShiftEnPort") {
        Some(PortKind::ShiftEnPort)
    } else if is(text, b"UpdateEnPort") {
        Some(PortKind::UpdateEnPort)
    } else if is(text, b"ResetPort") {
        Some(PortKind::ResetPort)
    } else if is(text, b"TCKPort") {
        Some(PortKind::TCKPort)
    } else if is(text, b"TMSPort") {
        Some(PortKind::TMSPort)
    } else if is(text, b"TRSTPort") {
        Some(PortKind::TRSTPort)
    } else if is(text, b"ClockPort") {
        Some(PortKind::ClockPort)
    } else {
        None
    }
}

/// Control ports that go on to other modules.
#[tactic(auto, unfolding(icl_lexer::specs::Words::to_port_named))]
fn to_port(text: &[u8]) -> Option<PortKind>
    ensures { result ≡ to_port_named text.now }
{
    if is(text, b"ToSelectPort") {
        Some(PortKind::ToSelectPort)
    } else if is(text, b"ToCaptureEnPort") {
        Some(PortKind::ToCaptureEnPort)
    } else if is(text, b"ToShiftEnPort") {
        Some(PortKind::ToShiftEnPort)
    } else if is(text, b"ToUpdateEnPort") {
        Some(PortKind::ToUpdateEnPort)
    } else if is(text, b"ToResetPort") {
        Some(PortKind::ToResetPort)
    } else if is(text, b"ToTCKPort") {
        Some(PortKind::ToTCKPort)
    } else if is(text, b"ToTMSPort") {
        Some(PortKind::ToTMSPort)
    } else if is(text, b"ToTRSTPort") {
        Some(PortKind::ToTRSTPort)
    } else if is(text, b"ToClockPort") {
        Some(PortKind::ToClockPort)
    } else if is(text, b"ToIRSelectPort") {
        Some(PortKind::ToIRSelectPort)
    } else {
        None
    }
}

/// The kind of port with this word.
#[tactic(auto, unfolding(icl_lexer::specs::Words::port_named))]
fn port(text: &[u8]) -> Option<PortKind>
    ensures { result ≡ port_named text.now }
{
    if let Some(kind) = data_port(text) {
        return Some(kind);
    }
    if let Some(kind) = control_port(text) {
        return Some(kind);
    }
    to_port(text)
}

/// Items that are no ports.
#[tactic(auto, unfolding(icl_lexer::specs::Words::other_item_named))]
fn other_item(text: &[u8]) -> Option<ItemKeyword>
    ensures { result ≡ other_item_named text.now }
{
    if is(text, b"ScanRegister") {
        Some(ItemKeyword::OfRegister)
    } else if is(text, b"ScanMux") {
        Some(ItemKeyword::OfMux)
    } else if is(text, b"Instance") {
        Some(ItemKeyword::OfChild)
    } else if is(text, b"Alias") {
        Some(ItemKeyword::OfAlias)
    } else if is(text, b"Enum") {
        Some(ItemKeyword::OfEnum)
    } else if is(text, b"Parameter") {
        Some(ItemKeyword::OfParameter(false))
    } else if is(text, b"LocalParameter") {
        Some(ItemKeyword::OfParameter(true))
    } else if is(text, b"Attribute") {
        Some(ItemKeyword::OfAttribute)
    } else if is(text, b"ScanInterface") {
        Some(ItemKeyword::OfInterface)
    } else if is(text, b"AccessLink") {
        Some(ItemKeyword::OfLink)
    } else {
        None
    }
}

#[tactic(auto, unfolding(icl_lexer::specs::Words::item_named))]
fn item(text: &[u8]) -> Option<ItemKeyword>
    ensures { result ≡ item_named text.now }
{
    match port(text) {
        Some(kind) => Some(ItemKeyword::OfPort(kind)),
        None => other_item(text),
    }
}

/// The word of an item at a token.
pub(crate) fn item_word(t: &Lexeme) -> Option<ItemKeyword>
    ensures { result ≡ item_word_at (tok t.now) }
{
    if t.is_name() { item(t.text) } else { None }
}

#[tactic(auto, unfolding(icl_lexer::specs::Words::prop_named))]
fn prop(text: &[u8]) -> Option<PropKeyword>
    ensures { result ≡ prop_named text.now }
{
    if is(text, b"Source") {
        Some(PropKeyword::Source)
    } else if is(text, b"LaunchEdge") {
        Some(PropKeyword::LaunchEdge)
    } else if is(text, b"DefaultLoadValue") {
        Some(PropKeyword::DefaultLoadValue)
    } else if is(text, b"RefEnum") {
        Some(PropKeyword::RefEnum)
    } else if is(text, b"ActivePolarity") {
        Some(PropKeyword::ActivePolarity)
    } else if is(text, b"ScanInSource") {
        Some(PropKeyword::ScanInSource)
    } else if is(text, b"CaptureSource") {
        Some(PropKeyword::CaptureSource)
    } else if is(text, b"ResetValue") {
        Some(PropKeyword::ResetValue)
    } else if is(text, b"AccessTogether") {
        Some(PropKeyword::AccessTogether)
    } else if is(text, b"Attribute") {
        Some(PropKeyword::Attribute)
    } else {
        None
    }
}

/// The word of a property at a token.
pub(crate) fn prop_word(t: &Lexeme) -> Option<PropKeyword>
    ensures { result ≡ prop_word_at (tok t.now) }
{
    if t.is_name() { prop(t.text) } else { None }
}

#[tactic(auto, unfolding(icl_lexer::specs::Words::bind_named))]
fn bind(text: &[u8]) -> Option<BindKeyword>
    ensures { result ≡ bind_named text.now }
{
    if is(text, b"InputPort") {
        Some(BindKeyword::BindsPort)
    } else if is(text, b"Parameter") {
        Some(BindKeyword::BindsParameter)
    } else if is(text, b"Attribute") {
        Some(BindKeyword::BindsAttribute)
    } else {
        None
    }
}

/// The word of a binding at a token.
pub(crate) fn bind_word(t: &Lexeme) -> Option<BindKeyword>
    ensures { result ≡ bind_word_at (tok t.now) }
{
    if t.is_name() { bind(t.text) } else { None }
}

#[tactic(auto, unfolding(icl_lexer::specs::Words::member_named))]
fn member(text: &[u8]) -> Option<MemberKeyword>
    ensures { result ≡ member_named text.now }
{
    if is(text, b"Port") {
        Some(MemberKeyword::MemberPort)
    } else if is(text, b"Attribute") {
        Some(MemberKeyword::MemberAttribute)
    } else {
        None
    }
}

/// The word of a member of an interface at a token.
pub(crate) fn member_word(t: &Lexeme) -> Option<MemberKeyword>
    ensures { result ≡ member_word_at (tok t.now) }
{
    if t.is_name() { member(t.text) } else { None }
}

#[tactic(auto, unfolding(icl_lexer::specs::Words::link_named))]
fn link(text: &[u8]) -> Option<LinkKind>
    ensures { result ≡ link_named text.now }
{
    if is(text, b"STD_1149_1_2001") {
        Some(LinkKind::Std2001)
    } else if is(text, b"STD_1149_1_2013") {
        Some(LinkKind::Std2013)
    } else {
        None
    }
}

/// The access standard at a token.
pub(crate) fn link_kind(t: &Lexeme) -> Option<LinkKind>
    ensures { result ≡ link_kind_at (tok t.now) }
{
    if t.is_name() { link(t.text) } else { None }
}

/// Whether a word of ICL is left out.
#[tactic(auto, unfolding(icl_lexer::specs::Tokens::is_left_out))]
pub(crate) fn is_left_out(text: &[u8]) -> bool
    ensures { result ≡ is_left_out text.now }
{
    is(text, b"DataRegister")
        || is(text, b"DataMux")
        || is(text, b"ClockMux")
        || is(text, b"LogicSignal")
        || is(text, b"OneHotScanGroup")
        || is(text, b"OneHotDataGroup")
        || is(text, b"NameSpace")
        || is(text, b"UseNameSpace")
        || is(text, b"AddressPort")
        || is(text, b"WriteEnPort")
        || is(text, b"ReadEnPort")
        || is(text, b"Chain")
}
