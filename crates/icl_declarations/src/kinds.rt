// Kinds of ports and items.
ghost use Rattle.std.specs.Prelude.{◌≡◌};
ghost use Rattle.icl_lexer.specs.Views.{seen_what};
ghost use Rattle.icl_declarations.specs.Parts.{is_scan_in, is_scan_out, is_data_in, is_data_out};
ghost use Rattle.icl_declarations.specs.Parts.{is_control_in, is_input, is_register, is_mux, is_child};
ghost use Rattle.icl_declarations.specs.Parts.{is_signal, is_interface, is_link, is_enum};
ghost use Rattle.icl_declarations.specs.Parts.{is_part, port_that};

use icl_lexer::{PortKind, What};

/// A `ScanInPort`.
fn is_scan_in(kind: PortKind) -> bool
    ensures { result ≡ is_scan_in kind }
{
    matches!(kind, PortKind::ScanInPort)
}

/// A `ScanOutPort`.
pub fn is_scan_out(kind: PortKind) -> bool
    ensures { result ≡ is_scan_out kind }
{
    matches!(kind, PortKind::ScanOutPort)
}

/// A `DataInPort`.
fn is_data_in(kind: PortKind) -> bool
    ensures { result ≡ is_data_in kind }
{
    matches!(kind, PortKind::DataInPort)
}

/// A `DataOutPort`.
fn is_data_out(kind: PortKind) -> bool
    ensures { result ≡ is_data_out kind }
{
    matches!(kind, PortKind::DataOutPort)
}

fn is_control_in(kind: PortKind) -> bool
    ensures { result ≡ is_control_in kind }
{
    match kind {
        PortKind::SelectPort
        | PortKind::CaptureEnPort
        | PortKind::ShiftEnPort
        | PortKind::UpdateEnPort
        | PortKind::ResetPort
        | PortKind::TCKPort
        | PortKind::TMSPort
        | PortKind::TRSTPort
        | PortKind::ClockPort => true,
        _ => false,
    }
}

/// An input port.
pub fn is_input(kind: PortKind) -> bool
    ensures { result ≡ is_input kind }
{
    is_scan_in(kind) || is_data_in(kind) || is_control_in(kind)
}

/// An item that is a `ScanInPort`.
pub fn is_scan_in_port(what: &What) -> bool
    ensures { result ≡ port_that is_scan_in (seen_what what.now) }
{
    match what {
        What::Port { kind, .. } => is_scan_in(*kind),
        _ => false,
    }
}

/// An item that is a `DataInPort`.
pub fn is_data_in_port(what: &What) -> bool
    ensures { result ≡ port_that is_data_in (seen_what what.now) }
{
    match what {
        What::Port { kind, .. } => is_data_in(*kind),
        _ => false,
    }
}

/// An item that is a `DataOutPort`.
pub fn is_data_out_port(what: &What) -> bool
    ensures { result ≡ port_that is_data_out (seen_what what.now) }
{
    match what {
        What::Port { kind, .. } => is_data_out(*kind),
        _ => false,
    }
}

/// A `ScanRegister`.
pub fn is_register(what: &What) -> bool
    ensures { result ≡ is_register (seen_what what.now) }
{
    matches!(what, What::Register { .. })
}

/// A `ScanMux`.
pub fn is_mux(what: &What) -> bool
    ensures { result ≡ is_mux (seen_what what.now) }
{
    matches!(what, What::Mux { .. })
}

/// An `Instance`.
pub fn is_child(what: &What) -> bool
    ensures { result ≡ is_child (seen_what what.now) }
{
    matches!(what, What::Child { .. })
}

/// What a signal may name.
pub fn is_signal(what: &What) -> bool
    ensures { result ≡ is_signal (seen_what what.now) }
{
    match what {
        What::Port { .. }
        | What::Register { .. }
        | What::Mux { .. }
        | What::Child { .. }
        | What::Alias { .. } => true,
        _ => false,
    }
}

/// A `ScanInterface`.
pub fn is_interface(what: &What) -> bool
    ensures { result ≡ is_interface (seen_what what.now) }
{
    matches!(what, What::Interface { .. })
}

/// An `AccessLink`.
pub fn is_link(what: &What) -> bool
    ensures { result ≡ is_link (seen_what what.now) }
{
    matches!(what, What::Link { .. })
}

/// An `Enum`.
pub fn is_enum(what: &What) -> bool
    ensures { result ≡ is_enum (seen_what what.now) }
{
    matches!(what, What::Words { .. })
}

/// A part of a cell.
pub fn is_part(what: &What) -> bool
    ensures { result ≡ is_part (seen_what what.now) }
{
    is_signal(what) || is_interface(what) || is_link(what)
}
