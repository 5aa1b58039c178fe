// What signals may name.
ghost use Rattle.std.specs.Prelude.{◌≡◌, ◌||◌, map};
ghost use Rattle.icl_lexer.specs.Views.{bytes_of, seen_what};
ghost use Rattle.icl_declarations.specs.Parts.{is_data_port, is_register, is_scan_out, port_that};
ghost use Rattle.icl_references.specs.Signals.{is_data_source, is_of_child, is_own, is_scan_source};

use icl_frames::{
    is_data_in_port, is_data_out_port, is_data_port, is_mux, is_register, is_scan_in_port,
    is_scan_out,
};
use icl_lexer::{SmallText, What};

fn is_scan_out_port(what: &What) -> bool
    ensures { result ≡ port_that is_scan_out (seen_what what.now) }
{
    match what {
        What::Port { kind, .. } => is_scan_out(*kind),
        _ => false,
    }
}

/// A name of this cell.
fn is_own(path: &[SmallText]) -> bool
    ensures { result ≡ is_own (map bytes_of path.now) }
{
    path.len() == 1
}

/// A name in an instance of this cell.
fn is_of_child(path: &[SmallText]) -> bool
    ensures { result ≡ is_of_child (map bytes_of path.now) }
{
    path.len() == 2
}

/// Whether a scan signal may name what a path leads to: an own `ScanInPort`, a multiplexer, a register, or
/// the `ScanOutPort` of an instance.
pub(crate) fn is_scan_source(path: &[SmallText], what: &What) -> bool
    ensures { result ≡ is_scan_source (map bytes_of path.now) (seen_what what.now) }
{
    (is_own(path) && (is_register(what) || is_mux(what) || is_scan_in_port(what)))
        || (is_of_child(path) && is_scan_out_port(what))
}

/// Whether a data signal may name what a path leads to: a register, an own `DataInPort`, or the `DataOutPort`
/// of an instance.
pub(crate) fn is_data_source(path: &[SmallText], what: &What) -> bool
    ensures { result ≡ is_data_source (map bytes_of path.now) (seen_what what.now) }
{
    (is_own(path) && (is_register(what) || is_data_in_port(what)))
        || (is_of_child(path) && is_data_out_port(what))
}

/// Whether an alias may name a part: a register or a data port.
pub(crate) fn is_alias_source(what: &What) -> bool
    ensures { result ≡ (is_register (seen_what what.now) || is_data_port (seen_what what.now)) }
{
    is_register(what) || is_data_port(what)
}
