// What a signal names, bit by bit.
ghost use Rattle.std.specs.Prelude.{◌≡◌, ◌==◌, map, Ok, Err, None};
ghost use Rattle.std.specs.Option.{option_map};
ghost use Rattle.ij_text.specs.Options.{same};
ghost use Rattle.icl_lexer.specs.Views.{bytes_of, seen_expr, seen_range, seen_sig, seen_sig_what};
ghost use Rattle.icl_lexer.specs.Values.{ANumber};
ghost use Rattle.icl_declarations.specs.Faults.{Gives, each};
ghost use Rattle.icl_references.specs.Roles.{seen_refs};
ghost use Rattle.icl_references.specs.Signals.{alias_meant, alias_path, alias_signals, require_width};
ghost use Rattle.icl_references.specs.Signals.{control_meant, control_signals, data_meant, data_path};
ghost use Rattle.icl_references.specs.Signals.{data_signal, data_signals, is_scan_out_of, lone_width};
ghost use Rattle.icl_references.specs.Signals.{check_register_range, check_scan_range, scan_path};
ghost use Rattle.icl_references.specs.Signals.{scan_signal};
ghost use Rattle.icl_references.specs.Signals.{select_signals};
ghost use Rattle.icl_references.specs.Tables.{IsHere, frames_of, here_in};
ghost use Rattle.icl_references.specs.Targets.{seen_target};

use crate::bits::{bits_between, constants, side_by_side};
use crate::hier::Ref;
use crate::paths::{CellMember, path_from};
use crate::sources::{is_alias_source, is_data_source, is_scan_source};
use crate::tables::Tables;
use crate::values::number_bits;
use icl_declarations::{ElabFault, evaluate, fault_place};
use icl_frames::{Bounds, indices, is_register, named_positions};
use icl_lexer::{Expr, Range, Sig, SigWhat, SmallText};
use ij_runs::Runs;
use ij_text::Place;
use std::alloc::Global;

// ---- scan signals

/// Whether these indices are those of a register as a whole, or its right one.
fn is_scan_out_of(b: Bounds, i: Bounds) -> bool
    ensures { result ≡ is_scan_out_of b i }
{
    i.right == b.right && (i.left == b.right || i.left == b.left)
}

/// Looks at the range after a register where its scan-out is wanted.
fn check_register_range(
    alloc: Global,
    tables: &Tables,
    here: u32,
    at: Place,
    b: Bounds,
    range: &Option<Range>,
) -> Result<(), ElabFault>
    requires { IsHere tables.now here }
    ensures { Gives same result (check_register_range (frames_of tables.now)
        (here_in tables.now here) at b (option_map seen_range range.now)) }
{
    match range {
        Some(r) => {
            let i = indices(alloc, tables.params(here), r)?;
            if is_scan_out_of(b, i) {
                Ok(())
            } else {
                Err(ElabFault::WrongKind { at })
            }
        }
        None => Ok(()),
    }
}

/// Looks at the range after what a scan signal names.
fn check_scan_range(
    alloc: Global,
    tables: &Tables,
    here: u32,
    at: Place,
    t: &CellMember,
    range: &Option<Range>,
) -> Result<(), ElabFault>
    requires { IsHere tables.now here }
    ensures { Gives same result (check_scan_range (frames_of tables.now) (here_in tables.now here) at
        (seen_target tables.now t.now) (option_map seen_range range.now)) }
{
    if is_register(&t.member.item.what) {
        check_register_range(alloc, tables, here, at, t.member.bounds, range)
    } else {
        named_positions(alloc, tables.params(here), t.member.bounds, range)?;
        Ok(())
    }
}

/// The bit that a scan signal of names stands for.
fn scan_path(
    alloc: Global,
    tables: &Tables,
    here: u32,
    at: Place,
    inverted: bool,
    path: &[SmallText],
    range: &Option<Range>,
) -> Result<Ref, ElabFault>
    requires { IsHere tables.now here }
    ensures { Gives same result (scan_path (frames_of tables.now) (here_in tables.now here) at inverted
        (map bytes_of path.now) (option_map seen_range range.now)) }
{
    let t = path_from(alloc, tables, here, at, path)?;
    if inverted || !is_scan_source(path, &t.member.item.what) {
        return Err(ElabFault::WrongKind { at });
    }
    check_scan_range(alloc, tables, here, at, &t, range)?;
    Ok(Ref::Bit {
        cell: t.cell,
        part: t.member.part,
        pos: 0,
        inverted: false,
    })
}

/// The bit that a scan signal names (IEEE 1687-2014, ICL: `ScanInSource`, the `Source` of a `ScanOutPort`, a
/// row of a `ScanMux`): an own `ScanInPort`, a multiplexer, a register's scan-out, or the `ScanOutPort` of an
/// instance.
#[tactic(auto, unfolding(crate::specs::Signals::scan_signal))]
pub fn scan_signal(alloc: Global, tables: &Tables, here: u32, sig: &Sig) -> Result<Ref, ElabFault>
    requires { IsHere tables.now here }
    ensures { Gives same result
        (scan_signal (frames_of tables.now) (here_in tables.now here) (seen_sig sig.now)) }
{
    match &sig.what {
        SigWhat::Value(_) => Err(ElabFault::WrongKind { at: sig.at }),
        SigWhat::Named { path, range } => scan_path(
            alloc,
            tables,
            here,
            sig.at,
            sig.inverted,
            path.as_slice(),
            range,
        ),
    }
}

// ---- data signals

/// The bits that a data signal of names stands for, position 0 first.
fn data_path(
    alloc: Global,
    tables: &Tables,
    here: u32,
    at: Place,
    inverted: bool,
    path: &[SmallText],
    range: &Option<Range>,
) -> Result<Runs<Ref>, ElabFault>
    requires { IsHere tables.now here }
    ensures { Gives seen_refs result (data_path (frames_of tables.now) (here_in tables.now here) at inverted
        (map bytes_of path.now) (option_map seen_range range.now)) }
{
    let t = path_from(alloc, tables, here, at, path)?;
    if !is_data_source(path, &t.member.item.what) {
        return Err(ElabFault::WrongKind { at });
    }
    let s = named_positions(alloc, tables.params(here), t.member.bounds, range)?;
    let refs = bits_between(alloc, t.cell, t.member.part, inverted, s)?;
    Ok(refs)
}

/// The bits that a number stands for, position 0 first.
fn data_number(
    alloc: Global,
    tables: &Tables,
    here: u32,
    holder: Place,
    wanted: Option<u32>,
    sig: &Sig,
    e: &Expr,
) -> Result<Runs<Ref>, ElabFault>
    requires { IsHere tables.now here }
    ensures { Gives seen_refs result (data_meant (frames_of tables.now)
        (here_in tables.now here) holder wanted sig.now.at sig.now.inverted (ANumber (seen_expr e.now))) }
{
    let value = evaluate(alloc, tables.params(here), e, sig.at)?;
    let bits = number_bits(alloc, holder, fault_place(e, sig.at), wanted, value)?;
    let refs = constants(alloc, sig.inverted, &bits)?;
    Ok(refs)
}

/// The bits that a data signal stands for, position 0 first. A number is as wide as is wanted.
#[tactic(auto, unfolding(crate::specs::Signals::data_signal))]
fn data_signal(
    alloc: Global,
    tables: &Tables,
    here: u32,
    holder: Place,
    wanted: Option<u32>,
    sig: &Sig,
) -> Result<Runs<Ref>, ElabFault>
    requires { IsHere tables.now here }
    ensures { Gives seen_refs result
        (data_signal (frames_of tables.now) (here_in tables.now here) holder wanted (seen_sig sig.now)) }
{
    match &sig.what {
        SigWhat::Value(e) => data_number(alloc, tables, here, holder, wanted, sig, e),
        SigWhat::Named { path, range } => data_path(
            alloc,
            tables,
            here,
            sig.at,
            sig.inverted,
            path.as_slice(),
            range,
        ),
    }
}

/// The bits of each data signal.
fn data_parts(
    alloc: Global,
    tables: &Tables,
    here: u32,
    holder: Place,
    wanted: Option<u32>,
    sigs: &[Sig],
) -> Result<Vec<Runs<Ref>>, ElabFault>
    requires { IsHere tables.now here }
    ensures { Gives (λ parts. map seen_refs parts.items) result (each (data_signal (frames_of tables.now)
        (here_in tables.now here) holder wanted) (map seen_sig sigs.now)) }
{
    let mut parts = Vec::new(alloc);
    for sig in sigs {
        let part = data_signal(alloc, tables, here, holder, wanted, sig)?;
        parts.push(part)?;
    }
    Ok(parts)
}

/// The width that is wanted of a number: that of the whole list where it is alone.
fn lone_width(width: u32, sigs: &[Sig]) -> Option<u32>
    ensures { result ≡ lone_width width (map seen_sig sigs.now) }
{
    if sigs.len() == 1 { Some(width) } else { None }
}

/// Bits, if there are as many as are wanted.
fn require_width(holder: Place, width: u32, refs: Runs<Ref>) -> Result<Runs<Ref>, ElabFault>
    ensures { Gives seen_refs result (require_width holder width refs.items) }
{
    if refs.len() == width as usize {
        Ok(refs)
    } else {
        Err(ElabFault::WidthDiffers { at: holder })
    }
}

/// The bits of data signals where this many are wanted (`CaptureSource`, the `Source` of a `DataOutPort`, the
/// binding of a `DataInPort`), position 0 first. A number alone may be narrower. `WidthDiffers` at the
/// holder.
#[tactic(auto, unfolding(crate::specs::Signals::data_signals))]
pub fn data_signals(
    alloc: Global,
    tables: &Tables,
    here: u32,
    holder: Place,
    width: u32,
    sigs: &[Sig],
) -> Result<Runs<Ref>, ElabFault>
    requires { IsHere tables.now here }
    ensures { Gives seen_refs result
        (data_signals (frames_of tables.now) (here_in tables.now here) holder width (map seen_sig sigs.now)) }
{
    let wanted = lone_width(width, sigs);
    let parts = data_parts(alloc, tables, here, holder, wanted, sigs)?;
    let refs = side_by_side(alloc, &parts)?;
    require_width(holder, width, refs)
}

/// The bits of data signals of any width, those that select the row of a multiplexer, position 0 first.
#[tactic(auto, unfolding(crate::specs::Signals::select_signals))]
pub fn select_signals(
    alloc: Global,
    tables: &Tables,
    here: u32,
    holder: Place,
    sigs: &[Sig],
) -> Result<Runs<Ref>, ElabFault>
    requires { IsHere tables.now here }
    ensures { Gives seen_refs result
        (select_signals (frames_of tables.now) (here_in tables.now here) holder (map seen_sig sigs.now)) }
{
    let parts = data_parts(alloc, tables, here, holder, None, sigs)?;
    let refs = side_by_side(alloc, &parts)?;
    Ok(refs)
}

// ---- aliases

/// The bits that names in an alias stand for, position 0 first.
fn alias_path(
    alloc: Global,
    tables: &Tables,
    here: u32,
    at: Place,
    inverted: bool,
    path: &[SmallText],
    range: &Option<Range>,
) -> Result<Runs<Ref>, ElabFault>
    requires { IsHere tables.now here }
    ensures { Gives seen_refs result (alias_path (frames_of tables.now) (here_in tables.now here) at inverted
        (map bytes_of path.now) (option_map seen_range range.now)) }
{
    let t = path_from(alloc, tables, here, at, path)?;
    if inverted || !is_alias_source(&t.member.item.what) {
        return Err(ElabFault::WrongKind { at });
    }
    let s = named_positions(alloc, tables.params(here), t.member.bounds, range)?;
    let refs = bits_between(alloc, t.cell, t.member.part, false, s)?;
    Ok(refs)
}

/// The bits that a signal in an alias stands for, position 0 first.
fn alias_signal(
    alloc: Global,
    tables: &Tables,
    here: u32,
    sig: &Sig,
) -> Result<Runs<Ref>, ElabFault>
    requires { IsHere tables.now here }
    ensures { Gives seen_refs result (alias_meant (frames_of tables.now)
        (here_in tables.now here) sig.now.at sig.now.inverted (seen_sig_what sig.now.what)) }
{
    match &sig.what {
        SigWhat::Value(_) => Err(ElabFault::WrongKind { at: sig.at }),
        SigWhat::Named { path, range } => alias_path(
            alloc,
            tables,
            here,
            sig.at,
            sig.inverted,
            path.as_slice(),
            range,
        ),
    }
}

/// The bits of each signal in an alias.
fn alias_parts(
    alloc: Global,
    tables: &Tables,
    here: u32,
    sigs: &[Sig],
) -> Result<Vec<Runs<Ref>>, ElabFault>
    requires { IsHere tables.now here }
    ensures { Gives (λ parts. map seen_refs parts.items) result (each (λ s. alias_meant (frames_of tables.now)
        (here_in tables.now here) s.at s.inverted s.what) (map seen_sig sigs.now)) }
{
    let mut parts = Vec::new(alloc);
    for sig in sigs {
        let part = alias_signal(alloc, tables, here, sig)?;
        parts.push(part)?;
    }
    Ok(parts)
}

/// The bits that an alias names, as many as it has, position 0 first: bits of registers and data ports, of
/// this cell or below it.
#[tactic(auto, unfolding(crate::specs::Signals::alias_signals))]
pub fn alias_signals(
    alloc: Global,
    tables: &Tables,
    here: u32,
    holder: Place,
    width: u32,
    sigs: &[Sig],
) -> Result<Runs<Ref>, ElabFault>
    requires { IsHere tables.now here }
    ensures { Gives seen_refs result (alias_signals (frames_of tables.now)
        (here_in tables.now here) holder width (map seen_sig sigs.now)) }
{
    let parts = alias_parts(alloc, tables, here, sigs)?;
    let refs = side_by_side(alloc, &parts)?;
    require_width(holder, width, refs)
}

// ---- control signals

/// Looks up the names in a control signal.
fn control_signal(alloc: Global, tables: &Tables, here: u32, sig: &Sig) -> Result<(), ElabFault>
    requires { IsHere tables.now here }
    ensures { Gives same result (control_meant (frames_of tables.now)
        (here_in tables.now here) sig.now.at (seen_sig_what sig.now.what)) }
{
    match &sig.what {
        SigWhat::Value(_) => Ok(()),
        SigWhat::Named { path, .. } => {
            path_from(alloc, tables, here, sig.at, path.as_slice())?;
            Ok(())
        }
    }
}

/// Looks up the names in control signals.
#[tactic(auto, unfolding(crate::specs::Signals::control_signals))]
pub fn control_signals(
    alloc: Global,
    tables: &Tables,
    here: u32,
    sigs: &[Sig],
) -> Result<(), ElabFault>
    requires { IsHere tables.now here }
    ensures { Gives same result
        (control_signals (frames_of tables.now) (here_in tables.now here) (map seen_sig sigs.now)) }
{
    for sig in sigs {
        control_signal(alloc, tables, here, sig)?;
    }
    Ok(())
}
