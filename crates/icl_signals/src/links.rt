// Access links: where the network begins and ends that an instruction selects.
ghost use Rattle.std.specs.Prelude.{◌≡◌, ◌==◌, ◌&&◌, map, filter, find, get_or, [], Some, None, IfOk};
ghost use Rattle.std.specs.Option.{option_map};
ghost use Rattle.std.specs.Str.{bytes_eq};
ghost use Rattle.ij_text.specs.Options.{same};
ghost use Rattle.icl_references.specs.Roles.{part_at, seen_body, seen_part, seen_hier, seen_selection};
ghost use Rattle.icl_signals.specs.Refusals.{Gives, NoLink, seen_fault};
ghost use Rattle.icl_signals.specs.Connecting.{selections_in, link_at, passes, only, only_port, known};
ghost use Rattle.icl_signals.specs.Connecting.{known_selection, place_of, ends};
ghost use Rattle.icl_signals.specs.Links.{test_of_side, seen_ends, named_link};

use crate::ConnectFault;
use crate::parts::{cell_at, part_at};
use crate::wires::Wire;
use icl_elab::{Body, Hier, Part};
use ij_bits::OutOfMemory;
use ij_text::{Name, Place, name_of};
use std::alloc::Global;

/// Which port of an interface.
#[derive(Clone, Copy, Drop)]
pub enum Side {
    /// Its `ScanInPort`.
    ScanIn,
    /// Its `ScanOutPort`.
    ScanOut,
}

/// Where a network begins and ends.
#[derive(Clone, Copy, Drop)]
pub struct NetworkEnds {
    /// The `ScanInPort` where it begins.
    pub entry: Wire,
    /// The `ScanOutPort` where it ends.
    pub exit: Wire,
    /// The place of that `ScanOutPort`.
    pub exit_place: Place,
}

fn is_side(side: Side, body: &Body) -> bool
    ensures { result ≡ test_of_side side (seen_body body.now) }
{
    match side {
        Side::ScanIn => matches!(body, Body::ScanIn { .. }),
        Side::ScanOut => matches!(body, Body::ScanOut { .. }),
    }
}

fn same_name(a: &Name, b: &Name) -> bool
    ensures { result ≡ bytes_eq a.now.items b.now.items }
{
    a.as_slice() == b.as_slice()
}

/// The access link of this name among the parts of the top, if there is one.
fn link_in<'a>(parts: &'a [Part], link: &Name) -> Option<&'a Part>
    ensures { option_map (λ p. seen_part p.now) result ≡ named_link link.now.items (map seen_part parts.now) }
{
    for part in parts {
        if matches!(part.body, Body::Link { .. }) && same_name(link, &part.name) {
            return Some(part);
        }
    }
    None
}

/// The instruction of this name among those of a link, if there is one.
fn instruction_in<'a>(instrs: &'a [(Name, u32, u32)], instr: &Name) -> Option<&'a (Name, u32, u32)>
    ensures { option_map (λ s. seen_selection s.now) result
        ≡ find (λ s. bytes_eq instr.now.items s.name) (map seen_selection instrs.now) }
{
    for known in instrs {
        if same_name(instr, &known.0) {
            return Some(known);
        }
    }
    None
}

/// The parts of the top.
fn top_parts(hier: &Hier) -> &[Part]
    ensures { map seen_part result.now ≡ get_or (map (λ c. c.parts) (seen_hier hier.now)) 0 [] }
{
    match cell_at(hier, 0) {
        Some(top) => top.parts.as_slice(),
        None => &[],
    }
}

/// The instructions of a link, none of another part.
fn instructions_of(part: &Part) -> &[(Name, u32, u32)]
    ensures { map seen_selection result.now ≡ selections_in (seen_part part.now).role }
{
    match &part.body {
        Body::Link { instrs } => instrs.as_slice(),
        _ => &[],
    }
}

/// The instructions of the access link of this name in the top.
fn instructions<'a>(hier: &'a Hier, link: &Name) -> &'a [(Name, u32, u32)]
    ensures { map seen_selection result.now ≡ link_at (seen_hier hier.now) link.now.items }
{
    match link_in(top_parts(hier), link) {
        Some(part) => instructions_of(part),
        None => &[],
    }
}

/// Whether a part of a cell is a port of this side.
fn is_port_of_side(hier: &Hier, side: Side, cell: u32, port: u32) -> bool
    ensures { result ≡ passes (test_of_side side) (part_at (seen_hier hier.now) cell port) }
{
    match part_at(hier, cell, port) {
        Some(part) => is_side(side, &part.body),
        None => false,
    }
}

/// The one port of this side among some parts of a cell, however often it is there.
fn only_port_among(hier: &Hier, side: Side, cell: u32, ports: &[u32]) -> Option<u32>
    ensures { result ≡ only
        (filter (λ port. passes (test_of_side side) (part_at (seen_hier hier.now) cell port)) ports.now) }
{
    let mut found = None;
    for port in ports {
        if is_port_of_side(hier, side, cell, *port) {
            match found {
                None => found = Some(*port),
                Some(other) => {
                    if other != *port {
                        return None;
                    }
                }
            }
        }
    }
    found
}

/// The one port of this side of the interface that an instruction selects.
fn only_port(hier: &Hier, side: Side, s: &(Name, u32, u32)) -> Option<u32>
    ensures { result ≡ only_port (test_of_side side) (seen_hier hier.now) (seen_selection s.now) }
{
    match part_at(hier, s.1, s.2) {
        Some(part) => match &part.body {
            Body::Interface { ports } => only_port_among(hier, side, s.1, ports.as_slice()),
            _ => None,
        },
        None => None,
    }
}

/// The fault of a link or an instruction that isn't there.
fn no_link(alloc: Global, link: &Name, instr: &Name) -> Result<ConnectFault, OutOfMemory>
    ensures { IfOk result (λ e. seen_fault e ≡ Some (NoLink link.now.items instr.now.items)) }
{
    let link = name_of(alloc, link.as_slice())?;
    let instr = name_of(alloc, instr.as_slice())?;
    Ok(ConnectFault::NoLink { link, instr })
}

/// An instruction of a link of the top.
fn known_selection<'a>(
    alloc: Global,
    hier: &'a Hier,
    link: &Name,
    instr: &Name,
) -> Result<&'a (Name, u32, u32), ConnectFault>
    ensures { Gives (λ s. seen_selection s.now) result (known_selection link.now.items instr.now.items
        (find (λ s. bytes_eq instr.now.items s.name) (link_at (seen_hier hier.now) link.now.items))) }
{
    match instruction_in(instructions(hier, link), instr) {
        Some(s) => Ok(s),
        None => Err(no_link(alloc, link, instr)?),
    }
}

/// The one port of this side of the interface that an instruction of a link selects.
fn known_port(
    alloc: Global,
    hier: &Hier,
    side: Side,
    s: &(Name, u32, u32),
    link: &Name,
    instr: &Name,
) -> Result<u32, ConnectFault>
    ensures { Gives same result (known link.now.items instr.now.items
        (only_port (test_of_side side) (seen_hier hier.now) (seen_selection s.now))) }
{
    match only_port(hier, side, s) {
        Some(port) => Ok(port),
        None => Err(no_link(alloc, link, instr)?),
    }
}

/// The place of a part.
fn place_of(hier: &Hier, cell: u32, part: u32) -> Place
    ensures { result ≡ place_of (part_at (seen_hier hier.now) cell part) }
{
    match part_at(hier, cell, part) {
        Some(part) => part.at,
        None => Place { line: 0, col: 0 },
    }
}

/// Where the network begins and ends that an instruction of a link selects.
#[tactic(auto, unfolding(crate::specs::Connecting::ends))]
pub(crate) fn ends(
    alloc: Global,
    hier: &Hier,
    link: &Name,
    instr: &Name,
) -> Result<NetworkEnds, ConnectFault>
    ensures { Gives seen_ends result (ends (seen_hier hier.now) link.now.items instr.now.items) }
{
    let s = known_selection(alloc, hier, link, instr)?;
    let scan_in = known_port(alloc, hier, Side::ScanIn, s, link, instr)?;
    let scan_out = known_port(alloc, hier, Side::ScanOut, s, link, instr)?;
    Ok(NetworkEnds {
        entry: Wire {
            cell: s.1,
            part: scan_in,
            pos: 0,
        },
        exit: Wire {
            cell: s.1,
            part: scan_out,
            pos: 0,
        },
        exit_place: place_of(hier, s.1, scan_out),
    })
}
