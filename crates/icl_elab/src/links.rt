// What scan interfaces and access links name.
ghost use Rattle.std.specs.Prelude.{◌≡◌, map};
ghost use Rattle.std.specs.Option.{option_map};
ghost use Rattle.ij_text.specs.Options.{same};
ghost use Rattle.icl_lexer.specs.Views.{bytes_of, seen_instr, seen_what};
ghost use Rattle.icl_declarations.specs.Faults.{Gives, each};
ghost use Rattle.icl_declarations.specs.Parts.{is_interface, is_port};
ghost use Rattle.icl_references.specs.Roles.{seen_selection};
ghost use Rattle.icl_elab.specs.FoundParts.{port_number, selection};
ghost use Rattle.icl_elab.specs.SeenParts.{first_member, known_number, seen_numbers, seen_selections};
ghost use Rattle.icl_references.specs.Tables.{IsHere, frames_of, here_in, seen_member};

use icl_declarations::ElabFault;
use icl_frames::is_interface;
use icl_lexer::{LinkInstr, SmallText, What};
use icl_references::{Member, Tables};
use ij_bits::List;
use ij_text::{Name, Place, name_of};
use std::alloc::Global;

fn is_port(what: &What) -> bool
    ensures { result ≡ is_port (seen_what what.now) }
{
    matches!(what, What::Port { .. })
}

/// The number of a port of this cell. `WrongKind` where the name is another part's.
fn port_number(
    alloc: Global,
    tables: &Tables,
    here: u32,
    at: Place,
    name: &SmallText,
) -> Result<u32, ElabFault>
    requires { IsHere tables.now here }
    ensures { Gives same result
        (port_number (frames_of tables.now) (here_in tables.now here) at name.now.items) }
{
    let m = tables.named(alloc, here, at, name.as_slice())?;
    if !is_port(&m.item.what) {
        return Err(ElabFault::WrongKind { at });
    }
    Ok(m.part)
}

/// The numbers of the ports of a scan interface (IEEE 1687-2014, ICL: `ScanInterface`).
pub(crate) fn port_numbers(
    alloc: Global,
    tables: &Tables,
    here: u32,
    at: Place,
    names: &[SmallText],
) -> Result<List<u32>, ElabFault>
    requires { IsHere tables.now here }
    ensures { Gives seen_numbers result
        (each (port_number (frames_of tables.now) (here_in tables.now here) at) (map bytes_of names.now)) }
{
    let mut numbers = List::new(alloc);
    for name in names {
        let number = port_number(alloc, tables, here, at, name)?;
        numbers.push(number)?;
    }
    Ok(numbers)
}

/// The first scan interface of this name. It is searched for once for each instruction of a link.
fn interface_named<'a>(members: &[Member<'a>], name: &[u8]) -> Option<Member<'a>>
    ensures { option_map seen_member result
        ≡ first_member is_interface (map seen_member members.now) name.now }
{
    for m in members {
        if is_interface(&m.item.what) && name == m.item.name.as_slice() {
            return Some(*m);
        }
    }
    None
}

/// The number of a scan interface that is there.
fn known_interface(
    alloc: Global,
    at: Place,
    name: &SmallText,
    m: Option<Member>,
) -> Result<u32, ElabFault>
    ensures { Gives same result (known_number at name.now.items (option_map seen_member m.entry)) }
{
    match m {
        Some(m) => Ok(m.part),
        None => {
            let name = name_of(alloc, name.as_slice())?;
            Err(ElabFault::NoName { at, name })
        }
    }
}

/// What an instruction of a link selects: an instance and its scan interface. `WrongKind` where the name is
/// no instance's, `NoName` of an interface that the instance hasn't.
fn selection(
    alloc: Global,
    tables: &Tables,
    here: u32,
    at: Place,
    instr: &LinkInstr,
) -> Result<(Name, u32, u32), ElabFault>
    requires { IsHere tables.now here }
    ensures { Gives seen_selection result
        (selection (frames_of tables.now) (here_in tables.now here) at (seen_instr instr.now)) }
{
    let m = tables.named(alloc, here, at, instr.cell.as_slice())?;
    let child = tables.cell_of_instance(here, at, m.item)?;
    let interface = interface_named(tables.members(child), instr.interface.as_slice());
    let interface = known_interface(alloc, at, &instr.interface, interface)?;
    let name = name_of(alloc, instr.name.as_slice())?;
    Ok((name, child, interface))
}

/// What the instructions of a link select (IEEE 1687-2014, ICL: `AccessLink`).
pub(crate) fn selections(
    alloc: Global,
    tables: &Tables,
    here: u32,
    at: Place,
    instrs: &[LinkInstr],
) -> Result<List<(Name, u32, u32)>, ElabFault>
    requires { IsHere tables.now here }
    ensures { Gives seen_selections result
        (each (selection (frames_of tables.now) (here_in tables.now here) at) (map seen_instr instrs.now)) }
{
    let mut all = List::new(alloc);
    for instr in instrs {
        let selected = selection(alloc, tables, here, at, instr)?;
        all.push(selected)?;
    }
    Ok(all)
}
