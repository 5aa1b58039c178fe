// What each part of a cell is, its signals and values resolved.
ghost use Rattle.std.specs.Prelude.{◌≡◌, map};
ghost use Rattle.icl_lexer.specs.Views.{seen_bind};
ghost use Rattle.icl_declarations.specs.Faults.{Gives};
ghost use Rattle.icl_references.specs.Roles.{seen_body};
ghost use Rattle.icl_elab.specs.FoundParts.{found, instance_found, part_found};
ghost use Rattle.icl_elab.specs.SeenParts.{seen_found, seen_resolved};
ghost use Rattle.icl_references.specs.Tables.{IsHere, frames_of, here_in, seen_member};

use crate::bindings::{Bindings, bind_all};
use crate::links::{port_numbers, selections};
use crate::ports::{Resolved, alias_found, port_found};
use crate::registers::register_found;
use icl_declarations::ElabFault;
use icl_lexer::{Bind, What};
use icl_references::{Body, Member, Tables, mux_role};
use ij_bits::{List, Tern};
use ij_text::{Name, Place};
use std::alloc::Global;

/// What a part is, the words that it refers to, and what an instance binds.
#[derive(Drop)]
pub struct Found {
    /// What it is: a port, a register, a multiplexer, an instance, an alias, a scan interface or an access
    /// link.
    pub body: Body,
    /// The words that it refers to, each in the part's width.
    pub words: List<(Name, Tern)>,
    /// What an instance binds; nothing for every other part.
    pub bound: Bindings,
}

/// A part that binds nothing.
fn without_binds(alloc: Global, part: Resolved) -> Found
    ensures { seen_found result ≡ seen_resolved part }
{
    Found {
        body: part.body,
        words: part.words,
        bound: Bindings::new(alloc),
    }
}

/// A part that binds nothing and refers to no words.
fn without_binds_or_words(alloc: Global, body: Body) -> Found
    ensures { seen_found result ≡ found (seen_body body) }
{
    Found {
        body,
        words: List::new(alloc),
        bound: Bindings::new(alloc),
    }
}

/// What an instance is, which is that cell, and what it binds (IEEE 1687-2014, ICL: `Instance`).
/// `WidthDiffers` at the instance where a port is bound at some of its bits alone.
fn instance_found(
    alloc: Global,
    tables: &Tables,
    here: u32,
    child: u32,
    at: Place,
    binds: &[Bind],
) -> Result<Found, ElabFault>
    requires here { IsHere tables.now here }
    requires child { IsHere tables.now child }
    ensures { Gives seen_found result (instance_found (frames_of tables.now) (here_in tables.now here) at
        (map seen_bind binds.now) (here_in tables.now child)) }
{
    let bound = bind_all(alloc, tables, here, child, binds)?;
    if !bound.are_whole(tables.members(child)) {
        return Err(ElabFault::WidthDiffers { at });
    }
    let bound = bound.closed(alloc)?;
    Ok(Found {
        body: Body::Child { cell: child },
        words: List::new(alloc),
        bound,
    })
}

/// What a part of this cell is. The first fault in it is the answer, from left to right as its text has it.
#[tactic(auto, unfolding(crate::specs::FoundParts::part_found))]
pub fn part_found(alloc: Global, tables: &Tables, here: u32, m: &Member) -> Result<Found, ElabFault>
    requires { IsHere tables.now here }
    ensures { Gives seen_found result
        (part_found (frames_of tables.now) (here_in tables.now here) (seen_member m.now)) }
{
    let at = m.item.at;
    match &m.item.what {
        What::Port { kind, props, .. } => {
            let part = port_found(alloc, tables, here, *kind, m, props.as_slice())?;
            Ok(without_binds(alloc, part))
        }
        What::Register { props, .. } => {
            let part = register_found(alloc, tables, here, m, props.as_slice())?;
            Ok(without_binds(alloc, part))
        }
        What::Mux { select, rows } => {
            let body = mux_role(alloc, tables, here, at, select.as_slice(), rows.as_slice())?;
            Ok(without_binds_or_words(alloc, body))
        }
        What::Child { binds, .. } => {
            let child = tables.cell_of_instance(here, at, m.item)?;
            instance_found(alloc, tables, here, child, at, binds.as_slice())
        }
        What::Alias { sigs, props, .. } => {
            let part = alias_found(alloc, tables, here, m, sigs.as_slice(), props.as_slice())?;
            Ok(without_binds(alloc, part))
        }
        What::Interface { ports } => {
            let ports = port_numbers(alloc, tables, here, at, ports.as_slice())?;
            Ok(without_binds_or_words(alloc, Body::Interface { ports }))
        }
        What::Link { instrs, .. } => {
            let instrs = selections(alloc, tables, here, at, instrs.as_slice())?;
            Ok(without_binds_or_words(alloc, Body::Link { instrs }))
        }
        _ => Ok(without_binds_or_words(alloc, Body::Control)),
    }
}
