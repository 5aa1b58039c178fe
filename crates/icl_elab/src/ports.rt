// What ports and aliases are.
ghost use Rattle.std.specs.Prelude.{◌≡◌, [], map};
ghost use Rattle.ij_text.specs.Options.{same};
ghost use Rattle.icl_lexer.specs.Values.{ARefEnum};
ghost use Rattle.icl_lexer.specs.Views.{seen_prop, seen_sig};
ghost use Rattle.icl_declarations.specs.Faults.{Gives, over};
ghost use Rattle.icl_elab.specs.Marks.{nowhere};
ghost use Rattle.icl_references.specs.Roles.{seen_body};
ghost use Rattle.icl_elab.specs.FoundParts.{alias_prop, first_scan, found, port_prop, port_role, source_role};
ghost use Rattle.icl_elab.specs.SeenParts.{alias_answer, seen_resolved};
ghost use Rattle.icl_references.specs.Tables.{IsHere, frames_of, here_in, seen_member};

use crate::words::words_named;
use icl_declarations::ElabFault;
use icl_lexer::{PortKind, Prop, Sig, SmallText};
use icl_references::{
    Body, Member, Ref, Tables, alias_signals, control_signals, data_signals, scan_signal, width_of,
};
use ij_bits::{List, Tern};
use ij_text::{Name, Place};
use std::alloc::Global;

/// What a part is that binds nothing, and the words that it refers to.
#[derive(Drop)]
pub(crate) struct Resolved {
    pub body: Body,
    pub words: List<(Name, Tern)>,
}

/// The first scan signal of a source.
fn first_scan(
    alloc: Global,
    tables: &Tables,
    here: u32,
    at: Place,
    sigs: &[Sig],
) -> Result<Ref, ElabFault>
    requires { IsHere tables.now here }
    ensures { Gives same result
        (first_scan (frames_of tables.now) (here_in tables.now here) at (map seen_sig sigs.now)) }
{
    match sigs {
        [sig, ..] => scan_signal(alloc, tables, here, sig),
        [] => Err(ElabFault::WrongKind { at }),
    }
}

/// What a port is, with its source.
fn source_role(
    alloc: Global,
    tables: &Tables,
    here: u32,
    kind: PortKind,
    m: &Member,
    body: Body,
    sigs: &[Sig],
) -> Result<Body, ElabFault>
    requires { IsHere tables.now here }
    ensures { Gives seen_body result (source_role (frames_of tables.now) (here_in tables.now here) kind
        (seen_member m.now) (seen_body body) (map seen_sig sigs.now)) }
{
    match kind {
        PortKind::ScanOutPort => {
            drop(body);
            let source = first_scan(alloc, tables, here, m.item.at, sigs)?;
            Ok(Body::ScanOut {
                source: Some(source),
            })
        }
        PortKind::DataOutPort => {
            drop(body);
            let wide = width_of(m.bounds)?;
            let source = data_signals(alloc, tables, here, m.item.at, wide, sigs)?;
            Ok(Body::DataOut {
                source: Some(source),
            })
        }
        _ => match control_signals(alloc, tables, here, sigs) {
            Ok(()) => Ok(body),
            Err(e) => {
                drop(body);
                Err(e)
            }
        },
    }
}

/// What a port or an alias is, with the words that it refers to.
#[tactic(auto, unfolding(crate::specs::FoundParts::alias_prop))]
fn with_words(
    alloc: Global,
    tables: &Tables,
    here: u32,
    m: &Member,
    body: Body,
    name: &SmallText,
) -> Result<Resolved, ElabFault>
    requires { IsHere tables.now here }
    ensures { Gives seen_resolved result (alias_prop (frames_of tables.now) (here_in tables.now here)
        (seen_member m.now) (found (seen_body body)) (ARefEnum name.now.items)) }
{
    match words_named(alloc, tables.frame(here), m, name) {
        Ok(words) => Ok(Resolved { body, words }),
        Err(e) => {
            drop(body);
            Err(e)
        }
    }
}

/// What a port is, with one property more.
#[tactic(auto, unfolding(crate::specs::FoundParts::port_prop, crate::specs::FoundParts::alias_prop))]
fn port_prop(
    alloc: Global,
    tables: &Tables,
    here: u32,
    kind: PortKind,
    m: &Member,
    port: Resolved,
    prop: &Prop,
) -> Result<Resolved, ElabFault>
    requires { IsHere tables.now here }
    ensures { Gives seen_resolved result (port_prop (frames_of tables.now) (here_in tables.now here) kind
        (seen_member m.now) (seen_resolved port) (seen_prop prop.now)) }
{
    let Resolved { body, words } = port;
    match prop {
        Prop::Source(sigs) => {
            match source_role(alloc, tables, here, kind, m, body, sigs.as_slice()) {
                Ok(body) => Ok(Resolved { body, words }),
                Err(e) => {
                    drop(words);
                    Err(e)
                }
            }
        }
        Prop::RefEnum(name) => {
            drop(words);
            with_words(alloc, tables, here, m, body, name)
        }
        _ => Ok(Resolved { body, words }),
    }
}

/// What a port of this kind is without properties.
fn port_role(kind: PortKind) -> Body
    ensures { seen_body result ≡ port_role [] nowhere kind }
{
    match kind {
        PortKind::ScanInPort => Body::ScanIn { bound: None },
        PortKind::ScanOutPort => Body::ScanOut { source: None },
        PortKind::DataInPort => Body::DataIn { bound: None },
        PortKind::DataOutPort => Body::DataOut { source: None },
        _ => Body::Control,
    }
}

/// What a port is (IEEE 1687-2014, ICL: ports). What its instance binds it to comes later.
pub(crate) fn port_found(
    alloc: Global,
    tables: &Tables,
    here: u32,
    kind: PortKind,
    m: &Member,
    props: &[Prop],
) -> Result<Resolved, ElabFault>
    requires { IsHere tables.now here }
    ensures { Gives seen_resolved result
        (over (port_prop (frames_of tables.now) (here_in tables.now here) kind (seen_member m.now))
        (found (port_role (frames_of tables.now) (here_in tables.now here) kind)) (map seen_prop props.now)) }
{
    let mut port = Resolved {
        body: port_role(kind),
        words: List::new(alloc),
    };
    for prop in props {
        port = port_prop(alloc, tables, here, kind, m, port, prop)?;
    }
    Ok(port)
}

/// What an alias is, with one property more.
#[tactic(auto, unfolding(crate::specs::FoundParts::alias_prop))]
fn alias_prop(
    alloc: Global,
    tables: &Tables,
    here: u32,
    m: &Member,
    alias: Resolved,
    prop: &Prop,
) -> Result<Resolved, ElabFault>
    requires { IsHere tables.now here }
    ensures { Gives seen_resolved result (alias_prop (frames_of tables.now) (here_in tables.now here)
        (seen_member m.now) (seen_resolved alias) (seen_prop prop.now)) }
{
    let Resolved { body, words } = alias;
    match prop {
        Prop::RefEnum(name) => {
            drop(words);
            with_words(alloc, tables, here, m, body, name)
        }
        _ => Ok(Resolved { body, words }),
    }
}

/// An alias with properties.
fn with_props(
    alloc: Global,
    tables: &Tables,
    here: u32,
    m: &Member,
    start: Resolved,
    props: &[Prop],
) -> Result<Resolved, ElabFault>
    requires { IsHere tables.now here }
    ensures { Gives seen_resolved result (over (alias_prop (frames_of tables.now) (here_in tables.now here)
        (seen_member m.now)) (seen_resolved start) (map seen_prop props.now)) }
{
    let mut alias = start;
    for prop in props {
        alias = alias_prop(alloc, tables, here, m, alias, prop)?;
    }
    Ok(alias)
}

/// What an alias is (IEEE 1687-2014, ICL: `Alias`).
pub(crate) fn alias_found(
    alloc: Global,
    tables: &Tables,
    here: u32,
    m: &Member,
    sigs: &[Sig],
    props: &[Prop],
) -> Result<Resolved, ElabFault>
    requires { IsHere tables.now here }
    ensures { Gives seen_resolved result (alias_answer (frames_of tables.now) (here_in tables.now here)
        (seen_member m.now) (map seen_sig sigs.now) (map seen_prop props.now)) }
{
    let wide = width_of(m.bounds)?;
    let refs = alias_signals(alloc, tables, here, m.item.at, wide, sigs)?;
    let start = Resolved {
        body: Body::Alias { refs },
        words: List::new(alloc),
    };
    with_props(alloc, tables, here, m, start, props)
}
