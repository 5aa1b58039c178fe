// What registers are.
ghost use Rattle.std.specs.Prelude.{map};
ghost use Rattle.icl_lexer.specs.Views.{seen_prop};
ghost use Rattle.icl_declarations.specs.Faults.{Gives, over};
ghost use Rattle.icl_elab.specs.FoundParts.{nothing_said, register_prop};
ghost use Rattle.icl_elab.specs.SeenParts.{register_answer, seen_resolved, seen_said};
ghost use Rattle.icl_references.specs.Tables.{IsHere, frames_of, here_in, seen_member};

use crate::ports::Resolved;
use crate::words::words_named;
use icl_declarations::{ElabFault, value_in};
use icl_lexer::Prop;
use icl_references::{Body, Member, Ref, Tables, data_signals, scan_signal, width_of};
use ij_bits::{List, Tern};
use ij_runs::Runs;
use ij_text::Name;
use std::alloc::Global;
use std::mem::replace;

/// What the properties of a register say.
#[derive(Drop)]
pub(crate) struct RegisterParts {
    pub scan: Option<Ref>,
    pub capture: Option<Runs<Ref>>,
    pub reset: Option<Tern>,
    pub words: List<(Name, Tern)>,
}

/// Adds one property more to what a register's properties say.
#[tactic(auto, unfolding(crate::specs::FoundParts::register_prop))]
fn add_prop(
    alloc: Global,
    tables: &Tables,
    here: u32,
    m: &Member,
    said: &mut RegisterParts,
    prop: &Prop,
) -> Result<(), ElabFault>
    requires { IsHere tables.now here }
    ensures { Gives (λ u. seen_said (frames_of tables.now) (here_in tables.now here) said.new) result
        (register_prop (frames_of tables.now) (here_in tables.now here) (seen_member m.now)
        (seen_said (frames_of tables.now) (here_in tables.now here) said.old) (seen_prop prop.now)) }
{
    let at = m.item.at;
    match prop {
        Prop::ScanInSource(sig) => {
            said.scan = Some(scan_signal(alloc, tables, here, sig)?);
        }
        Prop::CaptureSource(sigs) => {
            let wide = width_of(m.bounds)?;
            let refs = data_signals(alloc, tables, here, at, wide, sigs.as_slice())?;
            drop(said.capture.replace(refs));
        }
        Prop::ResetValue(value) => {
            let wide = width_of(m.bounds)?;
            let bits = value_in(alloc, tables.params(here), value.as_slice(), wide, at)?;
            drop(said.reset.replace(bits));
        }
        Prop::RefEnum(name) => {
            let words = words_named(alloc, tables.frame(here), m, name)?;
            drop(replace(&mut said.words, words));
        }
        _ => {}
    }
    Ok(())
}

/// What a register's properties say, with one more.
fn register_prop(
    alloc: Global,
    tables: &Tables,
    here: u32,
    m: &Member,
    said: RegisterParts,
    prop: &Prop,
) -> Result<RegisterParts, ElabFault>
    requires { IsHere tables.now here }
    ensures { Gives (seen_said (frames_of tables.now) (here_in tables.now here)) result
        (register_prop (frames_of tables.now) (here_in tables.now here) (seen_member m.now)
        (seen_said (frames_of tables.now) (here_in tables.now here) said) (seen_prop prop.now)) }
{
    let mut said = said;
    match add_prop(alloc, tables, here, m, &mut said, prop) {
        Ok(()) => Ok(said),
        Err(e) => {
            drop(said);
            Err(e)
        }
    }
}

/// What a register's properties say (IEEE 1687-2014, ICL: `ScanRegister`).
fn register_props(
    alloc: Global,
    tables: &Tables,
    here: u32,
    m: &Member,
    props: &[Prop],
) -> Result<RegisterParts, ElabFault>
    requires { IsHere tables.now here }
    ensures { Gives (seen_said (frames_of tables.now) (here_in tables.now here)) result
        (over (register_prop (frames_of tables.now) (here_in tables.now here) (seen_member m.now))
        (nothing_said (frames_of tables.now) (here_in tables.now here)) (map seen_prop props.now)) }
{
    let mut said = RegisterParts {
        scan: None,
        capture: None,
        reset: None,
        words: List::new(alloc),
    };
    for prop in props {
        said = register_prop(alloc, tables, here, m, said, prop)?;
    }
    Ok(said)
}

/// What a register is.
pub(crate) fn register_found(
    alloc: Global,
    tables: &Tables,
    here: u32,
    m: &Member,
    props: &[Prop],
) -> Result<Resolved, ElabFault>
    requires { IsHere tables.now here }
    ensures { Gives seen_resolved result (register_answer (frames_of tables.now) (here_in tables.now here)
        (seen_member m.now) (map seen_prop props.now)) }
{
    let said = register_props(alloc, tables, here, m, props)?;
    Ok(Resolved {
        body: Body::Register {
            scan: said.scan,
            capture: said.capture,
            reset: said.reset,
        },
        words: said.words,
    })
}
