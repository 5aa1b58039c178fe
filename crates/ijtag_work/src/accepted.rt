// What the texts of a command are accepted as.
ghost use Rattle.std.specs.Prelude.{◌≡◌, ◌≤◌, true, length, map, All, IfOk, IfSome, Ok};
ghost use Rattle.std.specs.Option.{option_map};
ghost use Rattle.instruments.specs.Models.{IsModel};
ghost use Rattle.instruments.specs.Runners.{AreModels};
ghost use Rattle.instruments.specs.Seen.{seen_model};
ghost use Rattle.net_graph.specs.Nets.{IsNet};
ghost use Rattle.svf_reader.specs.Meaning.{svf};
ghost use Rattle.table_file.specs.Answers.{seen_tables};
ghost use Rattle.ijtag_stages.specs.Fitted.{models_of};
ghost use Rattle.ijtag_stages.specs.Follows.{Follows};
ghost use Rattle.ijtag_stages.specs.SvfText.{svf_text};
ghost use Rattle.ijtag_stages.specs.TablesText.{tables_text};
ghost use Rattle.ijtag_work.specs.Accepted.{accepted, followed, if_given, listed};
ghost use Rattle.ijtag_work.specs.Using.{ArePlayable, AreShortTexts, CanUse, ComesToItsEnd, IsShort};
ghost use Rattle.ijtag_work.specs.Using.{IsUsable, seen_accepted, seen_named, needs_of, steps_of, there};

use bench_file::{Fitted, Table};
use ij_bits::List;
use ij_text::{Name, name_of};
use ijtag_stages::{
    Network, StageFault, check_procedure, fit_tables, read_device, read_icl, read_network,
    read_pdl, read_svf, read_tables,
};
use net_graph::{Device, Net};
use pdl_parser::Procs;
use std::alloc::Global;
use svf_writer::Commands;

/// The texts of a command by what they are, with the names that it gives. Each has at most 134,217,728 bytes.
#[derive(Clone, Copy)]
pub struct Texts<'t> {
    /// The network (IEEE 1687-2014, ICL).
    pub icl: &'t [u8],
    /// The chip's device (IEEE 1149.1-2013).
    pub device: &'t [u8],
    /// What the instruments do, where the command asks for it.
    pub tables: Option<&'t [u8]>,
    /// The SVF text that the command reads, where it reads one (Serial Vector Format, revision E).
    pub svf: Option<&'t [u8]>,
    /// The top module's name.
    pub top: &'t str,
    /// The procedures, where the command has one of them (IEEE 1687-2014, PDL level 0).
    pub pdl: Option<&'t [u8]>,
    /// The procedure's name, where there are some.
    pub procedure: &'t str,
}

/// A procedure that comes to its end on the network.
#[derive(Drop)]
pub struct Procedure {
    /// The procedures of the PDL text.
    pub procs: Procs,
    /// Its name.
    pub name: Name,
}

/// What the texts of a command are accepted as.
pub struct Accepted<'t> {
    /// The network with its nested form.
    pub network: Network,
    /// The chip's device.
    pub device: Device,
    /// The models of the network's instruments, in its order, where there are tables.
    pub models: Option<Fitted>,
    /// The SVF text as it is, where there is one.
    pub svf: Option<&'t [u8]>,
    /// Its commands.
    pub commands: Option<Commands>,
    /// The procedure, where there is one.
    pub procedure: Option<Procedure>,
}

/// Written out, so that a crate that drops it calls this, and doesn't prove the drop of each part of it
/// again.
impl<'t> Drop for Accepted<'t> {
    fn drop(self) {
        let Accepted {
            network: _,
            device: _,
            models: _,
            svf: _,
            commands: _,
            procedure: _,
        } = self;
    }
}

impl<'t> Accepted<'t> {
    /// The models of the instruments.
    pub fn models(&self) -> &Fitted
        requires usable { IsUsable self.now }
        requires some { there self.now.models ≡ true }
        ensures is { (seen_accepted self.now).models ≡ map seen_model result.now }
        ensures can { AreModels self.now.network.net result.now }
    {
        let Some(models) = &self.models else {
            unreachable!()
        };
        models
    }

    /// The SVF text as it is.
    pub fn svf_text(&self) -> &'t [u8]
        requires usable { IsUsable self.now }
        requires some { there self.now.svf ≡ true }
        ensures is { (seen_accepted self.now).svf ≡ result.now }
        ensures short { IsShort result.now }
        ensures read { svf result.now ≡ Ok (seen_accepted self.now).commands }
    {
        let Some(text) = self.svf else { unreachable!() };
        text
    }

    /// The commands of the SVF text.
    pub fn commands(&self) -> &Commands
        requires usable { IsUsable self.now }
        requires some { there self.now.commands ≡ true }
        ensures is { (seen_accepted self.now).commands ≡ result.now }
        ensures can { ArePlayable result.now }
    {
        let Some(commands) = &self.commands else {
            unreachable!()
        };
        commands
    }

    /// The procedure.
    pub fn procedure(&self) -> &Procedure
        requires usable { IsUsable self.now }
        requires some { there self.now.procedure ≡ true }
        ensures is { (seen_accepted self.now).steps ≡ steps_of self.now.network result.now }
        ensures can { ComesToItsEnd self.now.network result.now }
    {
        let Some(procedure) = &self.procedure else {
            unreachable!()
        };
        procedure
    }
}

/// The tables of a text, where there is one.
#[tactic(auto, unfolding(crate::specs::Accepted::if_given))]
fn read_given_tables(alloc: Global, text: Option<&[u8]>) -> Result<Option<List<Table>>, StageFault>
    requires short { IfSome text (λ t. length t.now ≤ 134217728) }
    ensures follows { Follows (if_given (option_map (λ t. t.now) text.entry) tables_text)
        (option_map seen_tables) result }
    ensures given { IfOk result (λ tables. there tables ≡ there text.entry) }
    ensures models { IfOk result
        (λ tables. IfSome tables (λ ts. All (λ t. IsModel (seen_model t.model)) ts.items)) }
{
    match text {
        None => Ok(None),
        Some(text) => {
            let tables = read_tables(alloc, text)?;
            Ok(Some(tables))
        }
    }
}

/// The commands of an SVF text, where there is one.
#[tactic(auto, unfolding(crate::specs::Accepted::if_given, ijtag_stages::specs::SvfText::svf_text))]
fn read_given_svf(alloc: Global, text: Option<&[u8]>) -> Result<Option<Commands>, StageFault>
    requires short { IfSome text (λ t. length t.now ≤ 134217728) }
    ensures follows { Follows (if_given (option_map (λ t. t.now) text.entry) svf_text)
        (λ commands. commands) result }
    ensures given { IfOk result (λ commands. there commands ≡ there text.entry) }
    ensures playable { IfOk result (λ commands. IfSome commands ArePlayable) }
    ensures read { IfOk result (λ commands. IfSome text.entry (λ t. svf t.now ≡ Ok (listed commands))) }
{
    match text {
        None => Ok(None),
        Some(text) => {
            let commands = read_svf(alloc, text)?;
            Ok(Some(commands))
        }
    }
}

/// The models of the network's instruments, where there are tables.
#[tactic(auto, unfolding(crate::specs::Accepted::if_given))]
fn fit_given(
    alloc: Global,
    net: &Net,
    tables: &Option<List<Table>>,
) -> Result<Option<Fitted>, StageFault>
    requires net { IsNet net.now }
    requires tables { IfSome tables.now (λ ts. All (λ t. IsModel (seen_model t.model)) ts.items) }
    ensures follows { Follows (if_given (option_map seen_tables tables.now) (models_of net.now))
        (option_map (λ ms. map seen_model ms)) result }
    ensures given { IfOk result (λ models. there models ≡ there tables.now) }
    ensures models { IfOk result (λ models. IfSome models (AreModels net.now)) }
{
    match tables {
        None => Ok(None),
        Some(tables) => {
            let models = fit_tables(alloc, net, tables)?;
            Ok(Some(models))
        }
    }
}

/// The procedure of this name, followed to its end.
#[tactic(auto, unfolding(crate::specs::Accepted::followed))]
fn follow(alloc: Global, network: &Network, pdl: &[u8], name: &str) -> Result<Procedure, StageFault>
    requires net { IsNet network.now.net }
    requires short { length pdl.now ≤ 134217728 }
    ensures follows { Follows (followed network.now name.now pdl.now)
        (steps_of network.now) result }
    ensures ends { IfOk result (ComesToItsEnd network.now) }
{
    let procs = read_pdl(alloc, pdl)?;
    check_procedure(alloc, &procs, network, name)?;
    let name = name_of(alloc, name.as_bytes())?;
    Ok(Procedure { procs, name })
}

/// The procedure of this name, followed to its end, where there is a PDL text.
#[tactic(auto, unfolding(crate::specs::Accepted::if_given))]
fn follow_given(
    alloc: Global,
    network: &Network,
    pdl: Option<&[u8]>,
    name: &str,
) -> Result<Option<Procedure>, StageFault>
    requires net { IsNet network.now.net }
    requires short { IfSome pdl (λ t. length t.now ≤ 134217728) }
    ensures follows { Follows (if_given (option_map (λ t. t.now) pdl.entry)
        (followed network.now name.now)) (option_map (steps_of network.now)) result }
    ensures given { IfOk result (λ procedure. there procedure ≡ there pdl.entry) }
    ensures ends { IfOk result (λ procedure. IfSome procedure (ComesToItsEnd network.now)) }
{
    match pdl {
        None => Ok(None),
        Some(pdl) => {
            let procedure = follow(alloc, network, pdl, name)?;
            Ok(Some(procedure))
        }
    }
}

/// What the texts of a command are accepted as. They are read in one order, each where the command has it,
/// and the first that isn't accepted decides: the ICL text, the device, the tables, the SVF text, then the
/// network below the top module, whether the tables fit it, and the PDL text with its procedure, which is
/// followed to its end.
#[tactic(auto, unfolding(crate::specs::Accepted::accepted))]
pub fn accept<'t>(alloc: Global, texts: &Texts<'t>) -> Result<Accepted<'t>, StageFault>
    requires { AreShortTexts (seen_named texts.now) }
    ensures follows { Follows (accepted (seen_named texts.now)) seen_accepted result }
    ensures can { IfOk result (CanUse (needs_of (seen_named texts.now))) }
{
    let modules = read_icl(alloc, texts.icl)?;
    let device = read_device(alloc, texts.device)?;
    let tables = read_given_tables(alloc, texts.tables)?;
    let commands = read_given_svf(alloc, texts.svf)?;
    let network = read_network(alloc, &modules, texts.top, &device)?;
    let models = fit_given(alloc, &network.net, &tables)?;
    let procedure = follow_given(alloc, &network, texts.pdl, texts.procedure)?;
    Ok(Accepted {
        network,
        device,
        models,
        svf: texts.svf,
        commands,
        procedure,
    })
}
