// The models of a network's instruments.
ghost use Rattle.std.specs.Prelude.{◌≡◌, ◌<◌, ◌≤◌, ℕ, [], map, length, option_map, All, IfOk, IsErrOf, Ok};
ghost use Rattle.std.specs.Prelude.{Err, None};
ghost use Rattle.ij_text.specs.declared.Place.{Place};
ghost use Rattle.net_graph.specs.Nets.{IsNet, IsInst};
ghost use Rattle.instruments.specs.Models.{IsModel};
ghost use Rattle.instruments.specs.Seen.{seen_model, seen_memory, seen_out, seen_port, seen_row, seen_word};
ghost use Rattle.table_file.specs.Answers.{seen_tables};
ghost use Rattle.table_file.specs.Tables.{seen_table};
ghost use Rattle.bench_file.specs.Answers.{GivesModels, seen_models};
ghost use Rattle.bench_file.specs.Fits.{with_ports_in_order, fitted, in_ports, misfit, model_for};
ghost use Rattle.bench_file.specs.Fits.{models_from};
ghost use Rattle.bench_file.specs.Fits.{out_named, out_ports, row_moved, ModelsFit};
ghost use Rattle.bench_file.specs.declared.fault.FitsFault.{FitsFault};

use crate::copying::{memory_copy, outs_named, port_defs, words_copy};
use crate::fault::FitsFault;
use crate::fitting::{has_ports, inst_path, misfit, table_named};
use crate::moving::rows_moved;
use ij_bits::{Buffer, List, OutOfMemory};
use instruments::{MemDef, Model, OutDef, PortDef, RowDef, WordDef};
use net_graph::{Inst, Net};
use std::alloc::Global;
use table_file::Table;

/// The models of a network's instruments, one for each, in the network's order.
///
/// Contracts see the list of the models.
#[derive(Drop)]
pub struct Fitted {
    models: List<Model>,
}

impl std::marker::Model for Fitted {
    ghost use Rattle.std.specs.Prelude.{List};
    ghost use Rattle.instruments.specs.declared.model.Model.{Model};

    ghost Value = { List Model };

    ghost view = { λ f. f.models.items };
}

impl Fitted {
    /// The models, for a bench. Takes no memory.
    pub fn models(&self) -> &List<Model>
        ensures { result.now.items ≡ self.now }
    {
        &self.models
    }
}

/// The words and the memory of a model.
fn words_and_memory(
    alloc: Global,
    m: &Model,
) -> Result<(List<WordDef>, Option<MemDef>), OutOfMemory>
    ensures words { IfOk result (λ cells. map seen_word cells.0.items ≡ map seen_word m.now.words.items) }
    ensures memory { IfOk result
        (λ cells. option_map seen_memory cells.1 ≡ option_map seen_memory m.now.mem) }
{
    let words = words_copy(alloc, m.words.as_slice())?;
    Ok((words, memory_copy(alloc, &m.mem)?))
}

/// The inputs of an instrument, and the outputs of a model in its order.
fn ports(
    alloc: Global,
    inst: &Inst,
    m: &Model,
) -> Result<(List<PortDef>, List<OutDef>), OutOfMemory>
    requires { All (λ port. length port.bits.items ≤ 64) inst.now.ins.items }
    ensures ins { IfOk result (λ ports. map seen_port ports.0.items ≡ in_ports inst.now) }
    ensures outs { IfOk result (λ ports. map seen_out ports.1.items
        ≡ map (λ port. out_named (map seen_out m.now.outs.items) port.name) (out_ports inst.now)) }
{
    let ins = port_defs(alloc, inst.ins.as_slice())?;
    let outs = outs_named(alloc, m.outs.as_slice(), inst.outs.as_slice())?;
    Ok((ins, outs))
}

/// The rows of a model, which name the inputs in the order of an instrument: those of a change and those of a
/// run.
fn rows(alloc: Global, inst: &Inst, m: &Model) -> Result<(List<RowDef>, List<RowDef>), OutOfMemory>
    requires { length inst.now.ins.items ≤ 16 }
    ensures change { IfOk result (λ rows. map seen_row rows.0.items ≡ map
        (row_moved (map seen_port m.now.ins.items) (in_ports inst.now)) (map seen_row m.now.change.items)) }
    ensures run { IfOk result (λ rows. map seen_row rows.1.items ≡ map
        (row_moved (map seen_port m.now.ins.items) (in_ports inst.now)) (map seen_row m.now.run.items)) }
{
    let old = m.ins.as_slice();
    let new = inst.ins.as_slice();
    let change = rows_moved(alloc, m.change.as_slice(), old, new)?;
    Ok((change, rows_moved(alloc, m.run.as_slice(), old, new)?))
}

/// A model with the ports in the order of an instrument.
#[tactic(auto, unfolding(crate::specs::Fits::with_ports_in_order))]
fn with_ports_in_order(alloc: Global, inst: &Inst, m: &Model) -> Result<Model, OutOfMemory>
    requires few { length inst.now.ins.items ≤ 16 }
    requires narrow { All (λ port. length port.bits.items ≤ 64) inst.now.ins.items }
    ensures { IfOk result (λ r. seen_model r ≡ with_ports_in_order inst.now (seen_model m.now)) }
{
    let (words, mem) = words_and_memory(alloc, m)?;
    let (ins, outs) = ports(alloc, inst, m)?;
    let (change, run) = rows(alloc, inst, m)?;
    Ok(Model {
        words,
        mem,
        ins,
        outs,
        change,
        run,
    })
}

/// The model of an instrument from its table.
fn model_for(alloc: Global, i: u32, inst: &Inst, table: Option<&Table>) -> Result<Model, FitsFault>
    requires few { length inst.now.ins.items ≤ 16 }
    requires narrow { All (λ port. length port.bits.items ≤ 64) inst.now.ins.items }
    ensures { GivesModels seen_model result
        (model_for i inst.now (option_map (λ t. seen_table t.now) table.entry)) }
{
    match table {
        None => Err(FitsFault::NoTable { inst: i }),
        Some(t) => {
            if !has_ports(inst, &t.model) {
                return Err(FitsFault::PortWidth { inst: i });
            }
            let model = with_ports_in_order(alloc, inst, &t.model)?;
            Ok(model)
        }
    }
}

/// A list with room for n models.
fn room_for(alloc: Global, n: usize) -> Result<Buffer<Model>, OutOfMemory>
    ensures items { IfOk result (λ models. models.items ≡ []) }
    ensures room { IfOk result (λ models. n ≤ models.spare) }
{
    let mut models = Buffer::new(alloc);
    models.reserve(n)?;
    Ok(models)
}

fn models_from(alloc: Global, net: &Net, tables: &[Table]) -> Result<List<Model>, FitsFault>
    requires few { length net.now.insts.items ≤ 256 }
    requires insts { All (IsInst net.now) net.now.insts.items }
    ensures { GivesModels seen_models result
        (models_from net.now (map seen_table tables.now) 0 net.now.insts.items) }
{
    let mut models = room_for(alloc, net.insts.len())?;
    for i in 0..net.insts.len() {
        let inst = net.insts.get(i);
        let table = table_named(tables, inst_path(net, inst));
        models.push_reserved(model_for(alloc, i as u32, inst, table)?);
    }
    Ok(models.into_list())
}

/// The models from tables that fit.
fn made(alloc: Global, net: &Net, tables: &List<Table>) -> Result<Fitted, OutOfMemory>
    requires net { IsNet net.now }
    requires tables { All (λ t. IsModel (seen_model t.model)) tables.now.items }
    requires fit { misfit (fitted net.now (seen_tables tables.now)) ≡ None }
    ensures ok { IfOk result (λ f. fitted net.now (seen_tables tables.now) ≡ Ok (map seen_model f)) }
    ensures fit { IfOk result (λ f. ModelsFit net.now (map seen_model f)) }
    ensures count { IfOk result (λ f. length f ≡ length net.now.insts.items) }
    ensures models { IfOk result (λ f. All (λ m. IsModel (seen_model m)) f) }
{
    match models_from(alloc, net, tables.as_slice()) {
        Ok(models) => Ok(Fitted { models }),
        Err(_) => Err(OutOfMemory),
    }
}

/// The models of a network's instruments: a table for each, with the ports of the instrument in any order.
///
/// # Errors
///
/// What [`misfit`] says, where the tables don't fit; then no memory was taken. Models that fit are new ones,
/// and take memory by `alloc`; where there is none, the answer is `OutOfMemory`.
pub fn fits(alloc: Global, net: &Net, tables: &List<Table>) -> Result<Fitted, FitsFault>
    requires net { IsNet net.now }
    requires tables { All (λ t. IsModel (seen_model t.model)) tables.now.items }
    ensures ok { IfOk result (λ f. fitted net.now (seen_tables tables.now) ≡ Ok (map seen_model f)) }
    ensures fit { IfOk result (λ f. ModelsFit net.now (map seen_model f)) }
    ensures count { IfOk result (λ f. length f ≡ length net.now.insts.items) }
    ensures models { IfOk result (λ f. All (λ m. IsModel (seen_model m)) f) }
    ensures refused { (fault : FitsFault)
        → fitted net.now (seen_tables tables.now) ≡ Err fault → IsErrOf result fault }
    ensures missing { (inst : ℕ) → IsErrOf result (FitsFault.NoTable inst)
        → fitted net.now (seen_tables tables.now) ≡ Err (FitsFault.NoTable inst) }
    ensures extra { (at : Place) → IsErrOf result (FitsFault.ExtraTable at)
        → fitted net.now (seen_tables tables.now) ≡ Err (FitsFault.ExtraTable at) }
    ensures ports { (inst : ℕ) → IsErrOf result (FitsFault.PortWidth inst)
        → fitted net.now (seen_tables tables.now) ≡ Err (FitsFault.PortWidth inst) }
{
    match misfit(net, tables) {
        Some(fault) => Err(fault),
        None => {
            let fitted = made(alloc, net, tables)?;
            Ok(fitted)
        }
    }
}
