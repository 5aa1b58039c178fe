// Why tables don't fit a network, if they don't.
ghost use Rattle.std.specs.Prelude.{◌≡◌, ◌+◌, ◌-◌, ◌<◌, ◌≤◌, ◌&&◌, suc, map, length, option_map, Some, None};
ghost use Rattle.std.specs.List.{list_all};
ghost use Rattle.net_graph.specs.Nets.{IsNet};
ghost use Rattle.instruments.specs.Seen.{seen_port, seen_out, seen_model};
ghost use Rattle.table_file.specs.Tables.{same_path, seen_table};
ghost use Rattle.bench_file.specs.Fits.{in_port, out_port, model_out_port, same_port, among, same_ports};
ghost use Rattle.bench_file.specs.Fits.{in_ports, out_ports, model_out_ports, has_ports, inst_path};
ghost use Rattle.bench_file.specs.Fits.{table_named, missing, names_one, extra, models_from, fitted, misfit};
ghost use Rattle.bench_file.specs.Fits.{inst_misfit, name_texts};
ghost use Rattle.table_file.specs.Answers.{seen_tables};

use crate::fault::FitsFault;
use ij_bits::List;
use ij_text::Name;
use instruments::{Model, OutDef, PortDef};
use net_graph::{Inst, Net, PortIn, PortOut};
use table_file::Table;
use table_lines::is;

fn input_fits_def(port: &PortIn, d: &PortDef) -> bool
    ensures forth { result ≡ same_port (in_port port.now) (seen_port d.now) }
{
    is(d.name.as_slice(), port.name.as_slice()) && port.bits.len() == d.width as usize
}

fn def_fits_input(d: &PortDef, port: &PortIn) -> bool
    ensures { result ≡ same_port (seen_port d.now) (in_port port.now) }
{
    is(port.name.as_slice(), d.name.as_slice()) && d.width as usize == port.bits.len()
}

/// The width of an output.
fn out_width(d: &OutDef) -> u64
    ensures { result ≡ suc d.now.left - d.now.right }
{
    (u64::from(d.left) + 1).saturating_sub(u64::from(d.right))
}

fn output_fits_def(port: &PortOut, d: &OutDef) -> bool
    ensures { result ≡ same_port (out_port port.now) (model_out_port (seen_out d.now)) }
{
    is(d.name.as_slice(), port.name.as_slice()) && u64::from(port.width) == out_width(d)
}

fn def_fits_output(d: &OutDef, port: &PortOut) -> bool
    ensures { result ≡ same_port (model_out_port (seen_out d.now)) (out_port port.now) }
{
    is(port.name.as_slice(), d.name.as_slice()) && out_width(d) == u64::from(port.width)
}

fn input_has_def(port: &PortIn, ins: &[PortDef]) -> bool
    ensures { result ≡ among (map seen_port ins.now) (in_port port.now) }
{
    for x in ins {
        if input_fits_def(port, x) {
            return true;
        }
    }
    false
}

fn def_has_input(d: &PortDef, ports: &[PortIn]) -> bool
    ensures { result ≡ among (map in_port ports.now) (seen_port d.now) }
{
    for x in ports {
        if def_fits_input(d, x) {
            return true;
        }
    }
    false
}

fn output_has_def(port: &PortOut, outs: &[OutDef]) -> bool
    ensures { result ≡ among (map model_out_port (map seen_out outs.now)) (out_port port.now) }
{
    for x in outs {
        if output_fits_def(port, x) {
            return true;
        }
    }
    false
}

fn def_has_output(d: &OutDef, ports: &[PortOut]) -> bool
    ensures { result ≡ among (map out_port ports.now) (model_out_port (seen_out d.now)) }
{
    for x in ports {
        if def_fits_output(d, x) {
            return true;
        }
    }
    false
}

fn inputs_have_defs(ports: &[PortIn], ins: &[PortDef]) -> bool
    ensures { result ≡ list_all (among (map seen_port ins.now)) (map in_port ports.now) }
{
    for x in ports {
        if !input_has_def(x, ins) {
            return false;
        }
    }
    true
}

fn defs_have_inputs(ins: &[PortDef], ports: &[PortIn]) -> bool
    ensures { result ≡ list_all (among (map in_port ports.now)) (map seen_port ins.now) }
{
    for x in ins {
        if !def_has_input(x, ports) {
            return false;
        }
    }
    true
}

fn outputs_have_defs(ports: &[PortOut], outs: &[OutDef]) -> bool
    ensures { result
        ≡ list_all (among (map model_out_port (map seen_out outs.now))) (map out_port ports.now) }
{
    for x in ports {
        if !output_has_def(x, outs) {
            return false;
        }
    }
    true
}

fn defs_have_outputs(outs: &[OutDef], ports: &[PortOut]) -> bool
    ensures { result
        ≡ list_all (among (map out_port ports.now)) (map model_out_port (map seen_out outs.now)) }
{
    for x in outs {
        if !def_has_output(x, ports) {
            return false;
        }
    }
    true
}

fn has_ins(inst: &Inst, m: &Model) -> bool
    ensures { result ≡ same_ports (in_ports inst.now) (seen_model m.now).ins }
{
    let ports = inst.ins.as_slice();
    let ins = m.ins.as_slice();
    inputs_have_defs(ports, ins) && defs_have_inputs(ins, ports)
}

fn has_outs(inst: &Inst, m: &Model) -> bool
    ensures { result ≡ same_ports (out_ports inst.now) (model_out_ports (seen_model m.now)) }
{
    let ports = inst.outs.as_slice();
    let outs = m.outs.as_slice();
    outputs_have_defs(ports, outs) && defs_have_outputs(outs, ports)
}

/// Whether a model has the ports of an instrument, in any order.
pub(crate) fn has_ports(inst: &Inst, m: &Model) -> bool
    ensures { result ≡ has_ports inst.now (seen_model m.now) }
{
    has_ins(inst, m) && has_outs(inst, m)
}

/// Whether two paths have the same names.
fn same_path(path: &[Name], other: &[Name]) -> bool
    ensures { result ≡ same_path (name_texts path.now) (name_texts other.now) }
{
    if path.len() != other.len() {
        return false;
    }
    for i in 0..path.len() {
        if !is(other[i].as_slice(), path[i].as_slice()) {
            return false;
        }
    }
    true
}

/// The instance names of an instrument.
pub(crate) fn inst_path<'a>(net: &'a Net, inst: &Inst) -> &'a [Name]
    ensures { name_texts result.now ≡ inst_path net.now inst.now }
{
    let node = inst.node as usize;
    if node < net.nodes.len() {
        net.nodes.get(node).path.as_slice()
    } else {
        &[]
    }
}

/// The first table of a path.
pub(crate) fn table_named<'a>(tables: &'a [Table], path: &[Name]) -> Option<&'a Table>
    ensures { option_map (λ t. seen_table t.now) result
        ≡ table_named (map seen_table tables.now) (name_texts path.now) }
{
    for t in tables {
        if same_path(path, t.path.as_slice()) {
            return Some(t);
        }
    }
    None
}

/// The first instrument without a table.
fn missing(net: &Net, tables: &[Table]) -> Option<FitsFault>
    requires { length net.now.insts.items ≤ 256 }
    ensures { result ≡ missing net.now (map seen_table tables.now) 0 net.now.insts.items }
{
    for i in 0..net.insts.len() {
        if table_named(tables, inst_path(net, net.insts.get(i))).is_none() {
            return Some(FitsFault::NoTable { inst: i as u32 });
        }
    }
    None
}

/// Whether an instrument has this path.
fn names_one(net: &Net, path: &[Name]) -> bool
    ensures { result ≡ names_one net.now net.now.insts.items (name_texts path.now) }
{
    for i in 0..net.insts.len() {
        if same_path(path, inst_path(net, net.insts.get(i))) {
            return true;
        }
    }
    false
}

/// The first table without an instrument.
fn extra(net: &Net, tables: &[Table]) -> Option<FitsFault>
    ensures { result ≡ extra net.now (map seen_table tables.now) }
{
    for t in tables {
        if !names_one(net, t.path.as_slice()) {
            return Some(FitsFault::ExtraTable { at: t.at });
        }
    }
    None
}

/// Why the table of an instrument doesn't fit it.
fn inst_misfit(i: u32, inst: &Inst, table: Option<&Table>) -> Option<FitsFault>
    ensures { result ≡ inst_misfit i inst.now (option_map (λ t. seen_table t.now) table.entry) }
{
    match table {
        None => Some(FitsFault::NoTable { inst: i }),
        Some(t) => {
            if has_ports(inst, &t.model) {
                None
            } else {
                Some(FitsFault::PortWidth { inst: i })
            }
        }
    }
}

/// The first instrument whose ports differ from its table's.
fn ports_misfit(net: &Net, tables: &[Table]) -> Option<FitsFault>
    requires { length net.now.insts.items ≤ 256 }
    ensures { result ≡ misfit (models_from net.now (map seen_table tables.now) 0 net.now.insts.items) }
{
    for i in 0..net.insts.len() {
        let inst = net.insts.get(i);
        let fault = inst_misfit(i as u32, inst, table_named(tables, inst_path(net, inst)));
        if fault.is_some() {
            return fault;
        }
    }
    None
}

/// Why tables don't fit a network: an instrument has no table, a table names no instrument, or the ports of
/// an instrument and its table differ in names or widths, in any order; the causes in this order, and of one
/// cause the first instrument or table. `None` where they fit. It takes no memory.
#[tactic(auto, unfolding(crate::specs::Fits::fitted))]
pub fn misfit(net: &Net, tables: &List<Table>) -> Option<FitsFault>
    requires { IsNet net.now }
    ensures { result ≡ misfit (fitted net.now (seen_tables tables.now)) }
{
    let tables = tables.as_slice();
    if let Some(fault) = missing(net, tables) {
        return Some(fault);
    }
    if let Some(fault) = extra(net, tables) {
        return Some(fault);
    }
    ports_misfit(net, tables)
}
