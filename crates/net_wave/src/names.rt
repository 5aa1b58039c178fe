// The names of scopes and variables.
ghost use Rattle.std.specs.Prelude.{◌≡◌, ◌<◌, ◌++◌, All, length, map, OnOk};
ghost use Rattle.instruments.specs.Models.{IsModel};
ghost use Rattle.instruments.specs.Seen.{seen_model};
ghost use Rattle.net_graph.specs.Nets.{IsNet};
ghost use Rattle.net_wave.specs.Header as header;
ghost use Rattle.net_wave.specs.Vars as vars;

use crate::shapes::{input_at, output_at, register_thing, word_at};
use crate::texts::add;
use crate::var::{Scope, Var};
use ij_bits::{List, OutOfMemory};
use ij_io::SureSink;
use instruments::Model;
use net_graph::Net;

/// The last instance name of a node.
fn node_name(net: &Net, node: u32) -> &[u8]
    requires { node < length net.now.nodes.items }
    ensures { result.now ≡ header.node_name net.now node }
{
    match net.nodes.get(node as usize).path.as_slice() {
        [] => b"",
        [.., name] => name.as_slice(),
    }
}

/// The name of a multiplexer.
fn mux_name(net: &Net, mux: u32) -> &[u8]
    requires { mux < length net.now.muxes.items }
    ensures { result.now ≡ header.mux_name net.now mux }
{
    net.muxes.get(mux as usize).name.as_slice()
}

/// The name of a scope.
fn scope_name(net: &Net, scope: Scope) -> &[u8]
    requires well_formed { IsNet net.now }
    requires there { vars.IsScope net.now scope }
    ensures { result.now ≡ header.scope_name net.now scope }
{
    match scope {
        Scope::Node(node) => node_name(net, node),
        Scope::Register(reg) => register_thing(net, reg).name.as_slice(),
        Scope::Multiplexer(mux) => mux_name(net, mux),
        Scope::Words => b"words",
    }
}

/// Adds the name of a scope.
pub(crate) fn add_scope_name(
    net: &Net,
    scope: Scope,
    piece: &mut SureSink,
) -> Result<(), OutOfMemory>
    requires well_formed { IsNet net.now }
    requires there { vars.IsScope net.now scope }
    ensures { OnOk result (piece.new ≡ piece.old ++ header.scope_name net.now scope) }
{
    add(scope_name(net, scope), piece)
}

/// Adds the name of a variable.
pub(crate) fn add_var_name(
    net: &Net,
    models: &List<Model>,
    var: Var,
    piece: &mut SureSink,
) -> Result<(), OutOfMemory>
    requires models { All (λ m. IsModel (seen_model m)) models.now.items }
    requires there { vars.IsVar net.now (map seen_model models.now.items) var }
    ensures { OnOk result
        (piece.new ≡ piece.old ++ header.var_name net.now (map seen_model models.now.items) var) }
{
    match var {
        Var::Tms => add(b"TMS", piece),
        Var::Tdi => add(b"TDI", piece),
        Var::Tdo => add(b"TDO", piece),
        Var::Expect => add(b"expect", piece),
        Var::Differs => add(b"differs", piece),
        Var::Tap => add(b"tap", piece),
        Var::Instruction => add(b"instruction", piece),
        Var::Scan => add(b"scan", piece),
        Var::Bit => add(b"bit", piece),
        Var::Update(_) => add(b"update", piece),
        Var::Shift(_) => add(b"shift", piece),
        Var::OnPath(_) => add(b"on_path", piece),
        Var::Row(_) => add(b"row", piece),
        Var::Input(inst, port) => add(input_at(net, inst, port).name.as_slice(), piece),
        Var::Output(inst, port) => add(output_at(net, inst, port).name.as_slice(), piece),
        Var::Word(inst, word) => add(word_at(models, inst, word).name.as_slice(), piece),
    }
}
