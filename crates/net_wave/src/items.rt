// The scopes and variables of a wave, in the order in which they are declared.
ghost use Rattle.std.specs.Prelude.{◌≡◌, ◌<◌, ◌≤◌, ◌++◌, All, length, map, IfOk, OnOk};
ghost use Rattle.instruments.specs.Models.{IsModel};
ghost use Rattle.instruments.specs.Runners.{AreModels};
ghost use Rattle.instruments.specs.Seen.{seen_model};
ghost use Rattle.net_graph.specs.Nets.{IsNet};
ghost use Rattle.net_wave.specs.Vars as vars;

use crate::shapes::words_at;
use crate::var::{Item, Scope, Var, WaveKind};
use ij_bits::{List, OutOfMemory};
use instruments::Model;
use net_graph::{Inst, Net, mux_count, register_count};
use std::alloc::Global;

/// Adds some lines of the declarations.
fn add_all(more: &[Item], items: &mut List<Item>) -> Result<(), OutOfMemory>
    ensures { OnOk result (items.new.items ≡ items.old.items ++ more.now) }
{
    for item in more {
        items.push(*item)?;
    }
    Ok(())
}

/// Whether a wave shows what is on the chip.
fn shows_chip_state(kind: WaveKind) -> bool
    ensures { result ≡ vars.shows_chip_state kind }
{
    match kind {
        WaveKind::Pins => false,
        WaveKind::State => true,
        WaveKind::All => true,
    }
}

/// Whether a wave shows shift stages.
fn shows_shift_stages(kind: WaveKind) -> bool
    ensures { result ≡ vars.shows_shift_stages kind }
{
    match kind {
        WaveKind::Pins => false,
        WaveKind::State => false,
        WaveKind::All => true,
    }
}

/// Adds a register.
fn add_register(kind: WaveKind, reg: u32, items: &mut List<Item>) -> Result<(), OutOfMemory>
    ensures { OnOk result (items.new.items ≡ items.old.items ++ vars.register_items kind reg) }
{
    add_all(
        &[
            Item::Open(Scope::Register(reg)),
            Item::Declare(Var::Update(reg)),
        ],
        items,
    )?;
    if shows_shift_stages(kind) {
        return add_all(
            &[
                Item::Declare(Var::Shift(reg)),
                Item::Declare(Var::OnPath(reg)),
                Item::Close,
            ],
            items,
        );
    }
    add_all(&[Item::Declare(Var::OnPath(reg)), Item::Close], items)
}

/// The node that a register is in.
fn register_node(net: &Net, reg: u32) -> u32
    requires well_formed { IsNet net.now }
    requires there { reg < length net.now.regs.items }
    ensures { result ≡ vars.register_node net.now reg }
{
    let thing = net.regs.get(reg as usize).thing;
    net.things.get(thing as usize).node
}

/// Adds a register, if it is in this node.
fn add_register_in(
    kind: WaveKind,
    net: &Net,
    node: u32,
    reg: u32,
    items: &mut List<Item>,
) -> Result<(), OutOfMemory>
    requires well_formed { IsNet net.now }
    requires there { reg < length net.now.regs.items }
    ensures { OnOk result (items.new.items ≡ items.old.items ++ vars.register_item kind net.now node reg) }
{
    if register_node(net, reg) == node {
        add_register(kind, reg, items)
    } else {
        add_all(&[], items)
    }
}

/// Adds the registers of a node.
#[tactic(auto, using(crate::proofs::Listing::up_to_next))]
fn add_registers(
    kind: WaveKind,
    net: &Net,
    node: u32,
    items: &mut List<Item>,
) -> Result<(), OutOfMemory>
    requires { IsNet net.now }
    ensures { OnOk result (items.new.items ≡ items.old.items ++ vars.registers_in kind net.now node) }
{
    for reg in 0..register_count(net) {
        add_register_in(kind, net, node, reg, items)?;
    }
    Ok(())
}

/// Adds a multiplexer, if it is in this node.
fn add_mux_in(net: &Net, node: u32, mux: u32, items: &mut List<Item>) -> Result<(), OutOfMemory>
    requires there { mux < length net.now.muxes.items }
    ensures { OnOk result (items.new.items ≡ items.old.items ++ vars.mux_item net.now node mux) }
{
    if net.muxes.get(mux as usize).node == node {
        add_all(
            &[
                Item::Open(Scope::Multiplexer(mux)),
                Item::Declare(Var::Row(mux)),
                Item::Close,
            ],
            items,
        )
    } else {
        add_all(&[], items)
    }
}

/// Adds the multiplexers of a node.
#[tactic(auto, using(crate::proofs::Listing::up_to_next))]
fn add_muxes(net: &Net, node: u32, items: &mut List<Item>) -> Result<(), OutOfMemory>
    requires { IsNet net.now }
    ensures { OnOk result (items.new.items ≡ items.old.items ++ vars.muxes_in net.now node) }
{
    for mux in 0..mux_count(net) {
        add_mux_in(net, node, mux, items)?;
    }
    Ok(())
}

/// Adds this many inputs of an instrument.
#[tactic(auto, using(crate::proofs::Listing::up_to_next))]
fn add_inputs(inst: u32, count: u32, items: &mut List<Item>) -> Result<(), OutOfMemory>
    ensures { OnOk result (items.new.items ≡ items.old.items ++ vars.up_to (vars.input_item inst) count) }
{
    for port in 0..count {
        items.push(Item::Declare(Var::Input(inst, port)))?;
    }
    Ok(())
}

/// Adds this many outputs of an instrument.
#[tactic(auto, using(crate::proofs::Listing::up_to_next))]
fn add_outputs(inst: u32, count: u32, items: &mut List<Item>) -> Result<(), OutOfMemory>
    ensures { OnOk result (items.new.items ≡ items.old.items ++ vars.up_to (vars.output_item inst) count) }
{
    for port in 0..count {
        items.push(Item::Declare(Var::Output(inst, port)))?;
    }
    Ok(())
}

/// Adds this many words of an instrument.
#[tactic(auto, using(crate::proofs::Listing::up_to_next))]
fn add_words(inst: u32, count: u32, items: &mut List<Item>) -> Result<(), OutOfMemory>
    ensures { OnOk result (items.new.items ≡ items.old.items ++ vars.up_to (vars.word_item inst) count) }
{
    for word in 0..count {
        items.push(Item::Declare(Var::Word(inst, word)))?;
    }
    Ok(())
}

/// The instrument of a number.
fn inst_at(net: &Net, inst: u32) -> &Inst
    requires well_formed { IsNet net.now }
    requires there { inst < length net.now.insts.items }
    ensures inputs { length result.now.ins.items ≡ vars.input_count net.now inst }
    ensures outputs { length result.now.outs.items ≡ vars.output_count net.now inst }
    ensures node { result.now.node ≡ vars.inst_node net.now inst }
    ensures few_inputs { length result.now.ins.items ≤ 16 }
    ensures few_outputs { length result.now.outs.items ≤ 16 }
{
    net.insts.get(inst as usize)
}

/// How many words an instrument has.
fn word_count(models: &List<Model>, inst: u32) -> u32
    requires models { All (λ m. IsModel (seen_model m)) models.now.items }
    requires there { inst < length models.now.items }
    ensures { result ≡ vars.word_count (map seen_model models.now.items) inst }
{
    words_at(models, inst).len() as u32
}

/// Adds the ports and words of an instrument.
fn add_inst(
    net: &Net,
    models: &List<Model>,
    inst: u32,
    items: &mut List<Item>,
) -> Result<(), OutOfMemory>
    requires well_formed { IsNet net.now }
    requires models { AreModels net.now models.now.items }
    requires there { inst < length net.now.insts.items }
    ensures { OnOk result (items.new.items
        ≡ items.old.items ++ vars.inst_items net.now (map seen_model models.now.items) inst) }
{
    let it = inst_at(net, inst);
    add_inputs(inst, it.ins.len() as u32, items)?;
    add_outputs(inst, it.outs.len() as u32, items)?;
    items.push(Item::Open(Scope::Words))?;
    add_words(inst, word_count(models, inst), items)?;
    items.push(Item::Close)?;
    Ok(())
}

/// Adds an instrument, if it is this node.
fn add_inst_in(
    net: &Net,
    models: &List<Model>,
    node: u32,
    inst: u32,
    items: &mut List<Item>,
) -> Result<(), OutOfMemory>
    requires well_formed { IsNet net.now }
    requires models { AreModels net.now models.now.items }
    requires there { inst < length net.now.insts.items }
    ensures { OnOk result (items.new.items
        ≡ items.old.items ++ vars.inst_item net.now (map seen_model models.now.items) node inst) }
{
    if inst_at(net, inst).node == node {
        add_inst(net, models, inst, items)
    } else {
        add_all(&[], items)
    }
}

/// How many instruments there are.
fn inst_count(net: &Net) -> u32
    requires { IsNet net.now }
    ensures { result ≡ length net.now.insts.items }
{
    net.insts.len() as u32
}

/// Adds the instrument that a node is.
#[tactic(auto, using(crate::proofs::Listing::up_to_next))]
fn add_insts(
    net: &Net,
    models: &List<Model>,
    node: u32,
    items: &mut List<Item>,
) -> Result<(), OutOfMemory>
    requires well_formed { IsNet net.now }
    requires models { AreModels net.now models.now.items }
    ensures { OnOk result (items.new.items
        ≡ items.old.items ++ vars.insts_in net.now (map seen_model models.now.items) node) }
{
    for inst in 0..inst_count(net) {
        add_inst_in(net, models, node, inst, items)?;
    }
    Ok(())
}

/// Opens the scope of a node other than the top.
fn add_opening(node: u32, items: &mut List<Item>) -> Result<(), OutOfMemory>
    ensures { OnOk result (items.new.items ≡ items.old.items ++ vars.opening node) }
{
    if node == 0 {
        add_all(&[], items)
    } else {
        add_all(&[Item::Open(Scope::Node(node))], items)
    }
}

/// How deep a node is, 0 for the top and for one that isn't there.
fn depth(net: &Net, node: u32) -> u32
    requires { IsNet net.now }
    ensures depth { result ≡ vars.depth net.now node }
    ensures small { result ≤ 64 }
{
    match net.nodes.as_slice().get(node as usize) {
        None => 0,
        Some(node) => node.path.len() as u32,
    }
}

/// Closes this many scopes.
#[tactic(auto, using(crate::proofs::Listing::up_to_next))]
fn add_closes(count: u32, items: &mut List<Item>) -> Result<(), OutOfMemory>
    ensures { OnOk result (items.new.items ≡ items.old.items ++ vars.up_to vars.close_item count) }
{
    for _k in 0..count {
        items.push(Item::Close)?;
    }
    Ok(())
}

/// Closes the scopes in which the next node doesn't stand.
fn add_closing(net: &Net, node: u32, items: &mut List<Item>) -> Result<(), OutOfMemory>
    requires well_formed { IsNet net.now }
    requires there { node < length net.now.nodes.items }
    ensures { OnOk result (items.new.items ≡ items.old.items ++ vars.closing net.now node) }
{
    let open = depth(net, node) + 1;
    add_closes(open.saturating_sub(depth(net, node + 1)), items)
}

/// Adds a node.
fn add_node(
    kind: WaveKind,
    net: &Net,
    models: &List<Model>,
    node: u32,
    items: &mut List<Item>,
) -> Result<(), OutOfMemory>
    requires well_formed { IsNet net.now }
    requires models { AreModels net.now models.now.items }
    requires there { node < length net.now.nodes.items }
    ensures { OnOk result (items.new.items
        ≡ items.old.items ++ vars.node_items kind net.now (map seen_model models.now.items) node) }
{
    add_opening(node, items)?;
    add_insts(net, models, node, items)?;
    add_registers(kind, net, node, items)?;
    add_muxes(net, node, items)?;
    add_closing(net, node, items)?;
    Ok(())
}

/// How many nodes there are.
fn node_count(net: &Net) -> u32
    requires { IsNet net.now }
    ensures { result ≡ length net.now.nodes.items }
{
    net.nodes.len() as u32
}

/// Adds all nodes.
#[tactic(auto, using(crate::proofs::Listing::up_to_next))]
fn add_nodes(
    kind: WaveKind,
    net: &Net,
    models: &List<Model>,
    items: &mut List<Item>,
) -> Result<(), OutOfMemory>
    requires well_formed { IsNet net.now }
    requires models { AreModels net.now models.now.items }
    ensures { OnOk result (items.new.items ≡ items.old.items ++ vars.up_to
        (vars.node_items kind net.now (map seen_model models.now.items)) (length net.now.nodes.items)) }
{
    for node in 0..node_count(net) {
        add_node(kind, net, models, node, items)?;
    }
    Ok(())
}

/// The pins.
fn pin_items(alloc: Global) -> Result<List<Item>, OutOfMemory>
    ensures { IfOk result (λ items. items.items ≡ vars.pin_items) }
{
    let pins = Vec::from_slice(
        alloc,
        &[
            Item::Declare(Var::Tms),
            Item::Declare(Var::Tdi),
            Item::Declare(Var::Tdo),
            Item::Declare(Var::Expect),
            Item::Declare(Var::Differs),
            Item::Declare(Var::Tap),
            Item::Declare(Var::Instruction),
            Item::Declare(Var::Scan),
            Item::Declare(Var::Bit),
        ],
    )?;
    Ok(List::from(pins))
}

/// All scopes and variables, in the order of the text.
pub(crate) fn wave_items(
    alloc: Global,
    kind: WaveKind,
    net: &Net,
    models: &List<Model>,
) -> Result<List<Item>, OutOfMemory>
    requires well_formed { IsNet net.now }
    requires models { AreModels net.now models.now.items }
    ensures { IfOk result (λ items. items.items ≡ vars.items kind net.now (map seen_model models.now.items)) }
{
    let mut items = pin_items(alloc)?;
    if shows_chip_state(kind) {
        add_nodes(kind, net, models, &mut items)?;
    } else {
        items.push(Item::Close)?;
    }
    Ok(items)
}

/// Adds the variable that a line declares.
fn add_declared(item: Item, seen: &mut List<Var>) -> Result<(), OutOfMemory>
    ensures { OnOk result (seen.new.items ≡ seen.old.items ++ vars.declared_by item) }
{
    match item {
        Item::Open(_) => Ok(()),
        Item::Declare(var) => seen.push(var),
        Item::Close => Ok(()),
    }
}

/// The variables, in the order of their numbers.
pub(crate) fn vars_of(alloc: Global, items: &[Item]) -> Result<List<Var>, OutOfMemory>
    ensures { IfOk result (λ seen. seen.items ≡ vars.vars_of items.now) }
{
    let mut seen = List::new(alloc);
    for item in items {
        add_declared(*item, &mut seen)?;
    }
    Ok(seen)
}
