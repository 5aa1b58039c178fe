// How many bits variables have, and their indexes.
ghost use Rattle.std.specs.Prelude.{◌≡◌, ◌<◌, ◌≤◌, All, length, map};
ghost use Rattle.instruments.specs.Models.{IsModel};
ghost use Rattle.instruments.specs.Seen.{seen_model, seen_word};
ghost use Rattle.net_graph.specs.Named.{width_of};
ghost use Rattle.net_graph.specs.Nets.{IsNet};
ghost use Rattle.net_wave.specs.Header as header;
ghost use Rattle.net_wave.specs.Values as values;
ghost use Rattle.net_wave.specs.Vars as vars;

use crate::digits::binary_length;
use crate::var::Var;
use ij_bits::List;
use instruments::{Model, WordDef};
use net_graph::{Device, Net, PortIn, PortOut, Reg, Thing};

/// The indexes of a variable's bits, from the highest position to position 0.
#[derive(Clone, Copy, Drop)]
pub(crate) struct Range {
    pub left: u32,
    pub right: u32,
}

/// How many bits a variable has, and their indexes where these are written.
#[derive(Clone, Copy, Drop)]
pub(crate) struct Shape {
    pub width: u32,
    pub range: Option<Range>,
}

/// One bit without an index.
fn one_bit() -> Shape
    ensures { result ≡ header.one_bit }
{
    Shape {
        width: 1,
        range: None,
    }
}

/// Bits that are counted down to 0.
fn ranged(width: u32) -> Shape
    ensures { result ≡ header.ranged width }
{
    Shape {
        width,
        range: Some(Range {
            left: width.saturating_sub(1),
            right: 0,
        }),
    }
}

/// Bits that are counted down to 0, where there is more than one.
fn shape_if_wide(width: u32) -> Shape
    ensures { result ≡ header.shape_if_wide width }
{
    if width == 1 { one_bit() } else { ranged(width) }
}

/// Bits between two indexes, where there is more than the index 0.
fn between(width: u32, left: u32, right: u32) -> Shape
    ensures { result ≡ header.between width left right }
{
    let range = if width == 1 && left == 0 {
        None
    } else {
        Some(Range { left, right })
    };
    Shape { width, range }
}

/// The thing by which a register is named.
pub(crate) fn register_thing(net: &Net, reg: u32) -> &Thing
    requires well_formed { IsNet net.now }
    requires there { reg < length net.now.regs.items }
    ensures left { result.now.left ≡ header.left_of net.now reg }
    ensures right { result.now.right ≡ header.right_of net.now reg }
    ensures name { result.now.name.items ≡ header.register_name net.now reg }
{
    let thing = net.regs.get(reg as usize).thing;
    net.things.get(thing as usize)
}

/// How many bits a register has.
fn register_width(net: &Net, reg: u32) -> u32
    requires { reg < length net.now.regs.items }
    ensures { result ≡ width_of net.now reg }
{
    net.regs.get(reg as usize).width
}

/// How many bits show the row of a multiplexer.
pub(crate) fn row_width(net: &Net, mux: u32) -> u32
    requires { mux < length net.now.muxes.items }
    ensures width { result ≡ values.row_width net.now mux }
    ensures small { result ≤ 32 }
{
    binary_length(net.muxes.get(mux as usize).rows.len())
}

/// An input of an instrument.
pub(crate) fn input_at(net: &Net, inst: u32, port: u32) -> &PortIn
    requires inst { inst < length net.now.insts.items }
    requires port { port < vars.input_count net.now inst }
    ensures bits { result.now.bits.items ≡ values.drivers net.now inst port }
    ensures name { result.now.name.items ≡ header.input_name net.now inst port }
{
    net.insts.get(inst as usize).ins.get(port as usize)
}

/// How many bits an input of an instrument has.
fn input_width(net: &Net, inst: u32, port: u32) -> u32
    requires well_formed { IsNet net.now }
    requires inst { inst < length net.now.insts.items }
    requires port { port < vars.input_count net.now inst }
    ensures { result ≡ length (values.drivers net.now inst port) }
{
    input_at(net, inst, port).bits.len() as u32
}

/// An output of an instrument.
pub(crate) fn output_at(net: &Net, inst: u32, port: u32) -> &PortOut
    requires inst { inst < length net.now.insts.items }
    requires port { port < vars.output_count net.now inst }
    ensures width { result.now.width ≡ values.output_width net.now inst port }
    ensures name { result.now.name.items ≡ header.output_name net.now inst port }
{
    net.insts.get(inst as usize).outs.get(port as usize)
}

/// The words of an instrument.
pub(crate) fn words_at(models: &List<Model>, inst: u32) -> &List<WordDef>
    requires models { All (λ m. IsModel (seen_model m)) models.now.items }
    requires there { inst < length models.now.items }
    ensures words { map seen_word result.now.items ≡ vars.words_of (map seen_model models.now.items) inst }
    ensures few { length result.now.items ≤ 8 }
    ensures widths { All (λ word. word.width ≤ 64) result.now.items }
{
    &models.get(inst as usize).words
}

/// A word of an instrument.
pub(crate) fn word_at(models: &List<Model>, inst: u32, word: u32) -> &WordDef
    requires models { All (λ m. IsModel (seen_model m)) models.now.items }
    requires inst { inst < length models.now.items }
    requires word { word < vars.word_count (map seen_model models.now.items) inst }
    ensures width { result.now.width ≡ values.word_width (map seen_model models.now.items) inst word }
    ensures name { result.now.name.items ≡ header.word_name (map seen_model models.now.items) inst word }
    ensures few { result.now.width ≤ 64 }
{
    words_at(models, inst).get(word as usize)
}

/// The bits of a variable.
pub(crate) fn var_shape(net: &Net, device: &Device, models: &List<Model>, var: Var) -> Shape
    requires well_formed { IsNet net.now }
    requires models { All (λ m. IsModel (seen_model m)) models.now.items }
    requires there { vars.IsVar net.now (map seen_model models.now.items) var }
    ensures { result ≡ header.shape net.now device.now (map seen_model models.now.items) var }
{
    match var {
        Var::Tap => ranged(4),
        Var::Instruction => ranged(device.ir),
        Var::Scan => ranged(32),
        Var::Bit => ranged(16),
        Var::Update(reg) => register_shape(net, reg),
        Var::Shift(reg) => register_shape(net, reg),
        Var::Row(mux) => ranged(row_width(net, mux)),
        Var::Input(inst, port) => shape_if_wide(input_width(net, inst, port)),
        Var::Output(inst, port) => shape_if_wide(output_at(net, inst, port).width),
        Var::Word(inst, word) => shape_if_wide(word_at(models, inst, word).width),
        Var::Tms => one_bit(),
        Var::Tdi => one_bit(),
        Var::Tdo => one_bit(),
        Var::Expect => one_bit(),
        Var::Differs => one_bit(),
        Var::OnPath(_) => one_bit(),
    }
}

/// The bits of a register.
fn register_shape(net: &Net, reg: u32) -> Shape
    requires well_formed { IsNet net.now }
    requires there { reg < length net.now.regs.items }
    ensures { result ≡ header.register_shape net.now reg }
{
    let thing = register_thing(net, reg);
    between(register_width(net, reg), thing.left, thing.right)
}
