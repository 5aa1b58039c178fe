// The modules that each made design has.
ghost use Rattle.std.specs.Prelude.{◌≡◌, [], ◌∷◌, codes, OnOk, IfOk};
ghost use Rattle.icl_lexer.specs.Values.{ALink};
ghost use Rattle.icl_lexer.specs.declared.tree.LinkKind.{LinkKind};
ghost use Rattle.icl_lexer.specs.Views.{seen_instr, seen_module};
ghost use Rattle.design_maker.specs.Parts.{HasAdded, item};
ghost use Rattle.design_maker.specs.Modules.{chip_module, client_side, data_register, host_side};
ghost use Rattle.design_maker.specs.Modules.{inner_instrument, ins_module, link_instruction, segment_mux};
ghost use Rattle.design_maker.specs.Modules.{select_bit, sib_module, wrap_module, wrap_ports};

use crate::items::{Items, bound, bound_width, mux_row, sized_number};
use crate::signals::{lowest_bit_range, one, ranged, signal, the_width, whole_width};
use icl_lexer::{LinkInstr, LinkKind, Module, PortKind, Prop, SmallText, What};
use ij_bits::{List, OutOfMemory};
use std::alloc::Global;

/// The ports of a SIB on the side of the TAP.
#[tactic(auto, unfolding(crate::specs::Parts::HasAdded))]
fn add_client_side(alloc: Global, items: &mut Items) -> Result<(), OutOfMemory>
    ensures { OnOk result (HasAdded items.old items.new (client_side)) }
{
    items.port(PortKind::ScanInPort, b"SI")?;
    items.port(PortKind::CaptureEnPort, b"CE")?;
    items.port(PortKind::ShiftEnPort, b"SE")?;
    items.port(PortKind::UpdateEnPort, b"UE")?;
    items.port(PortKind::SelectPort, b"SEL")?;
    items.port_with(PortKind::ResetPort, b"RST", Prop::ActivePolarity(0))?;
    items.port(PortKind::TCKPort, b"TCK")?;
    items.sourced(PortKind::ScanOutPort, b"SO", signal(alloc, &[b"SR"])?)?;
    items.interface(
        b"client",
        &[b"SI", b"CE", b"SE", b"UE", b"SEL", b"RST", b"TCK", b"SO"],
    )
}

/// The ports of a SIB on the side of the segment.
#[tactic(auto, unfolding(crate::specs::Parts::HasAdded))]
fn add_host_side(alloc: Global, items: &mut Items) -> Result<(), OutOfMemory>
    ensures { OnOk result (HasAdded items.old items.new (host_side)) }
{
    items.port(PortKind::ScanInPort, b"fromSO")?;
    items.port(PortKind::ToCaptureEnPort, b"toCE")?;
    items.port(PortKind::ToShiftEnPort, b"toSE")?;
    items.port(PortKind::ToUpdateEnPort, b"toUE")?;
    items.sourced(PortKind::ToSelectPort, b"toSEL", signal(alloc, &[b"SR"])?)?;
    items.port(PortKind::ToResetPort, b"toRST")?;
    items.port(PortKind::ToTCKPort, b"toTCK")?;
    items.sourced(PortKind::ScanOutPort, b"toSI", signal(alloc, &[b"SI"])?)?;
    items.interface(
        b"host",
        &[
            b"fromSO", b"toCE", b"toSE", b"toUE", b"toSEL", b"toRST", b"toTCK", b"toSI",
        ],
    )
}

/// The select bit of a SIB.
#[tactic(auto, unfolding(crate::specs::Parts::HasAdded))]
fn add_select_bit(alloc: Global, items: &mut Items) -> Result<(), OutOfMemory>
    ensures { OnOk result (HasAdded items.old items.new (select_bit ∷ [])) }
{
    let mut props = List::new(alloc);
    props.push(Prop::ScanInSource(signal(alloc, &[b"m"])?))?;
    props.push(Prop::CaptureSource(one(alloc, signal(alloc, &[b"SR"])?)?))?;
    props.push(Prop::ResetValue(sized_number(alloc, b"1'b0")?))?;
    items.add(b"SR", What::Register { range: None, props })
}

/// The multiplexer of a SIB.
#[tactic(auto, unfolding(crate::specs::Parts::HasAdded))]
fn add_segment_mux(alloc: Global, items: &mut Items) -> Result<(), OutOfMemory>
    ensures { OnOk result (HasAdded items.old items.new (segment_mux ∷ [])) }
{
    let select = one(alloc, signal(alloc, &[b"SR"])?)?;
    let mut rows = List::new(alloc);
    rows.push(mux_row(alloc, b"1'b0", b"SI")?)?;
    rows.push(mux_row(alloc, b"1'b1", b"fromSO")?)?;
    items.add(b"m", What::Mux { select, rows })
}

/// A segment insertion bit.
#[tactic(auto, unfolding(crate::specs::Parts::HasAdded))]
pub(crate) fn sib_module(alloc: Global) -> Result<Module, OutOfMemory>
    ensures { IfOk result (λ m. seen_module m ≡ sib_module) }
{
    let mut items = Items::new(alloc);
    items.attribute(b"kind", b"segment insertion bit")?;
    add_client_side(alloc, &mut items)?;
    add_host_side(alloc, &mut items)?;
    add_select_bit(alloc, &mut items)?;
    add_segment_mux(alloc, &mut items)?;
    items.into_module(b"Sib")
}

/// An instrument of `W` bits.
#[tactic(auto, unfolding(crate::specs::Parts::HasAdded))]
pub(crate) fn ins_module(alloc: Global) -> Result<Module, OutOfMemory>
    ensures { IfOk result (λ m. seen_module m ≡ ins_module) }
{
    let mut items = Items::new(alloc);
    items.width_parameter()?;
    items.port(PortKind::TCKPort, b"TCK")?;
    items.wide_port(PortKind::DataInPort, b"d")?;
    items.wide_port(PortKind::DataOutPort, b"q")?;
    items.into_module(b"Ins")
}

/// The ports of the register of an instrument.
#[tactic(auto, unfolding(crate::specs::Parts::HasAdded))]
fn add_wrap_ports(alloc: Global, items: &mut Items) -> Result<(), OutOfMemory>
    ensures { OnOk result (HasAdded items.old items.new (wrap_ports)) }
{
    items.port(PortKind::ScanInPort, b"SI")?;
    items.port(PortKind::SelectPort, b"SEL")?;
    items.port(PortKind::TCKPort, b"TCK")?;
    let source = ranged(alloc, &[b"R"], Some(lowest_bit_range(alloc)?))?;
    items.sourced(PortKind::ScanOutPort, b"SO", source)?;
    items.interface(b"client", &[b"SI", b"SEL", b"TCK", b"SO"])
}

/// The register of an instrument, of `W` bits.
#[tactic(auto, unfolding(crate::specs::Parts::HasAdded))]
fn add_data_register(alloc: Global, items: &mut Items) -> Result<(), OutOfMemory>
    ensures { OnOk result (HasAdded items.old items.new (data_register ∷ [])) }
{
    let range = Some(whole_width(alloc)?);
    let mut props = List::new(alloc);
    props.push(Prop::ScanInSource(signal(alloc, &[b"SI"])?))?;
    props.push(Prop::CaptureSource(one(alloc, signal(alloc, &[b"ins", b"q"])?)?))?;
    props.push(Prop::DefaultLoadValue(sized_number(alloc, b"$W'b0")?))?;
    props.push(Prop::ResetValue(sized_number(alloc, b"$W'b0")?))?;
    items.add(b"R", What::Register { range, props })
}

/// The instrument after its register.
#[tactic(auto, unfolding(crate::specs::Parts::HasAdded))]
fn add_inner_instrument(alloc: Global, items: &mut Items) -> Result<(), OutOfMemory>
    ensures { OnOk result (HasAdded items.old items.new (inner_instrument ∷ [])) }
{
    let mut binds = List::new(alloc);
    binds.push(bound_width(alloc, the_width(alloc)?)?)?;
    binds.push(bound(alloc, b"d", &[b"R"])?)?;
    binds.push(bound(alloc, b"TCK", &[b"TCK"])?)?;
    items.instance(b"ins", b"Ins", binds)
}

/// A register of `W` bits with its instrument.
#[tactic(auto, unfolding(crate::specs::Parts::HasAdded))]
pub(crate) fn wrap_module(alloc: Global) -> Result<Module, OutOfMemory>
    ensures { IfOk result (λ m. seen_module m ≡ wrap_module) }
{
    let mut items = Items::new(alloc);
    items.width_parameter()?;
    add_wrap_ports(alloc, &mut items)?;
    add_data_register(alloc, &mut items)?;
    add_inner_instrument(alloc, &mut items)?;
    items.into_module(b"Wrap")
}

/// The instruction of the link, which selects the network.
fn link_instr(alloc: Global) -> Result<LinkInstr, OutOfMemory>
    ensures { IfOk result (λ instr. seen_instr instr ≡ link_instruction) }
{
    let name = SmallText::of(alloc, b"IJTAG")?;
    let Ok(cell) = SmallText::of(alloc, b"net") else {
        drop(name);
        return Err(OutOfMemory);
    };
    let Ok(interface) = SmallText::of(alloc, b"client") else {
        drop(name);
        drop(cell);
        return Err(OutOfMemory);
    };
    Ok(LinkInstr {
        name,
        cell,
        interface,
    })
}

/// The link, which selects the network by one instruction.
#[tactic(auto, unfolding(crate::specs::Parts::HasAdded))]
fn add_link(alloc: Global, items: &mut Items) -> Result<(), OutOfMemory>
    ensures { OnOk result (HasAdded items.old items.new
        (item (codes "tap") (ALink LinkKind.Std2001 (codes "chip") (link_instruction ∷ [])) ∷ [])) }
{
    let instrs = one(alloc, link_instr(alloc)?)?;
    let Ok(entity) = SmallText::of(alloc, b"chip") else {
        drop(instrs);
        return Err(OutOfMemory);
    };
    items.add(
        b"tap",
        What::Link {
            kind: LinkKind::Std2001,
            entity,
            instrs,
        },
    )
}

/// The chip, whose link selects the network.
#[tactic(auto, unfolding(crate::specs::Parts::HasAdded))]
pub(crate) fn chip_module(alloc: Global) -> Result<Module, OutOfMemory>
    ensures { IfOk result (λ m. seen_module m ≡ chip_module) }
{
    let mut items = Items::new(alloc);
    items.instance(b"net", b"Net", List::new(alloc))?;
    add_link(alloc, &mut items)?;
    items.into_module(b"chip")
}
