// The network of a made design.
ghost use Rattle.std.specs.Prelude.{◌≡◌, ◌≤◌, ◌<◌, [], ◌∷◌, length, codes, OnOk, IfOk};
ghost use Rattle.icl_lexer.specs.Views.{seen_bind, seen_design, seen_module, seen_sig};
ghost use Rattle.design_maker.specs.Numbered.{numbered};
ghost use Rattle.design_maker.specs.Parts.{HasAdded, bound, signal};
ghost use Rattle.design_maker.specs.Network.{chain_items, inner_of, made_design, net_module, net_ports};
ghost use Rattle.design_maker.specs.Network.{outer_of, sib_item, sib_items, sib_name, wrap_item, wrap_name};

use crate::instrument::Instrument;
use crate::items::{Items, bound, bound_width};
use crate::modules::{chip_module, ins_module, sib_module, wrap_module};
use crate::signals::signal;
use icl_lexer::{Bind, Design, Expr, Module, PortKind, Sig};
use ij_bits::{List, OutOfMemory};
use ij_io::{SureSink, Word, put_words};
use std::alloc::Global;

/// The name of SIB j of instrument i, both counted from 1.
#[tactic(auto, unfolding(crate::specs::Network::sib_name, ij_io::specs::Words::words_text))]
fn sib_name(alloc: Global, i: u32, j: u32) -> Result<SureSink, OutOfMemory>
    ensures { IfOk result (λ name. name ≡ sib_name i j) }
{
    let mut name = SureSink::new(alloc);
    let words = [
        Word::Text(b"s"),
        Word::Number(u64::from(i)),
        Word::Text(b"_"),
        Word::Number(u64::from(j)),
    ];
    match put_words(&mut name, &words) {
        Ok(()) => Ok(name),
        Err(_) => Err(OutOfMemory),
    }
}

/// The name of the register of instrument i.
#[tactic(auto, unfolding(crate::specs::Network::wrap_name, ij_io::specs::Words::words_text))]
fn wrap_name(alloc: Global, i: u32) -> Result<SureSink, OutOfMemory>
    ensures { IfOk result (λ name. name ≡ wrap_name i) }
{
    let mut name = SureSink::new(alloc);
    match put_words(&mut name, &[Word::Text(b"w"), Word::Number(u64::from(i))]) {
        Ok(()) => Ok(name),
        Err(_) => Err(OutOfMemory),
    }
}

/// What SIB j of instrument i scans in from: the SIB next to it outwards, or the outermost one of the
/// instrument before, or the module's port.
fn bind_scan_in(alloc: Global, i: u32, j: u32) -> Result<Bind, OutOfMemory>
    requires instrument { 1 ≤ i }
    requires sib { 1 ≤ j }
    ensures { IfOk result (λ bind. seen_bind bind ≡ bound (codes "SI") (outer_of i j)) }
{
    if 1 < j {
        let outer = sib_name(alloc, i, j - 1)?;
        return bound(alloc, b"SI", &[outer.bytes(), b"toSI"]);
    }
    if 1 < i {
        let before = sib_name(alloc, i - 1, 1)?;
        return bound(alloc, b"SI", &[before.bytes(), b"SO"]);
    }
    bound(alloc, b"SI", &[b"SI"])
}

/// What is next to SIB j of instrument i inwards: the next SIB, or the register.
fn inner_name(alloc: Global, i: u32, sibs: u32, j: u32) -> Result<SureSink, OutOfMemory>
    requires { j ≤ sibs }
    ensures { IfOk result (λ name. name ≡ inner_of i sibs j) }
{
    if j == sibs {
        wrap_name(alloc, i)
    } else {
        sib_name(alloc, i, j + 1)
    }
}

/// SIB j of instrument i.
#[tactic(auto, unfolding(crate::specs::Parts::HasAdded))]
fn add_sib(alloc: Global, i: u32, sibs: u32, j: u32, items: &mut Items) -> Result<(), OutOfMemory>
    requires instrument { 1 ≤ i }
    requires sib { 1 ≤ j }
    requires inside { j ≤ sibs }
    ensures { OnOk result (HasAdded items.old items.new (sib_item i sibs j ∷ [])) }
{
    let inner = inner_name(alloc, i, sibs, j)?;
    let mut binds = List::new(alloc);
    binds.push(bind_scan_in(alloc, i, j)?)?;
    binds.push(bound(alloc, b"fromSO", &[inner.bytes(), b"SO"])?)?;
    let name = sib_name(alloc, i, j)?;
    items.instance(name.bytes(), b"Sib", binds)
}

/// The SIBs of instrument i, the outermost one first.
#[tactic(auto, unfolding(crate::specs::Parts::HasAdded))]
fn add_sibs(alloc: Global, i: u32, sibs: u32, items: &mut Items) -> Result<(), OutOfMemory>
    requires { 1 ≤ i }
    ensures { OnOk result (HasAdded items.old items.new (sib_items i sibs 1 sibs)) }
{
    for j in 0..sibs {
        add_sib(alloc, i, sibs, j + 1, items)?;
    }
    Ok(())
}

/// Adds the instance of the register of instrument i, which its innermost SIB selects.
#[tactic(auto, unfolding(crate::specs::Parts::HasAdded))]
fn add_wrap_instance(
    alloc: Global,
    i: u32,
    instrument: Instrument,
    items: &mut Items,
) -> Result<(), OutOfMemory>
    ensures { OnOk result (HasAdded items.old items.new (wrap_item i instrument.sibs instrument.width ∷ [])) }
{
    let innermost = sib_name(alloc, i, instrument.sibs)?;
    let width = Expr::Decimal(instrument.width.bits());
    let mut binds = List::new(alloc);
    binds.push(bound(alloc, b"SI", &[innermost.bytes(), b"toSI"])?)?;
    binds.push(bound(alloc, b"SEL", &[innermost.bytes(), b"toSEL"])?)?;
    binds.push(bound_width(alloc, width)?)?;
    let name = wrap_name(alloc, i)?;
    items.instance(name.bytes(), b"Wrap", binds)
}

/// The SIBs of instrument i, then its register.
#[tactic(auto, unfolding(crate::specs::Parts::HasAdded))]
fn add_chain(
    alloc: Global,
    i: u32,
    instrument: Instrument,
    items: &mut Items,
) -> Result<(), OutOfMemory>
    requires { 1 ≤ i }
    ensures { OnOk result (HasAdded items.old items.new (chain_items i instrument)) }
{
    add_sibs(alloc, i, instrument.sibs, items)?;
    add_wrap_instance(alloc, i, instrument, items)
}

/// The SIBs and the register of each instrument.
#[tactic(auto, unfolding(crate::specs::Parts::HasAdded))]
fn add_chains(
    alloc: Global,
    instruments: &List<Instrument>,
    items: &mut Items,
) -> Result<(), OutOfMemory>
    requires { length instruments.now.items ≤ 64 }
    ensures { OnOk result (HasAdded items.old items.new (numbered chain_items 1 instruments.now.items)) }
{
    for i in 0..instruments.len() {
        add_chain(alloc, i as u32 + 1, *instruments.get(i), items)?;
    }
    Ok(())
}

/// The output of the last SIB.
fn last_output(alloc: Global, size: u32) -> Result<Sig, OutOfMemory>
    ensures { IfOk result (λ sig. seen_sig sig ≡ signal (sib_name size 1 ∷ codes "SO" ∷ [])) }
{
    let last = sib_name(alloc, size, 1)?;
    signal(alloc, &[last.bytes(), b"SO"])
}

/// The ports of the network.
#[tactic(auto, unfolding(crate::specs::Parts::HasAdded))]
fn add_net_ports(alloc: Global, size: u32, items: &mut Items) -> Result<(), OutOfMemory>
    ensures { OnOk result (HasAdded items.old items.new (net_ports size)) }
{
    items.port(PortKind::ScanInPort, b"SI")?;
    let source = last_output(alloc, size)?;
    items.sourced(PortKind::ScanOutPort, b"SO", source)?;
    items.interface(b"client", &[b"SI", b"SO"])
}

/// The network.
#[tactic(auto, unfolding(crate::specs::Parts::HasAdded))]
fn net_module(alloc: Global, instruments: &List<Instrument>) -> Result<Module, OutOfMemory>
    requires { length instruments.now.items ≤ 64 }
    ensures { IfOk result (λ m. seen_module m ≡ net_module instruments.now.items) }
{
    let mut items = Items::new(alloc);
    add_net_ports(alloc, instruments.len() as u32, &mut items)?;
    add_chains(alloc, instruments, &mut items)?;
    items.into_module(b"Net")
}

/// The design with these instruments.
#[tactic(auto, unfolding(crate::specs::Network::made_design))]
pub(crate) fn made_design(
    alloc: Global,
    instruments: &List<Instrument>,
) -> Result<Design, OutOfMemory>
    requires { length instruments.now.items ≤ 64 }
    ensures { IfOk result (λ design. seen_design design ≡ made_design instruments.now.items) }
{
    let mut modules = List::new(alloc);
    modules.push(sib_module(alloc)?)?;
    modules.push(ins_module(alloc)?)?;
    modules.push(wrap_module(alloc)?)?;
    modules.push(net_module(alloc, instruments)?)?;
    modules.push(chip_module(alloc)?)?;
    Ok(Design { modules })
}
