// What register bits are used for, in flags that are made once for all muxes.
ghost use Rattle.std.specs.Prelude.{◌≡◌, ◌↔◌, true, IsTrue, All, IfOk};
ghost use Rattle.net_graph.specs.Held.{AreHolds};
ghost use Rattle.net_graph.specs.Named.{IsBitOf, IsInputOf};
ghost use Rattle.net_graph.specs.Nets.{IsInst, IsNet};
ghost use Rattle.net_graph.specs.Path.{select_bits};
ghost use Rattle.net_graph.specs.Resets.{zero_holds};
ghost use Rattle.net_tree.specs.Lawful.{IsUnshared, DrivesNone};
ghost use Rattle.nest_check.specs.Uses as uses;

use ij_bits::OutOfMemory;
use net_graph::{BitId, Holds, Inst, Net, PortIn, Sig};
use std::alloc::Global;

/// Flags of the register bits that were met among select bits.
#[derive(Drop)]
pub(crate) struct Selecting {
    /// Bits that were met.
    pub once: Holds,
    /// Bits that were met twice.
    pub twice: Holds,
}

/// Flags of the register bits by what they are used for.
#[derive(Drop)]
pub(crate) struct Uses {
    /// Bits that stand twice among all select bits.
    pub shared: Holds,
    /// Bits that drive an input of an instrument.
    pub drivers: Holds,
}

impl Selecting {
    /// Notes a select bit.
    fn note(&mut self, net: &Net, bit: BitId)
        requires flags { uses.HaveFlags net.now (uses.selected_of self.old) }
        requires there { IsBitOf net.now bit }
        ensures { uses.selected_of self.new ≡ uses.note (uses.selected_of self.old) bit }
    {
        if self.once.get(bit) {
            self.twice.set(bit, true);
        } else {
            self.once.set(bit, true);
        }
    }

    /// Notes the select bits of a mux.
    fn note_select_bits(&mut self, net: &Net, select: &[BitId])
        requires flags { uses.HaveFlags net.now (uses.selected_of self.old) }
        requires there { All (IsBitOf net.now) select.now }
        ensures { uses.selected_of self.new ≡ uses.note_select_bits (uses.selected_of self.old) select.now }
    {
        for bit in select {
            self.note(net, *bit);
        }
    }
}

/// Notes the select bits of all muxes.
fn selecting_bits(alloc: Global, net: &Net) -> Result<Selecting, OutOfMemory>
    requires { IsNet net.now }
    ensures { IfOk result (λ s. uses.selected_of s
        ≡ uses.note_select_bits (uses.no_flags net.now) (select_bits net.now)) }
{
    let mut selecting = Selecting {
        once: Holds::zeros(alloc, net)?,
        twice: Holds::zeros(alloc, net)?,
    };
    for mux in net.muxes.as_slice() {
        selecting.note_select_bits(net, mux.select.as_slice());
    }
    Ok(selecting)
}

/// Flags the bit that drives an input.
fn flag_input(flags: &mut Holds, net: &Net, input: Sig)
    requires flags { AreHolds net.now flags.old }
    requires there { IsInputOf net.now input }
    ensures { flags.new ≡ uses.driving flags.old input }
{
    if let Sig::Bit { bit, inverted: _ } = input {
        flags.set(bit, true);
    }
}

/// Flags the bits that drive a port.
fn flag_port(flags: &mut Holds, net: &Net, port: &PortIn)
    requires flags { AreHolds net.now flags.old }
    requires there { All (IsInputOf net.now) port.now.bits.items }
    ensures { flags.new ≡ uses.driving_all flags.old port.now.bits.items }
{
    for input in port.bits.as_slice() {
        flag_input(flags, net, *input);
    }
}

/// Flags the bits that drive an instrument.
fn flag_inst(flags: &mut Holds, net: &Net, inst: &Inst)
    requires flags { AreHolds net.now flags.old }
    requires well_formed { IsInst net.now inst.now }
    ensures { flags.new ≡ uses.driving_all flags.old (uses.inputs_of inst.now) }
{
    for port in inst.ins.as_slice() {
        flag_port(flags, net, port);
    }
}

/// Flags the bits that drive some instrument.
fn drivers(alloc: Global, net: &Net) -> Result<Holds, OutOfMemory>
    requires { IsNet net.now }
    ensures { IfOk result (λ flags. flags ≡ uses.driving_all (zero_holds net.now) (uses.inputs net.now)) }
{
    let mut flags = Holds::zeros(alloc, net)?;
    for inst in net.insts.as_slice() {
        flag_inst(&mut flags, net, inst);
    }
    Ok(flags)
}

/// What the register bits of a network are used for.
pub(crate) fn uses_of(alloc: Global, net: &Net) -> Result<Uses, OutOfMemory>
    requires { IsNet net.now }
    ensures { IfOk result (uses.AreUses net.now) }
{
    let selecting = selecting_bits(alloc, net)?;
    let drivers = drivers(alloc, net)?;
    Ok(Uses {
        shared: selecting.twice,
        drivers,
    })
}

impl Uses {
    /// Whether a bit is at most once among all select bits.
    pub fn is_unshared(&self, net: &Net, bit: BitId) -> bool
        requires uses { uses.AreUses net.now self.now }
        requires there { IsBitOf net.now bit }
        ensures { IsTrue result ↔ IsUnshared net.now bit }
    {
        !self.shared.get(bit)
    }

    /// Whether a bit drives no instrument.
    pub fn drives_none(&self, net: &Net, bit: BitId) -> bool
        requires uses { uses.AreUses net.now self.now }
        requires there { IsBitOf net.now bit }
        ensures { IsTrue result ↔ DrivesNone net.now bit }
    {
        !self.drivers.get(bit)
    }
}
