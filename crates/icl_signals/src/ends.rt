// What the end of a trace is in the network: a data signal, or where a scan path comes from.
ghost use Rattle.std.specs.Prelude.{◌≡◌, false};
ghost use Rattle.ij_text.specs.Options.{same};
ghost use Rattle.icl_elab.specs.WellFormed.{is_mux};
ghost use Rattle.icl_signals.specs.Refusals.{Gives};
ghost use Rattle.icl_signals.specs.Wirings.{IsWiring, cells_of};
ghost use Rattle.icl_signals.specs.Moves.{driver_of};
ghost use Rattle.icl_signals.specs.TrueEnds.{IsTrueEnd};
ghost use Rattle.net_graph.specs.declared.net.Sig.TheVariants.{Out};
ghost use Rattle.icl_signals.specs.declared.wires.Driver.TheVariants.{ARegisterBit, AMuxOutput};
ghost use Rattle.icl_signals.specs.declared.wires.Driver.TheVariants.{AnInstrumentOutput};
ghost use Rattle.icl_signals.specs.Connecting.{constant, register_bit, data_end, scan_end, data_from};
ghost use Rattle.icl_signals.specs.Connecting.{scan_from, select_from, input_from, signal_from, or_absent};
ghost use Rattle.icl_signals.specs.Connecting.{number_among, instrument_number, output_number};

use crate::ConnectFault;
use crate::following::trace;
use crate::numbers::{number_at, number_of};
use crate::wires::{Driver, End, Wire};
use crate::wiring::Wiring;
use icl_elab::Ref;
use ij_text::Place;
use net_graph::{BitId, Point, Sig};

pub(crate) fn constant(b: bool) -> Sig
    ensures { result ≡ constant b }
{
    if b { Sig::One } else { Sig::Zero }
}

/// The register bit that a bit is.
pub(crate) fn register_bit(wiring: &Wiring, wire: Wire) -> BitId
    requires wiring { IsWiring wiring.now }
    requires stands { driver_of (cells_of wiring.now) wiring.now.entry wire ≡ ARegisterBit }
    ensures { result ≡ register_bit (cells_of wiring.now) wire }
{
    BitId {
        reg: number_at(wiring.registers.as_slice(), wire.cell, wire.part),
        pos: wire.pos,
    }
}

/// The multiplexer whose output a bit is.
fn mux_number(wiring: &Wiring, wire: Wire) -> u32
    requires wiring { IsWiring wiring.now }
    requires stands { driver_of (cells_of wiring.now) wiring.now.entry wire ≡ AMuxOutput }
    ensures { result ≡ number_among is_mux (cells_of wiring.now) wire.cell wire.part }
{
    number_at(wiring.muxes.as_slice(), wire.cell, wire.part)
}

/// The number of the instrument whose output a bit is.
fn instrument_number(wiring: &Wiring, wire: Wire) -> u32
    requires wiring { IsWiring wiring.now }
    requires stands { driver_of (cells_of wiring.now) wiring.now.entry wire ≡ AnInstrumentOutput }
    ensures { result ≡ instrument_number (cells_of wiring.now) wire.cell }
{
    number_of(wiring.instrument_numbers.as_slice(), wire.cell)
}

/// The number, among the outputs of its instrument, of the one that a bit is of.
fn output_number(wiring: &Wiring, wire: Wire) -> u32
    requires wiring { IsWiring wiring.now }
    requires stands { driver_of (cells_of wiring.now) wiring.now.entry wire ≡ AnInstrumentOutput }
    ensures { result ≡ output_number (cells_of wiring.now) wire.cell wire.part }
{
    number_at(wiring.outputs.as_slice(), wire.cell, wire.part)
}

/// The instrument's output that a bit is.
fn output_bit(wiring: &Wiring, wire: Wire, inverted: bool) -> Sig
    requires wiring { IsWiring wiring.now }
    requires stands { driver_of (cells_of wiring.now) wiring.now.entry wire ≡ AnInstrumentOutput }
    ensures { result ≡ Out (instrument_number (cells_of wiring.now) wire.cell)
        (output_number (cells_of wiring.now) wire.cell wire.part) wire.pos inverted }
{
    Sig::Out {
        inst: instrument_number(wiring, wire),
        port: output_number(wiring, wire),
        pos: wire.pos,
        inverted,
    }
}

/// The data signal that an end is.
fn data_end(wiring: &Wiring, at: Place, end: End) -> Result<Sig, ConnectFault>
    requires wiring { IsWiring wiring.now }
    requires told { IsTrueEnd (cells_of wiring.now) wiring.now.entry end }
    ensures { Gives same result (data_end (cells_of wiring.now) at end) }
{
    match end {
        End::AtConstant(b) => Ok(constant(b)),
        End::AtBit {
            wire,
            inverted,
            stands,
        } => match stands {
            Driver::ARegisterBit => Ok(Sig::Bit {
                bit: register_bit(wiring, wire),
                inverted,
            }),
            Driver::AnInstrumentOutput => Ok(output_bit(wiring, wire, inverted)),
            Driver::AFreeInput => Ok(constant(inverted)),
            _ => Err(ConnectFault::Undriven { at }),
        },
        End::InLoop => Err(ConnectFault::SignalLoop { at }),
    }
}

/// Where the scan path comes from whose trace ends so.
fn scan_end(wiring: &Wiring, at: Place, end: End) -> Result<Point, ConnectFault>
    requires wiring { IsWiring wiring.now }
    requires told { IsTrueEnd (cells_of wiring.now) wiring.now.entry end }
    ensures { Gives same result (scan_end (cells_of wiring.now) at end) }
{
    match end {
        End::AtConstant(_) => Err(ConnectFault::Undriven { at }),
        End::AtBit { wire, stands, .. } => match stands {
            Driver::ARegisterBit => Ok(Point::Reg(register_bit(wiring, wire).reg)),
            Driver::AMuxOutput => Ok(Point::Mux(mux_number(wiring, wire))),
            Driver::TheEntry => Ok(Point::Entry),
            _ => Err(ConnectFault::Undriven { at }),
        },
        End::InLoop => Err(ConnectFault::SignalLoop { at }),
    }
}

/// The data signal that a reference leads to.
pub(crate) fn data_from(wiring: &Wiring, at: Place, r: Ref) -> Result<Sig, ConnectFault>
    requires { IsWiring wiring.now }
    ensures { Gives same result (data_from (cells_of wiring.now) wiring.now.entry at r) }
{
    data_end(wiring, at, trace(wiring, r))
}

/// Where the scan path comes from that a reference leads to.
pub(crate) fn scan_from(wiring: &Wiring, at: Place, r: Ref) -> Result<Point, ConnectFault>
    requires { IsWiring wiring.now }
    ensures { Gives same result (scan_from (cells_of wiring.now) wiring.now.entry at r) }
{
    scan_end(wiring, at, trace(wiring, r))
}

/// The register bit that selects: it isn't inverted.
pub(crate) fn select_from(wiring: &Wiring, at: Place, r: Ref) -> Result<BitId, ConnectFault>
    requires { IsWiring wiring.now }
    ensures { Gives same result (select_from (cells_of wiring.now) wiring.now.entry at r) }
{
    match data_from(wiring, at, r)? {
        Sig::Bit {
            bit,
            inverted: false,
        } => Ok(bit),
        _ => Err(ConnectFault::BadSelect { at }),
    }
}

/// What drives an input of an instrument: no instrument.
pub(crate) fn input_from(wiring: &Wiring, at: Place, r: Ref) -> Result<Sig, ConnectFault>
    requires { IsWiring wiring.now }
    ensures { Gives same result (input_from (cells_of wiring.now) wiring.now.entry at r) }
{
    match data_from(wiring, at, r)? {
        Sig::Out { .. } => Err(ConnectFault::InstrumentChain { at }),
        signal => Ok(signal),
    }
}

/// The data signal that an end is, absent where it is none.
pub(crate) fn signal_at(wiring: &Wiring, end: End) -> Sig
    requires wiring { IsWiring wiring.now }
    requires told { IsTrueEnd (cells_of wiring.now) wiring.now.entry end }
    ensures { (at : Place) → result ≡ or_absent (data_end (cells_of wiring.now) at end) }
{
    match end {
        End::AtConstant(b) => constant(b),
        End::AtBit {
            wire,
            inverted,
            stands,
        } => match stands {
            Driver::ARegisterBit => Sig::Bit {
                bit: register_bit(wiring, wire),
                inverted,
            },
            Driver::AnInstrumentOutput => output_bit(wiring, wire, inverted),
            Driver::AFreeInput => constant(inverted),
            _ => Sig::Absent,
        },
        End::InLoop => Sig::Absent,
    }
}
