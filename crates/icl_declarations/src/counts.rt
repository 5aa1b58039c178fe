// What is counted over all cells, and its limits.
ghost use Rattle.std.specs.Prelude.{◌≡◌, ◌≤◌, ◌+◌, ◌<◌, ◌&&◌, map, count_by, IfOk, nat_lt};
ghost use Rattle.std.specs.List.{list_any};
ghost use Rattle.ij_text.specs.Options.{same};
ghost use Rattle.icl_lexer.specs.Views.{seen_what, seen_prop, seen_item, seen_module};
ghost use Rattle.icl_declarations.specs.Faults.{Gives};
ghost use Rattle.icl_declarations.specs.Parts.{is_source, is_data_port, is_barred_in_instrument};
ghost use Rattle.icl_declarations.specs.Parts.{is_instrument};
ghost use Rattle.icl_declarations.specs.Parts.{is_part, port_that, is_data_in, is_data_out};
ghost use Rattle.icl_declarations.specs.Ranges.{width};
ghost use Rattle.icl_declarations.specs.Counting.{count_part, count_instrument, has_wide_port};

use crate::fault::ElabFault;
use crate::kinds::{is_data_in_port, is_data_out_port, is_part};
use crate::ranges::{Bounds, width};
use icl_lexer::{Item, Module, PortKind, Prop, What};
use ij_text::Which;

/// What is counted over all cells.
#[derive(Clone, Copy, Drop)]
pub struct Counts {
    /// The bits of scan registers.
    pub bits: u32,
    /// The scan multiplexers.
    pub muxes: u32,
    /// The instruments.
    pub instruments: u32,
}

/// One part more.
pub fn count_part(c: Counts, b: Bounds, what: &What) -> Result<Counts, ElabFault>
    requires { c.bits ≤ 4096 }
    ensures few { IfOk result (λ d. d.bits ≤ 4096) }
    ensures gives { Gives same result (count_part c b (seen_what what.now)) }
{
    match what {
        What::Register { .. } => {
            let bits = u64::from(c.bits) + width(b);
            if bits > 4096 {
                return Err(ElabFault::Limit {
                    which: Which::ScanBits,
                    number: 4096,
                });
            }
            Ok(Counts {
                bits: bits as u32,
                muxes: c.muxes,
                instruments: c.instruments,
            })
        }
        What::Mux { .. } => {
            if c.muxes >= 1024 {
                return Err(ElabFault::Limit {
                    which: Which::Muxes,
                    number: 1024,
                });
            }
            Ok(Counts {
                bits: c.bits,
                muxes: c.muxes + 1,
                instruments: c.instruments,
            })
        }
        _ => Ok(c),
    }
}

fn is_source(prop: &Prop) -> bool
    ensures { result ≡ is_source (seen_prop prop.now) }
{
    matches!(prop, Prop::Source(_))
}

fn has_source(props: &[Prop]) -> bool
    ensures { result ≡ list_any is_source (map seen_prop props.now) }
{
    for prop in props {
        if is_source(prop) {
            return true;
        }
    }
    false
}

/// A data port.
pub fn is_data_port(what: &What) -> bool
    ensures { result ≡ is_data_port (seen_what what.now) }
{
    match what {
        What::Port { kind, .. } => matches!(kind, PortKind::DataInPort | PortKind::DataOutPort),
        _ => false,
    }
}

/// What an instrument may not have.
fn is_barred_in_instrument(what: &What) -> bool
    ensures { result ≡ is_barred_in_instrument (seen_what what.now) }
{
    match what {
        What::Port { kind, props, .. } => match kind {
            PortKind::ScanInPort | PortKind::ScanOutPort => true,
            PortKind::DataOutPort => has_source(props.as_slice()),
            _ => false,
        },
        What::Register { .. } | What::Mux { .. } | What::Child { .. } => true,
        _ => false,
    }
}

fn has_data_port(items: &[Item]) -> bool
    ensures { result ≡ list_any (λ item. is_data_port item.what) (map seen_item items.now) }
{
    for item in items {
        if is_data_port(&item.what) {
            return true;
        }
    }
    false
}

fn has_barred_in_instrument(items: &[Item]) -> bool
    ensures { result ≡ list_any (λ item. is_barred_in_instrument item.what) (map seen_item items.now) }
{
    for item in items {
        if is_barred_in_instrument(&item.what) {
            return true;
        }
    }
    false
}

/// A module whose instances are instruments.
pub fn is_instrument(block: &Module) -> bool
    ensures { result ≡ is_instrument (seen_module block.now) }
{
    has_data_port(block.items.as_slice()) && !has_barred_in_instrument(block.items.as_slice())
}

/// Whether a module has more than 16 data inputs.
fn has_many_inputs(items: &[Item]) -> bool
    ensures { result
        ≡ nat_lt 16 (count_by (λ item. port_that is_data_in item.what) (map seen_item items.now)) }
{
    let mut count: usize = 0;
    for item in items {
        if is_data_in_port(&item.what) {
            count += 1;
        }
    }
    count > 16
}

/// Whether a module has more than 16 data outputs.
fn has_many_outputs(items: &[Item]) -> bool
    ensures { result
        ≡ nat_lt 16 (count_by (λ item. port_that is_data_out item.what) (map seen_item items.now)) }
{
    let mut count: usize = 0;
    for item in items {
        if is_data_out_port(&item.what) {
            count += 1;
        }
    }
    count > 16
}

/// Whether a data port has more than 64 bits.
fn is_wide_port(what: &What, b: Bounds) -> bool
    ensures { result ≡ (is_data_port (seen_what what.now) && nat_lt 64 (width b)) }
{
    is_data_port(what) && width(b) > 64
}

/// Whether a module whose parts have these bounds has a data port of more than 64 bits.
fn has_wide_port(block: &Module, bounds: &[Bounds]) -> bool
    ensures { result ≡ has_wide_port (seen_module block.now) bounds.now }
{
    let mut part: usize = 0;
    for item in block.items.as_slice() {
        if is_part(&item.what) {
            if part == bounds.len() {
                return false;
            }
            if is_wide_port(&item.what, bounds[part]) {
                return true;
            }
            part += 1;
        }
    }
    false
}

/// One instrument more, of a module whose parts have these bounds.
pub fn count_instrument(block: &Module, bounds: &[Bounds], c: Counts) -> Result<Counts, ElabFault>
    ensures few { IfOk result (λ d. d.bits ≡ c.bits) }
    ensures gives { Gives same result (count_instrument (seen_module block.now) bounds.now c) }
{
    if c.instruments >= 256 {
        return Err(ElabFault::Limit {
            which: Which::Instruments,
            number: 256,
        });
    }
    if has_many_inputs(block.items.as_slice()) || has_many_outputs(block.items.as_slice()) {
        return Err(ElabFault::Limit {
            which: Which::Ports,
            number: 16,
        });
    }
    if has_wide_port(block, bounds) {
        return Err(ElabFault::Limit {
            which: Which::PortBits,
            number: 64,
        });
    }
    Ok(Counts {
        bits: c.bits,
        muxes: c.muxes,
        instruments: c.instruments + 1,
    })
}
