// What the registers hold while the scans are written, and the bits of a scan.

use crate::access::{at, bit_at, copy_at, put_at, put_bit};
use crate::segments::{Segments, row_segment};
use crate::stop::PlanStop;
use crate::stretch::Set;
use ij_bits::Bits;
use net_graph::{BitId, Net, Point, ReadBit};
use std::alloc::Global;

/// Where a register is on a path.
#[derive(Clone, Copy, Drop)]
struct PathPlace {
    /// The scan of that path.
    scan: u64,
    /// Where its position 0 is, counted from scan-out.
    start: u32,
}

/// The registers, the rows of the muxes, and the scan that is being made.
#[derive(Drop)]
pub(crate) struct Chip {
    alloc: Global,
    /// What each register's update stage holds.
    holds: Vec<Bits>,
    /// The row of each mux.
    rows: Vec<usize>,
    /// Where each register stood last.
    places: Vec<PathPlace>,
    /// The number of the scan, counted from 1.
    scan: u64,
    /// What is shifted in, position 0 (nearest TDO) first.
    pub tdi: Bits,
}

/// The registers at power-up.
pub(crate) fn power_up(alloc: Global, net: &Net) -> Result<Vec<Bits>, PlanStop> {
    let mut holds = Vec::new(alloc);
    for reg in net.regs.as_slice() {
        let mut bits = Bits::zeros(alloc, reg.width)?;
        bits.put_masked(reg.reset.value.bits(), reg.reset.care.bits());
        holds.push(bits)?;
    }
    Ok(holds)
}

/// A reset of the registers.
pub(crate) fn reset(net: &Net, holds: &mut [Bits]) -> Result<(), PlanStop> {
    for r in 0..holds.len() {
        let reg = at(net.regs.as_slice(), r)?;
        holds[r].put_masked(reg.reset.value.bits(), reg.reset.care.bits());
    }
    Ok(())
}

impl Chip {
    /// A chip at power-up.
    pub fn new(alloc: Global, net: &Net, all: &Segments) -> Result<Chip, PlanStop> {
        Ok(Chip {
            alloc,
            holds: power_up(alloc, net)?,
            rows: vec![in alloc; 0; all.muxes.len()]?,
            places: vec![in alloc; PathPlace { scan: 0, start: 0 }; net.regs.len()]?,
            scan: 0,
            tdi: Bits::zeros(alloc, 0)?,
        })
    }

    /// Resets the registers, and so the muxes.
    pub fn reset(&mut self, net: &Net, all: &Segments) -> Result<(), PlanStop> {
        reset(net, &mut self.holds)?;
        self.reset_rows(all)
    }

    /// Brings each mux to its row at reset.
    pub fn reset_rows(&mut self, all: &Segments) -> Result<(), PlanStop> {
        for m in 0..all.muxes.len() {
            put_at(&mut self.rows, m, at(&all.muxes, m)?.reset_row)?;
        }
        Ok(())
    }

    /// Begins a scan, which shifts in what the registers of the active path hold.
    pub fn begin_scan(&mut self, net: &Net) -> Result<(), PlanStop> {
        self.scan = self.scan.checked_add(1).ok_or(PlanStop::NoPlan)?;
        self.tdi.clear();
        let most = net.regs.len().saturating_add(net.muxes.len());
        let mut from = net.out;
        for _ in 0..most.saturating_add(1) {
            match from {
                Point::Entry => return Ok(()),
                Point::Reg(r) => from = self.add_register(net, r as usize)?,
                Point::Mux(m) => {
                    let row = copy_at(&self.rows, m as usize)?;
                    from = at(at(net.muxes.as_slice(), m as usize)?.rows.as_slice(), row)?.from;
                }
            }
        }
        Err(PlanStop::NoPlan)
    }

    /// Adds a register's bits. Answers where the register comes from.
    fn add_register(&mut self, net: &Net, r: usize) -> Result<Point, PlanStop> {
        let reg = at(net.regs.as_slice(), r)?;
        let start = self.tdi.len();
        let bits = at(&self.holds, r)?;
        if start.checked_add(bits.len()).is_none() {
            return Err(PlanStop::NoPlan);
        }
        self.tdi.append(bits)?;
        let place = PathPlace {
            scan: self.scan,
            start,
        };
        put_at(&mut self.places, r, place)?;
        Ok(reg.from)
    }

    /// Where a bit is on the path; `None` where it isn't.
    fn position(&self, bit: BitId) -> Result<Option<u32>, PlanStop> {
        let place = at(&self.places, bit.reg as usize)?;
        if place.scan != self.scan {
            return Ok(None);
        }
        Ok(place.start.checked_add(bit.pos))
    }

    /// Gives a bit a value by the scan, if it hasn't that already.
    pub fn write(&mut self, bit: BitId, value: bool) -> Result<(), PlanStop> {
        let reg = bit.reg as usize;
        if bit_at(at(&self.holds, reg)?, bit.pos)? == value {
            return Ok(());
        }
        let position = self.position(bit)?.ok_or(PlanStop::NoPlan)?;
        put_bit(&mut self.tdi, position, value)?;
        if reg >= self.holds.len() {
            return Err(PlanStop::NoPlan);
        }
        put_bit(&mut self.holds[reg], bit.pos, value)
    }

    /// Writes a select value by the scan, which leaves the mux in its row.
    pub fn write_select(&mut self, net: &Net, all: &Segments, set: Set) -> Result<(), PlanStop> {
        let info = at(&all.rows, row_segment(&all.muxes, set.mux, set.row)?)?;
        let value = if set.early {
            &info.first_value
        } else {
            &info.value
        };
        let mut i: u32 = 0;
        for bit in at(net.muxes.as_slice(), set.mux)?.select.as_slice() {
            self.write(*bit, bit_at(value, i)?)?;
            i = i.saturating_add(1);
        }
        put_at(&mut self.rows, set.mux, set.row)
    }

    /// No bits, as many as the scan has.
    pub fn zeros(&self) -> Result<Bits, PlanStop> {
        let bits = Bits::zeros(self.alloc, self.tdi.len())?;
        Ok(bits)
    }

    /// Puts what is read into what is expected, and marks it.
    pub fn expect(&self, read: &ReadBit, tdo: &mut Bits, mask: &mut Bits) -> Result<(), PlanStop> {
        let position = self.position(read.bit)?.ok_or(PlanStop::NoPlan)?;
        put_bit(tdo, position, read.expect)?;
        put_bit(mask, position, true)
    }
}
