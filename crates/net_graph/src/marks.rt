// Numbers at register bits.
ghost use Rattle.std.specs.Prelude.{◌≡◌, IfOk};
ghost use Rattle.net_graph.specs.Marks.{HasMark, mark_at, set_mark, zero_marks, zeros};

use crate::net::{BitId, Net};
use ij_bits::{List, OutOfMemory};
use std::alloc::Global;
use std::marker::Model;

/// A number for each bit of the scan registers of a network (IEEE 1687-2014, ICL: `ScanRegister`).
///
/// Contracts see a list of numbers for each register in the order of [`Net::regs`], position 0 nearest TDO.
#[derive(Drop)]
pub struct BitMarks {
    regs: Vec<List<u32>>,
}

impl Model for BitMarks {
    ghost use Rattle.std.specs.Prelude.{ℕ, List, map};

    ghost Value = { List (List ℕ) };

    ghost view = { λ m. map (λ marks. marks.items) m.regs.items };
}

/// This many zeros.
fn zeros(alloc: Global, width: u32) -> Result<List<u32>, OutOfMemory>
    ensures { IfOk result (λ marks. marks.items ≡ zeros width) }
{
    Ok(List::from(vec![in alloc; 0u32; width as usize]?))
}

impl BitMarks {
    /// The number 0 at each bit of a network.
    pub fn zeros(alloc: Global, net: &Net) -> Result<BitMarks, OutOfMemory>
        ensures { IfOk result (λ marks. marks ≡ zero_marks net.now) }
    {
        let mut regs = Vec::new(alloc);
        for reg in net.regs.as_slice() {
            regs.push(zeros(alloc, reg.width)?)?;
        }
        Ok(BitMarks { regs })
    }

    /// The number at a bit, 0 where there is none. Takes no memory.
    pub fn get(&self, bit: BitId) -> u32
        ensures { result ≡ mark_at self.now bit }
    {
        let reg = bit.reg as usize;
        let pos = bit.pos as usize;
        if reg < self.regs.len() && pos < self.regs[reg].len() {
            *self.regs[reg].get(pos)
        } else {
            0
        }
    }

    /// Makes one bit have this number. Takes no memory.
    pub fn set(&mut self, bit: BitId, number: u32)
        requires { HasMark self.old bit }
        ensures { self.new ≡ set_mark self.old bit number }
    {
        self.regs[bit.reg as usize].set(bit.pos as usize, number);
    }
}
