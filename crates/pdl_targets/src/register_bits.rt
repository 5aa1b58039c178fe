// The register bits that the bits of a target stand for.
ghost use Rattle.std.specs.Prelude.{◌≡◌, ◌<◌, ◌^◌, length, Some};
ghost use Rattle.ij_text.specs.Numbers.{tern_bits};
ghost use Rattle.pdl_targets.specs.Captors.{AreCaptors};
ghost use Rattle.pdl_targets.specs.Marked.{AreSelects};
ghost use Rattle.pdl_targets.specs.Seen.{Finds};
ghost use Rattle.pdl_targets.specs.Targets.{read_bit, reads_of, write_bit, writes_of, compared, written};

use crate::captors::{Captors, compared};
use crate::fault::TargetFault;
use crate::picks::{Picked, flip_if, select_compared, written};
use crate::values::value_at;
use ij_bits::{List, Tern};
use ij_text::Place;
use net_graph::{BitMarks, Net, ReadBit, SpotPart, WriteBit, is_marked_select};
use std::alloc::Global;

/// The write of a bit that stands for a register bit.
fn write_bit(
    net: &Net,
    selects: &BitMarks,
    at: Place,
    picked: Option<Picked>,
    value: bool,
) -> Result<WriteBit, TargetFault>
    requires { AreSelects net.now selects.now }
    ensures { Finds (λ w. w) (write_bit net.now at picked value) result }
{
    let Some(picked) = picked else {
        return Err(TargetFault::NotWritable { at });
    };
    let bit = picked.bit;
    if is_marked_select(net, selects, bit) {
        return Err(TargetFault::SelectTarget { at, bit });
    }
    Ok(WriteBit {
        bit,
        value: flip_if(picked.inverted, value),
    })
}

/// The read of a bit that stands for a register bit, by the iRead of this number, at this index of what it
/// names.
fn read_bit(
    net: &Net,
    selects: &BitMarks,
    at: Place,
    read: u32,
    index: u32,
    picked: Option<Picked>,
    value: bool,
) -> Result<ReadBit, TargetFault>
    requires { AreSelects net.now selects.now }
    ensures { Finds (λ r. r) (read_bit net.now at read index picked value) result }
{
    let Some(picked) = picked else {
        return Err(TargetFault::NotReadable { at });
    };
    if let Some(bit) = select_compared(net, selects, picked.bit) {
        return Err(TargetFault::SelectTarget { at, bit });
    }
    Ok(ReadBit {
        bit: picked.bit,
        expect: flip_if(picked.inverted, value),
        read,
        line: at.line,
        index,
    })
}

/// The writes of a step, position 0 first.
pub(crate) fn writes_of(
    alloc: Global,
    net: &Net,
    selects: &BitMarks,
    at: Place,
    spots: &SpotPart<'_>,
    values: &Tern,
) -> Result<List<WriteBit>, TargetFault>
    requires selects { AreSelects net.now selects.now }
    requires few { length spots.now < 2 ^ 32 }
    requires wide { length values.now.value.items ≡ length spots.now }
    ensures { Finds (λ ws. ws.items) (writes_of net.now at spots.now (tern_bits values.now)) result }
{
    let mut writes = List::new(alloc);
    for i in 0..spots.len() {
        let spot = spots.get(i);
        match value_at(values, i) {
            Some(value) => match write_bit(net, selects, at, written(spot), value) {
                Ok(write) => writes.push(write)?,
                Err(fault) => return Err(fault),
            },
            None => {}
        }
    }
    Ok(writes)
}

/// The reads of a step, which is the iRead of this number, position 0 first.
pub(crate) fn reads_of(
    alloc: Global,
    net: &Net,
    selects: &BitMarks,
    captors: &Captors,
    at: Place,
    read: u32,
    spots: &SpotPart<'_>,
    values: &Tern,
) -> Result<List<ReadBit>, TargetFault>
    requires selects { AreSelects net.now selects.now }
    requires captors { AreCaptors net.now captors.now.slots.items }
    requires few { length spots.now < 2 ^ 32 }
    requires wide { length values.now.value.items ≡ length spots.now }
    ensures { Finds (λ rs. rs.items) (reads_of net.now at read 0 spots.now (tern_bits values.now)) result }
{
    let mut reads = List::new(alloc);
    for i in 0..spots.len() {
        let spot = spots.get(i);
        match value_at(values, i) {
            Some(value) => {
                let picked = compared(net, captors, spot);
                match read_bit(net, selects, at, read, i, picked, value) {
                    Ok(bit) => reads.push(bit)?,
                    Err(fault) => return Err(fault),
                }
            }
            None => {}
        }
    }
    Ok(reads)
}
