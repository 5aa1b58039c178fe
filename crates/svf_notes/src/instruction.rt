// Instruction scans.
ghost use Rattle.std.specs.Prelude.{◌≡◌, ◌<◌, ◌≤◌, ◌+◌, ◌*◌, ◌/◌, ◌^◌, ◌++◌, Some, codes, decimal, length};
ghost use Rattle.std.specs.Prelude.{IfOk, OnOk};
ghost use Rattle.ij_io.specs.Bytes.{Adds};
ghost use Rattle.net_bench.specs.Board.{seen_register};
ghost use Rattle.svf_notes.specs.Notes as notes;

use crate::bits::ScanBits;
use ij_bits::Bits;
use ij_io::{Sink, StoreFault, SureSink, Word, put_words};
use net_bench::{DataRegister, selected_by};
use net_graph::Device;

/// Writes the n lowest hexadecimal digits, the highest first.
fn put_hex_digits(bits: &Bits, n: u32, note: &mut SureSink) -> Result<(), StoreFault>
    requires { 4 * n < length bits.now.items + 4 }
    ensures { OnOk result (Adds (Some note.old) (Some note.new) (notes.hex_digits bits.now.items n)) }
{
    for j in 0..n {
        note.write(&[bits.hex_digit(n - 1 - j)])?;
    }
    Ok(())
}

/// What a data register is called.
pub(crate) fn register_name(register: DataRegister) -> &'static [u8]
    ensures { result.now ≡ notes.selected_name (seen_register register) }
{
    match register {
        DataRegister::Network => b" network",
        DataRegister::Identity => b" identity",
        DataRegister::Bypass => b" bypass",
    }
}

/// Writes that a scan has another length than what it goes through.
#[tactic(auto, unfolding(ij_io::specs::Words::words_text))]
pub(crate) fn put_other_length(
    register: &[u8],
    bits: u64,
    len: u64,
    note: &mut SureSink,
) -> Result<(), StoreFault>
    ensures { OnOk result (Adds (Some note.old) (Some note.new) (notes.other_length register.now bits len)) }
{
    put_words(
        note,
        &[
            Word::Text(b" has "),
            Word::Number(bits),
            Word::Text(b" bits, the "),
            Word::Text(register),
            Word::Number(len),
        ],
    )
}

/// Writes an opcode and what it selects.
fn put_opcode(device: &Device, opcode: &Bits, note: &mut SureSink) -> Result<(), StoreFault>
    requires { length opcode.now.items ≡ device.now.ir }
    ensures { OnOk result
        (Adds (Some note.old) (Some note.new) (notes.opcode_text device.now opcode.now.items)) }
{
    note.write(b" instruction ")?;
    put_hex_digits(opcode, opcode.len().div_ceil(4), note)?;
    note.write(register_name(selected_by(device, opcode)))?;
    Ok(())
}

/// Writes an instruction and what it selects, or that it hasn't the length of the instruction register.
pub(crate) fn put_instruction(
    device: &Device,
    bits: &ScanBits,
    note: &mut SureSink,
) -> Result<(), StoreFault>
    ensures { OnOk result
        (Adds (Some note.old) (Some note.new) (notes.instruction_text device.now bits.now.items)) }
{
    let count = u64::from(bits.len());
    let ir = u64::from(device.ir);
    if count == ir {
        put_opcode(device, bits.tdi(), note)
    } else {
        put_other_length(b"instruction register ", count, ir, note)
    }
}
