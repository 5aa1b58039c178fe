// The data register that an instruction selects.
ghost use Rattle.std.specs.Prelude.{◌≡◌, length};
ghost use Rattle.net_bench.specs.Board.{seen_register};
ghost use Rattle.net_bench.specs.Instruction.{selected};

use crate::stages::is_number;
use ij_bits::Bits;
use net_graph::Device;

/// The data register that an instruction selects (IEEE 1149.1-2013, clauses 9 to 12).
#[derive(Clone, Copy)]
pub enum DataRegister {
    /// The network, by the access link's instruction.
    Network,
    /// The identity register.
    Identity,
    /// The bypass register.
    Bypass,
}

/// What an instruction selects: the link's opcode the network, the identity opcode the identity register,
/// every other one bypass (IEEE 1149.1-2013, clauses 8 to 12). Position 0 of the instruction is nearest TDO.
/// It takes no memory.
pub fn selected_by(device: &Device, ir: &Bits) -> DataRegister
    requires { length ir.now.items ≡ device.now.ir }
    ensures { seen_register result ≡ selected device.now ir.now.items }
{
    if is_number(ir, device.opcode) {
        return DataRegister::Network;
    }
    match device.idcode {
        Some((_, opcode)) => if is_number(ir, opcode) {
            DataRegister::Identity
        } else {
            DataRegister::Bypass
        },
        None => DataRegister::Bypass,
    }
}
