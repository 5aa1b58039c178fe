// The device's text (IEEE 1149.1-2013).
ghost use Rattle.std.specs.Prelude.{◌≤◌, length, IfOk};
ghost use Rattle.net_graph.specs.Devices.{IsDevice};
ghost use Rattle.ijtag_stages.specs.DeviceText.{device_text, device_fault};
ghost use Rattle.ijtag_stages.specs.Follows.{Follows, IsToldAs};

use crate::refusal::{Stage, StageFault, refused_at};
use bench_file::DeviceFault;
use net_graph::Device;
use std::alloc::Global;

/// How a fault is reported.
fn refusal_of(alloc: Global, fault: DeviceFault) -> StageFault
    ensures { IsToldAs (device_fault fault) result }
{
    match fault {
        DeviceFault::DevSyntax { at } => refused_at(alloc, Stage::Device, b"DevSyntax", at),
        DeviceFault::OpcodeWide { at } => refused_at(alloc, Stage::Device, b"OpcodeWide", at),
        DeviceFault::OpcodeOnes { at } => refused_at(alloc, Stage::Device, b"OpcodeOnes", at),
        DeviceFault::OpcodeTwice { at } => refused_at(alloc, Stage::Device, b"OpcodeTwice", at),
        DeviceFault::OutOfMemory => StageFault::OutOfMemory,
    }
}

/// The device of a text. Where a line is at fault, the fault says where and why.
#[tactic(auto, unfolding(crate::specs::DeviceText::device_text))]
pub fn read_device(alloc: Global, text: &[u8]) -> Result<Device, StageFault>
    requires { length text.now ≤ 134217728 }
    ensures follows { Follows (device_text text.now) (λ d. d) result }
    ensures valid { IfOk result IsDevice }
{
    match bench_file::read_device(alloc, text) {
        Ok(device) => Ok(device),
        Err(fault) => Err(refusal_of(alloc, fault)),
    }
}
