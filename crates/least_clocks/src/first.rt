// The first data scan since power-up.
ghost use Rattle.std.specs.Prelude.{◌≡◌, ◌≤◌, ◌+◌, ◌*◌, ◌^◌, ◌++◌, cond, filter, length, map, not, All, IfOk};
ghost use Rattle.std.specs.List.{list_all};
ghost use Rattle.net_graph.specs.Chain.{IsRoute};
ghost use Rattle.net_graph.specs.Held.{IsHeld};
ghost use Rattle.net_graph.specs.Nets.{IsNet};
ghost use Rattle.net_graph.specs.Path as paths;
ghost use Rattle.net_graph.specs.SeenSteps.{seen_group};
ghost use Rattle.svf_audit.specs.Work as working;
ghost use Rattle.least_clocks.specs.Inside as inside;
ghost use Rattle.least_clocks.specs.Least as least;

use crate::work::has_value;
use ij_bits::{Buffer, List, OutOfMemory};
use net_graph::{Group, Holds, Net, ReadBit, WriteBit, find_path, is_in};
use std::alloc::Global;

/// The active path at power-up.
#[tactic(auto, using(net_graph::proofs::Widths::started_held))]
fn first_path(alloc: Global, net: &Net) -> Result<List<u32>, OutOfMemory>
    requires { IsNet net.now }
    ensures { IfOk result (λ path. path.items ≡ least.first_path net.now) }
{
    let start = Holds::power_up(alloc, net)?;
    let mut path = Buffer::new(alloc);
    path.reserve(net.regs.len())?;
    find_path(net, &start, &mut path);
    Ok(path.into_list())
}

/// The bits of the registers of a path.
fn bits_along(net: &Net, path: &[u32]) -> u64
    requires net { IsNet net.now }
    requires route { IsRoute (length net.now.regs.items) path.now }
    ensures bits { result ≡ inside.bits_along net.now path.now }
    ensures few { result ≤ 4096 * 2 ^ 32 }
{
    let mut bits = 0u64;
    for i in 0..path.len() {
        bits += u64::from(net.regs.get(path[i] as usize).width);
    }
    bits
}

/// Whether the registers of which a bit changes are on a path.
fn changed_are_on(path: &[u32], holds: &Holds, writes: &[WriteBit]) -> bool
    requires { All (λ w. IsHeld holds.now w.bit) writes.now }
    ensures { result ≡ list_all (paths.is_in path.now)
        (map (λ w. w.bit.reg) (filter (λ w. not (working.has_value holds.now w)) writes.now)) }
{
    for write in writes {
        if !has_value(holds, *write) && !is_in(path, write.bit.reg) {
            return false;
        }
    }
    true
}

/// Whether the registers of which a bit is read are on a path.
fn read_are_on(path: &[u32], reads: &[ReadBit]) -> bool
    ensures { result ≡ list_all (paths.is_in path.now) (map (λ r. r.bit.reg) reads.now) }
{
    for read in reads {
        if !is_in(path, read.bit.reg) {
            return false;
        }
    }
    true
}

/// Whether all registers that a round asks for are on a path.
fn all_are_on(path: &[u32], holds: &Holds, group: &Group) -> bool
    requires { All (λ w. IsHeld holds.now w.bit) group.now.writes.items }
    ensures { result ≡ list_all (paths.is_in path.now)
        (least.changed holds.now (seen_group group.now) ++ least.read (seen_group group.now)) }
{
    changed_are_on(path, holds, group.writes.as_slice())
        && read_are_on(path, group.reads.as_slice())
}

/// The clocks of the scans of a round, of which its own takes this many: where no data scan reached the
/// network yet, the first one goes along the path at power-up, and the round's own follows where that path
/// hasn't all registers that it asks for.
pub(crate) fn round_scan_clocks(
    alloc: Global,
    net: &Net,
    fresh: bool,
    holds: &Holds,
    group: &Group,
    own: u64,
) -> Result<u64, OutOfMemory>
    requires net { IsNet net.now }
    requires held { All (λ w. IsHeld holds.now w.bit) group.now.writes.items }
    requires few { own ≤ 4096 * 2 ^ 32 + 5 }
    ensures clocks { IfOk result (λ clocks. clocks ≡ cond fresh (least.first_scan net.now + cond
        (least.is_on_first net.now holds.now (seen_group group.now)) 0 own) own) }
    ensures few { IfOk result (λ clocks. clocks ≤ 2 ^ 46) }
{
    if !fresh {
        return Ok(own);
    }
    let path = first_path(alloc, net)?;
    let first = bits_along(net, path.as_slice()) + 5;
    if all_are_on(path.as_slice(), holds, group) {
        Ok(first)
    } else {
        Ok(first + own)
    }
}
