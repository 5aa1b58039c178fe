// The bits that are on every path through some rows.
ghost use Rattle.std.specs.Prelude.{◌≡◌, ◌≤◌, ◌*◌, ◌^◌};
ghost use Rattle.net_graph.specs.Nets.{IsNet};
ghost use Rattle.least_clocks.specs.Inside as inside;

use crate::rows::is_one_of;
use net_graph::{Branch, Net, register_count};
use net_tree::Tree;

/// Whether each row around a register is one of these.
fn is_inside(tree: &Tree, rows: &[Branch], reg: u32) -> bool
    ensures { result ≡ inside.is_inside tree.now (inside.is_one_of rows.now) reg }
{
    for row in tree.place_of(reg).as_slice() {
        if !is_one_of(rows, *row) {
            return false;
        }
    }
    true
}

/// The bits of the registers around which no row is but these.
pub(crate) fn bits_within_rows(net: &Net, tree: &Tree, rows: &[Branch]) -> u64
    requires { IsNet net.now }
    ensures bits { result ≡ inside.bits_within_rows net.now tree.now (inside.is_one_of rows.now) }
    ensures few { result ≤ 4096 * 2 ^ 32 }
{
    let mut bits = 0u64;
    for reg in 0..register_count(net) {
        if is_inside(tree, rows, reg) {
            bits += u64::from(net.regs.get(reg as usize).width);
        }
    }
    bits
}
