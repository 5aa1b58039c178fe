// TDI and MASK that hold over from scan to scan.
ghost use Rattle.std.specs.Prelude.{◌≡◌, ◌+◌, ◌<◌, ◌≤◌, length, slice_index_or, slice_range, false, Some};
ghost use Rattle.std.specs.Prelude.{None, get_or};
ghost use Rattle.std.specs.List.{list_any};
ghost use Rattle.std.specs.Option.{is_some};
ghost use Rattle.ij_bits.specs.BitLists.{bits_eq, bits_of, number_of, has_one};
ghost use Rattle.svf_writer.specs.Fits.{FitsAfter, HasLength};
ghost use Rattle.svf_writer.specs.SeenCommands.{seen_scan};
ghost use Rattle.svf_audit.specs.LastParts.{AreLastParts, last_length, looked_for, seen_last, seen_tdi};
ghost use Rattle.tap_machine.specs.Play.{after_scan, no_scan};

use svf_writer::{Scan, ScanPart, part_if_given};

/// The length of the last scan of a kind, and the parts of the commands that it took its TDI and MASK from.
/// Without MASK each bit is compared.
#[derive(Clone, Copy, Drop)]
pub(crate) struct LastParts<'a> {
    pub len: u32,
    pub tdi: Option<&'a ScanPart>,
    pub mask: Option<&'a ScanPart>,
}

/// Nothing, before the first scan.
pub(crate) fn no_last_parts<'a>() -> LastParts<'a>
    ensures kept { seen_last result ≡ no_scan }
    ensures sound { AreLastParts result }
    ensures last { last_length result ≡ None }
{
    LastParts {
        len: 0,
        tdi: None,
        mask: None,
    }
}

/// What the next scan shifts and compares by: TDI and MASK hold where the command has none, MASK up to a new
/// length.
pub(crate) fn parts_after<'a>(kept: LastParts<'a>, scan: &'a Scan) -> LastParts<'a>
    requires sound { AreLastParts kept }
    requires fits { FitsAfter (last_length kept) (seen_scan scan.now) }
    ensures kept { seen_last result ≡ after_scan (seen_last kept.entry) (seen_scan scan.now) }
    ensures sound { AreLastParts result }
    ensures last { last_length result ≡ Some scan.now.len }
{
    let mask = match part_if_given(&scan.mask) {
        Some(mask) => Some(mask),
        None => if kept.len == scan.len {
            kept.mask
        } else {
            None
        },
    };
    let tdi = match part_if_given(&scan.tdi) {
        Some(tdi) => Some(tdi),
        None => kept.tdi,
    };
    LastParts {
        len: scan.len,
        tdi,
        mask,
    }
}

/// Whether MASK compares a position.
fn is_compared(kept: &LastParts, k: u32) -> bool
    requires within { k < kept.now.len }
    requires sound { AreLastParts kept.now }
    ensures { result ≡ get_or (seen_last kept.now).mask k false }
{
    match kept.mask {
        Some(mask) => mask.get(k),
        None => true,
    }
}

/// The bit that is expected at a position, where it is compared.
pub(crate) fn expected_at(kept: &LastParts, tdo: &ScanPart, k: u32) -> Option<bool>
    requires within { k < kept.now.len }
    requires sound { AreLastParts kept.now }
    requires tdo { HasLength kept.now.len tdo.now }
    ensures { result ≡ get_or (looked_for kept.now tdo.now) k None }
{
    if !tdo.is_given() {
        return None;
    }
    if is_compared(kept, k) {
        Some(tdo.get(k))
    } else {
        None
    }
}

/// Whether MASK compares one of the `n` positions from position `from` on.
fn compares_one_of(kept: &LastParts, from: u32, n: u32) -> bool
    requires few { n ≤ 64 }
    requires within { from + n ≤ kept.now.len }
    requires sound { AreLastParts kept.now }
    ensures { result ≡ has_one (slice_range (seen_last kept.now).mask from (from + n)) }
{
    match kept.mask {
        Some(mask) => mask.number(from, n) != 0,
        None => n != 0,
    }
}

/// Whether some bit is compared.
pub(crate) fn compares_some(kept: &LastParts, tdo: &ScanPart) -> bool
    requires sound { AreLastParts kept.now }
    requires tdo { HasLength kept.now.len tdo.now }
    ensures { result ≡ list_any is_some (looked_for kept.now tdo.now) }
{
    if !tdo.is_given() {
        return false;
    }
    let n = kept.len;
    for word in 0..n.div_ceil(64) {
        let from = 64 * word;
        if compares_one_of(kept, from, (n - from).min(64)) {
            return true;
        }
    }
    false
}

/// The bit of TDI at a position, the one shifted first at 0.
pub(crate) fn tdi_at(kept: &LastParts, k: u32) -> bool
    requires within { k < length (seen_tdi kept.now) }
    ensures { result ≡ slice_index_or (seen_tdi kept.now) k false }
{
    match kept.tdi {
        Some(tdi) => tdi.get(k),
        None => false,
    }
}

/// The number of the `n` bits of TDI from position `from` on, the first of them the lowest.
pub(crate) fn tdi_number(kept: &LastParts, from: u32, n: u32) -> u64
    requires few { n ≤ 64 }
    requires within { from + n ≤ length (seen_tdi kept.now) }
    ensures { result ≡ number_of (slice_range (seen_tdi kept.now) from (from + n)) }
{
    match kept.tdi {
        Some(tdi) => tdi.number(from, n),
        None => 0,
    }
}

/// Whether TDI has the lowest bits of a number.
pub(crate) fn is_number(kept: &LastParts, n: u64) -> bool
    requires { AreLastParts kept.now }
    ensures { result ≡ bits_eq (seen_last kept.now).tdi (bits_of kept.now.len n) }
{
    let mut rest = n;
    for k in 0..kept.len {
        if tdi_at(kept, k) != (rest % 2 == 1) {
            return false;
        }
        rest /= 2;
    }
    true
}
