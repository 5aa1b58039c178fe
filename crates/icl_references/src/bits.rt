// The bits that signals name.
ghost use Rattle.std.specs.Prelude.{◌≡◌, map, IfOk};
ghost use Rattle.ij_bits.specs.BitLists.{flip_if};
ghost use Rattle.ij_text.specs.Numbers.{tern_bits};
ghost use Rattle.icl_declarations.specs.Widths.{joined};
ghost use Rattle.icl_declarations.specs.Ranges.{positions};
ghost use Rattle.icl_references.specs.Roles.{seen_refs};
ghost use Rattle.icl_references.specs.Signals.{constants};

use crate::hier::Ref;
use icl_frames::Stretch;
use ij_bits::{OutOfMemory, Tern};
use ij_runs::Runs;
use ij_text::bit_at;
use std::alloc::Global;

/// Bits of a part, the lowest position first.
pub(crate) fn bits_between(
    alloc: Global,
    cell: u32,
    part: u32,
    inverted: bool,
    s: Stretch,
) -> Result<Runs<Ref>, OutOfMemory>
    ensures { IfOk result (λ refs. refs.items ≡ map (λ pos. Ref.Bit cell part pos inverted) (positions s)) }
{
    let end = u64::from(s.high) + 1;
    let Ok(count) = u32::try_from(end.saturating_sub(u64::from(s.low))) else {
        return Err(OutOfMemory);
    };
    let mut refs = Runs::new(alloc);
    refs.push_run(
        Ref::Bit {
            cell,
            part,
            pos: s.low,
            inverted,
        },
        count,
    )?;
    Ok(refs)
}

/// A bit, inverted or not.
fn flip_if(inverted: bool, bit: bool) -> bool
    ensures { result ≡ flip_if inverted bit }
{
    if inverted { !bit } else { bit }
}

/// The bits of a number without x, inverted or not.
pub(crate) fn constants(
    alloc: Global,
    inverted: bool,
    bits: &Tern,
) -> Result<Runs<Ref>, OutOfMemory>
    ensures { IfOk result (λ refs. refs.items ≡ constants inverted (tern_bits bits.now)) }
{
    let mut refs = Runs::new(alloc);
    for k in 0..bits.len() {
        let bit = bit_at(bits, k).unwrap_or(false);
        refs.push(Ref::Fixed(flip_if(inverted, bit)))?;
    }
    Ok(refs)
}

/// Signals side by side, the leftmost first: position 0 is in the last one.
pub(crate) fn side_by_side(alloc: Global, parts: &[Runs<Ref>]) -> Result<Runs<Ref>, OutOfMemory>
    ensures { IfOk result (λ refs. refs.items ≡ joined (map seen_refs parts.now)) }
{
    let mut refs = Runs::new(alloc);
    let n = parts.len();
    for i in 0..n {
        refs.append(&parts[n - 1 - i])?;
    }
    Ok(refs)
}
