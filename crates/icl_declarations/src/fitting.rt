// Bits in a width.
ghost use Rattle.std.specs.Prelude.{◌≡◌, Some, None, IfOk};
ghost use Rattle.std.specs.Option.{option_map};
ghost use Rattle.ij_text.specs.Numbers.{tern_bits};
ghost use Rattle.icl_declarations.specs.Sized.{at_most_4096, within_size};

use ij_bits::{OutOfMemory, Tern};
use ij_text::{FitFault, Number, fit};
use std::alloc::Global;

/// The bits below a width, with zeros past their end, where neither a 1 nor an x is at the width or
/// above.
pub(crate) fn fitted(alloc: Global, t: Tern, width: u32) -> Result<Option<Tern>, OutOfMemory>
    ensures { IfOk result (λ o. option_map tern_bits o ≡ within_size width (tern_bits t)) }
{
    match fit(alloc, &Number::Digits(t), width) {
        Ok(t) => Ok(Some(t)),
        Err(FitFault::Wide) => Ok(None),
        Err(FitFault::OutOfMemory) => Err(OutOfMemory),
    }
}

/// The bits, if there are at most 4096 of them.
pub(crate) fn at_most_4096(t: Tern) -> Option<Tern>
    ensures { option_map tern_bits result ≡ at_most_4096 (tern_bits t) }
{
    if t.len() > 4096 { None } else { Some(t) }
}
