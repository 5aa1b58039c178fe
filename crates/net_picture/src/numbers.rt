// Numbers of a drawing.
ghost use Rattle.std.specs.Prelude.{◌≡◌, ◌+◌, ◌*◌, max, IfOk};

use ij_bits::OutOfMemory;

/// The sum. A drawing that is wider or higher than a number can say would need more memory than there is, so
/// it is refused as one that finds none.
pub(crate) fn plus(a: u64, b: u64) -> Result<u64, OutOfMemory>
    ensures { IfOk result (λ sum. sum ≡ a + b) }
{
    match a.checked_add(b) {
        Some(sum) => Ok(sum),
        None => Err(OutOfMemory),
    }
}

/// This many units for each letter, and some more.
pub(crate) fn width_for_letters(each: u64, letters: usize, more: u64) -> Result<u64, OutOfMemory>
    ensures { IfOk result (λ room. room ≡ each * letters + more) }
{
    match each.checked_mul(letters as u64) {
        Some(room) => plus(room, more),
        None => Err(OutOfMemory),
    }
}

/// The greater one.
pub(crate) fn greater(a: u64, b: u64) -> u64
    ensures { result ≡ max a b }
{
    a.max(b)
}
