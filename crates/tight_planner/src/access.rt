// Items of lists and bits, by places that may be wrong.

use crate::stop::PlanStop;
use ij_bits::Bits;

/// The item at a place.
pub(crate) fn at<T>(items: &[T], i: usize) -> Result<&T, PlanStop> {
    items.get(i).ok_or(PlanStop::NoPlan)
}

/// A copy of the item at a place.
pub(crate) fn copy_at<T: Copy>(items: &[T], i: usize) -> Result<T, PlanStop> {
    items.get(i).copied().ok_or(PlanStop::NoPlan)
}

/// Puts an item at a place.
pub(crate) fn put_at<T: Drop>(items: &mut [T], i: usize, item: T) -> Result<(), PlanStop> {
    if i >= items.len() {
        return Err(PlanStop::NoPlan);
    }
    items[i] = item;
    Ok(())
}

/// Adds an item to the list at a place.
pub(crate) fn push_at<T: Drop>(lists: &mut [Vec<T>], i: usize, item: T) -> Result<(), PlanStop> {
    if i >= lists.len() {
        return Err(PlanStop::NoPlan);
    }
    lists[i].push(item)?;
    Ok(())
}

/// The bit at a position.
pub(crate) fn bit_at(bits: &Bits, i: u32) -> Result<bool, PlanStop> {
    if i >= bits.len() {
        return Err(PlanStop::NoPlan);
    }
    Ok(bits.get(i))
}

/// Gives the bit at a position a value.
pub(crate) fn put_bit(bits: &mut Bits, i: u32, value: bool) -> Result<(), PlanStop> {
    if i >= bits.len() {
        return Err(PlanStop::NoPlan);
    }
    bits.set(i, value);
    Ok(())
}
