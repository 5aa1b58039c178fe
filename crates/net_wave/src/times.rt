// Times, counted up as text.
ghost use Rattle.std.specs.Prelude.{◌≡◌, ◌+◌, ◌^◌, ◌<◌, ◌≤◌, ◌∷◌, ℕ, decimal, length, IfOk, OnOk};
ghost use Rattle.net_wave.specs.Moments as moments;

use crate::texts::add_words;
use ij_bits::OutOfMemory;
use ij_io::{SureSink, Word};
use std::alloc::Global;

/// The digits of a time, the highest first, after a #.
#[tactic(auto, unfolding(ij_io::specs::Words::words_text))]
pub(crate) fn time_digits(alloc: Global, time: u64) -> Result<Vec<u8>, OutOfMemory>
    ensures { IfOk result (λ line. line.items ≡ 35 ∷ decimal time) }
{
    let mut text = SureSink::new(alloc);
    add_words(&[Word::Text(b"#"), Word::Number(time)], &mut text)?;
    let line = Vec::from_slice(alloc, text.bytes())?;
    Ok(line)
}

/// Counts the decimal digits after a # up in place.
fn count_up(line: &mut Vec<u8>) -> Result<(), OutOfMemory>
    requires { 1 ≤ length line.old.items }
    ensures { OnOk result ((n : ℕ) → n + 1 < 2 ^ 64 → line.old.items ≡ 35 ∷ decimal n
        → line.new.items ≡ 35 ∷ decimal (n + 1)) }
{
    let len = line.len();
    for k in 0..len - 1 {
        let i = len - 1 - k;
        if line[i] != b'9' {
            line[i] = line[i].saturating_add(1);
            return Ok(());
        }
        line[i] = b'0';
    }
    line.insert(1, b'1')?;
    Ok(())
}

/// Counts the digits of a time up, unless it is the greatest that 64 bits hold.
pub(crate) fn tick(time: u64, line: &mut Vec<u8>) -> Result<(), OutOfMemory>
    requires { line.old.items ≡ 35 ∷ decimal time }
    ensures { OnOk result (line.new.items ≡ 35 ∷ decimal (moments.counted (time + 1))) }
{
    if time < u64::MAX {
        count_up(line)?;
    }
    Ok(())
}
