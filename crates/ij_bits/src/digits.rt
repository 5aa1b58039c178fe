// Bits and hexadecimal digits of numbers.
ghost use Rattle.ij_bits.specs.Hex.{hex_code};
ghost use Rattle.std.specs.Int.{bit_at};
ghost use Rattle.std.specs.Prelude.{◌≡◌, ◌==◌, ◌<◌, ◌≤◌, ◌-◌, ◌*◌, ◌/◌, ◌%◌, ◌^◌, ℕ, length, slice_index};

/// The upper-case ASCII digit of a number below 16. Takes no memory.
pub fn hex_digit_of(value: u8) -> u8
    requires { value < 16 }
    ensures { result ≡ hex_code value }
{
    if value < 10 {
        b'0' + value
    } else {
        b'A' + (value - 10)
    }
}

/// The digit at a place of a number, place 0 being the rightmost. Takes no memory.
pub fn hex_digit_at(number: u64, place: u32) -> u8
    requires { place < 16 }
    ensures { result ≡ hex_code (number / 2 ^ (4 * place) % 16) }
{
    hex_digit_of(((number >> (4 * place)) % 16) as u8)
}

/// The bit at a place of a number, place 0 being the lowest. Takes no memory.
pub fn bit_of_number(number: u64, place: u32) -> bool
    requires { place < 64 }
    ensures { result ≡ (bit_at number place == 1) }
{
    (number >> place) & 1 == 1
}

/// Writes the 16 digits of a number so that the lowest of them comes before `end`, as far as there is room.
pub(crate) fn put_digits(value: u64, to: &mut [u8], end: usize)
    requires { end ≤ length to.old }
    ensures at { (i : ℕ) → i < 16 → i < end
        → slice_index to.new (end - 1 - i) ≡ hex_code (value / 2 ^ (4 * i) % 16) }
    ensures following { (k : ℕ) → end ≤ k → slice_index to.new k ≡ slice_index to.old k }
{
    for i in 0..end.min(16) {
        to[end - 1 - i] = hex_digit_of(((value >> (4 * i)) % 16) as u8);
    }
}
