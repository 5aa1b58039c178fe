// The numbers among the words.
ghost use Rattle.std.specs.Prelude.{◌≡◌};
ghost use Rattle.std.specs.Char.{is_ascii_digit};
ghost use Rattle.ijtag_work.specs.Command.{is_number, number_of};

use ij_text::{all_digits, decimal};

/// Whether a text is a decimal number of 1 to 19 digits, of which the first is 0 in `0` alone.
fn is_number(text: &[u8]) -> bool
    ensures { result ≡ is_number text.now }
{
    match text {
        [first, rest @ ..] => {
            first.is_ascii_digit()
                && all_digits(rest)
                && rest.len() < 19
                && (*first != b'0' || rest.is_empty())
        }
        [] => false,
    }
}

/// The number that a word is, `None` where it isn't one.
pub fn read_number(word: &str) -> Option<u64>
    ensures { result ≡ number_of word.now }
{
    let text = word.as_bytes();
    if !is_number(text) {
        return None;
    }
    let n = decimal(text)?;
    Some(n as u64)
}
