// What a word of a text is.
ghost use Rattle.std.specs.Prelude.{◌≡◌};
ghost use Rattle.std.specs.List.{list_all};
ghost use Rattle.ij_text.specs.Words as words;

/// Whether a byte is a letter or `_`.
pub fn begins_name(b: u8) -> bool
    ensures { result ≡ words.begins_name b }
{
    b.is_ascii_alphabetic() || b == b'_'
}

/// Whether a byte is a letter, a digit or `_`.
pub fn in_name(b: u8) -> bool
    ensures { result ≡ words.in_name b }
{
    begins_name(b) || b.is_ascii_digit()
}

fn are_in_name(bytes: &[u8]) -> bool
    ensures { result ≡ list_all words.in_name bytes.now }
{
    bytes.iter().all(|b| in_name(*b))
}

/// Whether a text is a name of ICL and PDL (IEEE 1687-2014): a letter or `_`, and then letters, digits and
/// `_`. A keyword is a name, too. Takes no memory.
pub fn is_name(text: &[u8]) -> bool
    ensures { result ≡ words.is_name text.now }
{
    match text {
        [b, rest @ ..] => begins_name(*b) && are_in_name(rest),
        [] => false,
    }
}
