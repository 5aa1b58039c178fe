// Classes of bytes, and the bytes after the first one.
ghost use Rattle.std.specs.Prelude.{◌≡◌, drop};
ghost use Rattle.std.specs.Char.{is_ascii_digit};
ghost use Rattle.std.specs.List.{list_all};
ghost use Rattle.ij_text.specs.Bytes.{is_blank, is_line_blank};

/// Whether a byte is a space, a tab or a carriage return.
pub fn is_line_blank(b: u8) -> bool
    ensures { result ≡ is_line_blank b }
{
    b == b' ' || b == b'\t' || b == b'\r'
}

/// Whether a byte is a space, a tab, a line feed or a carriage return.
pub fn is_blank(b: u8) -> bool
    ensures { result ≡ is_blank b }
{
    b == b' ' || b == b'\t' || b == b'\n' || b == b'\r'
}

/// Whether all bytes are decimal digits. Takes no memory.
pub fn all_digits(text: &[u8]) -> bool
    ensures { result ≡ list_all is_ascii_digit text.now }
{
    text.iter().all(|b| b.is_ascii_digit())
}

/// All bytes but the first one. Takes no memory.
pub fn after_first(text: &[u8]) -> &[u8]
    ensures { result.now ≡ drop 1 text.now }
{
    match text {
        [_, rest @ ..] => rest,
        [] => text,
    }
}
