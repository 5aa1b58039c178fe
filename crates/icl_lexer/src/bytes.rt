// Classes of bytes.
ghost use Rattle.std.specs.Prelude.{◌≡◌};
ghost use Rattle.icl_lexer.specs.Pieces.{in_decimal, in_digits, is_base, is_digit_x, is_mark};

pub(crate) fn in_decimal(b: u8) -> bool
    ensures { result ≡ in_decimal b }
{
    b.is_ascii_digit() || b == b'_'
}

pub(crate) fn is_base(b: u8) -> bool
    ensures { result ≡ is_base b }
{
    matches!(b, b'b' | b'B' | b'd' | b'D' | b'h' | b'H')
}

/// Whether the byte may be the first digit of a sized number.
pub(crate) fn is_digit_x(b: u8) -> bool
    ensures { result ≡ is_digit_x b }
{
    b.is_ascii_hexdigit() || b == b'x' || b == b'X'
}

pub(crate) fn in_digits(b: u8) -> bool
    ensures { result ≡ in_digits b }
{
    is_digit_x(b) || b == b'_'
}

pub(crate) fn is_mark(b: u8) -> bool
    ensures { result ≡ is_mark b }
{
    matches!(
        b,
        b'{' | b'}' | b'(' | b')' | b'[' | b']' | b';' | b':' | b','
    ) || matches!(
        b,
        b'.' | b'=' | b'~' | b'|' | b'+' | b'-' | b'*' | b'/' | b'%'
    )
}
