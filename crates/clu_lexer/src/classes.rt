//! Classes of bytes: which bytes may stand in which part of a token.

ghost use Rattle.std.specs.Prelude.{◌≡◌};
ghost use Rattle.clu_lexer.specs.Classes.{begins_name, goes_on_name, is_digit, is_octal, is_plain, is_escape_letter, is_exponent_mark, is_sign};

pub fn begins_name(b: u8) -> bool
    ensures { result ≡ begins_name b }
{
    b.is_ascii_alphabetic() || b == b'_'
}

pub fn goes_on_name(b: u8) -> bool
    ensures { result ≡ goes_on_name b }
{
    begins_name(b) || is_digit(b)
}

pub fn is_digit(b: u8) -> bool
    ensures { result ≡ is_digit b }
{
    b.is_ascii_digit()
}

pub fn is_octal(b: u8) -> bool
    ensures { result ≡ is_octal b }
{
    b'0' <= b && b <= b'7'
}

/// Whether the byte stands for itself in a literal that the mark `closing` ends.
pub fn is_plain(closing: u8, b: u8) -> bool
    ensures { result ≡ is_plain closing b }
{
    (b == b'\t' || (b' ' <= b && b != 127)) && b != b'\\' && b != closing
}

/// Whether the byte after a backslash makes an escape of two bytes.
pub fn is_escape_letter(b: u8) -> bool
    ensures { result ≡ is_escape_letter b }
{
    let b = b.to_ascii_lowercase();
    b == b'n'
        || b == b't'
        || b == b'p'
        || b == b'b'
        || b == b'r'
        || b == b'v'
        || b == b'\\'
        || b == b'\''
        || b == b'"'
}

pub fn is_exponent_mark(b: u8) -> bool
    ensures { result ≡ is_exponent_mark b }
{
    b == b'e' || b == b'E'
}

pub fn is_sign(b: u8) -> bool
    ensures { result ≡ is_sign b }
{
    b == b'+' || b == b'-'
}
