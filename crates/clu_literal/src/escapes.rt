//! Escapes: what stands after a backslash, and the code of the character that it denotes.

ghost use Rattle.std.specs.Prelude.{◌≡◌, ◌<◌, ◌^◌};
ghost use Rattle.clu_literal.specs.Literal.{escape_code, escape_len, is_octal, letter_code, octal_code, starts_with_code};

fn is_octal(b: u8) -> bool
    ensures { result ≡ is_octal b }
{
    b'0' <= b && b <= b'7'
}

/// The code that an escape letter denotes, in either case; a mark or a backslash denotes itself.
fn letter_code(letter: u8) -> u16
    ensures { result ≡ letter_code letter }
{
    let lower = letter.to_ascii_lowercase();
    if lower == b'n' {
        10
    } else if lower == b't' {
        9
    } else if lower == b'p' {
        12
    } else if lower == b'b' {
        8
    } else if lower == b'r' {
        13
    } else if lower == b'v' {
        11
    } else {
        u16::from(letter)
    }
}

/// The number that three octal digits write.
fn octal_code(a: u8, b: u8, c: u8) -> u16
    ensures { result ≡ octal_code a b c }
{
    let a = u16::from(a.saturating_sub(b'0'));
    let b = u16::from(b.saturating_sub(b'0'));
    let c = u16::from(c.saturating_sub(b'0'));
    64 * a + 8 * b + c
}

/// Whether three octal digits stand at the front.
fn starts_with_code(rest: &[u8]) -> bool
    ensures { result ≡ starts_with_code rest.now }
{
    match rest {
        [a, b, c, ..] => is_octal(*a) && is_octal(*b) && is_octal(*c),
        _ => false,
    }
}

/// The code of the character whose escape stands after a backslash; 0 where nothing stands there.
pub fn escape_code(rest: &[u8]) -> u16
    ensures { result ≡ escape_code rest.now }
{
    if starts_with_code(rest) {
        match rest {
            [a, b, c, ..] => octal_code(*a, *b, *c),
            _ => 0,
        }
    } else {
        match rest {
            [letter, ..] => letter_code(*letter),
            [] => 0,
        }
    }
}

/// How many bytes belong to the escape after the backslash.
pub fn escape_len(rest: &[u8]) -> usize
    ensures { result ≡ escape_len rest.now }
{
    if starts_with_code(rest) { 3 } else { 1 }
}
