//! From the operands of a line to registers and numbers.

ghost use Rattle.std.specs.Prelude.{◌≡◌};
ghost use Rattle.clu_asm.specs.Candidates.{checked as checked_of, number_of, register_number, register_of};

use itoa::Buffer;
use rv_isa::Reg;
use std::str;

/// The number with this text.
pub(crate) fn number(text: &[u8]) -> Option<i32>
    ensures { result ≡ number_of text.now }
{
    match str::from_utf8(text) {
        Ok(digits) => match digits.parse::<i32>() {
            Ok(n) => checked(n, text),
            Err(_) => None,
        },
        Err(_) => None,
    }
}

/// The number, if this is its text.
fn checked(n: i32, text: &[u8]) -> Option<i32>
    ensures { result ≡ checked_of n text.now }
{
    let mut buffer = Buffer::new();
    if buffer.format(n).as_bytes() == text {
        Some(n)
    } else {
        None
    }
}

/// The register with this text.
pub(crate) fn register(text: &[u8]) -> Option<Reg>
    ensures { result ≡ register_of text.now }
{
    match text {
        [] => None,
        [first, digits @ ..] => {
            if *first == b'x' {
                match number(digits) {
                    Some(n) => register_number(n),
                    None => None,
                }
            } else {
                None
            }
        }
    }
}

/// The register of this number.
fn register_number(n: i32) -> Option<Reg>
    ensures { result ≡ register_number n }
{
    if 0 <= n && n < 32 {
        Reg::new(n as u8)
    } else {
        None
    }
}
