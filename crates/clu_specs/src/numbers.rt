//! Decimal numbers without leading zeros.

ghost use Rattle.std.specs.Prelude.{◌≡◌, ◌≤◌, ◌^◌, IfOk};
ghost use Rattle.clu_specs.specs.Reading.{Gives};
ghost use Rattle.clu_specs.specs.Numbers.{shorten, begins_decimal, digits_from, digits_at};

use crate::marks::fault;
use clu_base::FormatError;

/// The first digits of a number, at most so many fewer that it isn't above `first`. It goes so deep, at most 20.
fn shorten(digits: u8, first: u64, number: u64) -> u64
    ensures { result ≡ shorten digits first number }
{
    if digits == 0 || number <= first {
        number
    } else {
        shorten(digits - 1, first, number / 10)
    }
}

/// Whether the decimal digits of the second number begin with those of the first, which isn't 0.
pub fn begins_decimal(first: u64, number: u64) -> bool
    ensures { result ≡ begins_decimal first number }
{
    first != 0 && shorten(20, first, number) == first
}

/// The number that the digits at the front make after `read`, and what follows them. Refused at the digit with
/// which the number would exceed `limit`.
fn digits_from(limit: u64, read: u64, bytes: &[u8]) -> Result<(u64, &[u8]), FormatError>
    requires small { limit ≤ 2 ^ 63 }
    requires within { read ≤ limit }
    ensures reads { Gives (λ x. (x.0, x.1.now)) result (digits_from limit read bytes.now) }
    ensures within { IfOk result (λ x. x.0 ≤ limit) }
{
    let mut number = read;
    for (i, b) in bytes.iter().enumerate() {
        let (_, rest) = bytes.split_at(i);
        if !b.is_ascii_digit() {
            return Ok((number, rest));
        }
        let digit = (*b - b'0') as u64;
        if number > limit / 10 || 10 * number + digit > limit {
            return Err(fault(rest));
        }
        number = 10 * number + digit;
    }
    Ok((number, &[]))
}

/// The number from 1 to `limit` at the front, and what follows its digits.
#[tactic(auto, unfolding(crate::specs::Numbers::digits_at))]
pub fn digits_at(limit: u64, bytes: &[u8]) -> Result<(u64, &[u8]), FormatError>
    requires { limit ≤ 2 ^ 63 }
    ensures reads { Gives (λ x. (x.0, x.1.now)) result (digits_at limit bytes.now) }
    ensures within { IfOk result (λ x. x.0 ≤ limit) }
{
    match bytes {
        [] => Err(fault(bytes)),
        [first, ..] => {
            if b'1' <= *first && *first <= b'9' {
                digits_from(limit, 0, bytes)
            } else {
                Err(fault(bytes))
            }
        }
    }
}
