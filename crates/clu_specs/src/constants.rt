//! Constants among actual parameters: integers, characters and strings in hexadecimal, and three words.

ghost use Rattle.std.specs.Prelude.{◌≡◌, IfOk, IfSome, ◌<◌, ◌++◌, ◌∷◌, [], decimal, length, OnOk};
ghost use Rattle.std.specs.List.{flat_map};
ghost use Rattle.std.specs.Fmt.{signed_decimal};
ghost use Rattle.clu_specs.specs.Reading.{Gives};
ghost use Rattle.clu_specs.specs.Constants.{word_constant, integer_at, negative_at, hex_value, digit_at, byte_at, string_at, hex_digit, hex_byte, constant_text};

use crate::marks::{behind, fault};
use crate::numbers::digits_at;
use clu_base::{Bytes, Const, FormatError, Memory};
use itoa::Buffer;
use std::alloc::Global;

/// The constant that a word is.
#[tactic(auto, unfolding(crate::specs::Constants::word_constant))]
pub fn word_constant(word: &[u8]) -> Option<Const>
    ensures { result ≡ word_constant word.now }
{
    if word == b"nil".as_slice() {
        Some(Const::Null)
    } else if word == b"true".as_slice() {
        Some(Const::Bool(true))
    } else if word == b"false".as_slice() {
        Some(Const::Bool(false))
    } else {
        None
    }
}

/// The integer at the front, which begins with a digit or `-`, and what follows it.
#[tactic(auto, unfolding(crate::specs::Constants::integer_at))]
pub fn integer_at(bytes: &[u8]) -> Result<(i64, &[u8]), FormatError>
    ensures { Gives (λ x. (x.0, x.1.now)) result (integer_at bytes.now) }
{
    match bytes {
        [] => Err(fault(bytes)),
        [first, rest @ ..] => {
            if *first == b'0' {
                Ok((0, rest))
            } else if *first == b'-' {
                negative_at(rest)
            } else {
                let (n, rest) = digits_at(9_223_372_036_854_775_807, bytes)?;
                Ok((n as i64, rest))
            }
        }
    }
}

/// The negative integer whose digits are at the front.
#[tactic(auto, unfolding(crate::specs::Constants::negative_at))]
fn negative_at(bytes: &[u8]) -> Result<(i64, &[u8]), FormatError>
    ensures { Gives (λ x. (x.0, x.1.now)) result (negative_at bytes.now) }
{
    let (n, rest) = digits_at(9_223_372_036_854_775_808, bytes)?;
    Ok((-1 - n.saturating_sub(1) as i64, rest))
}

/// The value of a hexadecimal digit, with small letters.
fn hex_value(b: u8) -> Option<u8>
    ensures is { result ≡ hex_value b }
    ensures small { IfSome result (λ value. value < 16) }
{
    if b.is_ascii_digit() {
        Some(b - b'0')
    } else if b'a' <= b && b <= b'f' {
        Some(b - b'a' + 10)
    } else {
        None
    }
}

fn digit_at(bytes: &[u8]) -> Result<(u8, &[u8]), FormatError>
    ensures reads { Gives (λ x. (x.0, x.1.now)) result (digit_at bytes.now) }
    ensures small { IfOk result (λ x. x.0 < 16) }
{
    match bytes {
        [] => Err(fault(bytes)),
        [first, rest @ ..] => match hex_value(*first) {
            Some(value) => Ok((value, rest)),
            None => Err(fault(bytes)),
        },
    }
}

/// The byte that two hexadecimal digits at the front make, and what follows them.
#[tactic(auto, unfolding(crate::specs::Constants::byte_at))]
pub fn byte_at(bytes: &[u8]) -> Result<(u8, &[u8]), FormatError>
    ensures { Gives (λ x. (x.0, x.1.now)) result (byte_at bytes.now) }
{
    let (high, rest) = digit_at(bytes)?;
    let (low, rest) = digit_at(rest)?;
    Ok((16 * high + low, rest))
}

/// The bytes that hexadecimal digits make up to a closing `"`, and what follows this.
pub fn string_at(alloc: Global, bytes: &[u8]) -> Result<(Bytes, &[u8]), FormatError>
    ensures { Gives (λ x. (x.0, x.1.now)) result (string_at (length bytes.now) [] bytes.now) }
{
    let mut made = Vec::new(alloc);
    let mut rest = bytes;
    for _ in 0..bytes.len() {
        match behind(b'"', rest) {
            Some(after) => return Ok((Bytes::from_vec(made), after)),
            None => {
                let (b, after) = byte_at(rest)?;
                made.push(b)?;
                rest = after;
            }
        }
    }
    Err(fault(rest))
}

fn hex_digit(n: u8) -> u8
    requires { n < 16 }
    ensures { result ≡ hex_digit n }
{
    if n < 10 { b'0' + n } else { b'a' + (n - 10) }
}

/// Appends the two hexadecimal digits of a byte.
fn put_byte(out: &mut Vec<u8>, b: u8) -> Result<(), Memory>
    ensures { OnOk result (out.new.items ≡ out.old.items ++ hex_byte b) }
{
    out.push(hex_digit(b / 16))?;
    out.push(hex_digit(b % 16))?;
    Ok(())
}

/// Appends bytes as they are.
pub fn put(out: &mut Vec<u8>, text: &[u8]) -> Result<(), Memory>
    ensures { OnOk result (out.new.items ≡ out.old.items ++ text.now) }
{
    out.extend_from_slice(text)?;
    Ok(())
}

/// Appends a mark and the number of a parameter.
pub fn put_parameter(out: &mut Vec<u8>, mark: u8, n: u32) -> Result<(), Memory>
    ensures { OnOk result (out.new.items ≡ out.old.items ++ mark ∷ decimal n) }
{
    out.push(mark)?;
    let mut buffer = Buffer::new();
    put(out, buffer.format(n).as_bytes())
}

fn put_integer(out: &mut Vec<u8>, n: i64) -> Result<(), Memory>
    ensures { OnOk result (out.new.items ≡ out.old.items ++ signed_decimal n) }
{
    let mut buffer = Buffer::new();
    put(out, buffer.format(n).as_bytes())
}

fn put_string(out: &mut Vec<u8>, bytes: &[u8]) -> Result<(), Memory>
    ensures { OnOk result (out.new.items ≡ out.old.items ++ 34 ∷ (flat_map hex_byte bytes.now ++ 34 ∷ [])) }
{
    out.push(b'"')?;
    for b in bytes {
        put_byte(out, *b)?;
    }
    put(out, b"\"")
}

fn put_char(out: &mut Vec<u8>, b: u8) -> Result<(), Memory>
    ensures { OnOk result (out.new.items ≡ out.old.items ++ 39 ∷ hex_byte b) }
{
    out.push(b'\'')?;
    put_byte(out, b)
}

/// Appends the text of a constant.
pub fn put_constant(out: &mut Vec<u8>, constant: &Const) -> Result<(), Memory>
    ensures { OnOk result (out.new.items ≡ out.old.items ++ constant_text constant.now) }
{
    match constant {
        Const::Null => put(out, b"nil"),
        Const::Bool(true) => put(out, b"true"),
        Const::Bool(false) => put(out, b"false"),
        Const::Int(n) => put_integer(out, *n),
        Const::Char(b) => put_char(out, *b),
        Const::Str(bytes) => put_string(out, bytes.as_slice()),
    }
}
