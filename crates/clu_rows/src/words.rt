//! Texts, numbers and bytes in rows.

use clu_base::Memory;
use std::alloc::Global;
use std::fmt::Write;
use std::test::Fail;

/// Appends a text so many times; `?` in it is how often it was appended before, and `!` one more.
fn put_times(text: &mut String, part: &str, times: u32) -> Result<(), Fail> {
    for number in 0..times {
        for letter in part.chars() {
            match letter {
                '?' => write!(text, "{number}")?,
                '!' => write!(text, "{}", number.saturating_add(1))?,
                other => text.push(other)?,
            }
        }
    }
    Ok(())
}

/// The text that a row writes short, where `^N^TEXT^` is TEXT N times.
pub fn spelled(alloc: Global, short: &str) -> Result<String, Fail> {
    let mut text = String::new(alloc);
    let mut times = 1;
    for (place, part) in short.split('^').enumerate() {
        match place % 3 {
            0 => text.push_str(part)?,
            1 => times = part.parse::<u32>().unwrap_or(0),
            _ => put_times(&mut text, part, times)?,
        }
    }
    Ok(text)
}

/// What stands before the first blank, and what stands after it; all of a text without a blank stands after it.
pub fn parts(text: &str) -> (&str, &str) {
    text.split_once(' ').unwrap_or(("", text))
}

/// The number at this place among the words of a text, which count from 0, in decimal digits or in hexadecimal ones after
/// `0x`; 0 where there is none.
pub fn number_at(text: &str, place: usize) -> u64 {
    let word = text.split(' ').nth(place).unwrap_or("");
    match word.strip_prefix("0x") {
        Some(digits) => u64::from_str_radix(digits, 16).unwrap_or(0),
        None => word.parse::<u64>().unwrap_or(0),
    }
}

/// The bytes of numbers of two hexadecimal digits with blanks between them.
pub fn bytes_of(alloc: Global, digits: &str) -> Result<Vec<u8>, Memory> {
    let mut bytes = Vec::new(alloc);
    for byte in digits.split(' ') {
        bytes.push(u8::from_str_radix(byte, 16).unwrap_or(0))?;
    }
    Ok(bytes)
}

/// Writes bytes in hexadecimal digits, each after a blank.
pub fn put_bytes(text: &mut String, bytes: &[u8]) -> Result<(), Memory> {
    for byte in bytes {
        write!(text, " {byte:02x}")?;
    }
    Ok(())
}
