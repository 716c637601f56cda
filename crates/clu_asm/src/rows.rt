//! From lines of hexadecimal digits to bytes.

ghost use Rattle.std.specs.Prelude.{◌≡◌, ◌++◌, ◌*◌, ◌<◌, ◌^◌, ◌↔◌, ℕ, List, length, IfSome, IsTrue};
ghost use Rattle.std.specs.Int.{w32, to_be_bytes};
ghost use Rattle.hex.specs.Hex.{encode_lower};
ghost use Rattle.rv_isa.specs.Image.{AreBytes};
ghost use Rattle.clu_asm.specs.AssemblyText.{word_text};
ghost use Rattle.clu_asm.specs.CutLines as cut_lines;

use crate::places::{after, is_front};

/// The eight bytes of a line with this word.
pub(crate) fn row(word: &[u8], text: &[u8]) -> Option<[u8; 8]>
    ensures text { IfSome result (λ row. text.now ≡ word.now ++ encode_lower row) }
    ensures eight { IfSome result (λ row. length row ≡ 8) }
    ensures only { (row : List ℕ) → length row ≡ 8 → AreBytes row → text.now ≡ word.now ++ encode_lower row → result ≡ Some row }
{
    match after(text, word) {
        Some(digits) => bytes(digits),
        None => None,
    }
}

/// The eight bytes that are written so.
fn bytes(digits: &[u8]) -> Option<[u8; 8]>
    ensures text { IfSome result (λ row. digits.now ≡ encode_lower row) }
    ensures eight { IfSome result (λ row. length row ≡ 8) }
    ensures only { (row : List ℕ) → length row ≡ 8 → AreBytes row → digits.now ≡ encode_lower row → result ≡ Some row }
{
    let mut row = [0; 8];
    match hex::decode_to_slice(digits, &mut row) {
        Ok(()) => {
            let same = is_written(row.as_slice(), &mut [0; 16], digits);
            if same { Some(row) } else { None }
        }
        Err(_) => None,
    }
}

/// Whether the bytes are written so. `again` has room for the digits of the bytes, and is written over.
fn is_written(bytes: &[u8], again: &mut [u8], digits: &[u8]) -> bool
    requires { length again.old ≡ 2 * length bytes.now }
    ensures { IsTrue result ↔ (digits.now ≡ encode_lower bytes.now) }
{
    digits_of(bytes, again);
    *digits == *again
}

/// Writes the hexadecimal digits of the bytes.
pub(crate) fn digits_of(bytes: &[u8], out: &mut [u8])
    requires { length out.old ≡ 2 * length bytes.now }
    ensures { out.new ≡ encode_lower bytes.now }
{
    let _fits = hex::encode_to_slice(bytes, out);
}

/// The word whose text this is as no instruction.
pub(crate) fn word(text: &[u8]) -> Option<u32>
    ensures text { IfSome result (λ w. text.now ≡ word_text w) }
    ensures only { (w : ℕ) → w < 2 ^ 32 → text.now ≡ word_text w → result ≡ Some w }
{
    match after(text, b"word ") {
        Some(digits) => word_of(digits),
        None => None,
    }
}

/// The word of these digits, the highest first.
fn word_of(digits: &[u8]) -> Option<u32>
    ensures text { IfSome result (λ w. digits.now ≡ encode_lower (to_be_bytes w32 w)) }
    ensures only { (w : ℕ) → w < 2 ^ 32 → digits.now ≡ encode_lower (to_be_bytes w32 w) → result ≡ Some w }
{
    let mut bytes = [0; 4];
    match hex::decode_to_slice(digits, &mut bytes) {
        Ok(()) => checked(u32::from_be_bytes(bytes), digits),
        Err(_) => None,
    }
}

/// The word, if these are its digits.
fn checked(w: u32, digits: &[u8]) -> Option<u32>
    ensures text { IfSome result (λ v. digits.now ≡ encode_lower (to_be_bytes w32 v)) }
    ensures only { digits.now ≡ encode_lower (to_be_bytes w32 w) → result ≡ Some w }
{
    if is_written(w.to_be_bytes().as_slice(), &mut [0; 8], digits) {
        Some(w)
    } else {
        None
    }
}

/// Whether a line with this word and at most so many hexadecimal digits can begin so.
pub(crate) fn begins_row(word: &[u8], count: usize, cut: &[u8]) -> bool
    ensures { IsTrue result ↔ cut_lines.DigitsBegin word.now count cut.now }
{
    match after(cut, word) {
        Some(digits) => {
            if digits.len() <= count {
                are_digits(digits)
            } else {
                false
            }
        }
        None => is_front(cut, word),
    }
}

/// Whether these are hexadecimal digits in lower case.
fn are_digits(text: &[u8]) -> bool
    ensures { result ≡ cut_lines.are_digits text.now }
{
    for b in text {
        if !is_digit(*b) {
            return false;
        }
    }
    true
}

/// Whether it is a hexadecimal digit in lower case.
fn is_digit(b: u8) -> bool
    ensures { result ≡ cut_lines.is_digit b }
{
    matches!(b, b'0'..=b'9' | b'a'..=b'f')
}
