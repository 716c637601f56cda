//! The bytes that a literal denotes, from its spelling with its marks.

ghost use Rattle.std.specs.Prelude.{◌≡◌, ◌≤◌, ◌-◌, length, IfOk, IfSome};
ghost use Rattle.clu_literal.specs.Literal.{as_byte, char_denoted, string_denoted, text_denoted};

use crate::escapes::{escape_code, escape_len};
use clu_base::{Bytes, Memory};
use std::alloc::Global;

/// The bytes that the string literal of this spelling denotes, or None where an octal code in it is
/// above 377. The spelling has its marks, as in `"a\n"`, and is longer than what it denotes. The only
/// error is that memory runs out.
pub fn string_bytes(alloc: Global, spelling: &[u8]) -> Result<Option<Bytes>, Memory>
    ensures denoted { IfOk result (λ found. found ≡ string_denoted spelling.now) }
    ensures short { IfOk result (λ found. IfSome found (λ bytes. length bytes ≤ length spelling.now - 1)) }
{
    match spelling {
        [_, text @ ..] => text_bytes(alloc, text),
        [] => Ok(Some(Bytes::from_vec(Vec::new(alloc)))),
    }
}

/// The byte that the character literal of this spelling denotes, or None where it is an octal code
/// above 377. The spelling has its marks, as in `'a'`.
pub fn char_byte(spelling: &[u8]) -> Option<u8>
    ensures { result ≡ char_denoted spelling.now }
{
    match spelling {
        [_, b'\\', rest @ ..] => as_byte(escape_code(rest)),
        [_, b, ..] => Some(*b),
        _ => None,
    }
}

/// The code as a byte, if it is one.
fn as_byte(code: u16) -> Option<u8>
    ensures { result ≡ as_byte code }
{
    if code < 256 { Some(code as u8) } else { None }
}

/// The bytes of a string literal from after its opening mark on.
#[tactic(auto, using(crate::proofs::Taken::taken_laws))]
fn text_bytes(alloc: Global, mut text: &[u8]) -> Result<Option<Bytes>, Memory>
    ensures denoted { IfOk result (λ found. found ≡ text_denoted 0 text.entry.now) }
    ensures short { IfOk result (λ found. IfSome found (λ bytes. length bytes ≤ length text.entry.now)) }
{
    let mut bytes = Vec::new(alloc);
    let mut skip = 0;
    while let [b, rest @ ..] = text {
        if skip > 0 {
            skip -= 1;
        } else if *b == b'"' {
            return Ok(Some(Bytes::from_vec(bytes)));
        } else if *b == b'\\' {
            match as_byte(escape_code(rest)) {
                Some(byte) => bytes.push(byte)?,
                None => return Ok(None),
            }
            skip = escape_len(rest);
        } else {
            bytes.push(*b)?;
        }
        text = rest;
    }
    Ok(Some(Bytes::from_vec(bytes)))
}
