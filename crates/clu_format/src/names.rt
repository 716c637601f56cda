//! Names of modules, routines and exceptions, alone (CLU Reference Manual, section 3).

ghost use Rattle.std.specs.Prelude.{◌≡◌};
ghost use Rattle.std.specs.List.{list_all};
ghost use Rattle.clu_specs.specs.Names.{begins_name, goes_on_name, is_reserved, is_named};
ghost use Rattle.clu_format.specs.Fields.{is_name, is_module_name, is_after};

use clu_base::Kind;
use clu_lexer::{Symbol, symbol_of};
use std::cmp::Ordering;

/// How many bytes a name has at most.
const LONGEST: usize = 200;

/// Whether a name may begin with the byte: a small letter or `_`.
fn begins_name(b: u8) -> bool
    ensures { result ≡ begins_name b }
{
    b.is_ascii_lowercase() || b == b'_'
}

/// Whether each byte may stand in a name.
fn are_of_names(bytes: &[u8]) -> bool
    ensures { result ≡ list_all goes_on_name bytes.now }
{
    for b in bytes {
        if !(begins_name(*b) || b.is_ascii_digit()) {
            return false;
        }
    }
    true
}

/// Whether the bytes begin as a name does.
fn is_begun(bytes: &[u8]) -> bool
    ensures { result ≡ is_named bytes.now }
{
    match bytes {
        [] => false,
        [first, ..] => begins_name(*first),
    }
}

/// Whether the word is one of the language's own.
#[tactic(auto, unfolding(clu_specs::specs::Names::is_reserved))]
fn is_reserved(word: &[u8]) -> bool
    ensures { result ≡ is_reserved word.now }
{
    match symbol_of(Kind::Word, word) {
        Symbol::Unknown => false,
        _ => true,
    }
}

/// Whether the bytes are a name: of 1 to 200 small letters, digits and `_`, not beginning with a digit, and no reserved
/// word.
pub fn is_name(bytes: &[u8]) -> bool
    ensures { result ≡ is_name bytes.now }
{
    is_begun(bytes) && bytes.len() <= LONGEST && are_of_names(bytes) && !is_reserved(bytes)
}

/// Whether the bytes are the name of a module, which is not `stream`.
pub fn is_module_name(bytes: &[u8]) -> bool
    ensures { result ≡ is_module_name bytes.now }
{
    is_name(bytes) && bytes != b"stream".as_slice()
}

/// Whether bytes come after others: byte by byte, a proper front first.
pub fn is_after(previous: &[u8], bytes: &[u8]) -> bool
    ensures { result ≡ is_after previous.now bytes.now }
{
    match previous.cmp(&bytes) {
        Ordering::Less => true,
        Ordering::Equal | Ordering::Greater => false,
    }
}
