//! Words: the bytes of names, and the words that begin a type.

ghost use Rattle.std.specs.Prelude.{◌≡◌, map};
ghost use Rattle.clu_specs.specs.Keywords.{keyword_in, keyword_of};
ghost use Rattle.clu_specs.specs.Names.{begins_name, goes_on_name, is_reserved, first_word, behind_word};

use clu_base::Kind;
use clu_lexer::{Symbol, symbol_of};

/// A type of one word.
#[derive(Clone, Copy)]
pub enum Simple {
    Null,
    Bool,
    Int,
    Char,
    Str,
    Any,
    Stream,
}

/// A type with one part.
#[derive(Clone, Copy)]
pub enum Listing {
    Array,
    Sequence,
}

/// A type with selectors or tags.
#[derive(Clone, Copy)]
pub enum Selecting {
    Record,
    Struct,
    Oneof,
    Variant,
}

/// What a type that begins with a word of its own is.
#[derive(Clone, Copy)]
pub enum Keyword {
    Simple(Simple),
    Listing(Listing),
    Selecting(Selecting),
    /// A routine type: `itertype` where the flag holds.
    Routine(bool),
}

const KEYWORDS: [(&[u8], Keyword); 15] = [
    (b"null", Keyword::Simple(Simple::Null)),
    (b"bool", Keyword::Simple(Simple::Bool)),
    (b"int", Keyword::Simple(Simple::Int)),
    (b"char", Keyword::Simple(Simple::Char)),
    (b"string", Keyword::Simple(Simple::Str)),
    (b"any", Keyword::Simple(Simple::Any)),
    (b"stream", Keyword::Simple(Simple::Stream)),
    (b"array", Keyword::Listing(Listing::Array)),
    (b"sequence", Keyword::Listing(Listing::Sequence)),
    (b"record", Keyword::Selecting(Selecting::Record)),
    (b"struct", Keyword::Selecting(Selecting::Struct)),
    (b"oneof", Keyword::Selecting(Selecting::Oneof)),
    (b"variant", Keyword::Selecting(Selecting::Variant)),
    (b"proctype", Keyword::Routine(false)),
    (b"itertype", Keyword::Routine(true)),
];

/// The entry of the word. It goes at most as deep as the table has entries.
fn keyword_in(table: &[(&[u8], Keyword)], word: &[u8]) -> Option<Keyword>
    ensures { result ≡ keyword_in (map (λ entry. (entry.0.now, entry.1)) table.now) word.now }
{
    match table {
        [] => None,
        [(text, keyword), rest @ ..] => {
            if *text == word {
                Some(*keyword)
            } else {
                keyword_in(rest, word)
            }
        }
    }
}

/// What the type is that begins with this word, if it is one of the words of types.
#[tactic(auto, unfolding(crate::specs::Keywords::keyword_of))]
pub fn keyword_of(word: &[u8]) -> Option<Keyword>
    ensures { result ≡ keyword_of word.now }
{
    keyword_in(&KEYWORDS, word)
}

/// Whether the word is one of the language's own.
#[tactic(auto, unfolding(crate::specs::Names::is_reserved))]
pub fn is_reserved(word: &[u8]) -> bool
    ensures { result ≡ is_reserved word.now }
{
    match symbol_of(Kind::Word, word) {
        Symbol::Unknown => false,
        _ => true,
    }
}

/// Whether a name may begin with the byte: a small letter or `_`.
pub fn begins_name(b: u8) -> bool
    ensures { result ≡ begins_name b }
{
    b.is_ascii_lowercase() || b == b'_'
}

/// Whether a name may go on with the byte.
pub fn goes_on_name(b: u8) -> bool
    ensures { result ≡ goes_on_name b }
{
    begins_name(b) || b.is_ascii_digit()
}

/// The longest front of small letters, digits and `_`, and what follows it.
pub fn split_word(bytes: &[u8]) -> (&[u8], &[u8])
    ensures word { result.0.now ≡ first_word bytes.now }
    ensures behind { result.1.now ≡ behind_word bytes.now }
{
    for (i, b) in bytes.iter().enumerate() {
        if !goes_on_name(*b) {
            return bytes.split_at(i);
        }
    }
    bytes.split_at(bytes.len())
}
