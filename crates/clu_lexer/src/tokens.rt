//! The tokens of a source, or the place where no token begins.

ghost use Rattle.std.specs.Prelude.{◌≡◌, ◌≤◌, length, IfOk, IfErr};
ghost use Rattle.clu_lexer.specs.Tokens.{kind_in, IsNext, Tokens, IsFault};
ghost use Rattle.clu_lexer.specs.Places.{place_at};

use crate::places::advance;
use crate::scanner::longest;
use crate::separators::gap;
use crate::symbols::{WORDS, symbol_named};
use clu_base::{Kind, Memory, Place, Token};
use std::alloc::{AllocFailed, Global};

/// Why a source has no list of tokens.
#[derive(Clone, Copy, Debug)]
pub enum LexError {
    /// No token begins at this place.
    Token(Place),
    /// Memory was refused.
    Memory,
}

impl<T: Drop> From<AllocFailed<T>> for LexError {
    ghost use Rattle.std.specs.Prelude.{◌≡◌};
    ghost use Rattle.clu_lexer.specs.declared.tokens.LexError.TheVariants.{Memory};

    ghost from_gives = { λ _ e. e ≡ Memory };

    fn from(_error: AllocFailed<T>) -> LexError {
        LexError::Memory
    }
}

/// The kind of a token of this class: an identifier that is a reserved word is a word.
fn kind_in(class: Kind, text: &[u8]) -> Kind
    ensures { result ≡ kind_in class text.now }
{
    match class {
        Kind::Idn => match symbol_named(&WORDS, text) {
            Some(_) => Kind::Word,
            None => Kind::Idn,
        },
        _ => class,
    }
}

/// The first token after `from`, whose place is given; None where there is none up to the end.
/// The error is the place at which bytes stand that begin no token.
fn token_after(bytes: &[u8], from: usize, place: Place) -> Result<Option<Token>, Place>
    requires within { from ≤ length bytes.now }
    requires small { length bytes.now ≤ 1_048_576 }
    requires placed { place ≡ place_at bytes.now from }
    ensures { IsNext bytes.now from result }
{
    let start = from + gap(&bytes[from..]);
    let place = advance(place, &bytes[from..start]);
    let rest = &bytes[start..];
    if rest.is_empty() {
        return Ok(None);
    }
    match longest(rest) {
        None => Err(place),
        Some((class, len)) => {
            let kind = kind_in(class, &rest[..len]);
            let end = start + len;
            Ok(Some(Token {
                kind,
                start: start as u32,
                end: end as u32,
                place,
            }))
        }
    }
}

/// The tokens of the source, in order, each the longest that begins where it stands (CLU
/// Reference Manual, section 5). `LexError::Token` has the place of the first bytes that begin
/// none.
pub fn lex(alloc: Global, bytes: &[u8]) -> Result<Vec<Token>, LexError>
    requires { length bytes.now ≤ 1_048_576 }
    ensures tokens { IfOk result (λ tokens. Tokens bytes.now tokens.items) }
    ensures fault { IfErr result (IsFault bytes.now) }
{
    let mut tokens = Vec::new(alloc);
    let mut at = 0;
    let mut place = Place { line: 1, col: 1 };
    'tokens: loop {
        match token_after(bytes, at, place) {
            Err(bad) => return Err(LexError::Token(bad)),
            Ok(None) => return Ok(tokens),
            Ok(Some(token)) => {
                let start = token.start as usize;
                at = token.end as usize;
                place = advance(token.place, &bytes[start..at]);
                tokens.push(token)?;
            }
        }
    }
}

/// The place after the last byte, where a fault at the end of the source is.
pub fn end_place(bytes: &[u8]) -> Place
    requires { length bytes.now ≤ 1_048_576 }
    ensures { result ≡ place_at bytes.now (length bytes.now) }
{
    advance(Place { line: 1, col: 1 }, bytes)
}
