//! The source as the parser sees it: its tokens with their bytes, and what each is to the grammar.

ghost use Rattle.std.specs.Prelude.{◌≡◌, map, IfOk, slice_get, option_copied};
ghost use Rattle.clu_parser.specs.Spellings.{bytes_of, symbol_in, spelled, spelling, place_in};

use clu_base::{Bytes, Kind, Memory, Place, Token};
use clu_lexer::{Symbol, symbol_of};
use std::alloc::Global;

/// A source in tokens.
#[derive(Clone, Copy)]
pub struct Source<'a> {
    pub bytes: &'a [u8],
    pub tokens: &'a [Token],
    pub symbols: &'a [Symbol],
}

/// The bytes of a token.
pub fn bytes_of<'a>(bytes: &'a [u8], token: &Token) -> &'a [u8]
    ensures { result.now ≡ bytes_of bytes.now token.now }
{
    let start = (token.start as usize).min(bytes.len());
    let rest = &bytes[start..];
    let len = (token.end.saturating_sub(token.start) as usize).min(rest.len());
    &rest[..len]
}

/// The symbols of the tokens, in order.
pub fn symbols_of(alloc: Global, bytes: &[u8], tokens: &[Token]) -> Result<Vec<Symbol>, Memory>
    ensures { IfOk result (λ symbols. symbols.items ≡ map (symbol_in bytes.now) tokens.now) }
{
    let mut symbols = Vec::with_capacity(alloc, tokens.len())?;
    for token in tokens {
        symbols.push(symbol_of(token.kind, bytes_of(bytes, token)))?;
    }
    Ok(symbols)
}

/// The place of the token, if there is one.
pub fn place_in(token: Option<&Token>) -> Place
    ensures { result ≡ place_in (option_copied token.entry) }
{
    match token {
        Some(token) => token.place,
        None => Place { line: 1, col: 1 },
    }
}

/// The bytes as they stand in a node: those of literals as they are, all others in lower case.
fn spelled(alloc: Global, kind: Kind, text: &[u8]) -> Result<Bytes, Memory>
    ensures { IfOk result (λ b. b ≡ spelled kind text.now) }
{
    match kind {
        Kind::Int | Kind::Real | Kind::Char | Kind::Str => {
            let same = Bytes::from_slice(alloc, text)?;
            Ok(same)
        }
        Kind::Word | Kind::Idn | Kind::Mark => {
            let lower = text.iter().map(|b| b.to_ascii_lowercase()).collect(alloc)?;
            Ok(Bytes::from_vec(lower))
        }
    }
}

/// The token as it stands in a node; empty where there is none.
pub fn spelling(alloc: Global, bytes: &[u8], token: Option<&Token>) -> Result<Bytes, Memory>
    ensures { IfOk result (λ b. b ≡ spelling bytes.now (option_copied token.entry)) }
{
    match token {
        Some(token) => spelled(alloc, token.kind, bytes_of(bytes, token)),
        None => Ok(Bytes::from_vec(Vec::new(alloc))),
    }
}
