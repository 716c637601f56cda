//! The whole of parsing: levels, the grammar, depth, in this order.

ghost use Rattle.std.specs.Prelude.{◌≡◌, ◌≤◌, length, slice_get, None, OnOk, IfOk, IfErr};
ghost use Rattle.std.specs.Option.{option_copied};
ghost use Rattle.clu_grammar.specs.Language.{IsFile};
ghost use Rattle.clu_lexer.specs.Tokens.{Tokens};
ghost use Rattle.clu_parser.specs.Depths.{IsFirstTooDeep};
ghost use Rattle.clu_parser.specs.Levels.{IsLow};
ghost use Rattle.clu_parser.specs.Order.{IsPostOrder, IsFileOver};
ghost use Rattle.clu_parser.specs.Parsing.{symbols_of, text_of, place_in, place_of, IsTreeOf, IsFault};
ghost use Rattle.clu_parser.specs.Shape.{IsShaped, HaveForms};

use crate::builder::Builder;
use crate::errors::{ParseError, ReadError};
use crate::reader::read;
use crate::source::{Source, symbols_of};
use crate::{depth, levels};
use clu_base::{Place, Token};
use clu_lexer::end_place;
use clu_tree::Tree;
use std::alloc::Global;

/// The place of the token, or of the end where there is none.
fn place_in(bytes: &[u8], token: Option<&Token>) -> Place
    requires { length bytes.now ≤ 1_048_576 }
    ensures { result ≡ place_in bytes.now (option_copied token.entry) }
{
    match token {
        Some(token) => token.place,
        None => end_place(bytes),
    }
}

/// The place of the token of this number, or of the end.
fn place_of(bytes: &[u8], tokens: &[Token], n: usize) -> Place
    requires { length bytes.now ≤ 1_048_576 }
    ensures { result ≡ place_of bytes.now tokens.now n }
{
    place_in(bytes, tokens.get(n))
}

/// The syntax tree of a source, whose tokens these are (CLU Reference Manual, appendix on syntax).
/// It is refused, in this order: `TooDeep` at the first token at which the level passes 200;
/// `Syntax` at the first token with which the tokens begin no file of the grammar, the end counting
/// as one; `TooDeep` at the first node in the text that is deeper than 200.
pub fn parse(alloc: Global, bytes: &[u8], tokens: &[Token]) -> Result<Tree, ParseError>
    requires small { length bytes.now ≤ 1_048_576 }
    requires tokens { Tokens bytes.now tokens.now }
    ensures low { OnOk result (IsLow (symbols_of bytes.now tokens.now) (length tokens.now)) }
    ensures file { OnOk result (IsFile (symbols_of bytes.now tokens.now)) }
    ensures tree { IfOk result (IsTreeOf bytes.now tokens.now) }
    ensures order { IfOk result (λ tree. IsPostOrder tree) }
    ensures root { IfOk result (IsFileOver (length tokens.now)) }
    ensures shape { IfOk result (IsShaped (text_of bytes.now tokens.now)) }
    ensures forms { IfOk result (λ tree. HaveForms tree) }
    ensures shallow { IfOk result (λ tree. IsFirstTooDeep tree None) }
    ensures fault { IfErr result (IsFault bytes.now tokens.now) }
{
    let symbols = symbols_of(alloc, bytes, tokens)?;
    let source = Source {
        bytes,
        tokens,
        symbols: symbols.as_slice(),
    };
    match levels::first_too_deep(source.symbols) {
        Some(at) => return Err(ParseError::TooDeep(place_of(bytes, tokens, at))),
        None => {}
    }
    let mut builder = Builder::new(alloc);
    match read(alloc, &source, &mut builder) {
        Ok(()) => {}
        Err(ReadError::Syntax(at)) => return Err(ParseError::Syntax(place_of(bytes, tokens, at))),
        Err(ReadError::Memory) => return Err(ParseError::Memory),
    }
    let tree = builder.into_tree();
    match depth::first_too_deep(alloc, &tree)? {
        Some(place) => Err(ParseError::TooDeep(place)),
        None => Ok(tree),
    }
}
