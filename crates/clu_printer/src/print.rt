//! The printed text.

ghost use Rattle.std.specs.Prelude.{◌≡◌, ◌++◌, ◌∷◌, [], map, if◌then◌else◌, IfOk, OnOk};
ghost use Rattle.std.specs.Char.{to_ascii_lowercase};
ghost use Rattle.clu_printer.specs.Printed.{blank_behind, indent_at, indentation, line_end, lines, made, nothing_made, prefix_at, printed, printed_behind, space, symbol_at, token_text, with_next, with_token};

use crate::blanks::blank_between;
use crate::lines::{Layout, bytes_of, layout_of, symbols_of};
use clu_base::{Bytes, Kind, Memory, Token};
use clu_lexer::Symbol;
use clu_tree::Tree;
use std::alloc::Global;

/// The token printed last.
#[derive(Clone, Copy)]
struct Before {
    symbol: Symbol,
    /// Whether it is the operator of a Prefix.
    is_prefix: bool,
}

/// A text in the making.
#[derive(Drop)]
struct Text {
    bytes: Vec<u8>,
    last: Option<Before>,
}

/// Indents a line by so many steps of two blanks.
fn indent(bytes: &mut Vec<u8>, steps: u32) -> Result<(), Memory>
    ensures { OnOk result (bytes.new.items ≡ bytes.old.items ++ indentation steps) }
{
    for _ in 0..steps {
        bytes.extend_from_slice(b"  ")?;
    }
    Ok(())
}

/// Ends the line before, if there is one.
fn end_line(bytes: &mut Vec<u8>) -> Result<(), Memory>
    ensures { OnOk result (bytes.new.items ≡ bytes.old.items ++ line_end bytes.old.items) }
{
    match bytes.as_slice() {
        [] => Ok(()),
        _ => {
            bytes.push(b'\n')?;
            Ok(())
        }
    }
}

/// Whether a blank stands between the token printed last and the next one of its line.
fn has_blank(last: Option<Before>, symbol: Symbol) -> bool
    ensures { blank_behind last symbol ≡ (if result then 32 ∷ [] else []) }
{
    match last {
        Some(before) => !before.is_prefix && blank_between(before.symbol, symbol),
        None => false,
    }
}

/// What stands before the token: a new line, a blank or nothing.
fn add_space(
    bytes: &mut Vec<u8>,
    last: Option<Before>,
    begins: Option<u32>,
    symbol: Symbol,
) -> Result<(), Memory>
    ensures { OnOk result (bytes.new.items ≡ bytes.old.items ++ space bytes.old.items last begins symbol) }
{
    match begins {
        Some(steps) => {
            end_line(bytes)?;
            indent(bytes, steps)
        }
        None => {
            if has_blank(last, symbol) {
                bytes.push(b' ')?;
            }
            Ok(())
        }
    }
}

/// The text of a token, words and identifiers in lower case.
fn add_token(bytes: &mut Vec<u8>, kind: Kind, text: &[u8]) -> Result<(), Memory>
    ensures { OnOk result (bytes.new.items ≡ bytes.old.items ++ token_text kind text.now) }
{
    match kind {
        Kind::Word | Kind::Idn => add_in_lower_case(bytes, text),
        _ => {
            bytes.extend_from_slice(text)?;
            Ok(())
        }
    }
}

fn add_in_lower_case(bytes: &mut Vec<u8>, text: &[u8]) -> Result<(), Memory>
    ensures { OnOk result (bytes.new.items ≡ bytes.old.items ++ map to_ascii_lowercase text.now) }
{
    for b in text {
        bytes.push(b.to_ascii_lowercase())?;
    }
    Ok(())
}

impl Text {
    /// Prints a token, which may begin a line.
    fn add(
        &mut self,
        bytes: &[u8],
        token: &Token,
        symbol: Symbol,
        begins: Option<u32>,
        is_prefix: bool,
    ) -> Result<(), Memory>
        ensures { OnOk result (made self.new ≡ with_token bytes.now token.now symbol begins is_prefix (made self.old)) }
    {
        add_space(&mut self.bytes, self.last, begins, symbol)?;
        add_token(&mut self.bytes, token.kind, bytes_of(bytes, token))?;
        self.last = Some(Before { symbol, is_prefix });
        Ok(())
    }

    /// Prints the token of this number, but for the optional `;`.
    fn add_next(
        &mut self,
        bytes: &[u8],
        symbols: &[Symbol],
        layout: &Layout,
        at: usize,
        token: &Token,
    ) -> Result<(), Memory>
        ensures { OnOk result (made self.new ≡ with_next bytes.now symbols.now (lines layout.now) at token.now (made self.old)) }
    {
        let symbol = symbol_at(symbols, at);
        if symbol == Symbol::Semicolon {
            return Ok(());
        }
        self.add(
            bytes,
            token,
            symbol,
            indent_at(layout.begins.as_slice(), at),
            prefix_at(layout.prefix.as_slice(), at),
        )
    }
}

fn symbol_at(symbols: &[Symbol], at: usize) -> Symbol
    ensures { result ≡ symbol_at symbols.now at }
{
    match symbols.get(at) {
        Some(symbol) => *symbol,
        None => Symbol::Unknown,
    }
}

fn indent_at(begins: &[Option<u32>], at: usize) -> Option<u32>
    ensures { result ≡ indent_at begins.now at }
{
    begins.get(at).copied().unwrap_or(None)
}

fn prefix_at(prefix: &[bool], at: usize) -> bool
    ensures { result ≡ prefix_at prefix.now at }
{
    prefix.get(at).copied().unwrap_or(false)
}

/// The text of all tokens.
fn text_of(
    alloc: Global,
    bytes: &[u8],
    tokens: &[Token],
    symbols: &[Symbol],
    layout: &Layout,
) -> Result<Vec<u8>, Memory>
    ensures { IfOk result (λ text. text.items ≡ (printed_behind bytes.now symbols.now (lines layout.now) 0 tokens.now nothing_made).text) }
{
    let mut text = Text {
        bytes: Vec::new(alloc),
        last: None,
    };
    for (at, token) in tokens.iter().enumerate() {
        text.add_next(bytes, symbols, layout, at, token)?;
    }
    let Text { bytes, last: _ } = text;
    Ok(bytes)
}

/// The source in its one layout: the tokens without the optional `;` and without comments, words
/// and identifiers in lower case. A line begins at each equate of a body or module, own
/// declaration, routine, cluster, statement, arm, and at `except`, `elseif`, `else`, the `others`
/// of a tagcase and `end`; it is indented by two blanks for each body that holds it. The tree is
/// that of the tokens. The only error is that memory runs out.
pub fn printed(alloc: Global, bytes: &[u8], tokens: &[Token], tree: &Tree) -> Result<Bytes, Memory>
    ensures { IfOk result (λ text. text ≡ printed bytes.now tokens.now tree.now) }
{
    let symbols = symbols_of(alloc, bytes, tokens)?;
    let layout = layout_of(alloc, symbols.as_slice(), tree)?;
    let mut text = text_of(alloc, bytes, tokens, symbols.as_slice(), &layout)?;
    text.push(b'\n')?;
    Ok(Bytes::from_vec(text))
}
