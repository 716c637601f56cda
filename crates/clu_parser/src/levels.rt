//! Levels: how many brackets and statements with an end are open at a token.

ghost use Rattle.std.specs.Prelude.{◌≡◌, ◌-◌, ◌<◌, ◌^◌};
ghost use Rattle.clu_parser.specs.Levels.{opens, closes, level_behind, IsFirstTooHigh};

use clu_lexer::Symbol;

/// How deep marks and words may nest, and how deep nodes.
pub const DEEPEST: u32 = 200;

/// Whether the symbol begins a level.
fn opens(symbol: Symbol) -> bool
    ensures { result ≡ opens symbol }
{
    match symbol {
        Symbol::LeftParen
        | Symbol::LeftBracket
        | Symbol::LeftBrace
        | Symbol::If
        | Symbol::While
        | Symbol::For
        | Symbol::Tagcase
        | Symbol::Begin
        | Symbol::Except
        | Symbol::Proc
        | Symbol::Iter
        | Symbol::Cluster => true,
        _ => false,
    }
}

/// Whether the symbol ends a level.
fn closes(symbol: Symbol) -> bool
    ensures { result ≡ closes symbol }
{
    match symbol {
        Symbol::RightParen | Symbol::RightBracket | Symbol::RightBrace | Symbol::End => true,
        _ => false,
    }
}

/// The level after a symbol that is not above the deepest; a level does not fall below 0.
fn level_behind(level: u32, symbol: Symbol) -> u32
    requires { level < 2 ^ 32 - 1 }
    ensures { result ≡ level_behind level symbol }
{
    if opens(symbol) {
        level + 1
    } else if closes(symbol) {
        level.saturating_sub(1)
    } else {
        level
    }
}

/// The number of the first symbol at which the level passes the deepest.
pub fn first_too_deep(symbols: &[Symbol]) -> Option<usize>
    ensures { IsFirstTooHigh symbols.now result }
{
    let mut level = 0;
    for (at, symbol) in symbols.iter().enumerate() {
        level = level_behind(level, *symbol);
        if level > DEEPEST {
            return Some(at);
        }
    }
    None
}
