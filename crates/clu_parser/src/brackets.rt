//! Which square brackets close before a `$`, so that a name before them is a type's.

ghost use Rattle.std.specs.Prelude.{◌≡◌};
ghost use Rattle.clu_parser.specs.Spellings.{is_dollar, closes};

use clu_lexer::Symbol;

/// Whether the symbols begin with `$`.
fn is_dollar(symbols: &[Symbol]) -> bool
    ensures { result ≡ is_dollar symbols.now }
{
    match symbols {
        [] => false,
        [symbol, ..] => *symbol == Symbol::Dollar,
    }
}

/// Whether the bracket that is open before the symbols closes before a `$`. Square brackets alone
/// are counted. The level of a source bounds how often a symbol is looked at so.
pub fn closes_before_dollar(symbols: &[Symbol]) -> bool
    ensures { result ≡ closes 0 symbols.now }
{
    let mut depth = 0usize;
    let mut left = symbols;
    'brackets: while let [symbol, rest @ ..] = left {
        if *symbol == Symbol::LeftBracket {
            depth += 1;
        } else if *symbol == Symbol::RightBracket {
            if depth == 0 {
                return is_dollar(rest);
            }
            depth -= 1;
        }
        left = rest;
    }
    false
}
