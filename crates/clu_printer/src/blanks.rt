//! Blanks between two tokens of a line.

ghost use Rattle.std.specs.Prelude.{◌≡◌};
ghost use Rattle.clu_printer.specs.Blanks.{blank_between, clings, holds, is_argument_list, takes_arguments, would_be_real};

use clu_lexer::Symbol;

/// Whether a token never has a blank before it, but after an integer literal.
fn clings(symbol: Symbol) -> bool
    ensures { result ≡ clings symbol }
{
    match symbol {
        Symbol::Comma
        | Symbol::Colon
        | Symbol::Point
        | Symbol::RightParen
        | Symbol::RightBracket
        | Symbol::RightBrace
        | Symbol::LeftBracket
        | Symbol::Dollar => true,
        _ => false,
    }
}

/// Whether a `(` clings to the token.
fn takes_arguments(symbol: Symbol) -> bool
    ensures { result ≡ takes_arguments symbol }
{
    match symbol {
        Symbol::Idn | Symbol::RightParen | Symbol::RightBracket | Symbol::RightBrace => true,
        _ => false,
    }
}

/// Whether what follows the token clings to it.
fn holds(symbol: Symbol) -> bool
    ensures { result ≡ holds symbol }
{
    match symbol {
        Symbol::LeftParen
        | Symbol::LeftBracket
        | Symbol::LeftBrace
        | Symbol::Point
        | Symbol::Dollar => true,
        _ => false,
    }
}

/// Whether the two tokens would be a real literal without a blank.
fn would_be_real(before: Symbol, symbol: Symbol) -> bool
    ensures { result ≡ would_be_real before symbol }
{
    before == Symbol::IntLiteral && symbol == Symbol::Point
}

fn is_argument_list(before: Symbol, symbol: Symbol) -> bool
    ensures { result ≡ is_argument_list before symbol }
{
    symbol == Symbol::LeftParen && takes_arguments(before)
}

/// Whether a blank stands between the tokens.
pub fn blank_between(before: Symbol, symbol: Symbol) -> bool
    ensures { result ≡ blank_between before symbol }
{
    would_be_real(before, symbol)
        || !(clings(symbol) || holds(before) || is_argument_list(before, symbol))
}
