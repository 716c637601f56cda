//! The choice among the rows of a nonterminal by the symbol that comes next.

ghost use Rattle.std.specs.Prelude.{◌≡◌};
ghost use Rattle.clu_grammar.specs.Choice.{has, is_among, step, step_of};
ghost use Rattle.clu_grammar.specs.Grammar.{productions};

use crate::items::{Item, Nonterminal, Row};
use crate::table::rows;
use clu_lexer::Symbol;

/// What a parser does at a nonterminal.
#[derive(Clone, Copy)]
pub enum Choice {
    /// The next symbol is taken, and the items are to be read after it.
    Take(&'static [Item]),
    /// The items are to be read.
    Go(&'static [Item]),
    /// No row is for the next symbol.
    No,
}

/// Whether the symbol is one of these.
fn has(symbols: &[Symbol], symbol: Symbol) -> bool
    ensures { result ≡ has symbols.now symbol }
{
    for one in symbols {
        if *one == symbol {
            return true;
        }
    }
    false
}

/// Whether a symbol comes next and is one of these.
fn is_among(next: Option<Symbol>, symbols: &[Symbol]) -> bool
    ensures { result ≡ is_among next symbols.now }
{
    match next {
        Some(symbol) => has(symbols, symbol),
        None => false,
    }
}

/// The first row of the nonterminal that is for the next symbol; None stands for the end.
pub fn choose(nonterminal: Nonterminal, next: Option<Symbol>) -> Choice
    ensures { step_of result ≡ step (productions nonterminal) next }
{
    for row in rows(nonterminal) {
        match row {
            Row::Take(symbols, items) => {
                if is_among(next, symbols) {
                    return Choice::Take(items);
                }
            }
            Row::Peek(symbols, items) => {
                if is_among(next, symbols) {
                    return Choice::Go(items);
                }
            }
            Row::Otherwise(items) => return Choice::Go(items),
        }
    }
    Choice::No
}
