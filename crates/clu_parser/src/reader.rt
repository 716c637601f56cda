//! The driver of the grammar's table: it reads symbols with a stack of items, knows no production,
//! and hands the actions to the builder.

ghost use Rattle.std.specs.Prelude.{◌≡◌, ◌-◌, ◌^◌, ◌<◌, ◌++◌, ◌↔◌, IsTrue, Some, reverse, slice_get, OnOk, IfErr};
ghost use Rattle.clu_grammar.specs.Language.{IsFile};
ghost use Rattle.clu_parser.specs.Faults.{IsReadFault};
ghost use Rattle.clu_parser.specs.Steps.{allowance};
ghost use Rattle.clu_parser.specs.Trees.{text, nothing_built, IsBuilt};

use crate::builder::Builder;
use crate::errors::ReadError;
use crate::source::Source;
use clu_base::Memory;
use clu_grammar::{Choice, Item, Nonterminal, choose};
use clu_lexer::Symbol;
use std::alloc::Global;

/// The symbol of this number; None at the end.
fn symbol_at(symbols: &[Symbol], at: usize) -> Option<Symbol>
    ensures { result ≡ slice_get symbols.now at }
{
    symbols.get(at).copied()
}

/// Whether this symbol comes at the place.
fn is_at(symbols: &[Symbol], at: usize, symbol: Symbol) -> bool
    ensures { IsTrue result ↔ (slice_get symbols.now at ≡ Some symbol) }
{
    match symbol_at(symbols, at) {
        Some(found) => found == symbol,
        None => false,
    }
}

/// Puts the items on the stack, the first on top.
fn push_row(stack: &mut Vec<Item>, items: &[Item]) -> Result<(), Memory>
    ensures { OnOk result (reverse stack.new.items ≡ items.now ++ reverse stack.old.items) }
{
    let mut left = items;
    'row: while let Some((last, rest)) = left.split_last() {
        stack.push(*last)?;
        left = rest;
    }
    Ok(())
}

/// Reads the symbols as a file of the grammar, with a tree in the making.
pub fn read(alloc: Global, source: &Source, builder: &mut Builder) -> Result<(), ReadError>
    requires nothing { builder.old ≡ nothing_built }
    requires room { allowance (text source.now) < 2 ^ 32 - 1 }
    ensures file { OnOk result (IsFile source.now.symbols.now) }
    ensures tree { OnOk result (IsBuilt (text source.now) builder.new) }
    ensures fault { IfErr result (IsReadFault source.now.symbols.now) }
{
    let symbols = source.symbols;
    let mut stack = Vec::new(alloc);
    push_row(&mut stack, &[Item::Nonterminal(Nonterminal::File)])?;
    let mut at = 0;
    'items: while let Some(item) = stack.pop() {
        match item {
            Item::Terminal(symbol) => {
                if !is_at(symbols, at, symbol) {
                    return Err(ReadError::Syntax(at));
                }
                at += 1;
            }
            Item::Action(action) => builder.act(alloc, source, action, at)?,
            Item::Nonterminal(nonterminal) => match choose(nonterminal, symbol_at(symbols, at)) {
                Choice::Take(items) => {
                    at += 1;
                    push_row(&mut stack, items)?;
                }
                Choice::Go(items) => push_row(&mut stack, items)?,
                Choice::No => return Err(ReadError::Syntax(at)),
            },
        }
    }
    if at < symbols.len() {
        return Err(ReadError::Syntax(at));
    }
    Ok(())
}
