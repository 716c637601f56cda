//! Tokens of CLU source text: which bytes separate tokens, which are a token and of which kind,
//! and where each token stands (CLU Reference Manual, section 5).
#![tactic(auto)]

mod classes;
mod places;
mod scanner;
mod separators;
mod symbols;
mod tokens;

pub use crate::symbols::{Symbol, symbol_of};
pub use crate::tokens::{LexError, end_place, lex};
pub use clu_base::{Kind, Token};
