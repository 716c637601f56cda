//! The parser: from the tokens of a source to its syntax tree, or the first place at which it
//! ceases to be a file of the grammar or is too deep.
#![tactic(auto)]

mod begun;
mod brackets;
mod builder;
mod depth;
mod errors;
mod levels;
mod nodes;
mod parsing;
mod reader;
mod source;

pub use crate::errors::ParseError;
pub use crate::parsing::parse;
