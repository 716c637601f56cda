//! The grammar of CLU, as a table for a parser that looks one symbol ahead, with the actions that
//! build the syntax tree (CLU Reference Manual, appendix on syntax).
#![tactic(auto)]

mod choice;
mod declarations;
mod expressions;
mod items;
mod modules;
mod sets;
mod statements;
mod table;

pub use crate::choice::{Choice, choose};
pub use crate::items::{Action, Item, Nonterminal, Row};
pub use crate::table::rows;
