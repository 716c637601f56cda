//! Printed sources: the tokens of a file in its one layout, with lines and indentation by the
//! syntax tree.
#![tactic(auto)]

mod blanks;
mod lines;
mod print;

pub use crate::print::printed;
