//! What each operator gives for constants, exactly (CLU Reference Manual, sections 7.2 and 10.15).
#![tactic(auto)]

mod folding;

pub use crate::folding::{Operator, Prefix, fold, fold_prefix, infix_operator, prefix_operator};
