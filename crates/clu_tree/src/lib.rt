//! Syntax trees of CLU sources: nodes in an array, each child before its parent, with the count
//! of the nodes below each of them.
#![tactic(auto)]

mod count;
mod node;
mod tree;

pub use crate::node::{Node, NodeKind};
pub use crate::tree::Tree;
