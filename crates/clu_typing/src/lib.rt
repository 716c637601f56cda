//! The types of expressions, what is invoked and asked, and what is raised, for each node of a file by what is known of the
//! nodes in it (CLU Reference Manual, sections 10 to 13). No rule is asked.
#![tactic(auto)]

mod applied;
mod facts;
mod handled;
mod invoked;
mod invoking;
mod nodes;
mod operators;
mod pass;
mod raises;
mod raising;
mod typing;

pub use crate::facts::{Facts, Invocation, Invocations, Invoked, Operation};
pub use crate::pass::facts_of;
pub use crate::raising::{Raise, RaisesId};
