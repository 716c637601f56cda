//! The declarations of a tree with their scopes, which are ranges of nodes, and the declaration that each name denotes
//! (CLU Reference Manual, section 4.2).
#![tactic(auto)]

mod binding;
mod declaring;
mod latest;
mod order;
mod reading;
mod scopes;

pub use crate::binding::{Names, names_of};
pub use crate::declaring::declarations;
pub use crate::scopes::Declared;
