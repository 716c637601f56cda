//! The order in which things come after those that they lead to, as equates after those that they name, and which of them
//! lead to a circle and so come after nothing.
#![tactic(auto)]

mod circles;
mod search;
mod states;

pub use crate::circles::{Circles, find_circles};
pub use crate::states::Span;
