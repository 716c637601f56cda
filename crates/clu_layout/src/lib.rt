//! How much store the objects of a running program take.
#![tactic(auto)]

mod store;

pub use store::{Shape, words};
