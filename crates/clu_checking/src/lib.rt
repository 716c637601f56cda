//! The rules of the checker: definitions in `specs`, against which the check is proved, and what is proved of their order as contracts
//! of functions that do nothing.
#![tactic(auto)]

mod laws;

pub use laws::{first_node, least_rule};
