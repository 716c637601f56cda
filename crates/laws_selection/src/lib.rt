//! That the words of compiled code do its steps on the machine.
#![tactic(auto)]

mod laws;

pub use laws::{conditions_turn, expressions_evaluate, steps_follow};
