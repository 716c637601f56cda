//! What CLU programs mean: definitions in `specs`, and what is proved of them as contracts of functions that do nothing.
#![tactic(auto)]

mod laws;

pub use laws::{ends_typed, more_levels, more_turns, only_grows};
