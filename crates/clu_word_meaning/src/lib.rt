//! What word code means: definitions in `specs`, and what is proved of them as contracts of functions that do nothing.
#![tactic(auto)]

mod laws;

pub use laws::{more_turns, only_grows, spends_all, stops_before};
