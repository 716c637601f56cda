//! What is linked: definitions in `specs`, and what is proved of the plan of an image as contracts of functions that do nothing.
#![tactic(auto)]

mod laws;

pub use laws::{parts_differ, types_differ};
