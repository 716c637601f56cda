//! What flat code means: definitions in `specs`, and what is proved of them as contracts of functions that do nothing.
#![tactic(auto)]

mod laws;

pub use laws::{runs_compose, tops_rise};
