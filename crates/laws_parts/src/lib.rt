//! That the parts of the runtime do what they are for.
#![tactic(auto)]

mod laws;

pub use laws::{arms_are_found, search_stands, search_words_are, start_follows};
