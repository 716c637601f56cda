//! The words of objects: which words of the store show an object, and whose each word is. Definitions are in `specs`; what is
//! proved of them are the contracts of functions that do nothing.
#![tactic(auto)]

mod laws;

pub use laws::{cells_stay, puts_keep_the_heap, seen_as_stored, shown_stays, words_tell_apart};
