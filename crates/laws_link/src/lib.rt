//! What a program reaches is one list, closed and nothing besides, and the parts of its image stand where the plan says.
#![tactic(auto)]

mod laws;

pub use laws::{
    holes_give, names_differ, one_reach, reach_is_closed, reach_is_least, strings_stand,
    tables_stand, words_stand,
};
