//! That the code of operations, as plain trees of word code, does what the rows of the meaning say, on objects that words show.
//! Laws alone.
#![tactic(auto)]

mod laws;

pub use laws::{
    cells_do_as_their_rows, leaves_come_in_one_step, loads_do_as_their_rows,
    numbers_do_as_their_rows, pairs_do_as_their_rows, puts_do_as_their_rows,
    searches_do_as_their_rows, selectors_do_as_their_rows, words_tell_objects_apart,
};
