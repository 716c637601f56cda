//! What the operations of arrays, sequences, records, structs, oneofs, variants, routines and any do, as word code, one
//! operation in one place; docs/operations.md says what they mean.
#![tactic(auto)]

mod array_texts;
mod arrays;
mod characters;
mod components;
mod forcing;
mod making;
mod operations;
mod rows;
mod schemes;
mod selected;
mod sequence_texts;
mod sequences;
mod texts;

pub use crate::forcing::force_code;
pub use crate::operations::word_code;
pub use crate::schemes::scheme;
pub use crate::selected::{Selected, select_operation};
pub use crate::texts::derived;
