//! What the operations of null, bool, int, char, string and stream do, as word code. Each is data (`code`), one
//! operation in one place; docs/operations.md says what they mean.
#![tactic(auto)]

mod assembly;
mod booleans;
mod characters;
mod code;
mod derived;
mod finding;
mod integers;
mod operations;
mod parsing;
mod streams;
mod strings;

pub use crate::assembly::{code_of, in_place, routine};
pub use crate::code::{Deed, Derived, EQUAL, Expr, FIRST, Operation, SECOND, Step, THIRD, X, Y, Z};
pub use crate::derived::{derived_named, derived_of_int, derived_of_string};
pub use crate::finding::named;
pub use crate::operations::{operation_of, word_code};
