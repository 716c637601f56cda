//! What lowering reads of a checked file besides its tree: types, operations, headings as those see them who invoke, and
//! declarations. No code is made here.
#![tactic(auto)]

mod declarations;
mod errors;
mod fixed;
mod headings;
mod seen;
mod types;
mod written;

pub use crate::declarations::{Declarations, declarations_of};
pub use crate::errors::{LowerError, Result};
pub use crate::fixed::{Fixed, OwnVariable, copied_names};
pub use crate::headings::{any_formals, heading_of};
pub use crate::seen::{Sealed, Seen, carried, seen_at, seen_of};
pub use crate::types::{
    denoted_type, denotes_any, is_any, operation_of, place_of, text_of, texts_of, type_of,
    which_are_any,
};
pub use crate::written::written_heading;
