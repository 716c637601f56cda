//! What separate compilation makes of a checked file and a library: the file's specifications and bodies as entries of
//! the library, and programs that are linked from what is kept.
#![tactic(auto)]

mod bodies;
mod entering;
mod errors;
mod programs;
mod referring;
mod specifications;

pub use crate::bodies::Text;
pub use crate::entering::{enter_file, own_specs};
pub use crate::errors::{BuildError, Difference, StaleBody};
pub use crate::programs::enter_program;
pub use crate::referring::cross_reference;
pub use crate::specifications::{enter_specs, replace_specs};
