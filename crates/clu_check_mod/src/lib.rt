//! The check of a file: all tables are made, the rules V4 to V37 are asked, and the first that is violated is told
//! (docs/language.md, "The rules as definitions"). Where none is, what was found is handed on to lowering.
#![tactic(auto)]

mod asking;
mod bad;
mod checking;
mod errors;
mod naming;
mod notes;
mod rules;
mod specifications;
mod walk;

pub use crate::checking::{check, specs_of};
pub use crate::errors::CheckError;
pub use crate::naming::named;
