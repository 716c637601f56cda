//! Statements and routines of checked files as word code.
#![tactic(auto)]

mod assigning;
mod branches;
mod clusters;
mod declaring;
mod given;
mod handlers;
mod headings;
mod leaving;
mod looping;
mod own_type;
mod own_variables;
mod routines;
mod tagging;
mod walk;

pub use crate::routines::lower;
pub use clu_lower_types::{Declarations, LowerError, Result, declarations_of};
