//! How a command ends: its outcome, with the status of the program and the line that is written to the errors.
#![tactic(auto)]

mod lines;
mod outcome;

pub use crate::lines::report;
pub use crate::outcome::Outcome;
