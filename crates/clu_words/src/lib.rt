//! The words of the command line: which lists of words are commands, and what each command is
//! told by its words.
#![tactic(auto)]

mod commands;
mod form;
mod limits;
mod names;
mod number;
mod reading;

pub use crate::commands::{Command, read_command};
pub use crate::limits::RunLimits;
pub use crate::reading::WordsError;
