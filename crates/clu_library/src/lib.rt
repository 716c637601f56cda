//! The library: what is kept of modules between commands, their specifications and bodies, and the programs that
//! were linked from them, in memory and as a file.
#![tactic(auto)]

mod body;
mod by_name;
mod closure;
mod errors;
mod latest;
mod library;
mod program;
mod read_modules;
mod read_names;
mod read_programs;
mod reading;
mod replacing;
mod staleness;
mod unmet;
mod writing;

pub use crate::body::Body;
pub use crate::errors::EnterError;
pub use crate::library::{LIMIT, Library};
pub use crate::program::Program;
pub use crate::staleness::StaleBy;
pub use clu_demands::is_whole;
