//! The commands of the program: what each does with its words, its input, its output and its
//! files, and the status with which it ends.
#![tactic(auto)]

mod assembling;
mod building;
mod checking;
mod compiling;
mod executing;
mod file;
mod gathering;
mod generating;
mod launching;
mod libraries;
mod linking;
mod listing;
mod printing;
mod referring;
mod refusals;
mod running;
mod separate;
mod sessions;
mod sources;
mod specifying;
mod top;

pub use crate::sessions::session;
pub use crate::top::clu;
