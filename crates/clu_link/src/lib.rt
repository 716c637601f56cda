//! The linker: lays out what the code that a program reaches needs beside it, and fills in the holes. Each step is a
//! function from plain data to plain data.
#![tactic(auto)]

mod filling;
mod linking;
mod places;
mod runtime;
mod tables;
mod texts;
mod tracing;
mod type_words;

pub use crate::linking::{Linked, Traced, link, link_traced};
