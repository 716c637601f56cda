//! Tests of what stands below the checker: tokens, literals, sources and their printed texts, words of commands, texts of types
//! and specifications, built-in operations, streams and stores. Most are rows of texts: what a row says must come of its
//! text. It has tests alone, so that no crate below is proved twice.
#![tactic(auto)]

#[cfg(test)]
mod command_rows;
#[cfg(test)]
mod host_tests;
#[cfg(test)]
mod source_rows;
#[cfg(test)]
mod sources;
#[cfg(test)]
mod tables;
#[cfg(test)]
mod type_rows;
#[cfg(test)]
mod types;
