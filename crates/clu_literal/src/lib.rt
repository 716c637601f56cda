//! What character and string literals denote: their bytes, with escapes replaced (CLU Reference
//! Manual, section 5, "Literals").
#![tactic(auto)]

mod escapes;
mod literals;

pub use crate::literals::{char_byte, string_bytes};
