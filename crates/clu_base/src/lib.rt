//! What all the other crates speak with: byte strings and sequences that contracts see as lists,
//! places, tokens, constants, rules and refusals, the fields of binary formats, and the outside
//! of the program as three traits, each with an implementation in memory.
#![tactic(auto)]

mod byte_string;
mod constants;
mod errors;
mod fields;
mod files;
mod input;
mod output;
mod rules;
mod sequences;
mod tokens;

pub use crate::byte_string::Bytes;
pub use crate::constants::{Const, ObjConst};
pub use crate::errors::{Failed, FormatError, Memory};
pub use crate::fields::{u16_add, u16_at, u32_add, u32_at, u64_add, u64_at};
pub use crate::files::{MemStore, Store, StoreError};
pub use crate::input::{MemSource, Source};
pub use crate::output::{MemSink, Sink, write_all};
pub use crate::rules::{Refused, Rule};
pub use crate::sequences::Sequence;
pub use crate::tokens::{Kind, Place, Token};
