//! What the crates of tests share: tables of rows, and the short forms in which rows write texts, bytes and fields. No crate of
//! the product stands on it.
#![tactic(auto)]

mod file_bytes;
mod kept;
mod words;

pub use crate::file_bytes::Fields;
pub use crate::kept::{Rows, Table};
pub use crate::words::{bytes_of, number_at, parts, put_bytes, spelled};
