//! The built-in operations of the built-in types: their headings and needs, as one table.
#![tactic(auto)]

mod lookup;
mod names;
mod needs;
mod row;
mod select;
mod slots;
mod tables;

pub use lookup::{Builtin, heading};
pub use needs::Need;
