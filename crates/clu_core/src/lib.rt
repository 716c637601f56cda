//! Checked files, references to operations, and what lowering and link look up in arenas.
#![tactic(auto)]

mod checked;
mod lookups;
mod op_ref;
mod tables;

pub use crate::checked::{Checked, NamedConstant};
pub use crate::lookups::{LookupError, carry, intern, term};
pub use crate::op_ref::OpRef;
