//! The operations of types and modules with their headings, each found once by type, name and view, and what is asked of
//! actual parameters (CLU Reference Manual, sections 12 and 13).
#![tactic(auto)]

mod asking;
mod builtins;
mod bundles;
mod callees;
mod clauses;
mod finding;
mod found;
mod modules;
mod operations;
mod parts;
mod shapes;
mod words;

pub use crate::clauses::{enter_given, given, given_by, set_round};
pub use crate::finding::Finding;
pub use crate::found::{Asked, Found, FoundId};
pub use crate::operations::{exported_operation, module_found, operation_found};
pub use crate::shapes::{Shape, shape_of};
pub use crate::words::{NameId, Words};
