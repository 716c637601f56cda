//! What is demanded of types: the kinds of actual parameters, and whether a type has the operations that a where clause
//! asks for (CLU Reference Manual, section 12).
#![tactic(auto)]

mod asking;
mod carried;
mod exported;
mod found;
mod kinds;
mod meeting;
mod needs;
mod whole;

pub use crate::asking::{asked_by, instance_of};
pub use crate::carried::{carried_type, intern_routine};
pub use crate::exported::all_demanded;
pub use crate::found::{op_named, type_actual};
pub use crate::kinds::{are_of_kinds, kind_of, kind_of_value, may_be_of};
pub use crate::meeting::{is_met, meets};
pub use crate::needs::{Asked, Instance};
pub use crate::whole::{holds_demands, is_whole, is_whole_op};
