//! A file as the rules read it (`File`), before its headings are known: what its names denote, what is wanted at its nodes, and
//! the types with which names are declared (CLU Reference Manual, sections 4, 7 and 10).
#![tactic(auto)]

mod binding;
mod bindings;
mod declaring;
mod file;
mod headline;
mod inside;
mod meaning;
mod modules;
mod named;
mod nodes;
mod parameters;
mod reps;
mod tables;
mod wanted;
mod wanting;

pub use crate::binding::bindings_of;
pub use crate::file::{File, Headed};
pub use crate::inside::{
    known_inside, own_type, representation, type_inside, type_of_value, type_outside,
};
pub use crate::meaning::{Meaning, ModuleId};
pub use crate::modules::is_stream;
pub use crate::named::{Named, has_fitting_kinds, named_at, parameter_type, wants_type};
pub use crate::nodes::kind_of;
pub use crate::tables::{is_set, items_of, number_at, optional_at, set};
pub use crate::wanted::{Wanted, is_object_wanted};
