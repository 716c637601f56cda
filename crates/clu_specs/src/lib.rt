//! The one text of each type, use and specification, written and read back. A specification's text
//! stands in library files and in messages; types and uses stand in object files.
#![tactic(auto)]

mod actuals;
mod begin_types;
mod constants;
mod keywords;
mod marks;
mod names;
mod next_items;
mod numbers;
mod pending;
mod pieces;
mod read_headings;
mod read_kinds;
mod read_specs;
mod read_types;
mod read_uses;
mod resume_types;
mod scope;
mod terms;
mod whole_types;
mod write_specs;
mod write_types;
mod write_uses;

pub use clu_types::{Demand, Form, OpSpec, ParamKind, Spec, Specs};
pub use read_specs::read_spec;
pub use read_uses::{Target, read_use};
pub use whole_types::read_type;
pub use write_specs::spec_text;
pub use write_types::type_text;
pub use write_uses::use_text;
