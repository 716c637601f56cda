//! What constants and types come to, each once, after what it names: the value of each node that is an expression or a type,
//! with equates unfolded (docs/language.md, "What a name stands for").
#![tactic(auto)]

mod circular;
mod constants;
mod graph;
mod lists;
mod literals;
mod meanings;
mod named;
mod node_values;
mod operators;
mod parameters;
mod settling;
mod type_values;
mod value;

pub use crate::circular::{circular_equates, equate_circles};
pub use crate::lists::{first_name, push_exception};
pub use crate::meanings::Meaning;
pub use crate::parameters::{Parameters, number_parameters};
pub use crate::settling::{Values, settle};
pub use crate::value::Value;
