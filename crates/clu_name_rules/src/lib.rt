//! The rules on names, constants, types and modules, which ask nothing of headings: each a function that is asked at a node
//! (docs/language.md, "The rules as definitions").
#![tactic(auto)]

mod components;
mod constant_rules;
mod constructors;
mod lengths;
mod module_rules;
mod name_rules;
mod own;
mod repeated;
mod tables;
mod views;
mod words;

pub use crate::components::{are_selectors, component_type, element_of};
pub use crate::constant_rules::{leading_type, v8, v9, v10, v19, v31};
pub use crate::constructors::{has_low_at, term_at, v17};
pub use crate::lengths::{long_constants, long_types};
pub use crate::module_rules::{v33, v34, v35};
pub use crate::name_rules::{v4, v5, v6, v7, v37};
pub use crate::own::own_places;
pub use crate::repeated::{Items, ListKind, Listed, tags_of};
pub use crate::tables::{Tables, is_repeated, stands_in};
pub use crate::views::is_kind;
pub use crate::words::Words;
