//! Flat code to RV64IM words with holes: each step becomes instructions of its own, and nothing is kept in
//! registers from one step to the next but what `Register` says. Expressions are evaluated in registers, also those of
//! routines that have no frame. Beside them stand the four parts of the runtime that no flat code can say, and the layout
//! of the tables in which one of them searches.
#![tactic(auto)]

mod assembler;
mod binding;
mod calls;
mod combining;
mod conditions;
mod error;
mod evaluating;
mod exceptions;
mod iterators;
mod knowing;
mod leaf;
mod number;
mod operand;
mod operation;
mod parts;
mod primitives;
mod regions;
mod register;
mod searching;
mod selecting;
mod slots;
mod step;
mod tables;
mod words;

pub use crate::binding::bind_part;
pub use crate::conditions::{Comparison, Target};
pub use crate::error::SelectError;
pub use crate::knowing::{REACH, Way};
pub use crate::leaf::select_leaf;
pub use crate::operand::{Operand, Scope};
pub use crate::parts::{Part, TRAP_ENTRY, start_part, trap_part};
pub use crate::register::{Register, WORK};
pub use crate::searching::search_part;
pub use crate::selecting::select;
pub use crate::tables::regions_table;
pub use crate::words::Reference;
