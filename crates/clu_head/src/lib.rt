//! What the modules of a file show of themselves: the kinds of their parameters, the headings of their routines as callers
//! see them, what where clauses ask, and their specifications (CLU Reference Manual, sections 4 and 12). No rule is asked:
//! what is refused where it stands is no part of a head.
#![tactic(auto)]

mod asked;
mod bounds;
mod clauses;
mod head;
mod heading;
mod heads;
mod known;
mod listed;
mod lists;
mod parameter_kinds;
mod parts;
mod refusals;
mod restricted;
mod routines;
mod sets;
mod specs;
mod variables;

pub use crate::asked::Asked;
pub use crate::head::{Demanded, Head, HeadForm, RoutineHead};
pub use crate::heads::{Heads, heads_of};
pub use crate::known::{interned, is_at};
pub use crate::parameter_kinds::{kind_of_type, kinds, own_type};
pub use crate::refusals::{counts_of, is_refused};
pub use crate::sets::sets_of;
pub use crate::specs::spec_of;
