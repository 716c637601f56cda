//! What a program reaches from its start: the code of each routine and operation once, before it has addresses. Each step
//! is a function from plain data to plain data.
#![tactic(auto)]

mod bounds;
mod collecting;
mod denoting;
mod errors;
mod faults;
mod member;
mod modules;
mod operation_codes;
mod operations;
mod origins;
mod parameters;
mod program;
mod reaching;
mod variables;

pub use crate::bounds::{CELL, DESCRIPTOR, OWN_VARIABLE, cells, own_holes, string_bytes};
pub use crate::collecting::collect;
pub use crate::errors::LinkError;
pub use crate::faults::of_step;
pub use crate::member::Member;
pub use crate::modules::modules_of;
pub use crate::origins::SET_UP;
pub use crate::parameters::{constant_of, copied};
pub use crate::program::{Callable, Program};
pub use crate::reaching::{Reached, is_start, reach, start_of};
