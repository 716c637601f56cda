//! Word code to flat code: the nesting of statements becomes jumps and regions, and what travels from one routine to
//! another gets words of the frame. Expressions stay as they are.
#![tactic(auto)]

mod branches;
mod errors;
mod expressions;
mod flat;
mod guards;
mod leaving;
mod room;
mod routine;
mod simple;
mod statements;
mod steps;
mod surroundings;
mod within;

pub use crate::errors::FrameError;
pub use crate::flat::{FOOT, Flat, FlatRoutine, OUTER_MARK};
pub use crate::routine::flatten;
