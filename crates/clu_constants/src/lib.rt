//! The constants of a file, in a list in which a long text may be kept as the two texts of which it is made.
#![tactic(auto)]

mod constants;
mod held;
mod outline;

pub use crate::constants::Constants;
pub use crate::outline::{Outline, outline_of};
