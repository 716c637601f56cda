//! The regions of a routine's code in which exceptions are handled: a list linked by the numbers of the regions round
//! them, the arm that an exception finds there, and the cuts by which a table of them is searched.
#![tactic(auto)]

mod arms;
mod cuts;
mod region;
mod regions;

pub use crate::region::{Cut, Found, NO_REGION, Region};
pub use crate::regions::Regions;
