//! Shorter flat code that does the same: a table of four rows says which of two neighbouring places goes, and the regions
//! move with the places that are left.
#![tactic(auto)]

mod left;
mod moving;
mod peeping;
mod places;
mod regions;
mod rows;
mod settling;
mod steps;

pub use crate::peeping::{Peeped, peep};
