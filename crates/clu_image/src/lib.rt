//! Image files: the bytes in which the image of a program is kept.
#![tactic(auto)]

mod header;
mod loading;
mod storing;

pub use crate::loading::load;
pub use crate::storing::store;
