//! Whether a specification is sound: each type that it names is none of a cluster or that of a kept one, with actual
//! parameters of its kinds that meet its demands (CLU Reference Manual, section 12).
#![tactic(auto)]

mod instances;
mod parts;
mod sound;
mod visiting;

pub use crate::sound::is_sound;
