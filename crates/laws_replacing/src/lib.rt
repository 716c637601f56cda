//! A program that `replace` keeps rests on nothing that was replaced.
#![tactic(auto)]

mod laws;

pub use laws::kept_programs_rest;
