//! The law that flattened code does what its word code means: for routines at each level of turns, and for whole programs.
#![tactic(auto)]

mod laws;

pub use laws::{
    finds_arms, levels, premises_hold, program_runs, program_runs_within, writes_what_fits,
};
