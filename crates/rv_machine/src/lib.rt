//! The machine that runs images: RV64IM, step by step as the RISC-V unprivileged ISA has it, with
//! the calls of its environment over any source of input and any sink of output.
#![tactic(auto)]

mod call;
mod ending;
mod hart;
mod intake;
mod limits;
mod machine;
mod memory;
mod multiply;
mod row;
mod start;
mod trap;
mod values;

pub use ending::Ending;
pub use limits::Limits;
pub use machine::Machine;
