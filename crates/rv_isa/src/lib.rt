//! RV64IM: its registers, its instructions and their encoding as words, and the image of a program.
//!
//! The encoding follows "The RISC-V Instruction Set Manual, Volume I: Unprivileged ISA", chapters
//! RV32I, RV64I and the M extension.
#![tactic(auto)]

mod decoding;
mod encoding;
mod fields;
mod image;
mod instr;
mod op;
mod reg;

pub use decoding::decode;
pub use encoding::encode;
pub use image::Image;
pub use instr::Instr;
pub use op::Op;
pub use reg::Reg;
