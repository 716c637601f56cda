//! Assembly text: an image as lines that a person can read and change, and the image of such lines.
#![tactic(auto)]

mod candidates;
mod cut_lines;
mod mnemonics;
mod operands;
mod places;
mod reading;
mod rows;
mod writing;

pub use crate::reading::read_asm;
pub use crate::writing::{asm_line, asm_text};
