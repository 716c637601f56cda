//! The fields of binary formats: numbers, texts after their lengths and names, read from the left, and written at the end
//! of what is there.
#![tactic(auto)]

mod faults;
mod names;
mod reading;
mod writing;

pub use crate::faults::{at_offset, end, fault, field_fault};
pub use crate::names::{is_after, is_module_name, is_name};
pub use crate::reading::{
    byte_field, i64_field, mark, module_after, text16_field, text64_field, u16_field, u32_field,
    u64_field,
};
pub use crate::writing::{count_add, i64_add, text16_add, text64_add};
