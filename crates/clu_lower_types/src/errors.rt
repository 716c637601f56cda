//! Why a routine was not lowered.

use clu_base::Memory;
use clu_core::LookupError;
use std::alloc::{AllocError, AllocFailed};

/// Why a routine was not lowered.
#[derive(Clone, Copy, Debug)]
pub enum LowerError {
    /// Memory was refused.
    Memory,
    /// A construct for which no code is made yet, or what no checked file brings about, but no contract rules out yet.
    NotYet,
}

/// What lowering gives, or why it gives nothing.
pub type Result<T, E = LowerError> = std::result::Result<T, E>;

impl From<Memory> for LowerError {
    fn from(_error: Memory) -> LowerError {
        LowerError::Memory
    }
}

impl From<AllocError> for LowerError {
    fn from(_error: AllocError) -> LowerError {
        LowerError::Memory
    }
}

impl<T: Drop> From<AllocFailed<T>> for LowerError {
    fn from(_error: AllocFailed<T>) -> LowerError {
        LowerError::Memory
    }
}

impl From<LookupError> for LowerError {
    fn from(error: LookupError) -> LowerError {
        match error {
            LookupError::Memory => LowerError::Memory,
            _ => LowerError::NotYet,
        }
    }
}
