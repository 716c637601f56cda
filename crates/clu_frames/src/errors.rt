//! Why word code has no flat code.

use clu_base::Memory;
use std::alloc::{AllocError, AllocFailed};
use thiserror::Error;

/// Why a routine was not flattened.
#[derive(Clone, Copy, Debug, PartialEq, Eq, Error)]
pub enum FrameError {
    /// Memory was refused.
    #[error("out of memory")]
    Memory,
    /// The word code is none that lowering makes: a slot is none of the routine, the steps have no room, or a number is too
    /// large.
    #[error("not yet")]
    NotYet,
}

impl From<Memory> for FrameError {
    fn from(_error: Memory) -> FrameError {
        FrameError::Memory
    }
}

impl From<AllocError> for FrameError {
    fn from(_error: AllocError) -> FrameError {
        FrameError::Memory
    }
}

impl<T: Drop> From<AllocFailed<T>> for FrameError {
    fn from(_error: AllocFailed<T>) -> FrameError {
        FrameError::Memory
    }
}
