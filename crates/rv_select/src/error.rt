//! Why no code was selected.

use clu_base::Memory;
use std::alloc::{AllocError, AllocFailed};
use std::num::TryFromIntError;
use thiserror::Error;

/// What selection answers.
pub(crate) type Answer<T> = Result<T, SelectError>;

#[derive(Clone, Copy, Debug, Error)]
pub enum SelectError {
    /// Flat code that no source gives: a label that stands nowhere, a jump that is out of reach, a number of a slot or
    /// of an item that is too great, a region or an arm that is no part of the code.
    #[error("not yet")]
    NotYet,
    /// Memory was refused.
    #[error("out of memory")]
    Memory,
}

impl From<TryFromIntError> for SelectError {
    fn from(_error: TryFromIntError) -> SelectError {
        SelectError::NotYet
    }
}

impl From<Memory> for SelectError {
    fn from(_error: Memory) -> SelectError {
        SelectError::Memory
    }
}

impl From<AllocError> for SelectError {
    fn from(_error: AllocError) -> SelectError {
        SelectError::Memory
    }
}

impl<T: Drop> From<AllocFailed<T>> for SelectError {
    fn from(_error: AllocFailed<T>) -> SelectError {
        SelectError::Memory
    }
}
