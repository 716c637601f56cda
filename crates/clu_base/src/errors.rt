//! The errors that crates share: memory that runs out, a call of the outside that failed, and bytes
//! that are not of a format.

ghost use Rattle.std.specs.Prelude.{◌≡◌};

use std::alloc::{AllocError, AllocFailed};
use thiserror::Error;

/// Memory was refused. It stands for nothing else.
#[derive(Clone, Copy, Debug, Error)]
#[error("out of memory")]
pub struct Memory;

impl From<AllocError> for Memory {
    fn from(_error: AllocError) -> Memory {
        Memory
    }
}

impl<T: Drop> From<AllocFailed<T>> for Memory {
    fn from(_error: AllocFailed<T>) -> Memory {
        Memory
    }
}

/// A read or a write failed; the count of faults of the source, sink or store has risen.
#[derive(Clone, Copy, Debug, Error)]
#[error("failed")]
pub struct Failed;

/// Why a reader of a binary or text format gave no value.
#[derive(Clone, Copy, Debug, Error)]
pub enum FormatError {
    /// The bytes are not of the format; the number is the offset of the fault from the first byte.
    #[error("bad at {0}")]
    Bad(u64),
    /// Memory was refused.
    #[error("out of memory")]
    Memory,
}

impl From<Memory> for FormatError {
    ghost use Rattle.clu_base.specs.declared.errors.FormatError.{FormatError};
    ghost use Rattle.std.specs.Prelude.{◌≡◌};

    ghost from_gives = { λ _ e. e ≡ FormatError.Memory };

    fn from(_error: Memory) -> FormatError {
        FormatError::Memory
    }
}

impl From<AllocError> for FormatError {
    ghost use Rattle.clu_base.specs.declared.errors.FormatError.{FormatError};
    ghost use Rattle.std.specs.Prelude.{◌≡◌};

    ghost from_gives = { λ _ e. e ≡ FormatError.Memory };

    fn from(_error: AllocError) -> FormatError {
        FormatError::Memory
    }
}

impl<T: Drop> From<AllocFailed<T>> for FormatError {
    ghost use Rattle.clu_base.specs.declared.errors.FormatError.{FormatError};
    ghost use Rattle.std.specs.Prelude.{◌≡◌};

    ghost from_gives = { λ _ e. e ≡ FormatError.Memory };

    fn from(_error: AllocFailed<T>) -> FormatError {
        FormatError::Memory
    }
}
