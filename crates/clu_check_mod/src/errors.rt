//! Why a check gave no answer.

use clu_base::{Memory, Refused};
use std::alloc::{AllocError, AllocFailed};

/// Why a check gave no answer.
#[derive(Clone, Copy, Debug)]
pub enum CheckError {
    /// The source violates a rule at a place.
    Refused(Refused),
    /// Memory was refused.
    Memory,
    /// No rule is violated, and yet a specification is lost. No law shows yet that this never comes.
    NotYet,
}

impl From<Memory> for CheckError {
    ghost use Rattle.clu_check_mod.specs.declared.errors.CheckError.{CheckError};
    ghost use Rattle.std.specs.Prelude.{◌≡◌};

    ghost from_gives = { λ _ e. e ≡ CheckError.Memory };

    fn from(_error: Memory) -> CheckError {
        CheckError::Memory
    }
}

impl From<AllocError> for CheckError {
    ghost use Rattle.clu_check_mod.specs.declared.errors.CheckError.{CheckError};
    ghost use Rattle.std.specs.Prelude.{◌≡◌};

    ghost from_gives = { λ _ e. e ≡ CheckError.Memory };

    fn from(_error: AllocError) -> CheckError {
        CheckError::Memory
    }
}

impl<T: Drop> From<AllocFailed<T>> for CheckError {
    ghost use Rattle.clu_check_mod.specs.declared.errors.CheckError.{CheckError};
    ghost use Rattle.std.specs.Prelude.{◌≡◌};

    ghost from_gives = { λ _ e. e ≡ CheckError.Memory };

    fn from(_error: AllocFailed<T>) -> CheckError {
        CheckError::Memory
    }
}
