//! Why a program is not linked.

use clu_base::{Bytes, Memory};
use clu_core::LookupError;
use clu_frames::FrameError;
use rv_select::SelectError;
use std::alloc::{AllocError, AllocFailed};

/// Why a program is not linked, in the order in which the causes are asked.
#[derive(Drop)]
pub enum LinkError {
    /// No specification is kept of the module with which the program starts.
    NoModule(Bytes),
    /// The module with which it starts is no procedure without parameters, arguments and results.
    BadStart(Bytes),
    /// More than 4,096 instances are reached.
    TooManyInstances,
    /// No body is kept of this module, the first of those that are reached.
    NoBody(Bytes),
    /// The body of the module `name` was checked at the revision `checked`, and the specification of `by`, which it
    /// rests on, was replaced at the revision `changed`.
    Stale {
        name: Bytes,
        by: Bytes,
        changed: u32,
        checked: u32,
    },
    /// The object of this module does not fit what is kept.
    Misfit(Bytes),
    /// The instances weigh more than 262,144.
    ProgramTooLarge,
    /// Memory was refused.
    Memory,
    /// What no contract rules out.
    NotYet,
}

impl From<Memory> for LinkError {
    ghost use Rattle.clu_reach.specs.declared.errors.LinkError.{LinkError};
    ghost use Rattle.std.specs.Prelude.{◌≡◌};

    ghost from_gives = { λ _ e. e ≡ LinkError.Memory };

    fn from(_error: Memory) -> LinkError {
        LinkError::Memory
    }
}

impl From<AllocError> for LinkError {
    ghost use Rattle.clu_reach.specs.declared.errors.LinkError.{LinkError};
    ghost use Rattle.std.specs.Prelude.{◌≡◌};

    ghost from_gives = { λ _ e. e ≡ LinkError.Memory };

    fn from(_error: AllocError) -> LinkError {
        LinkError::Memory
    }
}

impl<T: Drop> From<AllocFailed<T>> for LinkError {
    ghost use Rattle.clu_reach.specs.declared.errors.LinkError.{LinkError};
    ghost use Rattle.std.specs.Prelude.{◌≡◌};

    ghost from_gives = { λ _ e. e ≡ LinkError.Memory };

    fn from(_error: AllocFailed<T>) -> LinkError {
        LinkError::Memory
    }
}

impl From<LookupError> for LinkError {
    fn from(error: LookupError) -> LinkError {
        match error {
            LookupError::Memory => LinkError::Memory,
            _ => LinkError::NotYet,
        }
    }
}

impl From<FrameError> for LinkError {
    fn from(error: FrameError) -> LinkError {
        match error {
            FrameError::Memory => LinkError::Memory,
            FrameError::NotYet => LinkError::NotYet,
        }
    }
}

impl From<SelectError> for LinkError {
    fn from(error: SelectError) -> LinkError {
        match error {
            SelectError::Memory => LinkError::Memory,
            SelectError::NotYet => LinkError::NotYet,
        }
    }
}
