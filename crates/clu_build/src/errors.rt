//! Why something is not entered into a library.

use clu_base::{Bytes, Memory};
use clu_frames::FrameError;
use clu_library::EnterError;
use clu_lower_ctl::LowerError;
use clu_reach::LinkError;
use rv_select::SelectError;
use std::alloc::{AllocError, AllocFailed};

/// A module of which another specification is kept than a file gives.
#[derive(Drop)]
pub struct Difference {
    pub name: Bytes,
    /// The text of the kept specification.
    pub kept: Bytes,
    /// The text of the other one.
    pub given: Bytes,
}

/// A module whose body was checked at the revision `checked`, before the specification of `by`, which it rests on, was
/// replaced at the revision `changed`.
#[derive(Drop)]
pub struct StaleBody {
    pub name: Bytes,
    pub by: Bytes,
    pub changed: u32,
    pub checked: u32,
}

/// Why a file or a program is not entered. A name is that of a module.
#[derive(Drop)]
pub enum BuildError {
    /// Another specification is kept of the module.
    SpecDiffers(Difference),
    /// More modules or programs than a library keeps, or more revisions than it counts.
    LibraryFull,
    /// The kept specification of this module needs one that would be replaced.
    SpecNeeded(Bytes),
    /// No specification is kept of the module with which a program is to start.
    NoModule(Bytes),
    /// The module with which a program is to start is no procedure without parameters, arguments and results.
    BadStart(Bytes),
    /// A program of more than 4,096 instances.
    TooManyInstances,
    /// No body is kept of this module, the first of those that are reached.
    NoBody(Bytes),
    /// The body of this module is stale.
    Stale(StaleBody),
    /// The object of this module does not fit what is kept.
    Misfit(Bytes),
    /// A program that weighs more than 262,144.
    ProgramTooLarge,
    /// Memory was refused.
    Memory,
    /// What no contract rules out.
    NotYet,
}

impl From<Memory> for BuildError {
    ghost use Rattle.clu_build.specs.declared.errors.BuildError.{BuildError};
    ghost use Rattle.std.specs.Prelude.{◌≡◌};

    ghost from_gives = { λ _ e. e ≡ BuildError.Memory };

    fn from(_error: Memory) -> BuildError {
        BuildError::Memory
    }
}

impl From<AllocError> for BuildError {
    ghost use Rattle.clu_build.specs.declared.errors.BuildError.{BuildError};
    ghost use Rattle.std.specs.Prelude.{◌≡◌};

    ghost from_gives = { λ _ e. e ≡ BuildError.Memory };

    fn from(_error: AllocError) -> BuildError {
        BuildError::Memory
    }
}

impl<T: Drop> From<AllocFailed<T>> for BuildError {
    ghost use Rattle.clu_build.specs.declared.errors.BuildError.{BuildError};
    ghost use Rattle.std.specs.Prelude.{◌≡◌};

    ghost from_gives = { λ _ e. e ≡ BuildError.Memory };

    fn from(_error: AllocFailed<T>) -> BuildError {
        BuildError::Memory
    }
}

// That a specification differs is asked before it is entered.
impl From<EnterError> for BuildError {
    ghost use Rattle.clu_build.specs.Errors.{of_enter};
    ghost use Rattle.std.specs.Prelude.{◌≡◌};

    ghost from_gives = { λ given e. e ≡ of_enter given };

    fn from(error: EnterError) -> BuildError {
        match error {
            EnterError::Full => BuildError::LibraryFull,
            EnterError::Memory => BuildError::Memory,
            EnterError::Differs => BuildError::NotYet,
        }
    }
}

impl From<LowerError> for BuildError {
    ghost use Rattle.clu_build.specs.Errors.{of_lower};
    ghost use Rattle.std.specs.Prelude.{◌≡◌};

    ghost from_gives = { λ given e. e ≡ of_lower given };

    fn from(error: LowerError) -> BuildError {
        match error {
            LowerError::Memory => BuildError::Memory,
            LowerError::NotYet => BuildError::NotYet,
        }
    }
}

impl From<FrameError> for BuildError {
    ghost use Rattle.clu_build.specs.Errors.{of_frame};
    ghost use Rattle.std.specs.Prelude.{◌≡◌};

    ghost from_gives = { λ given e. e ≡ of_frame given };

    fn from(error: FrameError) -> BuildError {
        match error {
            FrameError::Memory => BuildError::Memory,
            FrameError::NotYet => BuildError::NotYet,
        }
    }
}

impl From<SelectError> for BuildError {
    ghost use Rattle.clu_build.specs.Errors.{of_select};
    ghost use Rattle.std.specs.Prelude.{◌≡◌};

    ghost from_gives = { λ given e. e ≡ of_select given };

    fn from(error: SelectError) -> BuildError {
        match error {
            SelectError::Memory => BuildError::Memory,
            SelectError::NotYet => BuildError::NotYet,
        }
    }
}

impl From<LinkError> for BuildError {
    ghost use Rattle.clu_build.specs.Errors.{of_link};
    ghost use Rattle.std.specs.Prelude.{◌≡◌};

    ghost from_gives = { λ given e. e ≡ of_link given };

    fn from(error: LinkError) -> BuildError {
        match error {
            LinkError::NoModule(name) => BuildError::NoModule(name),
            LinkError::BadStart(name) => BuildError::BadStart(name),
            LinkError::TooManyInstances => BuildError::TooManyInstances,
            LinkError::NoBody(name) => BuildError::NoBody(name),
            LinkError::Stale {
                name,
                by,
                changed,
                checked,
            } => BuildError::Stale(StaleBody {
                name,
                by,
                changed,
                checked,
            }),
            LinkError::Misfit(name) => BuildError::Misfit(name),
            LinkError::ProgramTooLarge => BuildError::ProgramTooLarge,
            LinkError::Memory => BuildError::Memory,
            LinkError::NotYet => BuildError::NotYet,
        }
    }
}
