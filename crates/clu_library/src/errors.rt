//! Why something is not entered into a library.

use clu_base::Memory;
use thiserror::Error;

/// Why a specification or a program is not entered.
#[derive(Clone, Copy, Debug, Error)]
pub enum EnterError {
    /// Another specification is kept of the module.
    #[error("the specification differs")]
    Differs,
    /// As many are kept as a library has.
    #[error("the library is full")]
    Full,
    /// Memory was refused.
    #[error("out of memory")]
    Memory,
}

impl From<Memory> for EnterError {
    ghost use Rattle.clu_library.specs.declared.errors.EnterError.{EnterError};
    ghost use Rattle.std.specs.Prelude.{◌≡◌};

    ghost from_gives = { λ _ e. e ≡ EnterError.Memory };

    fn from(_error: Memory) -> EnterError {
        EnterError::Memory
    }
}
