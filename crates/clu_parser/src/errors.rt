//! Why a source has no tree, and why reading its symbols stopped.

ghost use Rattle.std.specs.Prelude.{◌≡◌};

use clu_base::{Memory, Place};

/// Why a source has no tree.
#[derive(Clone, Copy, Debug)]
pub enum ParseError {
    /// The tokens up to and including the one at this place begin no file of the grammar.
    Syntax(Place),
    /// At this place the source is more than 200 deep.
    TooDeep(Place),
    /// Memory was refused.
    Memory,
}

impl From<Memory> for ParseError {
    ghost use Rattle.clu_parser.specs.declared.errors.ParseError.{ParseError};

    ghost from_gives = { λ _ e. e ≡ ParseError.Memory };

    fn from(_error: Memory) -> ParseError {
        ParseError::Memory
    }
}

/// Why reading stopped.
#[derive(Clone, Copy)]
pub enum ReadError {
    /// The symbols before the one of this number begin a file, and with it they begin none.
    Syntax(usize),
    /// Memory was refused.
    Memory,
}

impl From<Memory> for ReadError {
    ghost use Rattle.clu_parser.specs.declared.errors.ReadError.{ReadError};

    ghost from_gives = { λ _ e. e ≡ ReadError.Memory };

    fn from(_error: Memory) -> ReadError {
        ReadError::Memory
    }
}
