//! A row of the table of built-in operations: an operation's heading, told by the type that has it.

ghost use Rattle.std.specs.Prelude.{◌≡◌};
ghost use Rattle.clu_builtin.specs.Rows.{is_iter};

use crate::names::{Op, Signal};

/// A type in a row: the type that has the operation, the element or component type of it, a simple type,
/// or an array of the element type. The element type of string is char.
#[derive(Clone, Copy)]
pub enum Slot {
    Own,
    Part,
    Bool,
    Int,
    Char,
    Str,
    Array,
}

/// The arguments.
#[derive(Clone, Copy)]
pub enum Takes {
    Nothing,
    One(Slot),
    Two(Slot, Slot),
    Three(Slot, Slot, Slot),
}

/// The result of a procedure, or what an iterator yields.
#[derive(Clone, Copy)]
pub enum Gives {
    Nothing,
    Value(Slot),
    Yields(Slot),
}

impl Gives {
    /// Whether the operation is an iterator.
    pub fn is_iter(self) -> bool
        ensures { result ≡ is_iter self }
    {
        match self {
            Gives::Nothing => false,
            Gives::Value(_) => false,
            Gives::Yields(_) => true,
        }
    }
}

/// The signals, in ascending order of their names.
#[derive(Clone, Copy)]
pub enum Raises {
    Nothing,
    One(Signal),
    Two(Signal, Signal),
}

/// The operation that each element or component type must have.
#[derive(Clone, Copy)]
pub enum Needs {
    Nothing,
    Equal,
    Similar,
    Copy,
}

/// An operation with its heading and its needs.
#[derive(Clone, Copy)]
pub struct Row(pub Op, pub Takes, pub Gives, pub Raises, pub Needs);
