//! The constants of CLU programs: values of the types null, bool, int, char and string that are
//! known before a program runs (CLU Reference Manual, section 7.2).

ghost use Rattle.std.specs.Prelude.{◌≡◌, IfOk};

use crate::byte_string::Bytes;
use crate::errors::Memory;
use std::alloc::Global;

/// A constant value.
#[derive(Drop, PartialEq, Eq, Hash)]
pub enum Const {
    Null,
    Bool(bool),
    Int(i64),
    Char(u8),
    Str(Bytes),
}

impl Const {
    /// An equal constant of its own. The only error is that memory runs out.
    pub fn copy(&self, alloc: Global) -> Result<Const, Memory>
        ensures { IfOk result (λ copied. copied ≡ self.now) }
    {
        match self {
            Const::Null => Ok(Const::Null),
            Const::Bool(b) => Ok(Const::Bool(*b)),
            Const::Int(n) => Ok(Const::Int(*n)),
            Const::Char(b) => Ok(Const::Char(*b)),
            Const::Str(bytes) => Ok(Const::Str(bytes.copy(alloc)?)),
        }
    }
}

/// A constant as the code of a parameterized module names it.
#[derive(Drop, PartialEq, Eq, Hash)]
pub enum ObjConst {
    Value(Const),
    /// The module's constant parameter of this number, from 1.
    Param(u32),
}
