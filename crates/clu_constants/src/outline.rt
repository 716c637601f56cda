//! What is known of a constant without its text.

ghost use Rattle.std.specs.Prelude.{◌≡◌};
ghost use Rattle.clu_constants.specs.Outlines.{outlined};

use clu_base::Const;

/// A constant, but of a string only how many bytes it has; a number above 64 bits counts as the greatest of 64 bits.
#[derive(Clone, Copy)]
pub enum Outline {
    Null,
    Bool(bool),
    Int(i64),
    Char(u8),
    Str(u64),
}

/// What is known of a constant without its text.
pub fn outline_of(constant: &Const) -> Outline
    ensures { result ≡ outlined constant.now }
{
    match constant {
        Const::Null => Outline::Null,
        Const::Bool(b) => Outline::Bool(*b),
        Const::Int(n) => Outline::Int(*n),
        Const::Char(byte) => Outline::Char(*byte),
        Const::Str(bytes) => Outline::Str(bytes.as_slice().len() as u64),
    }
}
