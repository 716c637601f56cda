//! Expressions of word code.

use crate::hole::HoleKind;
use crate::trap::Trap;

/// An expression whose value is one word. Its evaluation changes nothing, but it may raise an exception where it stands.
/// Operands are evaluated from left to right.
#[derive(Debug, Drop)]
pub enum WExpr {
    /// The word in a slot of the routine.
    Slot(u32),
    /// A word that is known.
    Word(u64),
    /// A word that the linker knows: the item of this kind and number.
    Hole(HoleKind, u32),
    /// The word so many bytes after an address. Both are multiples of 8.
    Load(Box<WExpr>, u32),
    /// The byte at an address.
    Byte(Box<WExpr>),
    /// An operation on two words.
    Binary(WOp, Box<WExpr>, Box<WExpr>),
    /// The second where the first isn't 0, else the third. The other one isn't evaluated.
    If(Box<WExpr>, Box<WExpr>, Box<WExpr>),
    /// The last one; where the first is 0 the exception is raised before that is evaluated.
    Check(Box<WExpr>, Trap, Box<WExpr>),
    /// The last one, in which the words of the others are bound. Of them it sees these alone.
    With(Vec<WExpr>, Box<WExpr>),
    /// The word of this number, from 0, among those that the innermost With binds.
    Bound(u32),
}

/// The operations on two words: those of RV64IM between registers (RISC-V unprivileged specification,
/// chapters "RV64I" and "M"), with the same results, and equality.
#[derive(Clone, Copy, Debug, PartialEq, Eq)]
pub enum WOp {
    Add,
    Sub,
    /// Shifts take the low six bits of the second word.
    Sll,
    /// 1 where the first is less as a signed number, else 0.
    Slt,
    /// 1 where the first is less as an unsigned number, else 0.
    Sltu,
    Xor,
    Srl,
    Sra,
    Or,
    And,
    Mul,
    /// The upper word of the signed product.
    Mulh,
    /// The upper word of the product of a signed and an unsigned word.
    Mulhsu,
    /// The upper word of the unsigned product.
    Mulhu,
    /// Division rounds toward zero; by zero it is -1.
    Div,
    Divu,
    Rem,
    Remu,
    /// 1 where the words are equal, else 0.
    Equal,
}
