//! Copies of expressions, and of what routines name.

ghost use Rattle.std.specs.Prelude.{◌≡◌, IfOk, map};
ghost use Rattle.clu_wir.specs.Plain.{expr_of};

use crate::expression::WExpr;
use clu_base::{Bytes, Memory, ObjConst, Sequence};
use std::alloc::Global;

impl WExpr {
    /// The same expression once more. The only error is that memory runs out.
    #[cycle(copies)]
    pub fn copy(&self, alloc: Global) -> Result<WExpr, Memory>
        ensures { IfOk result (λ copied. expr_of copied ≡ expr_of self.now) }
    {
        match self {
            WExpr::Slot(slot) => Ok(WExpr::Slot(*slot)),
            WExpr::Word(word) => Ok(WExpr::Word(*word)),
            WExpr::Hole(kind, number) => Ok(WExpr::Hole(*kind, *number)),
            WExpr::Bound(number) => Ok(WExpr::Bound(*number)),
            WExpr::Load(address, bytes) => Ok(WExpr::Load(address.boxed_copy(alloc)?, *bytes)),
            WExpr::Byte(address) => Ok(WExpr::Byte(address.boxed_copy(alloc)?)),
            WExpr::Binary(op, left, right) => {
                let left = left.boxed_copy(alloc)?;
                Ok(WExpr::Binary(*op, left, right.boxed_copy(alloc)?))
            }
            WExpr::If(condition, then, other) => {
                let condition = condition.boxed_copy(alloc)?;
                let then = then.boxed_copy(alloc)?;
                Ok(WExpr::If(condition, then, other.boxed_copy(alloc)?))
            }
            WExpr::Check(condition, trap, value) => {
                let condition = condition.boxed_copy(alloc)?;
                Ok(WExpr::Check(condition, *trap, value.boxed_copy(alloc)?))
            }
            WExpr::With(values, body) => {
                let values = copies(alloc, values.as_slice())?;
                Ok(WExpr::With(values, body.boxed_copy(alloc)?))
            }
        }
    }

    #[cycle(copies)]
    fn boxed_copy(&self, alloc: Global) -> Result<Box<WExpr>, Memory>
        ensures { IfOk result (λ copied. expr_of copied.value ≡ expr_of self.now) }
    {
        Ok(Box::new(alloc, self.copy(alloc)?)?)
    }
}

#[cycle(copies)]
fn copies(alloc: Global, values: &[WExpr]) -> Result<Vec<WExpr>, Memory>
    ensures { IfOk result (λ copied. map expr_of copied.items ≡ map expr_of values.now) }
{
    let mut copied = Vec::new(alloc);
    for value in values {
        copied.push(value.copy(alloc)?)?;
    }
    Ok(copied)
}

/// An equal constant of its own.
pub fn copy_constant(alloc: Global, constant: &ObjConst) -> Result<ObjConst, Memory>
    ensures { IfOk result (λ copied. copied ≡ constant.now) }
{
    match constant {
        ObjConst::Value(value) => Ok(ObjConst::Value(value.copy(alloc)?)),
        ObjConst::Param(number) => Ok(ObjConst::Param(*number)),
    }
}

/// Equal texts of their own.
pub fn copy_texts(alloc: Global, texts: &[Bytes]) -> Result<Sequence<Bytes>, Memory>
    ensures { IfOk result (λ copied. copied ≡ texts.now) }
{
    let mut copied = Vec::new(alloc);
    for text in texts {
        copied.push(text.copy(alloc)?)?;
    }
    Ok(Sequence::from_vec(copied))
}

/// Equal constants of their own.
pub fn copy_constants(alloc: Global, constants: &[ObjConst]) -> Result<Sequence<ObjConst>, Memory>
    ensures { IfOk result (λ copied. copied ≡ constants.now) }
{
    let mut copied = Vec::new(alloc);
    for constant in constants {
        copied.push(copy_constant(alloc, constant)?)?;
    }
    Ok(Sequence::from_vec(copied))
}
