//! Values of expressions. A value is an expression, which loads and raises only where it stands: before a statement that comes
//! before its use it is kept in a slot.

ghost use Rattle.std.specs.Prelude.{◌≡◌, IfOk};
ghost use Rattle.clu_wir.specs.Plain.{expr_of};
ghost use Rattle.clu_lower_expr.specs.Low.{low_of};
ghost use Rattle.clu_lower_expr.specs.Values.{is_fixed, kept, operand_of, value_of};

use crate::lowering::Lowering;
use clu_lower_types::{LowerError, Result};
use clu_wir::{WExpr, WStmt};
use std::mem;

/// The value of an expression, with its node.
#[derive(Drop)]
pub struct Operand {
    pub word: WExpr,
    pub node: u32,
    /// Where it is kept, unless it is fixed.
    slot: u32,
}

/// How many registers and words an expression may need that stands in another.
const REGISTERS: u32 = 8;

const WORDS: u64 = 256;

impl Lowering {
    /// The value of the expression n. If it isn't fixed it may be kept, also after further ones are lowered.
    pub fn operand(&mut self, word: WExpr, n: u32) -> Result<Operand>
        ensures { IfOk result (λ operand. operand_of (expr_of word) n (low_of self.old) ≡ (value_of operand, low_of self.new)) }
    {
        let slot = self.taken();
        if !is_fixed(&word) {
            let _slot = self.take()?;
        }
        Ok(Operand {
            word,
            node: n,
            slot,
        })
    }

    /// Keeps the values that are not fixed.
    pub fn keep_all(&mut self, operands: &mut Vec<Operand>) -> Result<()> {
        for operand in operands.iter_mut() {
            if !is_fixed(&operand.word) {
                let slot = operand.slot;
                let word = mem::replace(&mut operand.word, WExpr::Slot(slot));
                self.push(WStmt::Set(slot, word))?;
            }
        }
        Ok(())
    }

    /// A value that is fixed: any other is kept in a new slot.
    pub fn kept(&mut self, value: WExpr) -> Result<WExpr>
        ensures { IfOk result (λ e. kept (expr_of value) (low_of self.old) ≡ (expr_of e, low_of self.new)) }
    {
        if is_fixed(&value) {
            return Ok(value);
        }
        let slot = self.take()?;
        self.push(WStmt::Set(slot, value))?;
        Ok(WExpr::Slot(slot))
    }

    /// A value that may stand in another. One that is too large is kept in the slot after the first `taken`, and slots after
    /// that are given back.
    pub fn handed(&mut self, value: WExpr, taken: u32) -> Result<WExpr> {
        if value.registers() <= REGISTERS && value.words() <= WORDS {
            return Ok(value);
        }
        self.release(taken);
        self.kept(value)
    }
}

/// Whether a value loads nothing but a slot, which no statement of an expression sets, and raises nothing.
pub fn is_fixed(value: &WExpr) -> bool
    ensures { result ≡ is_fixed (expr_of value.now) }
{
    matches!(value, WExpr::Slot(_) | WExpr::Word(_) | WExpr::Hole(_, _))
}

/// The same word once more, of a value that is fixed.
pub fn again(value: &WExpr) -> Result<WExpr>
    ensures { IfOk result (λ e. expr_of e ≡ expr_of value.now) }
{
    match value {
        WExpr::Slot(slot) => Ok(WExpr::Slot(*slot)),
        WExpr::Word(word) => Ok(WExpr::Word(*word)),
        WExpr::Hole(kind, number) => Ok(WExpr::Hole(*kind, *number)),
        _ => Err(LowerError::NotYet),
    }
}
