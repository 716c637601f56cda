//! Variables of a routine: the slots that hold them.

ghost use Rattle.std.specs.Prelude.{◌≡◌, ◌∷◌, [], IfOk, OnOk, Some, codes, map};
ghost use Rattle.clu_wir.specs.Plain.{expr_of};
ghost use Rattle.clu_lower_expr.specs.Names.{failure_raised, failure_signalled, with_exception};
ghost use Rattle.clu_lower_expr.specs.Values.{string_word};
ghost use Rattle.clu_lower_expr.specs.Low.{assigned, bare_variable, low_of, named_variable, needed, noted, object_of};

use crate::lowering::Lowering;
use clu_base::Bytes;
use clu_lower_types::Result;
use clu_wir::{Trap, WExpr, WStmt};
use std::boxed::Box;

/// Where a variable is.
#[derive(Clone, Copy)]
pub struct Variable {
    /// The slot of its object's word.
    pub slot: u32,
    /// Of a variable that may name no object: the slot that is 1 where it names one, else 0. No word could say that,
    /// since each is one of an int.
    pub named: Option<u32>,
    /// Whether its type is any.
    pub is_any: bool,
}

impl Lowering {
    /// A new variable that names an object from the first on.
    pub fn named_variable(&mut self) -> Result<Variable>
        ensures { IfOk result (λ v. named_variable (low_of self.old) ≡ (v, low_of self.new)) }
    {
        Ok(Variable {
            slot: self.take()?,
            named: None,
            is_any: false,
        })
    }

    /// A new variable that names no object yet.
    pub fn bare_variable(&mut self) -> Result<Variable>
        ensures { IfOk result (λ v. bare_variable (low_of self.old) ≡ (v, low_of self.new)) }
    {
        let slot = self.take()?;
        let named = self.take()?;
        self.push(WStmt::Set(named, WExpr::Word(0)))?;
        Ok(Variable {
            slot,
            named: Some(named),
            is_any: false,
        })
    }

    /// Lets a variable name the object of a word.
    pub fn assign(&mut self, variable: Variable, value: WExpr) -> Result<()>
        ensures { OnOk result (low_of self.new ≡ assigned variable (expr_of value) (low_of self.old)) }
    {
        self.push(WStmt::Set(variable.slot, value))?;
        self.note_named(variable)
    }

    /// Notes that a variable names the object whose word was put into its slot.
    pub fn note_named(&mut self, variable: Variable) -> Result<()>
        ensures { OnOk result (low_of self.new ≡ noted variable.named (low_of self.old)) }
    {
        match variable.named {
            Some(named) => self.push(WStmt::Set(named, WExpr::Word(1))),
            None => Ok(()),
        }
    }

    /// The word of the object that the variable of this declaration names. Where it names none the code raises a failure.
    pub fn object_of(&self, place: usize) -> Result<WExpr>
        ensures { IfOk result (λ e. object_of place (low_of self.now) ≡ Some (expr_of e)) }
    {
        let variable = self.variable(place)?;
        match variable.named {
            Some(named) => self.needed(WExpr::Slot(named), WExpr::Slot(variable.slot)),
            None => Ok(WExpr::Slot(variable.slot)),
        }
    }

    /// A word, where the one before it isn't 0; else the code raises the failure of a variable that names no object.
    pub fn needed(&self, named: WExpr, word: WExpr) -> Result<WExpr>
        ensures { IfOk result (λ e. expr_of e ≡ needed (expr_of named) (expr_of word)) }
    {
        let named = Box::new(self.alloc, named)?;
        let word = Box::new(self.alloc, word)?;
        Ok(WExpr::Check(named, Trap::Uninitialized, word))
    }

    /// Raises a failure of this text.
    pub fn raise_failure(&mut self, text: &[u8]) -> Result<()>
        ensures { OnOk result (low_of self.new ≡ failure_raised text.now (low_of self.old)) }
    {
        let (name, objects) = self.failure(text)?;
        self.push(WStmt::Raise(name, objects))
    }

    /// Ends the routine with a failure of this text.
    pub fn signal_failure(&mut self, text: &[u8]) -> Result<()>
        ensures { OnOk result (low_of self.new ≡ failure_signalled text.now (low_of self.old)) }
    {
        let (name, objects) = self.failure(text)?;
        self.push(WStmt::Signal(name, objects))
    }

    /// The name of a failure and its string.
    fn failure(&mut self, text: &[u8]) -> Result<(Bytes, Vec<WExpr>)>
        ensures name { IfOk result (λ failure. failure.0 ≡ codes "failure") }
        ensures objects { IfOk result (λ failure. map expr_of failure.1.items ≡ (string_word text.now (low_of self.old)).0 ∷ []) }
        ensures constants { OnOk result (low_of self.new ≡ with_exception (codes "failure") (string_word text.now (low_of self.old)).1) }
    {
        let mut objects = Vec::new(self.alloc);
        objects.push(self.string(text)?)?;
        let name = Bytes::from_slice(self.alloc, b"failure")?;
        self.exception(&name)?;
        Ok((name, objects))
    }

    /// The name of an exception is one of the routine's constants.
    pub fn exception(&mut self, name: &Bytes) -> Result<()>
        ensures { OnOk result (low_of self.new ≡ with_exception name.now (low_of self.old)) }
    {
        let _word = self.string(name.as_slice())?;
        Ok(())
    }
}
