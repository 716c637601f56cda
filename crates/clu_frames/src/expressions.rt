//! Expressions of word code in steps.

ghost use Rattle.std.specs.Prelude.{◌≡◌, IfOk, OnOk, map, pos};
ghost use Rattle.clu_frames.specs.Flattening.{are_row, first_of_row, first_slot, invoke_onto, is_slot, made, pushed, row_at, row_onto, sets_onto, slot_of};
ghost use Rattle.clu_frames.specs.Plain as flat;
ghost use Rattle.clu_wir.specs.Plain.{expr_of};

use crate::errors::FrameError;
use crate::flat::Flat;
use crate::steps::{Steps, above};
use clu_wir::WExpr;

impl Steps {
    /// To a slot the word of an expression.
    pub fn set(&mut self, to: u32, value: &WExpr) -> Result<(), FrameError>
        ensures made { OnOk result (made self.new ≡ pushed (flat.Set to (expr_of value.now)) (made self.old)) }
    {
        let value = value.copy(self.alloc)?;
        self.push(Flat::Set(to, value))
    }

    /// To the slots from `to` on the words of expressions.
    pub fn set_row(&mut self, to: u32, values: &[WExpr]) -> Result<(), FrameError>
        ensures made { OnOk result (made self.new ≡ sets_onto to (map expr_of values.now) (made self.old)) }
    {
        let mut to = to;
        for value in values {
            self.set(to, value)?;
            to = above(to, 1)?;
        }
        Ok(())
    }

    /// The first of the slots in which the words of expressions lie side by side: their own, if they do so already, else
    /// those from `work` on.
    pub fn row(&mut self, work: u32, values: &[WExpr]) -> Result<u32, FrameError>
        ensures slot { IfOk result (λ slot. slot ≡ row_at work (map expr_of values.now)) }
        ensures made { OnOk result (made self.new ≡ row_onto work (map expr_of values.now) (made self.old)) }
    {
        match first_of_row(values) {
            Some(first) => Ok(first),
            None => {
                self.set_row(work, values)?;
                Ok(work)
            }
        }
    }

    /// Goes on at a label where the condition is not 0 if `sense` is true, else where it is 0.
    pub fn branch(&mut self, condition: &WExpr, sense: bool, label: u32) -> Result<(), FrameError>
        ensures made { OnOk result (made self.new ≡ pushed (flat.Branch (expr_of condition.now) sense label) (made self.old)) }
    {
        let condition = condition.copy(self.alloc)?;
        self.push(Flat::Branch(condition, sense, label))
    }

    /// A word so many bytes after an address.
    pub fn put(&mut self, address: &WExpr, bytes: u32, value: &WExpr) -> Result<(), FrameError>
        ensures made { OnOk result (made self.new ≡ pushed (flat.Put (expr_of address.now) (pos bytes) (expr_of value.now)) (made self.old)) }
    {
        let address = address.copy(self.alloc)?;
        let value = value.copy(self.alloc)?;
        self.push(Flat::Put(address, offset(bytes)?, value))
    }

    /// Puts an object, by the number of its type and its word, into a slot as one of type any.
    pub fn bind(&mut self, number: &WExpr, value: &WExpr, to: u32) -> Result<(), FrameError>
        ensures made { OnOk result (made self.new ≡ pushed (flat.Bind (expr_of number.now) (expr_of value.now) to) (made self.old)) }
    {
        let number = number.copy(self.alloc)?;
        let value = value.copy(self.alloc)?;
        self.push(Flat::Bind(number, value, to))
    }

    /// Calls a routine, with its arguments in slots side by side.
    pub fn invoke(
        &mut self,
        routine: &WExpr,
        arguments: &[WExpr],
        work: u32,
    ) -> Result<(), FrameError>
        ensures made { OnOk result (made self.new ≡ invoke_onto (expr_of routine.now) (map expr_of arguments.now) work (made self.old)) }
    {
        let first = self.row(work, arguments)?;
        let routine = routine.copy(self.alloc)?;
        self.push(Flat::Invoke(routine, first))
    }
}

/// The first of slots that lie side by side.
fn first_of_row(values: &[WExpr]) -> Option<u32>
    ensures { result ≡ first_of_row (map expr_of values.now) }
{
    match first_slot(values) {
        Some(first) => {
            if are_row(values, first) {
                Some(first)
            } else {
                None
            }
        }
        None => None,
    }
}

/// The slot whose word the first value is.
fn first_slot(values: &[WExpr]) -> Option<u32>
    ensures { result ≡ first_slot (map expr_of values.now) }
{
    match values {
        [first, ..] => slot_of(first),
        [] => None,
    }
}

/// The slot whose word an expression is.
fn slot_of(value: &WExpr) -> Option<u32>
    ensures { result ≡ slot_of (expr_of value.now) }
{
    match value {
        WExpr::Slot(slot) => Some(*slot),
        _ => None,
    }
}

/// Whether values are the words of slots side by side, from this one on.
fn are_row(values: &[WExpr], first: u32) -> bool
    ensures { result ≡ are_row first (map expr_of values.now) }
{
    let mut next = first;
    for value in values {
        if !is_slot(next, slot_of(value)) {
            return false;
        }
        next = next.saturating_add(1);
    }
    true
}

fn is_slot(number: u32, slot: Option<u32>) -> bool
    ensures { result ≡ is_slot number slot }
{
    match slot {
        Some(slot) => slot == number,
        None => false,
    }
}

/// A number of bytes as the offset of a load or a save.
fn offset(bytes: u32) -> Result<i32, FrameError>
    ensures { IfOk result (λ offset. offset ≡ pos bytes) }
{
    i32::try_from(bytes).map_err(|_| FrameError::NotYet)
}
