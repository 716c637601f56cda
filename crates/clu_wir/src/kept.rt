//! Whether word code names the slots of its routine alone.

ghost use Rattle.std.specs.Prelude.{◌≡◌, map};
ghost use Rattle.clu_wir.specs.Kept.{all_keep, all_kept, are_slots, arms_keep, is_arm, is_kept, keeps, keeps_slots};
ghost use Rattle.clu_wir.specs.Plain.{arm_of, arms_of, body_of, expr_of, stmt_of};

use crate::expression::WExpr;
use crate::routine::WRoutine;
use crate::statement::{WArm, WStmt};

impl WRoutine {
    /// Whether it has slots for its arguments, each of its slots is one of so many, and each arm for all others has no names
    /// and at most one slot.
    pub fn keeps_slots(&self) -> bool
        ensures { result ≡ keeps_slots self.now }
    {
        self.args <= self.slots && list(self.slots, self.body.as_slice())
    }
}

#[cycle(kept)]
fn has(slots: u32, value: &WExpr) -> bool
    ensures { result ≡ is_kept slots (expr_of value.now) }
{
    match value {
        WExpr::Slot(slot) => *slot < slots,
        WExpr::Word(_) | WExpr::Hole(_, _) | WExpr::Bound(_) => true,
        WExpr::Load(address, _) => has(slots, address),
        WExpr::Byte(address) => has(slots, address),
        WExpr::Binary(_, left, right) => has(slots, left) && has(slots, right),
        WExpr::If(condition, then, other) => {
            has(slots, condition) && (has(slots, then) && has(slots, other))
        }
        WExpr::Check(condition, _, value) => has(slots, condition) && has(slots, value),
        WExpr::With(values, body) => all(slots, values.as_slice()) && has(slots, body),
    }
}

#[cycle(kept)]
fn all(slots: u32, values: &[WExpr]) -> bool
    ensures { result ≡ all_kept slots (map expr_of values.now) }
{
    for value in values {
        if !has(slots, value) {
            return false;
        }
    }
    true
}

/// Whether each of these is a slot of so many.
fn are_slots(slots: u32, numbers: &[u32]) -> bool
    ensures { result ≡ are_slots slots numbers.now }
{
    for number in numbers {
        if *number >= slots {
            return false;
        }
    }
    true
}

#[cycle(keeping)]
#[tactic(auto, unfolding(crate::specs::Kept::keeps, crate::specs::Kept::all_keep, crate::specs::Kept::arms_keep))]
fn list(slots: u32, statements: &[WStmt]) -> bool
    ensures { result ≡ all_keep slots (body_of statements.now) }
{
    for each in statements {
        if !statement(slots, each) {
            return false;
        }
    }
    true
}

#[cycle(keeping)]
#[tactic(auto, unfolding(crate::specs::Kept::keeps, crate::specs::Kept::all_keep, crate::specs::Kept::arms_keep))]
fn arms(slots: u32, arms: &[WArm]) -> bool
    ensures { result ≡ arms_keep slots (arms_of (map arm_of arms.now)) }
{
    for arm in arms {
        if !is_arm(arm) {
            return false;
        }
        if !are_slots(slots, arm.slots.as_slice()) {
            return false;
        }
        if !list(slots, arm.body.as_slice()) {
            return false;
        }
    }
    true
}

/// Whether an arm for all others has no names and at most one slot.
fn is_arm(arm: &WArm) -> bool
    ensures { result ≡ is_arm arm.now.others arm.now.names.items arm.now.slots.items }
{
    if arm.others {
        return arm.names.as_slice().is_empty() && arm.slots.len() <= 1;
    }
    true
}

#[cycle(keeping)]
#[tactic(auto, unfolding(crate::specs::Kept::keeps, crate::specs::Kept::all_keep, crate::specs::Kept::arms_keep))]
fn statement(slots: u32, statement: &WStmt) -> bool
    ensures { result ≡ keeps slots (stmt_of statement.now) }
{
    match statement {
        WStmt::Set(to, value) => *to < slots && has(slots, value),
        WStmt::Put(address, _, value) => has(slots, address) && has(slots, value),
        WStmt::Call(routine, values, results) => {
            has(slots, routine)
                && (all(slots, values.as_slice()) && are_slots(slots, results.as_slice()))
        }
        WStmt::Prim(_, values, results) => {
            all(slots, values.as_slice()) && are_slots(slots, results.as_slice())
        }
        WStmt::Bind(number, value, to) => {
            has(slots, number) && (has(slots, value) && *to < slots)
        }
        WStmt::If(condition, then, other) => {
            has(slots, condition) && (list(slots, then.as_slice()) && list(slots, other.as_slice()))
        }
        WStmt::Loop(body) => list(slots, body.as_slice()),
        WStmt::Break | WStmt::Continue => true,
        WStmt::Iterate(routine, values, items, body) => {
            has(slots, routine)
                && (all(slots, values.as_slice())
                    && (are_slots(slots, items.as_slice()) && list(slots, body.as_slice())))
        }
        WStmt::Yield(words) => all(slots, words.as_slice()),
        WStmt::Raise(_, objects) => all(slots, objects.as_slice()),
        WStmt::Signal(_, objects) => all(slots, objects.as_slice()),
        WStmt::Exit(_, _, words) => all(slots, words.as_slice()),
        WStmt::Guard(body, handlers) => {
            list(slots, body.as_slice()) && arms(slots, handlers.as_slice())
        }
        WStmt::Resignal(body, _) => list(slots, body.as_slice()),
        WStmt::Return(results) => all(slots, results.as_slice()),
    }
}
