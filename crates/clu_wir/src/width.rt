//! How many words of its frame a routine needs: its slots, and after them those in which words stand side by side for a
//! call, a primitive or a jump to another routine. Expressions are evaluated in registers.

ghost use Rattle.std.specs.Prelude.{◌≡◌, map};
ghost use Rattle.clu_wir.specs.Widths.{arm_width_of, count_of, greatest, routine_width, slots_of, width_of};

use crate::expression::WExpr;
use crate::routine::WRoutine;
use crate::statement::{WArm, WStmt};

impl WExpr {
    /// How many slots there must be for those that it names: one more than the greatest of them.
    #[cycle(slots)]
    pub fn slots(&self) -> u64
        ensures { result ≡ slots_of self.now }
    {
        match self {
            WExpr::Slot(slot) => u64::from(*slot) + 1,
            WExpr::Word(_) | WExpr::Hole(_, _) | WExpr::Bound(_) => 0,
            WExpr::Load(address, _) => address.slots(),
            WExpr::Byte(address) => address.slots(),
            WExpr::Binary(_, left, right) => left.slots().max(right.slots()),
            WExpr::If(condition, then, other) => {
                condition.slots().max(then.slots()).max(other.slots())
            }
            WExpr::Check(condition, _, value) => condition.slots().max(value.slots()),
            WExpr::With(values, body) => all_slots(values.as_slice()).max(body.slots()),
        }
    }
}

impl WExpr {
    /// How many registers its evaluation needs at most.
    #[cycle(registers)]
    pub fn registers(&self) -> u32 {
        match self {
            WExpr::Slot(_) | WExpr::Word(_) | WExpr::Hole(_, _) | WExpr::Bound(_) => 1,
            WExpr::Load(address, _) => address.registers(),
            WExpr::Byte(address) => address.registers(),
            WExpr::Binary(_, left, right) => left
                .registers()
                .max(right.registers().saturating_add(1)),
            WExpr::If(condition, then, other) => condition
                .registers()
                .max(then.registers())
                .max(other.registers()),
            WExpr::Check(condition, _, value) => condition.registers().max(value.registers()),
            WExpr::With(values, body) => {
                let bound = count(values.len());
                all_registers(values.as_slice()).max(bound.saturating_add(body.registers()))
            }
        }
    }
}

/// How many registers the evaluation of values needs, each of which is kept while the next ones are evaluated.
#[cycle(registers)]
fn all_registers(values: &[WExpr]) -> u32 {
    let mut needed = 0u32;
    let mut kept = 0u32;
    for value in values {
        needed = needed.max(value.registers().saturating_add(kept));
        kept = kept.saturating_add(1);
    }
    needed
}

/// The same for all of these.
#[cycle(slots)]
fn all_slots(values: &[WExpr]) -> u64
    ensures { result ≡ greatest (map slots_of values.now) }
{
    let mut needed = 0u64;
    for value in values {
        needed = needed.max(value.slots());
    }
    needed
}

impl WRoutine {
    /// How many words its slots and its work need.
    pub fn width(&self) -> u32
        ensures { result ≡ routine_width self.now }
    {
        self.slots.saturating_add(list(self.body.as_slice()))
    }
}

/// A list of statements, each of which works with the same words.
#[cycle(widths)]
fn list(statements: &[WStmt]) -> u32
    ensures { result ≡ greatest (map width_of statements.now) }
{
    let mut needed = 0u32;
    for statement in statements {
        needed = needed.max(width(statement));
    }
    needed
}

#[cycle(widths)]
fn arms(arms: &[WArm]) -> u32
    ensures { result ≡ greatest (map arm_width_of arms.now) }
{
    let mut needed = 0u32;
    for arm in arms {
        needed = needed.max(list(arm.body.as_slice()));
    }
    needed
}

#[cycle(widths)]
fn width(statement: &WStmt) -> u32
    ensures { result ≡ width_of statement.now }
{
    match statement {
        WStmt::Set(_, _) | WStmt::Put(_, _, _) | WStmt::Bind(_, _, _) => 0,
        WStmt::Break | WStmt::Continue => 0,
        WStmt::Call(_, values, _) => count(values.len()),
        WStmt::Prim(_, values, results) => count(values.len()).max(count(results.len())),
        WStmt::If(_, then, other) => list(then.as_slice()).max(list(other.as_slice())),
        WStmt::Loop(body) | WStmt::Resignal(body, _) => list(body.as_slice()),
        // The first word holds the top of the stack round the body.
        WStmt::Iterate(_, values, _, body) => count(values.len())
            .max(list(body.as_slice()))
            .saturating_add(1),
        // The first word holds the name.
        WStmt::Raise(_, objects) | WStmt::Signal(_, objects) => {
            count(objects.len()).saturating_add(1)
        }
        WStmt::Exit(_, _, values) | WStmt::Yield(values) | WStmt::Return(values) => {
            count(values.len())
        }
        WStmt::Guard(body, handlers) => list(body.as_slice()).max(arms(handlers.as_slice())),
    }
}

/// A number of items in 32 bits.
fn count(items: usize) -> u32
    ensures { result ≡ count_of items }
{
    match u32::try_from(items) {
        Ok(number) => number,
        Err(_) => u32::MAX,
    }
}
