//! How much of an image a routine may take: what the steps that its statements become take at most, in a frame of any
//! size, and what the tables take that go with them.

ghost use Rattle.std.specs.Prelude.{◌≡◌, length, map};
ghost use Rattle.clu_wir.specs.Costs.{known_words};
ghost use Rattle.clu_wir.specs.Rooms.{all_of, all_words_of, arm_room, arm_room_of, both, call_room, code_room, constant_bytes, costs as costs_of, data_room, exception_room, room_of, results_room, routine_room, row_room, table_bytes, times as times_of, two_room, words_of};

use crate::cost::Cost;
use crate::expression::WExpr;
use crate::routine::WRoutine;
use crate::statement::{WArm, WStmt};
use clu_base::{Const, ObjConst};

/// What may be taken of an image.
#[derive(Clone, Copy, Debug, PartialEq, Eq)]
pub struct Room {
    /// Words of code.
    pub code: u64,
    /// Bytes of data and of its fixed part.
    pub data: u64,
}

/// The words of a constant, as the name of an exception is.
const NAME: u64 = 4;

/// The bytes of an arm: a row.
const ARM: u64 = 24;

/// The jump over the arms of a guard, and its region: two cuts and a row.
const GUARD: Room = Room { code: 1, data: 56 };

/// The jump over the step that passes on, that step, and its region: two cuts and a row.
const RESIGNAL: Room = Room { code: 8, data: 56 };

/// The bytes of a use: two cells and a descriptor.
const USE: u64 = 40;

const CELL: u64 = 8;

/// The bytes of the routine's descriptor, of the first cell of its link table, and of a regions table without a region.
const OWN: u64 = 56;

impl Room {
    const NONE: Room = Room { code: 0, data: 0 };

    fn words(code: u64) -> Room
        ensures { result ≡ code_room code }
    {
        Room { code, data: 0 }
    }

    /// Room for both.
    pub fn and(self, other: Room) -> Room
        ensures { result ≡ both self other }
    {
        Room {
            code: self.code.saturating_add(other.code),
            data: self.data.saturating_add(other.data),
        }
    }
}

impl WExpr {
    /// The words of code that its evaluation into a register takes at most.
    #[cycle(words)]
    pub fn words(&self) -> u64
        ensures { result ≡ words_of self.now }
    {
        match self {
            WExpr::Bound(_) => 1,
            WExpr::Slot(_) => 3,
            WExpr::Hole(_, _) => 4,
            WExpr::Word(word) => known(*word),
            WExpr::Load(address, _) => address.words().saturating_add(3),
            WExpr::Byte(address) => address.words().saturating_add(1),
            WExpr::Binary(_, left, right) => left
                .words()
                .saturating_add(right.words())
                .saturating_add(2),
            WExpr::If(condition, then, other) => condition
                .words()
                .saturating_add(then.words())
                .saturating_add(other.words())
                .saturating_add(5),
            WExpr::Check(condition, _, value) => condition
                .words()
                .saturating_add(value.words())
                .saturating_add(5),
            WExpr::With(values, body) => all_words(values.as_slice()).saturating_add(body.words()),
        }
    }
}

/// The words of a known word: one that an immediate holds takes one.
fn known(word: u64) -> u64
    ensures { result ≡ known_words word }
{
    if word.wrapping_add(2048) < 4096 { 1 } else { 6 }
}

/// The words of the evaluation of values, each of which stays in its register.
#[cycle(words)]
fn all_words(values: &[WExpr]) -> u64
    ensures { result ≡ all_words_of (map words_of values.now) }
{
    let mut code = 0u64;
    for value in values {
        code = code.saturating_add(value.words());
    }
    code
}

impl WRoutine {
    /// What it may take of an image, but for the own variables.
    pub fn room(&self) -> Room
        ensures { result ≡ routine_room self.now }
    {
        let arguments = Cost::Argument.words().saturating_mul(u64::from(self.args));
        list(self.body.as_slice())
            .and(Room::words(arguments))
            .and(Room::words(Cost::Enter.words()))
            .and(Room::words(Cost::Leave.words()))
            .and(self.tables())
    }

    fn tables(&self) -> Room
        ensures { result ≡ data_room (table_bytes self.now) }
    {
        let uses = times(USE, self.uses.len());
        let types = times(CELL, self.types.len());
        let mut data = OWN.saturating_add(uses).saturating_add(types);
        for constant in &self.constants {
            data = data.saturating_add(constant_bytes(constant));
        }
        Room { code: 0, data }
    }
}

/// The bytes of a constant: its cell, and of a string its size and its bytes, in whole words.
fn constant_bytes(constant: &ObjConst) -> u64
    ensures { result ≡ constant_bytes constant.now }
{
    match constant {
        ObjConst::Value(Const::Str(bytes)) => {
            times(1, bytes.as_slice().len()).saturating_add(CELL + 15)
        }
        _ => CELL,
    }
}

fn times(each: u64, count: usize) -> u64
    ensures { result ≡ times_of each count }
{
    each.saturating_mul(count as u64)
}

/// Values that go into slots side by side.
fn row(values: &[WExpr]) -> Room
    ensures { result ≡ row_room values.now }
{
    let moves = times(Cost::Save.words(), values.len());
    Room::words(all_words(values)).and(Room::words(moves))
}

#[cycle(rooms)]
fn list(statements: &[WStmt]) -> Room
    ensures { result ≡ all_of (map room_of statements.now) }
{
    let mut needed = Room::NONE;
    for each in statements {
        needed = needed.and(statement(each));
    }
    needed
}

#[cycle(rooms)]
fn arms(arms: &[WArm]) -> Room
    ensures { result ≡ all_of (map arm_room_of arms.now) }
{
    let mut needed = Room::NONE;
    for arm in arms {
        let head = before_arm(arm.slots.len(), arm.names.len());
        needed = needed.and(head.and(list(arm.body.as_slice())));
    }
    needed
}

/// An arm of so many slots and names, but for its statements.
fn before_arm(slots: usize, names: usize) -> Room
    ensures { result ≡ arm_room slots names }
{
    Room {
        code: times(Cost::Result.words(), slots).saturating_add(Cost::Jump.words()),
        data: times(ARM, names).saturating_add(ARM),
    }
}

/// The rows of so many names.
fn rows(names: usize) -> Room
    ensures { result ≡ data_room (times_of 24 names) }
{
    Room {
        code: 0,
        data: times(ARM, names),
    }
}

#[cycle(rooms)]
fn statement(statement: &WStmt) -> Room
    ensures { result ≡ room_of statement.now }
{
    match statement {
        WStmt::Set(_, value) => Room::words(value.words()).and(costs(Cost::Save)),
        WStmt::Put(address, _, value) => two(address, value, Cost::Save),
        WStmt::Call(routine, values, results) => {
            call(routine, values.as_slice()).and(results_of(results.len()))
        }
        WStmt::Prim(_, values, results) => row(values.as_slice())
            .and(costs(Cost::Primitive))
            .and(results_of(results.len())),
        WStmt::Bind(number, value, _) => two(number, value, Cost::Bind),
        WStmt::If(condition, then, other) => Room::words(condition.words())
            .and(costs(Cost::Branch))
            .and(costs(Cost::Jump))
            .and(list(then.as_slice()))
            .and(list(other.as_slice())),
        WStmt::Loop(body) => costs(Cost::Jump).and(list(body.as_slice())),
        WStmt::Break => costs(Cost::Cut).and(costs(Cost::Jump)),
        WStmt::Continue => costs(Cost::Jump),
        WStmt::Iterate(routine, values, items, body) => call(routine, values.as_slice())
            .and(results_of(items.len()))
            .and(costs(Cost::Jump))
            .and(costs(Cost::Take))
            .and(costs(Cost::Resume))
            .and(list(body.as_slice())),
        WStmt::Yield(words) => row(words.as_slice()).and(costs(Cost::Yield)),
        WStmt::Raise(_, objects) => exception(objects.as_slice()).and(costs(Cost::Raise)),
        WStmt::Signal(_, objects) => exception(objects.as_slice()).and(costs(Cost::Signal)),
        WStmt::Exit(_, _, words) => row(words.as_slice())
            .and(results_of(words.len()))
            .and(costs(Cost::Cut))
            .and(costs(Cost::Jump)),
        WStmt::Guard(body, handlers) => GUARD
            .and(list(body.as_slice()))
            .and(arms(handlers.as_slice())),
        WStmt::Resignal(body, names) => RESIGNAL.and(list(body.as_slice())).and(rows(names.len())),
        WStmt::Return(results) => row(results.as_slice()).and(costs(Cost::Leave)),
    }
}

fn costs(cost: Cost) -> Room
    ensures { result ≡ costs_of cost }
{
    Room::words(cost.words())
}

/// Two expressions, and a step over their words.
fn two(first: &WExpr, second: &WExpr, cost: Cost) -> Room
    ensures { result ≡ two_room first.now second.now cost }
{
    Room::words(first.words())
        .and(Room::words(second.words()))
        .and(costs(cost))
}

/// So many words that go into slots.
fn results_of(count: usize) -> Room
    ensures { result ≡ results_room count }
{
    Room::words(times(Cost::Result.words(), count))
}

/// The name of an exception and its objects, in slots side by side.
fn exception(objects: &[WExpr]) -> Room
    ensures { result ≡ exception_room objects.now }
{
    row(objects).and(Room::words(NAME)).and(costs(Cost::Save))
}

fn call(routine: &WExpr, values: &[WExpr]) -> Room
    ensures { result ≡ call_room routine.now values.now }
{
    row(values)
        .and(Room::words(routine.words()))
        .and(costs(Cost::Invoke))
}
