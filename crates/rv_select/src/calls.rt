//! Calls: frames are made by the routine that is called, and taken away by it.
//!
//! A frame is, from its place up: the return address, the place of the caller's frame, the caller's link table, the top
//! of the stack outside all loops, and the slots. A descriptor is the entry, the number of the routine's type, and the
//! link table, whose first cell is the address of the routine's regions table.

ghost use Rattle.std.specs.Prelude.{◌≡◌, OnOk};
ghost use Rattle.clu_wir.specs.Plain.{expr_of};
ghost use Rattle.rv_select.specs.Evaluation.{part_of};
ghost use Rattle.rv_select.specs.Selection.{invoke_onto};
ghost use Rattle.rv_select.specs.Steps.{argument_onto, arguments_onto, caller_onto, enter_onto, leave_onto, left_onto, result_onto, results_onto, room_onto, take_onto};
ghost use Rattle.rv_select.specs.Written.{written};

use crate::error::Answer;
use crate::evaluating::in_register;
use crate::operand::Scope;
use crate::register::Register;
use crate::register::Register::{
    Back, Caller, First, Frame, Second, StackEnd, Table, Top, Value, Words as Travelling, Zero,
};
use crate::slots::{
    address_at, load_at, load_slot, save_slot, slot_address, slot_distance, word_distance,
};
use crate::words::Words;
use clu_wir::WExpr;
use rv_isa::Op;

/// The environment's calls that end a run whose store or stack is full.
pub(crate) const STORE_FULL: i32 = 2;

pub(crate) const STACK_FULL: i32 = 3;

/// Ends the run where the new top of the stack in `Second` is beyond its end.
pub(crate) fn test_room(words: &mut Words) -> Answer<()>
    ensures { OnOk result (written words.new ≡ room_onto (written words.old)) }
{
    words.service_unless(Op::Bgeu, StackEnd, Second, STACK_FULL)
}

/// Makes a frame of so many slots and copies the arguments.
pub(crate) fn enter(words: &mut Words, arguments: u32, frame: u32) -> Answer<()>
    ensures { OnOk result (written words.new ≡ enter_onto arguments frame (written words.old)) }
{
    address_at(words, Second, Top, slot_distance(frame)?)?;
    test_room(words)?;
    words.sd(Back, Top, 0)?;
    words.sd(Frame, Top, 8)?;
    words.sd(Caller, Top, 16)?;
    words.sd(Second, Top, 24)?;
    words.copy(Frame, Top)?;
    words.copy(Top, Second)?;
    copy_arguments(words, arguments)
}

fn copy_arguments(words: &mut Words, arguments: u32) -> Answer<()>
    ensures { OnOk result (written words.new ≡ arguments_onto arguments (written words.old)) }
{
    for argument in 0..arguments {
        copy_argument(words, argument)?;
    }
    Ok(())
}

fn copy_argument(words: &mut Words, argument: u32) -> Answer<()>
    ensures { OnOk result (written words.new ≡ argument_onto argument (written words.old)) }
{
    load_at(words, First, Value, word_distance(argument)?)?;
    save_slot(words, First, argument)
}

/// Calls the routine whose descriptor's address is the word, with its arguments from the slot on. The jump is the last
/// word, so that the return address leads to the next step.
pub(crate) fn invoke(words: &mut Words, routine: &WExpr, slot: u32, scope: Scope) -> Answer<()>
    ensures { OnOk result (written words.new ≡ invoke_onto (part_of (expr_of routine.now)) slot scope (written words.old)) }
{
    let descriptor = in_register(words, routine, scope)?;
    slot_address(words, Value, slot)?;
    words.copy(Caller, Table)?;
    words.ld(Table, descriptor, 16)?;
    words.ld(First, descriptor, 0)?;
    words.jalr(Back, First, 0)
}

/// Takes the value that travelled.
pub(crate) fn take(words: &mut Words, to: u32) -> Answer<()>
    ensures { OnOk result (written words.new ≡ take_onto to (written words.old)) }
{
    save_slot(words, Value, to)
}

/// Takes the word of this number at the address that travelled.
pub(crate) fn result(words: &mut Words, to: u32, number: u32) -> Answer<()>
    ensures { OnOk result (written words.new ≡ result_onto to number (written words.old)) }
{
    load_at(words, First, Travelling, word_distance(number)?)?;
    save_slot(words, First, to)
}

/// Goes back with the only result, or with the address of several.
pub(crate) fn leave(words: &mut Words, slot: u32, count: u32) -> Answer<()>
    ensures { OnOk result (written words.new ≡ leave_onto slot count (written words.old)) }
{
    hand_over(words, slot, count)?;
    leave_frame(words, Back)
}

fn hand_over(words: &mut Words, slot: u32, count: u32) -> Answer<()>
    ensures { OnOk result (written words.new ≡ results_onto slot count (written words.old)) }
{
    match count {
        0 => Ok(()),
        1 => load_slot(words, Value, slot),
        _ => slot_address(words, Travelling, slot),
    }
}

/// Takes the running frame away, and goes on at the address in a register.
pub(crate) fn leave_frame(words: &mut Words, to: Register) -> Answer<()>
    ensures { OnOk result (written words.new ≡ left_onto to (written words.old)) }
{
    words.ld(Back, Frame, 0)?;
    words.copy(Top, Frame)?;
    caller_frame(words)?;
    words.jalr(Zero, to, 0)
}

/// The running frame is the caller's again.
pub(crate) fn caller_frame(words: &mut Words) -> Answer<()>
    ensures { OnOk result (written words.new ≡ caller_onto (written words.old)) }
{
    words.ld(Table, Frame, 16)?;
    words.ld(Frame, Frame, 8)
}
