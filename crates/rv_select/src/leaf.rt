//! Routines without a frame. Such a routine finds its arguments at the address that travels, and goes back with its result
//! as the value that travels.

ghost use Rattle.std.specs.Prelude.{◌≡◌, IfOk, OnOk, true};
ghost use Rattle.clu_wir.specs.Plain.{expr_of};
ghost use Rattle.rv_select.specs.Evaluation.{part_of};
ghost use Rattle.rv_select.specs.Finished.{blank};
ghost use Rattle.rv_select.specs.Runtime.{HasWords, answer_onto, deed_onto, followed_onto};
ghost use Rattle.rv_select.specs.Written.{written};
ghost use Rattle.rv_select.specs.Selected.{IsLeaf};

use crate::error::{Answer, SelectError};
use crate::evaluating::value;
use crate::operand::Scope;
use crate::parts::make_bare;
use crate::register::Register::{Back, Caller, Table, Value, Zero};
use crate::step::put;
use crate::words::Words;
use clu_object::{ObjRoutine, copy_constants};
use clu_wir::{WDeed, WExpr, WLeaf};
use std::alloc::Global;

/// The code of a routine without a frame, which uses no others and counts no nodes. The answer is `NotYet` only where an
/// expression needs more registers than there are, or a number is too great.
pub fn select_leaf(alloc: Global, leaf: &WLeaf) -> Result<ObjRoutine, SelectError>
    ensures leaf { IfOk result (IsLeaf leaf.now) }
    ensures words { IfOk result (HasWords (followed_onto leaf.now.deed (blank 0))) }
{
    let mut words = Words::new(alloc, 0)?;
    follow(&mut words, &leaf.deed)?;
    let name = leaf.name.copy(alloc)?;
    let constants = copy_constants(alloc, leaf.constants.as_slice())?;
    make_bare(alloc, name, constants, words)
}

fn follow(words: &mut Words, deed: &WDeed) -> Answer<()>
    ensures { OnOk result (written words.new ≡ followed_onto deed.now (written words.old)) }
{
    do_deed(words, deed)?;
    words.copy(Table, Caller)?;
    words.jalr(Zero, Back, 0)
}

fn do_deed(words: &mut Words, deed: &WDeed) -> Answer<()>
    ensures { OnOk result (written words.new ≡ deed_onto deed.now (written words.old)) }
{
    match deed {
        WDeed::Value(given) => answer(words, given),
        WDeed::Put(address, bytes, word) => {
            let distance = i32::try_from(*bytes)?;
            put(words, address, distance, word, Scope::new(true))
        }
    }
}

fn answer(words: &mut Words, given: &WExpr) -> Answer<()>
    ensures { OnOk result (written words.new ≡ answer_onto (part_of (expr_of given.now)) (written words.old)) }
{
    let word = value(words, given, Scope::new(true))?;
    word.put(words, Value)
}
