//! The words of each step of flat code.

ghost use Rattle.std.specs.Prelude.{◌≡◌, OnOk};
ghost use Rattle.clu_wir.specs.Plain.{expr_of};
ghost use Rattle.clu_frames.specs.Plain.{step_of};
ghost use Rattle.rv_select.specs.Evaluation.{part_of};
ghost use Rattle.rv_select.specs.Selection.{set_onto, step_onto, store_onto};
ghost use Rattle.rv_select.specs.Written.{written};

use crate::binding::bind;
use crate::calls::{enter, invoke, leave, result, take};
use crate::conditions::Target;
use crate::error::Answer;
use crate::evaluating::{branch, in_register};
use crate::exceptions::{cut, pass, raise, signal};
use crate::iterators::{resume, yield_words};
use crate::operand::{Operand, Scope};
use crate::primitives::primitive;
use crate::slots::{save_at, save_slot};
use crate::words::Words;
use clu_frames::Flat;
use clu_wir::WExpr;

/// The words of a step of a routine whose frame has so many slots.
pub(crate) fn select_step(words: &mut Words, step: &Flat, frame: u32) -> Answer<()>
    ensures { OnOk result (written words.new ≡ step_onto frame (step_of step.now) (written words.old)) }
{
    let scope = Scope::new(false);
    match step {
        Flat::Set(to, word) => set(words, *to, word, scope),
        Flat::Put(address, distance, word) => put(words, address, *distance, word, scope),
        Flat::Label(label) => words.label(*label),
        Flat::Jump(label) => words.go(*label),
        Flat::Branch(condition, sense, label) => {
            branch(words, condition, *sense, Target::far(*label), scope)
        }
        Flat::Enter(arguments) => enter(words, *arguments, frame),
        Flat::Bind(number, word, to) => bind(words, number, word, *to, scope),
        Flat::Invoke(routine, slot) => invoke(words, routine, *slot, scope),
        Flat::Yield(slot, count) => yield_words(words, *slot, *count),
        Flat::Resume(slot) => resume(words, *slot),
        Flat::Take(to) => take(words, *to),
        Flat::Result(to, number) => result(words, *to, *number),
        Flat::Cut(mark) => cut(words, *mark),
        Flat::Leave(slot, count) => leave(words, *slot, *count),
        Flat::Raise(slot) => raise(words, *slot),
        Flat::Signal(slot) => signal(words, *slot),
        Flat::Pass => pass(words),
        Flat::Prim(number, slot) => primitive(words, *number, *slot),
    }
}

fn set(words: &mut Words, to: u32, word: &WExpr, scope: Scope) -> Answer<()>
    ensures { OnOk result (written words.new ≡ set_onto to (part_of (expr_of word.now)) scope (written words.old)) }
{
    let register = in_register(words, word, scope)?;
    save_slot(words, register, to)
}

/// The word is evaluated before its address.
pub(crate) fn put(
    words: &mut Words,
    address: &WExpr,
    distance: i32,
    word: &WExpr,
    scope: Scope,
) -> Answer<()>
    ensures { OnOk result (written words.new ≡ store_onto (part_of (expr_of address.now)) distance (part_of (expr_of word.now)) scope (written words.old)) }
{
    let register = in_register(words, word, scope)?;
    let base = in_register(words, address, scope.keeping(Operand::At(register)))?;
    save_at(words, register, base, distance)
}
