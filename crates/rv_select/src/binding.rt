//! Objects of type any: the address of two words, the number of the object's own type and its word.
//!
//! The number of type any is 0, and the number of a routine type is odd: an object of type any is one already, and the
//! own type of a routine object is in its descriptor, since its static type may list more exceptions.

ghost use Rattle.std.specs.Prelude.{◌≡◌, IfOk, OnOk, codes};
ghost use Rattle.clu_wir.specs.Plain.{expr_of};
ghost use Rattle.rv_select.specs.Evaluation.{part_of};
ghost use Rattle.rv_select.specs.Finished.{blank};
ghost use Rattle.rv_select.specs.Runtime.{HasWords, binding_onto, own_type_onto, pair_onto};
ghost use Rattle.rv_select.specs.Selection.{bind_onto};
ghost use Rattle.rv_select.specs.Selected.{IsPart};
ghost use Rattle.rv_select.specs.Written.{written};

use crate::calls::STORE_FULL;
use crate::error::{Answer, SelectError};
use crate::evaluating::value;
use crate::exceptions::part_address;
use crate::operand::Scope;
use crate::parts::{Part, make_part};
use crate::register::Register::{
    A2, First, Second, Store, StoreEnd, T3, Value, Words as Travelling, Zero,
};
use crate::slots::save_slot;
use crate::words::Words;
use clu_object::ObjRoutine;
use clu_wir::WExpr;
use rv_isa::Op;
use std::alloc::Global;

/// The labels of the part.
#[derive(Clone, Copy)]
enum Goal {
    Bound,
    Known,
}

/// How many labels there are.
const GOALS: usize = 2;

/// The bytes of an object of type any.
const PAIR: i32 = 16;

/// Gives the part the number of the static type and the word, and puts the word that it answers into a slot.
pub(crate) fn bind(
    words: &mut Words,
    number: &WExpr,
    word: &WExpr,
    to: u32,
    scope: Scope,
) -> Answer<()>
    ensures { OnOk result (written words.new ≡ bind_onto (part_of (expr_of number.now)) (part_of (expr_of word.now)) to scope (written words.old)) }
{
    let number = value(words, number, scope)?;
    let word = value(words, word, scope.keeping(number))?;
    number.put(words, Value)?;
    word.put(words, Travelling)?;
    part_address(words, First, Part::Bind)?;
    words.jalr(Second, First, 0)?;
    save_slot(words, Value, to)
}

/// The part that makes an object of type any. It is called with the link in the second scratch register, takes the
/// number of the static type and the word in the two registers that travel, and answers in the first of them.
pub fn bind_part(alloc: Global) -> Result<ObjRoutine, SelectError>
    ensures part { IfOk result (IsPart (codes "bind")) }
    ensures words { IfOk result (HasWords (binding_onto (blank 2))) }
{
    let mut words = Words::new(alloc, GOALS)?;
    binding(&mut words)?;
    make_part(alloc, b"bind", words)
}

fn binding(words: &mut Words) -> Answer<()>
    ensures { OnOk result (written words.new ≡ binding_onto (written words.old)) }
{
    own_type(words)?;
    pair(words)
}

/// From the number of the static type to that of the own one.
fn own_type(words: &mut Words) -> Answer<()>
    ensures { OnOk result (written words.new ≡ own_type_onto (written words.old)) }
{
    words.go_unless(Op::Beq, Value, Zero, Goal::Bound as u32)?;
    words.copy(Value, Travelling)?;
    words.jalr(Zero, Second, 0)?;
    words.label(Goal::Bound as u32)?;
    words.imm(Op::Andi, A2, Value, 1)?;
    words.go_unless(Op::Bne, A2, Zero, Goal::Known as u32)?;
    words.ld(Value, Travelling, 8)?;
    words.label(Goal::Known as u32)
}

/// The pair of the number and the word, at the end of the store.
fn pair(words: &mut Words) -> Answer<()>
    ensures { OnOk result (written words.new ≡ pair_onto (written words.old)) }
{
    words.addi(T3, Zero, PAIR)?;
    words.three(Op::Sub, A2, StoreEnd, Store)?;
    words.service_unless(Op::Bgeu, A2, T3, STORE_FULL)?;
    words.sd(Value, Store, 0)?;
    words.sd(Travelling, Store, 8)?;
    words.copy(Value, Store)?;
    words.addi(Store, Store, PAIR)?;
    words.jalr(Zero, Second, 0)
}
