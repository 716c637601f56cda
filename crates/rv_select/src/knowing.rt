//! What is known of expressions before they are evaluated.

ghost use Rattle.std.specs.Prelude.{◌≡◌};
ghost use Rattle.clu_wir.specs.Plain.{expr_of};
ghost use Rattle.rv_select.specs.Evaluation.{added_by, bound_word, both_known as known_of_both, compared as comparison_of, is_comparison as compares, is_known as knows, is_opposite as opposes, is_told as tells, part_of, ready_first, ready_side as side_of, short_of, small_word, way_of};

use crate::combining::small;
use crate::operand::{Operand, Scope};
use clu_wir::{WExpr, WOp};

/// The word of an expression that is known where its bound words are. Of operations only comparisons are looked at.
pub(crate) fn known_of(expression: &WExpr, scope: Scope) -> Option<u64>
    ensures { result ≡ (part_of (expr_of expression.now)).known scope }
{
    match expression {
        WExpr::Word(word) => Some(*word),
        WExpr::Bound(number) => known_operand(scope.bound(*number)),
        WExpr::Binary(op, left, right) => {
            both_known(*op, known_of(left, scope), known_of(right, scope))
        }
        WExpr::Slot(_)
        | WExpr::Hole(_, _)
        | WExpr::Load(_, _)
        | WExpr::Byte(_)
        | WExpr::If(_, _, _)
        | WExpr::Check(_, _, _)
        | WExpr::With(_, _) => None,
    }
}

fn known_operand(operand: Option<Operand>) -> Option<u64>
    ensures { result ≡ bound_word operand }
{
    match operand {
        Some(Operand::Known(word)) => Some(word),
        Some(Operand::At(_)) | None => None,
    }
}

fn both_known(op: WOp, left: Option<u64>, right: Option<u64>) -> Option<u64>
    ensures { result ≡ known_of_both op left right }
{
    match left {
        Some(left) => match right {
            Some(right) => compared(op, left, right),
            None => None,
        },
        None => None,
    }
}

/// The most words of a condition and of the choice after it that one branch reaches over: an immediate of it reaches 1,023.
pub const REACH: u64 = 1000;

/// The side of a choice that is known or in a register already, if one branch reaches over the condition and the other
/// side, and whether it is the first.
#[tactic(auto, using(crate::proofs::Sizes::part_words))]
pub(crate) fn ready_side(
    condition: &WExpr,
    then: &WExpr,
    other: &WExpr,
    scope: Scope,
) -> Option<(Operand, bool)>
    ensures { result ≡ side_of (part_of (expr_of condition.now)) (part_of (expr_of then.now)) (part_of (expr_of other.now)) scope }
{
    let sides = then.words().saturating_add(other.words());
    if condition.words().saturating_add(sides) > REACH {
        return None;
    }
    first_ready(ready(then, scope), ready(other, scope))
}

fn first_ready(then: Option<Operand>, other: Option<Operand>) -> Option<(Operand, bool)>
    ensures { result ≡ ready_first then other }
{
    match then {
        Some(word) => Some((word, true)),
        None => match other {
            Some(word) => Some((word, false)),
            None => None,
        },
    }
}

fn ready(side: &WExpr, scope: Scope) -> Option<Operand>
    ensures { result ≡ (part_of (expr_of side.now)).ready scope }
{
    match side {
        WExpr::Word(word) => Some(Operand::Known(*word)),
        WExpr::Bound(number) => scope.bound(*number),
        WExpr::Slot(_)
        | WExpr::Hole(_, _)
        | WExpr::Load(_, _)
        | WExpr::Byte(_)
        | WExpr::Binary(_, _, _)
        | WExpr::If(_, _, _)
        | WExpr::Check(_, _, _)
        | WExpr::With(_, _) => None,
    }
}

/// The word of a comparison of two words.
fn compared(op: WOp, left: u64, right: u64) -> Option<u64>
    ensures { result ≡ comparison_of op left right }
{
    match op {
        WOp::Slt => Some(u64::from(left.cast_signed() < right.cast_signed())),
        WOp::Sltu => Some(u64::from(left < right)),
        WOp::Equal => Some(u64::from(left == right)),
        _ => None,
    }
}

/// The number that an operation adds to its left word, if it is known and an immediate holds it.
pub(crate) fn added(op: WOp, right: &WExpr, scope: Scope) -> Option<i32>
    ensures { result ≡ added_by op (small_word ((part_of (expr_of right.now)).known scope)) }
{
    match op {
        WOp::Add => small_of(right, scope),
        _ => None,
    }
}

fn small_of(expression: &WExpr, scope: Scope) -> Option<i32>
    ensures { result ≡ small_word ((part_of (expr_of expression.now)).known scope) }
{
    match known_of(expression, scope) {
        Some(word) => small(word.cast_signed()),
        None => None,
    }
}

/// Whether the word of an expression is known to be this one.
fn is_known(expression: &WExpr, word: u64, scope: Scope) -> bool
    ensures { result ≡ knows (part_of (expr_of expression.now)) word scope }
{
    match known_of(expression, scope) {
        Some(known) => known == word,
        None => false,
    }
}

/// Whether an operation compares, so that its word is 0 or 1.
fn is_comparison(op: WOp) -> bool
    ensures { result ≡ compares op }
{
    match op {
        WOp::Slt | WOp::Sltu | WOp::Equal => true,
        _ => false,
    }
}

/// Whether the word of an expression is 0 or 1 in any case.
fn is_truth(expression: &WExpr) -> bool
    ensures { result ≡ (part_of (expr_of expression.now)).is_truth }
{
    match expression {
        WExpr::Binary(op, _, _) => is_comparison(*op),
        WExpr::Slot(_)
        | WExpr::Word(_)
        | WExpr::Hole(_, _)
        | WExpr::Load(_, _)
        | WExpr::Byte(_)
        | WExpr::If(_, _, _)
        | WExpr::Check(_, _, _)
        | WExpr::With(_, _)
        | WExpr::Bound(_) => false,
    }
}

/// What tells an operation as a condition.
#[derive(Clone, Copy)]
pub enum Way {
    /// The left word, which is 0 where it holds.
    Left,
    /// The right word, which is 0 where it holds, or where it doesn't hold.
    Right(bool),
    /// A comparison of both words.
    Both,
    /// The word of the operation.
    Word,
}

pub(crate) fn told_by(op: WOp, left: &WExpr, right: &WExpr, scope: Scope) -> Way
    ensures { result ≡ way_of op (part_of (expr_of left.now)) (part_of (expr_of right.now)) scope }
{
    if is_opposite(op, left, right, scope) {
        return Way::Left;
    }
    if is_told(op, left, right, scope) {
        return Way::Right(is_known(left, 1, scope));
    }
    if is_comparison(op) {
        Way::Both
    } else {
        Way::Word
    }
}

/// Whether an operation asks whether the left word is 0.
fn is_opposite(op: WOp, left: &WExpr, right: &WExpr, scope: Scope) -> bool
    ensures { result ≡ opposes op (part_of (expr_of left.now)) (part_of (expr_of right.now)) scope }
{
    match op {
        WOp::Equal => is_known(right, 0, scope),
        WOp::Xor => is_known(right, 1, scope) && is_truth(left),
        _ => false,
    }
}

/// Whether words are equal just where the right one is 0, or just where it isn't.
fn is_told(op: WOp, left: &WExpr, right: &WExpr, scope: Scope) -> bool
    ensures { result ≡ tells op (part_of (expr_of left.now)) (part_of (expr_of right.now)) scope }
{
    match op {
        WOp::Equal => { is_known(left, 0, scope) || (is_known(left, 1, scope) && is_truth(right)) }
        _ => false,
    }
}

/// Whether a choice between two words, as a condition, wants both the first condition and the second word, or one of the
/// first condition and the other word.
pub(crate) fn short(second: &WExpr, other: &WExpr, scope: Scope) -> Option<bool>
    ensures { result ≡ short_of (part_of (expr_of second.now)) (part_of (expr_of other.now)) scope }
{
    if is_known(other, 0, scope) {
        return Some(true);
    }
    if is_known(second, 1, scope) {
        Some(false)
    } else {
        None
    }
}
