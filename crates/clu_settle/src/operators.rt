//! Operators over constants.

ghost use Rattle.std.specs.Prelude.{◌≡◌, ◌⊎◌, ℕ, List, FitsSigned, IfOk, Some, length};
ghost use Rattle.std.specs.Int.{w64};
ghost use Rattle.std.specs.Option.{option_and_then};
ghost use Rattle.clu_types.specs.CluType.{CluType};
ghost use Rattle.clu_meaning.specs.Constants.{prefixed};
ghost use Rattle.clu_meaning.specs.Settling.{Value as Settled, constant_in as constant_of, constant_value, infix_value};
ghost use Rattle.clu_settle.specs.Operators.{folded_by, prefix_by, nothing_beside, IsInRange, IsJoinedBy};
ghost use Rattle.clu_settle.specs.declared.value.Value.{Value};
ghost use Rattle.clu_settle.specs.Values.{told, Agrees, Kept, TypeWithin, ConstantWithin, constant_at};

use crate::constants::{constant_at, keep};
use crate::value::Value;
use clu_base::{Const, Memory};
use clu_constants::Constants;
use clu_fold::{Operator as FoldOperator, Prefix, fold, fold_prefix};
use clu_syntax::{Operator, Sign};
use std::alloc::Global;

fn folded_by(operator: Operator) -> FoldOperator
    ensures { result ≡ folded_by operator }
{
    match operator {
        Operator::Power => FoldOperator::Power,
        Operator::Multiply => FoldOperator::Multiply,
        Operator::Divide => FoldOperator::Divide,
        Operator::Remainder => FoldOperator::Modulo,
        Operator::Add => FoldOperator::Add,
        Operator::Subtract => FoldOperator::Subtract,
        Operator::Concatenate => FoldOperator::Concat,
        Operator::Less => FoldOperator::Less,
        Operator::AtMost => FoldOperator::LessEqual,
        Operator::Equal => FoldOperator::Equal,
        Operator::AtLeast => FoldOperator::GreaterEqual,
        Operator::Greater => FoldOperator::Greater,
        Operator::NotLess => FoldOperator::NotLess,
        Operator::NotAtMost => FoldOperator::NotLessEqual,
        Operator::NotEqual => FoldOperator::NotEqual,
        Operator::NotAtLeast => FoldOperator::NotGreaterEqual,
        Operator::NotGreater => FoldOperator::NotGreater,
        Operator::And => FoldOperator::And,
        Operator::Cand => FoldOperator::Cand,
        Operator::Or => FoldOperator::Or,
        Operator::Cor => FoldOperator::Cor,
    }
}

fn prefix_by(sign: Sign) -> Prefix
    ensures { result ≡ prefix_by sign }
{
    match sign {
        Sign::Not => Prefix::Not,
        Sign::Minus => Prefix::Minus,
    }
}

/// An int has 64 bits.
fn int_in_range(int: i64)
    ensures { FitsSigned w64 int }
{}

/// So has that of a constant; the definitions of the operators speak of ints that have.
fn in_range(constant: &Const)
    ensures { IsInRange constant.now }
{
    match constant {
        Const::Null => {}
        Const::Bool(_) => {}
        Const::Int(int) => int_in_range(*int),
        Const::Char(_) => {}
        Const::Str(_) => {}
    }
}

/// The operator over the constants of these places, as they are.
fn folded_constants(
    alloc: Global,
    constants: &mut Constants,
    operator: Operator,
    a: usize,
    b: usize,
) -> Result<Value, Memory>
    ensures known { IfOk result (λ v. (types : List CluType) → told types constants.new v ≡ Some (infix_value operator (Some (constant_at constants.old a)) (Some (constant_at constants.old b)))) }
    ensures constant_in { IfOk result (λ v. ConstantWithin (length constants.new) v) }
    ensures type_in { IfOk result (λ v. (n : ℕ) → TypeWithin n v) }
    ensures kept { Kept constants.old constants.new }
{
    let left = constant_at(alloc, constants, a)?;
    let right = constant_at(alloc, constants, b)?;
    in_range(&left);
    in_range(&right);
    let found = fold(left, folded_by(operator), &right)?;
    keep(constants, found)
}

/// The place of the string to which the operator joins those of these places. None if it joins none, and then there is
/// nothing new.
fn joined_place(
    constants: &mut Constants,
    operator: Operator,
    a: usize,
    b: usize,
) -> Result<Option<usize>, Memory>
    ensures joined { IfOk result (IsJoinedBy operator constants.old constants.new a b) }
    ensures kept { Kept constants.old constants.new }
{
    match operator {
        Operator::Concatenate => constants.join(a, b),
        _ => Ok(None),
    }
}

/// The operator over the constants of these places.
fn folded_value(
    alloc: Global,
    constants: &mut Constants,
    operator: Operator,
    a: usize,
    b: usize,
) -> Result<Value, Memory>
    ensures known { IfOk result (λ v. (types : List CluType) → told types constants.new v ≡ Some (infix_value operator (Some (constant_at constants.old a)) (Some (constant_at constants.old b)))) }
    ensures constant_in { IfOk result (λ v. ConstantWithin (length constants.new) v) }
    ensures type_in { IfOk result (λ v. (n : ℕ) → TypeWithin n v) }
    ensures kept { Kept constants.old constants.new }
{
    match joined_place(constants, operator, a, b)? {
        Some(place) => Ok(Value::Constant(place)),
        None => folded_constants(alloc, constants, operator, a, b),
    }
}

/// What is no constant beside an operand that is none.
fn nothing_beside(value: Value) -> Value
    ensures { result ≡ nothing_beside value }
{
    match value {
        Value::Lost => Value::Lost,
        _ => Value::Nothing,
    }
}

/// The value of an infix operator over two values.
pub fn infix_value(
    alloc: Global,
    constants: &mut Constants,
    operator: Operator,
    left: Value,
    right: Value,
) -> Result<Value, Memory>
    ensures known { IfOk result (λ v. (types : List CluType) (a b : Settled) → Agrees (told types constants.old left) a → Agrees (told types constants.old right) b → Agrees (told types constants.new v) (infix_value operator (constant_of a) (constant_of b))) }
    ensures constant_in { IfOk result (λ v. ConstantWithin (length constants.new) v) }
    ensures type_in { IfOk result (λ v. (n : ℕ) → TypeWithin n v) }
    ensures kept { Kept constants.old constants.new }
    ensures lost { IfOk result (λ v. v ≡ Value.Lost → (left ≡ Value.Lost) ⊎ (right ≡ Value.Lost)) }
{
    match left {
        Value::Lost => Ok(Value::Lost),
        Value::Constant(a) => match right {
            Value::Constant(b) => folded_value(alloc, constants, operator, a, b),
            _ => Ok(nothing_beside(right)),
        },
        _ => Ok(nothing_beside(right)),
    }
}

/// The value of a prefix operator over a value.
pub fn prefix_value(
    alloc: Global,
    constants: &mut Constants,
    sign: Sign,
    operand: Value,
) -> Result<Value, Memory>
    ensures known { IfOk result (λ v. (types : List CluType) (a : Settled) → Agrees (told types constants.old operand) a → Agrees (told types constants.new v) (constant_value (option_and_then (prefixed sign) (constant_of a)))) }
    ensures constant_in { IfOk result (λ v. ConstantWithin (length constants.new) v) }
    ensures type_in { IfOk result (λ v. (n : ℕ) → TypeWithin n v) }
    ensures kept { Kept constants.old constants.new }
    ensures lost { IfOk result (λ v. v ≡ Value.Lost → operand ≡ Value.Lost) }
{
    match operand {
        Value::Constant(a) => {
            let operand = constant_at(alloc, constants, a)?;
            keep(constants, fold_prefix(prefix_by(sign), &operand))
        }
        _ => Ok(nothing_beside(operand)),
    }
}
