//! The constants that literals denote.

ghost use Rattle.std.specs.Prelude.{◌≡◌, true, ◌<◌, ◌≤◌, ◌^◌, ◌-◌, ◌+◌, ◌*◌, ℕ, List, IfOk, length, pos, MatchOption};
ghost use Rattle.clu_base.specs.declared.constants.Const.{Const};
ghost use Rattle.clu_types.specs.CluType.{CluType};
ghost use Rattle.clu_syntax.specs.Syntax.{integer, character, string};
ghost use Rattle.clu_syntax.specs.Words.{literal_told};
ghost use Rattle.clu_meaning.specs.Constants.{denoted, number_after};
ghost use Rattle.clu_meaning.specs.Settling.{constant_value};
ghost use Rattle.clu_settle.specs.declared.value.Value.{Value};
ghost use Rattle.clu_settle.specs.Lost.{is_too_large};
ghost use Rattle.clu_settle.specs.Values.{told, Agrees, Kept, TypeWithin, ConstantWithin};

use crate::constants::keep;
use crate::value::Value;
use clu_base::{Const, Memory};
use clu_constants::Constants;
use clu_literal::{char_byte, string_bytes};
use clu_syntax::Literal;
use std::alloc::Global;

/// What a decimal digit writes after a number, if it has 64 bits.
fn with_digit(number: u64, digit: u8) -> Option<u64>
    ensures { MatchOption result (2 ^ 64 ≤ 10 * number + (digit - 48)) (λ n. n ≡ 10 * number + (digit - 48)) }
{
    let digit = u64::from(digit.saturating_sub(b'0'));
    if number > (u64::MAX - digit) / 10 {
        None
    } else {
        Some(10 * number + digit)
    }
}

/// The number that these decimal digits write, if it has 64 bits.
fn number(mut digits: &[u8]) -> Option<u64>
    ensures { MatchOption result (2 ^ 64 ≤ number_after 0 digits.entry.now) (λ n. n ≡ number_after 0 digits.entry.now) }
{
    let mut number = 0u64;
    'digits: while let [digit, rest @ ..] = digits {
        match with_digit(number, *digit) {
            Some(more) => number = more,
            None => return None,
        }
        digits = rest;
    }
    Some(number)
}

/// The int that these digits write, if it is one.
fn int_of(digits: &[u8]) -> Option<i64>
    ensures { MatchOption result (2 ^ 63 ≤ number_after 0 digits.now) (λ n. n ≡ pos (number_after 0 digits.now)) }
{
    match number(digits) {
        Some(number) => {
            if number < 9_223_372_036_854_775_808 {
                Some(number as i64)
            } else {
                None
            }
        }
        None => None,
    }
}

/// The value of an integer literal; lost if it is no int.
fn integer_value(constants: &mut Constants, digits: &[u8]) -> Result<Value, Memory>
    ensures known { IfOk result (λ v. (types : List CluType) → Agrees (told types constants.new v) (constant_value (denoted (integer digits.now)))) }
    ensures constant_in { IfOk result (λ v. ConstantWithin (length constants.new) v) }
    ensures type_in { IfOk result (λ v. (n : ℕ) → TypeWithin n v) }
    ensures kept { Kept constants.old constants.new }
    ensures lost { IfOk result (λ v. v ≡ Value.Lost → is_too_large (integer digits.now) ≡ true) }
{
    match int_of(digits) {
        Some(int) => keep(constants, Some(Const::Int(int))),
        None => Ok(Value::Lost),
    }
}

fn character_value(constants: &mut Constants, text: &[u8]) -> Result<Value, Memory>
    ensures known { IfOk result (λ v. (types : List CluType) → Agrees (told types constants.new v) (constant_value (denoted (character text.now)))) }
    ensures constant_in { IfOk result (λ v. ConstantWithin (length constants.new) v) }
    ensures type_in { IfOk result (λ v. (n : ℕ) → TypeWithin n v) }
    ensures kept { Kept constants.old constants.new }
    ensures lost { IfOk result (λ v. v ≡ Value.Lost → ⊥) }
{
    match char_byte(text) {
        Some(byte) => keep(constants, Some(Const::Char(byte))),
        None => Ok(Value::Nothing),
    }
}

fn string_value(alloc: Global, constants: &mut Constants, text: &[u8]) -> Result<Value, Memory>
    ensures known { IfOk result (λ v. (types : List CluType) → Agrees (told types constants.new v) (constant_value (denoted (string text.now)))) }
    ensures constant_in { IfOk result (λ v. ConstantWithin (length constants.new) v) }
    ensures type_in { IfOk result (λ v. (n : ℕ) → TypeWithin n v) }
    ensures kept { Kept constants.old constants.new }
    ensures lost { IfOk result (λ v. v ≡ Value.Lost → ⊥) }
{
    match string_bytes(alloc, text)? {
        Some(bytes) => keep(constants, Some(Const::Str(bytes))),
        None => Ok(Value::Nothing),
    }
}

/// The value of a literal. That of an integer that is no int is lost.
pub fn literal_value(
    alloc: Global,
    constants: &mut Constants,
    literal: Literal<'_>,
) -> Result<Value, Memory>
    ensures known { IfOk result (λ v. (types : List CluType) → Agrees (told types constants.new v) (constant_value (denoted (literal_told literal.entry)))) }
    ensures constant_in { IfOk result (λ v. ConstantWithin (length constants.new) v) }
    ensures type_in { IfOk result (λ v. (n : ℕ) → TypeWithin n v) }
    ensures kept { Kept constants.old constants.new }
    ensures lost { IfOk result (λ v. v ≡ Value.Lost → is_too_large (literal_told literal.entry) ≡ true) }
{
    match literal {
        Literal::Nil => keep(constants, Some(Const::Null)),
        Literal::True => keep(constants, Some(Const::Bool(true))),
        Literal::False => keep(constants, Some(Const::Bool(false))),
        Literal::Integer(digits) => integer_value(constants, digits),
        Literal::Real(_) => Ok(Value::Nothing),
        Literal::Character(text) => character_value(constants, text),
        Literal::String(text) => string_value(alloc, constants, text),
    }
}
