//! Numbers that are known, in registers.

ghost use Rattle.std.specs.Prelude.{◌≡◌, IfOk, IsTrue, OnOk};
ghost use Rattle.rv_select.specs.Operands.{known_onto, lower_half as lower_half_of, number_onto, short_onto};
ghost use Rattle.rv_select.specs.Slots.{above_lowest, is_reached, lowest as lowest_of};
ghost use Rattle.rv_select.specs.Written.{written};

use crate::error::{Answer, SelectError};
use crate::register::Register;
use crate::words::Words;
use rv_isa::Op;

/// A number as the sum of what LUI and what an immediate of 12 bits gives.
pub(crate) fn halves(number: i32) -> Answer<(i32, i32)>
    ensures upper { IfOk result (λ halves. halves.0 ≡ above_lowest number) }
    ensures lower { IfOk result (λ halves. halves.1 ≡ lowest_of number) }
    ensures reached { OnOk result (IsTrue (is_reached number)) }
{
    if number > i32::MAX - 2048 {
        return Err(SelectError::NotYet);
    }
    let lower = lowest(number);
    Ok((number.wrapping_sub(lower), lower))
}

/// The low 12 bits of a number, with the upmost of them as its sign.
fn lowest(number: i32) -> i32
    ensures { result ≡ lowest_of number }
{
    (number << 20) >> 20
}

/// Gives a register a word.
pub(crate) fn known(words: &mut Words, to: Register, word: u64) -> Answer<()>
    ensures { OnOk result (written words.new ≡ known_onto to word (written words.old)) }
{
    known_number(words, to, word.cast_signed())
}

/// A number of 32 bits, or its upper half and its lower half with a sign, which the upper one makes up for.
#[tactic(auto, unfolding(crate::specs::Operands::number_onto))]
fn known_number(words: &mut Words, to: Register, number: i64) -> Answer<()>
    ensures { OnOk result (written words.new ≡ number_onto to number (written words.old)) }
{
    let lower = lower_half(number);
    if lower == number {
        return short(words, to, number);
    }
    short(words, to, number.wrapping_sub(lower) >> 32)?;
    words.imm(Op::Slli, to, to, 32)?;
    short(words, Register::Far, lower)?;
    words.three(Op::Add, to, to, Register::Far)
}

/// The low 32 bits of a number, with the upmost of them as its sign.
#[tactic(auto, unfolding(crate::specs::Operands::lower_half))]
fn lower_half(number: i64) -> i64
    ensures { result ≡ lower_half_of number }
{
    (number << 32) >> 32
}

/// A number of 32 bits: ADDIW wraps where the nearest that LUI gives is 2^31.
#[tactic(auto, unfolding(crate::specs::Operands::short_onto))]
fn short(words: &mut Words, to: Register, number: i64) -> Answer<()>
    ensures { OnOk result (written words.new ≡ short_onto to number (written words.old)) }
{
    let number = i32::try_from(number)?;
    let lower = lowest(number);
    let upper = number.wrapping_sub(lower);
    if upper == 0 {
        return words.addi(to, Register::Zero, lower);
    }
    words.upper(Op::Lui, to, upper)?;
    words.imm(Op::Addiw, to, to, lower)
}
