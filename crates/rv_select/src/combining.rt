//! Operations on words that are in registers or known.

ghost use Rattle.std.specs.Prelude.{◌≡◌, IfOk, OnOk};
ghost use Rattle.rv_select.specs.Combining.{by_number_onto, by_registers_onto, combined_at, combined_onto, equal_number_onto, known_number as number_known, left_at, numbered, registers_onto, right_at, small as small_number, told_onto, with_number as number_with};
ghost use Rattle.rv_select.specs.Written.{written};

use crate::error::Answer;
use crate::operand::{Operand, Scope};
use crate::operation::instruction;
use crate::register::Register;
use crate::words::Words;
use clu_wir::WOp;
use rv_isa::Op;

/// The word of an operation on two words. It may take the place of either.
#[tactic(auto, unfolding(crate::specs::Combining::combined_onto))]
pub(crate) fn combine(
    words: &mut Words,
    op: WOp,
    left: Operand,
    right: Operand,
    scope: Scope,
) -> Answer<Operand>
    ensures operand { IfOk result (λ operand. operand ≡ combined_at scope) }
    ensures written { OnOk result (written words.new ≡ combined_onto op left right scope (written words.old)) }
{
    let to = scope.free()?;
    match known_number(op, right) {
        Some(number) => {
            let left = left.register(words, to)?;
            by_number(words, op, left, number, to)?;
        }
        None => by_registers(words, op, left, right, scope)?,
    }
    Ok(Operand::At(to))
}

/// The same by an instruction on two registers.
fn by_registers(
    words: &mut Words,
    op: WOp,
    left: Operand,
    right: Operand,
    scope: Scope,
) -> Answer<()>
    ensures { OnOk result (written words.new ≡ by_registers_onto op left right scope (written words.old)) }
{
    let (left, right) = registers(words, left, right, scope)?;
    let to = scope.free()?;
    words.three(instruction(op), to, left, right)?;
    tell(words, op, to)
}

/// Registers that hold two words.
pub(crate) fn registers(
    words: &mut Words,
    left: Operand,
    right: Operand,
    scope: Scope,
) -> Answer<(Register, Register)>
    ensures left { IfOk result (λ both. both.0 ≡ left_at left right scope) }
    ensures right { IfOk result (λ both. both.1 ≡ right_at left right scope) }
    ensures written { OnOk result (written words.new ≡ registers_onto left right scope (written words.old)) }
{
    let first = left.register(words, scope.keeping(right).free()?)?;
    let second = right.register(words, scope.keeping(Operand::At(first)).free()?)?;
    Ok((first, second))
}

/// The same by an instruction with a number.
fn by_number(
    words: &mut Words,
    op: WOp,
    left: Register,
    number: (Op, i32),
    to: Register,
) -> Answer<()>
    ensures { OnOk result (written words.new ≡ by_number_onto op left number to (written words.old)) }
{
    match op {
        WOp::Equal => equal_number(words, left, number, to),
        _ => words.imm(number.0, to, left, number.1),
    }
}

fn equal_number(words: &mut Words, left: Register, number: (Op, i32), to: Register) -> Answer<()>
    ensures { OnOk result (written words.new ≡ equal_number_onto left number to (written words.old)) }
{
    if number.1 == 0 {
        return words.imm(Op::Sltiu, to, left, 1);
    }
    words.imm(number.0, to, left, number.1)?;
    words.imm(Op::Sltiu, to, to, 1)
}

/// Words are equal where the difference is 0.
fn tell(words: &mut Words, op: WOp, to: Register) -> Answer<()>
    ensures { OnOk result (written words.new ≡ told_onto op to (written words.old)) }
{
    match op {
        WOp::Equal => words.imm(Op::Sltiu, to, to, 1),
        _ => Ok(()),
    }
}

/// The instruction with a number that does an operation with a right word, if that is known and fits.
fn known_number(op: WOp, right: Operand) -> Option<(Op, i32)>
    ensures { result ≡ number_known op right }
{
    match right {
        Operand::Known(word) => with_number(op, word.cast_signed()),
        Operand::At(_) => None,
    }
}

/// The instruction with a number, and this number, that does an operation with a known right word; of Equal the difference.
fn with_number(op: WOp, number: i64) -> Option<(Op, i32)>
    ensures { result ≡ number_with op number }
{
    match op {
        WOp::Add => with_small(Op::Addi, number),
        WOp::Sub | WOp::Equal => with_small(Op::Addi, number.wrapping_neg()),
        WOp::Slt => with_small(Op::Slti, number),
        WOp::Sltu => with_small(Op::Sltiu, number),
        WOp::Xor => with_small(Op::Xori, number),
        WOp::Or => with_small(Op::Ori, number),
        WOp::And => with_small(Op::Andi, number),
        WOp::Sll => with_small(Op::Slli, number & 63),
        WOp::Srl => with_small(Op::Srli, number & 63),
        WOp::Sra => with_small(Op::Srai, number & 63),
        _ => None,
    }
}

fn with_small(op: Op, number: i64) -> Option<(Op, i32)>
    ensures { result ≡ numbered op number }
{
    match small(number) {
        Some(number) => Some((op, number)),
        None => None,
    }
}

/// A number that an immediate holds.
pub(crate) fn small(number: i64) -> Option<i32>
    ensures { result ≡ small_number number }
{
    if -2048 <= number && number < 2048 {
        Some(number as i32)
    } else {
        None
    }
}
