//! From words to instructions.

ghost use Rattle.std.specs.Prelude.{◌≡◌, IfSome, IfNone};
ghost use Rattle.rv_isa.specs.declared.instr.Instr.{Instr};
ghost use Rattle.rv_isa.specs.declared.instr.Instr.TheVariants.{Imm};
ghost use Rattle.rv_isa.specs.Encoded.{IsWordOf};
ghost use Rattle.rv_isa.specs.Table.{has_row};
ghost use Rattle.rv_isa.specs.Decoded.{named as name_of, unnamed as other_of, instr_of, decoded};
ghost use Rattle.rv_isa.specs.Fields.{opcode_of, funct3_of, funct6_of, funct7_of};

use crate::fields::{b_imm, bits_of, i_imm, j_imm, rd, rs1, rs2, s_imm, u_imm};
use crate::instr::Instr;
use crate::op::{Form, OPS, Op, Row};
use crate::reg::Reg;

/// The instruction that a word is. `None` exactly where the word is in no row of the table
/// ("RV32/64G Instruction Set Listings" in the RISC-V unprivileged specification).
pub fn decode(w: u32) -> Option<Instr>
    ensures value { result ≡ decoded w }
    ensures row { IfSome result (IsWordOf w) }
    ensures none { IfNone result ((i : Instr) → ¬ IsWordOf w i) }
{
    read(w)
}

/// The instruction that a word is, by the rows of the table.
fn read(w: u32) -> Option<Instr>
    ensures { result ≡ decoded w }
{
    match named(w) {
        Some(op) => Some(instr(op.row().form, op, w)),
        None => unnamed(w),
    }
}

/// The mnemonic whose row has the fields of the word.
#[tactic(auto, unfolding(crate::specs::Decoded::named_by))]
fn named(w: u32) -> Option<Op>
    ensures { result ≡ name_of w }
{
    OPS.iter().copied().find(|op| has_row(op.row(), w))
}

/// Whether the word has the fields that name the row's instruction.
fn has_row(row: Row, w: u32) -> bool
    ensures { result ≡ has_row row (opcode_of w) (funct3_of w) (funct6_of w) (funct7_of w) }
{
    row.opcode == bits_of(w, 0, 7)
        && match row.form {
            Form::Upper => true,
            Form::Branch | Form::Load | Form::Save | Form::Imm => row.funct3 == bits_of(w, 12, 3),
            Form::Shift => row.funct3 == bits_of(w, 12, 3) && row.funct7 == bits_of(w, 26, 6),
            Form::ShiftWord | Form::Three => {
                row.funct3 == bits_of(w, 12, 3) && row.funct7 == bits_of(w, 25, 7)
            }
        }
}

/// The instruction of a mnemonic of this form in the word.
fn instr(form: Form, op: Op, w: u32) -> Instr
    ensures { result ≡ instr_of form op w }
{
    let (rd, rs1, rs2) = (rd(w), rs1(w), rs2(w));
    match form {
        Form::Upper => Instr::Upper {
            op,
            rd,
            imm: u_imm(w),
        },
        Form::Branch => Instr::Branch {
            op,
            rs1,
            rs2,
            imm: b_imm(w),
        },
        Form::Load => Instr::Load {
            op,
            rd,
            rs1,
            imm: i_imm(w),
        },
        Form::Save => Instr::Save {
            op,
            rs1,
            rs2,
            imm: s_imm(w),
        },
        Form::Imm => immediate(op, rd, rs1, i_imm(w)),
        Form::Shift => immediate(op, rd, rs1, bits_of(w, 20, 6) as i32),
        Form::ShiftWord => immediate(op, rd, rs1, bits_of(w, 20, 5) as i32),
        Form::Three => Instr::Three { op, rd, rs1, rs2 },
    }
}

fn immediate(op: Op, rd: Reg, rs1: Reg, imm: i32) -> Instr
    ensures { result ≡ Imm op rd rs1 imm }
{
    Instr::Imm { op, rd, rs1, imm }
}

/// The instruction of a word that no mnemonic of the table names.
fn unnamed(w: u32) -> Option<Instr>
    ensures { result ≡ other_of w }
{
    match bits_of(w, 0, 7) {
        0b1101111 => Some(Instr::Jal {
            rd: rd(w),
            imm: j_imm(w),
        }),
        0b1100111 if bits_of(w, 12, 3) == 0 => Some(Instr::Jalr {
            rd: rd(w),
            rs1: rs1(w),
            imm: i_imm(w),
        }),
        0b0001111 if bits_of(w, 12, 3) == 0 => Some(Instr::Fence {
            rd: rd(w),
            rs1: rs1(w),
            imm: i_imm(w),
        }),
        _ => match w {
            0x0000_0073 => Some(Instr::Ecall),
            0x0010_0073 => Some(Instr::Ebreak),
            _ => None,
        },
    }
}
