//! From instructions to words. The fields of a word do not overlap, so that it is their sum.

ghost use Rattle.std.specs.Prelude.{◌≡◌, ◌≤◌, ◌<◌, ◌+◌, ◌*◌, ◌^◌};
ghost use Rattle.std.specs.Int.{w32, cast_unsigned};
ghost use Rattle.rv_isa.specs.Table.{HasFields};
ghost use Rattle.rv_isa.specs.Valid.{IsValid, HasRegisters};
ghost use Rattle.rv_isa.specs.Encoded as words;
ghost use Rattle.rv_isa.specs.Decoded.{decoded};

use crate::fields::bits_of;
use crate::instr::Instr;
use crate::op::{Form, Row};
use crate::reg::Reg;

/// The word of an instruction, which `decode` reads as that instruction. `Instr::valid` tests the
/// condition.
pub fn encode(i: Instr) -> u32
    requires { IsValid i }
    ensures value { result ≡ words.encoded i }
    ensures inverse { decoded result ≡ Some i }
{
    write(i)
}

/// The word of an instruction, by the type of its word.
fn write(i: Instr) -> u32
    requires { IsValid i }
    ensures value { result ≡ words.encoded i }
    ensures registers { HasRegisters i }
{
    match i {
        Instr::Upper { op, rd, imm } => u_word(op.row(), rd, imm),
        Instr::Jal { rd, imm } => j_word(0b1101111, rd, imm),
        Instr::Jalr { rd, rs1, imm } => i_word(0b1100111, 0, rd, rs1, imm),
        Instr::Branch { op, rs1, rs2, imm } => b_word(op.row(), rs1, rs2, imm),
        Instr::Load { op, rd, rs1, imm } => i_word(op.row().opcode, op.row().funct3, rd, rs1, imm),
        Instr::Save { op, rs1, rs2, imm } => s_word(op.row(), rs1, rs2, imm),
        Instr::Imm { op, rd, rs1, imm } => imm_word(op.row(), rd, rs1, imm),
        Instr::Three { op, rd, rs1, rs2 } => r_word(op.row(), rd, rs1, rs2.bits()),
        Instr::Fence { rd, rs1, imm } => i_word(0b0001111, 0, rd, rs1, imm),
        Instr::Ecall => 0x0000_0073,
        Instr::Ebreak => 0x0010_0073,
    }
}

/// The fields that most words are named by, at their places.
fn name(opcode: u32, funct3: u32) -> u32
    requires opcode { opcode < 2 ^ 7 }
    requires funct3 { funct3 < 2 ^ 3 }
    ensures { result ≡ opcode + funct3 * 2 ^ 12 }
{
    opcode + (funct3 << 12)
}

/// A word of the R-type. A shift by a constant has its amount in the place of `rs2`.
fn r_word(row: Row, rd: Reg, rs1: Reg, rs2: u32) -> u32
    requires fields { HasFields row }
    requires rs2 { rs2 < 32 }
    ensures value { result ≡ words.r_word row rd rs1 rs2 }
    ensures registers { (rd < 32) × (rs1 < 32) }
{
    name(row.opcode, row.funct3)
        + (rd.bits() << 7)
        + (rs1.bits() << 15)
        + (rs2 << 20)
        + (row.funct7 << 25)
}

/// A word of the I-type.
fn i_word(opcode: u32, funct3: u32, rd: Reg, rs1: Reg, imm: i32) -> u32
    requires opcode { opcode < 2 ^ 7 }
    requires funct3 { funct3 < 2 ^ 3 }
    ensures value { result ≡ words.i_word opcode funct3 rd rs1 (cast_unsigned w32 imm) }
    ensures registers { (rd < 32) × (rs1 < 32) }
{
    let n = imm.cast_unsigned();
    name(opcode, funct3) + (rd.bits() << 7) + (rs1.bits() << 15) + (bits_of(n, 0, 12) << 20)
}

/// A word of an operation on a register and a number.
fn imm_word(row: Row, rd: Reg, rs1: Reg, imm: i32) -> u32
    requires { HasFields row }
    ensures value { result ≡ words.imm_word row.form row rd rs1 (cast_unsigned w32 imm) }
    ensures registers { (rd < 32) × (rs1 < 32) }
{
    match row.form {
        Form::Shift => {
            let amount = bits_of(imm.cast_unsigned(), 0, 6);
            name(row.opcode, row.funct3)
                + (rd.bits() << 7)
                + (rs1.bits() << 15)
                + (amount << 20)
                + (row.funct7 << 26)
        }
        Form::ShiftWord => r_word(row, rd, rs1, bits_of(imm.cast_unsigned(), 0, 5)),
        _ => i_word(row.opcode, row.funct3, rd, rs1, imm),
    }
}

/// A word of the S-type.
fn s_word(row: Row, rs1: Reg, rs2: Reg, imm: i32) -> u32
    requires { HasFields row }
    ensures value { result ≡ words.s_word row rs1 rs2 (cast_unsigned w32 imm) }
    ensures registers { (rs1 < 32) × (rs2 < 32) }
{
    let n = imm.cast_unsigned();
    let distance = (bits_of(n, 0, 5) << 7) + (bits_of(n, 5, 7) << 25);
    name(row.opcode, row.funct3) + (rs1.bits() << 15) + (rs2.bits() << 20) + distance
}

/// A word of the B-type.
fn b_word(row: Row, rs1: Reg, rs2: Reg, imm: i32) -> u32
    requires { HasFields row }
    ensures value { result ≡ words.b_word row rs1 rs2 (cast_unsigned w32 imm) }
    ensures registers { (rs1 < 32) × (rs2 < 32) }
{
    let n = imm.cast_unsigned();
    let lower = (bits_of(n, 11, 1) << 7) + (bits_of(n, 1, 4) << 8);
    let upper = (bits_of(n, 5, 6) << 25) + (bits_of(n, 12, 1) << 31);
    name(row.opcode, row.funct3) + (rs1.bits() << 15) + (rs2.bits() << 20) + lower + upper
}

/// A word of the U-type.
fn u_word(row: Row, rd: Reg, imm: i32) -> u32
    requires { HasFields row }
    ensures value { result ≡ words.u_word row rd (cast_unsigned w32 imm) }
    ensures registers { rd < 32 }
{
    row.opcode + (rd.bits() << 7) + (bits_of(imm.cast_unsigned(), 12, 20) << 12)
}

/// A word of the J-type.
fn j_word(opcode: u32, rd: Reg, imm: i32) -> u32
    requires { opcode < 2 ^ 7 }
    ensures value { result ≡ words.j_word opcode rd (cast_unsigned w32 imm) }
    ensures registers { rd < 32 }
{
    let n = imm.cast_unsigned();
    let lower = (bits_of(n, 12, 8) << 12) + (bits_of(n, 11, 1) << 20);
    let upper = (bits_of(n, 1, 10) << 21) + (bits_of(n, 20, 1) << 31);
    opcode + (rd.bits() << 7) + lower + upper
}
