//! The code as the machine executes it: each word decoded once, into a row whose fields stand at
//! fixed places, so that a step reads only those that it needs.

ghost use Rattle.std.specs.Prelude.{◌≡◌, ℕ, ℤ, Some};
ghost use Rattle.rv_isa.specs.Decoded.{decoded};
ghost use Rattle.rv_machine.specs.Rows.{instr_by, instr_of, instr_with, HasForm};

use rv_isa::{Instr, Op, Reg, decode};

/// What a row does: one value for each row of the instruction table, and one for words in none.
#[derive(Clone, Copy)]
pub enum Code {
    Lui,
    Auipc,
    Beq,
    Bne,
    Blt,
    Bge,
    Bltu,
    Bgeu,
    Lb,
    Lh,
    Lw,
    Ld,
    Lbu,
    Lhu,
    Lwu,
    Sb,
    Sh,
    Sw,
    Sd,
    Addi,
    Slti,
    Sltiu,
    Xori,
    Ori,
    Andi,
    Slli,
    Srli,
    Srai,
    Add,
    Sub,
    Sll,
    Slt,
    Sltu,
    Xor,
    Srl,
    Sra,
    Or,
    And,
    Mul,
    Mulh,
    Mulhsu,
    Mulhu,
    Div,
    Divu,
    Rem,
    Remu,
    Addiw,
    Slliw,
    Srliw,
    Sraiw,
    Addw,
    Subw,
    Sllw,
    Srlw,
    Sraw,
    Mulw,
    Divw,
    Divuw,
    Remw,
    Remuw,
    Jal,
    Jalr,
    Fence,
    Ecall,
    Ebreak,
    Unknown,
}

/// A decoded word. A field that the instruction lacks is x0 or 0.
#[derive(Clone, Copy)]
pub struct Row {
    pub code: Code,
    pub rd: Reg,
    pub rs1: Reg,
    pub rs2: Reg,
    pub imm: i32,
}

impl Row {
    #[tactic(auto, unfolding(crate::specs::Rows::instr_of))]
    fn new(code: Code, rd: Reg, rs1: Reg, rs2: Reg, imm: i32) -> Row
        ensures { instr_of result ≡ instr_by code rd rs1 rs2 imm }
    {
        Row {
            code,
            rd,
            rs1,
            rs2,
            imm,
        }
    }
}

/// The row of a code word.
#[tactic(auto, using(crate::proofs::Forms::formed))]
pub fn row_of_word(word: u32) -> Row
    ensures { instr_of result ≡ decoded word }
{
    match decode(word) {
        Some(instr) => row_of_instr(&instr),
        None => Row::new(Code::Unknown, zero(), zero(), zero(), 0),
    }
}

/// x0, which stands for a register that an instruction lacks.
fn zero() -> Reg
    ensures { result ≡ 0 }
{
    Reg::new(0).unwrap()
}

fn row_of_instr(instr: &Instr) -> Row
    requires { HasForm instr.now }
    ensures { instr_of result ≡ Some instr.now }
{
    let x0 = zero();
    match *instr {
        Instr::Upper { op, rd, imm } => Row::new(code_of(op), rd, x0, x0, imm),
        Instr::Jal { rd, imm } => Row::new(Code::Jal, rd, x0, x0, imm),
        Instr::Jalr { rd, rs1, imm } => Row::new(Code::Jalr, rd, rs1, x0, imm),
        Instr::Branch { op, rs1, rs2, imm } => Row::new(code_of(op), x0, rs1, rs2, imm),
        Instr::Load { op, rd, rs1, imm } => Row::new(code_of(op), rd, rs1, x0, imm),
        Instr::Save { op, rs1, rs2, imm } => Row::new(code_of(op), x0, rs1, rs2, imm),
        Instr::Imm { op, rd, rs1, imm } => Row::new(code_of(op), rd, rs1, x0, imm),
        Instr::Three { op, rd, rs1, rs2 } => Row::new(code_of(op), rd, rs1, rs2, 0),
        Instr::Fence { rd, rs1, imm } => Row::new(Code::Fence, rd, rs1, x0, imm),
        Instr::Ecall => Row::new(Code::Ecall, x0, x0, x0, 0),
        Instr::Ebreak => Row::new(Code::Ebreak, x0, x0, x0, 0),
    }
}

/// The code of a mnemonic: with it a row stands for an instruction of the mnemonic.
fn code_of(op: Op) -> Code
    ensures { (rd rs1 rs2 : ℕ) (imm : ℤ) → instr_by result rd rs1 rs2 imm ≡ Some (instr_with op rd rs1 rs2 imm) }
{
    match op {
        Op::Lui => Code::Lui,
        Op::Auipc => Code::Auipc,
        Op::Beq => Code::Beq,
        Op::Bne => Code::Bne,
        Op::Blt => Code::Blt,
        Op::Bge => Code::Bge,
        Op::Bltu => Code::Bltu,
        Op::Bgeu => Code::Bgeu,
        Op::Lb => Code::Lb,
        Op::Lh => Code::Lh,
        Op::Lw => Code::Lw,
        Op::Ld => Code::Ld,
        Op::Lbu => Code::Lbu,
        Op::Lhu => Code::Lhu,
        Op::Lwu => Code::Lwu,
        Op::Sb => Code::Sb,
        Op::Sh => Code::Sh,
        Op::Sw => Code::Sw,
        Op::Sd => Code::Sd,
        Op::Addi => Code::Addi,
        Op::Slti => Code::Slti,
        Op::Sltiu => Code::Sltiu,
        Op::Xori => Code::Xori,
        Op::Ori => Code::Ori,
        Op::Andi => Code::Andi,
        Op::Slli => Code::Slli,
        Op::Srli => Code::Srli,
        Op::Srai => Code::Srai,
        Op::Add => Code::Add,
        Op::Sub => Code::Sub,
        Op::Sll => Code::Sll,
        Op::Slt => Code::Slt,
        Op::Sltu => Code::Sltu,
        Op::Xor => Code::Xor,
        Op::Srl => Code::Srl,
        Op::Sra => Code::Sra,
        Op::Or => Code::Or,
        Op::And => Code::And,
        Op::Mul => Code::Mul,
        Op::Mulh => Code::Mulh,
        Op::Mulhsu => Code::Mulhsu,
        Op::Mulhu => Code::Mulhu,
        Op::Div => Code::Div,
        Op::Divu => Code::Divu,
        Op::Rem => Code::Rem,
        Op::Remu => Code::Remu,
        Op::Addiw => Code::Addiw,
        Op::Slliw => Code::Slliw,
        Op::Srliw => Code::Srliw,
        Op::Sraiw => Code::Sraiw,
        Op::Addw => Code::Addw,
        Op::Subw => Code::Subw,
        Op::Sllw => Code::Sllw,
        Op::Srlw => Code::Srlw,
        Op::Sraw => Code::Sraw,
        Op::Mulw => Code::Mulw,
        Op::Divw => Code::Divw,
        Op::Divuw => Code::Divuw,
        Op::Remw => Code::Remw,
        Op::Remuw => Code::Remuw,
    }
}
