//! The instruction table: for each mnemonic the form of its word and the fields that tell it from the
//! others. Listed as in the RISC-V unprivileged specification, "RV32/64G Instruction Set Listings".

ghost use Rattle.std.specs.Prelude.{◌≡◌};
/// The mnemonics, other than those that are a form of `Instr` alone.
#[derive(Clone, Copy)]
pub enum Op {
    Lui,
    Auipc,
    Beq,
    Bne,
    Blt,
    Bge,
    Bltu,
    Bgeu,
    Lb,
    Lh,
    Lw,
    Ld,
    Lbu,
    Lhu,
    Lwu,
    Sb,
    Sh,
    Sw,
    Sd,
    Addi,
    Slti,
    Sltiu,
    Xori,
    Ori,
    Andi,
    Slli,
    Srli,
    Srai,
    Add,
    Sub,
    Sll,
    Slt,
    Sltu,
    Xor,
    Srl,
    Sra,
    Or,
    And,
    Mul,
    Mulh,
    Mulhsu,
    Mulhu,
    Div,
    Divu,
    Rem,
    Remu,
    Addiw,
    Slliw,
    Srliw,
    Sraiw,
    Addw,
    Subw,
    Sllw,
    Srlw,
    Sraw,
    Mulw,
    Divw,
    Divuw,
    Remw,
    Remuw,
}

/// How the operands of an instruction stand in its word, and which fields name it.
#[derive(Clone, Copy, PartialEq, Eq)]
pub(crate) enum Form {
    /// A register and the upper 20 bits of a number; named by the opcode.
    Upper,
    /// Two registers to compare and a distance; named by opcode and funct3.
    Branch,
    /// A register to fill and an address; named by opcode and funct3.
    Load,
    /// A register to store and an address; named by opcode and funct3.
    Save,
    /// Two registers and a number; named by opcode and funct3.
    Imm,
    /// Two registers and an amount below 64; named by opcode, funct3 and bits 31:26.
    Shift,
    /// Two registers and an amount below 32; named by opcode, funct3 and funct7.
    ShiftWord,
    /// Three registers; named by opcode, funct3 and funct7.
    Three,
}

/// A row of the instruction table. A field that does not name the form's instructions is 0.
#[derive(Clone, Copy)]
pub(crate) struct Row {
    pub form: Form,
    /// Bits 6:0.
    pub opcode: u32,
    /// Bits 14:12.
    pub funct3: u32,
    /// Bits 31:25; of `Form::Shift` bits 31:26.
    pub funct7: u32,
}

/// Every mnemonic, in the order of the table.
pub(crate) const OPS: [Op; 60] = [
    Op::Lui,
    Op::Auipc,
    Op::Beq,
    Op::Bne,
    Op::Blt,
    Op::Bge,
    Op::Bltu,
    Op::Bgeu,
    Op::Lb,
    Op::Lh,
    Op::Lw,
    Op::Ld,
    Op::Lbu,
    Op::Lhu,
    Op::Lwu,
    Op::Sb,
    Op::Sh,
    Op::Sw,
    Op::Sd,
    Op::Addi,
    Op::Slti,
    Op::Sltiu,
    Op::Xori,
    Op::Ori,
    Op::Andi,
    Op::Slli,
    Op::Srli,
    Op::Srai,
    Op::Add,
    Op::Sub,
    Op::Sll,
    Op::Slt,
    Op::Sltu,
    Op::Xor,
    Op::Srl,
    Op::Sra,
    Op::Or,
    Op::And,
    Op::Mul,
    Op::Mulh,
    Op::Mulhsu,
    Op::Mulhu,
    Op::Div,
    Op::Divu,
    Op::Rem,
    Op::Remu,
    Op::Addiw,
    Op::Slliw,
    Op::Srliw,
    Op::Sraiw,
    Op::Addw,
    Op::Subw,
    Op::Sllw,
    Op::Srlw,
    Op::Sraw,
    Op::Mulw,
    Op::Divw,
    Op::Divuw,
    Op::Remw,
    Op::Remuw,
];

impl Op {
    ghost use Rattle.rv_isa.specs.Table.{row_of, HasFields};

    /// The mnemonic's row of the instruction table.
    pub(crate) fn row(self) -> Row
        ensures value { result ≡ row_of self }
        ensures fields { HasFields result }
    {
        match self {
            Op::Lui => Row::new(Form::Upper, 0b0110111, 0b000, 0b0000000),
            Op::Auipc => Row::new(Form::Upper, 0b0010111, 0b000, 0b0000000),
            Op::Beq => Row::new(Form::Branch, 0b1100011, 0b000, 0b0000000),
            Op::Bne => Row::new(Form::Branch, 0b1100011, 0b001, 0b0000000),
            Op::Blt => Row::new(Form::Branch, 0b1100011, 0b100, 0b0000000),
            Op::Bge => Row::new(Form::Branch, 0b1100011, 0b101, 0b0000000),
            Op::Bltu => Row::new(Form::Branch, 0b1100011, 0b110, 0b0000000),
            Op::Bgeu => Row::new(Form::Branch, 0b1100011, 0b111, 0b0000000),
            Op::Lb => Row::new(Form::Load, 0b0000011, 0b000, 0b0000000),
            Op::Lh => Row::new(Form::Load, 0b0000011, 0b001, 0b0000000),
            Op::Lw => Row::new(Form::Load, 0b0000011, 0b010, 0b0000000),
            Op::Ld => Row::new(Form::Load, 0b0000011, 0b011, 0b0000000),
            Op::Lbu => Row::new(Form::Load, 0b0000011, 0b100, 0b0000000),
            Op::Lhu => Row::new(Form::Load, 0b0000011, 0b101, 0b0000000),
            Op::Lwu => Row::new(Form::Load, 0b0000011, 0b110, 0b0000000),
            Op::Sb => Row::new(Form::Save, 0b0100011, 0b000, 0b0000000),
            Op::Sh => Row::new(Form::Save, 0b0100011, 0b001, 0b0000000),
            Op::Sw => Row::new(Form::Save, 0b0100011, 0b010, 0b0000000),
            Op::Sd => Row::new(Form::Save, 0b0100011, 0b011, 0b0000000),
            Op::Addi => Row::new(Form::Imm, 0b0010011, 0b000, 0b0000000),
            Op::Slti => Row::new(Form::Imm, 0b0010011, 0b010, 0b0000000),
            Op::Sltiu => Row::new(Form::Imm, 0b0010011, 0b011, 0b0000000),
            Op::Xori => Row::new(Form::Imm, 0b0010011, 0b100, 0b0000000),
            Op::Ori => Row::new(Form::Imm, 0b0010011, 0b110, 0b0000000),
            Op::Andi => Row::new(Form::Imm, 0b0010011, 0b111, 0b0000000),
            Op::Slli => Row::new(Form::Shift, 0b0010011, 0b001, 0b000000),
            Op::Srli => Row::new(Form::Shift, 0b0010011, 0b101, 0b000000),
            Op::Srai => Row::new(Form::Shift, 0b0010011, 0b101, 0b010000),
            Op::Add => Row::new(Form::Three, 0b0110011, 0b000, 0b0000000),
            Op::Sub => Row::new(Form::Three, 0b0110011, 0b000, 0b0100000),
            Op::Sll => Row::new(Form::Three, 0b0110011, 0b001, 0b0000000),
            Op::Slt => Row::new(Form::Three, 0b0110011, 0b010, 0b0000000),
            Op::Sltu => Row::new(Form::Three, 0b0110011, 0b011, 0b0000000),
            Op::Xor => Row::new(Form::Three, 0b0110011, 0b100, 0b0000000),
            Op::Srl => Row::new(Form::Three, 0b0110011, 0b101, 0b0000000),
            Op::Sra => Row::new(Form::Three, 0b0110011, 0b101, 0b0100000),
            Op::Or => Row::new(Form::Three, 0b0110011, 0b110, 0b0000000),
            Op::And => Row::new(Form::Three, 0b0110011, 0b111, 0b0000000),
            Op::Mul => Row::new(Form::Three, 0b0110011, 0b000, 0b0000001),
            Op::Mulh => Row::new(Form::Three, 0b0110011, 0b001, 0b0000001),
            Op::Mulhsu => Row::new(Form::Three, 0b0110011, 0b010, 0b0000001),
            Op::Mulhu => Row::new(Form::Three, 0b0110011, 0b011, 0b0000001),
            Op::Div => Row::new(Form::Three, 0b0110011, 0b100, 0b0000001),
            Op::Divu => Row::new(Form::Three, 0b0110011, 0b101, 0b0000001),
            Op::Rem => Row::new(Form::Three, 0b0110011, 0b110, 0b0000001),
            Op::Remu => Row::new(Form::Three, 0b0110011, 0b111, 0b0000001),
            Op::Addiw => Row::new(Form::Imm, 0b0011011, 0b000, 0b0000000),
            Op::Slliw => Row::new(Form::ShiftWord, 0b0011011, 0b001, 0b0000000),
            Op::Srliw => Row::new(Form::ShiftWord, 0b0011011, 0b101, 0b0000000),
            Op::Sraiw => Row::new(Form::ShiftWord, 0b0011011, 0b101, 0b0100000),
            Op::Addw => Row::new(Form::Three, 0b0111011, 0b000, 0b0000000),
            Op::Subw => Row::new(Form::Three, 0b0111011, 0b000, 0b0100000),
            Op::Sllw => Row::new(Form::Three, 0b0111011, 0b001, 0b0000000),
            Op::Srlw => Row::new(Form::Three, 0b0111011, 0b101, 0b0000000),
            Op::Sraw => Row::new(Form::Three, 0b0111011, 0b101, 0b0100000),
            Op::Mulw => Row::new(Form::Three, 0b0111011, 0b000, 0b0000001),
            Op::Divw => Row::new(Form::Three, 0b0111011, 0b100, 0b0000001),
            Op::Divuw => Row::new(Form::Three, 0b0111011, 0b101, 0b0000001),
            Op::Remw => Row::new(Form::Three, 0b0111011, 0b110, 0b0000001),
            Op::Remuw => Row::new(Form::Three, 0b0111011, 0b111, 0b0000001),
        }
    }
}

impl Row {
    ghost use Rattle.rv_isa.specs.Table.{row};

    fn new(form: Form, opcode: u32, funct3: u32, funct7: u32) -> Row
        ensures { result ≡ row form opcode funct3 funct7 }
    {
        Row {
            form,
            opcode,
            funct3,
            funct7,
        }
    }
}
