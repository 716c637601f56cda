//! The mnemonics: what each is called, and which operands follow it.

ghost use Rattle.std.specs.Prelude.{◌≡◌, bytes_eq};
ghost use Rattle.clu_asm.specs.Mnemonics.{op_name, op_form, form_of};

use rv_isa::{Instr, Op};

/// What a line of an instruction begins with.
#[derive(Clone, Copy)]
pub(crate) enum Mnemonic {
    /// An operation of the instruction table.
    Table(Op),
    Jal,
    Jalr,
    Fence,
    Ecall,
    Ebreak,
}

/// Which operands follow a mnemonic.
#[derive(Clone, Copy)]
pub(crate) enum Form {
    /// A register and the upper 20 bits of a number.
    Upper,
    /// A register and a distance.
    Jump,
    /// Two registers and a distance.
    Branch,
    /// A register to fill, and an address.
    Load,
    /// A register to store, and an address.
    Save,
    /// Two registers and a number.
    Imm,
    /// Two registers and an amount below 64.
    Shift,
    /// Two registers and an amount below 32.
    ShiftWord,
    /// Three registers.
    Three,
    /// None.
    Alone,
}

/// Every mnemonic, in the order of the instruction table.
pub(crate) const MNEMONICS: [Mnemonic; 65] = [
    Mnemonic::Table(Op::Lui),
    Mnemonic::Table(Op::Auipc),
    Mnemonic::Table(Op::Beq),
    Mnemonic::Table(Op::Bne),
    Mnemonic::Table(Op::Blt),
    Mnemonic::Table(Op::Bge),
    Mnemonic::Table(Op::Bltu),
    Mnemonic::Table(Op::Bgeu),
    Mnemonic::Table(Op::Lb),
    Mnemonic::Table(Op::Lh),
    Mnemonic::Table(Op::Lw),
    Mnemonic::Table(Op::Ld),
    Mnemonic::Table(Op::Lbu),
    Mnemonic::Table(Op::Lhu),
    Mnemonic::Table(Op::Lwu),
    Mnemonic::Table(Op::Sb),
    Mnemonic::Table(Op::Sh),
    Mnemonic::Table(Op::Sw),
    Mnemonic::Table(Op::Sd),
    Mnemonic::Table(Op::Addi),
    Mnemonic::Table(Op::Slti),
    Mnemonic::Table(Op::Sltiu),
    Mnemonic::Table(Op::Xori),
    Mnemonic::Table(Op::Ori),
    Mnemonic::Table(Op::Andi),
    Mnemonic::Table(Op::Slli),
    Mnemonic::Table(Op::Srli),
    Mnemonic::Table(Op::Srai),
    Mnemonic::Table(Op::Add),
    Mnemonic::Table(Op::Sub),
    Mnemonic::Table(Op::Sll),
    Mnemonic::Table(Op::Slt),
    Mnemonic::Table(Op::Sltu),
    Mnemonic::Table(Op::Xor),
    Mnemonic::Table(Op::Srl),
    Mnemonic::Table(Op::Sra),
    Mnemonic::Table(Op::Or),
    Mnemonic::Table(Op::And),
    Mnemonic::Table(Op::Mul),
    Mnemonic::Table(Op::Mulh),
    Mnemonic::Table(Op::Mulhsu),
    Mnemonic::Table(Op::Mulhu),
    Mnemonic::Table(Op::Div),
    Mnemonic::Table(Op::Divu),
    Mnemonic::Table(Op::Rem),
    Mnemonic::Table(Op::Remu),
    Mnemonic::Table(Op::Addiw),
    Mnemonic::Table(Op::Slliw),
    Mnemonic::Table(Op::Srliw),
    Mnemonic::Table(Op::Sraiw),
    Mnemonic::Table(Op::Addw),
    Mnemonic::Table(Op::Subw),
    Mnemonic::Table(Op::Sllw),
    Mnemonic::Table(Op::Srlw),
    Mnemonic::Table(Op::Sraw),
    Mnemonic::Table(Op::Mulw),
    Mnemonic::Table(Op::Divw),
    Mnemonic::Table(Op::Divuw),
    Mnemonic::Table(Op::Remw),
    Mnemonic::Table(Op::Remuw),
    Mnemonic::Jal,
    Mnemonic::Jalr,
    Mnemonic::Fence,
    Mnemonic::Ecall,
    Mnemonic::Ebreak,
];

impl Mnemonic {
    ghost use Rattle.clu_asm.specs.Mnemonics.{name_of, mnemonic_of};

    /// The mnemonic of an instruction.
    pub(crate) fn of(i: &Instr) -> Mnemonic
        ensures { result ≡ mnemonic_of i.now }
    {
        match *i {
            Instr::Upper { op, .. }
            | Instr::Branch { op, .. }
            | Instr::Load { op, .. }
            | Instr::Save { op, .. }
            | Instr::Imm { op, .. }
            | Instr::Three { op, .. } => Mnemonic::Table(op),
            Instr::Jal { .. } => Mnemonic::Jal,
            Instr::Jalr { .. } => Mnemonic::Jalr,
            Instr::Fence { .. } => Mnemonic::Fence,
            Instr::Ecall => Mnemonic::Ecall,
            Instr::Ebreak => Mnemonic::Ebreak,
        }
    }

    /// What it is called, in lower case.
    #[tactic(auto, unfolding(crate::specs::Mnemonics::name_of))]
    pub(crate) fn name(self) -> &'static [u8]
        ensures { result.now ≡ name_of self }
    {
        match self {
            Mnemonic::Table(op) => op_name(op),
            Mnemonic::Jal => b"jal",
            Mnemonic::Jalr => b"jalr",
            Mnemonic::Fence => b"fence",
            Mnemonic::Ecall => b"ecall",
            Mnemonic::Ebreak => b"ebreak",
        }
    }

    /// Whether it is called so.
    pub(crate) fn is_called(self, name: &[u8]) -> bool
        ensures { result ≡ bytes_eq (name_of self) name.now }
    {
        self.name() == name
    }

    /// Which operands follow it.
    pub(crate) fn form(self) -> Form
        ensures { result ≡ form_of self }
    {
        match self {
            Mnemonic::Table(op) => op_form(op),
            Mnemonic::Jal => Form::Jump,
            Mnemonic::Jalr | Mnemonic::Fence => Form::Imm,
            Mnemonic::Ecall | Mnemonic::Ebreak => Form::Alone,
        }
    }
}

/// What an operation of the table is called, in lower case.
#[tactic(auto, unfolding(crate::specs::Mnemonics::op_name))]
fn op_name(op: Op) -> &'static [u8]
    ensures { result.now ≡ op_name op }
{
    match op {
        Op::Lui => b"lui",
        Op::Auipc => b"auipc",
        Op::Beq => b"beq",
        Op::Bne => b"bne",
        Op::Blt => b"blt",
        Op::Bge => b"bge",
        Op::Bltu => b"bltu",
        Op::Bgeu => b"bgeu",
        Op::Lb => b"lb",
        Op::Lh => b"lh",
        Op::Lw => b"lw",
        Op::Ld => b"ld",
        Op::Lbu => b"lbu",
        Op::Lhu => b"lhu",
        Op::Lwu => b"lwu",
        Op::Sb => b"sb",
        Op::Sh => b"sh",
        Op::Sw => b"sw",
        Op::Sd => b"sd",
        Op::Addi => b"addi",
        Op::Slti => b"slti",
        Op::Sltiu => b"sltiu",
        Op::Xori => b"xori",
        Op::Ori => b"ori",
        Op::Andi => b"andi",
        Op::Slli => b"slli",
        Op::Srli => b"srli",
        Op::Srai => b"srai",
        Op::Add => b"add",
        Op::Sub => b"sub",
        Op::Sll => b"sll",
        Op::Slt => b"slt",
        Op::Sltu => b"sltu",
        Op::Xor => b"xor",
        Op::Srl => b"srl",
        Op::Sra => b"sra",
        Op::Or => b"or",
        Op::And => b"and",
        Op::Mul => b"mul",
        Op::Mulh => b"mulh",
        Op::Mulhsu => b"mulhsu",
        Op::Mulhu => b"mulhu",
        Op::Div => b"div",
        Op::Divu => b"divu",
        Op::Rem => b"rem",
        Op::Remu => b"remu",
        Op::Addiw => b"addiw",
        Op::Slliw => b"slliw",
        Op::Srliw => b"srliw",
        Op::Sraiw => b"sraiw",
        Op::Addw => b"addw",
        Op::Subw => b"subw",
        Op::Sllw => b"sllw",
        Op::Srlw => b"srlw",
        Op::Sraw => b"sraw",
        Op::Mulw => b"mulw",
        Op::Divw => b"divw",
        Op::Divuw => b"divuw",
        Op::Remw => b"remw",
        Op::Remuw => b"remuw",
    }
}

/// Which operands follow an operation of the table.
fn op_form(op: Op) -> Form
    ensures { result ≡ op_form op }
{
    match op {
        Op::Lui | Op::Auipc => Form::Upper,
        Op::Beq | Op::Bne | Op::Blt | Op::Bge | Op::Bltu | Op::Bgeu => Form::Branch,
        Op::Lb | Op::Lh | Op::Lw | Op::Ld | Op::Lbu | Op::Lhu | Op::Lwu => Form::Load,
        Op::Sb | Op::Sh | Op::Sw | Op::Sd => Form::Save,
        Op::Slli | Op::Srli | Op::Srai => Form::Shift,
        Op::Slliw | Op::Srliw | Op::Sraiw => Form::ShiftWord,
        Op::Addi | Op::Slti | Op::Sltiu | Op::Xori | Op::Ori | Op::Andi | Op::Addiw => Form::Imm,
        _ => Form::Three,
    }
}
