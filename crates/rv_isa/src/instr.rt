//! The instructions of RV64IM by their forms. An instruction's operands stand by name, its immediate
//! as the number that the machine adds or loads.

ghost use Rattle.std.specs.Prelude.{◌≡◌, ◌↔◌, ◌<◌, ◌≤◌, ◌%◌, ◌^◌, IsTrue};
ghost use Rattle.std.specs.Int.{w32, cast_unsigned};
ghost use Rattle.rv_isa.specs.Table.{row_of};
ghost use Rattle.rv_isa.specs.Valid.{IsWithin, IsDistance, IsUpper, FitsForm, IsValid};

use crate::op::{Form, Op};
use crate::reg::Reg;

/// An instruction. `imm` is the immediate after sign extension; of a shift by a constant it is the
/// amount. LUI's and AUIPC's is the whole 32-bit number, its low 12 bits zero.
#[derive(Clone, Copy)]
pub enum Instr {
    /// LUI and AUIPC.
    Upper {
        op: Op,
        rd: Reg,
        imm: i32,
    },
    /// JAL.
    Jal {
        rd: Reg,
        imm: i32,
    },
    /// JALR.
    Jalr {
        rd: Reg,
        rs1: Reg,
        imm: i32,
    },
    /// The conditional branches.
    Branch {
        op: Op,
        rs1: Reg,
        rs2: Reg,
        imm: i32,
    },
    /// The loads.
    Load {
        op: Op,
        rd: Reg,
        rs1: Reg,
        imm: i32,
    },
    /// The stores: `rs2` goes to memory at `rs1` plus the immediate.
    Save {
        op: Op,
        rs1: Reg,
        rs2: Reg,
        imm: i32,
    },
    /// The operations on a register and an immediate.
    Imm {
        op: Op,
        rd: Reg,
        rs1: Reg,
        imm: i32,
    },
    /// The operations on two registers.
    Three {
        op: Op,
        rd: Reg,
        rs1: Reg,
        rs2: Reg,
    },
    /// FENCE. Its registers and immediate are kept and mean nothing to this machine.
    Fence {
        rd: Reg,
        rs1: Reg,
        imm: i32,
    },
    /// ECALL.
    Ecall,
    /// EBREAK.
    Ebreak,
}

impl Instr {
    /// Whether the mnemonic is of the instruction's form and the immediate fits its field.
    pub fn valid(&self) -> bool
        ensures { IsTrue result ↔ IsValid self.now }
    {
        match *self {
            Instr::Upper { op, imm, .. } => is_of(op, Form::Upper) && is_upper(imm),
            Instr::Jal { imm, .. } => is_distance(imm, 1 << 20),
            Instr::Branch { op, imm, .. } => is_of(op, Form::Branch) && is_distance(imm, 1 << 12),
            Instr::Load { op, imm, .. } => is_of(op, Form::Load) && is_within(imm, 1 << 11),
            Instr::Save { op, imm, .. } => is_of(op, Form::Save) && is_within(imm, 1 << 11),
            Instr::Imm { op, imm, .. } => fits_form(imm, op.row().form),
            Instr::Three { op, .. } => is_of(op, Form::Three),
            Instr::Jalr { imm, .. } | Instr::Fence { imm, .. } => is_within(imm, 1 << 11),
            Instr::Ecall | Instr::Ebreak => true,
        }
    }
}

/// Whether the mnemonic is of a form.
fn is_of(op: Op, form: Form) -> bool
    ensures { IsTrue result ↔ ((row_of op).form ≡ form) }
{
    op.row().form == form
}

/// The number of two's complement modulo `limit`, a power of two.
fn low_bits(imm: i32, limit: u32) -> u32
    requires { 0 < limit }
    ensures { result ≡ cast_unsigned w32 imm % limit }
{
    imm.cast_unsigned() % limit
}

/// Whether the number fits two's complement with a sign bit worth `half`.
fn is_within(imm: i32, half: u32) -> bool
    requires { half ≤ 2 ^ 20 }
    ensures { IsTrue result ↔ IsWithin half imm }
{
    let half = half as i32;
    -half <= imm && imm < half
}

/// Whether the number is a distance of a jump that fits a sign bit worth `half`.
fn is_distance(imm: i32, half: u32) -> bool
    requires { half ≤ 2 ^ 20 }
    ensures { IsTrue result ↔ IsDistance half imm }
{
    is_within(imm, half) && low_bits(imm, 2) == 0
}

/// Whether the low 12 bits are zero.
fn is_upper(imm: i32) -> bool
    ensures { IsTrue result ↔ IsUpper imm }
{
    low_bits(imm, 1 << 12) == 0
}

/// Whether the number fits an operation of this form on a register and a number.
fn fits_form(imm: i32, form: Form) -> bool
    ensures { IsTrue result ↔ FitsForm form imm }
{
    match form {
        Form::Imm => is_within(imm, 1 << 11),
        Form::Shift => 0 <= imm && imm < 64,
        Form::ShiftWord => 0 <= imm && imm < 32,
        _ => false,
    }
}
