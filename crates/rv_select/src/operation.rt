//! The instructions of the operations on two words.

ghost use Rattle.std.specs.Prelude.{◌≡◌};
ghost use Rattle.rv_select.specs.Operations.{instruction_of};

use clu_wir::WOp;
use rv_isa::Op;

/// The instruction that does an operation; of Equal the difference, which is to be compared with 0.
pub(crate) fn instruction(op: WOp) -> Op
    ensures { result ≡ instruction_of op }
{
    match op {
        WOp::Add => Op::Add,
        WOp::Sub | WOp::Equal => Op::Sub,
        WOp::Sll => Op::Sll,
        WOp::Slt => Op::Slt,
        WOp::Sltu => Op::Sltu,
        WOp::Xor => Op::Xor,
        WOp::Srl => Op::Srl,
        WOp::Sra => Op::Sra,
        WOp::Or => Op::Or,
        WOp::And => Op::And,
        WOp::Mul => Op::Mul,
        WOp::Mulh => Op::Mulh,
        WOp::Mulhsu => Op::Mulhsu,
        WOp::Mulhu => Op::Mulhu,
        WOp::Div => Op::Div,
        WOp::Divu => Op::Divu,
        WOp::Rem => Op::Rem,
        WOp::Remu => Op::Remu,
    }
}
