//! Why a hart stops before an instruction: a fault, or a call of the environment.

/// What stopped the hart, which is left as it was before the instruction.
#[derive(Clone, Copy)]
pub enum Trap {
    /// The word at this pc is no instruction, or EBREAK.
    Instruction { pc: u64 },
    /// A load or a store at this address is not allowed.
    Access { address: u64 },
    /// A jump to this address, which is not a multiple of 4; or the pc, which is outside the code.
    Jump { target: u64 },
    /// ECALL.
    Call,
}
