//! How a run ends.

/// How a run ended, or that it has not ended in the given number of steps.
#[derive(Clone, Copy, PartialEq, Eq)]
pub enum Ending {
    /// The program returned.
    Returned,
    /// The program failed; its text is the `count` bytes at address `at`.
    Failure { at: u64, count: u64 },
    /// The program found its store region full.
    StoreFull,
    /// The program found its stack region full.
    StackFull,
    /// The given number of steps was executed, and none ended the run.
    StepsSpent,
    /// The word at the pc is no instruction, or EBREAK.
    BadInstruction { pc: u64 },
    /// A load, a store or a range of bytes at this address was not allowed.
    BadAccess { address: u64 },
    /// A jump to an address that is not a multiple of 4, or a pc outside the code.
    BadJump { target: u64 },
    /// An ECALL with a number that stands for nothing.
    BadEcall { number: u64 },
    /// The input failed.
    ReadFault,
    /// The output failed.
    WriteFault,
}
