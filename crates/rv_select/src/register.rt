//! The registers of the code by what they hold.

ghost use Rattle.std.specs.Prelude.{◌≡◌, ◌<◌};
ghost use Rattle.rv_select.specs.Registers.{register_number};

use self::Register::{
    A2, A3, A4, A5, A6, First, S3, S4, S5, S6, S7, S8, S9, S10, S11, Second, T3, T4, T5,
};
use rv_isa::Reg;

/// A register. From one flat step to the next the first group keeps what it holds, the two words that travel go with a
/// jump from one routine to another, and the others hold nothing.
#[derive(Clone, Copy)]
pub enum Register {
    Zero = 0,
    /// The top of the stack, which grows up.
    Top = 2,
    /// The next free word of the store.
    Store = 3,
    StoreEnd = 4,
    StackEnd = 8,
    /// The link table of the running instance.
    Table = 9,
    /// The place of the running frame.
    Frame = 18,

    /// The return address of a call.
    Back = 1,
    /// The caller's link table at a call.
    Caller = 7,
    /// The value that travels; the number or address that a call of the environment takes or gives.
    Value = 10,
    /// The address of the words that travel; the count that a call of the environment takes.
    Words = 11,

    /// The number of a call of the environment.
    Service = 17,
    // In which one step works.
    First = 5,
    Second = 6,
    /// The address near a place that no immediate reaches.
    Far = 31,

    // More of these.
    A2 = 12,
    A3 = 13,
    A4 = 14,
    A5 = 15,
    A6 = 16,
    S3 = 19,
    S4 = 20,
    S5 = 21,
    S6 = 22,
    S7 = 23,
    S8 = 24,
    S9 = 25,
    S10 = 26,
    S11 = 27,
    T3 = 28,
    T4 = 29,
    T5 = 30,
}

/// The registers in which expressions are evaluated.
pub const WORK: [Register; 19] = [
    First, Second, T3, T4, T5, A2, A3, A4, A5, A6, S3, S4, S5, S6, S7, S8, S9, S10, S11,
];

impl Register {
    /// The register of the machine.
    pub(crate) fn reg(self) -> Reg
        ensures { result ≡ register_number self }
    {
        Reg::new(self.number()).unwrap()
    }

    pub(crate) fn number(self) -> u8
        ensures number { result ≡ register_number self }
        ensures below { result < 32 }
    {
        self as u8
    }
}
