//! The calls of the environment by their numbers.

ghost use Rattle.std.specs.Prelude.{◌≡◌};
ghost use Rattle.rv_machine.specs.Calls.{call_of};

/// What an ECALL asks for.
#[derive(Clone, Copy)]
pub enum Call {
    /// The program returns.
    Return,
    /// The program fails with a text.
    Fail,
    /// The program found its store region full.
    StoreFull,
    /// The program found its stack region full.
    StackFull,
    /// Bytes go to the output.
    Write,
    /// The next byte of the input is taken.
    Take,
    /// The next byte of the input is told, and stays.
    Peek,
    /// The number stands for nothing.
    Unknown(u64),
}

impl Call {
    /// The call of a number, as x17 has it.
    pub fn of(number: u64) -> Call
        ensures { result ≡ call_of number }
    {
        match number {
            0 => Call::Return,
            1 => Call::Fail,
            2 => Call::StoreFull,
            3 => Call::StackFull,
            4 => Call::Write,
            5 => Call::Take,
            6 => Call::Peek,
            _ => Call::Unknown(number),
        }
    }
}
