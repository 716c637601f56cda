//! The registers that say where a program stands.

ghost use Rattle.std.specs.Prelude.{◌≡◌, ◌<◌};
ghost use Rattle.clu_trace.specs.Registers.{number_of};

use rv_isa::Reg;

#[derive(Clone, Copy)]
pub(crate) enum Register {
    /// The top of the stack.
    Top = 2,
    /// The link table of the running instance.
    Table = 9,
    /// The place of the running frame.
    Frame = 18,
}

impl Register {
    /// The register of the machine.
    pub fn reg(self) -> Reg
        ensures { result ≡ number_of self }
    {
        Reg::new(self.number()).unwrap()
    }

    fn number(self) -> u8
        ensures number { result ≡ number_of self }
        ensures below { result < 32 }
    {
        self as u8
    }
}
