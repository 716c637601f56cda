//! The integer registers x0 to x31.

ghost use Rattle.std.specs.Prelude.{◌≡◌, ℕ, ◌<◌, ◌↔◌, IsSome, IfSome};

use std::marker::Model;

/// An integer register, seen by contracts as its number, which is below 32.
#[derive(Clone, Copy)]
pub struct Reg {
    number: u8,
}

impl Model for Reg {
    ghost Value = { ℕ };

    ghost view = { λ r. r.number };

    ghost invariant = { λ r. r.number < 32 };

    ghost inverse = { λ n. record { number = n } };
}

impl Reg {
    /// The register of this number. `None` exactly where the number is not below 32.
    pub fn new(number: u8) -> Option<Reg>
        ensures valid { IsSome result ↔ (number < 32) }
        ensures value { IfSome result (λ r. r ≡ number) }
    {
        if number < 32 {
            Some(Reg { number })
        } else {
            None
        }
    }

    /// The register's number as the bits of a word.
    pub(crate) fn bits(self) -> u32
        ensures value { result ≡ self }
        ensures bound { result < 32 }
    {
        u32::from(self.number)
    }

    /// The register of a number that is known to be one.
    pub(crate) fn of(number: u8) -> Reg
        requires { number < 32 }
        ensures { result ≡ number }
    {
        Reg { number }
    }

    /// The register's number.
    pub fn number(&self) -> u8
        ensures value { result ≡ self.now }
        ensures bound { self.now < 32 }
    {
        self.number
    }
}
