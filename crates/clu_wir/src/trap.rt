//! What the evaluation of an expression may raise.

ghost use Rattle.std.specs.Prelude.{◌≡◌};
ghost use Rattle.std.specs.Option.{option_copied};
ghost use Rattle.clu_wir.specs.Numbers.{trap_number};
ghost use Rattle.clu_wir.specs.Traps.{trap_name, trap_text};

/// An exception that an expression raises by itself.
#[derive(Clone, Copy, Debug, PartialEq, Eq)]
pub enum Trap {
    Overflow,
    ZeroDivide,
    Bounds,
    IllegalChar,
    WrongTag,
    /// The failure of a variable that names no object.
    Uninitialized,
}

/// All traps, each at its number.
pub const TRAPS: [Trap; 6] = [
    Trap::Overflow,
    Trap::ZeroDivide,
    Trap::Bounds,
    Trap::IllegalChar,
    Trap::WrongTag,
    Trap::Uninitialized,
];

impl Trap {
    /// The number by which code names it.
    pub fn number(self) -> u32
        ensures { result ≡ trap_number self }
    {
        self as u32
    }

    /// The name of the exception.
    #[tactic(auto, unfolding(crate::specs::Traps::trap_name))]
    pub fn name(self) -> &'static [u8]
        ensures { result.now ≡ trap_name self }
    {
        match self {
            Trap::Overflow => b"overflow",
            Trap::ZeroDivide => b"zero_divide",
            Trap::Bounds => b"bounds",
            Trap::IllegalChar => b"illegal_char",
            Trap::WrongTag => b"wrong_tag",
            Trap::Uninitialized => b"failure",
        }
    }

    /// The string that is its object, if it has one.
    #[tactic(auto, unfolding(crate::specs::Traps::trap_text))]
    pub fn text(self) -> Option<&'static [u8]>
        ensures { option_copied result ≡ trap_text self }
    {
        match self {
            Trap::Uninitialized => Some(b"uninitialized variable"),
            _ => None,
        }
    }
}
