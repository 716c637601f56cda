//! What no word code can say: taking store, input and output, and saving single bytes.

ghost use Rattle.std.specs.Prelude.{◌≡◌, slice_get};
ghost use Rattle.clu_wir.specs.Numbers.{primitive_number, primitives};

/// The primitives that word code calls by their number. Arguments and results are words.
#[derive(Clone, Copy, PartialEq, Eq)]
pub enum Primitive {
    /// The number of words that are wanted to the address of the first of them, which lie after those
    /// taken before. Where the store has no room for them the run ends.
    Allocate,
    /// An address and a number of bytes: these bytes go to the output. No result.
    Write,
    /// The next byte of the input, which is taken, or -1 at its end.
    TakeByte,
    /// The next byte of the input, which stays, or -1 at its end.
    PeekByte,
    /// An address and a byte, which is put there. No result.
    SaveByte,
}

/// All primitives, each at its number.
const PRIMITIVES: [Primitive; 5] = [
    Primitive::Allocate,
    Primitive::Write,
    Primitive::TakeByte,
    Primitive::PeekByte,
    Primitive::SaveByte,
];

impl Primitive {
    /// The number by which word code calls it.
    pub fn number(self) -> u32
        ensures { result ≡ primitive_number self }
    {
        self as u32
    }

    /// The primitive with this number.
    pub fn of(number: u32) -> Option<Primitive>
        ensures { result ≡ slice_get primitives number }
    {
        PRIMITIVES.get(number as usize).copied()
    }
}
