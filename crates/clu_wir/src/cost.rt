//! How many words of code the steps take at most that statements become, in a frame of any size: a word of the frame that
//! is too far for an immediate takes three.

ghost use Rattle.std.specs.Prelude.{◌≡◌};
ghost use Rattle.clu_wir.specs.Costs.{cost_words};

/// What takes words of code, beside the evaluation of expressions.
#[derive(Clone, Copy, PartialEq, Eq)]
pub enum Cost {
    /// A word from a register to a slot or to an address.
    Save,
    Jump,
    /// A jump that depends on a word.
    Branch,
    /// The making of a frame, but for its arguments.
    Enter,
    /// An argument, from the caller's frame to a slot.
    Argument,
    /// An object that becomes one of type any.
    Bind,
    /// A call, with its arguments in their slots.
    Invoke,
    Yield,
    Resume,
    /// The value that travels, to a slot.
    Take,
    /// One of the words that travel, to a slot.
    Result,
    /// The stack, to a mark.
    Cut,
    Leave,
    Raise,
    Signal,
    /// An exception that goes on as it is.
    Pass,
    Primitive,
}

impl Cost {
    /// The words of code.
    pub fn words(self) -> u64
        ensures { result ≡ cost_words self }
    {
        match self {
            Cost::Jump => 1,
            Cost::Branch => 2,
            Cost::Save | Cost::Take | Cost::Cut => 3,
            Cost::Argument | Cost::Result => 6,
            Cost::Invoke | Cost::Pass => 7,
            Cost::Bind | Cost::Resume | Cost::Leave => 8,
            Cost::Raise => 9,
            Cost::Enter => 12,
            Cost::Primitive | Cost::Signal => 13,
            Cost::Yield => 18,
        }
    }
}
