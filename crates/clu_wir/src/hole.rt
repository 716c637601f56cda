//! The words of code that only the linker knows.

ghost use Rattle.std.specs.Prelude.{◌≡◌};
ghost use Rattle.clu_wir.specs.Numbers.{kind_number};

/// What the word at a hole is. The first six kinds are read from the cells of the running instance's link
/// table; the others stand in the code itself.
#[derive(Clone, Copy, Debug, PartialEq, Eq)]
pub enum HoleKind {
    /// The entry address of a use.
    Entry,
    /// The address of the descriptor of a use.
    Descriptor,
    /// A constant: its word, which is the address of its words for a string.
    Constant,
    /// The address of one of the routine's own variables.
    RoutineOwn,
    /// The address of one of the cluster's own variables.
    ClusterOwn,
    /// The number of a type in the program.
    TypeWord,
    /// The address of the routine's regions table.
    Regions,
    /// The entry address of a part of the runtime.
    Runtime,
    /// The address of a word of the routine's code.
    Code,
    /// The address of the cell that holds the number of a type. The cells of the types after it lie after it.
    TypeCell,
}

impl HoleKind {
    /// The number of the kind in an object file. A hole gives the same number whether its cell is read or not.
    pub fn number(self) -> u8
        ensures { result ≡ kind_number self }
    {
        match self {
            HoleKind::TypeCell => HoleKind::TypeWord as u8,
            other => other as u8,
        }
    }
}
